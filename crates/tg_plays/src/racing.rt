//! Scripts whose seats play at once, each in a thread of its own where one can be started.
ghost use Rattle.std.specs.Prelude.{◌≡◌, ◌==◌, ◌+◌, ◌<◌, ◌≤◌, ℕ, [], All, IfOk, OnOk, IfErr, Some, length, slice_get};
ghost use Rattle.tg_graph.specs.GraphOf.{graph_of};
ghost use Rattle.tg_graph.specs.Limits.{most_vertices};
ghost use Rattle.tg_text.specs.ScriptText.{script_of};
ghost use Rattle.tg_graph.specs.StepWords.{IsStageableAct};
ghost use Rattle.tg_store.specs.Running.{IsOf, IsSeat, GoesOn, PutsNothing, first_seat};
ghost use Rattle.tg_plays.specs.Runs.{playing_in};
ghost use Rattle.tg_inputs.specs.Outcomes.{Makes, IsPlayableScript, report_text};
ghost use Rattle.tg_plays.specs.Races.{seat_at, events_of, graph_report, IsRaced, IsRaceReport};
ghost use Rattle.tg_plays.specs.RaceParts.{AreStageable, TurnsOn, TurnsIf, IsFinished, AreFinished, AreGathered, MeetsOne, MeetsAll, MeetingFound, MeetingsFound, EndsInFault, EndsRace};

use crate::outcome_lines::LONGEST_LINE;
use crate::race_lines::{append_foreign, append_race_line};
use crate::turns::{Player, turn};
use std::alloc::{AllocError, Global};
use std::thread;
use std::thread::Threads;
use tg_analysis::{Gate, OpenGate};
use tg_graph::Graph;
use tg_inputs::{Halt, Report, graph_in, script_in};
use tg_store::{Seat, Store, StoreFault, StoreMeetFault};
use tg_text::{Script, ScriptLine, write_graph_behind};

/// What the thread of a seat brings back.
#[derive(Drop)]
pub(crate) struct Finished {
    /// The seat, with no open session.
    pub seat: Seat,
    /// The lines of its outcomes.
    pub text: Vec<u8>,
}

/// Makes room for the line of an outcome. Where that is refused while the seat's open session knows something
/// from earlier questions, it gives that up, and room is asked for once more.
pub fn make_room_in_race(text: &mut Vec<u8>, player: &mut Player)
    ensures text { text.new.items ≡ text.old.items }
    ensures player { player.new ≡ player.old }
{
    if text.reserve(LONGEST_LINE).is_err() && player.give_up_known() {
        // what is refused once more is refused to the line as well
        let _ = text.reserve(LONGEST_LINE);
    }
}

// Has a seat do what an event says, and appends the line of the outcome.
fn play_event(
    text: &mut Vec<u8>,
    store: &Store,
    player: Player,
    event: &ScriptLine,
) -> Result<Player, AllocError>
    requires seat { IsOf store.now (seat_at player) }
    requires act { IsStageableAct event.now.act }
    ensures { IfOk result (TurnsOn player event.now text.old.items text.new.items) }
{
    let (mut player, answer) = turn(store, player, &event.act);
    make_room_in_race(text, &mut player);
    append_race_line(text, event, &answer)?;
    Ok(player)
}

// Has the seat of that number do what an event says, if it is one of its own.
fn play_if_own(
    text: &mut Vec<u8>,
    store: &Store,
    player: Player,
    number: u32,
    event: &ScriptLine,
) -> Result<Player, AllocError>
    requires seat { IsOf store.now (seat_at player) }
    requires act { IsStageableAct event.now.act }
    ensures { IfOk result
        (TurnsIf (event.now.seat == number) player event.now text.old.items text.new.items) }
{
    if event.seat == number {
        play_event(text, store, player, event)
    } else {
        Ok(player)
    }
}

// Has a seat play its own events in turn, once it was let in. A session that is left open is given up.
fn play_seat<G: Gate>(
    alloc: Global,
    gate: &G,
    store: &Store,
    seat: Seat,
    events: &[ScriptLine],
) -> Result<Finished, AllocError>
    requires seat { IsOf store.now seat }
    requires events { AreStageable events.now }
    ensures { IfOk result (IsFinished events.now seat) }
{
    let mut text = Vec::new(alloc);
    let number = seat.number();
    gate.enter(number as usize);
    let mut player = Player::Free(seat);
    for event in events {
        player = play_if_own(&mut text, store, player, number, event)?;
    }
    Ok(Finished {
        seat: player.into_seat(),
        text,
    })
}

// Has each seat play its own events, in a thread of its own where one can be started.
fn play_all<R: Threads + Sync, G: Gate>(
    rt: &R,
    alloc: Global,
    gate: &G,
    store: &Store,
    seats: Vec<Seat>,
    events: &[ScriptLine],
) -> Result<Vec<Result<Finished, AllocError>>, AllocError>
    requires seats { All (IsOf store.now) seats.items }
    requires events { AreStageable events.now }
    ensures len { IfOk result (λ results. length results.items ≡ length seats.items) }
    ensures each { IfOk result (λ results. AreFinished events.now seats.items results.items) }
{
    let play = |seat: Seat| -> Result<Finished, AllocError>
        requires { IsOf store.now seat × AreStageable events.now }
        ensures { IfOk result (IsFinished events.entry.now seat) }
    { play_seat(alloc, gate, store, seat, events) };
    thread::map_vec(rt, seats, &play)
}

// The texts of the seats one after another, and the seats.
fn gather(
    alloc: Global,
    results: Vec<Result<Finished, AllocError>>,
) -> Result<(Vec<u8>, Vec<Seat>), AllocError>
    ensures { IfOk result (λ r. AreGathered results.items r.0.items r.1.items) }
{
    let mut text = Vec::new(alloc);
    let mut seats = Vec::with_capacity(alloc, results.len())?;
    for finished in results {
        let finished = finished?;
        text.extend_from_slice(&finished.text)?;
        seats.push(finished.seat)?;
    }
    Ok((text, seats))
}

// Has a seat meet what another has seen.
fn meet_one(store: &Store, seat: &mut Seat, other: &Seat) -> Result<(), StoreMeetFault>
    requires seat { IsOf store.now seat.old }
    requires other { IsOf store.now other.now }
    ensures goes_on { GoesOn seat.old seat.new × PutsNothing seat.old seat.new }
    ensures seat { IsSeat seat.new }
    ensures met { OnOk result (MeetsOne seat.old other.now seat.new) }
    ensures found { IfErr result (λ fault. MeetingFound fault other.now seat.new) }
{
    // its contract says what is true of each seat
    let _ = seat.taken();
    match store.front(other) {
        Ok(front) => store.meet(seat, &front),
        Err(AllocError) => Err(StoreMeetFault::Memory),
    }
}

// Has a seat meet what the others have seen, in turn.
fn meet_all(store: &Store, seat: &mut Seat, others: &[Seat]) -> Result<(), StoreMeetFault>
    requires seat { IsOf store.now seat.old }
    requires others { All (IsOf store.now) others.now }
    ensures goes_on { GoesOn seat.old seat.new × PutsNothing seat.old seat.new }
    ensures seat { IsSeat seat.new }
    ensures met { OnOk result (MeetsAll seat.old others.now seat.new) }
    ensures found { IfErr result (λ fault. MeetingsFound fault others.now seat.new) }
{
    // its contract says what is true of each seat
    let _ = seat.taken();
    for other in others {
        meet_one(store, seat, other)?;
    }
    Ok(())
}

// The end of a report: a graph.
fn end_in_graph(text: Vec<u8>, graph: &Graph) -> Result<Report, AllocError>
    ensures { IfOk result
        (λ report. report_text report ≡ graph_report text.items (graph_of graph.now)) }
{
    let mut bytes = text;
    bytes.extend_from_slice(b"graph\n")?;
    Ok(Report {
        bytes: write_graph_behind(bytes, graph)?,
        status: 0,
    })
}

// The end of a report where the last meeting failed: the line of a record that the seat did not
// put.
fn end_in_fault(text: Vec<u8>, fault: StoreMeetFault) -> Result<Report, AllocError>
    ensures { IfOk result (λ report. EndsInFault text.items fault (report_text report)) }
{
    let mut bytes = text;
    match fault {
        StoreMeetFault::Foreign(place) => append_foreign(&mut bytes, place)?,
        StoreMeetFault::Memory => return Err(AllocError),
    }
    Ok(Report { bytes, status: 1 })
}

// Has the first seat meet the others, and ends the report.
fn end_race(store: &Store, text: Vec<u8>, seats: Vec<Seat>) -> Result<Report, AllocError>
    requires some { 0 < length seats.items }
    requires seats { All (IsOf store.now) seats.items }
    ensures { IfOk result (λ report. EndsRace text.items seats.items (report_text report)) }
{
    let mut others = seats;
    let mut first = others.remove(0);
    match meet_all(store, &mut first, &others) {
        Ok(()) => {
            let report = end_in_graph(text, first.graph())?;
            Ok(report)
        }
        Err(fault) => {
            let report = end_in_fault(text, fault)?;
            Ok(report)
        }
    }
}

// A store over the graph with the cells and seats of the script, and its seats.
fn store_for(
    alloc: Global,
    graph: &Graph,
    script: &Script,
) -> Result<(Store, Vec<Seat>), AllocError>
    requires small { length (graph_of graph.now).vertices ≤ most_vertices }
    requires playable { IsPlayableScript (script_of script.now) }
    ensures opening { IfOk result (λ r. r.0.opening ≡ graph.now) }
    ensures cells { IfOk result (λ r. length r.0.cells ≡ script.now.cells) }
    ensures count { IfOk result (λ r. length r.1.items ≡ script.now.seats) }
    ensures seats { IfOk result
        (λ r. (k : ℕ) → k < script.now.seats
        → slice_get r.1.items k ≡ Some (first_seat r.0 (k + 1))) }
{
    match Store::start(alloc, graph, script.cells, script.seats) {
        Ok(opened) => Ok(opened),
        Err(StoreFault::Memory) => Err(AllocError),
        Err(StoreFault::TooManyVertices | StoreFault::Cells | StoreFault::Seats) => unreachable!(),
    }
}

// The report of a race of a script's seats over a graph.
fn raced<R: Threads + Sync, G: Gate>(
    rt: &R,
    alloc: Global,
    gate: &G,
    graph: &Graph,
    script: &Script,
) -> Result<Report, AllocError>
    requires small { length (graph_of graph.now).vertices ≤ most_vertices }
    requires playable { IsPlayableScript (script_of script.now) }
    ensures { IfOk result
        (λ report. IsRaced (graph_of graph.now) (script_of script.now) (report_text report)) }
{
    let (store, seats) = store_for(alloc, graph, script)?;
    let results = play_all(rt, alloc, gate, &store, seats, &script.lines)?;
    let (text, seats) = gather(alloc, results)?;
    let report = end_race(&store, text, seats)?;
    Ok(report)
}

// The report of a race for its texts, or the report of the first fault.
fn race_of<R: Threads + Sync, G: Gate>(
    rt: &R,
    alloc: Global,
    gate: &G,
    first: &[u8],
    second: &[u8],
) -> Result<Report, Halt>
    ensures { Makes (λ p. IsRaced p.graph p.script) result (playing_in first.now second.now) }
{
    let graph = graph_in(alloc, first)?;
    let script = script_in(alloc, second)?;
    let report = raced(rt, alloc, gate, &graph, &script)?;
    Ok(report)
}

/// The report of a script whose seats play at once, each in a thread of its own where one can be
/// started, on a store over the graph.
///
/// The lines of the outcomes stand by seat. When all have played, the first seat meets the others,
/// puts nothing more, and its graph ends the report; where it finds at another seat a record of its
/// own number that it did not put, that line does, with status 1. A session that is left open is given
/// up. An error means that there was no memory, other than for an event of a seat.
pub fn race<R: Threads + Sync + AllocGlobal>(
    rt: &R,
    first: &[u8],
    second: &[u8],
) -> Result<Report, AllocError>
    ensures { IfOk result (λ report. IsRaceReport first.now second.now (report_text report)) }
{
    race_through(rt, &OpenGate, first, second)
}

/// What [`race`] says, where each seat passes the gate once before its first event, with its own number, in the
/// thread that plays it. Tests see by it that seats play at once.
pub fn race_through<R: Threads + Sync + AllocGlobal, G: Gate>(
    rt: &R,
    gate: &G,
    first: &[u8],
    second: &[u8],
) -> Result<Report, AllocError>
    ensures { IfOk result (λ report. IsRaceReport first.now second.now (report_text report)) }
{
    match race_of(rt, rt.alloc(), gate, first, second) {
        Ok(report) => Ok(report),
        Err(Halt::Refused(report)) => Ok(report),
        Err(Halt::Memory) => Err(AllocError),
    }
}
