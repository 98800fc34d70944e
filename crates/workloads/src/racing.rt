//! The seats of a store play by turns.
ghost use Rattle.std.specs.Prelude.{◌≡◌, IfOk, All, ◌<◌, ℕ, Some, length, slice_get};
ghost use Rattle.tg_store.specs.Running.{IsOf, first_seat};

use crate::chance::Chance;
use crate::digest::Digest;
use crate::fault::Fault;
use crate::plans::{Labels, Plan};
use crate::sizes::Size;
use crate::steps::{Steps, step};
use crate::texts::{graph, names};
use std::alloc::{AllocError, Global};
use tg_graph::{Graph, Name};
use tg_store::{BeginFault, Begun, CommitFault, Committed, Seat, Session, Store};

// Stages the steps of a session.
fn stage_all(
    session: &mut Session,
    names: &[Name],
    chance: &mut Chance,
    digest: &mut Digest,
) -> Result<(), AllocError>
    ensures { session.new.seat ≡ session.old.seat }
{
    for _ in 0..3 {
        let step = step(Steps::Changes, names, chance);
        match session.step(step) {
            Ok(reply) => digest.add_reply(&reply),
            Err(AllocError) => return Err(AllocError),
        }
    }
    Ok(())
}

// Takes in why no session was opened.
fn add_begin_fault(digest: &mut Digest, fault: &BeginFault) {
    match *fault {
        BeginFault::Foreign(place) => digest.add_place(51, place),
        BeginFault::Memory => digest.add(52),
    }
}

// Takes in why a session was not put.
fn add_commit_fault(digest: &mut Digest, fault: &CommitFault) {
    match *fault {
        CommitFault::Changed { place, name } => digest.add_place_and_name(61, place, name),
        CommitFault::Crowded { place } => digest.add_place(62, place),
        CommitFault::JournalFull => digest.add(63),
        CommitFault::Foreign(place) => digest.add_place(64, place),
    }
}

// Commits a session. Its seat comes back.
fn commit(store: &Store, session: Session, digest: &mut Digest) -> Seat
    requires { IsOf store.now session.seat }
    ensures { IsOf store.now result }
{
    match store.commit(session) {
        Committed::Done(seat, receipt) => {
            digest.add_place(65, receipt.place);
            seat
        }
        Committed::Refused(seat, fault) => {
            add_commit_fault(digest, &fault);
            seat
        }
        Committed::Again(session) => {
            digest.add(66);
            session.abort()
        }
    }
}

// Has a seat play one session.
fn play_turn(
    store: &Store,
    seat: Seat,
    names: &[Name],
    chance: &mut Chance,
    digest: &mut Digest,
) -> Result<Seat, AllocError>
    requires { IsOf store.now seat }
    ensures { IfOk result (λ seat. IsOf store.now seat) }
{
    match store.begin(seat) {
        Begun::Session(session) => {
            let mut session = session;
            stage_all(&mut session, names, chance, digest)?;
            Ok(commit(store, session, digest))
        }
        Begun::Refused(seat, fault) => {
            add_begin_fault(digest, &fault);
            Ok(seat)
        }
    }
}

// Has each seat play one session, in turn.
fn play_round(
    alloc: Global,
    store: &Store,
    seats: Vec<Seat>,
    names: &[Name],
    chance: &mut Chance,
    digest: &mut Digest,
) -> Result<Vec<Seat>, AllocError>
    requires { All (IsOf store.now) seats.items }
    ensures { IfOk result (λ seats. All (IsOf store.now) seats.items) }
{
    let mut played = Vec::with_capacity(alloc, seats.len())?;
    for seat in seats {
        let seat = play_turn(store, seat, names, chance, digest)?;
        played.push(seat)?;
    }
    Ok(played)
}

// Takes the graph of each seat in.
fn add_graphs(alloc: Global, seats: &[Seat], digest: &mut Digest) -> Result<(), AllocError> {
    for seat in seats {
        digest.add_graph(alloc, seat.graph())?;
    }
    Ok(())
}

// Has the seats play by turns, and takes their graphs in.
fn play_all(
    alloc: Global,
    store: &Store,
    seats: Vec<Seat>,
    rounds: usize,
    names: &[Name],
    chance: &mut Chance,
    digest: &mut Digest,
) -> Result<(), AllocError>
    requires { All (IsOf store.now) seats.items }
{
    let mut seats = seats;
    for _ in 0..rounds {
        seats = play_round(alloc, store, seats, names, chance, digest)?;
    }
    add_graphs(alloc, &seats, digest)?;
    Ok(())
}

// A store over a graph, and its seats.
fn started(alloc: Global, graph: &Graph, count: u32) -> Result<(Store, Vec<Seat>), Fault>
    ensures { IfOk result (λ r. All (IsOf r.0) r.1.items) }
{
    match Store::start(alloc, graph, 4_096, count) {
        Ok(opened) => Ok(opened),
        Err(_) => Err(Fault::Refused),
    }
}

// Makes a graph, and has so many seats play on it.
fn play_plan(
    alloc: Global,
    plan: &Plan,
    count: u32,
    sessions: usize,
    chance: &mut Chance,
    digest: &mut Digest,
) -> Result<(), Fault> {
    let names = names(alloc, plan)?;
    let graph = graph(alloc, plan, &names, chance)?;
    let (store, seats) = started(alloc, &graph, count)?;
    let rounds = sessions.checked_div(count as usize).unwrap_or(0);
    play_all(alloc, &store, seats, rounds, &names, chance, digest)?;
    Ok(())
}

/// Stores of each kind.
pub(crate) fn race(
    alloc: Global,
    size: &Size,
    chance: &mut Chance,
    digest: &mut Digest,
) -> Result<(), Fault> {
    let sparse = Plan::scattered(size.vertices, 4, Labels::Several);
    let dense = Plan::scattered(size.vertices, size.vertices / 8, Labels::One);
    let sessions = size.part_of(4_096);
    play_plan(alloc, &sparse, 4, sessions, chance, digest)?;
    play_plan(alloc, &sparse, 64, sessions, chance, digest)?;
    play_plan(alloc, &dense, 16, sessions, chance, digest)?;
    Ok(())
}
