//! The monitor in one thread.
ghost use Rattle.std.specs.Prelude.{◌≡◌, ◌+◌, ◌<◌, ◌≤◌, ◌⊎◌, ◌∷◌, ◌++◌, [], true, false, vec_len, All, IfOk, OnOk, OnErr, IfSome, Some, None, MatchOption, length, slice_get, map, replicate};
ghost use Rattle.std.specs.List.{AllZip};
ghost use Rattle.std.specs.Option.{option_map, option_copied};
ghost use Rattle.tg_graph.specs.Graphs.{ProtectionGraph};
ghost use Rattle.tg_graph.specs.GraphOf.{graph_of};
ghost use Rattle.tg_graph.specs.Limits.{most_cells};
ghost use Rattle.tg_hall.specs.Answers.{AreAnswers};
ghost use Rattle.tg_hall.specs.Histories.{replay, count_of, IsLegal, IsNumbered, AreApart};
ghost use Rattle.tg_hall.specs.Worlds.{takes_memory, is_short_of_memory, fresh_seat, seat_of, seat_in, rests_on, with_seat, TakeWithin, HoldTrue, Moves, Happens, Run, IsStageable, IsSpared, OpensHall};
ghost use Rattle.tg_graph.specs.StepWords.{IsStageableAct};
ghost use Rattle.tg_hall.specs.Acts.{is_learned, is_free, caught_up, IsBehind, act_takes_memory, MayLearn, Repeats, CatchesUp, Acts};
ghost use Rattle.std.specs.Vec.{vec_capacity};
ghost use Rattle.tg_hall.specs.Trails.{IsTrail};
ghost use Rattle.tg_hall.specs.Seats.{seen_seat, IsConsistent, Rests};

use crate::events::{Event, HallFault, HallReply, StoreFault};
use crate::records::Record;
use crate::replays;
use crate::seats::{self, SeatState};
use crate::trails::Trail;
use std::alloc::{AllocError, Global};
use std::marker::Model;
use tg_graph::{Act, Graph, MOST_CELLS, MOST_SEATS, MOST_VERTICES, Refusal, Reply};

/// A monitor in one thread: a history of committed sessions, and seats that take it in.
///
/// A contract sees it as its world.
#[derive(Drop)]
pub struct Hall {
    opening: Graph,
    cells: usize,
    records: Vec<Record>,
    trail: Trail,
    seats: Vec<SeatState>,
    alloc: Global,
}

impl Model for Hall {
    ghost use Rattle.tg_hall.specs.Worlds.{World};

    ghost Value = { World };

    ghost use Rattle.tg_hall.specs.HallFields.{world_of, IsHall};

    ghost view = { world_of };

    ghost invariant = { IsHall };
}

// Seats that have taken in nothing.
fn fresh_seats(alloc: Global, opening: &Graph, count: u32) -> Result<Vec<SeatState>, AllocError>
    ensures seen { IfOk result (λ seats. map seen_seat seats.items ≡ replicate count fresh_seat) }
    ensures rests { IfOk result (λ seats. All (Rests (graph_of opening.now) []) seats.items) }
    ensures fresh { IfOk result (λ seats. All (λ seat. seat.commits ≡ 0) seats.items) }
    ensures consistent { IfOk result (λ seats. All IsConsistent seats.items) }
{
    let mut seats = Vec::new(alloc);
    for made in 0..count {
        let seat = SeatState::new(alloc, opening)?;
        seats.push(seat)?;
    }
    Ok(seats)
}

// The place of the seat of a number among so many.
fn index_of(number: u32, count: usize) -> Option<usize>
    ensures { MatchOption result ((number ≡ 0) ⊎ (count < number))
        (λ i. (i + 1 ≡ number) × (i < count)) }
{
    let number = number as usize;
    if number == 0 || number > count {
        None
    } else {
        Some(number - 1)
    }
}

// The number of the seat at which an event happens.
fn seat_in(event: &Event) -> u32
    ensures { result ≡ seat_in event.now }
{
    match *event {
        Event::Begin(number) => number,
        Event::Learn(number) => number,
        Event::Stage(number, _) => number,
        Event::Put(number) => number,
        Event::Abort(number) => number,
    }
}

// What an event does at its seat.
fn event_at(
    seat: &mut SeatState,
    cells: usize,
    records: &mut Vec<Record>,
    trail: &mut Trail,
    event: &Event,
) -> HallReply
    requires stageable { IsStageable event.now }
    requires consistent { IsConsistent seat.old }
    requires answers { IfSome (slice_get records.old.items seat.old.taken)
        (λ r. AreAnswers (graph_of seat.old.graph) r.steps) }
    requires room { length records.old.items ≤ cells }
    requires cells { cells ≤ most_cells }
    requires within { seat.old.taken ≤ length records.old.items }
    requires counted { seat.old.commits ≡ count_of (seat_in event.now) records.old.items }
    ensures moves { Moves (graph_of seat.old.graph) cells records.old.items
        (seen_seat seat.old) event.now result (seen_seat seat.new) records.new.items }
    ensures rests { (g : ProtectionGraph) → Rests g records.old.items seat.old
        → Rests g records.new.items seat.new }
    ensures trail { (g : ProtectionGraph) → Rests g records.old.items seat.old
        → IsTrail g records.old.items trail.old → IsTrail g records.new.items trail.new }
    ensures consistent { IsConsistent seat.new }
    ensures counted { seat.new.commits ≡ count_of (seat_in event.now) records.new.items }
    ensures spared { takes_memory event.now ≡ false → is_short_of_memory result ≡ false }
{
    match *event {
        Event::Begin(_) => seat.begin(),
        Event::Learn(_) => seat.learn(records.as_slice()),
        Event::Stage(_, step) => seat.stage(step),
        Event::Put(number) => seat.put(number, cells, records, trail),
        Event::Abort(_) => seat.abort(),
    }
}

// Whether a reply says that a record was taken in.
fn is_learned(reply: &HallReply) -> bool
    ensures { result ≡ is_learned reply.now }
{
    match *reply {
        HallReply::Learned(_) => true,
        _ => false,
    }
}

// Whether a reply says that memory was refused.
fn is_short_of_memory(reply: &HallReply) -> bool
    ensures { result ≡ is_short_of_memory reply.now }
{
    match *reply {
        HallReply::Refused(HallFault::Memory) => true,
        _ => false,
    }
}

// Notes a reply, for which there is room.
fn note(replies: &mut Vec<HallReply>, reply: HallReply)
    requires { vec_len replies.old < vec_capacity replies.old }
    ensures items { replies.new.items ≡ replies.old.items ++ reply ∷ [] }
    ensures len { vec_len replies.new ≡ vec_len replies.old + 1 }
    ensures capacity { vec_capacity replies.new ≡ vec_capacity replies.old }
{
    // the check is told of the types inside a reply by these
    let _fault: Option<HallFault> = None;
    let _said: Option<Reply> = None;
    let _refusal: Option<Refusal> = None;
    replies.push_reserved(reply);
}

impl Hall {
    /// A hall over a copy of the opening graph, with an empty history of so many cells, and with
    /// seats from number 1 on.
    ///
    /// Its faults, in this order: the graph has more vertices than `MOST_VERTICES`; the cells are
    /// not 1 to `MOST_CELLS`; the seats are not 1 to `MOST_SEATS`; memory was refused.
    pub fn new(alloc: Global, graph: &Graph, cells: usize, seats: u32) -> Result<Hall, StoreFault>
        ensures { OpensHall graph.now cells seats result }
    {
        if graph.len() > MOST_VERTICES {
            return Err(StoreFault::TooManyVertices);
        }
        if cells == 0 || cells > MOST_CELLS {
            return Err(StoreFault::Cells);
        }
        if seats == 0 || seats > MOST_SEATS {
            return Err(StoreFault::Seats);
        }
        let opening = graph.copy()?;
        let seats = fresh_seats(alloc, &opening, seats)?;
        Ok(Hall {
            opening,
            cells,
            records: Vec::new(alloc),
            trail: Trail::new(alloc),
            seats,
            alloc,
        })
    }

    /// How many records stand in the history.
    pub fn len(&self) -> usize
        ensures value { result ≡ length self.now.history }
        ensures legal { IsLegal (graph_of self.now.opening) self.now.history }
        ensures numbered { IsNumbered self.now.history }
        ensures apart { AreApart self.now.history }
        ensures within { length self.now.history ≤ self.now.cells }
        ensures taken { TakeWithin self.now }
        ensures sessions { HoldTrue self.now }
    {
        self.records.len()
    }

    /// The record at a place of the history.
    pub fn at(&self, place: usize) -> Option<&Record>
        ensures { option_copied result ≡ slice_get self.now.history place }
    {
        self.records.get(place)
    }

    // The seat of a number.
    fn seat(&self, number: u32) -> Option<&SeatState>
        ensures seen { option_map (λ s. seen_seat s.now) result ≡ seat_of self.now number }
        ensures rests { IfSome result
            (λ s. Rests (graph_of self.now.opening) self.now.history s.now) }
    {
        let i = index_of(number, self.seats.len())?;
        Some(&self.seats[i])
    }

    /// How many records the seat of a number has taken in.
    pub fn taken(&self, seat: u32) -> Option<usize>
        ensures { result ≡ option_map (λ s. s.taken) (seat_of self.now seat) }
    {
        let seat = self.seat(seat)?;
        Some(seat.taken())
    }

    /// The graph of the seat of a number: the replay of what it has taken in.
    pub fn graph(&self, seat: u32) -> Option<&Graph>
        ensures { option_map (λ g. graph_of g.now) result
            ≡ option_map (rests_on self.now) (seat_of self.now seat) }
    {
        let seat = self.seat(seat)?;
        Some(seat.graph())
    }

    /// The replay of the whole history, which is legal.
    pub fn last(&self) -> Result<Graph, AllocError>
        ensures graph { IfOk result
            (λ graph. graph_of graph ≡ replay (graph_of self.now.opening) self.now.history) }
        ensures legal { IsLegal (graph_of self.now.opening) self.now.history }
    {
        // each seat leads there, and the one that put the last record has nothing left to take in
        let newest = self.records.last().map_or(1, |record| record.seat);
        match self.seat(newest) {
            Some(seat) => seat.replayed(self.records.as_slice()),
            None => replays::replayed(&self.opening, self.records.as_slice()),
        }
    }

    /// Gives up what the open sessions know of their graphs from earlier questions, and says whether that
    /// took memory. No answer hangs on it, and nothing that the hall stands for changes: it makes room, also
    /// for what is asked of the hall next, such as `last`.
    pub fn give_up_known(&mut self) -> bool
        ensures { self.new ≡ self.old }
    {
        seats::give_up_all(self.seats.as_mut_slice())
    }

    /// Whether some open session knows something that takes memory.
    pub fn knows_any(&self) -> bool {
        self.seats.iter().any(|seat| seat.knows_any())
    }

    // One event, which is tried once.
    fn try_event(&mut self, event: &Event) -> HallReply
        requires { IsStageable event.now }
        ensures happens { Happens self.old event.now result self.new }
        ensures spared { takes_memory event.now ≡ false → is_short_of_memory result ≡ false }
    {
        match index_of(seat_in(event), self.seats.len()) {
            None => HallReply::Refused(HallFault::NoSeat),
            Some(i) => event_at(
                &mut self.seats[i],
                self.cells,
                &mut self.records,
                &mut self.trail,
                event,
            ),
        }
    }

    // One event. Where it is refused memory while open sessions know something, that is given up, and the
    // event is tried once more.
    fn happen(&mut self, event: &Event) -> HallReply
        requires { IsStageable event.now }
        ensures happens { Happens self.old event.now result self.new }
        ensures spared { takes_memory event.now ≡ false → is_short_of_memory result ≡ false }
    {
        let reply = self.try_event(event);
        if !is_short_of_memory(&reply) {
            return reply;
        }
        if !self.give_up_known() {
            return reply;
        }
        self.try_event(event)
    }

    /// One event at a seat.
    ///
    /// `NoSeat` comes exactly where no seat has the number. What each event answers and leaves is
    /// `Happens`. To open a session and to give one up take no memory.
    pub fn step(&mut self, event: Event) -> HallReply
        requires { IsStageable event }
        ensures happens { Happens self.old event result self.new }
        ensures spared { takes_memory event ≡ false → is_short_of_memory result ≡ false }
    {
        self.happen(&event)
    }

    // Room for so many replies. Where it is refused while open sessions know something, that is given up, and
    // it is asked for once more.
    fn room_for(&mut self, count: usize) -> Result<Vec<HallReply>, AllocError>
        ensures room { IfOk result (λ replies. vec_capacity replies ≡ count) }
        ensures empty { IfOk result (λ replies. (replies.items ≡ []) × (vec_len replies ≡ 0)) }
        ensures same { self.new ≡ self.old }
    {
        if let Ok(replies) = Vec::with_capacity(self.alloc, count) {
            return Ok(replies);
        }
        if !self.give_up_known() {
            return Err(AllocError);
        }
        Vec::with_capacity(self.alloc, count)
    }

    /// Events one after another. An error changes nothing: room for the replies is made first.
    pub fn run(&mut self, events: &[Event]) -> Result<Vec<HallReply>, AllocError>
        requires { All IsStageable events.now }
        ensures run { IfOk result (λ replies. Run self.old events.now replies.items self.new) }
        ensures spared { IfOk result (λ replies. AllZip IsSpared events.now replies.items) }
        ensures legal { OnOk result (IsLegal (graph_of self.new.opening) self.new.history) }
        ensures err { OnErr result (self.new ≡ self.old) }
    {
        let mut replies = self.room_for(events.len())?;
        for event in events {
            let reply = self.happen(event);
            note(&mut replies, reply);
        }
        // `len` says that the history is legal
        let _ = self.len();
        Ok(replies)
    }

    // An event again and again, for as long as it takes in records.
    fn repeat(&mut self, event: &Event) -> HallReply
        requires { MayLearn event.now }
        ensures { Repeats self.old event.now result self.new }
    {
        let mut answer = self.happen(event);
        while is_learned(&answer) {
            answer = self.happen(event);
        }
        answer
    }

    // Whether there is such a seat, with no open session.
    fn is_free(&self, seat: u32) -> bool
        ensures { result ≡ is_free self.now seat }
    {
        match self.seat(seat) {
            Some(seat) => !seat.is_open(),
            None => false,
        }
    }

    // A seat that is behind, and another that has taken in all, as the one that put the last record
    // has: their indices.
    fn behind(&self, seat: u32) -> Option<(usize, usize)>
        ensures { IfSome result (λ pair. IsBehind self.now seat pair.0 pair.1) }
    {
        let all = self.records.len();
        let newest = self.records.last()?.seat;
        let index = index_of(seat, self.seats.len())?;
        let other = index_of(newest, self.seats.len())?;
        if self.seats[index].taken() < all && self.seats[other].taken() == all {
            Some((index, other))
        } else {
            None
        }
    }

    // A free seat takes in all that is left at once, over from another that has taken in all: at
    // the cost of the vertices that were written since. It is tried once.
    fn try_take_over(&mut self, index: usize, other: usize) -> Result<(), AllocError>
        requires behind { IsBehind self.old (index + 1) index other }
        requires free { is_free self.old (index + 1) ≡ true }
        ensures took { OnOk result
            (self.new ≡ with_seat self.old (index + 1) (caught_up self.old) self.old.history) }
        ensures err { OnErr result (self.new ≡ self.old) }
    {
        let positions = self.trail.from(self.seats[index].taken());
        seats::take_over(self.seats.as_mut_slice(), index, other, positions)
    }

    // The same. Where it is refused memory while open sessions know something, that is given up, and it is
    // tried once more.
    fn take_over(&mut self, index: usize, other: usize) -> Result<(), AllocError>
        requires behind { IsBehind self.old (index + 1) index other }
        requires free { is_free self.old (index + 1) ≡ true }
        ensures took { OnOk result
            (self.new ≡ with_seat self.old (index + 1) (caught_up self.old) self.old.history) }
        ensures err { OnErr result (self.new ≡ self.old) }
    {
        if self.try_take_over(index, other).is_ok() {
            return Ok(());
        }
        if !self.give_up_known() {
            return Err(AllocError);
        }
        self.try_take_over(index, other)
    }

    // A free seat takes in all that is left.
    fn learn_all(&mut self, seat: u32) -> HallReply
        requires { is_free self.old seat ≡ true }
        ensures { Repeats self.old (Event.Learn seat) result self.new }
    {
        match self.behind(seat) {
            None => self.repeat(&Event::Learn(seat)),
            Some((index, other)) => match self.take_over(index, other) {
                Ok(()) => HallReply::Nothing,
                Err(AllocError) => HallReply::Refused(HallFault::Memory),
            },
        }
    }

    // A free seat takes in all that is left, and then opens a session.
    fn catch_up(&mut self, seat: u32) -> HallReply
        requires { is_free self.old seat ≡ true }
        ensures { CatchesUp self.old seat result self.new }
    {
        let told = self.learn_all(seat);
        match told {
            HallReply::Nothing => self.happen(&Event::Begin(seat)),
            other => other,
        }
    }

    /// One act of a seat: to take in all that is left and open a session, to stage a step, to
    /// commit, or to give up.
    ///
    /// Want of memory ends an act where it stands. To give up takes none, nor does what is refused since
    /// no seat has the number or its session is open already.
    pub fn act(&mut self, seat: u32, act: &Act) -> HallReply
        requires { IsStageableAct act.now }
        ensures acts { Acts self.old seat act.now result self.new }
        ensures spared { act_takes_memory self.old seat act.now ≡ false
            → is_short_of_memory result ≡ false }
    {
        match *act {
            Act::Begin => {
                if self.is_free(seat) {
                    self.catch_up(seat)
                } else {
                    self.happen(&Event::Begin(seat))
                }
            }
            Act::Stage(step) => self.happen(&Event::Stage(seat, step)),
            Act::Commit => self.repeat(&Event::Put(seat)),
            Act::Abort => self.happen(&Event::Abort(seat)),
        }
    }
}
