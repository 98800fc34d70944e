//! A monitor for running threads, which takes no lock.
ghost use Rattle.std.specs.Prelude.{◌≡◌, ◌↔◌, ◌+◌, ◌<◌, [], ℕ, All, IsTrue, IfOk, OnOk, IfErr, IfSome, Some, None, length, map, slice_get, take};
ghost use Rattle.std.specs.Arc.{arc_value};
ghost use Rattle.std.specs.Option.{option_copied};
ghost use Rattle.tg_graph.specs.GraphOf.{graph_of};
ghost use Rattle.tg_journal.specs.Lists.{Begins};
ghost use Rattle.tg_journal.specs.Pass.{PassState, IsPass};
ghost use Rattle.tg_hall.specs.declared.records.Record.{Record};
ghost use Rattle.tg_hall.specs.Histories.{IsLegal};
ghost use Rattle.tg_hall.specs.Worlds.{opening_fault};
ghost use Rattle.tg_store.specs.Running.{RunningSeat, IsOf, IsSeat, GoesOn, PutsNothing, seat_number, seat_from, first_seat};
ghost use Rattle.tg_store.specs.Outcomes.{told_fault, StartFaultSays, BeginSays, CommitSays, MeetFaultSays, HasSeenLonger, MeetingEnds};
ghost use Rattle.tg_store.specs.Agreed.{has_number, AreOfSeats, AreAgreed};

use crate::outcomes::{BeginFault, Begun, Committed, StoreMeetFault};
use crate::running_seats::Seat;
use crate::running_sessions::Session;
use std::alloc::{AllocError, Global};
use std::marker::Model;
use std::sync::Arc;
use tg_graph::{Graph, MOST_VERTICES};
use tg_hall::{Record, StoreFault};
use tg_journal::{Front, Journal, JournalFault, Pass};

/// A monitor for running threads: a journal that they fill together, and a seat for each of them.
#[derive(Drop)]
pub struct Store {
    opening: Arc<Graph, Global>,
    journal: Journal<Record>,
}

impl Model for Store {
    ghost use Rattle.tg_store.specs.Running.{RunningStore};

    ghost Value = { RunningStore };

    ghost view = { λ s. record { opening = s.opening.value; cells = s.journal } };
}

// Why no store is made, where no journal is.
fn store_fault(fault: JournalFault) -> StoreFault
    ensures { result ≡ told_fault fault }
{
    match fault {
        JournalFault::Cells => StoreFault::Cells,
        JournalFault::Seats => StoreFault::Seats,
        JournalFault::Memory => StoreFault::Memory,
    }
}

fn shared(alloc: Global, graph: &Graph) -> Result<Arc<Graph, Global>, AllocError>
    ensures { IfOk result (λ a. arc_value a ≡ graph.now) }
{
    match Arc::new(alloc, graph.copy()?) {
        Ok(opening) => Ok(opening),
        Err(_) => Err(AllocError),
    }
}

// A seat for each pass.
fn seats_of(
    alloc: Global,
    opening: &Arc<Graph, Global>,
    passes: Vec<Pass<Record>>,
) -> Result<Vec<Seat>, AllocError>
    requires { All (λ p. IsPass seat_number p × (p.seen ≡ []) × (p.mine ≡ [])) passes.items }
    ensures { IfOk result
        (λ seats. seats.items ≡ map (seat_from (arc_value opening.now)) passes.items) }
{
    let mut seats = Vec::with_capacity(alloc, passes.len())?;
    for pass in passes {
        let seat = Seat::start(opening, alloc, pass)?;
        seats.push(seat)?;
    }
    Ok(seats)
}

impl Store {
    /// A store over a copy of the opening graph, with an empty journal of so many cells, and its
    /// seats, numbered from 1 in their order.
    ///
    /// Its faults, in this order: the graph has more vertices than `MOST_VERTICES`; the cells are
    /// not 1 to `MOST_CELLS`; the seats are not 1 to `MOST_SEATS`; memory was refused.
    pub fn start(
        alloc: Global,
        graph: &Graph,
        cells: usize,
        seats: u32,
    ) -> Result<(Store, Vec<Seat>), StoreFault>
        ensures fault { IfErr result (StartFaultSays graph.now cells seats) }
        ensures limits { IfOk result (λ _. opening_fault (graph_of graph.now) cells seats ≡ None) }
        ensures opening { IfOk result (λ r. r.0.opening ≡ graph.now) }
        ensures cells { IfOk result (λ r. length r.0.cells ≡ cells) }
        ensures count { IfOk result (λ r. length r.1.items ≡ seats) }
        ensures each { IfOk result (λ r. All IsSeat r.1.items) }
        ensures seats { IfOk result
            (λ r. (k : ℕ) → k < seats → slice_get r.1.items k ≡ Some (first_seat r.0 (k + 1))) }
    {
        if graph.len() > MOST_VERTICES {
            return Err(StoreFault::TooManyVertices);
        }
        let (journal, passes) = match Journal::start(alloc, cells, seats) {
            Ok(made) => made,
            Err(fault) => return Err(store_fault(fault)),
        };
        let opening = shared(alloc, graph)?;
        let seats = seats_of(alloc, &opening, passes)?;
        all_kept(seats.as_slice());
        Ok((Store { opening, journal }, seats))
    }

    /// Opens a session on all records that the seat finds.
    ///
    /// Where that is refused, the seat comes back with what it has seen.
    pub fn begin(&self, seat: Seat) -> Begun
        requires { IsOf self.now seat }
        ensures { BeginSays seat result }
    {
        let mut seat = seat;
        if let Err(place) = seat.look_all(&self.journal) {
            return Begun::Refused(seat, BeginFault::Foreign(place));
        }
        if seat.take_in_all(&self.journal).is_err() {
            return Begun::Refused(seat, BeginFault::Memory);
        }
        Begun::Session(Session::open(seat))
    }

    /// Takes in the records that are left, one at a time, and puts the session after them.
    ///
    /// `Again` means that memory was refused and nothing put: the session goes on. Where all records are
    /// taken in and every cell is taken, the answer is `JournalFull`, before room for the session's own
    /// record is asked for.
    pub fn commit(&self, session: Session) -> Committed
        requires { IsOf self.now session.seat }
        ensures { CommitSays session result }
    {
        session.commit(&self.journal)
    }

    /// The records that the seat has seen, to be met by other seats.
    pub fn front(&self, seat: &Seat) -> Result<Front<Record>, AllocError>
        requires { IsOf self.now seat.now }
        ensures cells { IfOk result (λ f. f.cells ≡ take (length f.seen) self.now.cells) }
        ensures seen { IfOk result (λ f. f.seen ≡ seat.now.pass.seen) }
    {
        seat.front(&self.journal)
    }

    /// Has the seat see what the front has seen, whichever of the two has seen more, and take in all that
    /// it has seen.
    ///
    /// Its faults: `Foreign` where the front has, at a place that the seat had not seen, a record of
    /// the seat's own number; the seat has then seen what the front has before that place. `Memory`
    /// where memory was refused; the seat has then seen all, and has taken in some of it.
    pub fn meet(&self, seat: &mut Seat, front: &Front<Record>) -> Result<(), StoreMeetFault>
        requires seat { IsOf self.now seat.old }
        requires front { front.now.cells ≡ take (length front.now.seen) self.now.cells }
        ensures goes_on { GoesOn seat.old seat.new × PutsNothing seat.old seat.new }
        ensures met { IfOk result
            (λ _. Begins front.now.seen seat.new.pass.seen
            × (seat.new.taken ≡ length seat.new.pass.seen)) }
        ensures longer { OnOk result (HasSeenLonger front.now seat.old.pass seat.new.pass) }
        ensures refused { IfErr result (λ fault. MeetFaultSays fault seat.new) }
        ensures ends { IfErr result
            (λ fault. MeetingEnds fault front.now seat.old.pass seat.new.pass) }
        ensures seat { IsSeat seat.new }
    {
        if let Err(place) = seat.meet(&self.journal, front) {
            return Err(StoreMeetFault::Foreign(place));
        }
        if seat.take_in_all(&self.journal).is_err() {
            return Err(StoreMeetFault::Memory);
        }
        Ok(())
    }

    /// The record at a place that the seat has seen, and `None` for all others.
    pub fn at(&self, seat: &Seat, place: usize) -> Option<&Record>
        requires { IsOf self.now seat.now }
        ensures { option_copied result ≡ slice_get seat.now.pass.seen place }
    {
        seat.at(&self.journal, place)
    }

    // Whether two seats have seen equal records at a place.
    fn same_at(&self, one: &Seat, other: &Seat, place: usize) -> bool
        requires seats { IsOf self.now one.now × IsOf self.now other.now }
        requires seen { (place < length one.now.pass.seen) × (place < length other.now.pass.seen) }
        ensures { IsTrue result
            ↔ (slice_get other.now.pass.seen place ≡ slice_get one.now.pass.seen place) }
    {
        let Some(stored) = self.at(one, place) else {
            unreachable!()
        };
        let Some(found) = self.at(other, place) else {
            unreachable!()
        };
        found == stored
    }

    // Whether two seats have seen equal records.
    fn same_seen(&self, one: &Seat, other: &Seat) -> bool
        requires { IsOf self.now one.now × IsOf self.now other.now }
        ensures { IsTrue result ↔ (other.now.pass.seen ≡ one.now.pass.seen) }
    {
        let count = one.seen();
        if other.seen() != count {
            return false;
        }
        for place in 0..count {
            if !self.same_at(one, other, place) {
                return false;
            }
        }
        true
    }

    // Whether the record at a seen place bears a number of the seats.
    fn is_own_at(&self, seat: &Seat, place: usize, seats: &[Seat]) -> bool
        requires seat { IsOf self.now seat.now }
        requires seen { place < length seat.now.pass.seen }
        ensures { IfSome (slice_get seat.now.pass.seen place)
            (λ (r : Record). result ≡ has_number seats.now r.seat) }
    {
        let Some(stored) = self.at(seat, place) else {
            unreachable!()
        };
        has_number(seats, stored.seat)
    }

    // Whether each record that the seat has seen bears a number of the seats.
    fn all_own(&self, seat: &Seat, seats: &[Seat]) -> bool
        requires { IsOf self.now seat.now }
        ensures { IsTrue result ↔ AreOfSeats seats.now seat.now.pass.seen }
    {
        for place in 0..seat.seen() {
            if !self.is_own_at(seat, place, seats) {
                return false;
            }
        }
        true
    }

    // Whether all seats have seen what the first has.
    fn all_same(&self, first: &Seat, seats: &[Seat]) -> bool
        requires first { IsOf self.now first.now }
        requires seats { All (IsOf self.now) seats.now }
        ensures { IsTrue result
            ↔ ((i : ℕ) (s : RunningSeat) → slice_get seats.now i ≡ Some s
            → s.pass.seen ≡ first.now.pass.seen) }
    {
        for seat in seats {
            if !self.same_seen(first, seat) {
                return false;
            }
        }
        true
    }

    /// Whether at least one seat is given, all have seen equal records, and each record bears the
    /// number of one of them.
    ///
    /// Then these records are legal: each was put by a seat that knows it to be true.
    pub fn agreed(&self, seats: &[Seat]) -> bool
        requires { All (IsOf self.now) seats.now }
        ensures agreed { IsTrue result ↔ AreAgreed seats.now }
        ensures legal { IsTrue result
            → All (λ s. IsLegal (graph_of self.now.opening) s.pass.seen) seats.now }
    {
        if seats.is_empty() {
            return false;
        }
        let first = &seats[0];
        if !self.all_same(first, seats) {
            return false;
        }
        all_kept(seats);
        self.all_own(first, seats)
    }
}

// Whether one of the seats has the number.
fn has_number(seats: &[Seat], number: u32) -> bool
    ensures { result ≡ has_number seats.now number }
{
    seats.iter().any(|seat| seat.number() == number)
}

// What is true of each seat is true of all.
fn all_kept(seats: &[Seat])
    ensures { All IsSeat seats.now }
{
    for seat in seats {
        let _ = seat.taken();
    }
}
