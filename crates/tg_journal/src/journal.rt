//! The journal, and its calls.
ghost use Rattle.std.specs.Prelude.{All, IfSome, IsTrue, IsFalse, IsSome, ◌≡◌, ◌≢◌, ◌≤◌, ◌<◌, ℕ, ◌+◌, length, max, take, map, slice_get, IfOk, IfErr, ◌↔◌};
ghost use Rattle.std.specs.Option.{option_copied};
ghost use Rattle.tg_journal.specs.Limits.{most_cells, most_seats};
ghost use Rattle.tg_journal.specs.Lists.{Begins, Agree};
ghost use Rattle.tg_journal.specs.Pass.{fresh, IsPass, Remembers, KnowsAt, KnowsOthersAsBefore, KnowsFromAsBefore};
ghost use Rattle.tg_journal.specs.Answers.{AreCells, AreSeats, StartFaultSays, NextSays, PutSays, IsForeign, LookSays, MeetFaultSays};

use crate::answers::{JournalFault, MeetFault, Next, Put};
use crate::entry::Entry;
use crate::limits::{MOST_CELLS, MOST_SEATS};
use crate::pass::{Front, Pass};
use once_cell::race::{Note, OnceBox};
use std::alloc::{AllocError, Global};
use std::marker::Model;

/// A row of cells, each of which is set at most once. Contracts see it as the list of its cells'
/// names.
#[derive(Drop)]
pub struct Journal<R> {
    pub(crate) cells: Vec<OnceBox<R>>,
    pub(crate) alloc: Global,
}

impl<R> Model for Journal<R> {
    ghost use Rattle.std.specs.Prelude.{ℕ, List, map};
    ghost use Rattle.once_cell.specs.Once.{cell_name};

    ghost Value = { List ℕ };

    ghost view = { λ j. map cell_name j.cells.items };
}

impl<R: Entry> Journal<R> {
    /// A journal of 1 to 4,096 empty cells with 1 to 64 passes, numbered from 1 in their order.
    /// Nothing else makes a pass. All room that the passes need later is made here.
    ///
    /// Refusals, in this order: `Cells` and `Seats` for a number outside these limits, and
    /// `Memory`.
    pub fn start(
        alloc: Global,
        cells: usize,
        seats: u32,
    ) -> Result<(Journal<R>, Vec<Pass<R>>), JournalFault>
        ensures limits { IfOk result (λ _. AreCells cells × AreSeats seats) }
        ensures refused { IfErr result (StartFaultSays cells seats) }
        ensures cells { IfOk result (λ r. length r.0 ≡ cells) }
        ensures passes { IfOk result (λ r. length r.1.items ≡ seats) }
        ensures fresh { IfOk result (λ r.
            (k : ℕ) → k < seats → slice_get r.1.items k ≡ Some (fresh r.0 (k + 1))) }
        ensures each { IfOk result (λ r. All (IsPass R.seat_of) r.1.items) }
    {
        if cells == 0 || cells > MOST_CELLS {
            return Err(JournalFault::Cells);
        }
        if seats == 0 || seats > MOST_SEATS {
            return Err(JournalFault::Seats);
        }
        let journal = Journal::empty(alloc, cells)?;
        let passes = journal.passes(seats)?;
        Ok((journal, passes))
    }

    fn empty(alloc: Global, cells: usize) -> Result<Journal<R>, AllocError>
        ensures { IfOk result (λ j. length j ≡ cells) }
    {
        let mut row = Vec::with_capacity(alloc, cells)?;
        for _ in 0..cells {
            row.push(OnceBox::new(alloc))?;
        }
        Ok(Journal { cells: row, alloc })
    }

    fn passes(&self, seats: u32) -> Result<Vec<Pass<R>>, AllocError>
        requires seats { seats ≤ most_seats }
        requires cells { length self.now ≤ most_cells }
        ensures number { IfOk result (λ r. length r.items ≡ seats) }
        ensures fresh { IfOk result (λ r.
            (k : ℕ) → k < seats → slice_get r.items k ≡ Some (fresh self.now (k + 1))) }
        ensures each { IfOk result (λ r. All (IsPass R.seat_of) r.items) }
    {
        let mut passes = Vec::with_capacity(self.alloc, seats as usize)?;
        for number in 0..seats {
            passes.push(self.pass(number + 1)?)?;
        }
        Ok(passes)
    }

    // `mine` gets room for a place in each cell, so that `put` needs no memory after the setting.
    fn pass(&self, number: u32) -> Result<Pass<R>, AllocError>
        requires { length self.now ≤ most_cells }
        ensures { IfOk result (λ p. p ≡ fresh self.now number) }
    {
        let mut notes = Vec::with_capacity(self.alloc, self.cells.len())?;
        for cell in &self.cells {
            notes.push(cell.note())?;
        }
        let mine = Vec::with_capacity(self.alloc, self.cells.len())?;
        Ok(Pass {
            number,
            count: 0,
            notes,
            mine,
        })
    }

    /// Looks at the first cell that the pass has not seen: one load. It takes no memory.
    ///
    /// That it finds what another thread has set is promised only of a pass that was told of it by
    /// a front.
    pub fn next<'a>(&'a self, pass: &mut Pass<R>) -> Next<'a, R>
        requires { pass.old.cells ≡ self.now }
        ensures number { pass.new.number ≡ pass.old.number }
        ensures cells { pass.new.cells ≡ pass.old.cells }
        ensures mine { pass.new.mine ≡ pass.old.mine }
        ensures known { Remembers pass.old pass.new }
        ensures pass { IsPass R.seat_of pass.new }
        ensures others { KnowsOthersAsBefore pass.old pass.new }
        ensures seen { NextSays R.seat_of result pass.old pass.new }
    {
        let place = pass.count;
        if place >= self.cells.len() {
            return Next::End;
        }
        match self.cells[place].get_as(&mut pass.notes[place]) {
            None => Next::End,
            Some(found) => {
                if found.seat() == pass.number {
                    Next::Foreign(place)
                } else {
                    pass.count += 1;
                    Next::Entry(found)
                }
            }
        }
    }

    /// Tries to set the first cell that the pass has not seen to a copy of the record, made before:
    /// one setting.
    ///
    /// Answers `Full` exactly where the pass has seen every cell. `Memory` changes nothing.
    pub fn put(&self, pass: &mut Pass<R>, entry: &R) -> Put
        requires cells { pass.old.cells ≡ self.now }
        requires seat { R.seat_of entry.now ≡ pass.old.number }
        ensures number { pass.new.number ≡ pass.old.number }
        ensures cells { pass.new.cells ≡ pass.old.cells }
        ensures full { (result ≡ Put.Full) ↔ (length pass.old.seen ≡ length pass.old.cells) }
        ensures known { Remembers pass.old pass.new }
        ensures pass { IsPass R.seat_of pass.new }
        ensures others { KnowsOthersAsBefore pass.old pass.new }
        ensures seen { PutSays R.seat_of entry.now result pass.old pass.new }
    {
        let place = pass.count;
        if place >= self.cells.len() {
            return Put::Full;
        }
        let Ok(copied) = boxed(self.alloc, entry) else {
            return Put::Memory;
        };
        let found = self.cells[place].get_or_init_as(move || copied, &mut pass.notes[place]);
        if found == entry {
            pass.mine.push_reserved(place);
            pass.count += 1;
            Put::Won(place)
        } else if found.seat() == pass.number {
            Put::Foreign(place)
        } else {
            pass.count += 1;
            Put::Lost(place)
        }
    }

    /// The record at a place that the pass has seen, and `None` for all others. It takes no memory.
    pub fn at<'a>(&'a self, pass: &Pass<R>, place: usize) -> Option<&'a R>
        requires { pass.now.cells ≡ self.now }
        ensures { option_copied result ≡ slice_get pass.now.seen place }
    {
        if place >= pass.len() {
            return None;
        }
        let cell = &self.cells[place];
        let mut note = pass.note(cell, place);
        cell.get_as(&mut note)
    }

    /// What the pass has seen, to be met by other passes.
    pub fn front(&self, pass: &Pass<R>) -> Result<Front<R>, AllocError>
        requires { pass.now.cells ≡ self.now }
        ensures cells { IfOk result (λ f. f.cells ≡ take (length f.seen) self.now) }
        ensures seen { IfOk result (λ f. f.seen ≡ pass.now.seen) }
    {
        let count = pass.len();
        let mut notes = Vec::with_capacity(self.alloc, count)?;
        for place in 0..count {
            notes.push(pass.note(&self.cells[place], place))?;
        }
        Ok(Front { notes })
    }

    /// Has the pass see what the front has seen, whichever of the two has seen more. It takes no
    /// memory.
    ///
    /// Refused with `Foreign` where the front has, at a place that the pass had not seen, a record
    /// of the pass's own number. The pass has then seen what the front has before that place, and
    /// knows that record.
    pub fn meet(&self, pass: &mut Pass<R>, front: &Front<R>) -> Result<(), MeetFault>
        requires pass { pass.old.cells ≡ self.now }
        requires front { front.now.cells ≡ take (length front.now.seen) self.now }
        ensures number { pass.new.number ≡ pass.old.number }
        ensures cells { pass.new.cells ≡ pass.old.cells }
        ensures mine { pass.new.mine ≡ pass.old.mine }
        ensures known { Remembers pass.old pass.new }
        ensures pass { IsPass R.seat_of pass.new }

        // Whatever the answer, what the two had seen agrees, and the pass has seen nothing less
        // than before.
        ensures agree { Agree pass.old.seen front.now.seen }
        ensures begins { Begins pass.old.seen pass.new.seen }

        // On `Ok` the pass has seen the longer of the two.
        ensures met { IfOk result (λ _. Begins front.now.seen pass.new.seen) }
        ensures longer { IfOk result (λ _.
            length pass.new.seen ≡ max (length pass.old.seen) (length front.now.seen)) }
        ensures others { IfOk result
            (λ _. KnowsFromAsBefore (length pass.new.seen) pass.old pass.new) }
        ensures foreign { IfErr result
            (λ e. MeetFaultSays R.seat_of e front.now pass.old pass.new) }
    {
        // Its contract says what is true of each pass, also where the front has nothing.
        let _seen = pass.len();
        for place in 0..front.len() {
            let note = front.note(&self.cells[place], place);
            if !self.meet_at(pass, place, note) {
                return Err(MeetFault::Foreign(place));
            }
        }
        Ok(())
    }

    // Has the pass see what the note of the next place of a front knows. False where that is a
    // record of its own number.
    fn meet_at(&self, pass: &mut Pass<R>, place: usize, note: Note<R>) -> bool
        requires cells { pass.old.cells ≡ self.now }
        requires place { place ≤ length pass.old.seen }
        requires cell { slice_get self.now place ≡ Some note.cell }
        requires known { IsSome note.known }
        ensures number { pass.new.number ≡ pass.old.number }
        ensures cells { pass.new.cells ≡ pass.old.cells }
        ensures mine { pass.new.mine ≡ pass.old.mine }
        ensures known { Remembers pass.old pass.new }
        ensures pass { IsPass R.seat_of pass.new }
        ensures begins { Begins pass.old.seen pass.new.seen }
        ensures met { IsTrue result
            → IfSome note.known (λ x. slice_get pass.new.seen place ≡ Some x) }
        ensures longer { IsTrue result
            → length pass.new.seen ≡ max (length pass.old.seen) (place + 1) }
        ensures others { (other : ℕ) → other ≢ place
            → slice_get pass.new.known other ≡ slice_get pass.old.known other }
        ensures foreign { IsFalse result →
            (slice_get pass.new.known place ≡ Some note.known) × IsForeign R.seat_of place pass.new }
    {
        if place < pass.len() {
            pass.compare(place, note);
            return true;
        }
        pass.learn(&self.cells[place], &note);
        self.look(pass)
    }

    // Has the pass see the record that it knows of the first cell that it has not seen. False where
    // that is a record of its own number.
    fn look(&self, pass: &mut Pass<R>) -> bool
        requires cells { pass.old.cells ≡ self.now }
        requires known { (r : R) × KnowsAt pass.old (length pass.old.seen) r }
        ensures number { pass.new.number ≡ pass.old.number }
        ensures cells { pass.new.cells ≡ pass.old.cells }
        ensures mine { pass.new.mine ≡ pass.old.mine }
        ensures known { Remembers pass.old pass.new }
        ensures pass { IsPass R.seat_of pass.new }
        ensures others { KnowsOthersAsBefore pass.old pass.new }
        ensures seen { LookSays R.seat_of result pass.old pass.new }
    {
        match self.next(pass) {
            Next::Entry(_) => true,
            Next::Foreign(_) => false,
            // What a pass knows it finds.
            Next::End => unreachable!(),
        }
    }
}

fn boxed<R: Entry>(alloc: Global, entry: &R) -> Result<Box<R>, AllocError>
    ensures { IfOk result (λ b. b.value ≡ entry.now) }
{
    Ok(Box::new(alloc, entry.copy()?)?)
}
