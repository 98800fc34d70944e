//! What one thread knows of a journal, and what it tells others.
ghost use Rattle.std.specs.Prelude.{◌≡◌, ◌<◌, ◌↔◌, length, slice_get, IfSome, IsSome, IsTrue};

use crate::entry::Entry;
use crate::notes::{duplicate, replace};
use once_cell::race::{Note, OnceBox};
use std::marker::Model;

/// What one thread knows of a journal. `Journal::start` makes it, and it stays with that journal.
#[derive(Drop)]
pub struct Pass<R: Entry> {
    pub(crate) number: u32,
    pub(crate) count: usize,
    pub(crate) notes: Vec<Note<R>>,
    pub(crate) mine: Vec<usize>,
}

impl<R: Entry> Model for Pass<R> {
    ghost use Rattle.std.specs.Prelude.{length, map, vec_capacity};
    ghost use Rattle.tg_journal.specs.Pass.{PassState, pass_code, pass_of, IsKept};

    ghost Value = { PassState R };

    ghost coded = { pass_code R.code };

    ghost view = { λ p.
        pass_of p.number p.count (map (λ n. n.cell) p.notes.items) (map (λ n. n.known) p.notes.items) p.mine.items };

    ghost invariant = { λ p.
        IsKept R.seat_of p.number p.count (length p.notes.items) (vec_capacity p.mine)
        (map (λ n. n.known) p.notes.items) p.mine.items };
}

/// The records that a pass had seen at one moment, to be met by other passes of its journal.
#[derive(Drop)]
pub struct Front<R> {
    pub(crate) notes: Vec<Note<R>>,
}

impl<R> Model for Front<R> {
    ghost use Rattle.std.specs.Prelude.{map};
    ghost use Rattle.tg_journal.specs.Known.{values, AllKnown};
    ghost use Rattle.tg_journal.specs.Front.{FrontState, front_code};

    ghost Value = { FrontState R };

    ghost coded = { front_code R.code };

    ghost view = { λ f.
        record { cells = map (λ n. n.cell) f.notes.items; seen = values (map (λ n. n.known) f.notes.items) } };

    ghost invariant = { λ f. AllKnown (map (λ n. n.known) f.notes.items) };
}

impl<R: Entry> Pass<R> {
    ghost use Rattle.tg_journal.specs.Pass.{IsPass, Remembers, KnowsOthersAsBefore};

    /// The pass's number. The passes of a journal are numbered from 1.
    pub fn number(&self) -> u32
        ensures { result ≡ self.now.number }
    {
        self.number
    }

    /// How many records the pass has seen.
    pub fn len(&self) -> usize
        ensures seen { result ≡ length self.now.seen }
        ensures pass { IsPass R.seat_of self.now }
    {
        self.count
    }

    /// Whether the pass has seen as many records as its journal has cells, so that nothing can be put
    /// any more.
    pub fn is_full(&self) -> bool
        ensures full { IsTrue result ↔ (length self.now.seen ≡ length self.now.cells) }
        ensures pass { IsPass R.seat_of self.now }
    {
        let seen = self.count;
        seen >= self.notes.len()
    }

    /// How many records the pass has put.
    pub fn own(&self) -> usize
        ensures { result ≡ length self.now.mine }
    {
        self.mine.len()
    }

    // What the note knows of the first cell that the pass has not seen, the pass knows too.
    pub(crate) fn learn(&mut self, cell: &OnceBox<R>, note: &Note<R>)
        requires cell { slice_get self.old.cells (length self.old.seen) ≡ Some note.now.cell }
        requires known { IsSome note.now.known }
        ensures number { self.new.number ≡ self.old.number }
        ensures cells { self.new.cells ≡ self.old.cells }
        ensures mine { self.new.mine ≡ self.old.mine }
        ensures seen { self.new.seen ≡ self.old.seen }
        ensures there { slice_get self.new.known (length self.old.seen) ≡ Some note.now.known }
        ensures known { Remembers self.old self.new }
        ensures others { KnowsOthersAsBefore self.old self.new }
    {
        let place = self.count;
        replace(cell, &mut self.notes[place], note);
    }

    // A note that knows what is at a seen place.
    pub(crate) fn note(&self, cell: &OnceBox<R>, place: usize) -> Note<R>
        requires { place < length self.now.seen }
        ensures cell { slice_get self.now.cells place ≡ Some result.cell }
        ensures known { result.known ≡ slice_get self.now.seen place }
    {
        duplicate(cell, &self.notes[place])
    }

    // What another note of a seen place knows is what stands there.
    pub(crate) fn compare(&mut self, place: usize, note: Note<R>)
        requires place { place < length self.old.seen }
        requires cell { slice_get self.old.cells place ≡ Some note.cell }
        ensures same { self.new ≡ self.old }
        ensures agrees { IfSome note.known (λ x. slice_get self.old.seen place ≡ Some x) }
    {
        self.notes[place].compare(note);
    }
}

impl<R> Front<R> {
    /// How many records the front has.
    pub fn len(&self) -> usize
        ensures seen { result ≡ length self.now.seen }
        ensures cells { result ≡ length self.now.cells }
    {
        self.notes.len()
    }

    // A note that knows what the front has at a place.
    pub(crate) fn note(&self, cell: &OnceBox<R>, place: usize) -> Note<R>
        requires { place < length self.now.seen }
        ensures cell { slice_get self.now.cells place ≡ Some result.cell }
        ensures known { result.known ≡ slice_get self.now.seen place }
    {
        duplicate(cell, &self.notes[place])
    }
}
