//! The members of islands, by their places in a list.
ghost use Rattle.std.specs.Prelude.{◌≡◌, ◌<◌, ◌+◌, IfOk, Some, ℕ, List, length, slice_get, slice_index};
ghost use Rattle.tg_analysis.specs.Cases.{AreMembersFrom, IsFirstBeyond, is_marked, place_at};

use std::alloc::{AllocError, Global};

/// For each island the places of its members, in rising order.
#[derive(Drop)]
pub(crate) struct Members {
    /// By the number of an island the place of its first member.
    pub firsts: Vec<Option<usize>>,
    /// By the place of a member that of the next one of the same island.
    pub nexts: Vec<Option<usize>>,
}

/// The place that a list has at a number, if it has one.
pub(crate) fn place_at(places: &[Option<usize>], number: usize) -> Option<usize>
    ensures { result ≡ place_at places.now number }
{
    match places.get(number) {
        Some(place) => *place,
        None => None,
    }
}

/// Whether a place is marked.
pub(crate) fn is_marked(marks: &[bool], place: usize) -> bool
    ensures { result ≡ is_marked marks.now place }
{
    match marks.get(place) {
        Some(mark) => *mark,
        None => false,
    }
}

impl Members {
    // Puts the member at a place in front of those of its island.
    fn put(&mut self, numbers: &[usize], place: usize)
        requires within { place < length numbers.now }
        requires number { slice_index numbers.now place < length self.old.firsts.items }
        requires so_far { AreMembersFrom numbers.now (place + 1)
            self.old.firsts.items self.old.nexts.items }
        ensures members { AreMembersFrom numbers.now place
            self.new.firsts.items self.new.nexts.items }
        ensures len { length self.new.firsts.items ≡ length self.old.firsts.items }
    {
        let number = numbers[place];
        self.nexts[place] = self.firsts[number];
        self.firsts[number] = Some(place);
    }

    /// The members of so many islands: the member at a place is of the island whose number stands there.
    pub(crate) fn of(alloc: Global, numbers: &[usize], count: usize) -> Result<Members, AllocError>
        requires { (k n : ℕ) → slice_get numbers.now k ≡ Some n → n < count }
        ensures members { IfOk result (λ members.
            AreMembersFrom numbers.now 0 members.firsts.items members.nexts.items) }
        ensures len { IfOk result (λ members. length members.firsts.items ≡ count) }
    {
        let mut members = Members {
            firsts: vec![in alloc; None; count]?,
            nexts: vec![in alloc; None; numbers.len()]?,
        };
        for done in 0..numbers.len() {
            let place = numbers.len() - 1 - done;
            members.put(numbers, place);
        }
        Ok(members)
    }

    /// The place of the first member of an island that is not allowed, if there is one.
    pub(crate) fn first_beyond(&self, number: usize, allowed: &[bool]) -> Option<usize>
        ensures { (numbers : List ℕ)
            → AreMembersFrom numbers 0 self.now.firsts.items self.now.nexts.items
            → IsFirstBeyond numbers (is_marked allowed.now) number result }
    {
        let mut next = place_at(&self.firsts, number);
        for _ in 0..self.nexts.len() {
            let place = next?;
            if !is_marked(allowed, place) {
                return Some(place);
            }
            next = place_at(&self.nexts, place);
        }
        None
    }
}
