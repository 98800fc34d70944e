//! Positions in sets that have none in common, two of which can be joined.
ghost use Rattle.std.specs.Prelude.{◌≡◌, ◌≢◌, ◌<◌, ◌+◌, ℕ, IfOk, OnOk, length};
ghost use Rattle.tg_islands.specs.Positions.{IsOneOf};
ghost use Rattle.tg_islands.specs.DisjointSets.{AreSets, AreApart, PutsInto, MovesSet, JoinsSets, AreInOne};

use crate::positions::Positions;
use std::alloc::{AllocError, Global};
use std::mem;

/// Positions from 0 on, each in one set.
#[derive(Drop)]
pub struct DisjointSets {
    /// For each position the number of its set.
    pub sets: Vec<usize>,
    /// For each number the positions of that set; none once it was joined to another.
    pub members: Vec<Positions>,
}

// Puts positions into a set.
fn put_into(sets: &mut Vec<usize>, positions: &[u32], set: usize)
    requires { (a : ℕ) → IsOneOf a positions.now → a < length sets.old.items }
    ensures { PutsInto positions.now set sets.old.items sets.new.items }
{
    for position in positions {
        sets[*position as usize] = set;
    }
}

impl DisjointSets {
    // One position more, in a set of its own.
    fn add_apart(&mut self, position: usize) -> Result<(), AllocError>
        requires { AreApart position self.old }
        ensures { OnOk result (AreApart (position + 1) self.new) }
    {
        let mut own = Positions::new(*self.sets.allocator());
        own.add(position)?;
        self.members.push(own)?;
        self.sets.push(position)?;
        Ok(())
    }

    /// So many positions, each in a set of its own, which has the position's number.
    ///
    /// The error is want of memory, or a position of 2^32 or more.
    pub fn apart(alloc: Global, count: usize) -> Result<DisjointSets, AllocError>
        ensures { IfOk result (AreApart count) }
    {
        let mut apart = DisjointSets {
            sets: Vec::with_capacity(alloc, count)?,
            members: Vec::with_capacity(alloc, count)?,
        };
        for position in 0..count {
            apart.add_apart(position)?;
        }
        Ok(apart)
    }

    // Moves the positions of one set into another.
    fn move_set(&mut self, from: usize, to: usize) -> Result<(), AllocError>
        requires sets { AreSets self.old }
        requires from { from < length self.old.sets.items }
        requires to { to < length self.old.sets.items }
        requires other { from ≢ to }
        ensures sets { OnOk result (AreSets self.new) }
        ensures moved { OnOk result (MovesSet from to self.old.sets.items self.new.sets.items) }
    {
        let none = Positions::new(*self.sets.allocator());
        let moved = mem::replace(&mut self.members[from], none);
        put_into(&mut self.sets, moved.as_slice(), to);
        self.members[to].add_all(moved.as_slice())?;
        Ok(())
    }

    /// Joins the sets of two positions: the smaller one moves into the other.
    ///
    /// The one error is want of memory.
    pub fn join(&mut self, a: usize, b: usize) -> Result<(), AllocError>
        requires sets { AreSets self.old }
        requires first { a < length self.old.sets.items }
        requires second { b < length self.old.sets.items }
        ensures { OnOk result (JoinsSets a b self.old self.new) }
    {
        let (one, other) = (self.sets[a], self.sets[b]);
        if one == other {
            return Ok(());
        }
        if self.members[one].len() < self.members[other].len() {
            self.move_set(one, other)
        } else {
            self.move_set(other, one)
        }
    }

    /// How many positions from the first on are in one set, where so many are at least.
    pub fn count_in_one(&self, known: usize) -> usize
        requires { AreInOne self.now.sets.items known }
        ensures { AreInOne self.now.sets.items result }
    {
        let mut count = known;
        while count < self.sets.len() && self.sets[count] == self.sets[0] {
            count += 1;
        }
        count
    }
}
