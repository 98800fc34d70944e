//! What islands hold, as it is gathered.
ghost use Rattle.std.specs.Prelude.{◌≡◌, ◌<◌, ◌≤◌, [], IfOk, OnOk, length, replicate};
ghost use Rattle.tg_analysis.specs.Holdings.{is_marked, holds_over, MarksOne, CopiesMark, JoinsMarks, AddsTarget, AddsTargets, JoinsHoldings};

use std::alloc::{AllocError, Global};
use std::marker::Model;

// The positions of the vertices over which one island holds the right: a mark for each, up to the
// last one.
#[derive(Drop)]
struct Targets {
    marks: Vec<bool>,
    // Nothing: with it a value takes 32 bytes, and one of many is found by a shift. A table is read cell by
    // cell, where this is one step of fourteen.
    _room: u64,
}

impl Model for Targets {
    ghost use Rattle.std.specs.Prelude.{List, Bool};

    ghost Value = { List Bool };

    ghost view = { λ t. t.marks.items };
}

impl Targets {
    fn new(alloc: Global) -> Targets
        ensures { result ≡ [] }
    {
        Targets {
            marks: Vec::new(alloc),
            _room: 0,
        }
    }

    fn has(&self, position: usize) -> bool
        ensures { result ≡ is_marked self.now position }
    {
        match self.marks.get(position) {
            Some(mark) => *mark,
            None => false,
        }
    }

    fn mark(&mut self, position: usize) -> Result<(), AllocError>
        requires { position < usize.MAX }
        ensures { OnOk result (MarksOne self.old self.new position) }
    {
        if self.marks.len() <= position {
            self.marks.resize(position + 1, false)?;
        }
        self.marks[position] = true;
        Ok(())
    }

    // Marks the position if the other has it.
    fn copy_mark(&mut self, other: &Targets, position: usize) -> Result<(), AllocError>
        requires { position < usize.MAX }
        ensures { OnOk result (CopiesMark self.old self.new other.now position) }
    {
        if other.has(position) {
            self.mark(position)?;
        }
        Ok(())
    }

    // Marks what the other has.
    fn join(&mut self, other: Targets) -> Result<(), AllocError>
        ensures { OnOk result (JoinsMarks self.old self.new other) }
    {
        if self.marks.is_empty() {
            *self = other;
            return Ok(());
        }
        for position in 0..other.marks.len() {
            self.copy_mark(&other, position)?;
        }
        Ok(())
    }
}

/// Over which vertices each island holds the right, by the numbers of the islands.
///
/// An island that holds nothing takes no room for marks.
#[derive(Drop)]
pub(crate) struct Holdings {
    islands: Vec<Targets>,
}

impl Model for Holdings {
    ghost use Rattle.std.specs.Prelude.{List, Bool};

    ghost Value = { List (List Bool) };

    ghost view = { λ h. h.islands.items };
}

impl Holdings {
    /// So many islands that hold nothing.
    pub(crate) fn none(alloc: Global, count: usize) -> Result<Holdings, AllocError>
        ensures { IfOk result (λ held. held ≡ replicate count []) }
    {
        let mut islands = Vec::with_capacity(alloc, count)?;
        for _ in 0..count {
            islands.push(Targets::new(alloc))?;
        }
        Ok(Holdings { islands })
    }

    /// Whether the island with a number, of which there is one, holds the right over the vertex at a
    /// position. The number is not looked at again, as this is asked for each cell of a table.
    #[inline(always)]
    pub(crate) fn has(&self, number: usize, position: usize) -> bool
        requires { number < length self.now }
        ensures { result ≡ holds_over self.now number position }
    {
        self.islands[number].has(position)
    }

    /// The island with the number holds the right over the vertex at the position as well.
    pub(crate) fn add(&mut self, number: usize, position: usize) -> Result<(), AllocError>
        requires within { number < length self.old }
        requires room { position < usize.MAX }
        ensures { OnOk result (AddsTarget self.old self.new number position) }
    {
        let targets = &mut self.islands[number];
        targets.mark(position)?;
        Ok(())
    }

    // The island with the number holds over these as well.
    fn add_all(&mut self, number: usize, more: Targets) -> Result<(), AllocError>
        requires { number < length self.old }
        ensures { OnOk result (AddsTargets self.old self.new number more) }
    {
        let targets = &mut self.islands[number];
        targets.join(more)?;
        Ok(())
    }

    /// Each island holds what the other says as well.
    pub(crate) fn join(&mut self, mut other: Holdings) -> Result<(), AllocError>
        requires { length other ≤ length self.old }
        ensures { OnOk result (JoinsHoldings self.old self.new other) }
    {
        while let Some(targets) = other.islands.pop() {
            self.add_all(other.islands.len(), targets)?;
        }
        Ok(())
    }
}
