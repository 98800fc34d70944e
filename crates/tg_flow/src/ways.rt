//! Which positions a search has met, and by which steps.
ghost use Rattle.std.specs.Prelude.{◌≡◌, ◌<◌, None, Some, IfOk, OnOk, is_some, length, map, replicate, slice_set};
ghost use Rattle.tg_flow.specs.Ways.{step_at, is_met, level_at};

use crate::edges::Side;
use crate::packed_steps::PackedStep;
use std::alloc::{AllocError, Global};
use std::marker::Model;

/// By the edge with which number a position was met, at which side of the edge it stands, and how far it is from
/// the end by it.
#[derive(Clone, Copy)]
pub struct Step {
    /// The number of the edge.
    pub number: usize,
    /// The side.
    pub side: Side,
    /// How many steps there are to the end; 0 where the search does not come from there.
    pub level: u16,
}

/// For each position its step; none where it was not met.
///
/// It takes 10 bytes a position.
#[derive(Drop)]
pub struct Ways {
    steps: Vec<PackedStep>,
    // The positions in the order in which they were met. It decides no answer.
    list: Vec<u16>,
}

impl Model for Ways {
    ghost use Rattle.std.specs.Prelude.{List, Option, map};
    ghost use Rattle.tg_flow.specs.PackedSteps.{step_of};
    ghost use Rattle.tg_flow.specs.declared.ways.Step.{Step};

    ghost Value = { List (Option Step) };

    ghost view = { λ w. map step_of w.steps.items };
}

impl Ways {
    /// None of so many positions was met.
    ///
    /// The one error is want of memory.
    pub fn none(alloc: Global, count: usize) -> Result<Ways, AllocError>
        ensures { IfOk result (λ ways. ways ≡ replicate count None) }
    {
        let mut steps = Vec::with_capacity(alloc, count)?;
        for _ in 0..count {
            steps.push(PackedStep::none())?;
        }
        Ok(Ways {
            steps,
            list: Vec::with_capacity(alloc, count)?,
        })
    }

    /// How many positions there are.
    pub fn count(&self) -> usize {
        self.steps.len()
    }

    /// The position that was met at a place, in the order in which they were met; none past the last.
    pub fn met_at(&self, place: usize) -> Option<usize> {
        match self.list.get(place) {
            Some(position) => Some(usize::from(*position)),
            None => None,
        }
    }

    /// The step of a position; none where it was not met, or is none of those.
    pub fn step(&self, position: usize) -> Option<Step>
        ensures { result ≡ step_at self.now position }
    {
        if position < self.steps.len() {
            self.steps[position].step()
        } else {
            None
        }
    }

    /// Whether a position was met.
    pub fn has_met(&self, position: usize) -> bool
        ensures { result ≡ is_met self.now position }
    {
        self.step(position).is_some()
    }

    /// How many steps there are from a position to the end; 0 where it was not met.
    pub fn level(&self, position: usize) -> u16
        ensures { result ≡ level_at self.now position }
    {
        match self.step(position) {
            Some(step) => step.level,
            None => 0,
        }
    }

    /// The position has another step; nothing changes where it is none of those, or no `PackedStep` can say it.
    pub fn change(&mut self, position: usize, step: Step) {
        if position < self.steps.len()
            && let Some(packed) = PackedStep::new(step)
        {
            self.steps[position] = packed;
        }
    }

    /// Nobody comes to the position from another level.
    pub fn shut(&mut self, position: usize) {
        if let Some(step) = self.step(position) {
            let level = u16::MAX;
            self.change(position, Step { level, ..step });
        }
    }

    // The step of a position comes before those by all edges.
    fn begin(&mut self, position: usize) {
        if let Some(step) = self.step(position) {
            let level = step.level;
            let number = 0;
            let side = Side::Source;
            self.change(
                position,
                Step {
                    number,
                    side,
                    level,
                },
            );
        }
    }

    /// The step of each comes before those by all edges.
    pub fn begin_all(&mut self) {
        for position in 0..self.steps.len() {
            self.begin(position);
        }
    }

    /// Meets a position by a step.
    ///
    /// The error is want of memory, or a position that is none of those, or one above 65,535, or a step by an edge
    /// that no `PackedStep` can say.
    pub fn meet(&mut self, position: usize, step: Step) -> Result<(), AllocError>
        ensures within { OnOk result (position < length self.old) }
        ensures met { OnOk result (self.new ≡ slice_set self.old position (Some step)) }
    {
        let Some(packed) = PackedStep::new(step) else {
            return Err(AllocError);
        };
        let Ok(listed) = u16::try_from(position) else {
            return Err(AllocError);
        };
        if position >= self.steps.len() {
            return Err(AllocError);
        }
        self.list.push(listed)?;
        self.steps[position] = packed;
        Ok(())
    }

    /// For each position whether it was met.
    ///
    /// The one error is want of memory.
    pub fn marks(&self, alloc: Global) -> Result<Vec<bool>, AllocError>
        ensures { IfOk result (λ marks. marks.items ≡ map is_some self.now) }
    {
        let mut marks = Vec::with_capacity(alloc, self.steps.len())?;
        for position in 0..self.steps.len() {
            marks.push(self.has_met(position))?;
        }
        Ok(marks)
    }
}
