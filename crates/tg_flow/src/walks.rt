//! Where further units can go by the levels that a search has found.
//!
//! No contract says anything of what is found here: whoever sends a unit along it tests it.
use crate::edges::{Passage, Side};
use crate::listing::Entry;
use crate::network::Network;
use crate::ways::{Step, Ways};
use std::alloc::AllocError;

impl Network {
    // Whether a unit at a side of the edge with a number goes out by it, or to a position one level below.
    fn can_go(&self, ways: &Ways, step: Step) -> bool {
        let Some(edge) = self.edge(step.number) else {
            return false;
        };
        match edge.passage(step.side) {
            Passage::Shut => false,
            Passage::Out(_) => true,
            Passage::On(_) => match ways.step(edge.at(step.side.opposite())) {
                Some(next) => next.level.saturating_add(1) == step.level,
                None => false,
            },
        }
    }

    // Changes the step of a position where a unit can go by it. It says whether it can.
    fn try_step(&self, ways: &mut Ways, position: usize, step: Step) -> bool {
        if !self.can_go(ways, step) {
            return false;
        }
        ways.change(position, step);
        true
    }

    // Tries the edges out of a position, from the one of its step on.
    fn try_out(&self, ways: &mut Ways, position: usize, step: Step) -> bool {
        let (first, end) = self.numbers_out(position);
        let from = if step.number < first {
            first
        } else {
            step.number
        };
        for number in from..end {
            let side = Side::Source;
            let level = step.level;
            let next = Step {
                number,
                side,
                level,
            };
            if self.try_step(ways, position, next) {
                return true;
            }
        }
        false
    }

    // Tries an edge into a position. Only at y can a unit go out by one; else its source has to be one level below.
    fn try_entry(
        &self,
        ways: &mut Ways,
        position: usize,
        entry: &Entry,
        level: u16,
        y: usize,
    ) -> bool {
        if position != y && (level == 1 || ways.level(entry.source()).saturating_add(1) != level) {
            return false;
        }
        let number = self.number_of(entry);
        let side = Side::Target;
        self.try_step(
            ways,
            position,
            Step {
                number,
                side,
                level,
            },
        )
    }

    // Tries the edges into a position, from those with a source on.
    fn try_in(
        &self,
        ways: &mut Ways,
        position: usize,
        source: usize,
        level: u16,
        y: usize,
    ) -> bool {
        let entries = self.entries_into(position);
        let first = entries.partition_point(|entry| entry.source() < source);
        for place in first..entries.len() {
            if self.try_entry(ways, position, &entries[place], level, y) {
                return true;
            }
        }
        false
    }

    // The source of the edge with a number.
    fn source(&self, number: usize) -> usize {
        match self.edge(number) {
            Some(edge) => edge.source,
            None => 0,
        }
    }

    // Changes the step of a position to the first by which a unit can go, from the one that it has on. It says
    // whether there is one; else nobody comes there any more.
    fn find_step(&self, ways: &mut Ways, position: usize, y: usize) -> bool {
        let Some(step) = ways.step(position) else {
            return false;
        };
        let level = step.level;
        let found = match step.side {
            Side::Source => {
                self.try_out(ways, position, step) || self.try_in(ways, position, 0, level, y)
            }
            Side::Target => self.try_in(ways, position, self.source(step.number), level, y),
        };
        if !found {
            ways.shut(position);
        }
        found
    }

    /// Changes the steps so that a unit can go by them from x to the end, if that can be by the levels. The path
    /// is a place for the positions between. By edges into y alone a unit goes out from the target.
    ///
    /// The error is want of memory, or a position above 65,535.
    pub(crate) fn find_way(
        &self,
        ways: &mut Ways,
        path: &mut Vec<u16>,
        x: usize,
        y: usize,
    ) -> Result<(), AllocError> {
        path.clear();
        let mut position = x;
        for _ in 0..ways.count().saturating_mul(3) {
            if self.find_step(ways, position, y) {
                let Some(next) = self.next_on(ways, position) else {
                    return Ok(());
                };
                let Ok(listed) = u16::try_from(position) else {
                    return Err(AllocError);
                };
                path.push(listed)?;
                position = next;
            } else {
                let Some(last) = path.pop() else {
                    return Ok(());
                };
                position = usize::from(last);
            }
        }
        Ok(())
    }
}
