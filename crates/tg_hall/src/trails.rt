//! Where the records of a history wrote.
ghost use Rattle.std.specs.Prelude.{◌≡◌, ◌≤◌, [], All, OnOk, MatchOption, length, drop, slice_get};
ghost use Rattle.tg_hall.specs.Trails.{Notes, HasRoom, SameTrail};

use std::alloc::{AllocError, Global};

/// The positions of the vertices that each record of a history wrote, one record after another, and
/// where each record's positions start.
///
/// A vertex keeps its position from then on, so a seat that is behind finds by them what has
/// changed.
#[derive(Drop)]
pub struct Trail {
    positions: Vec<usize>,
    starts: Vec<usize>,
}

impl Trail {
    /// The trail of the empty history.
    pub fn new(alloc: Global) -> Trail
        ensures positions { result.positions.items ≡ [] }
        ensures starts { result.starts.items ≡ [] }
    {
        Trail {
            positions: Vec::new(alloc),
            starts: Vec::new(alloc),
        }
    }

    /// Makes room for one record more, which wrote so many vertices.
    pub fn reserve(&mut self, count: usize) -> Result<(), AllocError>
        ensures same { SameTrail self.old self.new }
        ensures room { OnOk result (HasRoom self.new count) }
    {
        self.positions.reserve(count)?;
        self.starts.reserve(1)?;
        Ok(())
    }

    /// Notes where one record more wrote. There is room.
    pub fn note(&mut self, positions: &[usize])
        requires { HasRoom self.old (length positions.now) }
        ensures { Notes self.old positions.now self.new }
    {
        self.starts.push_reserved(self.positions.len());
        // There is room, so it is not refused.
        let _ = self.positions.extend_from_slice(positions);
    }

    /// What the records from a place on wrote, one after another.
    pub fn from(&self, place: usize) -> &[usize]
        requires { All (λ start. start ≤ length self.now.positions.items) self.now.starts.items }
        ensures { MatchOption (slice_get self.now.starts.items place) (result.now ≡ [])
            (λ start. result.now ≡ drop start self.now.positions.items) }
    {
        match self.starts.get(place) {
            Some(start) => &self.positions[*start..],
            None => &self.positions[..0],
        }
    }
}
