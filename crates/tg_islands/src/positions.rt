//! Lists of positions.
ghost use Rattle.std.specs.Prelude.{◌≡◌, ◌<◌, ◌≤◌, ◌+◌, ◌++◌, ◌∷◌, [], IfOk, OnErr, OnOk, length};

use std::alloc::{AllocError, Global};
use std::marker::Model;

// So many positions take no memory of their own: most vertices of a sparse graph have few neighbours.
const FEW_POSITIONS: usize = 6;

// Few positions, in the value itself.
#[derive(Drop)]
struct FewPositions {
    // So many places from the first on are taken.
    count: u32,
    places: [u32; FEW_POSITIONS],
    alloc: Global,
}

impl Model for FewPositions {
    ghost use Rattle.std.specs.Prelude.{List, ℕ, ◌≤◌, take};

    ghost Value = { List ℕ };

    ghost view = { λ f. take f.count f.places };

    ghost invariant = { λ f. f.count ≤ 6 };
}

impl FewPositions {
    fn new(alloc: Global) -> FewPositions
        ensures { result ≡ [] }
    {
        FewPositions {
            count: 0,
            places: [0; FEW_POSITIONS],
            alloc,
        }
    }

    fn len(&self) -> usize
        ensures value { result ≡ length self.now }
        ensures few { result ≤ FEW_POSITIONS }
    {
        self.count as usize
    }

    fn as_slice(&self) -> &[u32]
        ensures { result.now ≡ self.now }
    {
        &self.places[..self.count as usize]
    }

    // Adds a position behind the others.
    fn add(&mut self, position: u32)
        requires { length self.old < FEW_POSITIONS }
        ensures { self.new ≡ self.old ++ position ∷ [] }
    {
        self.places[self.count as usize] = position;
        self.count += 1;
    }

    // Adds positions behind the others.
    fn add_all(&mut self, positions: &[u32])
        requires { length self.old + length positions.now ≤ FEW_POSITIONS }
        ensures { self.new ≡ self.old ++ positions.now }
    {
        for position in positions {
            self.add(*position);
        }
    }

    // The same positions in memory of their own, with room for so many more.
    #[inline(never)]
    fn copied(&self, more: usize) -> Result<Vec<u32>, AllocError>
        ensures { IfOk result (λ many. many.items ≡ self.now) }
    {
        let mut many = Vec::with_capacity(self.alloc, self.len().saturating_add(more))?;
        many.extend_from_slice(self.as_slice())?;
        Ok(many)
    }
}

// Positions, in the value itself until they are more than a few.
#[derive(Drop)]
enum Listed {
    Few(FewPositions),
    Many(Vec<u32>),
}

/// Positions of vertices, four bytes each. Six of them take no memory beside the value.
///
/// A position of 2^32 or more, of which no machine has so many vertices in memory, is refused as one
/// for which there is no memory.
#[derive(Drop)]
pub struct Positions {
    listed: Listed,
}

impl Model for Positions {
    ghost use Rattle.std.specs.Prelude.{List, ℕ};
    ghost use Rattle.tg_islands.specs.Positions.{listed_positions};

    ghost Value = { List ℕ };

    ghost view = { λ p. listed_positions p.listed };
}

impl Positions {
    /// No positions.
    pub fn new(alloc: Global) -> Positions
        ensures { result ≡ [] }
    {
        Positions {
            listed: Listed::Few(FewPositions::new(alloc)),
        }
    }

    /// Adds a position behind the others.
    ///
    /// The error is want of memory, or a position of 2^32 or more: the positions stay as they were.
    #[inline(always)]
    pub fn add(&mut self, position: usize) -> Result<(), AllocError>
        ensures added { OnOk result (self.new ≡ self.old ++ position ∷ []) }
        ensures kept { OnErr result (self.new ≡ self.old) }
    {
        let Ok(position) = u32::try_from(position) else {
            return Err(AllocError);
        };
        match &mut self.listed {
            Listed::Few(few) if few.len() < FEW_POSITIONS => few.add(position),
            Listed::Few(few) => {
                let mut many = few.copied(FEW_POSITIONS)?;
                many.push(position)?;
                self.listed = Listed::Many(many);
            }
            Listed::Many(many) => many.push(position)?,
        }
        Ok(())
    }

    /// Adds positions behind the others.
    ///
    /// The one error is want of memory: the positions stay as they were.
    pub fn add_all(&mut self, positions: &[u32]) -> Result<(), AllocError>
        ensures added { OnOk result (self.new ≡ self.old ++ positions.now) }
        ensures kept { OnErr result (self.new ≡ self.old) }
    {
        match &mut self.listed {
            Listed::Few(few) if positions.len() <= FEW_POSITIONS - few.len() => {
                few.add_all(positions);
            }
            Listed::Few(few) => {
                let mut many = few.copied(positions.len().max(FEW_POSITIONS))?;
                many.extend_from_slice(positions)?;
                self.listed = Listed::Many(many);
            }
            Listed::Many(many) => many.extend_from_slice(positions)?,
        }
        Ok(())
    }

    /// How many positions there are.
    pub fn len(&self) -> usize
        ensures { result ≡ length self.now }
    {
        match &self.listed {
            Listed::Few(few) => few.len(),
            Listed::Many(many) => many.len(),
        }
    }

    /// The positions.
    pub fn as_slice(&self) -> &[u32]
        ensures { result.now ≡ self.now }
    {
        match &self.listed {
            Listed::Few(few) => few.as_slice(),
            Listed::Many(many) => many.as_slice(),
        }
    }
}
