//! The row of a vertex, which graphs that have it alike share.
ghost use Rattle.std.specs.Prelude.{◌≡◌, true, false, not, [], IfOk, OnOk, OnErr, MatchBool};
ghost use Rattle.std.specs.Arc.{arc_value};
ghost use Rattle.tg_names.specs.Sets.{IsNamed};
ghost use Rattle.tg_rows.specs.Rows.{IsLabel, IsRow, is_target, Adds, TakesAway};

use crate::row::Row;
use crate::shared_names::{Hint, SharedNames};
use std::alloc::{AllocError, Global};
use std::marker::Model;
use std::sync::Arc;
use tg_names::{Name, Rights};

/// The edges out of one vertex. Clones share them, and one that is changed gets its own first.
#[derive(Drop)]
pub struct SharedRow {
    row: Arc<Row>,
}

impl Model for SharedRow {
    ghost use Rattle.std.specs.Prelude.{List, ℕ};
    ghost use Rattle.std.specs.Arc.{arc_value};
    ghost use Rattle.tg_names.specs.declared.right_sets.Rights.{Rights};

    ghost Value = { List (List ℕ × Rights) };

    ghost view = { λ s. arc_value s.row };
}

impl Clone for SharedRow {
    ghost use Rattle.std.specs.Prelude.{◌≡◌};

    ghost is_clone = { λ row copy. copy ≡ row };

    fn clone(&self) -> Result<SharedRow, AllocError> {
        Ok(SharedRow {
            row: Arc::try_clone(&self.row)?,
        })
    }
}

impl SharedRow {
    /// No edges.
    pub fn new(alloc: Global) -> Result<SharedRow, AllocError>
        ensures { IfOk result (λ row. row ≡ []) }
    {
        Ok(SharedRow {
            row: Arc::new(alloc, Row::new(alloc))?,
        })
    }

    /// The edges of a row, which no other has so far.
    pub fn of(alloc: Global, row: Row) -> Result<SharedRow, AllocError>
        ensures { IfOk result (λ shared. shared ≡ row) }
    {
        Ok(SharedRow {
            row: Arc::new(alloc, row)?,
        })
    }

    /// The same edges in a row of their own.
    pub fn unshared(&self, alloc: Global) -> Result<SharedRow, AllocError>
        ensures { IfOk result (λ row. row ≡ self.now) }
    {
        let row = self.edges().clone()?;
        Ok(SharedRow {
            row: Arc::new(alloc, row)?,
        })
    }

    /// The same edges, which share no more than these names with others.
    pub fn moved_to(
        &self,
        alloc: Global,
        names: Option<&SharedNames>,
    ) -> Result<SharedRow, AllocError>
        ensures { IfOk result (λ row. row ≡ self.now) }
    {
        let row = self.edges().moved_to(alloc, names)?;
        Ok(SharedRow {
            row: Arc::new(alloc, row)?,
        })
    }

    /// How many have the edges, this one counted. It decides no answer.
    pub fn owners(&self) -> usize {
        Arc::strong_count(&self.row)
    }

    /// The edges.
    pub fn edges(&self) -> &Row
        ensures { result.now ≡ self.now }
    {
        &*self.row
    }

    /// Adds rights to the label of the edge to a vertex.
    pub fn add(&mut self, y: Name, rights: Rights, hint: Hint) -> Result<(), AllocError>
        requires { IsNamed rights }
        ensures adds { OnOk result (Adds self.old self.new y rights) }
        ensures row { OnOk result (IsRow self.new) }
        ensures err { OnErr result (self.new ≡ self.old) }
    {
        let row = Arc::make_mut(&mut self.row)?;
        row.add(y, rights, hint)?;
        Ok(())
    }

    /// Adds the edge to a vertex if there is none, and says whether there was none.
    pub fn add_new(&mut self, y: Name, rights: Rights, hint: Hint) -> Result<bool, AllocError>
        requires { IsLabel rights }
        ensures said { IfOk result (λ added. added ≡ not (is_target self.old y)) }
        ensures added { IfOk result
            (λ added. MatchBool added (Adds self.old self.new y rights) (self.new ≡ self.old)) }
        ensures row { IfOk result (λ added. IsRow self.new) }
        ensures absent { OnErr result (is_target self.old y ≡ false) }
        ensures err { OnErr result (self.new ≡ self.old) }
    {
        match self.row.place_of_next(y, hint.number) {
            Ok(_) => Ok(false),
            Err(place) => {
                let row = Arc::make_mut(&mut self.row)?;
                row.insert(place, y, rights, hint)?;
                Ok(true)
            }
        }
    }

    /// Takes rights out of the label of the edge to a vertex, whose name may have this number among those
    /// that rows share.
    pub fn take(&mut self, y: Name, rights: Rights, likely: Option<usize>) -> Result<(), AllocError>
        requires { IsNamed rights }
        ensures taken { OnOk result (TakesAway self.old self.new y rights) }
        ensures row { OnOk result (IsRow self.new) }
        ensures err { OnErr result (self.new ≡ self.old) }
    {
        let row = Arc::make_mut(&mut self.row)?;
        row.take(y, rights, likely)?;
        Ok(())
    }
}
