//! Rows whose edges are read one by one.
ghost use Rattle.std.specs.Prelude.{◌≡◌, slice_get};
ghost use Rattle.std.specs.Option.{option_map};
ghost use Rattle.tg_rows.specs.EdgeLists.{edges_of, AreWithin};

use crate::listed_edges::Edge;
use std::marker::Model;
use tg_names::{Name, Rights};

/// The edges out of one vertex, laid open: what is the same for all of them is found once. A contract sees
/// them as the row.
#[derive(Drop)]
pub struct OpenRow<'a> {
    edges: &'a [Edge],
    // The names behind the numbers of the edges.
    names: &'a [Name],
    // The positions that the vertices with these names mostly have. They decide no answer.
    positions: &'a [u32],
}

impl<'a> Model for OpenRow<'a> {
    ghost use Rattle.std.specs.Prelude.{List, ℕ};
    ghost use Rattle.tg_names.specs.declared.right_sets.Rights.{Rights};
    ghost use Rattle.tg_rows.specs.EdgeLists.{edges_of, AreWithin};

    ghost Value = { List (List ℕ × Rights) };

    ghost view = { λ o. edges_of o.names.now o.edges.now };

    ghost invariant = { λ o. AreWithin o.names.now o.edges.now };
}

impl<'a> OpenRow<'a> {
    /// The edges whose targets are these names by number.
    pub(crate) fn new(edges: &'a [Edge], names: &'a [Name], positions: &'a [u32]) -> OpenRow<'a>
        requires { AreWithin names.now edges.now }
        ensures { result ≡ edges_of names.now edges.now }
    {
        OpenRow {
            edges,
            names,
            positions,
        }
    }

    /// The edge at a place.
    #[inline(always)]
    pub fn at(&self, place: usize) -> Option<(Name, Rights)>
        ensures { result ≡ slice_get self.now place }
    {
        let edge = self.edges.get(place).copied()?;
        let name = self.names.get(edge.number()).copied()?;
        Some((name, edge.label()))
    }

    /// The label of the edge at a place. No name is looked at.
    #[inline(always)]
    pub fn label_at(&self, place: usize) -> Option<Rights>
        ensures { result ≡ option_map (λ edge. edge.1) (slice_get self.now place) }
    {
        let edge = self.edges.get(place).copied()?;
        Some(edge.label())
    }

    /// The position that the target of the edge at a place mostly has. It decides no answer.
    #[inline(always)]
    pub fn likely_end(&self, place: usize) -> Option<usize> {
        let edge = self.edges.get(place).copied()?;
        Some(*self.positions.get(edge.number())? as usize)
    }
}
