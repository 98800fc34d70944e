//! The numbers of islands.
ghost use Rattle.std.specs.Prelude.{◌≡◌, length, slice_get};
ghost use Rattle.std.specs.Map.{keys_of};
ghost use Rattle.tg_islands.specs.Numbering.{AreCounted, number_of};

use std::marker::Model;
use tg_graph::{Graph, Name};

/// The islands of a graph, numbered from 0 in order of their first position.
///
/// A contract sees them as the list of the numbers by position.
#[derive(Drop)]
pub struct Islands {
    numbers: Vec<usize>,
    count: usize,
}

impl Model for Islands {
    ghost use Rattle.std.specs.Prelude.{List, ℕ};
    ghost use Rattle.tg_islands.specs.Numbering.{AreCounted};

    ghost Value = { List ℕ };

    ghost view = { λ i. i.numbers.items };

    ghost invariant = { λ i. AreCounted i.numbers.items i.count };
}

impl Islands {
    pub(crate) fn new(numbers: Vec<usize>, count: usize) -> Islands
        requires { AreCounted numbers.items count }
        ensures { result ≡ numbers.items }
    {
        Islands { numbers, count }
    }

    /// How many islands there are.
    pub fn count(&self) -> usize
        ensures { AreCounted self.now result }
    {
        self.count
    }

    /// How many vertices there are.
    pub fn len(&self) -> usize
        ensures { result ≡ length self.now }
    {
        self.numbers.len()
    }

    /// The number of the island of the vertex at a position; none past the end.
    pub fn of(&self, position: usize) -> Option<usize>
        ensures { result ≡ slice_get self.now position }
    {
        self.numbers.get(position).copied()
    }

    /// The number of the island of a vertex; none for a name that is no vertex of the graph.
    pub fn number_of(&self, graph: &Graph, vertex: Name) -> Option<usize>
        ensures { result ≡ number_of (keys_of graph.now) self.now vertex }
    {
        self.of(graph.position(vertex)?)
    }
}
