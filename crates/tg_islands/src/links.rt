//! Which vertices of a graph are linked.
ghost use Rattle.std.specs.Prelude.{◌≡◌, ◌<◌, ◌+◌, ◌++◌, ◌∷◌, [], IfOk, IfSome, OnErr, OnOk, length, replicate};
ghost use Rattle.std.specs.Map.{keys_of};
ghost use Rattle.tg_graph.specs.GraphOf.{graph_of};
ghost use Rattle.tg_rows.specs.Rows.{row_number};
ghost use Rattle.tg_islands.specs.Linked.{neighbours, linked_end, AreLinks, AddsNeighbour, JoinsNeighbours, LinksUpTo};

use crate::positions::Positions;
use std::alloc::{AllocError, Global};
use std::marker::Model;
use tg_graph::{Graph, OpenRow, Wanted};

/// For each vertex of a graph, by position, the positions of the vertices that are linked to it.
///
/// A neighbour may stand in a list more than once.
#[derive(Drop)]
pub struct Links {
    near: Vec<Positions>,
}

impl Model for Links {
    ghost use Rattle.tg_islands.specs.Linked.{NeighbourLists};

    ghost Value = { NeighbourLists };

    ghost view = { λ l. l.near.items };
}

/// The position at the other end of an edge, if its label has take or grant. The edge's row may be laid
/// open.
#[inline(always)]
pub fn linked_end(
    graph: &Graph,
    opened: &Option<OpenRow<'_>>,
    position: usize,
    place: usize,
) -> Option<usize>
    requires { IfSome opened.now (λ row. row ≡ row_number graph.now position) }
    ensures { result ≡ linked_end graph.now position place }
{
    let (end, _) = graph.end_in(opened, position, place, Wanted::Links)?;
    Some(end)
}

impl Links {
    /// The links of a graph, made in one pass over its edges.
    ///
    /// The one error is want of memory.
    pub fn of(alloc: Global, graph: &Graph) -> Result<Links, AllocError>
        ensures { IfOk result (λ links. AreLinks (graph_of graph.now) links) }
    {
        let mut links = Links::none(alloc, graph.len())?;
        for position in 0..graph.len() {
            links.add_row(graph, position)?;
        }
        Ok(links)
    }

    /// How many vertices there are.
    pub fn len(&self) -> usize
        ensures { result ≡ length self.now }
    {
        self.near.len()
    }

    /// The positions of the vertices that are linked to the one at a position; none past the end.
    pub fn at(&self, position: usize) -> &[u32]
        ensures { result.now ≡ neighbours self.now position }
    {
        match self.near.get(position) {
            Some(row) => row.as_slice(),
            None => &[],
        }
    }

    /// No links between this many vertices.
    ///
    /// The one error is want of memory.
    pub fn none(alloc: Global, count: usize) -> Result<Links, AllocError>
        ensures { IfOk result (λ links. links ≡ replicate count []) }
    {
        let mut near = Vec::with_capacity(alloc, count)?;
        for _ in 0..count {
            near.push_reserved(Positions::new(alloc));
        }
        Ok(Links { near })
    }

    /// Makes one position, which has to be below `len`, a neighbour of another.
    ///
    /// The error is want of memory, or a neighbour of 2^32 or more: the links stay as they were.
    pub fn add(&mut self, position: usize, neighbour: usize) -> Result<(), AllocError>
        requires { position < length self.old }
        ensures added { OnOk result (AddsNeighbour self.old self.new position neighbour) }
        ensures kept { OnErr result (self.new ≡ self.old) }
    {
        let row = &mut self.near[position];
        row.add(neighbour)?;
        Ok(())
    }

    // Makes two positions neighbours of each other.
    fn join(&mut self, a: usize, b: usize) -> Result<(), AllocError>
        requires first { a < length self.old }
        requires second { b < length self.old }
        ensures { OnOk result (JoinsNeighbours self.old self.new a b) }
    {
        self.add(a, b)?;
        self.add(b, a)?;
        Ok(())
    }

    // Joins the ends of an edge, if its label has take or grant.
    fn add_edge(
        &mut self,
        graph: &Graph,
        opened: &Option<OpenRow<'_>>,
        position: usize,
        place: usize,
    ) -> Result<(), AllocError>
        requires opened { IfSome opened.now (λ row. row ≡ row_number graph.now position) }
        requires within { position < length (keys_of graph.now) }
        requires so_far { LinksUpTo graph.now self.old position place }
        ensures { OnOk result (LinksUpTo graph.now self.new position (place + 1)) }
    {
        if let Some(end) = linked_end(graph, opened, position, place) {
            self.join(position, end)?;
        }
        Ok(())
    }

    // Joins the ends of each edge out of a vertex whose label has take or grant.
    fn add_row(&mut self, graph: &Graph, position: usize) -> Result<(), AllocError>
        requires within { position < length (keys_of graph.now) }
        requires so_far { LinksUpTo graph.now self.old position 0 }
        ensures { OnOk result (LinksUpTo graph.now self.new (position + 1) 0) }
    {
        let opened = graph.open_row(position);
        for place in 0..graph.row_len(position) {
            self.add_edge(graph, &opened, position, place)?;
        }
        Ok(())
    }
}
