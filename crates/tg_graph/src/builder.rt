//! Building a graph edge by edge.
ghost use Rattle.std.specs.Prelude.{◌≡◌, ◌<◌, IfOk, OnErr, length};
ghost use Rattle.tg_names.specs.Sets.{IsNamed};
ghost use Rattle.tg_graph.specs.Graphs.{has_vertex};
ghost use Rattle.tg_graph.specs.GraphOf.{graph_of};
ghost use Rattle.tg_graph.specs.Additions.{AddsVertex, AddsEdge};
ghost use Rattle.tg_graph.specs.Waiting.{graph_built};

use crate::labels::Labels;
use crate::protection::{EdgeFault, Graph, VertexFault};
use crate::waiting;
use std::alloc::{AllocError, Global};
use std::marker::Model;
use tg_names::{Name, Rights};

// The edges out of a vertex wait where there are as many.
const MANY_EDGES: usize = 16;

// And as many as this part of the vertices. So there is an edge for each so many labels that wait.
const PART_OF_VERTICES: usize = 32;

/// A graph that is built, as from a text.
///
/// Where there are many edges out of a vertex, those that come then are put into its row all
/// together in the end, which is faster than one by one. A contract sees the graph that there is so
/// far. A call that is refused leaves it as it was.
#[derive(Drop)]
pub struct GraphBuilder {
    graph: Graph,
    // The labels that wait for each vertex, by position.
    waits: Vec<Labels>,
    // Whether a vertex came after edges had waited: then none wait any more.
    in_parts: bool,
    // The position of the last edge's source, and the one behind its target. They decide no answer.
    source: usize,
    next: usize,
}

impl Model for GraphBuilder {
    ghost use Rattle.std.specs.Prelude.{List, ℕ};
    ghost use Rattle.tg_names.specs.declared.right_sets.Rights.{Rights};
    ghost use Rattle.tg_graph.specs.Waiting.{MayWait};

    ghost Value = { List (List ℕ × List (List ℕ × Rights)) × List (List Rights) };

    ghost view = { λ b. (b.graph, b.waits.items) };

    ghost invariant = { λ b. MayWait (b.graph, b.waits.items) };
}

impl GraphBuilder {
    /// What is built goes on from a graph.
    pub fn over(alloc: Global, graph: Graph) -> GraphBuilder
        ensures { graph_built result ≡ graph_of graph }
    {
        GraphBuilder {
            graph,
            waits: Vec::new(alloc),
            in_parts: false,
            source: 0,
            next: 0,
        }
    }

    /// The graph that was built. It fails where a request for memory is refused.
    pub fn finish(self) -> Result<Graph, AllocError>
        ensures { IfOk result (λ graph. graph_of graph ≡ graph_built self) }
    {
        let GraphBuilder {
            mut graph,
            mut waits,
            ..
        } = self;
        waiting::settle_all(&mut graph, &mut waits)?;
        Ok(graph)
    }

    /// How many vertices there are.
    pub fn len(&self) -> usize
        ensures { result ≡ length (graph_built self.now).vertices }
    {
        self.graph.len()
    }

    /// Whether a name is a vertex.
    pub fn knows(&self, name: Name) -> bool
        ensures { result ≡ has_vertex (graph_built self.now) name }
    {
        self.graph.knows(name)
    }

    /// Adds a vertex with no edges, as the last.
    pub fn add_vertex(&mut self, n: Name) -> Result<(), VertexFault>
        ensures added { AddsVertex (graph_built self.old) n result (graph_built self.new) }
        ensures kept { OnErr result (graph_built self.new ≡ graph_built self.old) }
    {
        if self.graph.knows(n) {
            return Err(VertexFault::Taken);
        }
        self.in_parts |= !self.waits.is_empty();
        waiting::settle_all(&mut self.graph, &mut self.waits)?;
        self.graph.add_vertex(n)?;
        Ok(())
    }

    // Whether the edges to come out of the vertex at a position are to wait.
    fn has_many(&self, source: usize) -> bool {
        let edges = self.graph.row_len(source);
        edges >= MANY_EDGES && edges >= self.len() / PART_OF_VERTICES && !self.in_parts
    }

    // Lets the edges to come out of the vertex at a position wait, where there are many.
    fn begin_where_many(&mut self, source: usize)
        requires { source < length self.old.0 }
        ensures rows { self.new.0 ≡ self.old.0 }
        ensures same { graph_built self.new ≡ graph_built self.old }
    {
        if !waiting::waits_at(self.waits.as_slice(), source) && self.has_many(source) {
            waiting::begin(&self.graph, &mut self.waits, source);
        }
    }

    /// Adds an edge between vertices between which there is none, with a label that is not empty.
    pub fn add_edge(&mut self, x: Name, y: Name, rights: Rights) -> Result<(), EdgeFault>
        requires { IsNamed rights }
        ensures added { AddsEdge (graph_built self.old) x y rights result (graph_built self.new) }
        ensures kept { OnErr result (graph_built self.new ≡ graph_built self.old) }
    {
        let Some(source) = self.graph.position_near(self.source, x) else {
            return Err(EdgeFault::Unknown(x));
        };
        let Some(target) = self.graph.position_near(self.next, y) else {
            return Err(EdgeFault::Unknown(y));
        };
        self.source = source;
        self.next = target.saturating_add(1);
        self.begin_where_many(source);
        if waiting::waits_at(self.waits.as_slice(), source) {
            return waiting::add_waiting(&self.graph, &mut self.waits, source, target, x, y, rights);
        }
        waiting::add_at_once(
            &mut self.graph,
            self.waits.as_slice(),
            source,
            target,
            x,
            y,
            rights,
        )
    }
}
