//! Edges that stay as they are.
ghost use Rattle.std.specs.Prelude.{◌≡◌, ◌&&◌, true, false, Some, IfErr, IfOk, OnErr, OnOk, slice_get};
ghost use Rattle.std.specs.Map.{keys_of};
ghost use Rattle.tg_names.specs.Names.{same_name};
ghost use Rattle.tg_graph.specs.Graphs.{has_vertex};
ghost use Rattle.tg_graph.specs.GraphOf.{graph_of};
ghost use Rattle.tg_islands.specs.declared.questions.AskFault.TheVariants.{Unknown};
ghost use Rattle.tg_cuts.specs.Cuts.{is_one_of};
ghost use Rattle.tg_cuts.specs.CutParts.{KnowsEnds, KnowsAllEnds, IsUnknownEnd, IsUnknownEndOf};

use tg_graph::{Graph, Name};
use tg_islands::AskFault;

/// An edge, by its ends.
#[derive(Clone, Copy, PartialEq, Eq, Debug)]
pub struct Ends {
    /// The vertex that it comes from.
    pub source: Name,
    /// The vertex that it leads to.
    pub target: Name,
}

// Whether an edge is the one between the two vertices.
fn is_between(edge: &Ends, source: Name, target: Name) -> bool
    ensures { result ≡ (same_name source edge.now.source && same_name target edge.now.target) }
{
    source == edge.source && target == edge.target
}

/// Whether the edge between the two vertices is one of these.
pub(crate) fn is_one_of(edges: &[Ends], source: Name, target: Name) -> bool
    ensures { result ≡ is_one_of edges.now source target }
{
    edges.iter().any(|edge| is_between(edge, source, target))
}

/// The position of a vertex.
///
/// The error is `Unknown` with the name, where that is no vertex.
pub(crate) fn position_of(graph: &Graph, name: Name) -> Result<usize, AskFault>
    ensures known { OnOk result (has_vertex (graph_of graph.now) name ≡ true) }
    ensures place { IfOk result (λ position. slice_get (keys_of graph.now) position ≡ Some name) }
    ensures unknown { IfErr result (λ fault. fault ≡ Unknown name) }
    ensures none { OnErr result (has_vertex (graph_of graph.now) name ≡ false) }
{
    match graph.position(name) {
        Some(position) => Ok(position),
        None => Err(AskFault::Unknown(name)),
    }
}

// Whether both ends of an edge are vertices.
fn check_edge(graph: &Graph, edge: &Ends) -> Result<(), AskFault>
    ensures known { OnOk result (KnowsEnds (graph_of graph.now) edge.now) }
    ensures fault { IfErr result (IsUnknownEndOf (graph_of graph.now) edge.now) }
{
    position_of(graph, edge.source)?;
    position_of(graph, edge.target)?;
    Ok(())
}

/// Whether the ends of all edges are vertices.
///
/// The error is `Unknown` with the first that is none, the ends of each edge in turn.
pub(crate) fn check_edges(graph: &Graph, edges: &[Ends]) -> Result<(), AskFault>
    ensures known { OnOk result (KnowsAllEnds (graph_of graph.now) edges.now) }
    ensures fault { IfErr result (IsUnknownEnd (graph_of graph.now) edges.now) }
{
    for edge in edges {
        check_edge(graph, edge)?;
    }
    Ok(())
}
