//! The network along whose edges units go from x to the end behind those that hold a right over y.
ghost use Rattle.std.specs.Prelude.{◌≡◌, ◌+◌, ◌<◌, ◌&&◌, ◌||◌, IfOk, IfSome, OnOk, length};
ghost use Rattle.std.specs.Map.{keys_of};
ghost use Rattle.tg_names.specs.declared.right_sets.Right.TheVariants.{T, G};
ghost use Rattle.tg_names.specs.Sets.{member};
ghost use Rattle.tg_names.specs.Names.{same_name};
ghost use Rattle.tg_rows.specs.Rows.{IsGraph, row_number};
ghost use Rattle.tg_cuts.specs.CutParts.{role_by, label_role, name_at, EdgesUpTo, AreFlowEdges};

use crate::kept::{Ends, is_one_of};
use std::alloc::{AllocError, Global};
use tg_flow::{Network, Role};
use tg_graph::{Graph, Name, OpenRow, Right, Rights, Wanted};

/// What a network is made for: a right over y, and the edges that are kept.
#[derive(Clone, Copy)]
pub(crate) struct Sought<'a> {
    /// The right.
    pub right: Right,
    /// Over whom.
    pub y: Name,
    /// The edges that are kept.
    pub kept: &'a [Ends],
}

// What an edge can serve as, that links, leads to the end, or both.
fn role_by(links: bool, ends: bool) -> Option<Role>
    ensures { result ≡ role_by links ends }
{
    match (links, ends) {
        (false, false) => None,
        (true, false) => Some(Role::Link),
        (false, true) => Some(Role::End),
        (true, true) => Some(Role::Both),
    }
}

// Whether an edge with the label links its ends.
fn has_link(label: Rights) -> bool
    ensures { result ≡ (member label T || member label G) }
{
    label.has(Right::T) || label.has(Right::G)
}

impl<'a> Sought<'a> {
    // Whether an edge to the vertex with the label leads to the end.
    fn ends_by(&self, target: Name, label: Rights) -> bool
        ensures { result ≡ (same_name target self.now.y && member label self.now.right) }
    {
        target == self.y && label.has(self.right)
    }

    // What an edge to the vertex with the label can serve as.
    fn role(&self, target: Name, label: Rights) -> Option<Role>
        ensures { result ≡ label_role self.now.right self.now.y target label }
    {
        role_by(has_link(label), self.ends_by(target, label))
    }
}

/// The name of the vertex at a position.
pub(crate) fn name_of(graph: &Graph, position: usize) -> Name
    requires { position < length (keys_of graph.now) }
    ensures { result ≡ name_at graph.now position }
{
    match graph.name_at(position) {
        Some(name) => name,
        None => unreachable!(),
    }
}

// Puts the edge at a place in the row of a vertex behind the others, if it can serve as something.
fn put_edge(
    network: &mut Network,
    graph: &Graph,
    sought: &Sought<'_>,
    opened: &Option<OpenRow<'_>>,
    position: usize,
    place: usize,
) -> Result<(), AllocError>
    requires opened { IfSome opened.now (λ row. row ≡ row_number graph.now position) }
    requires graph { IsGraph graph.now }
    requires so_far { EdgesUpTo graph.now sought.now.right sought.now.y sought.now.kept.now
        position place network.old }
    ensures { OnOk result (EdgesUpTo graph.now sought.now.right sought.now.y sought.now.kept.now
        position (place + 1) network.new) }
{
    let Some((end, label)) = graph.end_in(opened, position, place, Wanted::All) else {
        return Ok(());
    };
    let target = name_of(graph, end);
    let Some(role) = sought.role(target, label) else {
        return Ok(());
    };
    let source = name_of(graph, position);
    let kept = is_one_of(sought.kept, source, target);
    network.put(position, end, role, kept)?;
    Ok(())
}

// Puts the edges out of a vertex behind the others.
fn put_row(
    network: &mut Network,
    graph: &Graph,
    sought: &Sought<'_>,
    position: usize,
) -> Result<(), AllocError>
    requires graph { IsGraph graph.now }
    requires so_far { EdgesUpTo graph.now sought.now.right sought.now.y sought.now.kept.now
        position 0 network.old }
    ensures { OnOk result (EdgesUpTo graph.now sought.now.right sought.now.y sought.now.kept.now
        (position + 1) 0 network.new) }
{
    let opened = graph.open_row(position);
    for place in 0..graph.row_len(position) {
        put_edge(network, graph, sought, &opened, position, place)?;
    }
    Ok(())
}

// How many edges a graph has. It decides how much room is asked for, and nothing else.
fn edge_count(graph: &Graph) -> usize {
    let mut count: usize = 0;
    for position in 0..graph.len() {
        count = count.saturating_add(graph.row_len(position));
    }
    count
}

/// The edges of a graph that can serve as something, in one pass over its edges.
///
/// The error is want of memory; more than 4,096 vertices are refused as such.
pub(crate) fn network_of(
    alloc: Global,
    graph: &Graph,
    sought: &Sought<'_>,
) -> Result<Network, AllocError>
    ensures { IfOk result (λ network. AreFlowEdges graph.now sought.now.right sought.now.y
        sought.now.kept.now network) }
{
    let mut network = Network::with_room(alloc, graph.len(), edge_count(graph))?;
    for position in 0..graph.len() {
        put_row(&mut network, graph, sought, position)?;
    }
    Ok(network)
}
