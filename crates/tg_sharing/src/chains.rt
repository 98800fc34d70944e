//! Chains of links from a vertex that holds a right.
ghost use Rattle.std.specs.Prelude.{◌≡◌, ◌<◌, ◌≤◌, ◌+◌, ◌^◌, [], Some, IsTrue, IfOk, OnOk, MatchOption, slice_get};
ghost use Rattle.std.specs.Map.{keys_of};
ghost use Rattle.tg_graph.specs.Graphs.{has_vertex, WellFormed};
ghost use Rattle.tg_graph.specs.GraphOf.{graph_of};
ghost use Rattle.tg_islands.specs.Sharing.{HeldInIsland};
ghost use Rattle.tg_islands.specs.Linked.{AreLinks};
ghost use Rattle.tg_sharing.specs.Searches.{AreNear, AddsUnmet, AreUnmet, IsBackwards, IsWayBack, IsSearch, IsInOrder, GoesRound, IsSearching, SearchesOn, IsWay};

use crate::met::Met;
use std::alloc::{AllocError, Global};
use tg_graph::{Graph, Name, Right};
use tg_islands::Links;

/// A chain of links from a vertex that holds a right.
#[derive(Drop)]
pub struct Chain {
    /// The vertex that holds the right.
    pub holder: Name,
    /// The vertices after it, each linked to the one before.
    pub links: Vec<Name>,
}

// Adds the vertex at a position, unless it was met.
fn add_unmet(
    graph: &Graph,
    met: &Met,
    position: usize,
    names: &mut Vec<Name>,
) -> Result<(), AllocError>
    ensures { OnOk result
        (AddsUnmet (keys_of graph.now) met.now position names.old.items names.new.items) }
{
    match graph.name_at(position) {
        Some(name) if !met.has(name) => names.push(name)?,
        _ => {}
    }
    Ok(())
}

// The positions of the neighbours of a vertex.
fn neighbours<'a>(graph: &Graph, links: &'a Links, vertex: Name) -> &'a [u32]
    requires links { AreLinks (graph_of graph.now) links.now }
    requires known { IsTrue (has_vertex (graph_of graph.now) vertex) }
    ensures { AreNear (graph_of graph.now) vertex result.now }
{
    match graph.position(vertex) {
        Some(position) => links.at(position),
        None => &[],
    }
}

// The neighbours of a vertex that were not met, in name order.
fn unmet(
    alloc: Global,
    graph: &Graph,
    links: &Links,
    met: &Met,
    vertex: Name,
) -> Result<Vec<Name>, AllocError>
    requires well_formed { WellFormed (graph_of graph.now) }
    requires links { AreLinks (graph_of graph.now) links.now }
    requires known { IsTrue (has_vertex (graph_of graph.now) vertex) }
    ensures { IfOk result (λ names. AreUnmet (graph_of graph.now) met.now vertex names.items) }
{
    let mut names = Vec::new(alloc);
    let near = neighbours(graph, links, vertex);
    for position in near {
        add_unmet(graph, met, *position as usize, &mut names)?;
    }
    names.sort_unstable();
    Ok(names)
}

// Meets the neighbours of the vertex at a place.
fn go_round(
    alloc: Global,
    graph: &Graph,
    links: &Links,
    met: &mut Met,
    place: usize,
    vertex: Name,
) -> Result<(), AllocError>
    requires well_formed { WellFormed (graph_of graph.now) }
    requires links { AreLinks (graph_of graph.now) links.now }
    requires search { IsSearch (graph_of graph.now) met.old }
    requires order { IsInOrder met.old place }
    requires here { slice_get (keys_of met.old) place ≡ Some vertex }
    ensures { OnOk result (GoesRound (graph_of graph.now) place vertex met.old met.new) }
{
    let names = unmet(alloc, graph, links, met, vertex)?;
    for name in &names {
        met.meet(*name, place)?;
    }
    Ok(())
}

// The vertices on the way back from the one at a place to the first.
fn way_back(alloc: Global, met: &Met, place: usize) -> Result<Vec<Name>, AllocError>
    requires { IsBackwards met.now }
    ensures { IfOk result (λ way. IsWayBack met.now place way.items) }
{
    let mut way = Vec::new(alloc);
    let mut at = place;
    while let Some(step) = met.back(at) {
        way.push(step.0)?;
        at = step.1;
    }
    Ok(way)
}

/// A breadth-first search from a vertex, neighbours in name order. It goes on as far as it is asked
/// to, and from there when it is asked again.
#[derive(Drop)]
pub struct Search {
    links: Links,
    start: Name,
    met: Met,
    // The neighbours of those before this place were met.
    rounds: usize,
}

impl Search {
    /// A search that has met its start alone.
    ///
    /// The one error is want of memory.
    pub fn from(alloc: Global, graph: &Graph, start: Name) -> Result<Search, AllocError>
        requires known { IsTrue (has_vertex (graph_of graph.now) start) }
        ensures searching { IfOk result (λ search. IsSearching (graph_of graph.now) search) }
        ensures start { IfOk result (λ search. search.start ≡ start) }
    {
        Ok(Search {
            links: Links::of(alloc, graph)?,
            start,
            met: Met::from(alloc, start)?,
            rounds: 0,
        })
    }

    /// How many links the graph has: an edge that links stands in the lists of both its ends. It decides no answer.
    pub fn link_count(&self) -> usize {
        let mut count: usize = 0;
        for position in 0..self.links.len() {
            count = count.saturating_add(self.links.at(position).len());
        }
        count / 2
    }

    // Meets the neighbours of the vertex at a place, unless they were met.
    fn follow(
        &mut self,
        alloc: Global,
        graph: &Graph,
        place: usize,
        vertex: Name,
    ) -> Result<(), AllocError>
        requires well_formed { WellFormed (graph_of graph.now) }
        requires searching { IsSearching (graph_of graph.now) self.old }
        requires here { slice_get (keys_of self.old.met) place ≡ Some vertex }
        requires in_turn { place ≤ self.old.rounds }
        requires small { place < 2 ^ 63 }
        ensures on { OnOk result (SearchesOn (graph_of graph.now) self.old self.new) }
        ensures beyond { OnOk result (place + 1 ≤ self.new.rounds) }
    {
        if place < self.rounds {
            return Ok(());
        }
        go_round(alloc, graph, &self.links, &mut self.met, place, vertex)?;
        self.rounds = place + 1;
        Ok(())
    }

    /// A shortest chain of links to the start from a vertex that holds the right over `y`, if there
    /// is one: from the first such vertex in the order in which they are met.
    ///
    /// The one error is want of memory.
    pub fn chain_to(
        &mut self,
        alloc: Global,
        graph: &Graph,
        right: Right,
        y: Name,
    ) -> Result<Option<Chain>, AllocError>
        requires well_formed { WellFormed (graph_of graph.now) }
        requires searching { IsSearching (graph_of graph.now) self.old }
        ensures on { OnOk result (SearchesOn (graph_of graph.now) self.old self.new) }
        ensures chain { IfOk result (λ chain. MatchOption chain
            (HeldInIsland (graph_of graph.now) right self.old.start y → ⊥)
            (λ chain.
            IsWay (graph_of graph.now) right self.old.start y chain.holder chain.links.items)) }
    {
        let mut place = 0;
        while let Some(visit) = self.met.at(place) {
            let vertex = visit.0;
            if graph.holds(vertex, right, y) {
                return Ok(Some(Chain {
                    holder: vertex,
                    links: way_back(alloc, &self.met, place)?,
                }));
            }
            self.follow(alloc, graph, place, vertex)?;
            place += 1;
        }
        Ok(None)
    }
}
