//! Who can come to have rights over one vertex, and which rights one vertex can come to have over each.
//!
//! The islands are found first. Then `who` looks at each row once, and `reach` at those of x's island.
ghost use Rattle.std.specs.Prelude.{◌≡◌, ◌↔◌, ◌<◌, ◌+◌, ℕ, true, IsTrue, IfOk, IfErr, IfSome, OnOk, None, Some, length, replicate, slice_get};
ghost use Rattle.std.specs.Map.{keys_of};
ghost use Rattle.tg_names.specs.Sets.{IsNamed, nothing};
ghost use Rattle.tg_graph.specs.Graphs.{has_vertex};
ghost use Rattle.tg_graph.specs.GraphOf.{graph_of};
ghost use Rattle.tg_rows.specs.Rows.{IsGraph, row_number};
ghost use Rattle.tg_islands.specs.Numbering.{AreCounted};
ghost use Rattle.tg_islands.specs.Questions.{IsDueFault};
ghost use Rattle.tg_analysis.specs.Reaching.{name_fault, TellWho, TellReach, set_at, AreNamedSets, GainsRights, HoldUpTo, HasEach, MarkUpTo, GainsLabel, GainLabels, ReachUpTo};

use crate::laws;
use bitflags::Flags;
use std::alloc::{AllocError, Global};
use tg_graph::{Graph, Name, OpenRow, Rights, Wanted};
use tg_islands::{AskFault, Islands};
use tg_sharing::named;

// So many empty sets.
fn empty_sets(alloc: Global, count: usize) -> Result<Vec<Rights>, AllocError>
    ensures { IfOk result (λ sets. sets.items ≡ replicate count nothing) }
{
    let sets = vec![in alloc; Rights::empty(); count]?;
    Ok(sets)
}

// Adds rights to the set at a place.
fn gain(sets: &mut Vec<Rights>, place: usize, rights: Rights)
    requires within { place < length sets.old.items }
    requires sets { AreNamedSets sets.old.items }
    requires rights { IsNamed rights }
    ensures { GainsRights place rights sets.old.items sets.new.items }
{
    sets[place] = sets[place].union(rights);
}

// Adds what the vertex at a position holds over y to what its island holds.
fn add_holder(
    held: &mut Vec<Rights>,
    graph: &Graph,
    islands: &Islands,
    y: Name,
    likely: Option<usize>,
    position: usize,
)
    requires { HoldUpTo graph.now islands.now y position held.old.items }
    ensures { HoldUpTo graph.now islands.now y (position + 1) held.new.items }
{
    if let Some(number) = islands.of(position) {
        gain(held, number, graph.rights_near(position, y, likely));
    }
}

// What each island holds over y, by number.
fn held_over(
    alloc: Global,
    graph: &Graph,
    islands: &Islands,
    y: Name,
) -> Result<Vec<Rights>, AllocError>
    ensures { IfOk result (λ held.
        HoldUpTo graph.now islands.now y (length (keys_of graph.now)) held.items) }
{
    let count = graph.len();
    let likely = graph.likely_number(y);
    let mut held = empty_sets(alloc, islands.count())?;
    for position in 0..count {
        add_holder(&mut held, graph, islands, y, likely, position);
    }
    Ok(held)
}

// Whether the island of the vertex at a position holds each right of the set.
fn holds_each(islands: &Islands, held: &[Rights], rights: Rights, position: usize) -> bool
    requires counted { AreCounted islands.now (length held.now) }
    requires held { AreNamedSets held.now }
    requires rights { IsNamed rights }
    ensures { (number : ℕ) → slice_get islands.now position ≡ Some number
        → IsTrue result ↔ HasEach (set_at held.now number) rights }
{
    match islands.of(position) {
        Some(number) => held[number].contains(rights),
        None => false,
    }
}

// For each position, whether the island of the vertex there holds each right of the set.
fn marks_of(
    alloc: Global,
    islands: &Islands,
    held: &[Rights],
    rights: Rights,
) -> Result<Vec<bool>, AllocError>
    requires counted { AreCounted islands.now (length held.now) }
    requires held { AreNamedSets held.now }
    requires rights { IsNamed rights }
    ensures { IfOk result (λ marks.
        MarkUpTo islands.now held.now rights (length islands.now) marks.items) }
{
    let mut marks = Vec::with_capacity(alloc, islands.len())?;
    for position in 0..islands.len() {
        marks.push(holds_each(islands, held, rights, position))?;
    }
    Ok(marks)
}

// Who can come to have every right of the set over y.
fn mark_all(alloc: Global, graph: &Graph, rights: Rights, y: Name) -> Result<Vec<bool>, AllocError>
    requires { has_vertex (graph_of graph.now) y ≡ true }
    ensures { IfOk result (λ marks. TellWho (graph_of graph.now) rights y marks.items) }
{
    laws::shared_exactly();
    laws::together();
    let _ = graph.len();
    let islands = tg_islands::islands(alloc, graph)?;
    let held = held_over(alloc, graph, &islands, y)?;
    let marks = marks_of(alloc, &islands, held.as_slice(), named(rights))?;
    Ok(marks)
}

/// Who can come to have every right of the set over y: for each vertex, by position, whether some one list
/// of rules, each accepted in its turn, gives it all of them. With the empty set it is so for each vertex.
///
/// The errors are `Unknown` with y where that is no vertex, and want of memory; a position of 2^32 or more is
/// refused as one for which there is no memory. It is never `TooLarge`. A bit of the set that stands for no
/// right counts for nothing.
pub fn who(alloc: Global, graph: &Graph, rights: Rights, y: Name) -> Result<Vec<bool>, AskFault>
    ensures known { OnOk result (name_fault (graph_of graph.now) y ≡ None) }
    ensures marks { IfOk result (λ marks. TellWho (graph_of graph.now) rights y marks.items) }
    ensures fault { IfErr result (IsDueFault (name_fault (graph_of graph.now) y)) }
{
    if !graph.knows(y) {
        return Err(AskFault::Unknown(y));
    }
    let marks = mark_all(alloc, graph, rights, y)?;
    Ok(marks)
}

// Adds the label of an edge to the set of its target.
fn add_edge(
    sets: &mut Vec<Rights>,
    graph: &Graph,
    opened: &Option<OpenRow<'_>>,
    position: usize,
    place: usize,
)
    requires opened { IfSome opened.now (λ row. row ≡ row_number graph.now position) }
    requires graph { IsGraph graph.now }
    requires len { length sets.old.items ≡ length (keys_of graph.now) }
    requires sets { AreNamedSets sets.old.items }
    ensures { GainsLabel graph.now position place sets.old.items sets.new.items }
{
    if let Some((target, label)) = graph.end_in(opened, position, place, Wanted::All) {
        gain(sets, target, label);
    }
}

// Adds the labels of the edges out of a vertex to the sets of their targets.
fn add_row(sets: &mut Vec<Rights>, graph: &Graph, position: usize)
    requires graph { IsGraph graph.now }
    requires len { length sets.old.items ≡ length (keys_of graph.now) }
    requires sets { AreNamedSets sets.old.items }
    ensures { GainLabels graph.now position (length (row_number graph.now position))
        sets.old.items sets.new.items }
{
    let opened = graph.open_row(position);
    for place in 0..graph.row_len(position) {
        add_edge(sets, graph, &opened, position, place);
    }
}

// Whether the vertex at a position is of the island with the number.
fn is_of(islands: &Islands, number: usize, position: usize) -> bool
    ensures { IsTrue result ↔ (slice_get islands.now position ≡ Some number) }
{
    islands.of(position) == Some(number)
}

// Adds the labels of the edges out of a vertex, if it is of the island with the number.
fn add_row_of(
    sets: &mut Vec<Rights>,
    graph: &Graph,
    islands: &Islands,
    number: usize,
    position: usize,
)
    requires graph { IsGraph graph.now }
    requires so_far { ReachUpTo graph.now islands.now number position sets.old.items }
    ensures { ReachUpTo graph.now islands.now number (position + 1) sets.new.items }
{
    if is_of(islands, number, position) {
        add_row(sets, graph, position);
    }
}

// The rights that the island with the number holds over each vertex.
fn reached(
    alloc: Global,
    graph: &Graph,
    islands: &Islands,
    number: usize,
) -> Result<Vec<Rights>, AllocError>
    ensures { IfOk result (λ sets.
        ReachUpTo graph.now islands.now number (length (keys_of graph.now)) sets.items) }
{
    let count = graph.len();
    let mut sets = empty_sets(alloc, count)?;
    for source in 0..count {
        add_row_of(&mut sets, graph, islands, number, source);
    }
    Ok(sets)
}

// Which rights x can come to have over each vertex.
fn reached_from(alloc: Global, graph: &Graph, x: Name) -> Result<Vec<Rights>, AllocError>
    requires { has_vertex (graph_of graph.now) x ≡ true }
    ensures { IfOk result (λ sets. TellReach (graph_of graph.now) x sets.items) }
{
    laws::shared_exactly();
    let _ = graph.len();
    let islands = tg_islands::islands(alloc, graph)?;
    let Some(number) = islands.number_of(graph, x) else {
        unreachable!();
    };
    let sets = reached(alloc, graph, &islands, number)?;
    Ok(sets)
}

/// Which rights x can come to have over each vertex: for each vertex, by position, the set of exactly those
/// that some list of rules, each accepted in its turn, gives x over it.
///
/// The errors are `Unknown` with x where that is no vertex, and want of memory; a position of 2^32 or more is
/// refused as one for which there is no memory. It is never `TooLarge`. No set has a bit that stands for no
/// right.
pub fn reach(alloc: Global, graph: &Graph, x: Name) -> Result<Vec<Rights>, AskFault>
    ensures known { OnOk result (name_fault (graph_of graph.now) x ≡ None) }
    ensures sets { IfOk result (λ sets. TellReach (graph_of graph.now) x sets.items) }
    ensures fault { IfErr result (IsDueFault (name_fault (graph_of graph.now) x)) }
{
    if !graph.knows(x) {
        return Err(AskFault::Unknown(x));
    }
    let sets = reached_from(alloc, graph, x)?;
    Ok(sets)
}
