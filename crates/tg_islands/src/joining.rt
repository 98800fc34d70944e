//! The islands of a graph: the sets of vertices that links join.
ghost use Rattle.std.specs.Prelude.{◌≡◌, ◌<◌, ◌+◌, ℕ, IfOk, IfSome, OnOk, length};
ghost use Rattle.std.specs.Map.{keys_of};
ghost use Rattle.tg_graph.specs.GraphOf.{graph_of};
ghost use Rattle.tg_rows.specs.Rows.{IsGraph, row_number};
ghost use Rattle.tg_islands.specs.Numbering.{AreIslands};
ghost use Rattle.tg_islands.specs.DisjointSets.{set_of, StayTogether};
ghost use Rattle.tg_islands.specs.JoinedSets.{JoinedUpTo, NumbersUpTo, NumberSets};

use crate::disjoint_sets::DisjointSets;
use crate::links::linked_end;
use crate::numbering::Islands;
use std::alloc::{AllocError, Global};
use tg_graph::{Graph, OpenRow};

// Joins the sets of the ends of an edge, if its label has take or grant.
fn join_edge(
    sets: &mut DisjointSets,
    graph: &Graph,
    opened: &Option<OpenRow<'_>>,
    position: usize,
    place: usize,
) -> Result<(), AllocError>
    requires opened { IfSome opened.now (λ row. row ≡ row_number graph.now position) }
    requires graph { IsGraph graph.now }
    requires within { position < length (keys_of graph.now) }
    requires so_far { JoinedUpTo graph.now sets.old position place }
    ensures joined { OnOk result (JoinedUpTo graph.now sets.new position (place + 1)) }
    ensures together { OnOk result (StayTogether sets.old.sets.items sets.new.sets.items) }
{
    if let Some(end) = linked_end(graph, opened, position, place) {
        sets.join(position, end)?;
    }
    Ok(())
}

// Joins the sets of the ends of each edge out of a vertex whose label has take or grant.
fn join_row(sets: &mut DisjointSets, graph: &Graph, position: usize) -> Result<(), AllocError>
    requires graph { IsGraph graph.now }
    requires within { position < length (keys_of graph.now) }
    requires so_far { JoinedUpTo graph.now sets.old position 0 }
    ensures joined { OnOk result (JoinedUpTo graph.now sets.new (position + 1) 0) }
    ensures together { OnOk result (StayTogether sets.old.sets.items sets.new.sets.items) }
{
    let opened = graph.open_row(position);
    for place in 0..graph.row_len(position) {
        join_edge(sets, graph, &opened, position, place)?;
    }
    Ok(())
}

// Joins the ends of each edge whose label has take or grant, until all vertices are in one set.
fn join_all(sets: &mut DisjointSets, graph: &Graph) -> Result<(), AllocError>
    requires { JoinedUpTo graph.now sets.old 0 0 }
    ensures { OnOk result (JoinedUpTo graph.now sets.new (length (keys_of graph.now)) 0) }
{
    let mut in_one = 0;
    for position in 0..graph.len() {
        in_one = sets.count_in_one(in_one);
        if in_one >= graph.len() {
            return Ok(());
        }
        join_row(sets, graph, position)?;
    }
    Ok(())
}

// The numbers of sets, and by them of positions.
#[derive(Drop)]
struct Numbers {
    // The numbers so far, by set.
    of_sets: Vec<Option<usize>>,
    // The numbers so far, by position.
    numbers: Vec<usize>,
    // How many sets have a number.
    count: usize,
}

impl Numbers {
    // Gives the next position the number of its set, and the next number to a set that has none.
    fn add(&mut self, sets: &[usize], position: usize) -> Result<(), AllocError>
        requires within { position < length sets.now }
        requires known { set_of sets.now position < length sets.now }
        requires so_far { NumbersUpTo sets.now position self.old }
        ensures { OnOk result (NumbersUpTo sets.now (position + 1) self.new) }
    {
        let set = sets[position];
        match self.of_sets[set] {
            Some(number) => self.numbers.push(number)?,
            None => {
                self.numbers.push(self.count)?;
                self.of_sets[set] = Some(self.count);
                self.count += 1;
            }
        }
        Ok(())
    }
}

// The numbers of the sets, by position.
fn numbered(alloc: Global, sets: &[usize]) -> Result<Islands, AllocError>
    requires { (a : ℕ) → a < length sets.now → set_of sets.now a < length sets.now }
    ensures { IfOk result (NumberSets sets.now) }
{
    let mut numbers = Numbers {
        of_sets: vec![in alloc; None; sets.len()]?,
        numbers: Vec::with_capacity(alloc, sets.len())?,
        count: 0,
    };
    for position in 0..sets.len() {
        numbers.add(sets, position)?;
    }
    Ok(Islands::new(numbers.numbers, numbers.count))
}

/// The islands of a graph, by one pass over its edges, which ends early where all vertices lie in one.
///
/// The one error: memory was refused, or a vertex has a position of 2^32 or more.
pub fn islands(alloc: Global, graph: &Graph) -> Result<Islands, AllocError>
    ensures { IfOk result (λ numbers. AreIslands (graph_of graph.now) numbers) }
{
    let mut sets = DisjointSets::apart(alloc, graph.len())?;
    join_all(&mut sets, graph)?;
    let numbers = numbered(alloc, sets.sets.as_slice())?;
    Ok(numbers)
}
