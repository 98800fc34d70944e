//! What each edge has to lose, so that some vertices are free of a right over y.
ghost use Rattle.std.specs.Prelude.{◌≡◌, ◌≤◌, ◌&&◌, not, ℕ, true, Some, IfOk, IfSome, MatchOption, OnOk, length, slice_get};
ghost use Rattle.std.specs.List.{list_any};
ghost use Rattle.std.specs.Map.{keys_of};
ghost use Rattle.tg_flow.specs.Courses.{is_in};
ghost use Rattle.tg_names.specs.declared.right_sets.Right.{Right};
ghost use Rattle.tg_names.specs.Sets.{member, IsNamed};
ghost use Rattle.tg_names.specs.Names.{same_name};
ghost use Rattle.tg_graph.specs.GraphOf.{graph_of};
ghost use Rattle.tg_rows.specs.Rows.{IsGraph, row_number};
ghost use Rattle.tg_islands.specs.Moves.{take_and_grant};
ghost use Rattle.tg_cuts.specs.CutParts.{differ, IsLoss, free_of, TakesAt, TakesNone, AddsLoss, AddsRules, IsSourceAt, AreSources, AreLosses};

use crate::network::name_of;
use bitflags::Flags;
use std::alloc::{AllocError, Global};
use tg_graph::{Graph, Name, OpenRow, Right, Rights, Rule, Wanted};

/// A right over y, and who comes to it beyond a cut, by position: all others are to be free of it.
#[derive(Clone, Copy)]
pub(crate) struct Freed<'a> {
    /// The right.
    pub right: Right,
    /// Over whom.
    pub y: Name,
    /// For each position whether the vertex there comes to the right.
    pub beyond: &'a [bool],
}

/// Whether a position is marked; none is past the end.
pub(crate) fn is_in(marks: &[bool], position: usize) -> bool
    ensures { result ≡ is_in marks.now position }
{
    if position < marks.len() {
        marks[position]
    } else {
        false
    }
}

// Take and grant.
fn links() -> Rights
    ensures members { (lost : Right) → member result lost ≡ member take_and_grant lost }
    ensures named { IsNamed result }
{
    Rights::of(Right::T).union(Rights::of(Right::G))
}

// Whether one of the two is true, and the other is not.
fn differ(a: bool, b: bool) -> bool
    ensures { result ≡ differ a b }
{
    match (a, b) {
        (true, false) | (false, true) => true,
        (true, true) | (false, false) => false,
    }
}

// Whether both are.
fn both(a: bool, b: bool) -> bool
    ensures { result ≡ (a && b) }
{
    match (a, b) {
        (true, true) => true,
        (true, false) | (false, _) => false,
    }
}

// The rights, if they go.
fn rights_if(goes: bool, rights: Rights) -> Rights
    requires { IsNamed rights }
    ensures members { (lost : Right) → member result lost ≡ (goes && member rights lost) }
    ensures named { IsNamed result }
{
    if goes { rights } else { Rights::empty() }
}

// What an edge loses of its label, by whether its source and its target are free, and whether it leads to y: the
// right itself from a free vertex over y, and take and grant between a free one and another.
fn loss(right: Right, from_free: bool, to_free: bool, to_y: bool, label: Rights) -> Rights
    requires { IsNamed label }
    ensures { IsLoss right from_free to_free to_y label result }
{
    let right_lost = rights_if(both(from_free, to_y), Rights::of(right));
    let links_lost = rights_if(differ(from_free, to_free), links());
    let lost = right_lost.union(links_lost);
    let left = label.difference(lost);
    label.difference(left)
}

impl<'a> Freed<'a> {
    // Whether the vertex at a position is to be free.
    fn is_free(&self, position: usize) -> bool
        ensures { result ≡ not (is_in self.now.beyond.now position) }
    {
        !is_in(self.beyond, position)
    }

    // The rule for the edge at a place of a row, if it loses something.
    fn rule_at(
        &self,
        graph: &Graph,
        opened: &Option<OpenRow<'_>>,
        source: Name,
        position: usize,
        place: usize,
    ) -> Option<Rule>
        requires opened { IfSome opened.now (λ row. row ≡ row_number graph.now position) }
        requires graph { IsGraph graph.now }
        requires source { slice_get (keys_of graph.now) position ≡ Some source }
        ensures { MatchOption result
            (TakesNone graph.now self.now.right self.now.y
            (free_of graph.now self.now.beyond.now) source position place)
            (λ rule. TakesAt graph.now self.now.right self.now.y
            (free_of graph.now self.now.beyond.now) source position place rule) }
    {
        let Some((end, label)) = graph.end_in(opened, position, place, Wanted::All) else {
            return None;
        };
        let target = name_of(graph, end);
        let from_free = self.is_free(position);
        let to_free = self.is_free(end);
        let to_y = target == self.y;
        let rights = loss(self.right, from_free, to_free, to_y, label);
        if rights.is_empty() {
            return None;
        }
        Some(Rule::Remove {
            x: source,
            y: target,
            rights,
        })
    }

    // Adds that rule to the others.
    fn add_rule(
        &self,
        graph: &Graph,
        opened: &Option<OpenRow<'_>>,
        source: Name,
        position: usize,
        place: usize,
        rules: &mut Vec<Rule>,
    ) -> Result<(), AllocError>
        requires opened { IfSome opened.now (λ row. row ≡ row_number graph.now position) }
        requires graph { IsGraph graph.now }
        requires source { slice_get (keys_of graph.now) position ≡ Some source }
        ensures { OnOk result (AddsLoss graph.now self.now.right self.now.y
            (free_of graph.now self.now.beyond.now) source position place
            rules.old.items rules.new.items) }
    {
        if let Some(rule) = self.rule_at(graph, opened, source, position, place) {
            rules.push(rule)?;
        }
        Ok(())
    }

    // Adds the rules for the edges out of the vertex at a position, in the order of their targets.
    fn add_row(
        &self,
        graph: &Graph,
        source: Name,
        position: usize,
        rules: &mut Vec<Rule>,
    ) -> Result<(), AllocError>
        requires graph { IsGraph graph.now }
        requires source { slice_get (keys_of graph.now) position ≡ Some source }
        ensures { OnOk result (AddsRules graph.now self.now.right self.now.y
            (free_of graph.now self.now.beyond.now) source position
            (length (row_number graph.now position)) rules.old.items rules.new.items) }
    {
        let opened = graph.open_row(position);
        for place in 0..graph.row_len(position) {
            self.add_rule(graph, &opened, source, position, place, rules)?;
        }
        Ok(())
    }

    // The same for a vertex that is known by its name.
    fn add_source(
        &self,
        graph: &Graph,
        source: Name,
        rules: &mut Vec<Rule>,
    ) -> Result<(), AllocError>
        requires graph { IsGraph graph.now }
        requires known { list_any (same_name source) (keys_of graph.now) ≡ true }
        ensures { OnOk result ((a : ℕ) × (slice_get (keys_of graph.now) a ≡ Some source)
            × AddsRules graph.now self.now.right self.now.y
            (free_of graph.now self.now.beyond.now) source a
            (length (row_number graph.now a)) rules.old.items rules.new.items) }
    {
        let Some(position) = graph.position(source) else {
            unreachable!();
        };
        self.add_row(graph, source, position, rules)?;
        Ok(())
    }
}

// The name of the vertex at a position, where edges go out of it.
fn source_at(graph: &Graph, position: usize) -> Option<Name>
    ensures { IsSourceAt graph.now position result }
{
    if graph.row_len(position) > 0 {
        graph.name_at(position)
    } else {
        None
    }
}

// How many vertices have edges out of them.
fn source_count(graph: &Graph) -> usize
    ensures { result ≤ length (keys_of graph.now) }
{
    let mut count = 0;
    for position in 0..graph.len() {
        if source_at(graph, position).is_some() {
            count += 1;
        }
    }
    count
}

// The names of the vertices that edges go out of, in their order.
fn sources_in_order(alloc: Global, graph: &Graph) -> Result<Vec<Name>, AllocError>
    ensures { IfOk result (λ names. AreSources graph.now names.items) }
{
    let mut names = Vec::with_capacity(alloc, source_count(graph))?;
    for position in 0..graph.len() {
        if let Some(name) = source_at(graph, position) {
            names.push(name)?;
        }
    }
    names.sort_unstable();
    Ok(names)
}

impl<'a> Freed<'a> {
    /// A rule for each edge that loses something, in the order of source, then target.
    ///
    /// The one error is want of memory.
    pub(crate) fn rules(&self, alloc: Global, graph: &Graph) -> Result<Vec<Rule>, AllocError>
        ensures { IfOk result (λ rules. AreLosses (graph_of graph.now) self.now.right self.now.y
            (free_of graph.now self.now.beyond.now) rules.items) }
    {
        let _ = graph.len();
        let names = sources_in_order(alloc, graph)?;
        let mut rules = Vec::new(alloc);
        for source in &names {
            self.add_source(graph, *source, &mut rules)?;
        }
        Ok(rules)
    }
}
