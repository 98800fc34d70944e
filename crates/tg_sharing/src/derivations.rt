//! Derivations: lists of rules that give rights.
ghost use Rattle.std.specs.Prelude.{◌≡◌, ◌≤◌, ◌^◌, IsTrue, IfOk, IfErr, OnOk, MatchOption, None, length};
ghost use Rattle.tg_graph.specs.Graphs.{has_vertex, WellFormed};
ghost use Rattle.tg_graph.specs.GraphOf.{graph_of};
ghost use Rattle.tg_graph.specs.Limits.{most_vertices};
ghost use Rattle.tg_graph.specs.RuleLists.{CanShare, CanShareAll};
ghost use Rattle.tg_islands.specs.Sharing.{IsChain};
ghost use Rattle.tg_sharing.specs.Derivations.{end_of, IsSoFar, IsCarried, IsDerivation};
ghost use Rattle.tg_sharing.specs.SetDerivations.{AddsPart, IsDerivationOfAll};
ghost use Rattle.tg_sharing.specs.Searches.{IsSearching, SearchesOn};
ghost use Rattle.tg_islands.specs.Questions.{derivation_fault, IsDueFault};

use crate::chains::Search;
use crate::holders::lacks_holder;
use crate::moves::add_move;
use std::alloc::{AllocError, Global};
use tg_graph::{Graph, MOST_VERTICES, Name, Right, Rights, Rule};
use tg_islands::AskFault;

// Adds the rules by which the right over `y` goes from a holder along a chain of links.
//
// The numbers of the helpers so far are below `next`; the result takes its place.
fn carry(
    graph: &Graph,
    rules: &mut Vec<Rule>,
    next: u32,
    right: Right,
    y: Name,
    holder: Name,
    links: &[Name],
) -> Result<u32, AllocError>
    requires well_formed { WellFormed (graph_of graph.now) }
    requires small { length graph.now ≤ most_vertices }
    requires short { length links.now ≤ most_vertices }
    requires known { IsTrue (has_vertex (graph_of graph.now) y) }
    requires so_far { IsSoFar (graph_of graph.now) rules.old.items next }
    requires low { next ≤ 2 ^ 30 }
    requires held { IsTrue ((graph_of graph.now).holds holder right y) }
    requires joined { IsChain (graph_of graph.now) holder links.now (end_of holder links.now) }
    ensures { IfOk result (λ last.
        IsCarried (graph_of graph.now) right y holder links.now
        rules.old.items rules.new.items next last) }
{
    let mut number = next;
    let mut q = holder;
    for p in links {
        number = add_move(graph, rules, number, right, y, *p, q)?;
        q = *p;
    }
    Ok(number)
}

// Adds the rules by which the start of the search gets the right over `y`; none where no list of
// rules gives it.
//
// The numbers of the helpers so far are below `next`; the result takes its place.
fn add_part(
    alloc: Global,
    graph: &Graph,
    search: &mut Search,
    rules: &mut Vec<Rule>,
    next: u32,
    right: Right,
    y: Name,
) -> Result<Option<u32>, AllocError>
    requires well_formed { WellFormed (graph_of graph.now) }
    requires small { length graph.now ≤ most_vertices }
    requires known { IsTrue (has_vertex (graph_of graph.now) y) }
    requires searching { IsSearching (graph_of graph.now) search.old }
    requires so_far { IsSoFar (graph_of graph.now) rules.old.items next }
    requires low { next ≤ 2 ^ 30 }
    ensures on { OnOk result (SearchesOn (graph_of graph.now) search.old search.new) }
    ensures part { IfOk result (λ last. MatchOption last
        (CanShare (graph_of graph.now) right search.old.start y → ⊥)
        (λ last. AddsPart (graph_of graph.now) right search.old.start y
        rules.old.items rules.new.items next last)) }
{
    match search.chain_to(alloc, graph, right, y)? {
        None => Ok(None),
        Some(chain) => {
            let last = carry(
                graph,
                rules,
                next,
                right,
                y,
                chain.holder,
                chain.links.as_slice(),
            )?;
            Ok(Some(last))
        }
    }
}

// A list of rules that gives `x` each right of the set over `y`, if there is one.
fn derive(
    alloc: Global,
    graph: &Graph,
    rights: Rights,
    x: Name,
    y: Name,
) -> Result<Option<Vec<Rule>>, AllocError>
    requires well_formed { WellFormed (graph_of graph.now) }
    requires small { length graph.now ≤ most_vertices }
    requires known { IsTrue (has_vertex (graph_of graph.now) x) }
    requires known_too { IsTrue (has_vertex (graph_of graph.now) y) }
    ensures { IfOk result (λ answer. MatchOption answer
        (CanShareAll (graph_of graph.now) rights x y → ⊥)
        (λ rules. IsDerivationOfAll (graph_of graph.now) rights x y rules.items)) }
{
    let mut search = Search::from(alloc, graph, x)?;
    // a look at a short row takes no longer than to list a link
    if lacks_holder(graph, rights, y, search.link_count()) {
        return Ok(None);
    }
    let mut rules = Vec::new(alloc);
    let mut next = 0;
    for right in &Right::ALL {
        if rights.has(*right) {
            match add_part(alloc, graph, &mut search, &mut rules, next, *right, y)? {
                Some(last) => next = last,
                None => return Ok(None),
            }
        }
    }
    Ok(Some(rules))
}

/// One list of rules that gives `x` each right of the set over `y`, accepted one after another;
/// none where no list does.
///
/// The rights come in the order of their letters, each along some shortest chain of links of this
/// graph from a vertex that holds it here, by the cases that hold in this graph. That it is the chain
/// of `derivation` is not said. A right that `x` has in this graph costs no rule. A helper is the
/// vertex `_k` with the least number k that is not in use after the rules before. For the empty set
/// the list is empty.
///
/// # Errors
/// - `Unknown`: the first of `x` and `y` that is no vertex.
/// - `TooLarge`: the graph has more than `MOST_VERTICES` vertices.
/// - `Memory`: there was no memory.
pub fn derivation_all(
    alloc: Global,
    graph: &Graph,
    rights: Rights,
    x: Name,
    y: Name,
) -> Result<Option<Vec<Rule>>, AskFault>
    ensures due { OnOk result (derivation_fault (graph_of graph.now) x y ≡ None) }
    ensures fault { IfErr result (IsDueFault (derivation_fault (graph_of graph.now) x y)) }
    ensures answer { IfOk result (λ answer. MatchOption answer
        (CanShareAll (graph_of graph.now) rights x y → ⊥)
        (λ rules. IsDerivationOfAll (graph_of graph.now) rights x y rules.items)) }
{
    if !graph.knows(x) {
        return Err(AskFault::Unknown(x));
    }
    if !graph.knows(y) {
        return Err(AskFault::Unknown(y));
    }
    if graph.len() > MOST_VERTICES {
        return Err(AskFault::TooLarge);
    }
    let answer = derive(alloc, graph, rights, x, y)?;
    Ok(answer)
}

/// A list of rules that gives `x` the right over `y`, accepted one after another; none where no
/// list does.
///
/// The right goes along a shortest chain of links from a vertex that holds it, the one that is
/// found breadth first from `x` with neighbours in name order. Each link costs one rule or four,
/// those of the first case that holds; a helper is the vertex `_k` with the least number k that is
/// not in use. A right already held costs no rule.
///
/// # Errors
/// - `Unknown`: the first of `x` and `y` that is no vertex.
/// - `TooLarge`: the graph has more than `MOST_VERTICES` vertices.
/// - `Memory`: there was no memory.
pub fn derivation(
    alloc: Global,
    graph: &Graph,
    right: Right,
    x: Name,
    y: Name,
) -> Result<Option<Vec<Rule>>, AskFault>
    ensures due { OnOk result (derivation_fault (graph_of graph.now) x y ≡ None) }
    ensures fault { IfErr result (IsDueFault (derivation_fault (graph_of graph.now) x y)) }
    ensures answer { IfOk result (λ answer. MatchOption answer
        (CanShare (graph_of graph.now) right x y → ⊥)
        (λ rules. IsDerivation (graph_of graph.now) right x y rules.items)) }
{
    derivation_all(alloc, graph, Rights::of(right), x, y)
}
