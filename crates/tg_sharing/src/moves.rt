//! The rules that carry a right over one link.
ghost use Rattle.std.specs.Prelude.{◌≡◌, ℕ, ◌+◌, ◌^◌, ◌<◌, ◌≤◌, true, false, IsTrue, IfOk, length};
ghost use Rattle.tg_names.specs.Names.{helper_name};
ghost use Rattle.tg_graph.specs.Limits.{most_vertices};
ghost use Rattle.tg_graph.specs.Graphs.{has_vertex, WellFormed};
ghost use Rattle.tg_graph.specs.GraphOf.{graph_of};
ghost use Rattle.tg_islands.specs.Sharing.{linked};
ghost use Rattle.tg_islands.specs.Moves.{only, take_and_grant};
ghost use Rattle.tg_sharing.specs.Derivations.{direct_rule, rule_for_helper, helper_rules, IsUnderway, GoesOn};

use std::alloc::AllocError;
use tg_graph::{Graph, Name, Right, Rights, Rule};

// The set of one right.
fn only(right: Right) -> Rights
    ensures { result ≡ only right }
{
    Rights::of(right)
}

// The rights of a creator over a helper.
fn take_and_grant() -> Rights
    ensures { result ≡ take_and_grant }
{
    Rights::of(Right::T).union(Rights::of(Right::G))
}

// The one rule by which `p` gets `q`'s right over `y`, if there is one.
fn direct_rule(graph: &Graph, right: Right, y: Name, p: Name, q: Name) -> Option<Rule>
    ensures { result ≡ direct_rule (graph_of graph.now) right y p q }
{
    let rights = only(right);
    if graph.holds(p, Right::T, q) {
        return Some(Rule::Take {
            x: p,
            y: q,
            z: y,
            rights,
        });
    }
    if graph.holds(q, Right::G, p) {
        return Some(Rule::Grant {
            x: q,
            y: p,
            z: y,
            rights,
        });
    }
    None
}

// The rule by which `q` gets grant over a helper that `p` has made.
fn rule_for_helper(graph: &Graph, p: Name, q: Name, helper: Name) -> Rule
    ensures { result ≡ rule_for_helper (graph_of graph.now) p q helper }
{
    let rights = only(Right::G);
    if graph.holds(p, Right::G, q) {
        Rule::Grant {
            x: p,
            y: q,
            z: helper,
            rights,
        }
    } else {
        Rule::Take {
            x: q,
            y: p,
            z: helper,
            rights,
        }
    }
}

// The rules by which `p` gets `q`'s right over `y` through a helper.
fn helper_rules(graph: &Graph, right: Right, y: Name, p: Name, q: Name, helper: Name) -> [Rule; 4]
    ensures { result ≡ helper_rules (graph_of graph.now) right y p q helper }
{
    let rights = only(right);
    [
        Rule::Create {
            x: p,
            n: helper,
            rights: take_and_grant(),
        },
        rule_for_helper(graph, p, q, helper),
        Rule::Grant {
            x: q,
            y: helper,
            z: y,
            rights,
        },
        Rule::Take {
            x: p,
            y: helper,
            z: y,
            rights,
        },
    ]
}

// The least number from `next` on whose helper is no vertex.
fn free_helper(graph: &Graph, next: u32) -> u32
    requires { next + length graph.now < 2 ^ 32 }
    ensures from { next ≤ result }
    ensures within { result ≤ next + length graph.now }
    ensures free { has_vertex (graph_of graph.now) (helper_name result) ≡ false }
    ensures least { (k : ℕ) → next ≤ k → k < result
        → has_vertex (graph_of graph.now) (helper_name k) ≡ true }
{
    let mut number = next;
    while graph.knows(Name::helper(number)) {
        number += 1;
    }
    number
}

/// Adds the rules by which `p` gets the right over `y` from `q`, which has it after the rules so
/// far.
///
/// The numbers of the helpers so far are below `next`; the result takes its place.
/// The one error is want of memory.
pub fn add_move(
    graph: &Graph,
    rules: &mut Vec<Rule>,
    next: u32,
    right: Right,
    y: Name,
    p: Name,
    q: Name,
) -> Result<u32, AllocError>
    requires well_formed { WellFormed (graph_of graph.now) }
    requires underway { IsUnderway (graph_of graph.now) right y q rules.old.items next }
    requires linked { IsTrue (linked (graph_of graph.now) p q) }
    requires known { IsTrue (has_vertex (graph_of graph.now) y) }
    requires small { length graph.now ≤ most_vertices }
    requires low { next ≤ 2 ^ 31 }
    ensures { IfOk result (λ last.
        GoesOn (graph_of graph.now) right y p q rules.old.items rules.new.items next last) }
{
    match direct_rule(graph, right, y, p, q) {
        Some(rule) => {
            rules.push(rule)?;
            Ok(next)
        }
        None => {
            let number = free_helper(graph, next);
            let helper = Name::helper(number);
            rules.extend_from_slice(&helper_rules(graph, right, y, p, q, helper))?;
            Ok(number + 1)
        }
    }
}
