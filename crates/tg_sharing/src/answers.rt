//! Whether rights can be shared.
ghost use Rattle.std.specs.Prelude.{◌≡◌, ◌↔◌, false, None, IsTrue, IfOk, IfErr, OnOk};
ghost use Rattle.tg_graph.specs.GraphOf.{graph_of};
ghost use Rattle.tg_graph.specs.RuleLists.{CanShare, CanShareAll};
ghost use Rattle.tg_islands.specs.Questions.{question_fault, IsDueFault};

use crate::holders::named;
use crate::spreading::{Asked, island_holds};
use std::alloc::Global;
use tg_graph::{Graph, Name, Right, Rights};
use tg_islands::AskFault;

/// Whether some one list of rules, each accepted in its turn, gives x every right of the set over
/// y. With the empty set it is always so.
///
/// The errors are `Unknown` with the first of x and y that is no vertex, and want of memory. It is
/// never `TooLarge`. A bit of the set that stands for no right counts for nothing.
pub fn can_share_all(
    alloc: Global,
    graph: &Graph,
    rights: Rights,
    x: Name,
    y: Name,
) -> Result<bool, AskFault>
    ensures known { OnOk result (question_fault (graph_of graph.now) x y ≡ None) }
    ensures exact { IfOk result
        (λ answer. IsTrue answer ↔ CanShareAll (graph_of graph.now) rights x y) }
    ensures no { IfOk result
        (λ answer. answer ≡ false → CanShareAll (graph_of graph.now) rights x y → ⊥) }
    ensures fault { IfErr result (IsDueFault (question_fault (graph_of graph.now) x y)) }
{
    if !graph.knows(x) {
        return Err(AskFault::Unknown(x));
    }
    if !graph.knows(y) {
        return Err(AskFault::Unknown(y));
    }
    let rights = named(rights);
    let answer = island_holds(alloc, graph, &Asked { rights, x, y })?;
    Ok(answer)
}

/// Whether some list of rules, each accepted in its turn, gives x the right over y.
///
/// The errors are `Unknown` with the first of x and y that is no vertex, and want of memory. It is
/// never `TooLarge`.
pub fn can_share(
    alloc: Global,
    graph: &Graph,
    right: Right,
    x: Name,
    y: Name,
) -> Result<bool, AskFault>
    ensures known { OnOk result (question_fault (graph_of graph.now) x y ≡ None) }
    ensures exact { IfOk result
        (λ answer. IsTrue answer ↔ CanShare (graph_of graph.now) right x y) }
    ensures no { IfOk result
        (λ answer. answer ≡ false → CanShare (graph_of graph.now) right x y → ⊥) }
    ensures fault { IfErr result (IsDueFault (question_fault (graph_of graph.now) x y)) }
{
    let answer = can_share_all(alloc, graph, Rights::of(right), x, y)?;
    Ok(answer)
}
