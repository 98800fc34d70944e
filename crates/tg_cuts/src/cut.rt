//! The least cut: which rights have to go so that x can't come to have a right over y.
ghost use Rattle.std.specs.Prelude.{◌≡◌, ◌&&◌, not, Some, None, IfOk, IfErr, MatchOption, OnOk, slice_get};
ghost use Rattle.std.specs.Map.{keys_of};
ghost use Rattle.tg_flow.specs.Courses.{is_in};
ghost use Rattle.tg_names.specs.Sets.{member};
ghost use Rattle.tg_graph.specs.GraphOf.{graph_of};
ghost use Rattle.tg_islands.specs.Moves.{take_and_grant};
ghost use Rattle.tg_islands.specs.Questions.{IsDueFault};
ghost use Rattle.tg_cuts.specs.Cuts.{IsTheCut, HasNoCut, cut_fault};
ghost use Rattle.tg_cuts.specs.CutParts.{AreEndless, AreSides};

use crate::kept::{Ends, check_edges, position_of};
use crate::losses::{Freed, is_in};
use crate::network::{Sought, network_of};
use std::alloc::{AllocError, Global};
use tg_graph::{Graph, MOST_VERTICES, Name, Right, Rule};
use tg_islands::AskFault;

// A right over y, with the positions of x and y, and the edges that are kept.
#[derive(Clone, Copy)]
struct Asked<'a> {
    right: Right,
    y: Name,
    x_position: usize,
    y_position: usize,
    kept: &'a [Ends],
}

// Whether an edge with the right links its ends.
fn is_link(right: Right) -> bool
    ensures { result ≡ member take_and_grant right }
{
    match right {
        Right::T | Right::G => true,
        Right::R | Right::W | Right::E | Right::A | Right::D => false,
    }
}

// Whether the sources of edges to the end count among those beyond the ones near x: not where the right is itself a
// link and y is near, since then each of them goes.
fn has_holders(right: Right, near: &[bool], y_position: usize) -> bool
    ensures { result ≡ not (member take_and_grant right && is_in near.now y_position) }
{
    if is_link(right) {
        !is_in(near, y_position)
    } else {
        true
    }
}

// For each position, once no more units can go from x, whether the vertex there comes to the right without those
// that are near x; none where any number of units can go.
fn beyond(alloc: Global, graph: &Graph, asked: &Asked<'_>) -> Result<Option<Vec<bool>>, AllocError>
    ensures { IfOk result (λ marks. MatchOption marks
        (AreEndless graph.now asked.now.right asked.now.y asked.now.kept.now asked.now.x_position)
        (λ marks. AreSides graph.now asked.now.right asked.now.y asked.now.kept.now
        asked.now.x_position asked.now.y_position (is_in marks.items))) }
{
    let sought = Sought {
        right: asked.right,
        y: asked.y,
        kept: asked.kept,
    };
    let mut network = network_of(alloc, graph, &sought)?;
    let filled = network.fill(asked.x_position, asked.y_position)?;
    let Some(_units) = filled else {
        return Ok(None);
    };
    let near = network.find_near(asked.x_position)?;
    let marks = near.as_slice();
    let counts = has_holders(asked.right, marks, asked.y_position);
    let others = network.find_beyond(marks, counts, asked.y_position)?;
    Ok(Some(others))
}

// The cut; none where the kept edges leave none.
fn cut_of(
    alloc: Global,
    graph: &Graph,
    x: Name,
    asked: &Asked<'_>,
) -> Result<Option<Vec<Rule>>, AllocError>
    requires x { slice_get (keys_of graph.now) asked.now.x_position ≡ Some x }
    requires y { slice_get (keys_of graph.now) asked.now.y_position ≡ Some asked.now.y }
    ensures { IfOk result (λ cut. MatchOption cut
        (HasNoCut (graph_of graph.now) asked.now.right x asked.now.y asked.now.kept.now)
        (λ rules. IsTheCut (graph_of graph.now) asked.now.right x asked.now.y asked.now.kept.now
        rules.items)) }
{
    tg_islands::laws::shared_exactly();
    tg_flow::laws::units_cross();
    tg_flow::laws::sides_part();
    let _ = graph.len();
    let marks = beyond(alloc, graph, asked)?;
    let Some(others) = marks else {
        return Ok(None);
    };
    let freed = Freed {
        right: asked.right,
        y: asked.y,
        beyond: others.as_slice(),
    };
    let rules = freed.rules(alloc, graph)?;
    Ok(Some(rules))
}

/// The least cut: rules, in the order of source, then target, that take rights from as few edges as can be, after
/// which x can't come to have the right over y. Of all such cuts it is the one nearest to x: whoever can come to
/// have the right after another one can do so after this. No right is taken that need not go; so there is one
/// cut. Where x can't come to have the right anyway it has no rules.
///
/// Kept edges stay as they are. Where x can come to have the right by them alone there is no cut: `None`. One
/// that is no edge of the graph changes nothing.
///
/// It sends units from x to those that hold the right over y, each edge carrying one at most, until no more can
/// go. Its work is at most a pass over the edges for each such unit, and a few more. It takes at most 8 bytes an
/// edge and 16 a vertex, beside the rules.
///
/// # Errors
/// - `Unknown`: the name is no vertex, the first of x, y, and the ends of the kept edges in turn.
/// - `TooLarge`: the graph has more than `MOST_VERTICES` vertices.
/// - `Memory`: there was no memory.
pub fn least_cut(
    alloc: Global,
    graph: &Graph,
    right: Right,
    x: Name,
    y: Name,
    kept: &[Ends],
) -> Result<Option<Vec<Rule>>, AskFault>
    ensures due { OnOk result (cut_fault (graph_of graph.now) x y kept.now ≡ None) }
    ensures cut { IfOk result (λ cut. MatchOption cut
        (HasNoCut (graph_of graph.now) right x y kept.now)
        (λ rules. IsTheCut (graph_of graph.now) right x y kept.now rules.items)) }
    ensures fault { IfErr result (IsDueFault (cut_fault (graph_of graph.now) x y kept.now)) }
{
    let x_position = position_of(graph, x)?;
    let y_position = position_of(graph, y)?;
    check_edges(graph, kept)?;
    if graph.len() > MOST_VERTICES {
        return Err(AskFault::TooLarge);
    }
    let asked = Asked {
        right,
        y,
        x_position,
        y_position,
        kept,
    };
    let cut = cut_of(alloc, graph, x, &asked)?;
    Ok(cut)
}
