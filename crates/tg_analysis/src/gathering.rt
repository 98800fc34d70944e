//! Gathering what islands hold, from the edges.
ghost use Rattle.std.specs.Prelude.{◌≡◌, ◌≤◌, IfOk, IfSome, OnOk, length};
ghost use Rattle.tg_graph.specs.Limits.{most_vertices};
ghost use Rattle.tg_rows.specs.Rows.{row_number};
ghost use Rattle.tg_islands.specs.Numbering.{AreCounted};
ghost use Rattle.tg_index.specs.IslandEdges.{target_of};
ghost use Rattle.tg_analysis.specs.Gathered.{TakesEdge, TakesEdges, Gathers};

use crate::holdings::Holdings;
use std::alloc::{AllocError, Global};
use tg_graph::{Graph, OpenRow, Right, Wanted};
use tg_islands::Islands;

// The position of the target of an edge, if its label has the right.
fn target_of(
    graph: &Graph,
    opened: &Option<OpenRow<'_>>,
    right: Right,
    position: usize,
    place: usize,
) -> Option<usize>
    requires { IfSome opened.now (λ row. row ≡ row_number graph.now position) }
    ensures { result ≡ target_of graph.now right position place }
{
    let (target, _) = graph.end_in(opened, position, place, Wanted::With(right))?;
    Some(target)
}

// The island of a vertex holds what one of its edges says.
fn add_edge(
    held: &mut Holdings,
    graph: &Graph,
    opened: &Option<OpenRow<'_>>,
    islands: &Islands,
    right: Right,
    position: usize,
    place: usize,
) -> Result<(), AllocError>
    requires opened { IfSome opened.now (λ row. row ≡ row_number graph.now position) }
    requires small { length graph.now ≤ most_vertices }
    requires counted { AreCounted islands.now (length held.old) }
    ensures { OnOk result (TakesEdge graph.now islands.now right position place held.old held.new) }
{
    let Some(target) = target_of(graph, opened, right, position, place) else {
        return Ok(());
    };
    let Some(number) = islands.of(position) else {
        return Ok(());
    };
    held.add(number, target)?;
    Ok(())
}

// The island of a vertex holds what its edges say.
fn add_row(
    held: &mut Holdings,
    graph: &Graph,
    islands: &Islands,
    right: Right,
    position: usize,
) -> Result<(), AllocError>
    requires small { length graph.now ≤ most_vertices }
    requires counted { AreCounted islands.now (length held.old) }
    ensures { OnOk result
        (TakesEdges graph.now islands.now right position
        (length (row_number graph.now position)) held.old held.new) }
{
    let opened = graph.open_row(position);
    for place in 0..graph.row_len(position) {
        add_edge(held, graph, &opened, islands, right, position, place)?;
    }
    Ok(())
}

/// What islands hold by the edges out of the vertices from the first up to the last, that one
/// excluded.
pub(crate) fn gather(
    alloc: Global,
    graph: &Graph,
    islands: &Islands,
    right: Right,
    first: usize,
    last: usize,
) -> Result<Holdings, AllocError>
    requires small { length graph.now ≤ most_vertices }
    requires ordered { first ≤ last }
    ensures { IfOk result (λ held. Gathers graph.now islands.now right first last held) }
{
    let mut held = Holdings::none(alloc, islands.count())?;
    for position in first..last {
        add_row(&mut held, graph, islands, right, position)?;
    }
    Ok(held)
}
