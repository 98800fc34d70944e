use std::alloc::{AllocError, Global};
use std::process::Abort;
use std::test::Fail;
use tg_graph::{Graph, Name, Right, Rights};
use tg_islands::{Links, islands, linked_end};

/// The position becomes a neighbour of another, which is there.
pub(crate) fn adds(
    rt: &impl Abort,
    links: &mut Links,
    position: usize,
    neighbour: usize,
) -> Result<(), AllocError> {
    assert!(rt; position < links.len());
    links.add(position, neighbour)?;
    Ok(())
}

// A link goes one way, and neighbours stand in the order in which they came, each as often as it came.
#[test]
fn links_one_by_one(rt: HostRuntime) -> Result<(), Fail> {
    let mut links = Links::none(rt.alloc(), 3)?;
    adds(&rt, &mut links, 0, 2)?;
    adds(&rt, &mut links, 0, 1)?;
    adds(&rt, &mut links, 2, 0)?;
    adds(&rt, &mut links, 0, 2)?;
    assert!(rt; links.at(0) == [2, 1, 2].as_slice());
    assert!(rt; links.at(1).is_empty());
    assert!(rt; links.at(2) == [0].as_slice());
    assert!(rt; links.at(3).is_empty() && links.len() == 3);
    Ok(())
}

// _0 has g over _1 and r over _2, and _1 has t over _0.
fn three(alloc: Global) -> Result<Graph, Fail> {
    let mut graph = Graph::new(alloc);
    let (x, y, z) = (Name::helper(0), Name::helper(1), Name::helper(2));
    graph.add_vertex(x)?;
    graph.add_vertex(y)?;
    graph.add_vertex(z)?;
    graph.add_edge(x, y, Rights::of(Right::G))?;
    graph.add_edge(x, z, Rights::of(Right::R))?;
    graph.add_edge(y, x, Rights::of(Right::T))?;
    Ok(graph)
}

// The end of an edge at a place of a row, whether the row is laid open or not.
fn assert_end(rt: &impl Abort, graph: &Graph, position: usize, place: usize, end: Option<usize>) {
    assert!(rt; linked_end(graph, &None, position, place) == end);
    let opened = graph.open_row(position);
    assert!(rt; linked_end(graph, &opened, position, place) == end);
}

#[test]
fn ends_of_take_and_grant(rt: HostRuntime) -> Result<(), Fail> {
    let graph = three(rt.alloc())?;
    assert_end(&rt, &graph, 0, 0, Some(1));
    assert_end(&rt, &graph, 0, 1, None);
    assert_end(&rt, &graph, 1, 0, Some(0));
    Ok(())
}

#[test]
fn no_ends_where_there_is_no_edge(rt: HostRuntime) -> Result<(), Fail> {
    let graph = three(rt.alloc())?;
    assert_end(&rt, &graph, 0, 2, None);
    assert_end(&rt, &graph, 2, 0, None);
    assert_end(&rt, &graph, 3, 0, None);
    Ok(())
}

#[test]
fn islands_of_three_vertices(rt: HostRuntime) -> Result<(), Fail> {
    let graph = three(rt.alloc())?;
    let found = islands(rt.alloc(), &graph)?;
    assert!(rt; found.len() == 3 && found.count() == 2);
    Ok(())
}
