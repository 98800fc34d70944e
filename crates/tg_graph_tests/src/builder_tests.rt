// Graphs that are built edge by edge, in orders in which edges wait for their rows and in others.
use crate::test_values::{name, remove, same, set, with_edge};
use std::alloc::Global;
use std::process::Abort;
use std::test::Fail;
use tg_graph::{EdgeFault, Graph, GraphBuilder, Name, VertexFault};

// As many vertices as let edges wait, with edges between each two of them.
pub const COUNT: u32 = 24;

// COUNT vertices without edges. Where memory is refused, they are made once more.
fn vertices(alloc: Global) -> Result<Graph, VertexFault> {
    let mut g = Graph::new(alloc);
    for n in 0..COUNT {
        if g.add_vertex(Name::helper(n)).is_err() {
            g.add_vertex(Name::helper(n))?;
        }
    }
    Ok(g)
}

// The letters of the edge that has this number.
fn letters(number: u32) -> &'static [u8] {
    match number % 3 {
        0 => b"t",
        1 => b"rw",
        _ => b"gead",
    }
}

// Adds the edge that has this number: they are counted by their sources first. Where memory is
// refused, it is added with the second try.
fn add_to_builder(rt: &impl Abort, builder: &mut GraphBuilder, number: u32) {
    let (x, y) = (Name::helper(number / COUNT), Name::helper(number % COUNT));
    let label = set(rt, letters(number));
    if let Err(fault) = builder.add_edge(x, y, label) {
        assert!(rt; fault == EdgeFault::Memory && builder.add_edge(x, y, label) == Ok(()));
    }
}

fn add_to_graph(rt: &impl Abort, g: &mut Graph, number: u32) {
    let (x, y) = (Name::helper(number / COUNT), Name::helper(number % COUNT));
    let label = set(rt, letters(number));
    if let Err(fault) = g.add_edge(x, y, label) {
        assert!(rt; fault == EdgeFault::Memory && g.add_edge(x, y, label) == Ok(()));
    }
}

// A builder to which all edges were added, each this step behind the one before it.
fn built(rt: &impl Abort, alloc: Global, step: u32) -> Result<GraphBuilder, VertexFault> {
    let mut builder = GraphBuilder::over(alloc, vertices(alloc)?);
    for turn in 0..COUNT * COUNT {
        add_to_builder(rt, &mut builder, turn.wrapping_mul(step) % (COUNT * COUNT));
    }
    Ok(builder)
}

// The graph with the edges that have numbers below count, added to their rows one by one.
pub fn first_edges(rt: &impl Abort, alloc: Global, count: u32) -> Result<Graph, VertexFault> {
    let mut g = vertices(alloc)?;
    for number in 0..count {
        add_to_graph(rt, &mut g, number);
    }
    Ok(g)
}

fn builds(rt: &impl Abort, alloc: Global, step: u32, wanted: &Graph) -> Result<(), Fail> {
    let g = built(rt, alloc, step)?.finish()?;
    assert!(rt; same(&g, wanted));
    Ok(())
}

// By source and target, from last to first, by target first, and in leaps.
#[test]
fn edges_in_any_order_build_one_graph(rt: HostRuntime) -> Result<(), Fail> {
    let wanted = first_edges(&rt, rt.alloc(), COUNT * COUNT)?;
    for step in [1, COUNT * COUNT - 1, COUNT + 1, 113] {
        builds(&rt, rt.alloc(), step, &wanted)?;
    }
    Ok(())
}

// A builder for _0 of which the edges to all but the last vertex were added, so that some wait.
pub fn one_row(rt: &impl Abort, alloc: Global) -> Result<GraphBuilder, VertexFault> {
    let mut builder = GraphBuilder::over(alloc, vertices(alloc)?);
    for number in 0..COUNT - 1 {
        add_to_builder(rt, &mut builder, number);
    }
    Ok(builder)
}

fn refuses_edge(
    rt: &impl Abort,
    builder: &mut GraphBuilder,
    ends: (Name, Name),
    letters: &[u8],
    fault: EdgeFault,
) {
    assert!(rt; builder.add_edge(ends.0, ends.1, set(rt, letters)) == Err(fault));
}

// An edge to a vertex whose edge waits, to that whose row it is, and one without rights.
fn refuses_edges_there(rt: &impl Abort, builder: &mut GraphBuilder, x: Name, y: Name) {
    refuses_edge(rt, builder, (x, y), b"r", EdgeFault::EdgeThere);
    refuses_edge(rt, builder, (x, y), b"-", EdgeFault::EdgeThere);
    refuses_edge(rt, builder, (x, x), b"r", EdgeFault::EdgeThere);
}

fn refuses_unknown(rt: &impl Abort, builder: &mut GraphBuilder, x: Name, z: Name) {
    refuses_edge(rt, builder, (x, z), b"-", EdgeFault::Unknown(z));
    refuses_edge(rt, builder, (z, x), b"r", EdgeFault::Unknown(z));
}

// y is a vertex, z is none, and there are COUNT vertices.
fn knows_alone(rt: &impl Abort, builder: &mut GraphBuilder, y: Name, z: Name) {
    assert!(rt; builder.add_vertex(y) == Err(VertexFault::Taken));
    assert!(rt; builder.knows(y) && !builder.knows(z) && builder.len() == COUNT as usize);
}

fn refuses_what_is_there(rt: &impl Abort, builder: &mut GraphBuilder) {
    let (x, y, z) = (
        Name::helper(0),
        Name::helper(COUNT - 2),
        Name::helper(COUNT),
    );
    let last = Name::helper(COUNT - 1);
    refuses_edges_there(rt, builder, x, y);
    refuses_edge(rt, builder, (x, last), b"-", EdgeFault::Empty);
    refuses_unknown(rt, builder, x, z);
    knows_alone(rt, builder, y, z);
}

#[test]
fn faults_while_edges_wait(rt: HostRuntime) -> Result<(), Fail> {
    let mut builder = one_row(&rt, rt.alloc())?;
    refuses_what_is_there(&rt, &mut builder);
    let g = builder.finish()?;
    assert!(rt; g.row_len(0) == COUNT as usize - 1 && g.row_len(1) == 0);
    Ok(())
}

// Adds n, and edges from x to it and back.
fn add_pair_to_builder(rt: &impl Abort, builder: &mut GraphBuilder, x: Name, n: Name) {
    assert!(rt; builder.add_vertex(n) == Ok(()) && builder.len() == COUNT as usize + 1);
    assert!(rt; builder.add_edge(x, n, set(rt, b"r")) == Ok(()));
    assert!(rt; builder.add_edge(n, x, set(rt, b"w")) == Ok(()));
}

// The same.
fn add_pair_to_graph(rt: &impl Abort, g: &mut Graph, x: Name, n: Name) -> Result<(), Fail> {
    g.add_vertex(n)?;
    g.add_edge(x, n, set(rt, b"r"))?;
    g.add_edge(n, x, set(rt, b"w"))?;
    Ok(())
}

// The edges from _0 to all, and then a vertex and the edges between _0 and it.
fn row_and_pair(rt: &impl Abort, alloc: Global) -> Result<Graph, Fail> {
    let mut g = first_edges(rt, alloc, COUNT)?;
    add_pair_to_graph(rt, &mut g, Name::helper(0), Name::helper(COUNT))?;
    Ok(g)
}

fn is_row_and_pair(rt: &impl Abort, alloc: Global, g: &Graph) -> Result<(), Fail> {
    let wanted = row_and_pair(rt, alloc)?;
    assert!(rt; same(g, &wanted));
    Ok(())
}

#[test]
fn a_vertex_while_edges_wait(rt: HostRuntime) -> Result<(), Fail> {
    let mut builder = one_row(&rt, rt.alloc())?;
    add_pair_to_builder(&rt, &mut builder, Name::helper(0), Name::helper(COUNT));
    add_to_builder(&rt, &mut builder, COUNT - 1);
    is_row_and_pair(&rt, rt.alloc(), &builder.finish()?)
}

// The edge at a place of the row of the vertex at a position.
fn leads(rt: &impl Abort, g: &Graph, position: usize, place: usize, target: &[u8], letters: &[u8]) {
    let edge = (name(rt, target), set(rt, letters));
    assert!(rt; g.row_at(position, place) == Some(edge));
}

// A row to all vertices loses an edge and gets it back. In name order _1 stands before _10 to _19,
// and _2 behind them.
#[test]
fn edges_of_rows_to_all_come_and_go(rt: HostRuntime) -> Result<(), Fail> {
    for step in [1, COUNT * COUNT - 1, 113] {
        let mut g = built(&rt, rt.alloc(), step)?.finish()?;
        leads(&rt, &g, 5, 2, b"_10", b"rw");
        assert!(rt; g.apply(&remove(&rt, b"_5", b"_10", b"rw")) == Ok(()));
        leads(&rt, &g, 5, 2, b"_11", b"gead");
        leads(&rt, &g, 5, 22, b"_9", b"t");
        with_edge(&rt, &mut g, b"_5", b"_10", b"g");
        leads(&rt, &g, 5, 2, b"_10", b"g");
        leads(&rt, &g, 5, 23, b"_9", b"t");
    }
    Ok(())
}

#[test]
fn labels_of_rows_to_all_change(rt: HostRuntime) -> Result<(), Fail> {
    let mut g = built(&rt, rt.alloc(), 113)?.finish()?;
    let copy = g.copy()?;
    assert!(rt; g.apply(&remove(&rt, b"_6", b"_2", b"e")) == Ok(()));
    leads(&rt, &g, 6, 11, b"_19", b"rw");
    leads(&rt, &g, 6, 12, b"_2", b"gad");
    leads(&rt, &g, 6, 13, b"_20", b"gead");
    leads(&rt, &copy, 6, 12, b"_2", b"gead");
    assert!(rt; same(&g, &g.copy_unshared()?));
    Ok(())
}
