// Each test passes whichever one request for memory is refused, which `make refusals` tries. Where a
// call was refused memory, its second try has it.
use crate::builder_tests::{COUNT, first_edges, one_row};
use crate::test_values::same;
use std::alloc::{AllocError, Global};
use std::process::Abort;
use std::test::Fail;
use tg_graph::{Graph, GraphBuilder, Name, VertexFault};

// What `one_row` is the builder of.
fn is_one_row(rt: &impl Abort, alloc: Global, g: &Graph) -> Result<(), Fail> {
    let wanted = first_edges(rt, alloc, COUNT - 1)?;
    assert!(rt; same(g, &wanted));
    Ok(())
}

// The rows are made of what waits by `finish` alone, so that may be refused.
#[test]
fn a_builder_that_is_refused(rt: HostRuntime) -> Result<(), Fail> {
    let Ok(g) = one_row(&rt, rt.alloc())?.finish() else {
        return Ok(());
    };
    is_one_row(&rt, rt.alloc(), &g)
}

fn adds_vertex(rt: &impl Abort, builder: &mut GraphBuilder, n: Name) {
    if let Err(fault) = builder.add_vertex(n) {
        assert!(rt; fault == VertexFault::Memory && !builder.knows(n));
        assert!(rt; builder.add_vertex(n) == Ok(()));
    }
}

// A vertex that is refused while edges wait, and the second try.
#[test]
fn a_refused_vertex_while_edges_wait(rt: HostRuntime) -> Result<(), Fail> {
    let mut builder = one_row(&rt, rt.alloc())?;
    let n = Name::helper(COUNT);
    adds_vertex(&rt, &mut builder, n);
    let last = match builder.finish() {
        Ok(g) => g.name_at(COUNT as usize),
        Err(AllocError) => Some(n),
    };
    assert!(rt; last == Some(n));
    Ok(())
}
