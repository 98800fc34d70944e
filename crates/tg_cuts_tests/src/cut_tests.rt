// A graph of more vertices than a text may name.
use crate::test_answers::cut_of;
use std::alloc::Global;
use std::process::Abort;
use tg_analysis::AskFault;
use tg_graph::{Graph, Name, Right};

fn add_vertex(rt: &impl Abort, graph: &mut Graph, vertex: Name) {
    assert!(rt; graph.add_vertex(vertex).is_ok());
}

// The graph with so many vertices, _0, _1 and so on, and no edge.
fn numbered(rt: &impl Abort, alloc: Global, count: u32) -> Graph {
    let mut graph = Graph::new(alloc);
    for number in 0..count {
        add_vertex(rt, &mut graph, Name::helper(number));
    }
    graph
}

#[test]
fn many_vertices(rt: HostRuntime) {
    let alloc = rt.alloc();
    let graph = numbered(&rt, alloc, 4097);
    let (x, y) = (Name::helper(0), Name::helper(1));
    let stranger = Name::parse(b"x").expect(&rt, "a name");
    let fault = cut_of(alloc, &graph, Right::R, x, y, &[]).err();
    assert!(rt; fault == Some(AskFault::TooLarge));
    let fault = cut_of(alloc, &graph, Right::R, x, stranger, &[]).err();
    assert!(rt; fault == Some(AskFault::Unknown(stranger)));
}
