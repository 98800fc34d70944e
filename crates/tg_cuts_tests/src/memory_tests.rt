// Each test passes whichever one request for memory is refused, which `make refusals` tries. Where a
// call was refused memory, its second try has it.
ghost use Rattle.tg_names.specs.Sets.{IsNamed};

use crate::test_answers::cut_of;
use std::alloc::Global;
use std::test::Fail;
use tg_analysis::{AskFault, Ends};
use tg_graph::{EdgeFault, Graph, Name, Right, Rights, Rule, VertexFault};

fn added(graph: &mut Graph, name: Name) -> Result<(), VertexFault> {
    match graph.add_vertex(name) {
        Err(VertexFault::Memory) => graph.add_vertex(name),
        outcome => outcome,
    }
}

fn joined(graph: &mut Graph, x: Name, y: Name, rights: Rights) -> Result<(), EdgeFault>
    requires { IsNamed rights }
{
    match graph.add_edge(x, y, rights) {
        Err(EdgeFault::Memory) => graph.add_edge(x, y, rights),
        outcome => outcome,
    }
}

/// _0 has g over _1, and _1 has r over _2.
pub(crate) fn three(alloc: Global) -> Result<Graph, Fail> {
    let mut graph = Graph::new(alloc);
    for number in 0..3 {
        added(&mut graph, Name::helper(number))?;
    }
    let (x, y, z) = (Name::helper(0), Name::helper(1), Name::helper(2));
    joined(&mut graph, x, y, Rights::of(Right::G))?;
    joined(&mut graph, y, z, Rights::of(Right::R))?;
    Ok(graph)
}

fn cut(
    alloc: Global,
    graph: &Graph,
    x: Name,
    y: Name,
    kept: &[Ends],
) -> Result<Option<Vec<Rule>>, AskFault> {
    match cut_of(alloc, graph, Right::R, x, y, kept) {
        Err(AskFault::Memory) => cut_of(alloc, graph, Right::R, x, y, kept),
        outcome => outcome,
    }
}

#[test]
fn one_rule(rt: HostRuntime) -> Result<(), Fail> {
    let graph = three(rt.alloc())?;
    let (x, y) = (Name::helper(0), Name::helper(2));
    match cut(rt.alloc(), &graph, x, y, &[])? {
        Some(rules) => assert!(rt; rules.len() == 1),
        None => panic!(rt; "a cut"),
    }
    Ok(())
}

#[test]
fn kept_edges(rt: HostRuntime) -> Result<(), Fail> {
    let graph = three(rt.alloc())?;
    let (x, between, y) = (Name::helper(0), Name::helper(1), Name::helper(2));
    let link = Ends {
        source: x,
        target: between,
    };
    let holder = Ends {
        source: between,
        target: y,
    };
    let found = cut(rt.alloc(), &graph, x, y, &[link, holder])?;
    assert!(rt; found.is_none());
    Ok(())
}
