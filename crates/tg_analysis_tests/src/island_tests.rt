use crate::test_answers::{assert_numbers, islands_of};
use crate::test_graphs::{graph, name};
use std::alloc::{AllocError, Global};
use std::process::Abort;
use std::test::Fail;
use tg_analysis::{Islands, Links};
use tg_graph::Graph;

fn links_of(alloc: Global, graph: &Graph) -> Result<Links, AllocError> {
    Links::of(alloc, graph)
}

// So many vertices are linked to these positions each.
fn assert_links(rt: &impl Abort, links: &Links, count: usize, near: &[&[u32]]) {
    assert!(rt; links.len() == count);
    for (position, neighbours) in near.iter().enumerate() {
        assert!(rt; links.at(position) == *neighbours);
    }
}

#[test]
fn a_link_each_way(rt: HostRuntime) -> Result<(), Fail> {
    let g = graph(&rt, rt.alloc(), "a b c", "a b t, b c r");
    let links = links_of(rt.alloc(), &g)?;
    assert_links(&rt, &links, 3, &[&[1], &[0], &[], &[]]);
    Ok(())
}

fn assert_number(
    rt: &impl Abort,
    islands: &Islands,
    graph: &Graph,
    vertex: &str,
    number: Option<usize>,
) {
    assert!(rt; islands.number_of(graph, name(rt, vertex)) == number);
}

#[test]
fn three_islands(rt: HostRuntime) -> Result<(), Fail> {
    let g = graph(&rt, rt.alloc(), "a b c d e", "a b t, b c r, d e g, e a r");
    let found = islands_of(rt.alloc(), &g)?;
    assert_numbers(&rt, &found, 3, &[0, 0, 1, 2, 2]);
    assert_number(&rt, &found, &g, "c", Some(1));
    assert_number(&rt, &found, &g, "z", None);
    Ok(())
}
