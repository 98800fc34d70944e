use crate::test_answers::{derived, shares, shares_all};
use crate::test_graphs::{graph, name, numbered, set};
use bitflags::Flags;
use std::alloc::Global;
use std::process::Abort;
use tg_analysis::AskFault;
use tg_graph::{Graph, Right, Rights};

#[test]
fn bits_that_stand_for_no_right(rt: HostRuntime) {
    let g = graph(&rt, rt.alloc(), "a b c", "a b g, b c rw");
    let (a, c) = (name(&rt, "a"), name(&rt, "c"));
    for (bits, answer) in [(128, true), (128 + 4 + 8, true), (128 + 1, false)] {
        let rights = Rights::from_bits_retain(bits);
        assert!(rt; shares_all(rt.alloc(), &g, rights, a, c) == Ok(answer));
    }
}

fn assert_unknown(rt: &impl Abort, alloc: Global, graph: &Graph, x: &str, y: &str, first: &str) {
    let (x, y) = (name(rt, x), name(rt, y));
    let due = Some(AskFault::Unknown(name(rt, first)));
    assert!(rt; shares(alloc, graph, Right::R, x, y).err() == due);
    assert!(rt; shares_all(alloc, graph, Rights::empty(), x, y).err() == due);
    assert!(rt; derived(alloc, graph, Right::R, x, y).err() == due);
}

fn assert_too_large(rt: &impl Abort, alloc: Global, graph: &Graph, x: &str, y: &str) {
    let (x, y) = (name(rt, x), name(rt, y));
    assert!(rt; shares(alloc, graph, Right::R, x, y) == Ok(false));
    assert!(rt; shares_all(alloc, graph, set(rt, "rw"), x, y) == Ok(false));
    let fault = derived(alloc, graph, Right::R, x, y).err();
    assert!(rt; fault == Some(AskFault::TooLarge));
}

// More vertices than a text may have.
#[test]
fn too_large(rt: HostRuntime) {
    let g = numbered(&rt, rt.alloc(), 4097);
    assert_too_large(&rt, rt.alloc(), &g, "_0", "_1");
    assert_unknown(&rt, rt.alloc(), &g, "_0", "z", "z");
}
