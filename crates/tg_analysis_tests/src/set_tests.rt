use crate::test_answers::{all_derived, carry_out_all};
use crate::test_graphs::{graph, name, numbered, set, word};
use std::alloc::Global;
use std::process::Abort;
use tg_analysis::AskFault;
use tg_graph::{Graph, Name, Right, Rights};

// The rights, x and y of a question: "a c rw" is whether a can come to have r and w over c.
fn asked(rt: &impl Abort, question: &str) -> (Rights, Name, Name) {
    let mut words = question.split_whitespace();
    let x = name(rt, word(rt, &mut words));
    let y = name(rt, word(rt, &mut words));
    (set(rt, word(rt, &mut words)), x, y)
}

// Each right needs a helper for each of two links.
#[test]
fn seven_rights_over_two_links(rt: HostRuntime) {
    let mut g = graph(&rt, rt.alloc(), "a b c d", "a b g, b c g, c d tgrwead");
    let (rights, x, y) = asked(&rt, "a d tgrwead");
    assert!(rt; carry_out_all(&rt, rt.alloc(), &mut g, rights, x, y) == 56);
    assert!(rt; g.len() == 18);
    assert!(rt; g.knows(Name::helper(13)));
    for right in &Right::ALL {
        assert!(rt; g.holds(x, *right, y));
    }
}

fn assert_fault(rt: &impl Abort, alloc: Global, graph: &Graph, question: &str, fault: AskFault) {
    let (rights, x, y) = asked(rt, question);
    assert!(rt; all_derived(alloc, graph, rights, x, y).err() == Some(fault));
}

fn assert_unknown(rt: &impl Abort, alloc: Global, graph: &Graph, question: &str, first: &str) {
    assert_fault(
        rt,
        alloc,
        graph,
        question,
        AskFault::Unknown(name(rt, first)),
    );
}

// More vertices than a text may have.
#[test]
fn too_large(rt: HostRuntime) {
    let g = numbered(&rt, rt.alloc(), 4097);
    assert_fault(&rt, rt.alloc(), &g, "_0 _1 rw", AskFault::TooLarge);
    assert_fault(&rt, rt.alloc(), &g, "_0 _1 -", AskFault::TooLarge);
    assert_unknown(&rt, rt.alloc(), &g, "_0 z rw", "z");
    assert_unknown(&rt, rt.alloc(), &g, "z _0 -", "z");
}
