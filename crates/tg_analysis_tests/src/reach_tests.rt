// Who can come to have rights over a vertex, and over whom a vertex can come to have which, where no text says
// the question.
use crate::test_answers::{reach_of, who_can};
use crate::test_graphs::{graph, name, numbered};
use bitflags::Flags;
use std::alloc::Global;
use std::process::Abort;
use std::test::Fail;
use tg_graph::{Graph, Name, Rights};

// Those who can come to have the rights over y, by position, have a 1.
fn assert_marks(
    rt: &impl Abort,
    alloc: Global,
    graph: &Graph,
    rights: Rights,
    y: Name,
    marks: &str,
) {
    let told = who_can(alloc, graph, rights, y).ok().expect(rt, "marks");
    assert!(rt; told.len() == marks.len());
    for (mark, wanted) in told.iter().zip(marks.as_bytes()) {
        assert!(rt; *mark == (*wanted == b'1'));
    }
}

// The islands are a b, c, and d e.
fn three_islands(rt: &impl Abort, alloc: Global) -> Graph {
    graph(rt, alloc, "a b c d e", "a b t, b c r, d e g, e a r")
}

// A bit that stands for no right counts for nothing.
#[test]
fn unnamed_bits(rt: HostRuntime) {
    let g = three_islands(&rt, rt.alloc());
    let c = name(&rt, "c");
    let (read, none) = (
        Rights::from_bits_retain(0x84),
        Rights::from_bits_retain(0x80),
    );
    assert_marks(&rt, rt.alloc(), &g, read, c, "11000");
    assert_marks(&rt, rt.alloc(), &g, none, c, "11111");
}

// No graph is too large.
#[test]
fn many_vertices(rt: HostRuntime) -> Result<(), Fail> {
    let g = numbered(&rt, rt.alloc(), 4097);
    let marks = who_can(rt.alloc(), &g, Rights::READ, Name::helper(0))?;
    assert!(rt; marks.len() == 4097 && marks.iter().all(|mark| !*mark));
    let sets = reach_of(rt.alloc(), &g, Name::helper(4096))?;
    assert!(rt; sets.len() == 4097 && sets.iter().all(|rights| rights.is_empty()));
    Ok(())
}
