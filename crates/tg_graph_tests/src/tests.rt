ghost use Rattle.tg_graph.specs.Rules.{rights_of};
ghost use Rattle.tg_names.specs.Sets.{IsNamed};

use crate::test_values::{
    create, name, reads, remove, row_lengths, same, set, stands_at, take, three, two, with_edge,
    with_vertex,
};
use bitflags::Flags;
use std::alloc::Global;
use std::process::Abort;
use std::test::Fail;
use tg_graph::{EdgeFault, Graph, Name, NameFault, Right, Rights, Rule, VertexFault};

fn accepts(rt: &impl Abort, g: &mut Graph, rule: Rule)
    requires { IsNamed (rights_of rule) }
{
    assert!(rt; g.check(&rule) == Ok(()));
    assert!(rt; g.apply(&rule) == Ok(()));
}

fn is_no_name(rt: &impl Abort, bytes: &[u8], fault: NameFault) {
    assert!(rt; Name::parse(bytes) == Err(fault));
}

fn stands_before(rt: &impl Abort, one: &[u8], other: &[u8]) {
    assert!(rt; name(rt, one) < name(rt, other));
}

#[test]
fn names(rt: HostRuntime) {
    is_no_name(&rt, b"", NameFault::Empty);
    is_no_name(&rt, b"Abcdefghijklmnopq", NameFault::TooLong);
    is_no_name(&rt, b"9a", NameFault::BadByte(0));
    is_no_name(&rt, b"a-b", NameFault::BadByte(1));
    assert!(rt; Name::parse(b"_9").is_ok());
    assert!(rt; name(&rt, b"ab").as_bytes() == b"ab".as_slice());
    stands_before(&rt, b"ab", b"aba");
    stands_before(&rt, b"aba", b"ac");
}

// The name at the front of the bytes, and what is left of them.
fn cuts(rt: &impl Abort, bytes: &[u8], front: &[u8], rest: &[u8]) {
    let found = match Name::at_front(bytes) {
        Some(cut) => cut.0.as_bytes() == front && cut.1 == rest,
        None => false,
    };
    assert!(rt; found);
}

#[test]
fn names_at_the_front(rt: HostRuntime) {
    cuts(&rt, b"a", b"a", b"");
    cuts(&rt, b"v12 b", b"v12", b" b");
    cuts(&rt, b"_9\n", b"_9", b"\n");
    cuts(&rt, b"ab-c", b"ab", b"-c");
    cuts(&rt, b"abcdefghijklmno0", b"abcdefghijklmno0", b"");
    cuts(&rt, b"abcdefghijklmnopq r", b"abcdefghijklmnop", b"q r");
}

fn has_no_front(rt: &impl Abort, bytes: &[u8]) {
    assert!(rt; Name::at_front(bytes).is_none());
}

#[test]
fn no_name_at_the_front(rt: HostRuntime) {
    has_no_front(&rt, b"");
    has_no_front(&rt, b" a");
    has_no_front(&rt, b"9a");
    has_no_front(&rt, b"Ab");
}

fn is_helper(rt: &impl Abort, number: u32, bytes: &[u8]) {
    assert!(rt; Name::helper(number).as_bytes() == bytes);
}

#[test]
fn names_of_helpers(rt: HostRuntime) {
    is_helper(&rt, 0, b"_0");
    is_helper(&rt, 120, b"_120");
    is_helper(&rt, 4_294_967_295, b"_4294967295");
}

#[test]
fn letters(rt: HostRuntime) {
    assert!(rt; Right::from_letter(b'w') == Some(Right::W) && Right::from_letter(b'x').is_none());
    assert!(rt; Right::E.letter() == b'e');
    assert!(rt; Right::from_letter(b'a') == Some(Right::A));
    assert!(rt; Right::from_letter(b'd') == Some(Right::D));
    let rights = set(&rt, b"wgt");
    assert!(rt;
        rights.count() == 3 && rights.letter(2) == Some(b'w') && rights.letter(3).is_none()
    );
}

#[test]
fn sets_of_rights(rt: HostRuntime) {
    let (one, other) = (set(&rt, b"tg"), set(&rt, b"gr"));
    assert!(rt; one.union(other) == set(&rt, b"rtg"));
    assert!(rt; one.difference(other) == Rights::of(Right::T));
    assert!(rt; one.contains(set(&rt, b"g")) && !one.contains(other));
    assert!(rt; one.has(Right::G) && !one.has(Right::R));
    assert!(rt; set(&rt, b"-").is_empty() && !one.is_empty());
}

fn refuses_edge(
    rt: &impl Abort,
    g: &mut Graph,
    x: &[u8],
    y: &[u8],
    letters: &[u8],
    fault: EdgeFault,
) {
    assert!(rt; g.add_edge(name(rt, x), name(rt, y), set(rt, letters)) == Err(fault));
}

// a has r over itself, and z is no vertex.
fn only_reads_itself(rt: &impl Abort, g: &Graph) {
    let (a, z) = (name(rt, b"a"), name(rt, b"z"));
    assert!(rt; g.label(a, a) == Some(set(rt, b"r")));
    assert!(rt; g.label(a, z).is_none());
    assert!(rt; g.knows(a));
    assert!(rt; !g.knows(z));
}

#[test]
fn graph_calls(rt: HostRuntime) {
    let mut g = Graph::new(rt.alloc());
    with_vertex(&rt, &mut g, b"a");
    assert!(rt; g.add_vertex(name(&rt, b"a")) == Err(VertexFault::Taken));
    let unknown = EdgeFault::Unknown(name(&rt, b"z"));
    refuses_edge(&rt, &mut g, b"a", b"z", b"r", unknown);
    refuses_edge(&rt, &mut g, b"a", b"a", b"-", EdgeFault::Empty);
    with_edge(&rt, &mut g, b"a", b"a", b"r");
    refuses_edge(&rt, &mut g, b"a", b"a", b"-", EdgeFault::EdgeThere);
    only_reads_itself(&rt, &g);
}

fn refuses_edges_from_z(rt: &impl Abort, g: &mut Graph) {
    let (a, y, z) = (name(rt, b"a"), name(rt, b"y"), name(rt, b"z"));
    assert!(rt; g.add_edge(z, a, set(rt, b"r")) == Err(EdgeFault::Unknown(z)));
    assert!(rt; g.add_edge(z, y, set(rt, b"-")) == Err(EdgeFault::Unknown(z)));
    assert!(rt; g.position(z).is_none() && g.name_at(2).is_none());
}

#[test]
fn edges_from_no_vertex(rt: HostRuntime) -> Result<(), Fail> {
    let mut g = two(&rt, rt.alloc(), b"-")?;
    refuses_edges_from_z(&rt, &mut g);
    Ok(())
}

fn has_edge_at(
    rt: &impl Abort,
    g: &Graph,
    position: usize,
    place: usize,
    y: &[u8],
    letters: &[u8],
) {
    assert!(rt; g.row_at(position, place) == Some((name(rt, y), set(rt, letters))));
}

fn has_rights_at(rt: &impl Abort, g: &Graph, position: usize, y: &[u8], letters: &[u8]) {
    assert!(rt; g.rights_at(position, name(rt, y)) == set(rt, letters));
}

// The vertices b and a, where b has r over itself.
fn b_before_a(rt: &impl Abort, alloc: Global) -> Graph {
    let mut g = Graph::new(alloc);
    with_vertex(rt, &mut g, b"b");
    with_vertex(rt, &mut g, b"a");
    with_edge(rt, &mut g, b"b", b"b", b"r");
    g
}

fn has_rights_by_position(rt: &impl Abort, g: &Graph) {
    has_rights_at(rt, g, 0, b"b", b"r");
    has_rights_at(rt, g, 0, b"a", b"-");
    has_rights_at(rt, g, 1, b"b", b"wg");
    has_rights_at(rt, g, 1, b"c", b"-");
    has_rights_at(rt, g, 2, b"b", b"-");
}

#[test]
fn rights_by_position(rt: HostRuntime) {
    let mut g = b_before_a(&rt, rt.alloc());
    with_edge(&rt, &mut g, b"a", b"b", b"gw");
    has_rights_by_position(&rt, &g);
}

fn has_first_row(rt: &impl Abort, g: &Graph) {
    has_edge_at(rt, g, 0, 0, b"a", b"w");
    has_edge_at(rt, g, 0, 1, b"b", b"r");
    assert!(rt; g.row_at(0, 2).is_none());
}

#[test]
fn positions_and_rows(rt: HostRuntime) {
    let mut g = b_before_a(&rt, rt.alloc());
    with_edge(&rt, &mut g, b"b", b"a", b"w");
    stands_at(&rt, &g, b"b", 0);
    stands_at(&rt, &g, b"a", 1);
    row_lengths(&rt, &g, &[2, 0]);
    has_first_row(&rt, &g);
}

// a takes r over c in the copy alone.
fn takes_apart(rt: &impl Abort, g: &Graph, copy: &mut Graph) {
    accepts(rt, copy, take(rt, b"a", b"b", b"c", b"r"));
    assert!(rt; reads(rt, copy, b"a", b"c"));
    assert!(rt; !reads(rt, g, b"a", b"c"));
}

fn copies_apart(rt: &impl Abort, g: &Graph) -> Result<(), Fail> {
    let mut copy = g.copy()?;
    assert!(rt; same(g, &copy));
    takes_apart(rt, g, &mut copy);
    Ok(())
}

#[test]
fn a_copy_apart(rt: HostRuntime) -> Result<(), Fail> {
    let g = three(&rt, rt.alloc())?;
    copies_apart(&rt, &g)
}

fn runs_all(rt: &impl Abort, g: &mut Graph) {
    let rules = [
        take(rt, b"a", b"b", b"c", b"r"),
        remove(rt, b"b", b"c", b"r"),
    ];
    assert!(rt; g.run(&rules) == Ok(()));
}

#[test]
fn a_run_of_all(rt: HostRuntime) -> Result<(), Fail> {
    let mut g = three(&rt, rt.alloc())?;
    runs_all(&rt, &mut g);
    Ok(())
}

// a creates c without rights over it.
fn creates_apart(rt: &impl Abort, g: &mut Graph) {
    accepts(rt, g, create(rt, b"a", b"c", b"-"));
    assert!(rt; g.position(name(rt, b"c")) == Some(2) && g.row_len(0) == 1 && g.row_len(2) == 0);
}

// a creates n with rights over it.
fn creates_below(rt: &impl Abort, g: &mut Graph) {
    accepts(rt, g, create(rt, b"a", b"n", b"tg"));
    has_edge_at(rt, g, 0, 1, b"n", b"gt");
}

#[test]
fn creates(rt: HostRuntime) -> Result<(), Fail> {
    let mut g = two(&rt, rt.alloc(), b"g")?;
    creates_apart(&rt, &mut g);
    creates_below(&rt, &mut g);
    Ok(())
}
