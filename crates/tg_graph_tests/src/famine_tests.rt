// What takes no memory. Each test passes when every request for memory from some one on is refused,
// which `make refusals` tries: it ends with an error where its graph can't be set up, and else
// everything is answered.
ghost use Rattle.tg_names.specs.Sets.{IsNamed};
ghost use Rattle.tg_graph.specs.Rules.{rights_of};
ghost use Rattle.tg_graph.specs.Drafts.{Fits};

use crate::test_values::{create, grant, name, remove, set, take, three};
use bitflags::Flags;
use std::alloc::Global;
use std::process::Abort;
use std::test::Fail;
use tg_graph::{
    Draft, EdgeFault, Graph, Name, NameFault, Refusal, Right, Rights, Rule, RuleFault, VertexFault,
};

fn rights_read(rt: &impl Abort) {
    let (one, other) = (set(rt, b"tg"), Rights::of(Right::G));
    assert!(rt; one.contains(other) && one.difference(other).union(other) == one);
    assert!(rt; one.count() == 2 && one.letter(1) == Some(b'g') && !one.is_empty());
    assert!(rt; Rights::from_letters(b"tt").is_none());
}

#[test]
fn names_and_rights(rt: HostRuntime) {
    assert!(rt; Name::parse(b"a-b") == Err(NameFault::BadByte(1)));
    assert!(rt; name(&rt, b"ab").as_bytes() == b"ab".as_slice());
    assert!(rt; Name::helper(12).as_bytes() == b"_12".as_slice());
    assert!(rt; Right::from_letter(b'e') == Some(Right::E));
    rights_read(&rt);
}

fn is_empty(rt: &impl Abort, alloc: Global) {
    assert!(rt; Graph::new(alloc).len() == 0);
}

// What is read by name of the graph that `three` makes.
fn read_by_name(rt: &impl Abort, g: &Graph, a: Name, b: Name) {
    let z = name(rt, b"z");
    assert!(rt; g.len() == 3 && g.position(b) == Some(1));
    assert!(rt; g.label(a, b) == Some(Rights::of(Right::T)) && g.label(a, z).is_none());
    assert!(rt; g.holds(a, Right::T, b) && !g.holds(b, Right::T, a));
}

// What is read of it by position.
fn read_by_position(rt: &impl Abort, g: &Graph, a: Name, b: Name) {
    let t = Rights::of(Right::T);
    assert!(rt; g.name_at(3).is_none());
    assert!(rt; g.rights_at(0, b) == t && g.rights_at(1, a).is_empty());
    assert!(rt; g.row_len(0) == 1 && g.row_at(0, 0) == Some((b, t)) && g.row_at(0, 1).is_none());
}

#[test]
fn graphs_read(rt: HostRuntime) -> Result<(), Fail> {
    is_empty(&rt, rt.alloc());
    let g = three(&rt, rt.alloc())?;
    let (a, b) = (name(&rt, b"a"), name(&rt, b"b"));
    read_by_name(&rt, &g, a, b);
    read_by_position(&rt, &g, a, b);
    Ok(())
}

fn checks(rt: &impl Abort, g: &Graph, rule: Rule)
    requires { IsNamed (rights_of rule) }
{
    assert!(rt; g.check(&rule) == Ok(()));
}

fn checks_rules(rt: &impl Abort, g: &Graph) {
    checks(rt, g, take(rt, b"a", b"b", b"c", b"r"));
    checks(rt, g, create(rt, b"a", b"n", b"-"));
    checks(rt, g, remove(rt, b"a", b"b", b"w"));
    let refusal = g.check(&grant(rt, b"a", b"b", b"c", b"r"));
    assert!(rt; refusal == Err(Refusal::NoGrant));
}

#[test]
fn rules_checked(rt: HostRuntime) -> Result<(), Fail> {
    let g = three(&rt, rt.alloc())?;
    checks_rules(&rt, &g);
    Ok(())
}

fn refuses_additions(rt: &impl Abort, g: &mut Graph) {
    let (a, b, z) = (name(rt, b"a"), name(rt, b"b"), name(rt, b"z"));
    assert!(rt; g.add_vertex(a) == Err(VertexFault::Taken));
    assert!(rt; g.add_edge(a, z, set(rt, b"r")) == Err(EdgeFault::Unknown(z)));
    assert!(rt; g.add_edge(a, b, set(rt, b"-")) == Err(EdgeFault::EdgeThere));
    assert!(rt; g.add_edge(b, a, set(rt, b"-")) == Err(EdgeFault::Empty));
}

// The other refusals come before that for want of memory.
#[test]
fn additions_refused(rt: HostRuntime) -> Result<(), Fail> {
    let mut g = three(&rt, rt.alloc())?;
    refuses_additions(&rt, &mut g);
    Ok(())
}

fn refuses_rules(rt: &impl Abort, g: &mut Graph) {
    let taken = RuleFault::Refused(Refusal::Taken(name(rt, b"b")));
    assert!(rt; g.apply(&create(rt, b"a", b"b", b"r")) == Err(taken));
    let fault = RuleFault::Refused(Refusal::Empty);
    assert!(rt; g.run(&[remove(rt, b"a", b"b", b"-")]) == Err((0, fault)));
}

#[test]
fn rules_refused(rt: HostRuntime) -> Result<(), Fail> {
    let mut g = three(&rt, rt.alloc())?;
    refuses_rules(&rt, &mut g);
    Ok(())
}

// What a draft over the graph reads.
fn draft_read(rt: &impl Abort, draft: &Draft, base: &Graph)
    requires { Fits base.now draft.now }
{
    let (a, b, n) = (name(rt, b"a"), name(rt, b"b"), name(rt, b"n"));
    assert!(rt; draft.created() == 1 && draft.known(base, n) && draft.known(base, a));
    assert!(rt; draft.holds(base, a, Right::R, n) && draft.holds(base, a, Right::T, b));
    assert!(rt; !draft.holds(base, b, Right::R, n) && !draft.known(base, name(rt, b"z")));
}

// Whether n could be created in the draft.
fn drafts_n(rt: &impl Abort, draft: &mut Draft, base: &Graph) -> bool
    requires { Fits base.now draft.old }
    ensures { Fits base.now draft.new }
{
    match draft.apply(base, &create(rt, b"a", b"n", b"r")) {
        Ok(()) => true,
        Err(fault) => {
            assert!(rt; fault == RuleFault::Memory);
            false
        }
    }
}

fn creates_nothing(rt: &impl Abort, alloc: Global) {
    assert!(rt; Draft::new(alloc).created() == 0);
}

#[test]
fn drafts_read(rt: HostRuntime) -> Result<(), Fail> {
    creates_nothing(&rt, rt.alloc());
    let g = three(&rt, rt.alloc())?;
    let mut draft = Draft::new(rt.alloc());
    if drafts_n(&rt, &mut draft, &g) {
        draft_read(&rt, &draft, &g);
    }
    Ok(())
}
