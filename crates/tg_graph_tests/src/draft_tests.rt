ghost use Rattle.tg_names.specs.Sets.{IsNamed};
ghost use Rattle.tg_graph.specs.Rules.{rights_of};
ghost use Rattle.tg_graph.specs.Drafts.{Fits};

use crate::test_values::{create, name, reads, remove, row_lengths, stands_at, take, three};
use std::alloc::Global;
use std::process::Abort;
use std::test::Fail;
use tg_graph::{Draft, Graph, Name, Ready, Refusal, Right, Rights, Rule, RuleFault};

// a takes r over c from b.
fn take_r(rt: &impl Abort) -> Rule
    ensures { IsNamed (rights_of result) }
{
    take(rt, b"a", b"b", b"c", b"r")
}

// a creates n with r.
fn create_r(rt: &impl Abort) -> Rule
    ensures { IsNamed (rights_of result) }
{
    create(rt, b"a", b"n", b"r")
}

// b gives r over c up.
fn remove_r(rt: &impl Abort) -> Rule
    ensures { IsNamed (rights_of result) }
{
    remove(rt, b"b", b"c", b"r")
}

fn drafts(rt: &impl Abort, draft: &mut Draft, base: &Graph, rule: Rule)
    requires named { IsNamed (rights_of rule) }
    requires fits { Fits base.now draft.old }
    ensures { Fits base.now draft.new }
{
    assert!(rt; draft.apply(base, &rule) == Ok(()));
}

// Whether x has the right over y in what the draft stands for.
fn drafted(draft: &Draft, base: &Graph, x: Name, right: Right, y: Name) -> bool
    requires { Fits base.now draft.now }
{
    draft.holds(base, x, right, y)
}

// What the draft stands for, with how many vertices.
fn whole(rt: &impl Abort, draft: &Draft, base: &Graph, vertices: usize) -> Result<Graph, Fail>
    requires { Fits base.now draft.now }
{
    let whole = draft.whole(base)?;
    assert!(rt; whole.len() == vertices);
    Ok(whole)
}

// The label of the edge from x to y is r.
fn has_r(rt: &impl Abort, graph: &Graph, x: Name, y: Name) {
    assert!(rt; graph.label(x, y) == Some(Rights::of(Right::R)));
}

// By the draft, a comes to have r over c.
fn drafts_take(rt: &impl Abort, draft: &mut Draft, base: &Graph)
    requires { Fits base.now draft.old }
    ensures { Fits base.now draft.new }
{
    let (a, c) = (name(rt, b"a"), name(rt, b"c"));
    assert!(rt; !drafted(draft, base, a, Right::R, c));
    drafts(rt, draft, base, take_r(rt));
    assert!(rt; drafted(draft, base, a, Right::R, c));
}

// What was drafted is in the whole alone.
fn is_over_the_graph(rt: &impl Abort, draft: &Draft, base: &Graph) -> Result<(), Fail>
    requires { Fits base.now draft.now }
{
    let (a, c) = (name(rt, b"a"), name(rt, b"c"));
    has_r(rt, &whole(rt, draft, base, 3)?, a, c);
    assert!(rt; !base.holds(a, Right::R, c));
    Ok(())
}

#[test]
fn a_draft_over_a_graph(rt: HostRuntime) -> Result<(), Fail> {
    let base = three(&rt, rt.alloc())?;
    let mut draft = Draft::new(rt.alloc());
    drafts_take(&rt, &mut draft, &base);
    is_over_the_graph(&rt, &draft, &base)
}

// The graph with the one vertex a.
fn lone(rt: &impl Abort, alloc: Global) -> Result<Graph, Fail> {
    let mut graph = Graph::new(alloc);
    graph.add_vertex(name(rt, b"a"))?;
    Ok(graph)
}

// n was created in the draft, and is no vertex of the base.
fn is_created(rt: &impl Abort, draft: &Draft, base: &Graph)
    requires { Fits base.now draft.now }
{
    assert!(rt; draft.created() == 1);
    assert!(rt; draft.known(base, name(rt, b"n")));
    assert!(rt; base.len() == 1);
}

// The draft refuses to create n again.
fn is_taken(rt: &impl Abort, draft: &mut Draft, base: &Graph)
    requires { Fits base.now draft.old }
    ensures { Fits base.now draft.new }
{
    let fault = RuleFault::Refused(Refusal::Taken(name(rt, b"n")));
    assert!(rt; draft.apply(base, &create_r(rt)) == Err(fault));
}

// n stands behind a, which has r over it.
fn n_is_second(rt: &impl Abort, whole: &Graph) {
    assert!(rt; whole.position(name(rt, b"n")) == Some(1));
    has_r(rt, whole, name(rt, b"a"), name(rt, b"n"));
}

fn drafts_create(rt: &impl Abort, draft: &mut Draft, base: &Graph)
    requires { Fits base.now draft.old }
    ensures { Fits base.now draft.new }
{
    drafts(rt, draft, base, create_r(rt));
    is_created(rt, draft, base);
    is_taken(rt, draft, base);
}

fn has_n_in_whole(rt: &impl Abort, draft: &Draft, base: &Graph) -> Result<(), Fail>
    requires { Fits base.now draft.now }
{
    n_is_second(rt, &whole(rt, draft, base, 2)?);
    Ok(())
}

#[test]
fn a_draft_creates(rt: HostRuntime) -> Result<(), Fail> {
    let base = lone(&rt, rt.alloc())?;
    let mut draft = Draft::new(rt.alloc());
    drafts_create(&rt, &mut draft, &base);
    has_n_in_whole(&rt, &draft, &base)
}

fn merges_take(rt: &impl Abort, alloc: Global, base: &mut Graph) {
    let mut draft = Draft::new(alloc);
    drafts(rt, &mut draft, base, take_r(rt));
    assert!(rt; base.merge(draft).is_ok());
}

fn merges_beside_copy(rt: &impl Abort, alloc: Global, base: &mut Graph) -> Result<(), Fail> {
    let copy = base.copy()?;
    merges_take(rt, alloc, base);
    assert!(rt; reads(rt, base, b"a", b"c"));
    assert!(rt; !reads(rt, &copy, b"a", b"c"));
    Ok(())
}

#[test]
fn a_draft_merged(rt: HostRuntime) -> Result<(), Fail> {
    let mut base = three(&rt, rt.alloc())?;
    merges_beside_copy(&rt, rt.alloc(), &mut base)
}

// What base and draft stand for together.
fn merged(rt: &impl Abort, base: Graph, draft: Draft) -> Graph
    requires { Fits base draft }
{
    match Ready::new(base, draft) {
        Ok(ready) => ready.merge(),
        Err(_) => panic!(rt; "no room"),
    }
}

fn is_made_ready(rt: &impl Abort, merged: &Graph) {
    row_lengths(rt, merged, &[2, 0, 0, 0]);
    stands_at(rt, merged, b"n", 3);
}

#[test]
fn a_draft_made_ready(rt: HostRuntime) -> Result<(), Fail> {
    let base = three(&rt, rt.alloc())?;
    let mut draft = Draft::new(rt.alloc());
    drafts(&rt, &mut draft, &base, remove_r(&rt));
    drafts(&rt, &mut draft, &base, create_r(&rt));
    is_made_ready(&rt, &merged(&rt, base, draft));
    Ok(())
}

fn applies(rt: &impl Abort, g: &mut Graph, rule: Rule)
    requires { IsNamed (rights_of rule) }
{
    assert!(rt; g.apply(&rule) == Ok(()));
}

// Whether a and b have r over c is as given.
fn who_reads(rt: &impl Abort, g: &Graph, by_a: bool, by_b: bool) {
    assert!(rt; reads(rt, g, b"a", b"c") == by_a);
    assert!(rt; reads(rt, g, b"b", b"c") == by_b);
}

fn change_apart(rt: &impl Abort, base: &Graph, shared: &mut Graph, unshared: &mut Graph) {
    applies(rt, shared, take_r(rt));
    applies(rt, unshared, remove_r(rt));
    who_reads(rt, base, false, true);
    who_reads(rt, shared, true, true);
    who_reads(rt, unshared, false, false);
}

fn copies_change_apart(rt: &impl Abort, base: &Graph) -> Result<(), Fail> {
    let mut shared = base.copy()?;
    let mut unshared = base.copy_unshared()?;
    change_apart(rt, base, &mut shared, &mut unshared);
    Ok(())
}

#[test]
fn a_change_stays_in_its_copy(rt: HostRuntime) -> Result<(), Fail> {
    let base = three(&rt, rt.alloc())?;
    copies_change_apart(&rt, &base)
}

fn changes_alone(rt: &impl Abort, base: &mut Graph, shared: &Graph, unshared: &Graph) {
    applies(rt, base, remove_r(rt));
    assert!(rt; !reads(rt, base, b"b", b"c"));
    assert!(rt; reads(rt, shared, b"b", b"c"));
    assert!(rt; reads(rt, unshared, b"b", b"c"));
}

fn changes_beside_copies(rt: &impl Abort, base: &mut Graph) -> Result<(), Fail> {
    let shared = base.copy()?;
    let unshared = base.copy_unshared()?;
    changes_alone(rt, base, &shared, &unshared);
    Ok(())
}

#[test]
fn a_change_leaves_the_copies(rt: HostRuntime) -> Result<(), Fail> {
    let mut base = three(&rt, rt.alloc())?;
    changes_beside_copies(&rt, &mut base)
}
