// Each test passes whichever one request for memory is refused, which `make refusals` tries. Where a
// call was refused memory, its second try has it.
ghost use Rattle.tg_names.specs.Sets.{IsNamed};
ghost use Rattle.tg_graph.specs.Rules.{rights_of};
ghost use Rattle.tg_graph.specs.Drafts.{Fits};

use crate::memory_tests::{copied, lone, rule_at};
use crate::test_values::{row_lengths, same};
use std::alloc::{AllocError, Global};
use std::process::Abort;
use std::test::Fail;
use tg_graph::{Draft, Graph, Ready, Rule, RuleFault};

fn whole(draft: &Draft, base: &Graph) -> Result<Graph, AllocError>
    requires { Fits base.now draft.now }
{
    match draft.whole(base) {
        Ok(whole) => Ok(whole),
        Err(AllocError) => draft.whole(base),
    }
}

// The second try of a rule whose first changed nothing.
fn drafts_again(
    rt: &impl Abort,
    draft: &mut Draft,
    base: &Graph,
    rule: &Rule,
    before: &Graph,
) -> Result<(), AllocError>
    requires named { IsNamed (rights_of rule.now) }
    requires fits { Fits base.now draft.old }
    ensures { Fits base.now draft.new }
{
    let after = whole(draft, base)?;
    assert!(rt; same(&after, before));
    assert!(rt; draft.apply(base, rule) == Ok(()));
    Ok(())
}

fn drafts(rt: &impl Abort, draft: &mut Draft, base: &Graph, rule: Rule) -> Result<(), AllocError>
    requires named { IsNamed (rights_of rule) }
    requires fits { Fits base.now draft.old }
    ensures { Fits base.now draft.new }
{
    let before = whole(draft, base)?;
    if let Err(fault) = draft.apply(base, &rule) {
        assert!(rt; fault == RuleFault::Memory);
        drafts_again(rt, draft, base, &rule, &before)?;
    }
    Ok(())
}

fn merge(rt: &impl Abort, base: &mut Graph, draft: Draft)
    requires { Fits base.old draft }
{
    assert!(rt; base.merge(draft).is_ok());
}

// The graph that the draft stands for, by way of `Ready`.
fn ready(rt: &impl Abort, base: Graph, draft: Draft, before: &Graph) -> Graph
    requires { Fits base draft }
{
    match Ready::new(base, draft) {
        Ok(ready) => ready.merge(),
        Err((mut base, draft)) => {
            assert!(rt; same(&base, before));
            merge(rt, &mut base, draft);
            base
        }
    }
}

fn becomes(rt: &impl Abort, base: Graph, draft: Draft, wanted: &Graph) -> Result<(), AllocError>
    requires { Fits base draft }
{
    let before = copied(rt, &base)?;
    let merged = ready(rt, base, draft, &before);
    assert!(rt; same(&merged, wanted));
    row_lengths(rt, &merged, &[2, 1]);
    Ok(())
}

// It is that which `whole` gives.
fn becomes_whole(rt: &impl Abort, base: Graph, draft: Draft) -> Result<(), AllocError>
    requires { Fits base draft }
{
    let wanted = whole(&draft, &base)?;
    becomes(rt, base, draft, &wanted)
}

// The same, in place.
fn merge_again(rt: &impl Abort, base: &mut Graph, draft: Draft) -> Result<(), AllocError>
    requires { Fits base.old draft }
{
    let before = copied(rt, base)?;
    if let Err(draft) = base.merge(draft) {
        assert!(rt; same(base, &before));
        merge(rt, base, draft);
    }
    Ok(())
}

fn merges(rt: &impl Abort, base: &mut Graph, draft: Draft) -> Result<(), AllocError>
    requires { Fits base.old draft }
{
    let wanted = whole(&draft, base)?;
    merge_again(rt, base, draft)?;
    assert!(rt; same(base, &wanted));
    Ok(())
}

fn drafts_two(rt: &impl Abort, draft: &mut Draft, base: &Graph) -> Result<(), AllocError>
    requires { Fits base.now draft.old }
    ensures { Fits base.now draft.new }
{
    drafts(rt, draft, base, rule_at(0))?;
    drafts(rt, draft, base, rule_at(1))
}

#[test]
fn refused_on_the_way_to_ready(rt: HostRuntime) -> Result<(), Fail> {
    let base = lone(&rt, rt.alloc())?;
    let mut draft = Draft::new(rt.alloc());
    drafts_two(&rt, &mut draft, &base)?;
    becomes_whole(&rt, base, draft)?;
    Ok(())
}

fn drafts_in_place(rt: &impl Abort, alloc: Global, base: &mut Graph) -> Result<(), AllocError> {
    let mut draft = Draft::new(alloc);
    drafts(rt, &mut draft, base, rule_at(0))?;
    merges(rt, base, draft)?;
    row_lengths(rt, base, &[2, 0]);
    Ok(())
}

#[test]
fn refused_in_place(rt: HostRuntime) -> Result<(), Fail> {
    let mut base = lone(&rt, rt.alloc())?;
    drafts_in_place(&rt, rt.alloc(), &mut base)?;
    Ok(())
}

fn copied_unshared(g: &Graph) -> Result<Graph, AllocError> {
    match g.copy_unshared() {
        Ok(copy) => Ok(copy),
        Err(AllocError) => g.copy_unshared(),
    }
}

fn has_same_copy(rt: &impl Abort, g: &Graph) -> Result<(), AllocError> {
    let copy = copied_unshared(g)?;
    assert!(rt; same(g, &copy));
    Ok(())
}

#[test]
fn refused_unshared_copy(rt: HostRuntime) -> Result<(), Fail> {
    let g = lone(&rt, rt.alloc())?;
    has_same_copy(&rt, &g)?;
    Ok(())
}
