// Each test passes whichever one request for memory is refused, which `make refusals` tries. Where a
// call was refused memory, its second try has it.
ghost use Rattle.tg_names.specs.Sets.{IsNamed};
ghost use Rattle.tg_graph.specs.Rules.{rights_of};

use crate::test_values::{row_lengths, same};
use std::alloc::{AllocError, Global};
use std::process::Abort;
use std::test::Fail;
use tg_graph::{EdgeFault, Graph, Name, Right, Rights, Rule, RuleFault, VertexFault};

// The names _0, _1 and _2.
pub fn names() -> (Name, Name, Name) {
    (Name::helper(0), Name::helper(1), Name::helper(2))
}

pub fn copied(rt: &impl Abort, g: &Graph) -> Result<Graph, AllocError> {
    let copy = match g.copy() {
        Ok(copy) => copy,
        Err(_) => g.copy()?,
    };
    assert!(rt; same(g, &copy));
    Ok(copy)
}

fn adds_vertex(rt: &impl Abort, g: &mut Graph, n: Name) -> Result<(), AllocError> {
    let before = copied(rt, g)?;
    if let Err(fault) = g.add_vertex(n) {
        assert!(rt; fault == VertexFault::Memory && same(g, &before));
        assert!(rt; g.add_vertex(n) == Ok(()));
    }
    Ok(())
}

fn adds_edge(
    rt: &impl Abort,
    g: &mut Graph,
    x: Name,
    y: Name,
    rights: Rights,
) -> Result<(), AllocError>
    requires { IsNamed rights }
{
    let before = copied(rt, g)?;
    if let Err(fault) = g.add_edge(x, y, rights) {
        assert!(rt; fault == EdgeFault::Memory && same(g, &before));
        assert!(rt; g.add_edge(x, y, rights) == Ok(()));
    }
    Ok(())
}

fn applies(rt: &impl Abort, g: &mut Graph, rule: Rule) -> Result<(), AllocError>
    requires { IsNamed (rights_of rule) }
{
    let before = copied(rt, g)?;
    if let Err(fault) = g.apply(&rule) {
        assert!(rt; fault == RuleFault::Memory && same(g, &before));
        assert!(rt; g.apply(&rule) == Ok(()));
    }
    Ok(())
}

// The vertex _0, which has t and g over itself.
fn one(rt: &impl Abort, g: &mut Graph) -> Result<(), AllocError> {
    let (x, _, _) = names();
    adds_vertex(rt, g, x)?;
    adds_edge(
        rt,
        g,
        x,
        x,
        Rights::of(Right::T).union(Rights::of(Right::G)),
    )
}

// The graph with that vertex alone.
pub fn lone(rt: &impl Abort, alloc: Global) -> Result<Graph, AllocError> {
    let mut g = Graph::new(alloc);
    one(rt, &mut g)?;
    Ok(g)
}

// _0 creates _1 with g, grants it t over itself, and creates _2.
pub fn rule_at(place: usize) -> Rule
    ensures { IsNamed (rights_of result) }
{
    let (x, y, z) = names();
    match place {
        0 => Rule::Create {
            x,
            n: y,
            rights: Rights::of(Right::G),
        },
        1 => Rule::Grant {
            x,
            y,
            z: x,
            rights: Rights::of(Right::T),
        },
        _ => Rule::Create {
            x,
            n: z,
            rights: Rights::of(Right::R),
        },
    }
}

// Applies the rules from the one place up to the other.
fn applies_some(rt: &impl Abort, g: &mut Graph, from: usize, to: usize) {
    for place in from..to {
        assert!(rt; g.apply(&rule_at(place)) == Ok(()));
    }
}

fn runs(rt: &impl Abort, g: &mut Graph) -> Result<(), AllocError> {
    let mut wanted = copied(rt, g)?;
    if let Err((place, fault)) = g.run(&[rule_at(0), rule_at(1), rule_at(2)]) {
        assert!(rt; fault == RuleFault::Memory);
        applies_some(rt, &mut wanted, 0, place);
        assert!(rt; same(g, &wanted));
        applies_some(rt, g, place, 3);
    }
    Ok(())
}

fn applies_two(rt: &impl Abort, g: &mut Graph) -> Result<(), AllocError> {
    applies(rt, g, rule_at(0))?;
    applies(rt, g, rule_at(1))
}

#[test]
fn refused_rules(rt: HostRuntime) -> Result<(), Fail> {
    let mut g = lone(&rt, rt.alloc())?;
    applies_two(&rt, &mut g)?;
    row_lengths(&rt, &g, &[2, 1]);
    Ok(())
}

// _0 takes g over _1 from itself, which changes nothing.
fn take_again() -> Rule
    ensures { IsNamed (rights_of result) }
{
    let (x, y, _) = names();
    Rule::Take {
        x,
        y: x,
        z: y,
        rights: Rights::of(Right::G),
    }
}

// _0 gives up g over _1.
fn give_up() -> Rule
    ensures { IsNamed (rights_of result) }
{
    let (x, y, _) = names();
    Rule::Remove {
        x,
        y,
        rights: Rights::of(Right::G),
    }
}

fn changes(rt: &impl Abort, g: &mut Graph) -> Result<(), AllocError> {
    applies(rt, g, rule_at(0))?;
    applies(rt, g, take_again())?;
    applies(rt, g, give_up())
}

// A row that a copy shares is copied before it changes.
#[test]
fn refused_changes_of_shared_rows(rt: HostRuntime) -> Result<(), Fail> {
    let mut g = lone(&rt, rt.alloc())?;
    changes(&rt, &mut g)?;
    assert!(rt; g.len() == 2 && g.row_len(0) == 1);
    Ok(())
}

#[test]
fn refused_in_a_run(rt: HostRuntime) -> Result<(), Fail> {
    let mut g = lone(&rt, rt.alloc())?;
    runs(&rt, &mut g)?;
    row_lengths(&rt, &g, &[3, 1, 0]);
    Ok(())
}
