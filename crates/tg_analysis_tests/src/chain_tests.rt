// Which of several shortest chains a derivation takes is as it was when each search listed all links first.
use crate::listed_chains::{listed_derivation, listed_derivation_all};
use crate::made_graphs::{Chance, HELD, Plan, made_graph, made_names};
use crate::test_answers::{all_derived, derived};
use crate::test_graphs::set;
use std::alloc::Global;
use std::process::Abort;
use tg_analysis::AskFault;
use tg_graph::{Graph, Name, Right, Rights, Rule};

fn are_same(found: &Option<Vec<Rule>>, listed: &Option<Vec<Rule>>) -> bool {
    match (found, listed) {
        (Some(found), Some(listed)) => found.as_slice() == listed.as_slice(),
        (None, None) => true,
        _ => false,
    }
}

type Derived = Result<Option<Vec<Rule>>, AskFault>;

fn assert_same(rt: &impl Abort, found: &Derived, listed: &Derived) {
    match (found, listed) {
        (Ok(found), Ok(listed)) => assert!(rt; are_same(found, listed)),
        _ => panic!(rt; "two answers"),
    }
}

// The name at a place of the line.
fn name_at(rt: &impl Abort, names: &[Name], place: usize) -> Name {
    *names.get(place).expect(rt, "a name")
}

// A graph, and a copy of it whose rows share the names of all vertices.
#[derive(Drop)]
struct Made {
    graph: Graph,
    copy: Graph,
}

// The rules for one right are the same, in both.
fn assert_one(rt: &impl Abort, alloc: Global, made: &Made, right: Right, x: Name, y: Name) {
    let listed = listed_derivation(alloc, &made.graph, right, x, y);
    assert_same(rt, &derived(alloc, &made.graph, right, x, y), &listed);
    assert_same(rt, &derived(alloc, &made.copy, right, x, y), &listed);
}

// The rules for a set of rights are the same, in both.
fn assert_all(rt: &impl Abort, alloc: Global, made: &Made, rights: Rights, x: Name, y: Name) {
    let listed = listed_derivation_all(alloc, &made.graph, rights, x, y);
    assert_same(rt, &all_derived(alloc, &made.graph, rights, x, y), &listed);
    assert_same(rt, &all_derived(alloc, &made.copy, rights, x, y), &listed);
}

// Asks a question that is drawn, mostly about one of the vertices over which few hold some rights.
fn ask(rt: &impl Abort, alloc: Global, chance: &mut Chance, made: &Made, names: &[Name]) {
    let x = name_at(rt, names, chance.below(names.len()));
    let targets = chance.one_of(&[HELD, HELD, HELD, names.len()], HELD);
    let y = name_at(rt, names, chance.below(targets));
    let right = chance.one_of(&[Right::R, Right::E, Right::T, Right::W], Right::R);
    assert_one(rt, alloc, made, right, x, y);
    let rights = set(rt, chance.one_of(&["re", "rw", "tr", "gwe", "-"], "r"));
    assert_all(rt, alloc, made, rights, x, y);
}

// Asks so many questions about a graph.
fn ask_about(rt: &impl Abort, alloc: Global, chance: &mut Chance, plan: Plan, questions: usize) {
    let names = made_names(rt, alloc, chance, plan);
    let graph = made_graph(rt, alloc, chance, names.as_slice(), plan);
    let copy = graph.copy_unshared().expect(rt, "a copy");
    let made = Made { graph, copy };
    for _ in 0..questions {
        ask(rt, alloc, chance, &made, names.as_slice());
    }
}

// Asks about a small graph with so many edges a vertex that link nothing.
fn ask_about_small(rt: &impl Abort, alloc: Global, seed: u64, fillers: usize) {
    let mut chance = Chance::new(seed);
    let names = chance.below(37).saturating_add(4);
    let plan = Plan::drawn(&mut chance, names, fillers);
    ask_about(rt, alloc, &mut chance, plan, 4);
}

#[test]
fn chains_where_most_edges_link(rt: HostRuntime) {
    for seed in 0..60 {
        for fillers in &[0, 1, 2, 4] {
            ask_about_small(&rt, rt.alloc(), seed, *fillers);
        }
    }
}

#[test]
fn chains_where_few_edges_link(rt: HostRuntime) {
    for seed in 60..84 {
        for fillers in &[8, 16, 32, 64] {
            ask_about_small(&rt, rt.alloc(), seed, *fillers);
        }
    }
}

// Rows of up to some 70 edges.
#[test]
fn chains_in_larger_graphs(rt: HostRuntime) {
    for fillers in &[1, 2, 4, 8, 16, 32, 64] {
        let mut chance = Chance::new(*fillers as u64);
        let plan = Plan::drawn(&mut chance, 90, *fillers);
        ask_about(&rt, rt.alloc(), &mut chance, plan, 12);
    }
}

// The ends of the line are some hundred links apart.
#[test]
fn chains_along_a_line(rt: HostRuntime) {
    for fillers in &[0, 1, 2, 4, 8, 16, 32] {
        let mut chance = Chance::new(2027);
        let plan = Plan::line(200, *fillers);
        ask_about(&rt, rt.alloc(), &mut chance, plan, 8);
    }
}
