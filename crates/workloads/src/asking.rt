//! One graph is asked many questions.
use crate::chance::Chance;
use crate::digest::Digest;
use crate::fault::Fault;
use crate::plans::{Edges, Labels, Plan, Spelling};
use crate::sizes::Size;
use crate::texts::{any, graph, names};
use std::alloc::Global;
use tg_analysis::{AskFault, can_share, can_share_all, derivation, derivation_all};
use tg_graph::{Graph, Name, Right, Rights, Rule};

// Any right.
fn right(chance: &mut Chance) -> Right {
    let rights = [Right::T, Right::G, Right::R, Right::W, Right::E];
    chance.one_of(&rights, Right::R)
}

// Takes an answer in.
fn add_answer(digest: &mut Digest, answer: Result<bool, AskFault>) -> Result<(), Fault> {
    match answer {
        Ok(said) => digest.add(u64::from(said)),
        Err(AskFault::Memory) => return Err(Fault::Memory),
        Err(_) => return Err(Fault::Refused),
    }
    Ok(())
}

// Takes rules in.
fn add_rules(digest: &mut Digest, rules: &[Rule]) {
    digest.add(3);
    digest.add(rules.len() as u64);
    for rule in rules {
        digest.add_rule(rule);
    }
}

// Takes a derivation in, if there is one.
fn add_derivation(
    digest: &mut Digest,
    answer: Result<Option<Vec<Rule>>, AskFault>,
) -> Result<(), Fault> {
    match answer {
        Ok(Some(rules)) => add_rules(digest, &rules),
        Ok(None) => digest.add(2),
        Err(AskFault::Memory) => return Err(Fault::Memory),
        Err(_) => return Err(Fault::Refused),
    }
    Ok(())
}

// Asks of two vertices whether one can come to have a right over the other, or two rights.
fn ask_pair(
    alloc: Global,
    graph: &Graph,
    names: &[Name],
    chance: &mut Chance,
    digest: &mut Digest,
) -> Result<(), Fault> {
    let x = any(names, chance);
    let y = any(names, chance);
    add_answer(digest, can_share(alloc, graph, right(chance), x, y))?;
    let x = any(names, chance);
    let y = any(names, chance);
    let both = Rights::of(right(chance)).union(Rights::of(right(chance)));
    add_answer(digest, can_share_all(alloc, graph, both, x, y))?;
    Ok(())
}

// Asks of two vertices how one can come to have a right over the other, or two rights.
fn derive_pair(
    alloc: Global,
    graph: &Graph,
    names: &[Name],
    chance: &mut Chance,
    digest: &mut Digest,
) -> Result<(), Fault> {
    let x = any(names, chance);
    let y = any(names, chance);
    add_derivation(digest, derivation(alloc, graph, right(chance), x, y))?;
    let x = any(names, chance);
    let y = any(names, chance);
    let both = Rights::of(right(chance)).union(Rights::of(right(chance)));
    add_derivation(digest, derivation_all(alloc, graph, both, x, y))?;
    Ok(())
}

// Asks a graph so many questions of each kind.
fn ask_graph(
    alloc: Global,
    plan: &Plan,
    pairs: usize,
    derived: usize,
    chance: &mut Chance,
    digest: &mut Digest,
) -> Result<(), Fault> {
    let names = names(alloc, plan)?;
    let graph = graph(alloc, plan, &names, chance)?;
    for _ in 0..pairs {
        ask_pair(alloc, &graph, &names, chance, digest)?;
    }
    for _ in 0..derived {
        derive_pair(alloc, &graph, &names, chance, digest)?;
    }
    Ok(())
}

/// Graphs of each kind.
pub(crate) fn ask(
    alloc: Global,
    size: &Size,
    chance: &mut Chance,
    digest: &mut Digest,
) -> Result<(), Fault> {
    let sparse = Plan::scattered(size.vertices, 4, Labels::Several);
    let large = Plan::scattered(size.many, 4, Labels::One);
    let groups = Plan::scattered(size.many, 4, Labels::One).with_edges(Edges::InGroups);
    let chain = Plan::scattered(size.many, 0, Labels::Links).with_edges(Edges::Chain);
    let dense = Plan::scattered(size.vertices, size.vertices / 8, Labels::One);
    let inert = Plan::scattered(size.vertices, 16, Labels::Inert);
    ask_graph(
        alloc,
        &sparse,
        size.part_of(1536),
        size.part_of(192),
        chance,
        digest,
    )?;
    ask_graph(
        alloc,
        &large,
        size.part_of(256),
        size.part_of(64),
        chance,
        digest,
    )?;
    ask_graph(
        alloc,
        &groups,
        size.part_of(256),
        size.part_of(64),
        chance,
        digest,
    )?;
    ask_graph(
        alloc,
        &chain,
        size.part_of(128),
        size.part_of(64),
        chance,
        digest,
    )?;
    ask_graph(
        alloc,
        &dense,
        size.part_of(256),
        size.part_of(64),
        chance,
        digest,
    )?;
    ask_graph(
        alloc,
        &inert.spelt(Spelling::Alike),
        size.part_of(512),
        size.part_of(64),
        chance,
        digest,
    )?;
    Ok(())
}
