// Each test passes whichever one request for memory is refused, which `make refusals` tries. Where a
// call was refused memory, its second try has it.
ghost use Rattle.tg_names.specs.Sets.{IsNamed};
ghost use Rattle.tg_index.specs.ByTarget.{IsIndexOf};

use crate::case_tests::{Kind, found};
use crate::test_answers::{
    all_derived, assert_numbers, assert_table, derived, islands_of, reach_of, shares, shares_all,
    table_of, who_can,
};
use bitflags::Flags;
use std::alloc::{AllocError, Global};
use std::process::Abort;
use std::test::Fail;
use std::thread::Threads;
use tg_analysis::{AskFault, Case, Islands, OpenGate, PairTable, SharingIndex, TableFault};
use tg_graph::{EdgeFault, Graph, Name, Right, Rights, VertexFault};

fn added(graph: &mut Graph, name: Name) -> Result<(), VertexFault> {
    match graph.add_vertex(name) {
        Err(VertexFault::Memory) => graph.add_vertex(name),
        outcome => outcome,
    }
}

fn joined(graph: &mut Graph, x: Name, y: Name, rights: Rights) -> Result<(), EdgeFault>
    requires { IsNamed rights }
{
    match graph.add_edge(x, y, rights) {
        Err(EdgeFault::Memory) => graph.add_edge(x, y, rights),
        outcome => outcome,
    }
}

// The graph with so many vertices, _0, _1 and so on, and no edge.
fn numbered(alloc: Global, count: u32) -> Result<Graph, Fail> {
    let mut graph = Graph::new(alloc);
    for number in 0..count {
        added(&mut graph, Name::helper(number))?;
    }
    Ok(graph)
}

/// _0 has g over _1, and _1 has r over _2.
pub(crate) fn three(alloc: Global) -> Result<Graph, Fail> {
    let mut graph = numbered(alloc, 3)?;
    let (x, y, z) = (Name::helper(0), Name::helper(1), Name::helper(2));
    joined(&mut graph, x, y, Rights::of(Right::G))?;
    joined(&mut graph, y, z, Rights::of(Right::R))?;
    Ok(graph)
}

// How many vertices `hub` has.
const HUB_SIZE: u32 = 11;

// The hub _1 has more neighbours than stand in a value: _2 to _10 have t over it. Those of _0 come last:
// _10 has t over _0 as well. _3 has r over _2.
fn hub(alloc: Global) -> Result<Graph, Fail> {
    let mut graph = numbered(alloc, HUB_SIZE)?;
    let take = Rights::of(Right::T);
    for number in 2..HUB_SIZE {
        joined(&mut graph, Name::helper(number), Name::helper(1), take)?;
    }
    joined(&mut graph, Name::helper(10), Name::helper(0), take)?;
    joined(
        &mut graph,
        Name::helper(3),
        Name::helper(2),
        Rights::of(Right::R),
    )?;
    Ok(graph)
}

// Adds w from a vertex over each to which it has no edge.
fn fill_row(graph: &mut Graph, x: Name) {
    for number in 0..HUB_SIZE {
        let _ = joined(graph, x, Name::helper(number), Rights::of(Right::W));
    }
}

// The same with many edges a vertex.
fn wide_hub(alloc: Global) -> Result<Graph, Fail> {
    let mut graph = hub(alloc)?;
    for number in 0..HUB_SIZE {
        fill_row(&mut graph, Name::helper(number));
    }
    Ok(graph)
}

fn islands_again(alloc: Global, graph: &Graph) -> Result<Islands, AllocError> {
    match islands_of(alloc, graph) {
        Err(AllocError) => islands_of(alloc, graph),
        outcome => outcome,
    }
}

#[test]
fn refused_islands(rt: HostRuntime) -> Result<(), Fail> {
    let graph = three(rt.alloc())?;
    let islands = islands_again(rt.alloc(), &graph)?;
    assert_numbers(&rt, &islands, 2, &[0, 0, 1]);
    Ok(())
}

#[test]
fn refused_islands_of_a_hub(rt: HostRuntime) -> Result<(), Fail> {
    let graph = hub(rt.alloc())?;
    let islands = islands_again(rt.alloc(), &graph)?;
    assert_numbers(&rt, &islands, 1, &[0; 11]);
    Ok(())
}

// Whether _0 can come to have the right over _2.
fn shared(alloc: Global, graph: &Graph, right: Right) -> Result<bool, AskFault> {
    let (x, y) = (Name::helper(0), Name::helper(2));
    match shares(alloc, graph, right, x, y) {
        Err(AskFault::Memory) => shares(alloc, graph, right, x, y),
        outcome => outcome,
    }
}

// Whether it can come to have each right of the set.
fn shared_all(alloc: Global, graph: &Graph, rights: Rights) -> Result<bool, AskFault> {
    let (x, y) = (Name::helper(0), Name::helper(2));
    match shares_all(alloc, graph, rights, x, y) {
        Err(AskFault::Memory) => shares_all(alloc, graph, rights, x, y),
        outcome => outcome,
    }
}

// Who can come to have r over _2.
fn who_again(alloc: Global, graph: &Graph) -> Result<Vec<bool>, AskFault> {
    match who_can(alloc, graph, Rights::READ, Name::helper(2)) {
        Err(AskFault::Memory) => who_can(alloc, graph, Rights::READ, Name::helper(2)),
        outcome => outcome,
    }
}

// Which rights _0 can come to have.
fn reach_again(alloc: Global, graph: &Graph) -> Result<Vec<Rights>, AskFault> {
    match reach_of(alloc, graph, Name::helper(0)) {
        Err(AskFault::Memory) => reach_of(alloc, graph, Name::helper(0)),
        outcome => outcome,
    }
}

// By how many rules x comes to have it.
fn rule_count(
    alloc: Global,
    graph: &Graph,
    right: Right,
    x: Name,
) -> Result<Option<usize>, AskFault> {
    let rules = derived(alloc, graph, right, x, Name::helper(2))?;
    Ok(rules.map(|rules| rules.len()))
}

fn rule_count_again(
    alloc: Global,
    graph: &Graph,
    right: Right,
    x: Name,
) -> Result<Option<usize>, AskFault> {
    match rule_count(alloc, graph, right, x) {
        Err(AskFault::Memory) => rule_count(alloc, graph, right, x),
        outcome => outcome,
    }
}

#[test]
fn refused_questions(rt: HostRuntime) -> Result<(), Fail> {
    let graph = three(rt.alloc())?;
    assert!(rt; shared(rt.alloc(), &graph, Right::R) == Ok(true));
    assert!(rt; shared_all(rt.alloc(), &graph, Rights::READ) == Ok(true));
    assert!(rt; rule_count_again(rt.alloc(), &graph, Right::R, Name::helper(0)) == Ok(Some(4)));
    Ok(())
}

#[test]
fn refused_lists(rt: HostRuntime) -> Result<(), Fail> {
    let graph = three(rt.alloc())?;
    let marks = who_again(rt.alloc(), &graph)?;
    assert!(rt; marks.as_slice() == [true, true, false].as_slice());
    let sets = reach_again(rt.alloc(), &graph)?;
    assert!(rt; sets.as_slice() == [Rights::empty(), Rights::GRANT, Rights::READ].as_slice());
    Ok(())
}

#[test]
fn refused_lists_at_a_hub(rt: HostRuntime) -> Result<(), Fail> {
    let graph = hub(rt.alloc())?;
    let marks = who_again(rt.alloc(), &graph)?;
    assert!(rt; marks.as_slice() == [true; 11].as_slice());
    let sets = reach_again(rt.alloc(), &graph)?;
    let (take, read) = (Rights::TAKE, Rights::READ);
    assert!(rt; sets.len() == 11 && sets.as_slice().starts_with(&[take, take, read]));
    assert!(rt; sets.iter().skip(3).all(|rights| rights.is_empty()));
    Ok(())
}

// Want of memory is no answer: nobody has w.
#[test]
fn refused_questions_with_a_no(rt: HostRuntime) -> Result<(), Fail> {
    let graph = three(rt.alloc())?;
    assert!(rt; shared(rt.alloc(), &graph, Right::W) == Ok(false));
    assert!(rt; shared_all(rt.alloc(), &graph, Rights::READ.union(Rights::WRITE)) == Ok(false));
    assert!(rt; rule_count_again(rt.alloc(), &graph, Right::W, Name::helper(0)) == Ok(None));
    Ok(())
}

#[test]
fn refused_questions_at_a_hub(rt: HostRuntime) -> Result<(), Fail> {
    let graph = hub(rt.alloc())?;
    assert!(rt; shared(rt.alloc(), &graph, Right::R) == Ok(true));
    assert!(rt; shared(rt.alloc(), &graph, Right::W) == Ok(false));
    assert!(rt; shared_all(rt.alloc(), &graph, Rights::READ) == Ok(true));
    Ok(())
}

// The hub comes to have it by four rules from _3, which has t over the hub, _10 by one rule more, and _0,
// over which _10 has t, by four more.
#[test]
fn refused_derivations_at_a_hub(rt: HostRuntime) -> Result<(), Fail> {
    let graph = hub(rt.alloc())?;
    let x = Name::helper(0);
    assert!(rt; rule_count_again(rt.alloc(), &graph, Right::R, x) == Ok(Some(9)));
    assert!(rt; rule_count_again(rt.alloc(), &graph, Right::W, x) == Ok(None));
    Ok(())
}

// The same of the hub alone, where few edges link.
#[test]
fn refused_derivation_at_a_wide_hub(rt: HostRuntime) -> Result<(), Fail> {
    let graph = wide_hub(rt.alloc())?;
    let x = Name::helper(1);
    assert!(rt; rule_count_again(rt.alloc(), &graph, Right::R, x) == Ok(Some(4)));
    Ok(())
}

// Whether _0 can come to have the right over _2, by an index that is kept.
fn indexed(
    alloc: Global,
    index: &mut SharingIndex,
    graph: &Graph,
    right: Right,
) -> Result<bool, AskFault>
    requires { IsIndexOf graph.now index.old }
    ensures { IsIndexOf graph.now index.new }
{
    let (x, y) = (Name::helper(0), Name::helper(2));
    match index.can_share(alloc, graph, right, x, y) {
        Err(AskFault::Memory) => index.can_share(alloc, graph, right, x, y),
        outcome => outcome,
    }
}

// The first question searches, the second finds the islands, and the third lists the edges.
#[test]
fn refused_an_index(rt: HostRuntime) -> Result<(), Fail> {
    let graph = three(rt.alloc())?;
    let mut index = SharingIndex::new();
    assert!(rt; indexed(rt.alloc(), &mut index, &graph, Right::W) == Ok(false));
    assert!(rt; indexed(rt.alloc(), &mut index, &graph, Right::R) == Ok(true));
    assert!(rt; indexed(rt.alloc(), &mut index, &graph, Right::W) == Ok(false));
    assert!(rt; indexed(rt.alloc(), &mut index, &graph, Right::R) == Ok(true));
    assert!(rt; indexed(rt.alloc(), &mut index, &graph, Right::W) == Ok(false));
    Ok(())
}

// The same questions at a hub.
#[test]
fn refused_an_index_of_a_hub(rt: HostRuntime) -> Result<(), Fail> {
    let graph = hub(rt.alloc())?;
    let mut index = SharingIndex::new();
    assert!(rt; indexed(rt.alloc(), &mut index, &graph, Right::W) == Ok(false));
    assert!(rt; indexed(rt.alloc(), &mut index, &graph, Right::R) == Ok(true));
    assert!(rt; indexed(rt.alloc(), &mut index, &graph, Right::W) == Ok(false));
    Ok(())
}

// By how many rules _0 comes to have all rights of a set over y.
fn set_count(
    alloc: Global,
    graph: &Graph,
    rights: Rights,
    y: Name,
) -> Result<Option<usize>, AskFault> {
    let rules = all_derived(alloc, graph, rights, Name::helper(0), y)?;
    Ok(rules.map(|rules| rules.len()))
}

fn set_count_again(
    alloc: Global,
    graph: &Graph,
    rights: Rights,
    y: Name,
) -> Result<Option<usize>, AskFault> {
    match set_count(alloc, graph, rights, y) {
        Err(AskFault::Memory) => set_count(alloc, graph, rights, y),
        outcome => outcome,
    }
}

// _0 has g over _1, and _1 has r and w over itself: four rules for each of the two.
#[test]
fn refused_sets(rt: HostRuntime) -> Result<(), Fail> {
    let mut graph = three(rt.alloc())?;
    let y = Name::helper(1);
    let both = Rights::of(Right::R).union(Rights::of(Right::W));
    joined(&mut graph, y, y, both)?;
    let all = both.union(Rights::of(Right::G));
    assert!(rt; set_count_again(rt.alloc(), &graph, all, y) == Ok(Some(8)));
    let more = all.union(Rights::of(Right::E));
    assert!(rt; set_count_again(rt.alloc(), &graph, more, y) == Ok(None));
    Ok(())
}

#[test]
fn refused_sets_at_a_hub(rt: HostRuntime) -> Result<(), Fail> {
    let graph = hub(rt.alloc())?;
    let count = set_count_again(rt.alloc(), &graph, Rights::READ, Name::helper(2));
    assert!(rt; count == Ok(Some(9)));
    Ok(())
}

// Who can come to have r over whom, by two workers.
fn table_again<R: Threads + Sync>(
    rt: &R,
    alloc: Global,
    graph: &Graph,
) -> Result<PairTable, TableFault> {
    match table_of(rt, alloc, graph, 2, &OpenGate) {
        Err(TableFault::Memory) => table_of(rt, alloc, graph, 2, &OpenGate),
        outcome => outcome,
    }
}

#[test]
fn refused_table(rt: HostRuntime) -> Result<(), Fail> {
    let graph = three(rt.alloc())?;
    let table = table_again(&rt, rt.alloc(), &graph)?;
    assert_table(&rt, &table, &[b"001", b"001", b"000"]);
    Ok(())
}

// The row of each vertex in the table of a hub.
const HUB_ROW: &[u8] = b"00100000000";

#[test]
fn refused_table_of_a_hub(rt: HostRuntime) -> Result<(), Fail> {
    let graph = hub(rt.alloc())?;
    let table = table_again(&rt, rt.alloc(), &graph)?;
    assert_table(&rt, &table, &[HUB_ROW; 11]);
    Ok(())
}

// The first case of r for names, or for those beyond the other ones.
fn found_again(
    rt: &impl Abort,
    alloc: Global,
    graph: &Graph,
    kind: Kind,
    names: &[Name],
    other: &[Name],
) -> Result<Option<Case>, AllocError> {
    match found(rt, alloc, graph, names, kind, Rights::READ, names, other) {
        Err(AllocError) => found(rt, alloc, graph, names, kind, Rights::READ, names, other),
        outcome => outcome,
    }
}

// _0 and _1 alone can come to have r over _2, and nobody over another of the three.
fn assert_cases(rt: &impl Abort, alloc: Global, graph: &Graph) {
    let (x, y, z) = (Name::helper(0), Name::helper(1), Name::helper(2));
    let right = Right::R;
    let names = [x, y, z];
    let shared = found_again(rt, alloc, graph, Kind::Shared, &names, &names);
    assert!(rt; shared == Ok(Some(Case { right, x, y: z })));
    let unshared = found_again(rt, alloc, graph, Kind::Unshared, &names, &names);
    assert!(rt; unshared == Ok(Some(Case { right, x, y: x })));
    let beyond = found_again(rt, alloc, graph, Kind::Beyond, &names, &[x]);
    assert!(rt; beyond == Ok(Some(Case { right, x: y, y: z })));
}

#[test]
fn refused_cases(rt: HostRuntime) -> Result<(), Fail> {
    let graph = three(rt.alloc())?;
    assert_cases(&rt, rt.alloc(), &graph);
    Ok(())
}

// At the hub _2 can come to have it as well, which is none of the first cases.
#[test]
fn refused_cases_at_a_hub(rt: HostRuntime) -> Result<(), Fail> {
    let graph = hub(rt.alloc())?;
    assert_cases(&rt, rt.alloc(), &graph);
    Ok(())
}
