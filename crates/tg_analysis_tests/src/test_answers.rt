//! Assertions of what islands, tables and questions answer. They tell nothing of what they saw, so
//! the check of a test that makes many of them stays short.
use std::alloc::{AllocError, Global};
use std::process::Abort;
use std::thread::Threads;
use tg_analysis::{
    AskFault, Gate, Islands, OpenGate, PairTable, TableFault, can_share, can_share_all, derivation,
    derivation_all, islands, pair_table, reach, who,
};
use tg_graph::{Graph, Name, Right, Rights, Rule};
use tg_graph_laws::accepted_rules_are_run;

/// The islands.
pub(crate) fn islands_of(alloc: Global, graph: &Graph) -> Result<Islands, AllocError> {
    islands(alloc, graph)
}

/// Whether x can come to have the right over y.
pub(crate) fn shares(
    alloc: Global,
    graph: &Graph,
    right: Right,
    x: Name,
    y: Name,
) -> Result<bool, AskFault> {
    can_share(alloc, graph, right, x, y)
}

/// Whether x can come to have each right of the set over y.
pub(crate) fn shares_all(
    alloc: Global,
    graph: &Graph,
    rights: Rights,
    x: Name,
    y: Name,
) -> Result<bool, AskFault> {
    can_share_all(alloc, graph, rights, x, y)
}

/// Who can come to have each right of the set over y.
pub(crate) fn who_can(
    alloc: Global,
    graph: &Graph,
    rights: Rights,
    y: Name,
) -> Result<Vec<bool>, AskFault> {
    who(alloc, graph, rights, y)
}

/// Which rights x can come to have over each vertex.
pub(crate) fn reach_of(alloc: Global, graph: &Graph, x: Name) -> Result<Vec<Rights>, AskFault> {
    reach(alloc, graph, x)
}

/// By which rules, if by any.
pub(crate) fn derived(
    alloc: Global,
    graph: &Graph,
    right: Right,
    x: Name,
    y: Name,
) -> Result<Option<Vec<Rule>>, AskFault> {
    derivation(alloc, graph, right, x, y)
}

/// By which rules for each right of a set, if by any.
pub(crate) fn all_derived(
    alloc: Global,
    graph: &Graph,
    rights: Rights,
    x: Name,
    y: Name,
) -> Result<Option<Vec<Rule>>, AskFault> {
    derivation_all(alloc, graph, rights, x, y)
}

/// Carries out the rules for each right of a set, and says how many they are.
pub(crate) fn carry_out_all(
    rt: &impl Abort,
    alloc: Global,
    graph: &mut Graph,
    rights: Rights,
    x: Name,
    y: Name,
) -> usize {
    accepted_rules_are_run();
    match derivation_all(alloc, graph, rights, x, y) {
        Ok(Some(rules)) => {
            assert!(rt; graph.run(rules.as_slice()).is_ok());
            rules.len()
        }
        _ => panic!(rt; "a derivation"),
    }
}

/// Who can come to have r over whom.
pub(crate) fn table_of<R: Threads + Sync, G: Gate>(
    rt: &R,
    alloc: Global,
    graph: &Graph,
    workers: u64,
    gate: &G,
) -> Result<PairTable, TableFault> {
    pair_table(rt, alloc, graph, Right::R, workers, gate)
}

/// There are so many islands, and the positions have these numbers, and no others.
pub(crate) fn assert_numbers(rt: &impl Abort, islands: &Islands, count: usize, numbers: &[usize]) {
    assert!(rt; islands.count() == count);
    for (position, number) in numbers.iter().enumerate() {
        assert!(rt; islands.of(position) == Some(*number));
    }
    assert!(rt; islands.of(numbers.len()).is_none());
}

// The row at a position has these cells and no more.
fn assert_row(rt: &impl Abort, table: &PairTable, i: usize, cells: &[u8]) {
    for (j, cell) in cells.iter().enumerate() {
        assert!(rt; table.cell(i, j) == Some(*cell == b'1'));
    }
    assert!(rt; table.cell(i, cells.len()).is_none());
}

/// The table has these rows, of cells as 0 and 1, and no more.
pub(crate) fn assert_table(rt: &impl Abort, table: &PairTable, rows: &[&[u8]]) {
    assert!(rt; table.len() == rows.len());
    for (i, cells) in rows.iter().enumerate() {
        assert_row(rt, table, i, cells);
    }
    assert!(rt; table.cell(rows.len(), 0).is_none());
}

/// There is a table, and it has these rows.
pub(crate) fn assert_tabled<R: Threads + Abort + Sync, G: Gate>(
    rt: &R,
    alloc: Global,
    graph: &Graph,
    workers: u64,
    gate: &G,
    rows: &[&[u8]],
) {
    match table_of(rt, alloc, graph, workers, gate) {
        Ok(table) => assert_table(rt, &table, rows),
        Err(_) => panic!(rt; "a table"),
    }
}

/// There is none, for this reason.
pub(crate) fn assert_no_table<R: Threads + Abort + Sync>(
    rt: &R,
    alloc: Global,
    graph: &Graph,
    workers: u64,
    fault: TableFault,
) {
    assert!(rt; table_of(rt, alloc, graph, workers, &OpenGate).err() == Some(fault));
}
