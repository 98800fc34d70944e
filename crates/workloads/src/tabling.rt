//! Tables of all pairs are made and read.
use crate::chance::Chance;
use crate::digest::Digest;
use crate::fault::Fault;
use crate::plans::{Edges, Labels, Plan};
use crate::sizes::Size;
use crate::texts::{graph, names};
use std::alloc::{AllocError, Global};
use std::thread::Threads;
use tg_analysis::{OpenGate, PairTable, pair_table};
use tg_graph::{Graph, Right};

// The digit of a cell, and a dash for none.
fn digit(table: &PairTable, i: usize, j: usize) -> u8 {
    match table.cell(i, j) {
        Some(true) => b'1',
        Some(false) => b'0',
        None => b'-',
    }
}

// Writes the digits of a row.
fn append_row(text: &mut Vec<u8>, table: &PairTable, i: usize) -> Result<(), AllocError> {
    for j in 0..table.len() {
        text.push(digit(table, i, j))?;
    }
    text.push(b'\n')?;
    Ok(())
}

// Makes a table, and reads it row by row.
fn read_table<R: Threads + Sync>(
    rt: &R,
    alloc: Global,
    graph: &Graph,
    right: Right,
    workers: u64,
    digest: &mut Digest,
) -> Result<(), Fault> {
    let Ok(table) = pair_table(rt, alloc, graph, right, workers, &OpenGate) else {
        return Err(Fault::Refused);
    };
    let mut text = Vec::new(alloc);
    for i in 0..table.len() {
        text.clear();
        append_row(&mut text, &table, i)?;
        digest.add_bytes(&text);
    }
    Ok(())
}

// The tables of three rights, by one, four and sixteen workers.
fn read_tables<R: Threads + Sync>(
    rt: &R,
    alloc: Global,
    plan: &Plan,
    chance: &mut Chance,
    digest: &mut Digest,
) -> Result<(), Fault> {
    let names = names(alloc, plan)?;
    let graph = graph(alloc, plan, &names, chance)?;
    read_table(rt, alloc, &graph, Right::R, 1, digest)?;
    read_table(rt, alloc, &graph, Right::T, 4, digest)?;
    read_table(rt, alloc, &graph, Right::E, 16, digest)?;
    Ok(())
}

/// Tables of each kind of graph.
pub(crate) fn table<R: Threads + Sync>(
    rt: &R,
    alloc: Global,
    size: &Size,
    chance: &mut Chance,
    digest: &mut Digest,
) -> Result<(), Fault> {
    let one_island = Plan::scattered(size.many, 16, Labels::One);
    let groups = Plan::scattered(size.many, 4, Labels::Several).with_edges(Edges::InGroups);
    let apart = Plan::scattered(size.many, 16, Labels::Inert);
    let dense = Plan::scattered(size.vertices, size.vertices / 4, Labels::One);
    for plan in &[one_island, groups, apart, dense] {
        read_tables(rt, alloc, plan, chance, digest)?;
    }
    Ok(())
}
