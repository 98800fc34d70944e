//! The table of all pairs: who can come to hold a right over whom.
ghost use Rattle.std.specs.Prelude.{◌≡◌, ◌<◌, ◌≤◌, IfOk, IfErr, OnOk, None, length};
ghost use Rattle.tg_graph.specs.GraphOf.{graph_of};
ghost use Rattle.tg_graph.specs.Limits.{most_vertices, most_workers};
ghost use Rattle.tg_analysis.specs.Tables.{table_len, table_cell, IsPairTable, table_fault, IsDueTableFault};

use crate::blocks::gather_all;
use crate::gates::Gate;
use crate::holdings::Holdings;
use crate::laws;
use crate::table_faults::TableFault;
use std::alloc::{AllocError, Global};
use std::marker::Model;
use std::thread::Threads;
use tg_graph::{Graph, MOST_VERTICES, MOST_WORKERS, Right};
use tg_islands::Islands;

/// The table of all pairs of vertices, by position: whether the first can come to hold the right
/// over the second.
///
/// The vertices of an island share one row.
#[derive(Drop)]
pub struct PairTable {
    islands: Islands,
    held: Holdings,
}

impl Model for PairTable {
    ghost use Rattle.tg_analysis.specs.Tables.{Table};
    ghost use Rattle.std.specs.Prelude.{length};
    ghost use Rattle.tg_islands.specs.Numbering.{AreCounted};

    ghost Value = { Table };

    ghost view = { λ t. record { numbers = t.islands; held = t.held } };

    ghost invariant = { λ t. AreCounted t.islands (length t.held) };
}

impl PairTable {
    /// How many vertices there are.
    pub fn len(&self) -> usize
        ensures { result ≡ table_len self.now }
    {
        self.islands.len()
    }

    /// Whether the vertex at position i can come to hold the right over the one at position j;
    /// `None` outside the table.
    pub fn cell(&self, i: usize, j: usize) -> Option<bool>
        ensures { result ≡ table_cell self.now i j }
    {
        if j >= self.len() {
            return None;
        }
        let number = self.islands.of(i)?;
        Some(self.held.has(number, j))
    }
}

// The table, by so many workers.
fn compute<R: Threads + Sync, G: Gate>(
    rt: &R,
    alloc: Global,
    graph: &Graph,
    right: Right,
    workers: usize,
    gate: &G,
) -> Result<PairTable, AllocError>
    requires small { length graph.now ≤ most_vertices }
    requires some { 0 < workers }
    requires few { workers ≤ most_workers }
    ensures { IfOk result (λ table. IsPairTable (graph_of graph.now) right table) }
{
    laws::shared_exactly();
    let _ = graph.len();
    let islands = tg_islands::islands(alloc, graph)?;
    let held = gather_all(rt, alloc, graph, &islands, right, workers, gate)?;
    Ok(PairTable { islands, held })
}

/// The table of a right over all pairs of vertices. The islands are found once, and so many workers
/// gather what they hold.
///
/// With n vertices and w workers, block b has the rows from b * n / w up to (b + 1) * n / w, that
/// end excluded. Its worker passes the gate once and then gathers what the vertices of these rows
/// hold, for each island together. Where no worker can be started, the caller does the block. The
/// table is the same for every number of workers.
///
/// # Errors
/// - `Workers`: the number of workers is not 1 to 16.
/// - `TooLarge`: the graph has more than `MOST_VERTICES` vertices.
/// - `Memory`: there was no memory, here or in a worker; all workers have ended by then.
pub fn pair_table<R: Threads + Sync, G: Gate>(
    rt: &R,
    alloc: Global,
    graph: &Graph,
    right: Right,
    workers: u64,
    gate: &G,
) -> Result<PairTable, TableFault>
    ensures due { OnOk result (table_fault (graph_of graph.now) workers ≡ None) }
    ensures table { IfOk result (λ table. IsPairTable (graph_of graph.now) right table) }
    ensures fault { IfErr result (IsDueTableFault (table_fault (graph_of graph.now) workers)) }
{
    if workers == 0 || workers > MOST_WORKERS {
        return Err(TableFault::Workers);
    }
    if graph.len() > MOST_VERTICES {
        return Err(TableFault::TooLarge);
    }
    let table = compute(rt, alloc, graph, right, workers as usize, gate)?;
    Ok(table)
}
