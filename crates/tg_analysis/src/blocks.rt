//! Blocks of rows, each gathered by a worker of its own.
ghost use Rattle.std.specs.Prelude.{◌≡◌, ◌+◌, ◌<◌, ◌≤◌, IfOk, length, vec_len};
ghost use Rattle.tg_graph.specs.Limits.{most_vertices, most_workers};
ghost use Rattle.tg_analysis.specs.Gathered.{Gathers};
ghost use Rattle.tg_analysis.specs.Tables.{block_start, AreBlocks};

use crate::gates::Gate;
use crate::gathering::gather;
use crate::holdings::Holdings;
use std::alloc::{AllocError, Global};
use std::thread;
use std::thread::Threads;
use tg_graph::{Graph, Right};
use tg_islands::Islands;

// Where the rows of a block begin.
#[tactic(auto, using(crate::proofs::Blocked::product_fits))]
fn block_start(block: usize, workers: usize, count: usize) -> usize
    requires some { 0 < workers }
    requires within { block ≤ workers }
    requires few { workers ≤ most_workers }
    requires small { count ≤ most_vertices }
    ensures { result ≡ block_start block workers count }
{
    block * count / workers
}

// What the rows of a block say that islands hold, once the worker was let in.
#[tactic(auto, using(crate::proofs::Blocked::starts_rise))]
fn gather_block<G: Gate>(
    alloc: Global,
    graph: &Graph,
    islands: &Islands,
    right: Right,
    workers: usize,
    gate: &G,
    block: usize,
) -> Result<Holdings, AllocError>
    requires small { length graph.now ≤ most_vertices }
    requires few { workers ≤ most_workers }
    requires within { block < workers }
    ensures { IfOk result (λ held. Gathers graph.now islands.now right
        (block_start block workers (length graph.now)) (block_start (block + 1) workers (length graph.now)) held) }
{
    gate.enter(block);
    let count = graph.len();
    let first = block_start(block, workers, count);
    let last = block_start(block + 1, workers, count);
    gather(alloc, graph, islands, right, first, last)
}

// Each block by a worker of its own, or by the caller where no worker can be started.
fn gather_blocks<R: Threads + Sync, G: Gate>(
    rt: &R,
    alloc: Global,
    graph: &Graph,
    islands: &Islands,
    right: Right,
    workers: usize,
    gate: &G,
) -> Result<Vec<Result<Holdings, AllocError>>, AllocError>
    requires small { length graph.now ≤ most_vertices }
    requires few { workers ≤ most_workers }
    ensures len { IfOk result (λ blocks. vec_len blocks ≡ workers) }
    ensures each { IfOk result
        (λ blocks. AreBlocks graph.now islands.now right workers blocks.items) }
{
    thread::map_indices(
        rt,
        alloc,
        workers,
        &|block|
            requires { (length graph.now ≤ most_vertices) × (workers ≤ most_workers)
                × (block < workers) }
        { gather_block(alloc, graph, islands, right, workers, gate, block) },
    )
}

/// What islands hold by all edges, gathered by so many workers.
///
/// A worker's want of memory is answered after all workers have ended.
pub(crate) fn gather_all<R: Threads + Sync, G: Gate>(
    rt: &R,
    alloc: Global,
    graph: &Graph,
    islands: &Islands,
    right: Right,
    workers: usize,
    gate: &G,
) -> Result<Holdings, AllocError>
    requires small { length graph.now ≤ most_vertices }
    requires some { 0 < workers }
    requires few { workers ≤ most_workers }
    ensures { IfOk result (λ held. Gathers graph.now islands.now right 0 (length graph.now) held) }
{
    let mut blocks = gather_blocks(rt, alloc, graph, islands, right, workers, gate)?;
    let mut held = Holdings::none(alloc, islands.count())?;
    while let Some(block) = blocks.pop() {
        let more = block?;
        held.join(more)?;
    }
    Ok(held)
}
