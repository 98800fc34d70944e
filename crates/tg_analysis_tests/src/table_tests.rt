use crate::test_answers::{assert_no_table, assert_tabled, table_of};
use crate::test_graphs::{graph, most_vertices, numbered};
use std::alloc::Global;
use std::process::Abort;
use std::sync::atomic::{AtomicU64, Ordering};
use std::test::Fail;
use std::thread;
use std::thread::Threads;
use tg_analysis::{Gate, OpenGate, PairTable, TableFault};
use tg_graph::Graph;

fn five(rt: &impl Abort, alloc: Global) -> Graph {
    graph(rt, alloc, "a b c d e", "a b t, b c r, d e g, e a r")
}

// The rows of its table for read.
const FIVE_ROWS: [&[u8]; 5] = [b"00100", b"00100", b"00000", b"10000", b"10000"];

// More vertices than a text may have.
#[test]
fn too_large(rt: HostRuntime) {
    let g = numbered(&rt, rt.alloc(), 4097);
    assert_no_table(&rt, rt.alloc(), &g, 1, TableFault::TooLarge);
}

fn assert_cells(rt: &impl Abort, table: &PairTable, cells: &[(usize, usize)], yes: bool) {
    for (i, j) in cells {
        assert!(rt; table.cell(*i, *j) == Some(yes));
    }
}

// The first and the last of so many vertices are in one island, and share what they hold.
#[test]
fn a_table_of_most_vertices(rt: HostRuntime) -> Result<(), Fail> {
    let edges = "_4095 _0 g, _0 _3000 r, _2000 _4095 r";
    let g = most_vertices(&rt, rt.alloc(), edges);
    let table = table_of(&rt, rt.alloc(), &g, 2, &OpenGate)?;
    assert!(rt; table.len() == 4096 && table.cell(4095, 4096).is_none());
    assert_cells(&rt, &table, &[(0, 3000), (4095, 3000), (2000, 4095)], true);
    assert_cells(&rt, &table, &[(4095, 4095), (4095, 0), (1999, 4095)], false);
    Ok(())
}

// How often a block looks whether the others have entered: minutes, where the machine is busy.
const MOST_LOOKS: u64 = 100_000_000;

// Holds each block until so many have entered. Once one has waited too long, none waits any more.
#[derive(Drop)]
struct Meeting {
    wanted: u64,
    entered: AtomicU64,
    missed: AtomicU64,
}

impl Meeting {
    fn is_over(&self) -> bool {
        self.entered.load(Ordering::SeqCst) >= self.wanted || self.missed.load(Ordering::SeqCst) > 0
    }
}

impl Gate for Meeting {
    fn enter(&self, _block: usize) {
        self.entered.fetch_add(1, Ordering::SeqCst);
        for _ in 0..MOST_LOOKS {
            if self.is_over() {
                return;
            }
            thread::yield_now();
        }
        self.missed.fetch_add(1, Ordering::SeqCst);
    }
}

// All blocks stand in the gate at the same time.
fn all_meet<R: Threads + Abort + Sync>(rt: &R, alloc: Global, graph: &Graph, workers: u64) {
    let meeting = Meeting {
        wanted: workers,
        entered: AtomicU64::new(0),
        missed: AtomicU64::new(0),
    };
    assert_tabled(rt, alloc, graph, workers, &meeting, &FIVE_ROWS);
    assert!(rt; meeting.entered.load(Ordering::SeqCst) == workers);
    assert!(rt; meeting.missed.load(Ordering::SeqCst) == 0);
}

#[test]
fn gate(rt: HostRuntime) {
    let g = five(&rt, rt.alloc());
    for workers in [2, 3, 16] {
        all_meet(&rt, rt.alloc(), &g, workers);
    }
}

// Counts how often each of 16 blocks enters, in a hexadecimal digit for each.
#[derive(Drop)]
struct Turnstile {
    counts: AtomicU64,
}

impl Gate for Turnstile {
    fn enter(&self, block: usize) {
        if block < 16 {
            self.counts.fetch_add(1 << (4 * block), Ordering::SeqCst);
        }
    }
}

#[test]
fn each_block_enters_once(rt: HostRuntime) {
    let g = five(&rt, rt.alloc());
    let turnstile = Turnstile {
        counts: AtomicU64::new(0),
    };
    assert_tabled(&rt, rt.alloc(), &g, 16, &turnstile, &FIVE_ROWS);
    assert!(rt; turnstile.counts.load(Ordering::SeqCst) == 0x1111_1111_1111_1111);
}
