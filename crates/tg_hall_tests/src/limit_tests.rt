// Where there is no room: no hall, and no place beside a record.
use crate::test_halls::events;
use std::alloc::Global;
use std::process;
use std::test::Fail;
use tg_graph::Graph;
use tg_graph_trials::numbered;
use tg_hall::{Hall, StoreFault};
use tg_hall_trials::Deed::{Begin, Create, Learn, PutOnce};
use tg_hall_trials::Word::{Crowded, Did, Done, Put};

// There is no such hall over the graph, for this fault.
fn refused(
    rt: &impl process::Abort,
    alloc: Global,
    graph: &Graph,
    cells: usize,
    seats: u32,
    fault: StoreFault,
) {
    assert!(rt; Hall::new(alloc, graph, cells, seats).err() == Some(fault));
}

#[test]
fn limits(rt: HostRuntime) {
    let alloc = rt.alloc();
    let g = Graph::new(alloc);
    refused(&rt, alloc, &g, 0, 1, StoreFault::Cells);
    refused(&rt, alloc, &g, 4097, 1, StoreFault::Cells);
    refused(&rt, alloc, &g, 1, 0, StoreFault::Seats);
    refused(&rt, alloc, &g, 1, 65, StoreFault::Seats);
    let g = numbered(alloc, 4097).expect(&rt, "a graph");
    refused(&rt, alloc, &g, 1, 1, StoreFault::TooManyVertices);
}

// There is room for one vertex more. A record that crowds a session ends it when it is learnt.
#[test]
fn crowded_by_a_record_that_is_learnt(rt: HostRuntime) -> Result<(), Fail> {
    let g = numbered(rt.alloc(), 4095).expect(&rt, "a graph");
    let mut hall = Hall::new(rt.alloc(), &g, 8, 2)?;
    let rows = [
        (1, Begin, Done),
        (2, Begin, Done),
        (1, Create(*b"0p", b"-"), Did),
        (2, Create(*b"1q", b"-"), Did),
        (1, PutOnce, Put(0)),
        (2, Learn, Crowded(0)),
    ];
    events(&rt, &mut hall, &rows);
    Ok(())
}
