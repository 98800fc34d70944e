// What seats do to one another at a store, one after another.
use std::alloc::Global;
use std::process;
use tg_graph::{Graph, MOST_VERTICES, Right};
use tg_graph_trials::{graph, name, numbered};
use tg_hall_trials::Deed::{Abort, Begin, Commit, Create, Holds, Share, Take};
use tg_hall_trials::Word::{Changed, Crowded, Did, Done, Full, No, Put, Unknown, Yes};
use tg_hall_trials::{Label, Row, shows};
use tg_store::{Store, StoreFault};
use tg_store_trials::{Desk, opened};

// The rows are played at a store of two seats and eight cells over the graph.
fn in_store(rt: &impl process::Abort, alloc: Global, graph: &Graph, rows: &[Row]) -> Desk {
    let Ok((store, one, two)) = opened(alloc, graph, 8) else {
        panic!(rt; "no store");
    };
    let mut desk = Desk::new(store, one, two);
    assert!(rt; desk.play(rows) == None);
    desk
}

// The free seat of the store has taken in so many records, and its graph has so many vertices, and
// these labels.
fn stands(
    rt: &impl process::Abort,
    desk: &Desk,
    number: u32,
    taken: usize,
    len: usize,
    labels: &[Label],
) {
    let seat = desk.seat(number).expect(rt, "a free seat");
    assert!(rt; seat.number() == number);
    assert!(rt; seat.taken() == taken);
    assert!(rt; shows(seat.graph(), len, labels));
}

// The seat that was refused begins again on what the other has done.
#[test]
fn a_row_that_was_read(rt: HostRuntime) {
    let g = graph(rt.alloc(), "a b c", "a b t, a c w, b a t, b c r").expect(&rt, "a graph");
    let rows = [
        (1, Begin, Done),
        (2, Begin, Done),
        (1, Take(*b"abc", b"r"), Did),
        (2, Take(*b"bac", b"w"), Did),
        (1, Commit, Put(0)),
        (2, Commit, Changed(0, b'a')),
        (2, Begin, Done),
        (2, Abort, Done),
    ];
    let labels: [Label; 2] = [(*b"ac", b"rw"), (*b"bc", b"r")];
    let desk = in_store(&rt, rt.alloc(), &g, &rows);
    stands(&rt, &desk, 1, 1, 3, &labels);
    stands(&rt, &desk, 2, 1, 3, &labels);
}

#[test]
fn a_name_that_was_no_vertex(rt: HostRuntime) {
    let g = graph(rt.alloc(), "a b c", "a b t").expect(&rt, "a graph");
    let rows = [
        (1, Begin, Done),
        (1, Take(*b"abn", b"r"), Unknown(b'n')),
        (2, Begin, Done),
        (2, Create(*b"cn", b"r"), Did),
        (2, Commit, Put(0)),
        (1, Commit, Changed(0, b'n')),
    ];
    let labels: [Label; 2] = [(*b"ab", b"t"), (*b"cn", b"r")];
    let desk = in_store(&rt, rt.alloc(), &g, &rows);
    stands(&rt, &desk, 1, 0, 3, &[(*b"ab", b"t")]);
    stands(&rt, &desk, 2, 1, 4, &labels);
}

#[test]
fn two_sessions_apart(rt: HostRuntime) {
    let g = graph(rt.alloc(), "a b c d", "a b t, b c r").expect(&rt, "a graph");
    let rows = [
        (1, Begin, Done),
        (2, Begin, Done),
        (1, Take(*b"abc", b"r"), Did),
        (2, Create(*b"dn", b"g"), Did),
        (2, Commit, Put(0)),
        (1, Commit, Put(1)),
    ];
    let labels: [Label; 2] = [(*b"ac", b"r"), (*b"dn", b"g")];
    let desk = in_store(&rt, rt.alloc(), &g, &rows);
    stands(&rt, &desk, 1, 2, 5, &labels);
    stands(&rt, &desk, 2, 1, 5, &[(*b"dn", b"g"), (*b"ac", b"-")]);
}

// A look finds what is there: without a front, a seat that begins takes in what another has put.
#[test]
fn questions_after_a_commit(rt: HostRuntime) {
    let g = graph(rt.alloc(), "a b c", "a b t, b c r").expect(&rt, "a graph");
    let rows = [
        (1, Begin, Done),
        (1, Take(*b"abc", b"r"), Did),
        (1, Commit, Put(0)),
        (2, Begin, Done),
        (2, Holds(Right::R, *b"ac"), Yes),
        (2, Share(Right::W, *b"ac"), No),
        (2, Commit, Put(1)),
    ];
    let labels: [Label; 1] = [(*b"ac", b"r")];
    let desk = in_store(&rt, rt.alloc(), &g, &rows);
    stands(&rt, &desk, 1, 1, 3, &labels);
    stands(&rt, &desk, 2, 2, 3, &labels);
}

// The seat of the number has taken in one record. Of p and q its graph has p, and no room for another.
fn has_p(rt: &impl process::Abort, desk: &Desk, number: u32) {
    let seat = desk.seat(number).expect(rt, "a free seat");
    assert!(rt; seat.taken() == 1);
    let graph = seat.graph();
    assert!(rt; graph.len() == MOST_VERTICES);
    assert!(rt; graph.knows(name("p").expect(rt, "a name")));
    assert!(rt; !graph.knows(name("q").expect(rt, "a name")));
}

// There is room for one vertex more, which the first seat's session takes. The second seat, which was crowded,
// begins again on what the first has done.
#[test]
fn full_graphs(rt: HostRuntime) {
    let g = numbered(rt.alloc(), 4095).expect(&rt, "a graph");
    let rows = [
        (1, Begin, Done),
        (2, Begin, Done),
        (1, Create(*b"0p", b"-"), Did),
        (2, Create(*b"1q", b"-"), Did),
        (2, Create(*b"1s", b"-"), Full),
        (1, Commit, Put(0)),
        (2, Commit, Crowded(0)),
    ];
    let mut desk = in_store(&rt, rt.alloc(), &g, &rows);
    stands(&rt, &desk, 2, 0, 4095, &[]);
    assert!(rt; desk.play(&[(2, Begin, Done), (2, Abort, Done)]) == None);
    has_p(&rt, &desk, 1);
    has_p(&rt, &desk, 2);
}

// There is no such store over the graph, for this fault.
fn refused(
    rt: &impl process::Abort,
    alloc: Global,
    graph: &Graph,
    cells: usize,
    seats: u32,
    fault: StoreFault,
) {
    assert!(rt; Store::start(alloc, graph, cells, seats).err() == Some(fault));
}

#[test]
fn limits(rt: HostRuntime) {
    let alloc = rt.alloc();
    let g = Graph::new(alloc);
    refused(&rt, alloc, &g, 0, 1, StoreFault::Cells);
    refused(&rt, alloc, &g, 4097, 1, StoreFault::Cells);
    refused(&rt, alloc, &g, 1, 0, StoreFault::Seats);
    refused(&rt, alloc, &g, 1, 65, StoreFault::Seats);
    let g = numbered(alloc, 4097).expect(&rt, "a graph");
    refused(&rt, alloc, &g, 1, 1, StoreFault::TooManyVertices);
}
