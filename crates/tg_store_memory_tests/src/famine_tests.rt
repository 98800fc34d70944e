// What a store does without memory. Each test passes when every request for memory from some one on
// is refused, which `make refusals` tries: it ends early or with an error where it can't be set up,
// and else everything is answered.
ghost use Rattle.tg_store.specs.Running.{IsOf};

use std::alloc::AllocError;
use std::process::Abort;
use std::test::Fail;
use tg_graph::{Graph, Right};
use tg_graph_trials::graph;
use tg_hall_trials::holds;
use tg_store::{Begun, Committed, Seat, Session, Store, StoreFault};
use tg_store_trials::{lonely, opened};

// A seat that has no record to take in opens a session.
fn begun(rt: &impl Abort, store: &Store, seat: Seat) -> Session
    requires { IsOf store.now seat }
    ensures { IsOf store.now result.seat }
{
    match store.begin(seat) {
        Begun::Session(session) => session,
        Begun::Refused(_, _) => panic!(rt; "no session"),
    }
}

// What a seat reads that has taken in so many records.
fn read(rt: &impl Abort, store: &Store, seat: &Seat, taken: usize)
    requires { IsOf store.now seat.now }
{
    assert!(rt; seat.number() == 1);
    assert!(rt; seat.taken() == taken);
    assert!(rt; seat.graph().len() == 3);
    assert!(rt; holds(seat.graph(), b'a', Right::T, b'b'));
    assert!(rt; store.at(seat, 0).is_some() == (taken == 1));
    assert!(rt; store.at(seat, 1).is_none());
}

#[test]
fn bare_begin(rt: HostRuntime) -> Result<(), Fail> {
    let g = graph(rt.alloc(), "a b c", "a b t, b c r").ok_or(AllocError)?;
    let (store, seat, _) = opened(rt.alloc(), &g, 4)?;
    read(&rt, &store, &seat, 0);
    let seat = begun(&rt, &store, seat).abort();
    read(&rt, &store, &seat, 0);
    assert!(rt; !store.agreed(&[]));
    Ok(())
}

// A seat that has put a session without steps agrees with itself, and begins again.
fn goes_on(rt: &impl Abort, store: &Store, seat: Seat)
    requires { IsOf store.now seat }
{
    read(rt, store, &seat, 1);
    let (seat, agreed) = lonely(store, seat);
    assert!(rt; agreed);
    let seat = begun(rt, store, seat).abort();
    read(rt, store, &seat, 1);
}

#[test]
fn a_record_read(rt: HostRuntime) -> Result<(), Fail> {
    let g = graph(rt.alloc(), "a b c", "a b t, b c r").ok_or(AllocError)?;
    let (store, seat, _) = opened(rt.alloc(), &g, 4)?;
    match store.commit(begun(&rt, &store, seat)) {
        Committed::Done(seat, _) => goes_on(&rt, &store, seat),
        // it was not set up
        Committed::Again(_) => {}
        Committed::Refused(_, _) => panic!(rt; "refused"),
    }
    Ok(())
}

// The other refusals come before that for want of memory.
#[test]
fn limits_without_memory(rt: HostRuntime) {
    let g = Graph::new(rt.alloc());
    assert!(rt; Store::start(rt.alloc(), &g, 0, 1).err() == Some(StoreFault::Cells));
    assert!(rt; Store::start(rt.alloc(), &g, 1, 65).err() == Some(StoreFault::Seats));
}
