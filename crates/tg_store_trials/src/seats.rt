//! A store with two seats, and what its seats do together.
ghost use Rattle.std.specs.Prelude.{IfOk, IfSome};
ghost use Rattle.tg_store.specs.Running.{IsOf};

use std::alloc::Global;
use tg_graph::Graph;
use tg_store::{Seat, Store, StoreFault};

/// A store over the graph, with two seats and so many cells. The error is that of `Store::start`.
pub fn opened(alloc: Global, graph: &Graph, cells: usize) -> Result<(Store, Seat, Seat), StoreFault>
    ensures one { IfOk result (λ r. IsOf r.0 r.1) }
    ensures two { IfOk result (λ r. IsOf r.0 r.2) }
{
    let (store, mut seats) = match Store::start(alloc, graph, cells, 2) {
        Ok(made) => made,
        Err(fault) => return Err(fault),
    };
    let (Some(two), Some(one)) = (seats.pop(), seats.pop()) else {
        return Err(StoreFault::Seats);
    };
    Ok((store, one, two))
}

/// The seat, once it has seen what the other has seen; `None` where it could not.
pub fn met(store: &Store, seat: Seat, other: &Seat) -> Option<Seat>
    requires { IsOf store.now seat × IsOf store.now other.now }
    ensures { IfSome result (IsOf store.now) }
{
    let mut seat = seat;
    let front = store.front(other).ok()?;
    store.meet(&mut seat, &front).ok()?;
    Some(seat)
}

/// The two seats, and whether they agree.
pub fn agreeing(store: &Store, one: Seat, two: Seat) -> (Seat, Seat, bool)
    requires { IsOf store.now one × IsOf store.now two }
    ensures { IsOf store.now result.0 × IsOf store.now result.1 }
{
    let seats = [one, two];
    let agreed = store.agreed(&seats);
    let [one, two] = seats;
    (one, two, agreed)
}

/// The seat, and whether it agrees with itself alone.
pub fn lonely(store: &Store, seat: Seat) -> (Seat, bool)
    requires { IsOf store.now seat }
    ensures { IsOf store.now result.0 }
{
    let seats = [seat];
    let agreed = store.agreed(&seats);
    let [seat] = seats;
    (seat, agreed)
}
