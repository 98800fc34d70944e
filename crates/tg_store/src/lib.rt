//! Monitors of sessions: seats that take in one history of committed sessions.
//!
//! A [`Hall`] is one value, for one thread; it is that of `tg_hall`. A [`Store`] is for running threads,
//! which share it without a lock: each owns a [`Seat`]. What they share are the heap, the cells of the
//! store's journal, and the opening graph, which no call reads or changes once the store has started; a
//! seat that is dropped counts it down. `begin` and `commit` look at cells, `commit` sets one, `meet`
//! looks at those that only the front has seen, and `at` and `agreed` read seen cells again. `step` and
//! `abort` look at none. This is how the code is written; no contract says it.
#![tactic(auto)]

// what the calls answer
mod outcomes;
// the seats of running threads
mod running_seats;
// their sessions
mod running_sessions;
// an opening graph, a journal and seats
mod stores;
// a record that a running session comes upon, of which it is not known whether it is true
mod weighing;

pub use outcomes::{BeginFault, Begun, CommitFault, Committed, Receipt, StoreMeetFault};
pub use running_seats::Seat;
pub use running_sessions::Session;
pub use stores::Store;
pub use tg_hall::{Answered, Event, Hall, HallFault, HallReply, Record, Steps, StoreFault};
