//! Sessions over one history of committed sessions: their steps with the replies, the names that they touch,
//! replay, and the [`Hall`], a monitor of them in one thread.
//!
//! An open session ([`OpenSession`]), what it touches, and how steps are laid on a draft and on a graph serve
//! running threads as well.
#![tactic(auto)]

// the steps of a session, each with its reply
mod answers;
// what happens at a hall, and what it answers
mod events;
// the monitor of sessions in one thread
mod halls;
// what a session knows of the graph that it asks
mod knowing;
// committed sessions, which a journal can hold
mod records;
// steps on a draft over a graph
mod replays;
// its seats, and the open session, which running threads have too
mod seats;
// the names that a session touches, and the records that stand in its way
mod spoilers;
// where the records of a hall's history wrote
mod trails;

pub use answers::{Answered, Steps};
pub use events::{Event, HallFault, HallReply, StoreFault};
pub use halls::Hall;
pub use records::Record;
pub use replays::{carry_out, lay_all, merge};
pub use seats::OpenSession;
pub use spoilers::{creation_count, spoiler_in};
