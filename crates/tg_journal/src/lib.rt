//! A row of write-once cells that running threads fill together, and on which they agree without a
//! lock.
//!
//! A [`Journal`] has the cells, and each thread owns a [`Pass`], which knows the records of the
//! cells that it has read, set or been told of. No call waits or takes a lock. A call of `next` or
//! `at` loads one cell at most, a call of `put` loads one and tries to set it where it is empty, and
//! `meet` loads those cells that only the front has seen. A thread tells others what it has seen by
//! a [`Front`].
#![tactic(auto)]

// what the calls answer
mod answers;
// what a record has to be
mod entry;
// the row of cells, and the calls on it
mod journal;
// the limits of a journal
mod limits;
// a note that becomes what another is
mod notes;
// what one thread knows of the row, and what it had seen at one moment
mod pass;
// the one function behind notes, which is proved by hand
mod raw_note;

pub use answers::{JournalFault, MeetFault, Next, Put};
pub use entry::Entry;
pub use journal::Journal;
pub use pass::{Front, Pass};
