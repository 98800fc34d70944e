//! The limits of a journal. The definitions have the same numbers in `specs/Limits.antt`.

// How many cells a journal may have. It has at least one.
pub(crate) const MOST_CELLS: usize = 4096;

// How many passes a journal may have. It has at least one.
pub(crate) const MOST_SEATS: u32 = 64;
