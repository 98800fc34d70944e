//! The limits that texts, sessions, derivations and tables keep. The graph type itself has none.
//!
//! The definitions have the same numbers in `specs/Limits.antt`; what the code compares with is
//! here alone.

/// How many vertices there may be in the graph of a text, a session or a derivation.
pub const MOST_VERTICES: usize = 4096;

/// How many cells a journal may have. It has at least one.
pub const MOST_CELLS: usize = 4096;

/// How many seats there may be. There is at least one.
pub const MOST_SEATS: u32 = 64;

/// How many workers there may be for a table of all pairs. There is at least one.
pub const MOST_WORKERS: u64 = 16;
