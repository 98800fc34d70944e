//! The limits of texts.
//!
//! The definitions have the same numbers in `specs/Limits.antt`; what the code compares with is
//! here alone.

/// How many bytes a line may have, its line feed not counted.
pub const MOST_LINE_BYTES: usize = 256;

/// How many vertices a graph's text of version 1 may have.
pub const MOST_VERTICES_OF_ONE: usize = 1024;

/// How many rules a text of rules may have.
pub const MOST_RULES: usize = 131072;

/// How many events a script may have.
pub const MOST_EVENTS: usize = 65536;

/// How many lines a policy may have, those that are skipped not counted.
pub const MOST_POLICY_LINES: usize = 65536;
