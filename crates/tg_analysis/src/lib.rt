//! All that is asked of a protection graph: who and what can be come to, the first case that breaks a claim, and
//! the table of all pairs.
//!
//! Islands are those of `tg_islands`, cuts those of `tg_cuts`, answers about two vertices and derivations those of
//! `tg_sharing`, and the index for many questions is that of `tg_index`.
#![tactic(auto)]

// blocks of rows, each gathered by a worker
mod blocks;
// an index of a graph for the first right, x and y of which a claim about sharing holds
mod case_index;
// such a case, and which of two comes first
mod cases;
// what a thread passes before it does its part
mod gates;
// gathering what islands hold, from the edges
mod gathering;
// the first place of each island in a list
mod heads;
// what islands hold over one vertex
mod held;
// what islands hold, as it is gathered
mod holdings;
// those of islands and of sharing are handed on
pub mod laws;
// the members of each island by their places
mod members;
// who can come to have rights over one vertex, and which rights one vertex can come to have over each
mod reaching;
// why there is no table
mod table_faults;
// the table of all pairs
mod tables;

pub use case_index::CaseIndex;
pub use cases::Case;
pub use gates::{Gate, OpenGate};
pub use reaching::{reach, who};
pub use table_faults::TableFault;
pub use tables::{PairTable, pair_table};
pub use tg_cuts::{Ends, least_cut};
pub use tg_graph::MOST_WORKERS;
pub use tg_index::SharingIndex;
pub use tg_islands::{AskFault, Islands, Links, islands};
pub use tg_sharing::{can_share, can_share_all, derivation, derivation_all};
