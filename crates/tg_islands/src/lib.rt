//! The islands of a protection graph, which links join, and what they say of sharing.
#![tactic(auto)]

// positions in sets, two of which can be joined
mod disjoint_sets;
// the islands, as sets of vertices that links join
mod joining;
// what lists of rules can lead to
pub mod laws;
// which vertices are linked
mod links;
// the numbers of islands
mod numbering;
// lists of positions
mod positions;
// why a question about a graph has no answer
mod questions;

pub use joining::islands;
pub use links::{Links, linked_end};
pub use numbering::Islands;
pub use questions::AskFault;
