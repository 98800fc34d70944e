//! An index of a protection graph, for many questions about sharing, and the edges of a graph by their targets.
//!
//! Islands are those of `tg_islands`, and searches of one island those of `tg_sharing`. The edges by their targets
//! ([`EdgesByTarget`]) serve other indexes as well, which ask what islands hold over one vertex.
#![tactic(auto)]

// the edges by their targets
mod by_target;
// how many edges there are
mod edge_counts;
// an index of a graph, for many questions about sharing
mod sharing_index;

pub use by_target::{EdgesByTarget, Held};
pub use sharing_index::SharingIndex;
