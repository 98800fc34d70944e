//! What protection graphs speak of: names of vertices, and sets of rights.
#![tactic(auto)]

// laws of names and of rights words
pub mod laws;
// the names of vertices
mod names;
// the rights of one vertex over another
mod right_sets;

pub use names::{Name, NameFault};
pub use right_sets::{Right, Rights};
