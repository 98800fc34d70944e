//! Least cuts of a protection graph: which rights have to go so that a vertex can't come to have a right over
//! another.
#![tactic(auto)]

// the least cut
mod cut;
// edges that stay as they are, by their ends
mod kept;
// what each edge has to lose, as rules in order
mod losses;
// the edges of a graph that count for a right over y
mod network;

pub use cut::least_cut;
pub use kept::Ends;
