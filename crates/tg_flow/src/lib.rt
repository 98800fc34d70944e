//! Flows of units from one position to the end, along edges that each carry one unit at most: how many can go,
//! and which positions are near the first and which beyond, once no more can.
#![tactic(auto)]

// what a search follows
mod courses;
// an edge, what it can serve as, the unit that it carries
mod edges;
// units that go, phase by phase, until no more can
mod filling;
// which edges cross those that are near, and how many
pub mod laws;
// where the edges into a position are found, which decides no answer
mod listing;
// the edges by number
mod network;
// an edge in four bytes
mod packed;
// a step in eight bytes
mod packed_steps;
// searches, breadth first
mod searches;
// a unit that goes to the end by these steps
mod sending;
// who is near a position, and who comes to the end beyond those
mod sides;
// further ways by the levels that a search has found
mod walks;
// the positions that a search has met, and by which steps
mod ways;

pub use edges::{Flow, FlowEdge, Passage, Role, Side};
pub use network::{MOST_POSITIONS, Network};
