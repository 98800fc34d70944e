//! What can be shared where only some of the vertices act: definitions, and the theorem as laws.
#![tactic(auto)]

// the laws
pub mod laws;
