//! Stores with two seats for tests, and what the seats do. Tests alone stand on it.
#![tactic(auto)]

// a store and its two seats, which act in turn
mod desks;
// a store with two seats, and what its seats do together
mod seats;

pub use desks::Desk;
pub use seats::{agreeing, lonely, met, opened};
