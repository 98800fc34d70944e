//! Whether one vertex of a protection graph can come to have rights over another, and derivations: the lists of
//! rules that give them to it.
//!
//! A search of one island ([`search_island`], [`holds_near`]) serves an index of a graph as well, which adds up what
//! searches did.
#![tactic(auto)]

// whether rights can be shared
mod answers;
// chains of links from a vertex that holds a right
mod chains;
// lists of rules that give rights
mod derivations;
// the positions that a flood has met
mod flooding;
// who holds rights over one vertex
mod holders;
// how long a derivation is; those of islands are handed on
pub mod laws;
// the vertices that a search has met
mod met;
// the rules that carry a right over one link
mod moves;
// the flood from one vertex that looks for holders of rights
mod spreading;

pub use answers::{can_share, can_share_all};
pub use derivations::{derivation, derivation_all};
pub use holders::named;
pub use spreading::{Asked, holds_near, search_island};
