//! What a search along the edges of a network follows.

/// What a search follows.
#[derive(Clone, Copy)]
pub enum Course {
    /// From the end backwards: whoever can send a unit out, or to one that was met.
    ToEnd {
        /// Whether over kept edges alone.
        kept_alone: bool,
    },
    /// From x: whoever a unit can come to from one that was met.
    Near,
    /// Beyond those that are near x: whoever stands at the source of an edge to the end, if such count, and
    /// whoever is linked to one that was met.
    Beyond {
        /// Whether the sources of edges to the end count.
        has_holders: bool,
    },
}
