use std::alloc::Global;
use std::process::Abort;
use tg_flow::{Network, Role};

/// An edge: its source, its target, what it can serve as, and whether it is kept.
pub type Edge = (usize, usize, Role, bool);

pub const LINK: Role = Role::Link;

pub const END: Role = Role::End;

pub const BOTH: Role = Role::Both;

/// A network of edges between so many positions.
pub fn network(rt: &impl Abort, alloc: Global, count: usize, edges: &[Edge]) -> Network {
    let mut network = Network::with_room(alloc, count, edges.len()).expect(rt, "room");
    for (source, target, role, kept) in edges {
        network
            .put(*source, *target, *role, *kept)
            .expect(rt, "an edge");
    }
    network
}

/// These positions are marked, and no others.
pub fn assert_marked(rt: &impl Abort, marks: &[bool], positions: &[usize]) {
    for (position, mark) in marks.iter().enumerate() {
        assert_eq!(rt; *mark, positions.contains(&position), "at {position}");
    }
}
