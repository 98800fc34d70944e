//! An edge in four bytes.
ghost use Rattle.std.specs.Prelude.{◌≡◌, ◌<◌, IfSome};
ghost use Rattle.tg_flow.specs.Edges.{with_flow};
ghost use Rattle.tg_flow.specs.Packed.{role_number, role_numbered, flow_number, flow_numbered, edge_of};

use crate::edges::{Flow, FlowEdge, Role};

/// So many positions there can be: the target of an edge takes twelve bits.
pub const MOST_POSITIONS: usize = 4096;

impl Role {
    fn number(self) -> u16
        ensures value { result ≡ role_number self }
        ensures small { result < 4 }
    {
        match self {
            Role::Link => 0,
            Role::End => 1,
            Role::Both => 2,
        }
    }

    fn numbered(number: u16) -> Role
        ensures { result ≡ role_numbered number }
    {
        match number {
            0 => Role::Link,
            1 => Role::End,
            _ => Role::Both,
        }
    }
}

impl Flow {
    fn number(self) -> u16
        ensures value { result ≡ flow_number self }
        ensures small { result < 4 }
    {
        match self {
            Flow::Idle => 0,
            Flow::FromSource => 1,
            Flow::FromTarget => 2,
            Flow::Kept => 3,
        }
    }

    fn numbered(number: u16) -> Flow
        ensures { result ≡ flow_numbered number }
    {
        match number {
            0 => Flow::Idle,
            1 => Flow::FromSource,
            2 => Flow::FromTarget,
            _ => Flow::Kept,
        }
    }
}

/// An edge between two positions below `MOST_POSITIONS`.
#[derive(Clone, Copy)]
pub struct PackedEdge {
    source: u16,
    // The target, and behind it two bits for the role and two for the flow.
    rest: u16,
}

impl PackedEdge {
    /// An edge, packed; none where one of its ends is no position below `MOST_POSITIONS`.
    pub fn new(source: usize, target: usize, role: Role, flow: Flow) -> Option<PackedEdge>
        ensures { IfSome result (λ packed. edge_of packed
            ≡ record { source = source; target = target; role = role; flow = flow }) }
    {
        if source >= MOST_POSITIONS || target >= MOST_POSITIONS {
            return None;
        }
        Some(PackedEdge {
            source: source as u16,
            rest: target as u16 * 16 + role.number() * 4 + flow.number(),
        })
    }

    /// The same edge, which carries something else.
    pub fn with_flow(&self, flow: Flow) -> PackedEdge
        ensures { edge_of result ≡ with_flow (edge_of self.now) flow }
    {
        PackedEdge {
            source: self.source,
            rest: self.rest / 4 * 4 + flow.number(),
        }
    }

    /// The edge.
    pub fn edge(&self) -> FlowEdge
        ensures { result ≡ edge_of self.now }
    {
        FlowEdge {
            source: usize::from(self.source),
            target: usize::from(self.rest / 16),
            role: Role::numbered(self.rest % 16 / 4),
            flow: Flow::numbered(self.rest % 4),
        }
    }

    /// The position that it leads from.
    pub fn source(&self) -> usize {
        usize::from(self.source)
    }

    /// The position that it leads to.
    pub fn target(&self) -> usize {
        usize::from(self.rest / 16)
    }
}
