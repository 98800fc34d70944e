//! What graphs are made.

/// How vertices are named.
#[derive(Clone, Copy, PartialEq, Eq)]
pub(crate) enum Spelling {
    /// `v0`, `v1` and so on.
    Numbered,
    /// The same names in name order.
    InOrder,
    /// Names of 16 bytes, of which each 37 share the first 15.
    Alike,
}

/// In which order edges come.
#[derive(Clone, Copy, PartialEq, Eq)]
pub(crate) enum Order {
    /// By source, and then by target.
    Rising,
    /// From the last to the first.
    Falling,
    /// In an order that looks random.
    Scattered,
}

/// The edges of a graph.
#[derive(Clone, Copy, PartialEq, Eq)]
pub(crate) enum Edges {
    /// Between vertices anywhere.
    Anywhere,
    /// Between vertices of which each eight lie together.
    InGroups,
    /// From each vertex to the next.
    Chain,
    /// From the first vertex to each.
    Star,
}

/// What is written on edges.
#[derive(Clone, Copy, PartialEq, Eq)]
pub(crate) enum Labels {
    /// One of t, g, r, w and e.
    One,
    /// One of r, w and e, which link nothing.
    Inert,
    /// Either of t and g.
    Links,
    /// Both t and g.
    Both,
    /// One or several of all seven.
    Several,
}

/// A kind of graph.
#[derive(Clone, Copy)]
pub(crate) struct Plan {
    pub(crate) spelling: Spelling,
    /// How many vertices: a power of two.
    pub(crate) vertices: usize,
    /// How many edges out of each vertex, where they lead anywhere or to the group.
    pub(crate) degree: usize,
    pub(crate) edges: Edges,
    pub(crate) order: Order,
    pub(crate) labels: Labels,
}

impl Plan {
    /// A graph of edges anywhere, in an order that looks random.
    pub(crate) fn scattered(vertices: usize, degree: usize, labels: Labels) -> Plan {
        Plan {
            spelling: Spelling::Numbered,
            vertices,
            degree,
            edges: Edges::Anywhere,
            order: Order::Scattered,
            labels,
        }
    }

    /// The same with other edges.
    pub(crate) fn with_edges(self, edges: Edges) -> Plan {
        Plan { edges, ..self }
    }

    /// The same in another order.
    pub(crate) fn in_order(self, order: Order) -> Plan {
        Plan { order, ..self }
    }

    /// The same with other names.
    pub(crate) fn spelt(self, spelling: Spelling) -> Plan {
        Plan { spelling, ..self }
    }
}
