//! Edges between positions: what an edge can serve as, the unit that it carries, and what a unit can do there.
ghost use Rattle.std.specs.Prelude.{◌≡◌};
ghost use Rattle.tg_flow.specs.Edges.{is_kept_flow, opposite, from, at_side, over_link, over_end, over_both, passage_at};

/// What an edge can serve as.
#[derive(Clone, Copy, PartialEq, Eq, Debug)]
pub enum Role {
    /// A link, in either direction.
    Link,
    /// The way from its source to the end.
    End,
    /// Both at once: whoever comes to one of its ends comes to the end by it.
    Both,
}

/// What an edge carries.
#[derive(Clone, Copy, PartialEq, Eq, Debug)]
pub enum Flow {
    /// No unit.
    Idle,
    /// One that has passed from the source.
    FromSource,
    /// One that has passed from the target.
    FromTarget,
    /// The edge is kept: any number of units, which nobody counts.
    Kept,
}

/// An end of an edge.
#[derive(Clone, Copy, PartialEq, Eq, Debug)]
pub enum Side {
    /// Its source.
    Source,
    /// Its target.
    Target,
}

/// What a unit that stands at a side of an edge can do, and what the edge carries then.
#[derive(Clone, Copy, PartialEq, Eq, Debug)]
pub enum Passage {
    /// Nothing.
    Shut,
    /// It goes on to the other side.
    On(Flow),
    /// It goes out to the end.
    Out(Flow),
}

/// An edge between two positions.
#[derive(Clone, Copy, PartialEq, Eq, Debug)]
pub struct FlowEdge {
    /// The position that it leads from.
    pub source: usize,
    /// The position that it leads to.
    pub target: usize,
    /// What it can serve as.
    pub role: Role,
    /// What it carries.
    pub flow: Flow,
}

impl Flow {
    /// Whether the edge is kept.
    pub fn is_kept(self) -> bool
        ensures { result ≡ is_kept_flow self }
    {
        match self {
            Flow::Kept => true,
            Flow::Idle | Flow::FromSource | Flow::FromTarget => false,
        }
    }
}

impl Side {
    /// The other side.
    pub fn opposite(self) -> Side
        ensures { result ≡ opposite self }
    {
        match self {
            Side::Source => Side::Target,
            Side::Target => Side::Source,
        }
    }

    // What an edge carries when a unit has passed from this side.
    fn flow(self) -> Flow
        ensures { result ≡ from self }
    {
        match self {
            Side::Source => Flow::FromSource,
            Side::Target => Flow::FromTarget,
        }
    }
}

fn over_link(flow: Flow, here: Side) -> Passage
    ensures { result ≡ over_link flow here }
{
    match (flow, here) {
        (Flow::Idle, _) => Passage::On(here.flow()),
        (Flow::Kept, _) => Passage::On(Flow::Kept),
        (Flow::FromSource, Side::Target) | (Flow::FromTarget, Side::Source) => {
            Passage::On(Flow::Idle)
        }
        (Flow::FromSource, Side::Source) | (Flow::FromTarget, Side::Target) => Passage::Shut,
    }
}

fn over_end(flow: Flow, here: Side) -> Passage
    ensures { result ≡ over_end flow here }
{
    match (flow, here) {
        (Flow::Idle | Flow::FromTarget, Side::Source) => Passage::Out(Flow::FromSource),
        (Flow::Kept, Side::Source) => Passage::Out(Flow::Kept),
        (Flow::FromSource, _) | (_, Side::Target) => Passage::Shut,
    }
}

fn over_both(flow: Flow, here: Side) -> Passage
    ensures { result ≡ over_both flow here }
{
    match (flow, here) {
        (Flow::Idle, _) => Passage::Out(here.flow()),
        (Flow::Kept, _) => Passage::Out(Flow::Kept),
        (Flow::FromSource, Side::Target) => Passage::On(Flow::FromTarget),
        (Flow::FromTarget, Side::Source) => Passage::On(Flow::FromSource),
        (Flow::FromSource, Side::Source) | (Flow::FromTarget, Side::Target) => Passage::Shut,
    }
}

impl FlowEdge {
    /// The position at a side.
    pub fn at(&self, side: Side) -> usize
        ensures { result ≡ at_side self.now side }
    {
        match side {
            Side::Source => self.source,
            Side::Target => self.target,
        }
    }

    /// What a unit that stands at a side can do.
    pub fn passage(&self, here: Side) -> Passage
        ensures { result ≡ passage_at self.now here }
    {
        match self.role {
            Role::Link => over_link(self.flow, here),
            Role::End => over_end(self.flow, here),
            Role::Both => over_both(self.flow, here),
        }
    }
}
