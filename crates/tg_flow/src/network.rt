//! A network of edges between positions.
ghost use Rattle.std.specs.Prelude.{◌≡◌, ◌↔◌, ◌++◌, ◌∷◌, [], IsTrue, Some, IfOk, OnErr, OnOk, length, slice_get, slice_set};
ghost use Rattle.tg_flow.specs.declared.edges.FlowEdge.{FlowEdge};
ghost use Rattle.tg_flow.specs.Edges.{with_flow, flow_at_first};

use crate::edges::{Flow, FlowEdge, Role};
use crate::listing::{Entry, Listing};
pub use crate::packed::MOST_POSITIONS;
use crate::packed::PackedEdge;
use std::alloc::{AllocError, Global};
use std::marker::Model;

/// Edges between so many positions, each with a number: the first has 0, and the next one more.
///
/// It takes 4 bytes an edge, and once it is filled 4 more, and 4 a position.
#[derive(Drop)]
pub struct Network {
    edges: Vec<PackedEdge>,
    // So many positions there are.
    count: usize,
    listing: Listing,
}

impl Model for Network {
    ghost use Rattle.std.specs.Prelude.{List, map};
    ghost use Rattle.tg_flow.specs.Packed.{edge_of};
    ghost use Rattle.tg_flow.specs.declared.edges.FlowEdge.{FlowEdge};

    ghost Value = { List FlowEdge };

    ghost view = { λ n. map edge_of n.edges.items };
}

impl Network {
    /// No edges yet, between positions below a count, with room for so many edges.
    ///
    /// The error is want of memory, or a count above `MOST_POSITIONS`.
    pub fn with_room(alloc: Global, count: usize, room: usize) -> Result<Network, AllocError>
        ensures { IfOk result (λ network. network ≡ []) }
    {
        if count > MOST_POSITIONS {
            return Err(AllocError);
        }
        Ok(Network {
            edges: Vec::with_capacity(alloc, room)?,
            count,
            listing: Listing::none(alloc),
        })
    }

    /// Puts an edge behind the others, which carries nothing, or is kept. Searches are quick where edges are
    /// put in rising order of their sources; it decides no answer.
    ///
    /// The error is want of memory, or an end that is no position below the count; nothing is put then.
    pub fn put(
        &mut self,
        source: usize,
        target: usize,
        role: Role,
        kept: bool,
    ) -> Result<(), AllocError>
        ensures put { OnOk result (self.new ≡ self.old
            ++ record { source = source; target = target; role = role; flow = flow_at_first kept }
            ∷ []) }
        ensures err { OnErr result (self.new ≡ self.old) }
    {
        if source >= self.count || target >= self.count {
            return Err(AllocError);
        }
        let flow = if kept { Flow::Kept } else { Flow::Idle };
        let Some(edge) = PackedEdge::new(source, target, role, flow) else {
            return Err(AllocError);
        };
        self.edges.push(edge)?;
        Ok(())
    }

    /// How many edges there are.
    pub fn len(&self) -> usize
        ensures { result ≡ length self.now }
    {
        self.edges.len()
    }

    /// Whether there is no edge.
    pub fn is_empty(&self) -> bool
        ensures { IsTrue result ↔ (length self.now ≡ 0) }
    {
        self.len() == 0
    }

    /// How many positions there are.
    pub fn count(&self) -> usize {
        self.count
    }

    /// The edge with a number; none past the end.
    pub fn edge(&self, number: usize) -> Option<FlowEdge>
        ensures { result ≡ slice_get self.now number }
    {
        if number < self.edges.len() {
            Some(self.edges[number].edge())
        } else {
            None
        }
    }

    /// The edge with a number carries something else; nothing changes where there is none.
    pub(crate) fn set_flow(&mut self, number: usize, flow: Flow)
        ensures { (e : FlowEdge) → slice_get self.old number ≡ Some e
            → self.new ≡ slice_set self.old number (with_flow e flow) }
    {
        if number < self.edges.len() {
            self.edges[number] = self.edges[number].with_flow(flow);
        }
    }

    /// Notes where the edges at each position are found.
    ///
    /// The one error is want of memory.
    pub(crate) fn list(&mut self) -> Result<(), AllocError>
        ensures { self.new ≡ self.old }
    {
        self.listing = Listing::of(*self.edges.allocator(), self.count, &self.edges)?;
        Ok(())
    }

    /// The position that the edge with a number leads to.
    pub(crate) fn target(&self, number: usize) -> usize {
        match self.edges.get(number) {
            Some(edge) => edge.target(),
            None => 0,
        }
    }

    /// From which number to which the edges out of a position go, where edges rise by their sources.
    pub(crate) fn numbers_out(&self, position: usize) -> (usize, usize) {
        let edges = self.edges.as_slice();
        let first = edges.partition_point(|edge| edge.source() < position);
        let end = edges.partition_point(|edge| edge.source() <= position);
        (first, end)
    }

    /// Where the edges into a position are found, as far as they were noted.
    pub(crate) fn entries_into(&self, position: usize) -> &[Entry] {
        self.listing.entries_into(position)
    }

    /// The number of the edge that is found there, where edges rise by their sources.
    pub(crate) fn number_of(&self, entry: &Entry) -> usize {
        let source = entry.source();
        let first = self
            .edges
            .as_slice()
            .partition_point(|edge| edge.source() < source);
        first.saturating_add(entry.place())
    }

    /// What gives it memory.
    pub(crate) fn allocator(&self) -> Global {
        *self.edges.allocator()
    }
}
