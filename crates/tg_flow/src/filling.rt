//! As many units as can go from one position to the end.
ghost use Rattle.std.specs.Prelude.{◌≡◌, ◌<◌, ℕ, Bool, true, Some, None, IfOk, OnOk, MatchBool, MatchOption, slice_get, slice_set};
ghost use Rattle.tg_flow.specs.declared.edges.FlowEdge.{FlowEdge};
ghost use Rattle.tg_flow.specs.Edges.{with_flow, at_rest};
ghost use Rattle.tg_flow.specs.Flows.{IsClosed, IsFlow, SameBut};
ghost use Rattle.tg_flow.specs.Searches.{to_end, IsOver};
ghost use Rattle.tg_flow.specs.Sending.{Sends, SendsMany};
ghost use Rattle.tg_flow.specs.Filling.{IsEndless, IsFull, Fills};

use crate::courses::Course;
use crate::edges::Flow;
use crate::network::Network;
use crate::searches::Search;
use crate::ways::Ways;
use std::alloc::AllocError;

impl Network {
    // Takes back the unit that an edge carries.
    fn take_back(&mut self, number: usize)
        ensures { (e : FlowEdge) → slice_get self.old number ≡ Some e
            → self.new ≡ slice_set self.old number (with_flow e (at_rest e.flow)) }
    {
        if let Some(edge) = self.edge(number) {
            let flow = if edge.flow.is_kept() {
                Flow::Kept
            } else {
                Flow::Idle
            };
            self.set_flow(number, flow);
        }
    }

    // Takes back all units.
    fn take_back_all(&mut self)
        ensures same { SameBut self.old self.new }
        ensures none { (x : ℕ) → IsFlow self.new x 0 }
    {
        for number in 0..self.len() {
            self.take_back(number);
        }
    }

    // Searches from the end, backwards, until x is met, or nothing is left; first at the edges into y.
    fn search_to_end(&self, kept_alone: bool, x: usize, y: usize) -> Result<Ways, AllocError>
        ensures { IfOk result (λ ways. IsOver (to_end self.now kept_alone x) ways) }
    {
        let search = Search {
            network: self,
            course: Course::ToEnd { kept_alone },
            near: &[],
            first: None,
            sought: Some(x),
        };
        let mut ways = Ways::none(self.allocator(), self.count())?;
        search.run(&mut ways, y)?;
        Ok(ways)
    }

    // Sends one more unit from x by the levels that a search has found, if one can go so. It says whether one has.
    fn send_another(
        &mut self,
        ways: &mut Ways,
        path: &mut Vec<u16>,
        x: usize,
        y: usize,
    ) -> Result<bool, AllocError>
        ensures { IfOk result (λ sent. MatchBool sent
            (Sends x self.old self.new)
            (self.new ≡ self.old)) }
    {
        self.find_way(ways, path, x, y)?;
        if !self.has_way(ways, x) {
            return Ok(false);
        }
        self.send(ways, x);
        Ok(true)
    }

    // Sends units from x by the levels that a search has found, until no more can go so. It answers how many.
    fn send_more(&mut self, ways: &mut Ways, x: usize, y: usize) -> Result<usize, AllocError>
        ensures { IfOk result (λ more. SendsMany x more self.old self.new) }
    {
        ways.begin_all();
        // No path is longer than the level of x.
        let mut path = Vec::with_capacity(self.allocator(), usize::from(ways.level(x)))?;
        let most = self.len();
        for more in 0..most {
            if !self.send_another(ways, &mut path, x, y)? {
                return Ok(more);
            }
        }
        Ok(most)
    }

    // Sends units from x until no more can go. It answers how many.
    fn send_all(&mut self, x: usize, y: usize) -> Result<usize, AllocError>
        requires free { (s : ℕ → Bool) × IsClosed s self.old × (s x ≡ true) }
        requires none { IsFlow self.old x 0 }
        ensures { IfOk result (λ units. Fills self.old self.new x units) }
    {
        // There are no more units than edges, and these are counted: a fact that their count alone tells.
        let _ = self.len();
        let mut units: usize = 0;
        let mut ways = self.search_to_end(false, x, y)?;
        while ways.has_met(x) {
            self.send(&ways, x);
            units += 1;
            let more = self.send_more(&mut ways, x, y)?;
            units += more;
            // Its memory is let go of first, so that there is that of one search at a time.
            drop(ways);
            ways = self.search_to_end(false, x, y)?;
        }
        Ok(units)
    }

    /// Sends units from x to the end until no more can go, and answers how many have gone; none where any number
    /// can go, because kept edges alone lead from x to the end. What the edges carried before is taken back
    /// first.
    ///
    /// Units go in phases: one search, of at most a pass over the edges, finds how far each position is from the
    /// end, and then units go by ways of that length until none is left, each edge being looked at again at most
    /// twice from a side. The searches look first at the edges into y; it decides no answer, and neither does how
    /// many units go in a phase. One takes 12 bytes a position.
    ///
    /// The one error is want of memory: some units may have gone then, which the next call takes back.
    pub fn fill(&mut self, x: usize, y: usize) -> Result<Option<usize>, AllocError>
        ensures same { OnOk result (SameBut self.old self.new) }
        ensures full { IfOk result (λ filled. MatchOption filled
            (IsEndless self.new x)
            (λ units. IsFull self.new x units)) }
    {
        self.take_back_all();
        self.list()?;
        let kept = self.search_to_end(true, x, y)?;
        let is_endless = kept.has_met(x);
        drop(kept);
        if is_endless {
            return Ok(None);
        }
        let units = self.send_all(x, y)?;
        Ok(Some(units))
    }
}
