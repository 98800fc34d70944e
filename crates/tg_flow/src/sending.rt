//! Units that go from a position to the end by the steps that a search has found.
ghost use Rattle.std.specs.Prelude.{◌≡◌, true, IfSome, MatchOption};
ghost use Rattle.tg_flow.specs.Ways.{HasWay};
ghost use Rattle.tg_flow.specs.Sending.{GoesOut, GoesOn, LeadsOn, Sends};

use crate::edges::Passage;
use crate::network::Network;
use crate::ways::Ways;

impl Network {
    // A unit at a position takes its step. It answers the position to which it comes; none at the end.
    fn pass(&mut self, ways: &Ways, position: usize) -> Option<usize>
        requires { HasWay self.old ways.now position }
        ensures { MatchOption result
            (GoesOut self.old self.new position)
            (λ next. GoesOn self.old self.new ways.now position next) }
    {
        let Some(step) = ways.step(position) else {
            unreachable!();
        };
        let Some(edge) = self.edge(step.number) else {
            unreachable!();
        };
        match edge.passage(step.side) {
            Passage::Out(flow) => {
                self.set_flow(step.number, flow);
                None
            }
            Passage::On(flow) => {
                self.set_flow(step.number, flow);
                Some(edge.at(step.side.opposite()))
            }
            Passage::Shut => unreachable!(),
        }
    }

    /// A unit goes from a position to the end.
    pub(crate) fn send(&mut self, ways: &Ways, x: usize)
        requires { HasWay self.old ways.now x }
        ensures { Sends x self.old self.new }
    {
        let mut position = x;
        while let Some(next) = self.pass(ways, position) {
            position = next;
        }
    }

    /// The position to which a unit at a position comes by its step, where that is nearer to the end.
    pub(crate) fn next_on(&self, ways: &Ways, position: usize) -> Option<usize>
        ensures { IfSome result (λ next. LeadsOn self.now ways.now position next) }
    {
        let Some(step) = ways.step(position) else {
            return None;
        };
        let Some(edge) = self.edge(step.number) else {
            return None;
        };
        if edge.at(step.side) != position {
            return None;
        }
        let Passage::On(_) = edge.passage(step.side) else {
            return None;
        };
        let next = edge.at(step.side.opposite());
        if ways.level(next) < step.level {
            Some(next)
        } else {
            None
        }
    }

    // Whether a unit at a position comes out at the end by its step.
    fn comes_out(&self, ways: &Ways, position: usize) -> bool
        ensures { result ≡ true → HasWay self.now ways.now position }
    {
        let Some(step) = ways.step(position) else {
            return false;
        };
        let Some(edge) = self.edge(step.number) else {
            return false;
        };
        if edge.at(step.side) != position {
            return false;
        }
        match edge.passage(step.side) {
            Passage::Out(_) => true,
            Passage::Shut | Passage::On(_) => false,
        }
    }

    /// Whether a unit comes from a position to the end by the steps, each of them nearer to it.
    pub(crate) fn has_way(&self, ways: &Ways, x: usize) -> bool
        ensures { result ≡ true → HasWay self.now ways.now x }
    {
        let mut position = x;
        while let Some(next) = self.next_on(ways, position) {
            position = next;
        }
        self.comes_out(ways, position)
    }
}
