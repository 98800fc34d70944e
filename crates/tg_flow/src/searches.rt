//! Searches along the edges of a network, breadth first.
//!
//! Where a search looks first, the listing of the network says; before it is over it looks at all edges once, so
//! that no answer hangs on the listing.
ghost use Rattle.std.specs.Prelude.{◌≡◌, ◌<◌, ◌↔◌, IsTrue, IfOk, OnOk, MatchBool, Some, true, false, slice_get};
ghost use Rattle.tg_flow.specs.Edges.{opposite, at_side, passage_at};
ghost use Rattle.tg_flow.specs.Ways.{is_met, level_over};
ghost use Rattle.tg_flow.specs.Courses.{is_in, is_holder, can_link, goes_from, leads};
ghost use Rattle.tg_flow.specs.Searches.{search_of, level_by, MissesNone, HasMet, HasAll, IsSearch, IsOver, LooksOn, GoesFurther, GoesOn};

use crate::courses::Course;
use crate::edges::{FlowEdge, Passage, Role, Side};
use crate::listing::Entry;
use crate::network::Network;
use crate::ways::{Step, Ways};
use std::alloc::AllocError;

/// A search along the edges of a network.
#[derive(Clone, Copy)]
pub struct Search<'a> {
    /// Along whose edges.
    pub network: &'a Network,
    /// What it follows.
    pub course: Course,
    /// Who is near x; nobody before that is known.
    pub near: &'a [bool],
    /// The position from which it begins, if from one.
    pub first: Option<usize>,
    /// The position that it seeks, if one.
    pub sought: Option<usize>,
}

// Whether a position is marked.
fn is_in(marks: &[bool], position: usize) -> bool
    ensures { result ≡ is_in marks.now position }
{
    if position < marks.len() {
        marks[position]
    } else {
        false
    }
}

// Whether an edge of a role leads to the end for who stands at a side.
fn is_holder(role: Role, here: Side) -> bool
    ensures { result ≡ is_holder role here }
{
    match (role, here) {
        (Role::End | Role::Both, Side::Source) => true,
        (Role::Link, _) | (_, Side::Target) => false,
    }
}

// Whether an edge of a role links.
fn can_link(role: Role) -> bool
    ensures { result ≡ can_link role }
{
    match role {
        Role::Link | Role::Both => true,
        Role::End => false,
    }
}

// How far the position at a side of an edge is from the end, if it goes over that edge.
fn level_over(ways: &Ways, edge: &FlowEdge, here: Side) -> Option<usize>
    ensures { result ≡ level_over ways.now (at_side edge.now (opposite here))
        (passage_at edge.now here) }
{
    match edge.passage(here) {
        Passage::Shut => None,
        Passage::Out(_) => Some(1),
        Passage::On(_) => match ways.step(edge.at(here.opposite())) {
            Some(step) => Some(usize::from(step.level) + 1),
            None => None,
        },
    }
}

impl<'a> Search<'a> {
    // Whether an edge makes the position at a side one of those near x.
    fn leads_near(ways: &Ways, edge: &FlowEdge, here: Side) -> bool
        ensures { result ≡ goes_from (is_met ways.now (at_side edge.now (opposite here)))
            (passage_at edge.now (opposite here)) }
    {
        let other = here.opposite();
        match edge.passage(other) {
            Passage::On(_) => ways.has_met(edge.at(other)),
            Passage::Shut | Passage::Out(_) => false,
        }
    }

    // Whether an edge makes the position at a side one of those beyond the near ones.
    fn leads_beyond(&self, ways: &Ways, has_holders: bool, edge: &FlowEdge, here: Side) -> bool
        ensures { result ≡ leads (Course.Beyond has_holders) (is_in self.now.near.now)
            (is_met ways.now) edge.now here }
    {
        if is_in(self.near, edge.at(here)) {
            return false;
        }
        if has_holders && is_holder(edge.role, here) {
            return true;
        }
        let other = edge.at(here.opposite());
        can_link(edge.role) && !is_in(self.near, other) && ways.has_met(other)
    }

    // The level of the position at a side of an edge, if the edge makes it one of those that were met.
    fn level_by(&self, ways: &Ways, edge: &FlowEdge, here: Side) -> Option<usize>
        ensures { result ≡ level_by self.now.course (is_in self.now.near.now) ways.now
            edge.now here }
    {
        let leads = match self.course {
            Course::ToEnd { kept_alone } => {
                if kept_alone && !edge.flow.is_kept() {
                    return None;
                }
                return level_over(ways, edge, here);
            }
            Course::Near => Search::leads_near(ways, edge, here),
            Course::Beyond { has_holders } => self.leads_beyond(ways, has_holders, edge, here),
        };
        if leads { Some(0) } else { None }
    }

    // Meets the position at a side of the edge with a number, if it was not met and the edge makes it one of
    // those. It says whether it has met it.
    fn look_from(
        &self,
        ways: &mut Ways,
        number: usize,
        edge: &FlowEdge,
        here: Side,
    ) -> Result<bool, AllocError>
        requires there { slice_get self.now.network.now number ≡ Some edge.now }
        requires search { IsSearch (search_of self.now) ways.old }
        ensures on { IfOk result (λ met_one.
            LooksOn (search_of self.now) met_one ways.old ways.new) }
        ensures none { IfOk result (λ met_one. met_one ≡ false
            → leads self.now.course (is_in self.now.near.now) (is_met ways.old) edge.now here ≡ true
            → is_met ways.old (at_side edge.now here) ≡ true) }
    {
        let position = edge.at(here);
        if ways.has_met(position) {
            return Ok(false);
        }
        let Some(level) = self.level_by(ways, edge, here) else {
            return Ok(false);
        };
        let Ok(level) = u16::try_from(level) else {
            return Err(AllocError);
        };
        let step = Step {
            number,
            side: here,
            level,
        };
        ways.meet(position, step)?;
        Ok(true)
    }

    // The same at both sides of the edge with a number, first at its source.
    fn look(&self, ways: &mut Ways, number: usize) -> Result<bool, AllocError>
        requires { IsSearch (search_of self.now) ways.old }
        ensures on { IfOk result (λ met_one.
            LooksOn (search_of self.now) met_one ways.old ways.new) }
        ensures none { IfOk result (λ met_one. met_one ≡ false
            → MissesNone (search_of self.now) ways.old number) }
    {
        let Some(edge) = self.network.edge(number) else {
            return Ok(false);
        };
        let source = self.look_from(ways, number, &edge, Side::Source)?;
        let target = self.look_from(ways, number, &edge, Side::Target)?;
        Ok(source || target)
    }

    // Looks at the edge out of a position with a number, unless both of its ends were met.
    fn look_at_number(
        &self,
        ways: &mut Ways,
        position: usize,
        number: usize,
    ) -> Result<(), AllocError>
        requires { IsSearch (search_of self.now) ways.old }
        ensures { OnOk result
            (GoesFurther (search_of self.now) ways.old ways.new) }
    {
        if ways.has_met(self.network.target(number)) && ways.has_met(position) {
            return Ok(());
        }
        self.look(ways, number)?;
        Ok(())
    }

    // Looks at the edges out of a position.
    fn look_out(&self, ways: &mut Ways, position: usize) -> Result<(), AllocError>
        requires { IsSearch (search_of self.now) ways.old }
        ensures { OnOk result
            (GoesFurther (search_of self.now) ways.old ways.new) }
    {
        let (first, end) = self.network.numbers_out(position);
        for number in first..end {
            self.look_at_number(ways, position, number)?;
        }
        Ok(())
    }

    // Looks at an edge into a position, unless both of its ends were met.
    fn look_at_entry(
        &self,
        ways: &mut Ways,
        position: usize,
        entry: &Entry,
    ) -> Result<(), AllocError>
        requires { IsSearch (search_of self.now) ways.old }
        ensures { OnOk result
            (GoesFurther (search_of self.now) ways.old ways.new) }
    {
        if ways.has_met(entry.source()) && ways.has_met(position) {
            return Ok(());
        }
        self.look(ways, self.network.number_of(entry))?;
        Ok(())
    }

    // Looks at the edges into a position.
    fn look_in(&self, ways: &mut Ways, position: usize) -> Result<(), AllocError>
        requires { IsSearch (search_of self.now) ways.old }
        ensures { OnOk result
            (GoesFurther (search_of self.now) ways.old ways.new) }
    {
        for entry in self.network.entries_into(position) {
            self.look_at_entry(ways, position, entry)?;
        }
        Ok(())
    }

    // Whether the position that is sought was met.
    fn has_met_sought(&self, ways: &Ways) -> bool
        ensures { IsTrue result ↔ HasMet self.now.sought ways.now }
    {
        match self.sought {
            Some(sought) => ways.has_met(sought),
            None => false,
        }
    }

    // Looks at the edges at the next of those that were met, unless the sought one was. It says whether it did.
    fn go_round(&self, ways: &mut Ways, place: usize) -> Result<bool, AllocError>
        requires { IsSearch (search_of self.now) ways.old }
        ensures { OnOk result
            (GoesFurther (search_of self.now) ways.old ways.new) }
    {
        if self.has_met_sought(ways) {
            return Ok(false);
        }
        let Some(position) = ways.met_at(place) else {
            return Ok(false);
        };
        self.look_out(ways, position)?;
        self.look_in(ways, position)?;
        Ok(true)
    }

    // Goes round those that were met, in their order, until the sought one was met.
    fn flood(&self, ways: &mut Ways) -> Result<(), AllocError>
        requires { IsSearch (search_of self.now) ways.old }
        ensures { OnOk result
            (GoesFurther (search_of self.now) ways.old ways.new) }
    {
        for place in 0..ways.count() {
            if !self.go_round(ways, place)? {
                return Ok(());
            }
        }
        Ok(())
    }

    // Looks at all edges, until a position is met. It says whether one was.
    fn look_at_all(&self, ways: &mut Ways) -> Result<bool, AllocError>
        requires { IsSearch (search_of self.now) ways.old }
        ensures { IfOk result (λ met_one. MatchBool met_one
            (GoesOn (search_of self.now) ways.old ways.new)
            (IsOver (search_of self.now) ways.new)) }
    {
        for number in 0..self.network.len() {
            if self.look(ways, number)? {
                return Ok(true);
            }
        }
        Ok(false)
    }

    // Floods on from a position that the flood has missed, if there is one: where the listing is as it should
    // be, there is none. It says whether there was.
    fn go_on(&self, ways: &mut Ways) -> Result<bool, AllocError>
        requires { IsSearch (search_of self.now) ways.old }
        ensures { IfOk result (λ on. MatchBool on
            (GoesOn (search_of self.now) ways.old ways.new)
            (IsOver (search_of self.now) ways.new)) }
    {
        if self.has_met_sought(ways) {
            return Ok(false);
        }
        if !self.look_at_all(ways)? {
            return Ok(false);
        }
        self.flood(ways)?;
        Ok(true)
    }

    /// Searches until the sought position is met, or nothing is left; it looks first at the edges into a
    /// position.
    ///
    /// The one error is want of memory.
    pub fn run(&self, ways: &mut Ways, position: usize) -> Result<(), AllocError>
        requires { IsSearch (search_of self.now) ways.old }
        ensures { OnOk result (IsOver (search_of self.now) ways.new) }
    {
        self.look_in(ways, position)?;
        self.flood(ways)?;
        while self.go_on(ways)? {}
        Ok(())
    }
}
