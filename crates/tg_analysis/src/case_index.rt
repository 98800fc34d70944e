//! An index of a graph, for the first case of a claim about sharing.
ghost use Rattle.std.specs.Prelude.{◌≡◌, ◌<◌, ℕ, None, Some, true, IfOk, List, length, slice_get};
ghost use Rattle.std.specs.Map.{keys_of};
ghost use Rattle.tg_graph.specs.GraphOf.{graph_of};
ghost use Rattle.tg_graph.specs.RuleLists.{CanShare};
ghost use Rattle.tg_analysis.specs.declared.cases.Spot.{Spot};
ghost use Rattle.tg_index.specs.declared.by_target.Held.{Held};
ghost use Rattle.tg_islands.specs.Numbering.{AreIslands};
ghost use Rattle.tg_index.specs.ByTarget.{AreChained};
ghost use Rattle.tg_analysis.specs.Cases.{AreHeldBy, AreHeldOver, AreMembersFrom, AreNumbersAt, AreNumbersOf, ArePlaces, AreVertices, CannotShare, FindsFirst, HasLooked, StandsAt, StandsUnmarked, is_marked};

use crate::cases::{Case, Spot, earlier};
use crate::heads::Heads;
use crate::held::{HeldOver, soonest, soonest_without};
use crate::laws;
use crate::members::{Members, is_marked};
use std::alloc::{AllocError, Global};
use std::marker::Model;
use tg_graph::{Graph, Name, Rights};
use tg_index::{EdgesByTarget, Held};
use tg_islands::Islands;

// The name at a place.
fn name_of(names: &[Name], place: usize) -> Option<Name>
    ensures { result ≡ slice_get names.now place }
{
    names.get(place).copied()
}

// The name at one of the places of a list.
fn name_at(names: &[Name], places: &[usize], index: usize) -> Option<Name>
    ensures { (v : List ℕ) → StandsAt names.now places.now index v → result ≡ Some v }
{
    name_of(names, *places.get(index)?)
}

// The case at a spot, where x and y are places in lists of places.
fn case_at(names: &[Name], spot: Option<Spot>, xs: &[usize], ys: &[usize]) -> Option<Case>
    ensures none { spot ≡ None → result ≡ None }
    ensures some { (s : Spot) (x y : List ℕ) → spot ≡ Some s → StandsAt names.now xs.now s.x x
        → StandsAt names.now ys.now s.y y
        → result ≡ Some (record { right = s.right; x = x; y = y }) }
{
    let spot = spot?;
    Some(Case {
        right: spot.right,
        x: name_at(names, xs, spot.x)?,
        y: name_at(names, ys, spot.y)?,
    })
}

// The same where x is the place of a name itself.
fn case_of(names: &[Name], spot: Option<Spot>, ys: &[usize]) -> Option<Case>
    ensures none { spot ≡ None → result ≡ None }
    ensures some { (s : Spot) (x y : List ℕ) → spot ≡ Some s → slice_get names.now s.x ≡ Some x
        → StandsAt names.now ys.now s.y y
        → result ≡ Some (record { right = s.right; x = x; y = y }) }
{
    let spot = spot?;
    Some(Case {
        right: spot.right,
        x: name_of(names, spot.x)?,
        y: name_at(names, ys, spot.y)?,
    })
}

// The numbers of the islands of names, in turn.
fn numbers_of(
    alloc: Global,
    graph: &Graph,
    islands: &Islands,
    names: &[Name],
) -> Result<Vec<usize>, AllocError>
    requires islands { AreIslands (graph_of graph.now) islands.now }
    requires known { AreVertices (graph_of graph.now) names.now }
    ensures { IfOk result (λ numbers.
        AreNumbersOf (keys_of graph.now) islands.now names.now (length names.now) numbers.items) }
{
    let mut numbers = Vec::with_capacity(alloc, names.len())?;
    for place in 0..names.len() {
        let Some(number) = islands.number_of(graph, names[place]) else {
            unreachable!();
        };
        numbers.push(number)?;
    }
    Ok(numbers)
}

// The numbers at places, in turn.
fn numbers_at(alloc: Global, numbers: &[usize], places: &[usize]) -> Result<Vec<usize>, AllocError>
    requires { ArePlaces (length numbers.now) places.now }
    ensures { IfOk result (λ listed.
        AreNumbersAt numbers.now places.now (length places.now) listed.items) }
{
    let mut listed = Vec::with_capacity(alloc, places.len())?;
    for index in 0..places.len() {
        listed.push(numbers[places[index]])?;
    }
    Ok(listed)
}

// What islands hold over the vertex at one of the places.
fn entries_at(held: &[HeldOver], place: usize) -> &[Held]
    requires { place < length held.now }
    ensures { slice_get held.now place ≡ Some result.now }
{
    held[place].as_slice()
}

// Where the first member stands that is not allowed, of each island that was looked at.
#[derive(Drop)]
struct Beyond {
    places: Vec<Option<usize>>,
    looked: Vec<bool>,
}

impl Beyond {
    // Looks at an island, unless it did.
    fn look(&mut self, members: &Members, allowed: &[bool], number: usize)
        requires same { length self.old.looked.items ≡ length self.old.places.items }
        ensures looked { number < length self.old.places.items
            → is_marked self.new.looked.items number ≡ true }
        ensures kept { (n : ℕ) → is_marked self.old.looked.items n ≡ true
            → is_marked self.new.looked.items n ≡ true }
        ensures len { length self.new.looked.items ≡ length self.old.looked.items }
        ensures places { length self.new.places.items ≡ length self.old.places.items }
        ensures has { (numbers : List ℕ)
            → AreMembersFrom numbers 0 members.now.firsts.items members.now.nexts.items
            → HasLooked numbers (is_marked allowed.now) self.old
            → HasLooked numbers (is_marked allowed.now) self.new }
    {
        if number >= self.places.len() || self.looked[number] {
            return;
        }
        self.looked[number] = true;
        self.places[number] = members.first_beyond(number, allowed);
    }

    // Looks at the islands of entries.
    fn look_at(&mut self, members: &Members, allowed: &[bool], entries: &[Held])
        requires same { length self.old.looked.items ≡ length self.old.places.items }
        ensures looked { (place : ℕ) (entry : Held) → slice_get entries.now place ≡ Some entry
            → entry.number < length self.old.places.items
            → is_marked self.new.looked.items entry.number ≡ true }
        ensures len { length self.new.looked.items ≡ length self.old.looked.items }
        ensures places { length self.new.places.items ≡ length self.old.places.items }
        ensures has { (numbers : List ℕ)
            → AreMembersFrom numbers 0 members.now.firsts.items members.now.nexts.items
            → HasLooked numbers (is_marked allowed.now) self.old
            → HasLooked numbers (is_marked allowed.now) self.new }
    {
        for entry in entries {
            self.look(members, allowed, entry.number);
        }
    }
}

// What islands hold by the edges over each of so many names.
fn held_by(
    alloc: Global,
    graph: &Graph,
    edges: &EdgesByTarget,
    islands: &Islands,
    names: &[Name],
) -> Result<Vec<HeldOver>, AllocError>
    requires chained { AreChained edges.now }
    requires known { AreVertices (graph_of graph.now) names.now }
    ensures { IfOk result (λ held. AreHeldBy (keys_of graph.now) islands.now edges.now
        names.now (length names.now) held.items) }
{
    let mut held = Vec::with_capacity(alloc, names.len())?;
    for place in 0..names.len() {
        let Some(target) = graph.position(names[place]) else {
            unreachable!();
        };
        let entries = edges.held_into(alloc, islands, target)?;
        let joined = HeldOver::of(alloc, entries.as_slice())?;
        held.push(joined)?;
    }
    Ok(held)
}

// What islands hold over each of these names.
fn held_over_each(
    alloc: Global,
    graph: &Graph,
    islands: &Islands,
    names: &[Name],
) -> Result<Vec<HeldOver>, AllocError>
    requires { AreVertices (graph_of graph.now) names.now }
    ensures { IfOk result (λ held. AreHeldOver graph.now islands.now names.now held.items) }
{
    let edges = EdgesByTarget::of(alloc, graph)?;
    let held = held_by(alloc, graph, &edges, islands, names)?;
    Ok(held)
}

/// An index of a graph, for the first case of a claim about sharing: the first right in the order of the
/// letters, then the first x, then the first y. Who is meant is said by places in the index's list of names.
///
/// It takes some 80 bytes a vertex and, for each island that holds a right over a vertex, 16. While it is made
/// it takes 16 bytes an edge besides. What a call takes goes by the places that it is given, by the islands
/// that hold rights over the ys, and by 16 or 17 bytes for each island.
#[derive(Drop)]
pub struct CaseIndex<'a> {
    graph: &'a Graph,
    names: Vec<Name>,
    numbers: Vec<usize>,
    held: Vec<HeldOver>,
    members: Members,
}

impl<'a> Model for CaseIndex<'a> {
    ghost use Rattle.tg_analysis.specs.Cases as case;

    ghost Value = { case.CaseIndexed };

    ghost view = { λ t. record { graph = t.graph.now; names = t.names.items } };

    ghost invariant = { λ t. case.IsIndexed t.graph.now t.names.items t.numbers.items t.held.items
        t.members.firsts.items t.members.nexts.items };
}

impl<'a> CaseIndex<'a> {
    /// The index of a graph, with names of vertices in the order in which the first of them is meant where
    /// `first_beyond` looks for an x: it looks at no other.
    ///
    /// The one error is want of memory; a position of 2^32 or more, and the number of an edge of 2^32 - 1 or
    /// more, are refused as such.
    pub fn of(alloc: Global, graph: &'a Graph, names: &[Name]) -> Result<CaseIndex<'a>, AllocError>
        requires { AreVertices (graph_of graph.now) names.now }
        ensures { IfOk result (λ index.
            index ≡ record { graph = graph.now; names = names.now }) }
    {
        let _ = graph.len();
        let islands = tg_islands::islands(alloc, graph)?;
        let held = held_over_each(alloc, graph, &islands, names)?;
        let numbers = numbers_of(alloc, graph, &islands, names)?;
        let members = Members::of(alloc, numbers.as_slice(), islands.count())?;
        Ok(CaseIndex {
            graph,
            names: Vec::from_slice(alloc, names)?,
            numbers,
            held,
            members,
        })
    }

    /// The names of the index.
    pub fn names(&self) -> &[Name]
        ensures { result.now ≡ self.now.names }
    {
        &self.names
    }

    /// The first right of the set, x of those at the places `xs` and y of those at `ys`, each in the order of
    /// its list, such that some list of rules gives x the right over y; `None` where there is none. The error is
    /// want of memory.
    pub fn first_shared(
        &self,
        alloc: Global,
        rights: Rights,
        xs: &[usize],
        ys: &[usize],
    ) -> Result<Option<Case>, AllocError>
        requires xs { ArePlaces (length self.now.names) xs.now }
        requires ys { ArePlaces (length self.now.names) ys.now }
        ensures { IfOk result (FindsFirst (λ right x y. CanShare (graph_of self.now.graph) right x y)
            rights (StandsAt self.now.names xs.now) (StandsAt self.now.names ys.now)) }
    {
        laws::shared_exactly();
        let numbers = numbers_at(alloc, &self.numbers, xs)?;
        let heads = Heads::of(alloc, numbers.as_slice(), self.members.firsts.len())?;
        let mut spot = None;
        for index in 0..ys.len() {
            let entries = entries_at(&self.held, ys[index]);
            let next = soonest(entries, &heads.places, rights);
            spot = earlier(spot, next, index);
        }
        Ok(case_at(&self.names, spot, xs, ys))
    }

    /// The same where no list of rules gives x the right over y.
    pub fn first_unshared(
        &self,
        alloc: Global,
        rights: Rights,
        xs: &[usize],
        ys: &[usize],
    ) -> Result<Option<Case>, AllocError>
        requires xs { ArePlaces (length self.now.names) xs.now }
        requires ys { ArePlaces (length self.now.names) ys.now }
        ensures { IfOk result (FindsFirst (CannotShare (graph_of self.now.graph))
            rights (StandsAt self.now.names xs.now) (StandsAt self.now.names ys.now)) }
    {
        laws::shared_exactly();
        let numbers = numbers_at(alloc, &self.numbers, xs)?;
        let heads = Heads::of(alloc, numbers.as_slice(), self.members.firsts.len())?;
        let mut spot = None;
        for index in 0..ys.len() {
            let entries = entries_at(&self.held, ys[index]);
            let next = soonest_without(entries, numbers.as_slice(), &heads, rights);
            spot = earlier(spot, next, index);
        }
        Ok(case_at(&self.names, spot, xs, ys))
    }

    /// The same where some list of rules gives x the right over y, and x is one of the index's names whose place
    /// is not marked as allowed; a place behind the last mark is not.
    pub fn first_beyond(
        &self,
        alloc: Global,
        rights: Rights,
        ys: &[usize],
        allowed: &[bool],
    ) -> Result<Option<Case>, AllocError>
        requires { ArePlaces (length self.now.names) ys.now }
        ensures { IfOk result (FindsFirst (λ right x y. CanShare (graph_of self.now.graph) right x y)
            rights (StandsUnmarked self.now.names allowed.now) (StandsAt self.now.names ys.now)) }
    {
        laws::shared_exactly();
        let count = self.members.firsts.len();
        let mut beyond = Beyond {
            places: vec![in alloc; None; count]?,
            looked: vec![in alloc; false; count]?,
        };
        let mut spot = None;
        for index in 0..ys.len() {
            let entries = entries_at(&self.held, ys[index]);
            beyond.look_at(&self.members, allowed, entries);
            let next = soonest(entries, &beyond.places, rights);
            spot = earlier(spot, next, index);
        }
        Ok(case_of(&self.names, spot, ys))
    }
}
