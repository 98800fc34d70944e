//! The flood from one vertex that looks for holders of rights.
//!
//! It counts its work, so that others know what was paid: no more than the rows that it looks at for y,
//! and the edges that it reads. The count decides no answer.
ghost use Rattle.std.specs.Prelude.{◌≡◌, ◌↔◌, ◌<◌, ◌+◌, ◌∷◌, [], ℕ, true, IsTrue, IfOk, IfSome, OnOk, MatchBool, ◌⊎◌, length};
ghost use Rattle.std.specs.Map.{keys_of};
ghost use Rattle.tg_names.specs.declared.right_sets.Right.{Right};
ghost use Rattle.tg_names.specs.Sets.{member, is_empty_set, IsNamed};
ghost use Rattle.tg_graph.specs.Graphs.{has_vertex};
ghost use Rattle.tg_graph.specs.GraphOf.{graph_of};
ghost use Rattle.tg_rows.specs.Rows.{IsGraph, row_number};
ghost use Rattle.tg_graph.specs.RuleLists.{CanShareAll};
ghost use Rattle.tg_islands.specs.Sharing.{HeldInIsland};
ghost use Rattle.tg_islands.specs.Linked.{is_near};
ghost use Rattle.tg_sharing.specs.Flooding.{work_left};
ghost use Rattle.tg_sharing.specs.Spreading.{BeginsAt, Follows, FollowsOn, StepsOn, ReadsEdge, Reads, IsMissing, AreHeldInIsland, IsSpread, GoesOn, RunsOut, IsAtRest};

use crate::flooding::Flood;
use crate::holders::lacks_holder;
use crate::laws;
use bitflags::Flags;
use std::alloc::{AllocError, Global};
use tg_graph::{Graph, Name, OpenRow, Rights};
use tg_islands::{Links, linked_end};

/// The question whether x can come to have each right of a set over y.
#[derive(Clone, Copy)]
pub struct Asked {
    /// The rights.
    pub rights: Rights,
    /// Who may come to have them.
    pub x: Name,
    /// Over whom.
    pub y: Name,
}

// A flood from one vertex. A row is read when the flood comes to its vertex, or to find links that
// lead back to the flood.
#[derive(Drop)]
struct Spread {
    // Positions that were met have a number.
    flood: Flood,
    // For each position those whose rows were read before they were met, and which an edge links to
    // it. There are no lists before links are looked for that lead back.
    back: Links,
    // How many positions were met and taken.
    followed: usize,
    // The rights that are asked for and that no position which was taken holds.
    missing: Rights,
    // The number that the name of y mostly has among those that rows share. It decides no answer.
    likely: Option<usize>,
}

impl Spread {
    fn from(
        alloc: Global,
        count: usize,
        start: usize,
        rights: Rights,
        likely: Option<usize>,
    ) -> Result<Spread, AllocError>
        requires { start < count }
        ensures { IfOk result (λ spread. BeginsAt count start rights spread) }
    {
        let mut flood = Flood::new(alloc, count)?;
        flood.meet(start)?;
        Ok(Spread {
            flood,
            back: Links::none(alloc, 0)?,
            followed: 0,
            missing: rights,
            likely,
        })
    }

    // Meets the positions that are linked to one, by its own edges and by those that were found to
    // lead to it.
    fn follow(&mut self, graph: &Graph, position: usize) -> Result<(), AllocError>
        requires len { length self.old.flood.numbers.items ≡ length (keys_of graph.now) }
        requires within { (a : ℕ) → is_near self.old.back position a ≡ true
            → a < length (keys_of graph.now) }
        ensures { OnOk result (Follows graph.now position self.old self.new) }
    {
        self.flood.meet_row(graph, position)?;
        self.flood.meet_neighbours(&self.back, position)?;
        Ok(())
    }

    // The same, unless each position was met.
    fn follow_on(
        &mut self,
        graph: &Graph,
        position: usize,
        work: &mut usize,
    ) -> Result<(), AllocError>
        requires len { length self.old.flood.numbers.items ≡ length (keys_of graph.now) }
        requires within { (a : ℕ) → is_near self.old.back position a ≡ true
            → a < length (keys_of graph.now) }
        requires count { work_left self.old.flood + self.old.followed ≡ length (keys_of graph.now) }
        ensures { OnOk result (FollowsOn graph.now position self.old self.new) }
    {
        if self.followed + self.flood.waiting.len() < graph.len() {
            *work = work.saturating_add(graph.row_len(position));
            self.follow(graph, position)?;
        }
        Ok(())
    }

    // Takes up the last of the positions that wait, and goes on from it, unless no right is missing then.
    // It says whether it went on.
    fn step(&mut self, graph: &Graph, asked: &Asked, work: &mut usize) -> Result<bool, AllocError>
        requires graph { IsGraph graph.now }
        requires missing { IsMissing graph.now asked.now self.old.missing }
        requires spread { IsSpread graph.now asked.now self.old.missing
            self.old.flood.waiting.items self.old }
        ensures missing { OnOk result (IsMissing graph.now asked.now self.new.missing) }
        ensures on { IfOk result (λ on. MatchBool on
            (StepsOn graph.now asked.now self.old self.new)
            (IsTrue (is_empty_set self.new.missing)
            ⊎ RunsOut graph.now asked.now self.new.missing self.old self.new)) }
    {
        let Some(position) = self.flood.waiting.pop() else {
            return Ok(false);
        };
        self.followed += 1;
        *work = work.saturating_add(1);
        let held = graph.rights_near(position, asked.y, self.likely);
        self.missing = self.missing.difference(held);
        if self.missing.is_empty() {
            return Ok(false);
        }
        self.follow_on(graph, position, work)?;
        Ok(true)
    }

    // Goes on until no right is missing, or nothing is left to follow.
    fn run(&mut self, graph: &Graph, asked: &Asked, work: &mut usize) -> Result<(), AllocError>
        requires graph { IsGraph graph.now }
        requires missing { IsMissing graph.now asked.now self.old.missing }
        requires spread { IsSpread graph.now asked.now self.old.missing
            self.old.flood.waiting.items self.old }
        ensures missing { OnOk result (IsMissing graph.now asked.now self.new.missing) }
        ensures end { OnOk result (IsTrue (is_empty_set self.new.missing)
            ⊎ RunsOut graph.now asked.now self.new.missing self.old self.new) }
    {
        while self.step(graph, asked, work)? {}
        Ok(())
    }

    // How many positions were met: those that were taken, and those that wait.
    fn met_count(&self) -> usize {
        self.followed.saturating_add(self.flood.waiting.len())
    }

    // Goes on until so many positions were met or the work has come to so much, unless no right is missing
    // or nothing is left to follow before.
    fn run_for(
        &mut self,
        graph: &Graph,
        asked: &Asked,
        most: usize,
        due: usize,
        work: &mut usize,
    ) -> Result<(), AllocError>
        requires graph { IsGraph graph.now }
        requires missing { IsMissing graph.now asked.now self.old.missing }
        requires spread { IsSpread graph.now asked.now self.old.missing
            self.old.flood.waiting.items self.old }
        ensures missing { OnOk result (IsMissing graph.now asked.now self.new.missing) }
        ensures spread { OnOk result (IsTrue (is_empty_set self.new.missing)
            ⊎ GoesOn graph.now asked.now self.new.missing self.old self.new) }
    {
        for _ in 0..graph.len() {
            let is_enough = self.met_count() >= most || *work >= due;
            if is_enough || !self.step(graph, asked, work)? {
                return Ok(());
            }
        }
        Ok(())
    }

    // Notes the edge at a place in the row of a position that was not met, unless it leads to one
    // that was, and says so.
    fn read_edge(
        &mut self,
        graph: &Graph,
        opened: &Option<OpenRow<'_>>,
        position: usize,
        place: usize,
    ) -> Result<bool, AllocError>
        requires opened { IfSome opened.now (λ row. row ≡ row_number graph.now position) }
        requires len { length self.old.flood.numbers.items ≡ length (keys_of graph.now) }
        requires back { length self.old.back ≡ length (keys_of graph.now) }
        ensures { IfOk result (λ met. ReadsEdge graph.now position place met self.old self.new) }
    {
        match linked_end(graph, opened, position, place) {
            Some(end) if self.flood.numbers[end].is_some() => Ok(true),
            Some(end) => {
                self.back.add(end, position)?;
                Ok(false)
            }
            None => Ok(false),
        }
    }

    // Reads the row of a position that was not met. If an edge links it to one that was, it is met.
    fn read_row(
        &mut self,
        graph: &Graph,
        position: usize,
        work: &mut usize,
    ) -> Result<(), AllocError>
        requires len { length self.old.flood.numbers.items ≡ length (keys_of graph.now) }
        requires back { length self.old.back ≡ length (keys_of graph.now) }
        requires within { position < length (keys_of graph.now) }
        ensures { OnOk result (Reads graph.now position self.old self.new) }
    {
        let edge_count = graph.row_len(position);
        let opened = graph.open_row(position);
        for place in 0..edge_count {
            if self.read_edge(graph, &opened, position, place)? {
                *work = work.saturating_add(place);
                self.flood.meet(position)?;
                return Ok(());
            }
        }
        *work = work.saturating_add(edge_count);
        Ok(())
    }

    // Looks for a holder of each right that is missing, once in a search, and for no longer than at as many
    // short rows as there are vertices. It says whether one was seen to have none: what no vertex holds
    // needs no further search.
    fn is_hopeless(
        &self,
        graph: &Graph,
        asked: &Asked,
        has_looked: &mut bool,
        work: &mut usize,
    ) -> bool
        requires { IsMissing graph.now asked.now self.now.missing }
        ensures { IsTrue result → AreHeldInIsland graph.now asked.now → ⊥ }
    {
        if *has_looked {
            return false;
        }
        *has_looked = true;
        let lacks = lacks_holder(graph, self.missing, asked.y, graph.len());
        if lacks {
            *work = work.saturating_add(graph.len());
        }
        lacks
    }

    // Goes on until no right is missing, or nothing is left to follow; where half of the positions were met
    // before that, which takes longer than looks at as many short rows, only if it is not hopeless. It says
    // whether it is.
    fn go_on(
        &mut self,
        graph: &Graph,
        asked: &Asked,
        has_looked: &mut bool,
        work: &mut usize,
    ) -> Result<bool, AllocError>
        requires graph { IsGraph graph.now }
        requires missing { IsMissing graph.now asked.now self.old.missing }
        requires spread { IsSpread graph.now asked.now self.old.missing
            self.old.flood.waiting.items self.old }
        ensures missing { OnOk result (IsMissing graph.now asked.now self.new.missing) }
        ensures end { IfOk result (λ hopeless. MatchBool hopeless
            (AreHeldInIsland graph.now asked.now → ⊥)
            (IsTrue (is_empty_set self.new.missing)
            ⊎ RunsOut graph.now asked.now self.new.missing self.old self.new)) }
    {
        self.run_for(graph, asked, graph.len() / 2, usize::MAX, work)?;
        if self.missing.is_empty() {
            return Ok(false);
        }
        if !self.flood.waiting.is_empty() && self.is_hopeless(graph, asked, has_looked, work) {
            return Ok(true);
        }
        self.run(graph, asked, work)?;
        Ok(false)
    }

    // Reads the row of a position, if it was not met, and goes on from there. It says whether that is
    // hopeless.
    fn visit(
        &mut self,
        graph: &Graph,
        asked: &Asked,
        position: usize,
        has_looked: &mut bool,
        work: &mut usize,
    ) -> Result<bool, AllocError>
        requires graph { IsGraph graph.now }
        requires missing { IsMissing graph.now asked.now self.old.missing }
        requires rest { IsAtRest graph.now asked.now self.old.missing position self.old }
        requires within { position < length (keys_of graph.now) }
        ensures missing { OnOk result (IsMissing graph.now asked.now self.new.missing) }
        ensures rest { IfOk result (λ hopeless. MatchBool hopeless
            (AreHeldInIsland graph.now asked.now → ⊥)
            (IsTrue (is_empty_set self.new.missing)
            ⊎ IsAtRest graph.now asked.now self.new.missing (position + 1) self.new)) }
    {
        if self.flood.numbers[position].is_some() {
            return Ok(false);
        }
        self.read_row(graph, position, work)?;
        let hopeless = self.go_on(graph, asked, has_looked, work)?;
        Ok(hopeless)
    }

    // Whether each right that is asked for is held in x's island.
    fn search(
        &mut self,
        alloc: Global,
        graph: &Graph,
        asked: &Asked,
        has_looked: &mut bool,
        work: &mut usize,
    ) -> Result<bool, AllocError>
        requires missing { IsMissing graph.now asked.now self.old.missing }
        requires spread { IsSpread graph.now asked.now self.old.missing [] self.old }
        requires calm { self.old.flood.waiting.items ≡ [] }
        requires source { has_vertex (graph_of graph.now) asked.now.x ≡ true }
        ensures { IfOk result (λ found. IsTrue found ↔ AreHeldInIsland graph.now asked.now) }
    {
        let count = graph.len();
        self.back = Links::none(alloc, count)?;
        for position in 0..count {
            if self.missing.is_empty() {
                return Ok(true);
            }
            if self.visit(graph, asked, position, has_looked, work)? {
                return Ok(false);
            }
        }
        Ok(self.missing.is_empty())
    }
}

/// Whether some list of rules gives x each right of the set over y: whether x's island holds each. To the
/// work is added what the search did, where it came to its end.
///
/// The one error is want of memory.
pub fn search_island(
    alloc: Global,
    graph: &Graph,
    asked: &Asked,
    work: &mut usize,
) -> Result<bool, AllocError>
    requires named { IsNamed asked.now.rights }
    requires source { has_vertex (graph_of graph.now) asked.now.x ≡ true }
    requires target { has_vertex (graph_of graph.now) asked.now.y ≡ true }
    ensures { IfOk result
        (λ found. IsTrue found
        ↔ CanShareAll (graph_of graph.now) asked.now.rights asked.now.x asked.now.y) }
{
    laws::together();
    if asked.rights.is_empty() {
        return Ok(true);
    }
    let count = graph.len();
    match graph.position(asked.x) {
        Some(start) => {
            let likely = graph.likely_number(asked.y);
            let mut spread = Spread::from(alloc, count, start, asked.rights, likely)?;
            let mut has_looked = false;
            if spread.go_on(graph, asked, &mut has_looked, work)? {
                return Ok(false);
            }
            if spread.missing.is_empty() {
                return Ok(true);
            }
            let found = spread.search(alloc, graph, asked, &mut has_looked, work)?;
            Ok(found)
        }
        None => Ok(false),
    }
}

/// Whether some list of rules gives x each right of the set over y: whether x's island holds each.
///
/// The one error is want of memory.
pub fn island_holds(alloc: Global, graph: &Graph, asked: &Asked) -> Result<bool, AllocError>
    requires named { IsNamed asked.now.rights }
    requires source { has_vertex (graph_of graph.now) asked.now.x ≡ true }
    requires target { has_vertex (graph_of graph.now) asked.now.y ≡ true }
    ensures { IfOk result
        (λ found. IsTrue found
        ↔ CanShareAll (graph_of graph.now) asked.now.rights asked.now.x asked.now.y) }
{
    let mut work = 0;
    let found = search_island(alloc, graph, asked, &mut work)?;
    Ok(found)
}

/// Whether some list of rules was seen to give x each right of the set over y: a search from x, which
/// follows links in their own direction, has found holders before its work came to half as much as there
/// are vertices.
///
/// The one error is want of memory.
pub fn holds_near(alloc: Global, graph: &Graph, asked: &Asked) -> Result<bool, AllocError>
    requires named { IsNamed asked.now.rights }
    requires source { has_vertex (graph_of graph.now) asked.now.x ≡ true }
    requires target { has_vertex (graph_of graph.now) asked.now.y ≡ true }
    ensures { IfOk result
        (λ found. IsTrue found
        → CanShareAll (graph_of graph.now) asked.now.rights asked.now.x asked.now.y) }
{
    laws::together();
    let count = graph.len();
    match graph.position(asked.x) {
        Some(start) => {
            let likely = graph.likely_number(asked.y);
            let mut spread = Spread::from(alloc, count, start, asked.rights, likely)?;
            let mut work = 0;
            spread.run_for(graph, asked, count, count / 2, &mut work)?;
            Ok(spread.missing.is_empty())
        }
        None => Ok(false),
    }
}
