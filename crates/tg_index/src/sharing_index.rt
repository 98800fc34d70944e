//! An index of a graph, for many questions about sharing.
ghost use Rattle.std.specs.Prelude.{◌≡◌, ◌↔◌, true, false, None, is_some, IsSome, IsTrue, IfOk, IfErr, OnOk};
ghost use Rattle.tg_graph.specs.GraphOf.{graph_of};
ghost use Rattle.tg_graph.specs.Graphs.{has_vertex};
ghost use Rattle.tg_graph.specs.RuleLists.{CanShare};
ghost use Rattle.tg_index.specs.ByTarget.{HoldsIn, IsIndexOf, has_found, unasked};
ghost use Rattle.tg_islands.specs.Numbering.{AreIslands};
ghost use Rattle.tg_islands.specs.Questions.{question_fault, IsDueFault};

use crate::by_target::EdgesByTarget;
use crate::edge_counts::edge_count;
use std::alloc::{AllocError, Global};
use std::marker::Model;
use tg_graph::{Graph, Name, Right, Rights};
use tg_islands::{AskFault, Islands, laws};
use tg_sharing::{Asked, holds_near, search_island};

// What was found for all questions is paid for once half as much work was done without it as it takes.
const SHARE: usize = 2;

// A pass over a number for each vertex takes at least as long as to look at so small a part of their rows.
const PASS: usize = 64;

// Where there are so many edges a vertex, most rows may be long, and a look at each of them takes longer than
// a short search.
const LONG_ROWS: usize = 8;

/// What is known of a graph from the questions about sharing that it was asked: first nothing, then its
/// islands, and last its edges by their targets.
///
/// A question searches x's island, as `can_share` does. Once searches have looked at half as many rows
/// and edges as there are, the next question finds the islands, in one pass over the edges, which takes
/// some 70 bytes a vertex and leaves 8; a question then looks at each row of an island. Once it has looked
/// at half as many rows as there are rows and edges, the next question lists the edges, which takes 16
/// bytes an edge and 4 a vertex; a question then goes through the edges to one vertex. So the questions
/// before have paid for each of the two. Where memory for them is refused, questions are answered as
/// before, and they are due again as late as the first time. An index of islands alone lists no edges,
/// however much it is asked.
#[derive(Drop)]
pub struct SharingIndex {
    islands: Option<Islands>,
    edges: Option<EdgesByTarget>,
    // Whether edges may be listed. It decides no answer.
    lists_edges: bool,
    // How many edges there are, once they were counted; how much work searches have done, and how many rows
    // were looked at since. They decide no answer.
    edge_count: Option<usize>,
    work: usize,
    looks: usize,
}

impl Model for SharingIndex {
    ghost use Rattle.tg_index.specs.ByTarget as index;

    ghost Value = { index.Indexed };

    ghost view = { λ t. record { numbers = t.islands; listed = t.edges } };
}

// Whether a vertex of the island with the number holds the right over y. The rows that it looks at are
// added to the looks.
fn holds_in(
    graph: &Graph,
    islands: &Islands,
    right: Right,
    number: usize,
    y: Name,
    looks: &mut usize,
) -> bool
    requires { AreIslands (graph_of graph.now) islands.now }
    ensures { IsTrue result ↔ HoldsIn graph.now islands.now right number y }
{
    let likely = graph.likely_number(y);
    for position in 0..graph.len() {
        if islands.of(position) == Some(number) {
            *looks = looks.saturating_add(1);
            if graph.rights_near(position, y, likely).has(right) {
                return true;
            }
        }
    }
    *looks = looks.saturating_add(graph.len() / PASS);
    false
}

impl SharingIndex {
    /// The index of a graph that was not asked yet, whatever graph that is.
    pub fn new() -> SharingIndex
        ensures { result ≡ unasked }
    {
        SharingIndex {
            islands: None,
            edges: None,
            lists_edges: true,
            edge_count: None,
            work: 0,
            looks: 0,
        }
    }

    /// The same, which finds islands alone and lists no edges: it never keeps more than 8 bytes a vertex.
    pub fn of_islands_alone() -> SharingIndex
        ensures { result ≡ unasked }
    {
        SharingIndex {
            lists_edges: false,
            ..SharingIndex::new()
        }
    }

    /// Whether it has found islands or edges, which it keeps.
    pub fn has_found(&self) -> bool
        ensures { result ≡ has_found self.now }
    {
        self.islands.is_some() || self.has_listed()
    }

    /// Whether it has listed the edges.
    pub fn has_listed(&self) -> bool
        ensures { result ≡ is_some self.now.listed }
    {
        self.edges.is_some()
    }

    // How many edges there are, which are counted once.
    fn edge_count(&mut self, graph: &Graph) -> usize
        ensures { self.new ≡ self.old }
    {
        match self.edge_count {
            Some(count) => count,
            None => {
                let count = edge_count(graph);
                self.edge_count = Some(count);
                count
            }
        }
    }

    // Whether so much work pays for what takes a pass over rows and edges. The edges are counted only
    // where it may.
    fn is_paid(&mut self, graph: &Graph, work: usize) -> bool
        ensures { self.new ≡ self.old }
    {
        if work < graph.len() / SHARE {
            return false;
        }
        let size = graph.len().saturating_add(self.edge_count(graph));
        work >= size / SHARE
    }

    // Searches x's island for a holder of the right over y: whether some list of rules gives it x.
    fn search(
        &mut self,
        alloc: Global,
        graph: &Graph,
        right: Right,
        x: Name,
        y: Name,
    ) -> Result<bool, AllocError>
        requires source { has_vertex (graph_of graph.now) x ≡ true }
        requires target { has_vertex (graph_of graph.now) y ≡ true }
        ensures exact { IfOk result
            (λ answer. IsTrue answer ↔ CanShare (graph_of graph.now) right x y) }
        ensures same { self.new ≡ self.old }
    {
        let rights = Rights::of(right);
        let mut work = graph.len() / PASS;
        let answer = search_island(alloc, graph, &Asked { rights, x, y }, &mut work)?;
        self.work = self.work.saturating_add(work);
        Ok(answer)
    }

    // Finds the islands, if that is due. Where memory is refused, they are due again after as much work.
    fn find_islands(&mut self, alloc: Global, graph: &Graph)
        requires { IsIndexOf graph.now self.old }
        ensures { IsIndexOf graph.now self.new }
    {
        if self.islands.is_some() || !self.is_paid(graph, self.work) {
            return;
        }
        match tg_islands::islands(alloc, graph) {
            Ok(islands) => self.islands = Some(islands),
            Err(AllocError) => self.work = 0,
        }
    }

    // Lists the edges, if they may be listed and that is due. Where memory is refused, they are due again
    // after as many looks.
    fn list_edges(&mut self, alloc: Global, graph: &Graph)
        requires { IsIndexOf graph.now self.old }
        ensures index { IsIndexOf graph.now self.new }
        ensures islands { self.new.numbers ≡ self.old.numbers }
    {
        if !self.lists_edges {
            return;
        }
        if self.has_listed() || !self.is_paid(graph, self.looks) {
            return;
        }
        match EdgesByTarget::of(alloc, graph) {
            Ok(edges) => self.edges = Some(edges),
            Err(AllocError) => self.looks = 0,
        }
    }

    // Whether a short search from x finds a holder, where else each row would be looked at and most may be
    // long. Where memory is refused, it finds none.
    fn finds_near(&mut self, alloc: Global, graph: &Graph, right: Right, x: Name, y: Name) -> bool
        requires source { has_vertex (graph_of graph.now) x ≡ true }
        requires target { has_vertex (graph_of graph.now) y ≡ true }
        ensures yes { IsTrue result → CanShare (graph_of graph.now) right x y }
        ensures same { self.new ≡ self.old }
    {
        if self.has_listed() || self.edge_count(graph) / LONG_ROWS < graph.len() {
            return false;
        }
        let rights = Rights::of(right);
        match holds_near(alloc, graph, &Asked { rights, x, y }) {
            Ok(found) => found,
            Err(AllocError) => false,
        }
    }

    // Whether some list of rules gives x the right over y, by the islands.
    fn answer(&mut self, graph: &Graph, right: Right, x: Name, y: Name) -> bool
        requires index { IsIndexOf graph.now self.old }
        requires known { IsSome self.old.numbers }
        requires source { has_vertex (graph_of graph.now) x ≡ true }
        requires target { has_vertex (graph_of graph.now) y ≡ true }
        ensures exact { IsTrue result ↔ CanShare (graph_of graph.now) right x y }
        ensures same { self.new ≡ self.old }
    {
        laws::shared_exactly();
        let _ = graph.len();
        let Some(islands) = &self.islands else {
            unreachable!();
        };
        let Some(number) = islands.number_of(graph, x) else {
            unreachable!();
        };
        let Some(to) = graph.position(y) else {
            unreachable!();
        };
        match &self.edges {
            Some(edges) => edges.leads(islands, right, number, to),
            None => holds_in(graph, islands, right, number, y, &mut self.looks),
        }
    }

    /// Whether some list of rules, each accepted in its turn, gives x the right over y in the graph of
    /// which this is the index: the answer of `can_share`.
    ///
    /// The errors are `Unknown` with the first of x and y that is no vertex, and want of memory for a search,
    /// which leaves it the index of the graph. It is never `TooLarge`.
    pub fn can_share(
        &mut self,
        alloc: Global,
        graph: &Graph,
        right: Right,
        x: Name,
        y: Name,
    ) -> Result<bool, AskFault>
        requires { IsIndexOf graph.now self.old }
        ensures known { OnOk result (question_fault (graph_of graph.now) x y ≡ None) }
        ensures exact { IfOk result
            (λ answer. IsTrue answer ↔ CanShare (graph_of graph.now) right x y) }
        ensures no { IfOk result
            (λ answer. answer ≡ false → CanShare (graph_of graph.now) right x y → ⊥) }
        ensures fault { IfErr result (IsDueFault (question_fault (graph_of graph.now) x y)) }
        ensures index { IsIndexOf graph.now self.new }
    {
        if !graph.knows(x) {
            return Err(AskFault::Unknown(x));
        }
        if !graph.knows(y) {
            return Err(AskFault::Unknown(y));
        }
        self.find_islands(alloc, graph);
        if self.islands.is_none() {
            return Ok(self.search(alloc, graph, right, x, y)?);
        }
        self.list_edges(alloc, graph);
        if self.finds_near(alloc, graph, right, x, y) {
            return Ok(true);
        }
        Ok(self.answer(graph, right, x, y))
    }
}
