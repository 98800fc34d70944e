//! Protection graphs.
ghost use Rattle.std.specs.Prelude.{◌≡◌, ◌<◌, ℕ, List, [], Some, None, true, false, IfOk, IfSome, OnOk, OnErr, bytes_eq, length, slice_get, position, is_some, MatchBool, if◌then◌else◌};
ghost use Rattle.std.specs.Map.{keys_of, lookup};
ghost use Rattle.indexmap.specs.IndexMap.{spare};
ghost use Rattle.tg_names.specs.Sets.{IsNamed};
ghost use Rattle.tg_rows.specs.Rows.{is_known, is_target, label_in, IsLabel, IsRow, IsGraph, row_number, Adds, ChangesRow};
ghost use Rattle.indexmap.specs.Layout.{set_value_at};
ghost use Rattle.tg_graph.specs.Graphs.{has_vertex, WellFormed};
ghost use Rattle.tg_graph.specs.GraphOf.{graph_of};
ghost use Rattle.tg_graph.specs.Drafts.{taken_over};
ghost use Rattle.tg_graph.specs.Rules.{refusal_of, verdict, Applies, rights_of, with_rights, without_rights, with_vertex, after};
ghost use Rattle.tg_names.specs.Sets.{is_empty_set};
ghost use Rattle.tg_graph.specs.Additions.{AddsVertex, AddsEdge, label_at, label_between, Runs, AreNamed};

use crate::checks::{self, Near, Rows};
use crate::row_maps;
use crate::rules::{Refusal, Rule, RuleFault};
use bitflags::Flags;
use indexmap::IndexMap;
use std::alloc::{AllocError, Global};
use std::marker::Model;
use tg_names::{Name, Right, Rights};
use tg_rows::{Hint, Row, SharedNames, SharedRow, shared_with};

/// A protection graph: vertices, and for each two of them the rights that the first has over the
/// second.
///
/// A position counts the vertices from 0, in order of insertion. A contract sees a graph as the
/// list of its vertices with their rows; what the list stands for is `graph_of`. A call that is
/// refused changes nothing.
#[derive(Drop)]
pub struct Graph {
    pub(crate) rows: IndexMap<Name, SharedRow>,
    // Names of vertices by position, which rows share. They may be those of fewer vertices, and
    // decide no answer.
    pub(crate) names: Option<SharedNames>,
    // The position of the source of the edge that was added last, which the next one mostly has
    // too. It decides no answer.
    source: usize,
    pub(crate) alloc: Global,
}

impl Model for Graph {
    ghost use Rattle.std.specs.Prelude.{List, ℕ};
    ghost use Rattle.tg_names.specs.declared.right_sets.Rights.{Rights};

    ghost Value = { List (List ℕ × List (List ℕ × Rights)) };

    ghost use Rattle.tg_rows.specs.Rows.{IsGraph};

    ghost view = { λ g. g.rows.entries };

    ghost invariant = { λ g. IsGraph g.rows.entries };
}

// Adds rights to the label of an edge out of the vertex x, which stands at the position.
fn widen(
    rows: &mut IndexMap<Name, SharedRow>,
    source: usize,
    x: Name,
    y: Name,
    rights: Rights,
    hint: Hint,
) -> Result<(), AllocError>
    requires named { IsNamed rights }
    requires source { slice_get (keys_of rows.old.entries) source ≡ Some x }
    ensures widened { OnOk result
        (ChangesRow (λ a b. Adds a b y rights) rows.old.entries rows.new.entries x) }
    ensures err { OnErr result (rows.new.entries ≡ rows.old.entries) }
    ensures room { spare rows.new ≡ spare rows.old }
{
    let Some(row) = rows.get_index_mut(source) else {
        return Ok(());
    };
    row.add(y, rights, hint)?;
    Ok(())
}

/// Why a vertex was not added.
#[derive(Clone, Copy, PartialEq, Eq, Debug)]
pub enum VertexFault {
    /// The name is a vertex already.
    Taken,
    /// A request for memory was refused.
    Memory,
}

impl From<AllocError> for VertexFault {
    ghost use Rattle.std.specs.Prelude.{◌≡◌};
    ghost use Rattle.tg_graph.specs.declared.protection.VertexFault.TheVariants.{Memory};

    ghost from_gives = { λ _ fault. fault ≡ Memory };

    fn from(_error: AllocError) -> VertexFault {
        VertexFault::Memory
    }
}

/// Why an edge was not added. Where several reasons are there, the first of this list is meant.
#[derive(Clone, Copy, PartialEq, Eq, Debug)]
pub enum EdgeFault {
    /// The name is no vertex. The edge's source is looked at before its target.
    Unknown(Name),
    /// There is an edge from the source to the target.
    EdgeThere,
    /// The label is empty.
    Empty,
    /// A request for memory was refused, or the source's row has no number below 2^24 for the target: the
    /// target's name has a number of 2^24 or more among those that the row shares, or takes to share with
    /// its first edge, or it is not among them and the row has 2^24 names already, shared ones and its own.
    Memory,
}

impl From<AllocError> for EdgeFault {
    ghost use Rattle.std.specs.Prelude.{◌≡◌};
    ghost use Rattle.tg_graph.specs.declared.protection.EdgeFault.TheVariants.{Memory};

    ghost from_gives = { λ _ fault. fault ≡ Memory };

    fn from(_error: AllocError) -> EdgeFault {
        EdgeFault::Memory
    }
}

impl Rows for Graph {
    ghost entries = { λ g. g };

    fn near(&self, x: Name) -> Near {
        // The source of the edge that was added last stands there without a look at the slots.
        let position = if row_maps::stands_at(&self.rows, x, self.source) {
            Some(self.source)
        } else {
            self.likely_position(x)
        };
        Near {
            position,
            number: self.number_of(position),
        }
    }

    fn row(&self, x: Name, near: Near) -> Option<&Row> {
        let Some(place) = self.place_near(near, x) else {
            return None;
        };
        match self.rows.get_index(place) {
            Some((_, row)) => Some(row.edges()),
            None => None,
        }
    }
}

impl Graph {
    // The position that a vertex mostly has.
    fn likely_position(&self, name: Name) -> Option<usize> {
        self.names.as_ref()?.likely_position(name)
    }

    // The number that the name of the vertex at a position mostly has among the shared names.
    fn number_of(&self, position: Option<usize>) -> Option<usize> {
        self.names.as_ref()?.number_at(position?)
    }

    // The position of a vertex, found by the order of the shared names. It decides no answer.
    fn position_in_order(&self, name: Name) -> Option<usize> {
        self.names.as_ref()?.position_in_order(name)
    }

    // The graph that has these rows.
    pub(crate) fn of_rows(
        rows: IndexMap<Name, SharedRow>,
        names: Option<SharedNames>,
        alloc: Global,
    ) -> Graph
        requires { IsGraph rows.entries }
        ensures { result ≡ rows.entries }
    {
        Graph {
            rows,
            names,
            source: 0,
            alloc,
        }
    }

    // Puts a row in for the vertex at a position.
    pub(crate) fn set_row(&mut self, source: usize, row: Row) -> Result<(), AllocError>
        requires within { source < length self.old }
        requires row { IsRow row }
        requires known { (v : List ℕ) → is_target row v ≡ true → is_known self.old v ≡ true }
        ensures put { OnOk result (self.new ≡ set_value_at self.old source row) }
        ensures err { OnErr result (self.new ≡ self.old) }
    {
        let row = SharedRow::of(self.alloc, row)?;
        row_maps::set_at(&mut self.rows, source, row);
        Ok(())
    }

    // A copy of the row of a vertex.
    pub(crate) fn row_of(&self, x: Name) -> Result<SharedRow, AllocError>
        requires { is_known self.now x ≡ true }
        ensures row { IfOk result (λ row. lookup (bytes_eq x) self.now ≡ Some row) }
    {
        let Some(place) = self.position_near(self.source, x) else {
            return SharedRow::new(self.alloc);
        };
        let Some((_, row)) = self.rows.get_index(place) else {
            return SharedRow::new(self.alloc);
        };
        row.unshared(self.alloc)
    }
}

impl Graph {
    /// The empty graph.
    pub fn new(alloc: Global) -> Graph
        ensures { result ≡ [] }
    {
        Graph::of_rows(IndexMap::new(alloc), None, alloc)
    }

    /// How many vertices there are.
    pub fn len(&self) -> usize
        ensures value { result ≡ length self.now }
        ensures well_formed { WellFormed (graph_of self.now) }
        ensures graph { IsGraph self.now }
    {
        self.rows.len()
    }

    /// Whether a name is a vertex.
    pub fn knows(&self, name: Name) -> bool
        ensures { result ≡ has_vertex (graph_of self.now) name }
    {
        self.position(name).is_some()
    }

    // The position that the target of an edge out of the vertex at a position mostly has.
    pub(crate) fn likely_end(&self, position: usize, place: usize) -> Option<usize> {
        let (_, row) = self.rows.get_index(position)?;
        row.edges().likely_end(place)
    }

    // The number, if it is the position of the vertex.
    pub(crate) fn confirmed(&self, number: Option<usize>, name: Name) -> Option<usize>
        ensures { IfSome result
            (λ number. position (bytes_eq name) (keys_of self.now) ≡ Some number) }
    {
        match number {
            Some(number) if row_maps::stands_at(&self.rows, name, number) => Some(number),
            _ => None,
        }
    }

    // The position of a vertex whose number is not the likely one.
    #[inline(never)]
    fn position_by_order(&self, name: Name) -> Option<usize>
        ensures { result ≡ position (bytes_eq name) (keys_of self.now) }
    {
        match self.confirmed(self.position_in_order(name), name) {
            Some(number) => Some(number),
            None => self.rows.get_index_of(&name),
        }
    }

    // The position of a vertex, which is likely this one.
    #[inline(always)]
    fn position_by(&self, likely: Option<usize>, name: Name) -> Option<usize>
        ensures { result ≡ position (bytes_eq name) (keys_of self.now) }
    {
        match self.confirmed(likely, name) {
            Some(number) => Some(number),
            None => self.position_by_order(name),
        }
    }

    /// The position of a vertex, or `None` for a name that is no vertex.
    #[inline(always)]
    pub fn position(&self, name: Name) -> Option<usize>
        ensures { result ≡ position (bytes_eq name) (keys_of self.now) }
    {
        self.position_by(self.likely_position(name), name)
    }

    /// The vertex at a position, or `None` past the last.
    pub fn name_at(&self, position: usize) -> Option<Name>
        ensures { result ≡ slice_get (keys_of self.now) position }
    {
        match self.rows.get_index(position) {
            Some((name, _)) => Some(*name),
            None => None,
        }
    }

    /// Whether x has a right over y. Where one of them is no vertex, it has not.
    pub fn holds(&self, x: Name, right: Right, y: Name) -> bool
        ensures { result ≡ (graph_of self.now).holds x right y }
    {
        checks::holds(self, x, right, y)
    }

    // Adds rights to the label of an edge, whose ends may stand there.
    fn give(
        &mut self,
        x: Name,
        y: Name,
        rights: Rights,
        from: Near,
        to: Near,
    ) -> Result<(), AllocError>
        requires named { IsNamed rights }
        requires source { has_vertex (graph_of self.old) x ≡ true }
        requires target { has_vertex (graph_of self.old) y ≡ true }
        ensures given { OnOk result
            (graph_of self.new ≡ with_rights (graph_of self.old) x y rights) }
        ensures err { OnErr result (self.new ≡ self.old) }
    {
        let Some(source) = self.place_near(from, x) else {
            return Ok(());
        };
        let hint = Hint {
            names: self.names.as_ref(),
            number: to.number,
        };
        widen(&mut self.rows, source, x, y, rights, hint)?;
        Ok(())
    }

    // Adds an edge out of the vertex x, which stands at the position, to the vertex y, which may
    // stand at the other, if there is none, and says whether there was none.
    fn join(
        &mut self,
        source: usize,
        target: usize,
        x: Name,
        y: Name,
        rights: Rights,
    ) -> Result<bool, AllocError>
        requires label { IsLabel rights }
        requires source { slice_get (keys_of self.old) source ≡ Some x }
        requires target { has_vertex (graph_of self.old) y ≡ true }
        ensures said { IfOk result
            (λ added. added ≡ is_empty_set (label_between (graph_of self.old) x y)) }
        ensures joined { IfOk result
            (λ added. MatchBool added
            (graph_of self.new ≡ with_rights (graph_of self.old) x y rights)
            (self.new ≡ self.old)) }
        ensures absent { OnErr result
            (is_empty_set (label_between (graph_of self.old) x y) ≡ true) }
        ensures err { OnErr result (self.new ≡ self.old) }
    {
        let Some(row) = self.rows.get_index_mut(source) else {
            return Ok(false);
        };
        let names = self.names.as_ref();
        let hint = Hint {
            names,
            number: names.and_then(|names| names.number_at(target)),
        };
        let added = row.add_new(y, rights, hint)?;
        Ok(added)
    }

    /// Adds a vertex with no edges, as the last.
    pub fn add_vertex(&mut self, n: Name) -> Result<(), VertexFault>
        ensures added { AddsVertex (graph_of self.old) n result (graph_of self.new) }
        ensures kept { OnErr result (self.new ≡ self.old) }
    {
        if self.knows(n) {
            return Err(VertexFault::Taken);
        }
        // The bytes of a `Name` are a name, as those of each vertex must be.
        let _ = n.as_bytes();
        let row = SharedRow::new(self.alloc)?;
        self.rows.reserve(1)?;
        row_maps::put(&mut self.rows, n, row);
        Ok(())
    }

    // Adds a vertex, over which x has the rights.
    fn create(&mut self, x: Name, n: Name, rights: Rights) -> Result<(), AllocError>
        requires named { IsNamed rights }
        requires source { has_vertex (graph_of self.old) x ≡ true }
        requires fresh { has_vertex (graph_of self.old) n ≡ false }
        ensures created { OnOk result
            (graph_of self.new ≡ with_rights (with_vertex (graph_of self.old) n) x n rights) }
        ensures err { OnErr result (self.new ≡ self.old) }
    {
        let Some(source) = self.position_near(self.source, x) else {
            return Ok(());
        };
        // The bytes of a `Name` are a name, as those of each vertex must be.
        let _ = n.as_bytes();
        let row = SharedRow::new(self.alloc)?;
        self.rows.reserve(1)?;
        let hint = Hint {
            names: self.names.as_ref(),
            number: None,
        };
        widen(&mut self.rows, source, x, n, rights, hint)?;
        row_maps::put(&mut self.rows, n, row);
        Ok(())
    }
}

impl Graph {
    /// Whether the graph accepts a rule. The error is the first reason to refuse it.
    #[tactic(auto, unfolding(crate::specs::Rules::refusal_of, crate::specs::Rules::after))]
    pub fn check(&self, rule: &Rule) -> Result<(), Refusal>
        requires { IsNamed (rights_of rule.now) }
        ensures { result ≡ verdict (refusal_of (graph_of self.now) rule.now) }
    {
        checks::check(self, rule)
    }

    // Takes rights out of the label of an edge, whose ends may stand there.
    fn withdraw(
        &mut self,
        x: Name,
        y: Name,
        rights: Rights,
        from: Near,
        to: Near,
    ) -> Result<(), AllocError>
        requires named { IsNamed rights }
        requires source { has_vertex (graph_of self.old) x ≡ true }
        ensures taken { OnOk result
            (graph_of self.new ≡ without_rights (graph_of self.old) x y rights) }
        ensures err { OnErr result (self.new ≡ self.old) }
    {
        let Some(source) = self.place_near(from, x) else {
            return Ok(());
        };
        let Some(row) = self.rows.get_index_mut(source) else {
            return Ok(());
        };
        row.take(y, rights, to.number)?;
        Ok(())
    }

    /// Carries out a rule. It fails where `check` does, and where a request for memory is refused.
    #[tactic(auto, unfolding(crate::specs::Rules::refusal_of, crate::specs::Rules::after))]
    pub fn apply(&mut self, rule: &Rule) -> Result<(), RuleFault>
        requires { IsNamed (rights_of rule.now) }
        ensures applied { Applies (graph_of self.old) rule.now result (graph_of self.new) }
        ensures kept { OnErr result (self.new ≡ self.old) }
    {
        let near = checks::near_rule(self, rule);
        checks::check_near(self, &near, rule)?;
        match *rule {
            Rule::Take { x, z, rights, .. } => self.give(x, z, rights, near.first, near.third)?,
            Rule::Grant { y, z, rights, .. } => self.give(y, z, rights, near.second, near.third)?,
            Rule::Create { x, n, rights } => self.create(x, n, rights)?,
            Rule::Remove { x, y, rights } => self.withdraw(x, y, rights, near.first, near.second)?,
        }
        Ok(())
    }

    // The position of a vertex, looked for at a position first. That one decides no answer.
    #[inline(always)]
    pub(crate) fn position_near(&self, guess: usize, name: Name) -> Option<usize>
        ensures place { IfSome result (λ place. slice_get (keys_of self.now) place ≡ Some name) }
        ensures known { is_some result ≡ has_vertex (graph_of self.now) name }
    {
        if row_maps::stands_at(&self.rows, name, guess) {
            Some(guess)
        } else {
            self.position(name)
        }
    }

    // The position of a vertex, which may stand there.
    #[inline(always)]
    fn place_near(&self, near: Near, name: Name) -> Option<usize>
        ensures place { IfSome result (λ place. slice_get (keys_of self.now) place ≡ Some name) }
        ensures known { is_some result ≡ has_vertex (graph_of self.now) name }
    {
        self.position_by(near.position, name)
    }

    // Shares the names of all vertices with the rows to come, where a target's name is not shared and
    // there are twice as many vertices as such names. A refusal is none: shared names save memory.
    fn share_names(&mut self, target: usize)
        ensures { self.new ≡ self.old }
    {
        let shared = match &self.names {
            Some(names) => names.len(),
            None => 0,
        };
        if target < shared || self.rows.len() / 2 < shared {
            return;
        }
        if let Ok(names) = row_maps::names_of(self.alloc, &self.rows) {
            self.names = Some(names);
        }
    }

    // Why an edge from x to y with no rights is not added.
    fn fault_of_no_rights(&self, x: Name, y: Name) -> EdgeFault
        ensures { result ≡ (if is_empty_set (label_between (graph_of self.now) x y)
            then EdgeFault.Empty else EdgeFault.EdgeThere) }
    {
        if checks::label_between(self, x, y).is_empty() {
            EdgeFault::Empty
        } else {
            EdgeFault::EdgeThere
        }
    }

    // Adds an edge from x to y, which stand at these positions.
    pub(crate) fn add_edge_at(
        &mut self,
        source: usize,
        target: usize,
        x: Name,
        y: Name,
        rights: Rights,
    ) -> Result<(), EdgeFault>
        requires named { IsNamed rights }
        requires source { slice_get (keys_of self.old) source ≡ Some x }
        requires known { has_vertex (graph_of self.old) x ≡ true }
        requires target { has_vertex (graph_of self.old) y ≡ true }
        ensures added { AddsEdge (graph_of self.old) x y rights result (graph_of self.new) }
        ensures kept { OnErr result (self.new ≡ self.old) }
    {
        if rights.is_empty() {
            return Err(self.fault_of_no_rights(x, y));
        }
        self.share_names(target);
        if self.join(source, target, x, y, rights)? {
            self.source = source;
            Ok(())
        } else {
            Err(EdgeFault::EdgeThere)
        }
    }

    /// Adds an edge between vertices between which there is none, with a label that is not empty.
    pub fn add_edge(&mut self, x: Name, y: Name, rights: Rights) -> Result<(), EdgeFault>
        requires { IsNamed rights }
        ensures added { AddsEdge (graph_of self.old) x y rights result (graph_of self.new) }
        ensures kept { OnErr result (self.new ≡ self.old) }
    {
        let Some(source) = self.position_near(self.source, x) else {
            return Err(EdgeFault::Unknown(x));
        };
        // A text of all pairs has a vertex's targets in the order of the vertices.
        let next_target = self.row_len(source);
        let Some(target) = self.position_near(next_target, y) else {
            return Err(EdgeFault::Unknown(y));
        };
        self.add_edge_at(source, target, x, y, rights)
    }

    /// How many edges there are out of the vertex at a position, 0 past the last.
    pub fn row_len(&self, position: usize) -> usize
        ensures { result ≡ length (row_number self.now position) }
    {
        match self.rows.get_index(position) {
            Some((_, row)) => row.edges().len(),
            None => 0,
        }
    }

    /// The target and label of an edge out of the vertex at a position, by its place in the name
    /// order of the targets.
    pub fn row_at(&self, position: usize, place: usize) -> Option<(Name, Rights)>
        ensures { result ≡ slice_get (row_number self.now position) place }
    {
        match self.rows.get_index(position) {
            Some((_, row)) => row.edges().at(place),
            None => None,
        }
    }

    /// The rights of the vertex at a position over y, none past the last.
    pub fn rights_at(&self, position: usize, y: Name) -> Rights
        ensures rights { result ≡ label_in (row_number self.now position) y }
        ensures named { IsNamed result }
    {
        match self.rows.get_index(position) {
            Some((_, row)) => row.edges().label(y),
            None => Rights::empty(),
        }
    }

    /// The number that a name has among those that rows share, by which `rights_near` finds the edges to
    /// its vertex sooner; `None` where rows share no such name. It decides no answer.
    pub fn likely_number(&self, name: Name) -> Option<usize> {
        self.names.as_ref()?.find(name)
    }

    /// The same as `rights_at`, which is found sooner where the likely number of y is given.
    #[inline(always)]
    pub fn rights_near(&self, position: usize, y: Name, likely: Option<usize>) -> Rights
        ensures rights { result ≡ label_in (row_number self.now position) y }
        ensures named { IsNamed result }
    {
        match self.rows.get_index(position) {
            Some((_, row)) => row.edges().label_near(y, likely),
            None => Rights::empty(),
        }
    }

    /// A graph with the same vertices at the same positions, and the same edges. It shares each row
    /// with this one until the row is changed in one of them, so it costs time and memory in the
    /// number of vertices.
    pub fn copy(&self) -> Result<Graph, AllocError>
        ensures { IfOk result (λ copy. copy ≡ self.now) }
    {
        let rows = row_maps::shared(&self.rows)?;
        let names = shared_with(self.names.as_ref())?;
        Ok(Graph::of_rows(rows, names, self.alloc))
    }

    /// A graph with the same vertices at the same positions, and the same edges. It is built to share
    /// no row and no name with this one, for another thread. That is tested and not proved, as a contract
    /// sees the same value either way. It fails where a request for memory is refused, and where the name
    /// of a target has a number of 2^24 or more among those of all vertices.
    pub fn copy_unshared(&self) -> Result<Graph, AllocError>
        ensures { IfOk result (λ copy. copy ≡ self.now) }
    {
        let names = Some(row_maps::names_of(self.alloc, &self.rows)?);
        let rows = row_maps::unshared(self.alloc, &self.rows, names.as_ref())?;
        Ok(Graph::of_rows(rows, names, self.alloc))
    }

    /// How many graphs and drafts have the row of the vertex at a position, this one counted, as copies
    /// share it until one of them changes it; `None` past the last. Of the number nothing is said: a
    /// contract sees the same row, however many have it.
    pub fn row_owners(&self, position: usize) -> Option<usize>
        ensures { is_some result ≡ is_some (slice_get (keys_of self.now) position) }
    {
        match self.rows.get_index(position) {
            Some((_, row)) => Some(row.owners()),
            None => None,
        }
    }

    /// How many have the names that the rows of the graph share, this one counted; `None` where they share
    /// none. It decides no answer.
    pub fn name_owners(&self) -> Option<usize> {
        Some(self.names.as_ref()?.owners())
    }

    /// Takes over the vertices at some positions of another graph, in turn, each with its row: into
    /// the place that it has here, or as the last. The vertices are then those of the other graph.
    /// Rows are shared until they are changed, and no name is looked up where it has the same
    /// position in both graphs. Want of memory changes nothing.
    pub fn take_over(&mut self, other: &Graph, positions: &[usize]) -> Result<(), AllocError>
        requires { keys_of (taken_over self.old other.now positions.now) ≡ keys_of other.now }
        ensures taken { OnOk result (self.new ≡ taken_over self.old other.now positions.now) }
        ensures err { OnErr result (self.new ≡ self.old) }
    {
        let taken = row_maps::taken_at(self.alloc, &other.rows, positions)?;
        let missing = other.len().saturating_sub(self.len());
        self.rows.reserve(missing)?;
        row_maps::put_all_taken(&mut self.rows, taken);
        Ok(())
    }

    /// The rights of x over y, or `None` where one of them is no vertex.
    pub fn label(&self, x: Name, y: Name) -> Option<Rights>
        ensures { result ≡ label_at (graph_of self.now) x y }
    {
        if self.knows(x) && self.knows(y) {
            Some(checks::label_between(self, x, y))
        } else {
            None
        }
    }

    /// Carries out rules in turn, up to the first that fails. The error is its index and its fault;
    /// the rules before it stand.
    pub fn run(&mut self, rules: &[Rule]) -> Result<(), (usize, RuleFault)>
        requires { AreNamed rules.now }
        ensures { Runs (graph_of self.old) rules.now result (graph_of self.new) }
    {
        for i in 0..rules.len() {
            match self.apply(&rules[i]) {
                Ok(()) => {}
                Err(fault) => return Err((i, fault)),
            }
        }
        Ok(())
    }
}
