//! Changed rows and new vertices laid over a graph.
ghost use Rattle.std.specs.Prelude.{◌≡◌, ◌+◌, ◌^◌, ◌<◌, ◌≤◌, [], ◌∷◌, true, false, Some, IfOk, IfErr, OnOk, OnErr, bytes_eq, length};
ghost use Rattle.std.specs.Map.{keys_of};
ghost use Rattle.indexmap.specs.IndexMap.{spare, insert_all};
ghost use Rattle.indexmap.specs.IndexSet.{insert_key, insert_all as insert_all_keys};
ghost use Rattle.tg_names.specs.Sets.{IsNamed};
ghost use Rattle.tg_rows.specs.Rows.{Entries, is_known, IsGraph, Adds, TakesAway};
ghost use Rattle.tg_graph.specs.Graphs.{has_vertex};
ghost use Rattle.tg_graph.specs.GraphOf.{graph_of};
ghost use Rattle.tg_graph.specs.Rules.{verdict, Applies, rights_of, with_rights, without_rights, with_vertex, refusal_of, after};
ghost use Rattle.tg_graph.specs.Drafts.{laid_over, Fits, IsDraft, PutsRow, ArePositionsOf, NotesPosition, written_by};

use crate::checks::{self, Near, Rows};
use crate::protection::Graph;
use crate::row_maps;
use crate::rules::{Refusal, Rule, RuleFault};
use indexmap::IndexMap;
use std::alloc::{AllocError, Global};
use std::marker::Model;
use tg_names::{Name, Right, Rights};
use tg_rows::{Hint, Row, SharedNames, SharedRow, shared_with};

/// Changed rows and new vertices, laid over a graph.
///
/// A contract sees a draft as its rows and the created vertices; what it stands for over a graph is
/// `laid_over`. The calls that are given a graph require that the draft fits it.
#[derive(Drop)]
pub struct Draft {
    rows: IndexMap<Name, SharedRow>,
    created: Vec<Name>,
    alloc: Global,
}

impl Model for Draft {
    ghost use Rattle.std.specs.Prelude.{List, ℕ};
    ghost use Rattle.tg_names.specs.declared.right_sets.Rights.{Rights};

    ghost Value = { List (List ℕ × List (List ℕ × Rights)) × List (List ℕ) };

    ghost use Rattle.tg_graph.specs.Drafts.{IsDraft};

    ghost view = { λ d. (d.rows.entries, d.created.items) };

    ghost invariant = { λ d. IsDraft (d.rows.entries, d.created.items) };
}

// A graph with a draft laid over it.
#[derive(Clone, Copy)]
struct Laid<'a> {
    base: &'a Graph,
    draft: &'a Draft,
}

impl<'a> Rows for Laid<'a> {
    ghost entries = { λ l. laid_over l.base.now l.draft.now };

    fn near(&self, x: Name) -> Near {
        self.base.near(x)
    }

    fn row(&self, x: Name, near: Near) -> Option<&Row> {
        let draft = self.draft;
        match draft.rows.get(&x) {
            Some(row) => Some(row.edges()),
            None => self.base.row(x, near),
        }
    }
}

// Adds rights to the label of an edge.
fn widen(
    rows: &mut IndexMap<Name, SharedRow>,
    base: &Graph,
    x: Name,
    y: Name,
    rights: Rights,
) -> Result<(), AllocError>
    requires named { IsNamed rights }
    requires known { is_known (insert_all bytes_eq base.now rows.old.entries) x ≡ true }
    ensures widened { OnOk result
        (PutsRow (λ a b. Adds a b y rights) base.now rows.old.entries rows.new.entries x) }
    ensures err { OnErr result (rows.new.entries ≡ rows.old.entries) }
    ensures room { spare rows.old ≤ spare rows.new + 1 }
{
    let names = base.names.as_ref();
    let hint = Hint {
        names,
        number: names.and_then(|names| names.likely_number(y)),
    };
    match rows.get_mut(&x) {
        Some(row) => row.add(y, rights, hint),
        None => {
            let mut row = base.row_of(x)?;
            row.add(y, rights, hint)?;
            rows.insert(x, row)?;
            Ok(())
        }
    }
}

// Takes rights out of the label of an edge.
fn narrow(
    rows: &mut IndexMap<Name, SharedRow>,
    base: &Graph,
    x: Name,
    y: Name,
    rights: Rights,
) -> Result<(), AllocError>
    requires named { IsNamed rights }
    requires known { is_known (insert_all bytes_eq base.now rows.old.entries) x ≡ true }
    ensures narrowed { OnOk result
        (PutsRow (λ a b. TakesAway a b y rights) base.now rows.old.entries rows.new.entries x) }
    ensures err { OnErr result (rows.new.entries ≡ rows.old.entries) }
{
    match rows.get_mut(&x) {
        Some(row) => row.take(y, rights, None),
        None => {
            let mut row = base.row_of(x)?;
            row.take(y, rights, None)?;
            rows.insert(x, row)?;
            Ok(())
        }
    }
}

// Notes the position of a draft's vertex: the one that it has in the base, or the next past all
// so far. Gives the next one from then on.
fn note_position(
    positions: &mut Vec<usize>,
    base: &Graph,
    name: Name,
    next: usize,
) -> Result<usize, AllocError>
    requires { next + 1 < 2 ^ 64 }
    ensures { IfOk result
        (NotesPosition (keys_of base.now) name next positions.old.items positions.new.items) }
{
    match base.position(name) {
        Some(position) => {
            positions.push(position)?;
            Ok(next)
        }
        None => {
            positions.push(next)?;
            Ok(next + 1)
        }
    }
}

impl Draft {
    /// The draft that changes nothing. It fits each graph.
    pub fn new(alloc: Global) -> Draft
        ensures value { result ≡ ([], []) }
        ensures fits { (base : Entries) → Fits base result }
    {
        let rows = IndexMap::new(alloc);
        let created = Vec::new(alloc);
        Draft {
            rows,
            created,
            alloc,
        }
    }

    /// How many vertices are created.
    pub fn created(&self) -> usize
        ensures value { result ≡ length self.now.1 }
        ensures draft { IsDraft self.now }
    {
        self.created.len()
    }

    /// The positions that the vertices of the draft's rows have in what it stands for, in the order
    /// of the rows.
    pub fn positions(&self, base: &Graph) -> Result<Vec<usize>, AllocError>
        requires { Fits base.now self.now }
        ensures { IfOk result (λ positions. ArePositionsOf base.now self.now positions.items) }
    {
        let mut positions = Vec::with_capacity(self.alloc, self.rows.len())?;
        let mut next = base.rows.len();
        for (name, _) in &self.rows {
            next = note_position(&mut positions, base, *name, next)?;
        }
        Ok(positions)
    }

    /// Whether a name is a vertex of what the draft stands for.
    pub fn known(&self, base: &Graph, name: Name) -> bool
        requires { Fits base.now self.now }
        ensures { result ≡ has_vertex (graph_of (laid_over base.now self.now)) name }
    {
        checks::knows(&Laid { base, draft: self }, name)
    }

    /// Whether x has a right over y in what the draft stands for.
    pub fn holds(&self, base: &Graph, x: Name, right: Right, y: Name) -> bool
        requires { Fits base.now self.now }
        ensures { result ≡ (graph_of (laid_over base.now self.now)).holds x right y }
    {
        checks::holds(&Laid { base, draft: self }, x, right, y)
    }

    // Adds rights to the label of an edge.
    fn give(&mut self, base: &Graph, x: Name, y: Name, rights: Rights) -> Result<(), AllocError>
        requires named { IsNamed rights }
        requires fits { Fits base.now self.old }
        requires source { has_vertex (graph_of (laid_over base.now self.old)) x ≡ true }
        requires target { has_vertex (graph_of (laid_over base.now self.old)) y ≡ true }
        ensures given { OnOk result
            (graph_of (laid_over base.now self.new) ≡ with_rights (graph_of (laid_over base.now self.old)) x y rights) }
        ensures rows { OnOk result
            (keys_of self.new.0 ≡ insert_key bytes_eq (keys_of self.old.0) x) }
        ensures fits { Fits base.now self.new }
        ensures err { OnErr result (self.new ≡ self.old) }
    {
        // The base is a graph.
        let _ = base.len();
        widen(&mut self.rows, base, x, y, rights)?;
        Ok(())
    }

    // Takes rights out of the label of an edge.
    fn withdraw(&mut self, base: &Graph, x: Name, y: Name, rights: Rights) -> Result<(), AllocError>
        requires named { IsNamed rights }
        requires fits { Fits base.now self.old }
        requires source { has_vertex (graph_of (laid_over base.now self.old)) x ≡ true }
        ensures taken { OnOk result
            (graph_of (laid_over base.now self.new) ≡ without_rights (graph_of (laid_over base.now self.old)) x y rights) }
        ensures rows { OnOk result
            (keys_of self.new.0 ≡ insert_key bytes_eq (keys_of self.old.0) x) }
        ensures fits { Fits base.now self.new }
        ensures err { OnErr result (self.new ≡ self.old) }
    {
        // The base is a graph.
        let _ = base.len();
        narrow(&mut self.rows, base, x, y, rights)?;
        Ok(())
    }

    // Adds a vertex, over which x has the rights.
    fn create(&mut self, base: &Graph, x: Name, n: Name, rights: Rights) -> Result<(), AllocError>
        requires named { IsNamed rights }
        requires fits { Fits base.now self.old }
        requires source { has_vertex (graph_of (laid_over base.now self.old)) x ≡ true }
        requires fresh { has_vertex (graph_of (laid_over base.now self.old)) n ≡ false }
        ensures created { OnOk result
            (graph_of (laid_over base.now self.new) ≡ with_rights (with_vertex (graph_of (laid_over base.now self.old)) n) x n rights) }
        ensures rows { OnOk result
            (keys_of self.new.0 ≡ insert_all_keys bytes_eq (keys_of self.old.0) (x ∷ n ∷ [])) }
        ensures fits { Fits base.now self.new }
        ensures err { OnErr result (self.new ≡ self.old) }
    {
        // The base is a graph, and the bytes of a `Name` are a name.
        let _ = base.len();
        let _ = n.as_bytes();
        let row = SharedRow::new(self.alloc)?;
        self.rows.reserve(2)?;
        self.created.reserve(1)?;
        widen(&mut self.rows, base, x, n, rights)?;
        row_maps::put(&mut self.rows, n, row);
        self.created.push_reserved(n);
        Ok(())
    }

    /// Whether what the draft stands for accepts a rule. The error is the first reason to refuse
    /// it.
    pub fn check(&self, base: &Graph, rule: &Rule) -> Result<(), Refusal>
        requires named { IsNamed (rights_of rule.now) }
        requires fits { Fits base.now self.now }
        ensures { result ≡ verdict (refusal_of (graph_of (laid_over base.now self.now)) rule.now) }
    {
        checks::check(&Laid { base, draft: self }, rule)
    }

    /// Carries out a rule on what the draft stands for. A refused rule, and want of memory, change
    /// nothing.
    #[tactic(auto, unfolding(crate::specs::Rules::refusal_of, crate::specs::Rules::after))]
    pub fn apply(&mut self, base: &Graph, rule: &Rule) -> Result<(), RuleFault>
        requires named { IsNamed (rights_of rule.now) }
        requires fits { Fits base.now self.old }
        ensures applied { Applies (graph_of (laid_over base.now self.old)) rule.now result
            (graph_of (laid_over base.now self.new)) }
        // The names of its rows are those from before, and then the written ones that were not
        // among them.
        ensures rows { OnOk result
            (keys_of self.new.0 ≡ insert_all_keys bytes_eq (keys_of self.old.0)
            (written_by rule.now)) }
        ensures fits { Fits base.now self.new }
        ensures kept { OnErr result (self.new ≡ self.old) }
    {
        self.check(base, rule)?;
        match *rule {
            Rule::Take { x, z, rights, .. } => self.give(base, x, z, rights)?,
            Rule::Grant { y, z, rights, .. } => self.give(base, y, z, rights)?,
            Rule::Create { x, n, rights } => self.create(base, x, n, rights)?,
            Rule::Remove { x, y, rights } => self.withdraw(base, x, y, rights)?,
        }
        Ok(())
    }

    /// What the draft stands for, as a graph of its own. It shares each row with the base or the
    /// draft, until the row is changed in one of them.
    pub fn whole(&self, base: &Graph) -> Result<Graph, AllocError>
        requires { Fits base.now self.now }
        ensures { IfOk result (λ whole. whole ≡ laid_over base.now self.now) }
    {
        let mut rows = row_maps::shared(&base.rows)?;
        let changes = row_maps::shared(&self.rows)?;
        rows.reserve(self.created())?;
        row_maps::put_all(&mut rows, base.names.as_ref(), changes);
        let names = shared_with(base.names.as_ref())?;
        Ok(Graph::of_rows(rows, names, base.alloc))
    }
}

/// A draft and the graph that it is laid over, in which there is room for the vertices that the
/// draft creates.
///
/// A contract sees the graph, and then the draft.
#[derive(Drop)]
pub struct Ready {
    rows: IndexMap<Name, SharedRow>,
    names: Option<SharedNames>,
    alloc: Global,
    draft: Draft,
}

impl Model for Ready {
    ghost use Rattle.std.specs.Prelude.{List, ℕ, ◌≤◌, length};
    ghost use Rattle.indexmap.specs.IndexMap.{spare};
    ghost use Rattle.tg_names.specs.declared.right_sets.Rights.{Rights};

    ghost Value = { List (List ℕ × List (List ℕ × Rights)) × (List (List ℕ × List (List ℕ × Rights)) × List (List ℕ)) };

    ghost use Rattle.tg_rows.specs.Rows.{IsGraph};
    ghost use Rattle.tg_graph.specs.Drafts.{Fits};

    ghost view = { λ r. (r.rows.entries, r.draft) };

    ghost invariant = { λ r. IsGraph r.rows.entries × Fits r.rows.entries r.draft × (length r.draft.1 ≤ spare r.rows) };
}

impl Ready {
    /// Makes the room. Where memory is refused, graph and draft are given back.
    pub fn new(base: Graph, draft: Draft) -> Result<Ready, (Graph, Draft)>
        requires { Fits base draft }
        ensures ok { IfOk result (λ ready. ready ≡ (base, draft)) }
        ensures err { IfErr result (λ parts. parts ≡ (base, draft)) }
    {
        let Graph {
            mut rows,
            names,
            alloc,
            ..
        } = base;
        match rows.reserve(draft.created()) {
            Ok(()) => Ok(Ready {
                rows,
                names,
                alloc,
                draft,
            }),
            Err(AllocError) => Err((Graph::of_rows(rows, names, alloc), draft)),
        }
    }

    /// The graph that the draft stands for. It takes no memory, and its cost is that of the draft's
    /// rows.
    pub fn merge(self) -> Graph
        ensures { result ≡ laid_over self.0 self.1 }
    {
        let Ready {
            mut rows,
            names,
            alloc,
            draft,
        } = self;
        let Draft { rows: changed, .. } = draft;
        row_maps::put_all(&mut rows, names.as_ref(), changed);
        Graph::of_rows(rows, names, alloc)
    }

    /// The graph and the draft.
    pub fn into_parts(self) -> (Graph, Draft)
        ensures { result ≡ self }
    {
        let Ready {
            rows,
            names,
            alloc,
            draft,
        } = self;
        (Graph::of_rows(rows, names, alloc), draft)
    }
}

impl Graph {
    /// The draft over the graph that changes nothing.
    pub fn draft(&self) -> Draft
        ensures value { result ≡ ([], []) }
        ensures fits { Fits self.now result }
    {
        Draft::new(self.alloc)
    }

    /// Takes the draft's changes in, at the cost of the draft's rows and, where its created
    /// vertices make the table grow, of the table. Where memory is refused, nothing is changed, and
    /// the draft is given back.
    pub fn merge(&mut self, draft: Draft) -> Result<(), Draft>
        requires { Fits self.old draft }
        ensures merged { OnOk result (self.new ≡ laid_over self.old draft) }
        ensures err { OnErr result (self.new ≡ self.old) }
        ensures back { IfErr result (λ back. back ≡ draft) }
    {
        match self.rows.reserve(draft.created()) {
            Ok(()) => {
                let Draft { rows, .. } = draft;
                row_maps::put_all(&mut self.rows, self.names.as_ref(), rows);
                Ok(())
            }
            Err(AllocError) => Err(draft),
        }
    }
}
