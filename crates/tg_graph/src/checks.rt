//! Whether a rule is accepted: one answer for a graph and for a draft laid over one.
ghost use Rattle.std.specs.Prelude.{◌≡◌, Some, false, MatchOption, bytes_eq};
ghost use Rattle.std.specs.Map.{lookup};
ghost use Rattle.std.specs.Option.{option_copied};
ghost use Rattle.tg_names.specs.Sets.{IsNamed};
ghost use Rattle.tg_rows.specs.Rows.{Entries, label_of};
ghost use Rattle.tg_graph.specs.GraphOf.{IsRowOf};
ghost use Rattle.tg_graph.specs.Graphs.{has_vertex};
ghost use Rattle.tg_graph.specs.GraphOf.{graph_of};
ghost use Rattle.tg_graph.specs.Rules.{refusal_of, verdict, not_held, rights_of};
ghost use Rattle.tg_graph.specs.Additions.{label_between};

use crate::rules::{Refusal, Rule};
use bitflags::Flags;
use tg_names::{Name, Right, Rights};
use tg_rows::Row;

/// Where a vertex may stand, found once for a rule that looks at it several times. It decides no answer.
#[derive(Clone, Copy)]
pub(crate) struct Near {
    /// The position of the vertex.
    pub position: Option<usize>,
    /// The number of its name among those that rows share.
    pub number: Option<usize>,
}

impl Near {
    // Nothing is known.
    fn nowhere() -> Near {
        Near {
            position: None,
            number: None,
        }
    }
}

/// Where the vertices that a rule names may stand, in its order. They decide no answer.
#[derive(Clone, Copy)]
pub(crate) struct NearRule {
    pub first: Near,
    pub second: Near,
    pub third: Near,
}

/// What the rules read of a graph: the row of each vertex.
pub(crate) trait Rows {
    ghost use Rattle.std.specs.Prelude.{◌≡◌, bytes_eq};
    ghost use Rattle.std.specs.Map.{lookup};
    ghost use Rattle.std.specs.Option.{option_copied};
    ghost use Rattle.tg_rows.specs.Rows.{Entries};

    // The vertices with their rows.
    ghost entries: { Self → Entries };

    /// Where a vertex may stand.
    fn near(&self, x: Name) -> Near;

    /// The edges out of a vertex, which may stand there, or `None` for a name that is no vertex.
    fn row(&self, x: Name, near: Near) -> Option<&Row>
        ensures { option_copied result ≡ lookup (bytes_eq x) (entries self.now) };
}

// Whether a name is a vertex, which may stand there.
fn knows_near<R: Rows>(rows: &R, name: Name, near: Near) -> bool
    ensures { result ≡ has_vertex (graph_of (R.entries rows.now)) name }
{
    match rows.row(name, near) {
        Some(_) => true,
        None => false,
    }
}

/// Whether a name is a vertex.
pub(crate) fn knows<R: Rows>(rows: &R, name: Name) -> bool
    ensures { result ≡ has_vertex (graph_of (R.entries rows.now)) name }
{
    knows_near(rows, name, rows.near(name))
}

// The edges out of a vertex, which may stand there, if the name is one.
fn row_of<R: Rows>(rows: &R, x: Name, near: Near) -> Option<&Row>
    ensures { MatchOption result
        (has_vertex (graph_of (R.entries rows.now)) x ≡ false)
        (λ row. IsRowOf (R.entries rows.now) x row.now) }
{
    match rows.row(x, near) {
        Some(row) => Some(row),
        None => None,
    }
}

/// The label of the edge from x to y, empty where there is none.
pub(crate) fn label_between<R: Rows>(rows: &R, x: Name, y: Name) -> Rights
    ensures value { result ≡ label_of (R.entries rows.now) x y }
    ensures label { result ≡ label_between (graph_of (R.entries rows.now)) x y }
    ensures named { IsNamed result }
{
    match rows.row(x, rows.near(x)) {
        Some(row) => row.label(y),
        None => Rights::empty(),
    }
}

/// Whether x has a right over y. Where one of them is no vertex, it has not.
pub(crate) fn holds<R: Rows>(rows: &R, x: Name, right: Right, y: Name) -> bool
    ensures { result ≡ (graph_of (R.entries rows.now)).holds x right y }
{
    label_between(rows, x, y).has(right)
}

// The refusal of a rule for a name that is no vertex, compiled by itself for the same reason as the checks
// below: what it makes of a name has other borders.
#[inline(never)]
fn unknown(name: Name) -> Result<(), Refusal>
    ensures { result ≡ verdict (Some (Refusal.Unknown name)) }
{
    Err(Refusal::Unknown(name))
}

// The four checks are compiled by themselves, so that names stay whole where they are looked up.

// The first refusal of a take.
#[tactic(auto, unfolding(crate::specs::Rules::refusal_of, crate::specs::Rules::after))]
#[inline(never)]
fn check_take<R: Rows>(
    rows: &R,
    near: &NearRule,
    x: Name,
    y: Name,
    z: Name,
    rights: Rights,
) -> Result<(), Refusal>
    requires { IsNamed rights }
    ensures { result ≡ verdict
        (refusal_of (graph_of (R.entries rows.now)) (Rule.Take x y z rights)) }
{
    let Some(own) = row_of(rows, x, near.first) else {
        return unknown(x);
    };
    let Some(other) = row_of(rows, y, near.second) else {
        return unknown(y);
    };
    if !knows_near(rows, z, near.third) {
        return unknown(z);
    }
    if rights.is_empty() {
        return Err(Refusal::Empty);
    }
    if !own.label_near(y, near.second.number).has(Right::T) {
        return Err(Refusal::NoTake);
    }
    not_held(rights.difference(other.label_near(z, near.third.number)))
}

// The first refusal of a grant.
#[tactic(auto, unfolding(crate::specs::Rules::refusal_of, crate::specs::Rules::after))]
#[inline(never)]
fn check_grant<R: Rows>(
    rows: &R,
    near: &NearRule,
    x: Name,
    y: Name,
    z: Name,
    rights: Rights,
) -> Result<(), Refusal>
    requires { IsNamed rights }
    ensures { result ≡ verdict
        (refusal_of (graph_of (R.entries rows.now)) (Rule.Grant x y z rights)) }
{
    let Some(own) = row_of(rows, x, near.first) else {
        return unknown(x);
    };
    if !knows_near(rows, y, near.second) {
        return unknown(y);
    }
    if !knows_near(rows, z, near.third) {
        return unknown(z);
    }
    if rights.is_empty() {
        return Err(Refusal::Empty);
    }
    if !own.label_near(y, near.second.number).has(Right::G) {
        return Err(Refusal::NoGrant);
    }
    not_held(rights.difference(own.label_near(z, near.third.number)))
}

// The first refusal of a create.
#[tactic(auto, unfolding(crate::specs::Rules::refusal_of, crate::specs::Rules::after))]
#[inline(never)]
fn check_create<R: Rows>(
    rows: &R,
    near: &NearRule,
    x: Name,
    n: Name,
    rights: Rights,
) -> Result<(), Refusal>
    ensures { result ≡ verdict
        (refusal_of (graph_of (R.entries rows.now)) (Rule.Create x n rights)) }
{
    if !knows_near(rows, x, near.first) {
        return unknown(x);
    }
    if knows_near(rows, n, near.second) {
        return Err(Refusal::Taken(n));
    }
    Ok(())
}

// The first refusal of a remove.
#[tactic(auto, unfolding(crate::specs::Rules::refusal_of, crate::specs::Rules::after))]
#[inline(never)]
fn check_remove<R: Rows>(
    rows: &R,
    near: &NearRule,
    x: Name,
    y: Name,
    rights: Rights,
) -> Result<(), Refusal>
    ensures { result ≡ verdict
        (refusal_of (graph_of (R.entries rows.now)) (Rule.Remove x y rights)) }
{
    if !knows_near(rows, x, near.first) {
        return unknown(x);
    }
    if !knows_near(rows, y, near.second) {
        return unknown(y);
    }
    if rights.is_empty() {
        return Err(Refusal::Empty);
    }
    Ok(())
}

/// Where the vertices that a rule names may stand.
pub(crate) fn near_rule<R: Rows>(rows: &R, rule: &Rule) -> NearRule {
    match *rule {
        Rule::Take { x, y, z, .. } | Rule::Grant { x, y, z, .. } => NearRule {
            first: rows.near(x),
            second: rows.near(y),
            third: rows.near(z),
        },
        Rule::Create { x, n, .. } => NearRule {
            first: rows.near(x),
            second: rows.near(n),
            third: Near::nowhere(),
        },
        Rule::Remove { x, y, .. } => NearRule {
            first: rows.near(x),
            second: rows.near(y),
            third: Near::nowhere(),
        },
    }
}

/// Whether the graph accepts a rule, whose vertices may stand there. The error is the first reason to
/// refuse it.
#[tactic(auto, unfolding(crate::specs::Rules::refusal_of, crate::specs::Rules::after))]
pub(crate) fn check_near<R: Rows>(rows: &R, near: &NearRule, rule: &Rule) -> Result<(), Refusal>
    requires { IsNamed (rights_of rule.now) }
    ensures { result ≡ verdict (refusal_of (graph_of (R.entries rows.now)) rule.now) }
{
    match *rule {
        Rule::Take { x, y, z, rights } => check_take(rows, near, x, y, z, rights),
        Rule::Grant { x, y, z, rights } => check_grant(rows, near, x, y, z, rights),
        Rule::Create { x, n, rights } => check_create(rows, near, x, n, rights),
        Rule::Remove { x, y, rights } => check_remove(rows, near, x, y, rights),
    }
}

/// Whether the graph accepts a rule. The error is the first reason to refuse it.
pub(crate) fn check<R: Rows>(rows: &R, rule: &Rule) -> Result<(), Refusal>
    requires { IsNamed (rights_of rule.now) }
    ensures { result ≡ verdict (refusal_of (graph_of (R.entries rows.now)) rule.now) }
{
    check_near(rows, &near_rule(rows, rule), rule)
}

// The refusal for rights that are not held, if there are such.
fn not_held(missing: Rights) -> Result<(), Refusal>
    ensures { result ≡ verdict (not_held missing) }
{
    if missing.is_empty() {
        Ok(())
    } else {
        Err(Refusal::NotHeld(missing))
    }
}
