//! The lines of a policy, each with its verdict.
ghost use Rattle.std.specs.Prelude.{◌≡◌, ◌+◌, ◌++◌, ◌∷◌, ◌<◌, ◌≤◌, ◌^◌, ℕ, List, [], Bool, true, false, length, Some, IfOk, OnOk, MatchOption};
ghost use Rattle.tg_text.specs.declared.policy_text.Claim.TheVariants as claim;
ghost use Rattle.std.specs.List.{list_any};
ghost use Rattle.tg_graph.specs.GraphOf.{graph_of};
ghost use Rattle.tg_graph.specs.Graphs.{ProtectionGraph};
ghost use Rattle.tg_graph.specs.Limits.{most_vertices};
ghost use Rattle.tg_graph.specs.RuleLists.{CanShare};
ghost use Rattle.tg_text.specs.Canonical.{in_name_order};
ghost use Rattle.tg_text.specs.PolicyText.{PolicyLineOf, line_of_policy, lacks_vertex};
ghost use Rattle.tg_sharing.specs.Derivations.{IsDerivation};
ghost use Rattle.tg_policies.specs.Policies.{IsVerdict, IsWhy, verdict_line};
ghost use Rattle.tg_policies.specs.PolicyParts.{membership, NamesVertices, IsShared, IsToldOf, HasTold};

use crate::groups::Groups;
use crate::rule_lines::append_derivation;
use std::alloc::{AllocError, Global};
use tg_analysis::{AskFault, Case, CaseIndex, derivation};
use tg_graph::{Graph, Rights, Rule};
use tg_text::{Claim, Operand, PolicyLine, append_number};

/// What is told of the lines of a policy so far.
#[derive(Drop)]
pub(crate) struct Verdicts {
    /// Who is in which group behind these lines.
    pub groups: Groups,
    /// A line for each that states something, with a derivation below each `never` and `only` line that fails,
    /// where derivations are asked for.
    pub text: Vec<u8>,
    /// How many of them fail.
    pub broken: usize,
}

// What breaks a line that starts with `never` first, if something does. The names of the index are its vertices
// in name order.
fn never_break(
    alloc: Global,
    index: &CaseIndex,
    groups: &Groups,
    rights: Rights,
    operands: (Operand, Operand),
) -> Result<Option<Case>, AllocError>
    requires names { index.now.names ≡ in_name_order (graph_of index.now.graph).vertices }
    requires first { lacks_vertex (graph_of index.now.graph) operands.0 ≡ false }
    requires second { lacks_vertex (graph_of index.now.graph) operands.1 ≡ false }
    ensures verdict { IfOk result (λ verdict.
        IsVerdict (graph_of index.now.graph) (membership index.now.names groups.now) (claim.Never rights)
        (operands.0 ∷ operands.1 ∷ []) verdict) }
    ensures vertices { IfOk result (NamesVertices (graph_of index.now.graph)) }
{
    let xs = groups.places_of(alloc, index.names(), operands.0)?;
    let ys = groups.places_of(alloc, index.names(), operands.1)?;
    let found = index.first_shared(alloc, rights, &xs, &ys)?;
    Ok(found)
}

// The same of `may`.
fn may_break(
    alloc: Global,
    index: &CaseIndex,
    groups: &Groups,
    rights: Rights,
    operands: (Operand, Operand),
) -> Result<Option<Case>, AllocError>
    requires names { index.now.names ≡ in_name_order (graph_of index.now.graph).vertices }
    requires first { lacks_vertex (graph_of index.now.graph) operands.0 ≡ false }
    requires second { lacks_vertex (graph_of index.now.graph) operands.1 ≡ false }
    ensures verdict { IfOk result (λ verdict.
        IsVerdict (graph_of index.now.graph) (membership index.now.names groups.now) (claim.May rights)
        (operands.0 ∷ operands.1 ∷ []) verdict) }
    ensures vertices { IfOk result (NamesVertices (graph_of index.now.graph)) }
{
    let xs = groups.places_of(alloc, index.names(), operands.0)?;
    let ys = groups.places_of(alloc, index.names(), operands.1)?;
    let found = index.first_unshared(alloc, rights, &xs, &ys)?;
    Ok(found)
}

// The same of `only`.
fn only_break(
    alloc: Global,
    index: &CaseIndex,
    groups: &Groups,
    rights: Rights,
    targets: Operand,
    others: &[Operand],
) -> Result<Option<Case>, AllocError>
    requires names { index.now.names ≡ in_name_order (graph_of index.now.graph).vertices }
    requires targets { lacks_vertex (graph_of index.now.graph) targets ≡ false }
    requires others { list_any (lacks_vertex (graph_of index.now.graph)) others.now ≡ false }
    ensures verdict { IfOk result (λ verdict.
        IsVerdict (graph_of index.now.graph) (membership index.now.names groups.now) (claim.Only rights)
        (targets ∷ others.now) verdict) }
    ensures vertices { IfOk result (NamesVertices (graph_of index.now.graph)) }
{
    let ys = groups.places_of(alloc, index.names(), targets)?;
    let allowed = groups.marks_of(alloc, index.names(), others)?;
    let found = index.first_beyond(alloc, rights, &ys, &allowed)?;
    Ok(found)
}

// The operands, if there are two.
fn two(operands: &[Operand]) -> Option<(Operand, Operand)>
    ensures { MatchOption result (length operands.now ≡ 2 → ⊥)
        (λ both. operands.now ≡ both.0 ∷ both.1 ∷ []) }
{
    if operands.len() != 2 {
        return None;
    }
    Some((operands[0], operands[1]))
}

// What breaks a line first, if something does.
fn first_break(
    alloc: Global,
    index: &CaseIndex,
    groups: &Groups,
    line: &PolicyLine,
) -> Result<Option<Case>, AllocError>
    requires names { index.now.names ≡ in_name_order (graph_of index.now.graph).vertices }
    requires known { list_any (lacks_vertex (graph_of index.now.graph)) line.now.operands.items
        ≡ false }
    ensures verdict { IfOk result (λ verdict.
        IsVerdict (graph_of index.now.graph) (membership index.now.names groups.now) line.now.claim
        line.now.operands.items verdict) }
    ensures vertices { IfOk result (NamesVertices (graph_of index.now.graph)) }
{
    match line.claim {
        Claim::Never(rights) => match two(&line.operands) {
            Some(both) => never_break(alloc, index, groups, rights, both),
            None => Ok(None),
        },
        Claim::May(rights) => match two(&line.operands) {
            Some(both) => may_break(alloc, index, groups, rights, both),
            None => Ok(None),
        },
        Claim::Only(rights) => match line.operands.as_slice() {
            [targets, others @ ..] => { only_break(alloc, index, groups, rights, *targets, others) }
            [] => Ok(None),
        },
        Claim::Group(_) => Ok(None),
    }
}

// Appends the line of a verdict.
fn append_verdict(text: &mut Vec<u8>, line: usize, verdict: Option<Case>) -> Result<(), AllocError>
    ensures { OnOk result (text.new.items ≡ text.old.items ++ verdict_line line verdict) }
{
    append_number(text, line)?;
    let Some(case) = verdict else {
        text.extend_from_slice(b" holds\n")?;
        return Ok(());
    };
    text.extend_from_slice(b" fails ")?;
    text.push(case.right.letter())?;
    text.push(b' ')?;
    text.extend_from_slice(case.x.as_bytes())?;
    text.push(b' ')?;
    text.extend_from_slice(case.y.as_bytes())?;
    text.push(b'\n')?;
    Ok(())
}

// Rules that give the right of a case, which some list of rules gives.
fn rules_of(alloc: Global, graph: &Graph, case: Case) -> Result<Vec<Rule>, AllocError>
    requires small { length (graph_of graph.now).vertices ≤ most_vertices }
    requires vertices { NamesVertices (graph_of graph.now) (Some case) }
    requires shared { CanShare (graph_of graph.now) case.right case.x case.y }
    ensures { IfOk result (λ rules.
        IsDerivation (graph_of graph.now) case.right case.x case.y rules.items) }
{
    match derivation(alloc, graph, case.right, case.x, case.y) {
        Ok(Some(rules)) => Ok(rules),
        Err(AskFault::Memory) => Err(AllocError),
        Ok(None) | Err(AskFault::Unknown(_) | AskFault::TooLarge) => unreachable!(),
    }
}

// Appends the derivation of what breaks a line, if the line says who can't come to have a right.
fn append_why(
    alloc: Global,
    text: &mut Vec<u8>,
    graph: &Graph,
    claim: Claim,
    verdict: Option<Case>,
) -> Result<(), AllocError>
    requires small { length (graph_of graph.now).vertices ≤ most_vertices }
    requires vertices { NamesVertices (graph_of graph.now) verdict }
    requires shared { IsShared (graph_of graph.now) claim verdict }
    ensures { OnOk result ((why : List ℕ) × IsWhy true (graph_of graph.now) claim verdict why
        × (text.new.items ≡ text.old.items ++ why)) }
{
    match (claim, verdict) {
        (Claim::Never(_) | Claim::Only(_), Some(case)) => {
            let rules = rules_of(alloc, graph, case)?;
            append_derivation(text, &rules)?;
            Ok(())
        }
        _ => Ok(()),
    }
}

impl Verdicts {
    /// Nothing is told, and there are no groups.
    pub(crate) fn none(alloc: Global) -> Verdicts
        ensures { (why : Bool) (g : ProtectionGraph) → HasTold why g [] result }
    {
        Verdicts {
            groups: Groups::none(alloc),
            text: Vec::new(alloc),
            broken: 0,
        }
    }

    // Tells a line that states something.
    fn tell_claim(
        &mut self,
        alloc: Global,
        graph: &Graph,
        index: &CaseIndex,
        line: &PolicyLine,
        why: bool,
    ) -> Result<(), AllocError>
        requires small { length (graph_of graph.now).vertices ≤ most_vertices }
        requires graph { index.now.graph ≡ graph.now }
        requires names { index.now.names ≡ in_name_order (graph_of graph.now).vertices }
        requires known { list_any (lacks_vertex (graph_of graph.now)) line.now.operands.items
            ≡ false }
        requires few { self.old.broken + 1 < 2 ^ 64 }
        ensures { OnOk result
            (IsToldOf why (graph_of graph.now) (line_of_policy line.now) self.old self.new) }
    {
        let verdict = first_break(alloc, index, &self.groups, line)?;
        append_verdict(&mut self.text, line.line, verdict)?;
        if why {
            append_why(alloc, &mut self.text, graph, line.claim, verdict)?;
        }
        if verdict.is_some() {
            self.broken += 1;
        }
        Ok(())
    }

    /// Tells one line more: a group has its members then, and what states something its verdict. After an
    /// error the lines have to be told anew.
    pub(crate) fn tell(
        &mut self,
        alloc: Global,
        graph: &Graph,
        index: &CaseIndex,
        line: &PolicyLine,
        why: bool,
    ) -> Result<(), AllocError>
        requires small { length (graph_of graph.now).vertices ≤ most_vertices }
        requires graph { index.now.graph ≡ graph.now }
        requires names { index.now.names ≡ in_name_order (graph_of graph.now).vertices }
        requires known { list_any (lacks_vertex (graph_of graph.now)) line.now.operands.items
            ≡ false }
        requires few { self.old.broken + 1 < 2 ^ 64 }
        ensures { OnOk result ((lines : List PolicyLineOf)
            → HasTold why (graph_of graph.now) lines self.old
            → HasTold why (graph_of graph.now) (lines ++ line_of_policy line.now ∷ []) self.new) }
    {
        if let Claim::Group(name) = line.claim {
            let marks = self.groups.marks_of(alloc, index.names(), &line.operands)?;
            self.groups.join(alloc, name, marks)?;
            return Ok(());
        }
        self.tell_claim(alloc, graph, index, line, why)?;
        Ok(())
    }
}
