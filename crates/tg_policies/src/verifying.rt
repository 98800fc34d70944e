//! Whether a graph keeps a policy.
ghost use Rattle.std.specs.Prelude.{◌≡◌, ◌≤◌, IfOk, length};
ghost use Rattle.tg_graph.specs.GraphOf.{graph_of};
ghost use Rattle.tg_graph.specs.Limits.{most_vertices};
ghost use Rattle.tg_text.specs.PolicyText.{policy_of, ArePolicyLines};
ghost use Rattle.tg_inputs.specs.Readings.{policy_in};
ghost use Rattle.tg_inputs.specs.Outcomes.{Makes, report_text};
ghost use Rattle.tg_policies.specs.Policies.{IsVerified, verified_report};
ghost use Rattle.tg_policies.specs.PolicyParts.{HasTold};

use crate::verdicts::Verdicts;
use std::alloc::{AllocError, Global};
use tg_analysis::CaseIndex;
use tg_graph::Graph;
use tg_inputs::{Halt, Report, graph_in, policy_lines_in};
use tg_text::{PolicyLine, append_number, names_in_order};

// What is told of all lines.
fn told(
    alloc: Global,
    graph: &Graph,
    lines: &[PolicyLine],
    why: bool,
) -> Result<Verdicts, AllocError>
    requires small { length (graph_of graph.now).vertices ≤ most_vertices }
    requires sound { ArePolicyLines (graph_of graph.now) (policy_of lines.now) }
    ensures { IfOk result (λ verdicts.
        HasTold why (graph_of graph.now) (policy_of lines.now) verdicts) }
{
    let names = names_in_order(alloc, graph)?;
    let index = CaseIndex::of(alloc, graph, &names)?;
    let mut verdicts = Verdicts::none(alloc);
    for line in lines {
        verdicts.tell(alloc, graph, &index, line, why)?;
    }
    Ok(verdicts)
}

// The report of verdicts: what is told, and whether all lines hold.
fn report_of(text: Vec<u8>, broken: usize) -> Result<Report, AllocError>
    ensures { IfOk result (λ report. report_text report ≡ verified_report text.items broken) }
{
    let mut bytes = text;
    if broken == 0 {
        bytes.extend_from_slice(b"kept\n")?;
        return Ok(Report { bytes, status: 0 });
    }
    bytes.extend_from_slice(b"broken ")?;
    append_number(&mut bytes, broken)?;
    bytes.push(b'\n')?;
    Ok(Report { bytes, status: 1 })
}

fn verified(
    alloc: Global,
    graph: &Graph,
    lines: &[PolicyLine],
    why: bool,
) -> Result<Report, AllocError>
    requires small { length (graph_of graph.now).vertices ≤ most_vertices }
    requires sound { ArePolicyLines (graph_of graph.now) (policy_of lines.now) }
    ensures { IfOk result (λ report.
        IsVerified why (graph_of graph.now) (policy_of lines.now) (report_text report)) }
{
    let verdicts = told(alloc, graph, lines, why)?;
    let report = report_of(verdicts.text, verdicts.broken)?;
    Ok(report)
}

/// The report of a policy: which of its lines hold on the graph, and whether all do. With `why` a line that is
/// broken has a derivation below it, if one is what breaks it.
///
/// The error is the report of the first fault of the two texts, or want of memory.
pub fn verify(alloc: Global, first: &[u8], second: &[u8], why: bool) -> Result<Report, Halt>
    ensures { Makes (λ p. IsVerified why p.graph p.lines) result (policy_in first.now second.now) }
{
    let graph = graph_in(alloc, first)?;
    let lines = policy_lines_in(alloc, &graph, second)?;
    let report = verified(alloc, &graph, &lines, why)?;
    Ok(report)
}
