//! Which rights have to go, as rules.
ghost use Rattle.std.specs.Prelude.{◌≡◌, IfOk, MatchOption, map};
ghost use Rattle.tg_cuts.specs.Cuts.{IsTheCut, HasNoCut};
ghost use Rattle.tg_inputs.specs.Readings.{cut_in};
ghost use Rattle.tg_reports.specs.Reports.{IsCut, no_cut_report, cut_report};
ghost use Rattle.tg_inputs.specs.Outcomes.{Makes, report_text, cut_question_of, IsCuttable};
ghost use Rattle.tg_reports.specs.ReportParts.{cut_text};

use crate::sharing::line;
use std::alloc::{AllocError, Global};
use tg_analysis::{AskFault, least_cut};
use tg_graph::Rule;
use tg_inputs::{CutQuestion, Halt, Report, cut_in};
use tg_policies::append_rules;
use tg_text::append_number;

// Rules as a text of rules: a line with their number, and then each.
fn rules_report(alloc: Global, rules: &[Rule]) -> Result<Report, AllocError>
    ensures { IfOk result (λ report. report_text report ≡ cut_report rules.now) }
{
    let mut bytes = Vec::from_slice(alloc, b"# cut ")?;
    append_number(&mut bytes, rules.len())?;
    bytes.push(b'\n')?;
    append_rules(&mut bytes, rules)?;
    Ok(Report { bytes, status: 0 })
}

// The report of a cut: no where nothing has to go.
fn found(alloc: Global, rules: &[Rule]) -> Result<Report, AllocError>
    ensures { IfOk result (λ report. report_text report ≡ cut_text rules.now) }
{
    match rules {
        [] => line(alloc, b"# no\n"),
        [_, ..] => rules_report(alloc, rules),
    }
}

// The report where the kept edges leave no cut.
fn not_found(alloc: Global) -> Result<Report, AllocError>
    ensures { IfOk result (λ report. report_text report ≡ no_cut_report) }
{
    Ok(Report {
        bytes: Vec::from_slice(alloc, b"# none\n")?,
        status: 1,
    })
}

// The rules of the cut; none where the kept edges leave none.
fn rules_of(alloc: Global, question: &CutQuestion) -> Result<Option<Vec<Rule>>, AllocError>
    requires { IsCuttable (cut_question_of question.now) }
    ensures { IfOk result (λ cut. let q = cut_question_of question.now in MatchOption cut
        (HasNoCut q.graph q.right q.x q.y q.kept)
        (λ rules. IsTheCut q.graph q.right q.x q.y q.kept rules.items)) }
{
    match least_cut(
        alloc,
        &question.graph,
        question.right,
        question.x,
        question.y,
        &question.kept,
    ) {
        Ok(rules) => Ok(rules),
        Err(AskFault::Memory) => Err(AllocError),
        Err(AskFault::Unknown(_) | AskFault::TooLarge) => unreachable!(),
    }
}

fn report_of(alloc: Global, question: &CutQuestion) -> Result<Report, AllocError>
    requires { IsCuttable (cut_question_of question.now) }
    ensures { IfOk result (λ report. IsCut (cut_question_of question.now) (report_text report)) }
{
    match rules_of(alloc, question)? {
        Some(rules) => found(alloc, &rules),
        None => not_found(alloc),
    }
}

/// The report of a question: the rights that have to go, as rules.
pub(crate) fn cut(
    alloc: Global,
    first: &[u8],
    right: &str,
    x: &str,
    y: &str,
    kept: &[&str],
) -> Result<Report, Halt>
    ensures { Makes IsCut result
        (cut_in first.now right.now x.now y.now (map (λ word. word.now) kept.now)) }
{
    let question = cut_in(alloc, first, right, x, y, kept)?;
    let report = report_of(alloc, &question)?;
    Ok(report)
}
