//! Questions about sharing.
ghost use Rattle.std.specs.Prelude.{◌≡◌, IfOk};
ghost use Rattle.tg_inputs.specs.Readings.{question_in};
ghost use Rattle.tg_reports.specs.Reports.{IsAnswer, IsDerived};
ghost use Rattle.tg_policies.specs.Derived.{derivation_report};
ghost use Rattle.tg_inputs.specs.Outcomes.{Makes, report_text, question_of, IsAskable};

use std::alloc::{AllocError, Global};
use tg_analysis::{AskFault, can_share_all, derivation_all};
use tg_graph::Rule;
use tg_inputs::{Halt, Question, Report, question_in};
use tg_policies::append_derivation;

// The line of bytes as a report.
pub(crate) fn line(alloc: Global, words: &[u8]) -> Result<Report, AllocError>
    ensures { IfOk result
        (λ report. report_text report ≡ record { bytes = words.now; status = 0 }) }
{
    Ok(Report {
        bytes: Vec::from_slice(alloc, words)?,
        status: 0,
    })
}

fn answer(alloc: Global, question: &Question) -> Result<Report, AllocError>
    requires { IsAskable (question_of question.now) }
    ensures { IfOk result (λ report. IsAnswer (question_of question.now) (report_text report)) }
{
    match can_share_all(
        alloc,
        &question.graph,
        question.rights,
        question.x,
        question.y,
    ) {
        Ok(true) => line(alloc, b"yes\n"),
        Ok(false) => line(alloc, b"no\n"),
        Err(AskFault::Memory) => Err(AllocError),
        Err(AskFault::Unknown(_) | AskFault::TooLarge) => unreachable!(),
    }
}

/// The report of a question: yes or no.
pub(crate) fn share(
    alloc: Global,
    first: &[u8],
    rights: &str,
    x: &str,
    y: &str,
) -> Result<Report, Halt>
    ensures { Makes IsAnswer result (question_in first.now rights.now x.now y.now) }
{
    let question = question_in(alloc, first, rights, x, y)?;
    let report = answer(alloc, &question)?;
    Ok(report)
}

fn rules_report(alloc: Global, rules: &[Rule]) -> Result<Report, AllocError>
    ensures { IfOk result (λ report. report_text report ≡ derivation_report rules.now) }
{
    let mut bytes = Vec::new(alloc);
    append_derivation(&mut bytes, rules)?;
    Ok(Report { bytes, status: 0 })
}

fn derived(alloc: Global, question: &Question) -> Result<Report, AllocError>
    requires { IsAskable (question_of question.now) }
    ensures { IfOk result (λ report. IsDerived (question_of question.now) (report_text report)) }
{
    match derivation_all(
        alloc,
        &question.graph,
        question.rights,
        question.x,
        question.y,
    ) {
        Ok(Some(rules)) => rules_report(alloc, &rules),
        Ok(None) => line(alloc, b"# no\n"),
        Err(AskFault::Memory) => Err(AllocError),
        Err(AskFault::Unknown(_) | AskFault::TooLarge) => unreachable!(),
    }
}

/// The report of a question: rules that give each of the rights.
pub(crate) fn derive(
    alloc: Global,
    first: &[u8],
    rights: &str,
    x: &str,
    y: &str,
) -> Result<Report, Halt>
    ensures { Makes IsDerived result (question_in first.now rights.now x.now y.now) }
{
    let question = question_in(alloc, first, rights, x, y)?;
    let report = derived(alloc, &question)?;
    Ok(report)
}
