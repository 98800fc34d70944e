//! What a vertex can come to have, as lines.
ghost use Rattle.std.specs.Prelude.{◌≡◌, ◌++◌, true, IfOk, OnOk};
ghost use Rattle.std.specs.Map.{keys_of};
ghost use Rattle.tg_graph.specs.GraphOf.{graph_of};
ghost use Rattle.tg_graph.specs.Graphs.{has_vertex};
ghost use Rattle.tg_names.specs.Letters.{letters_among};
ghost use Rattle.tg_analysis.specs.Reaching.{TellReach};
ghost use Rattle.tg_inputs.specs.Readings.{reach_in};
ghost use Rattle.tg_reports.specs.Reports.{AreReachLines, reach_line};
ghost use Rattle.tg_inputs.specs.Outcomes.{Makes, report_text, reach_question_of};
ghost use Rattle.tg_reports.specs.ReportParts.{set_of_name, reached_text};

use bitflags::Flags;
use std::alloc::{AllocError, Global};
use tg_analysis::AskFault;
use tg_graph::{Graph, Name, Right, Rights};
use tg_inputs::{Halt, ReachQuestion, Report, reach_in};
use tg_text::names_in_order;

// The set of the vertex of that name.
fn set_of(graph: &Graph, sets: &[Rights], name: Name) -> Rights
    ensures { result ≡ set_of_name (keys_of graph.now) sets.now name }
{
    match graph.position(name) {
        Some(position) => sets.get(position).copied().unwrap_or(Rights::empty()),
        None => Rights::empty(),
    }
}

// Appends the letters of those of the rights that are in the set.
fn append_letters(text: &mut Vec<u8>, set: Rights, rights: &[Right]) -> Result<(), AllocError>
    ensures { OnOk result (text.new.items ≡ text.old.items ++ letters_among set rights.now) }
{
    for right in rights {
        if set.has(*right) {
            text.push(right.letter())?;
        }
    }
    Ok(())
}

// Appends the line of a name and a set of rights, if that has any.
fn append_line(text: &mut Vec<u8>, set: Rights, name: Name) -> Result<(), AllocError>
    ensures { OnOk result (text.new.items ≡ text.old.items ++ reach_line set name) }
{
    if set.is_empty() {
        return Ok(());
    }
    text.extend_from_slice(name.as_bytes())?;
    text.push(b' ')?;
    append_letters(text, set, &Right::ALL)?;
    text.push(b'\n')?;
    Ok(())
}

// The lines of the names that have a right.
fn lines_of(
    alloc: Global,
    graph: &Graph,
    sets: &[Rights],
    names: &[Name],
) -> Result<Vec<u8>, AllocError>
    ensures { IfOk result
        (λ text. text.items ≡ reached_text (keys_of graph.now) sets.now names.now) }
{
    let mut text = Vec::new(alloc);
    for name in names {
        append_line(&mut text, set_of(graph, sets, *name), *name)?;
    }
    Ok(text)
}

// What x can come to have, by position.
fn sets_of(alloc: Global, question: &ReachQuestion) -> Result<Vec<Rights>, AllocError>
    requires { has_vertex (graph_of question.now.graph) question.now.x ≡ true }
    ensures { IfOk result
        (λ sets. TellReach (graph_of question.now.graph) question.now.x sets.items) }
{
    match tg_analysis::reach(alloc, &question.graph, question.x) {
        Ok(sets) => Ok(sets),
        Err(AskFault::Memory) => Err(AllocError),
        Err(AskFault::Unknown(_) | AskFault::TooLarge) => unreachable!(),
    }
}

fn reach_report(alloc: Global, question: &ReachQuestion) -> Result<Report, AllocError>
    requires { has_vertex (graph_of question.now.graph) question.now.x ≡ true }
    ensures { IfOk result
        (λ report. AreReachLines (reach_question_of question.now) (report_text report)) }
{
    let sets = sets_of(alloc, question)?;
    let names = names_in_order(alloc, &question.graph)?;
    Ok(Report {
        bytes: lines_of(alloc, &question.graph, &sets, &names)?,
        status: 0,
    })
}

/// The report of a question: each vertex over which x can come to have some right, with their letters.
pub(crate) fn reach(alloc: Global, first: &[u8], x: &str) -> Result<Report, Halt>
    ensures { Makes AreReachLines result (reach_in first.now x.now) }
{
    let question = reach_in(alloc, first, x)?;
    let report = reach_report(alloc, &question)?;
    Ok(report)
}
