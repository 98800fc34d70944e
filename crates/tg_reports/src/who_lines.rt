//! Who can come to have rights over a vertex, as lines.
ghost use Rattle.std.specs.Prelude.{◌≡◌, ◌++◌, true, IfOk, OnOk};
ghost use Rattle.std.specs.Map.{keys_of};
ghost use Rattle.tg_graph.specs.GraphOf.{graph_of};
ghost use Rattle.tg_graph.specs.Graphs.{has_vertex};
ghost use Rattle.tg_analysis.specs.Reaching.{TellWho};
ghost use Rattle.tg_inputs.specs.Readings.{who_in};
ghost use Rattle.tg_reports.specs.Reports.{AreWhoLines, name_line};
ghost use Rattle.tg_inputs.specs.Outcomes.{Makes, report_text, who_question_of};
ghost use Rattle.tg_reports.specs.ReportParts.{is_marked_name, marked_text};

use std::alloc::{AllocError, Global};
use tg_analysis::AskFault;
use tg_graph::{Graph, Name};
use tg_inputs::{Halt, Report, WhoQuestion, who_in};
use tg_text::names_in_order;

// Whether the vertex of that name is marked.
fn is_marked(graph: &Graph, marks: &[bool], name: Name) -> bool
    ensures { result ≡ is_marked_name (keys_of graph.now) marks.now name }
{
    match graph.position(name) {
        Some(position) => marks.get(position).copied().unwrap_or(false),
        None => false,
    }
}

// Appends the line of a name, if it is to have one.
fn append_line(text: &mut Vec<u8>, has_line: bool, name: Name) -> Result<(), AllocError>
    ensures { OnOk result (text.new.items ≡ text.old.items ++ name_line has_line name) }
{
    if has_line {
        text.extend_from_slice(name.as_bytes())?;
        text.push(b'\n')?;
    }
    Ok(())
}

// The lines of the names that are marked.
fn lines_of(
    alloc: Global,
    graph: &Graph,
    marks: &[bool],
    names: &[Name],
) -> Result<Vec<u8>, AllocError>
    ensures { IfOk result
        (λ text. text.items ≡ marked_text (keys_of graph.now) marks.now names.now) }
{
    let mut text = Vec::new(alloc);
    for name in names {
        append_line(&mut text, is_marked(graph, marks, *name), *name)?;
    }
    Ok(text)
}

// Who can come to have the rights, by position.
fn marks_of(alloc: Global, question: &WhoQuestion) -> Result<Vec<bool>, AllocError>
    requires { has_vertex (graph_of question.now.graph) question.now.y ≡ true }
    ensures { IfOk result
        (λ marks. TellWho (graph_of question.now.graph) question.now.rights question.now.y marks.items) }
{
    match tg_analysis::who(alloc, &question.graph, question.rights, question.y) {
        Ok(marks) => Ok(marks),
        Err(AskFault::Memory) => Err(AllocError),
        Err(AskFault::Unknown(_) | AskFault::TooLarge) => unreachable!(),
    }
}

fn who_report(alloc: Global, question: &WhoQuestion) -> Result<Report, AllocError>
    requires { has_vertex (graph_of question.now.graph) question.now.y ≡ true }
    ensures { IfOk result
        (λ report. AreWhoLines (who_question_of question.now) (report_text report)) }
{
    let marks = marks_of(alloc, question)?;
    let names = names_in_order(alloc, &question.graph)?;
    Ok(Report {
        bytes: lines_of(alloc, &question.graph, &marks, &names)?,
        status: 0,
    })
}

/// The report of a question: who can come to have each of the rights over y, one name a line.
pub(crate) fn who(alloc: Global, first: &[u8], rights: &str, y: &str) -> Result<Report, Halt>
    ensures { Makes AreWhoLines result (who_in first.now rights.now y.now) }
{
    let question = who_in(alloc, first, rights, y)?;
    let report = who_report(alloc, &question)?;
    Ok(report)
}
