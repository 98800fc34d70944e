//! Scripts played on a hall.
ghost use Rattle.std.specs.Prelude.{◌≡◌, ◌≤◌, IfOk, All, length};
ghost use Rattle.tg_graph.specs.GraphOf.{graph_of};
ghost use Rattle.tg_graph.specs.Limits.{most_vertices};
ghost use Rattle.tg_text.specs.ScriptText.{script_of};
ghost use Rattle.tg_hall.specs.Worlds.{opened};
ghost use Rattle.tg_plays.specs.Runs.{playing_in, Plays, IsPlayed};
ghost use Rattle.tg_inputs.specs.Outcomes.{Makes, IsPlayable, IsPlayableScript, report_text};
ghost use Rattle.tg_plays.specs.RunParts.{PlaysOn};

use crate::outcome_lines::{LONGEST_LINE, append_line};
use std::alloc::{AllocError, Global};
use tg_graph::Graph;
use tg_inputs::{Halt, Report, graph_in, script_in};
use tg_store::{Hall, StoreFault};
use tg_text::{Script, ScriptLine, write_graph_behind};

/// Makes room for the line of an outcome. Where that is refused while sessions of the hall know something from
/// earlier questions, they give it up, and room is asked for once more.
pub fn make_room_in_run(text: &mut Vec<u8>, hall: &mut Hall)
    ensures text { text.new.items ≡ text.old.items }
    ensures hall { hall.new ≡ hall.old }
{
    if text.reserve(LONGEST_LINE).is_err() && hall.give_up_known() {
        // what is refused once more is refused to the line as well
        let _ = text.reserve(LONGEST_LINE);
    }
}

// Carries out an event, and appends the line of its outcome.
fn play_event(text: &mut Vec<u8>, hall: &mut Hall, event: &ScriptLine) -> Result<(), AllocError>
    requires { IsPlayable (length hall.old.seats) event.now }
    ensures { IfOk result (λ _. PlaysOn hall.old event.now text.old.items text.new.items hall.new) }
{
    let answer = hall.act(event.seat, &event.act);
    make_room_in_run(text, hall);
    append_line(text, event, &answer)?;
    Ok(())
}

// Carries out events in turn. It answers the text of their outcomes.
fn play_all(alloc: Global, hall: &mut Hall, events: &[ScriptLine]) -> Result<Vec<u8>, AllocError>
    requires { All (IsPlayable (length hall.old.seats)) events.now }
    ensures { IfOk result (λ text. Plays hall.old events.now text.items hall.new) }
{
    let mut text = Vec::new(alloc);
    for event in events {
        play_event(&mut text, hall, event)?;
    }
    Ok(text)
}

// A hall over the graph, with the cells and seats of the script.
fn hall_for(alloc: Global, graph: &Graph, script: &Script) -> Result<Hall, AllocError>
    requires small { length (graph_of graph.now).vertices ≤ most_vertices }
    requires playable { IsPlayableScript (script_of script.now) }
    ensures { IfOk result (λ hall. hall ≡ opened graph.now script.now.cells script.now.seats) }
{
    match Hall::new(alloc, graph, script.cells, script.seats) {
        Ok(hall) => Ok(hall),
        Err(StoreFault::Memory) => Err(AllocError),
        Err(StoreFault::TooManyVertices | StoreFault::Cells | StoreFault::Seats) => unreachable!(),
    }
}

fn played(alloc: Global, graph: &Graph, script: &Script) -> Result<Report, AllocError>
    requires small { length (graph_of graph.now).vertices ≤ most_vertices }
    requires playable { IsPlayableScript (script_of script.now) }
    ensures { IfOk result
        (λ report. IsPlayed (graph_of graph.now) (script_of script.now) (report_text report)) }
{
    let mut hall = hall_for(alloc, graph, script)?;
    let mut bytes = play_all(alloc, &mut hall, &script.lines)?;
    // what open sessions know is of no more use
    let _ = hall.give_up_known();
    bytes.extend_from_slice(b"graph\n")?;
    Ok(Report {
        bytes: write_graph_behind(bytes, &hall.last()?)?,
        status: 0,
    })
}

/// The report of a script: the outcomes of its events, and the graph that all records lead to.
///
/// The error is the report of the first fault of the two texts, or want of memory.
pub fn run(alloc: Global, first: &[u8], second: &[u8]) -> Result<Report, Halt>
    ensures { Makes (λ p. IsPlayed p.graph p.script) result (playing_in first.now second.now) }
{
    let graph = graph_in(alloc, first)?;
    let script = script_in(alloc, second)?;
    let report = played(alloc, &graph, &script)?;
    Ok(report)
}
