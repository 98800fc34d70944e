//! Reports on protection graphs.
ghost use Rattle.std.specs.Prelude.{IfOk};
ghost use Rattle.tg_inputs.specs.Calls.{command_words};
ghost use Rattle.tg_inputs.specs.Readings.{graph_in};
ghost use Rattle.tg_reports.specs.Reports.{check_report, apply_report, IsReport, AreIslandLines};
ghost use Rattle.tg_inputs.specs.Parts.{graph_part, rules_part};
ghost use Rattle.tg_inputs.specs.Outcomes.{Brings, Makes, report_text};

use crate::cut_lines::cut;
use crate::island_lines::islands_report;
use crate::reach_lines::reach;
use crate::sharing::{derive, share};
use crate::table_lines::table;
use crate::who_lines::who;
use std::alloc::{AllocError, Global};
use std::thread::Threads;
use tg_inputs::{AppliedRules, Command, Halt, Report, graph_in, parts_of, rules_applied};
use tg_plays::run;
use tg_policies::verify;
use tg_text::{write_graph, write_graph_behind};

fn check(alloc: Global, first: &[u8]) -> Result<Report, Halt>
    ensures { Brings report_text result (check_report first.now) }
{
    let graph = graph_in(alloc, first)?;
    Ok(Report {
        bytes: write_graph(alloc, &graph)?,
        status: 0,
    })
}

// The same, in the memory of the text, which is no longer needed once the graph is there.
fn check_over(first: Vec<u8>) -> Result<Report, Halt>
    ensures { Brings report_text result (check_report first.items) }
{
    let alloc = *first.allocator();
    let graph = graph_in(alloc, &first)?;
    let mut bytes = first;
    bytes.clear();
    Ok(Report {
        bytes: write_graph_behind(bytes, &graph)?,
        status: 0,
    })
}

fn islands_of(alloc: Global, first: &[u8]) -> Result<Report, Halt>
    ensures { Makes AreIslandLines result (graph_in first.now) }
{
    let graph = graph_in(alloc, first)?;
    let report = islands_report(alloc, &graph)?;
    Ok(report)
}

fn apply(alloc: Global, first: &[u8], second: &[u8]) -> Result<Report, Halt>
    ensures { Brings report_text result (apply_report first.now second.now) }
{
    let graph = graph_in(alloc, first)?;
    let AppliedRules {
        graph,
        mut replies,
        status,
    } = rules_applied(alloc, graph, second)?;
    replies.extend_from_slice(b"graph\n")?;
    Ok(Report {
        bytes: write_graph_behind(replies, &graph)?,
        status,
    })
}

fn case(alloc: Global, input: &[u8]) -> Result<Report, Halt>
    ensures { Brings report_text result
        (apply_report (graph_part input.now) (rules_part input.now)) }
{
    let (first, second) = parts_of(input);
    apply(alloc, first, second)
}

/// The report of a command for its texts. A command of one text leaves the second aside.
///
/// An error means that there was no memory. A table alone starts threads, and waits for them.
pub fn report<R: Threads + Sync>(
    rt: &R,
    alloc: Global,
    command: &Command,
    first: &[u8],
    second: &[u8],
) -> Result<Report, AllocError>
    ensures { IfOk result
        (λ report. IsReport (command_words command.now) first.now second.now (report_text report)) }
{
    let made = match *command {
        Command::Case => case(alloc, first),
        Command::Check => check(alloc, first),
        Command::Apply => apply(alloc, first, second),
        Command::Islands => islands_of(alloc, first),
        Command::Share { rights, x, y } => share(alloc, first, rights, x, y),
        Command::Derive { rights, x, y } => derive(alloc, first, rights, x, y),
        Command::Table { right, workers } => table(rt, alloc, first, right, workers),
        Command::Run => run(alloc, first, second),
        Command::Who { rights, y } => who(alloc, first, rights, y),
        Command::Reach { x } => reach(alloc, first, x),
        Command::Verify { why } => verify(alloc, first, second, why),
        Command::Cut { right, x, y, kept } => cut(alloc, first, right, x, y, kept),
    };
    match made {
        Ok(report) => Ok(report),
        Err(Halt::Refused(report)) => Ok(report),
        Err(Halt::Memory) => Err(AllocError),
    }
}

/// The report of a command for its texts, which are let go of. It is made in the memory of the first
/// where it is the graph of that text; no contract speaks of that.
///
/// An error means that there was no memory. A table alone starts threads, and waits for them.
pub fn report_of_texts<R: Threads + Sync>(
    rt: &R,
    alloc: Global,
    command: &Command,
    first: Vec<u8>,
    second: Vec<u8>,
) -> Result<Report, AllocError>
    ensures { IfOk result
        (λ report. IsReport (command_words command.now) first.items second.items (report_text report)) }
{
    let Command::Check = *command else {
        return report(rt, alloc, command, &first, &second);
    };
    match check_over(first) {
        Ok(report) => Ok(report),
        Err(Halt::Refused(report)) => Ok(report),
        Err(Halt::Memory) => Err(AllocError),
    }
}
