//! The table of all pairs, as lines.
ghost use Rattle.std.specs.Prelude.{◌≡◌, ◌++◌, ◌∷◌, map, IfOk, OnOk};
ghost use Rattle.std.specs.Map.{keys_of};
ghost use Rattle.tg_graph.specs.GraphOf.{graph_of};
ghost use Rattle.tg_analysis.specs.Tables.{IsPairTable};
ghost use Rattle.tg_inputs.specs.Readings.{table_in};
ghost use Rattle.tg_reports.specs.Reports.{AreTableLines};
ghost use Rattle.tg_inputs.specs.Outcomes.{Makes, report_text, table_question_of, IsTableWork};
ghost use Rattle.tg_reports.specs.ReportParts.{placed, digit_at, placed_line, placed_text};

use std::alloc::{AllocError, Global};
use std::thread::Threads;
use tg_analysis::{OpenGate, PairTable, TableFault, pair_table};
use tg_graph::{Graph, Name};
use tg_inputs::{Halt, Report, TableWork, table_in};
use tg_text::names_in_order;

// The names with their positions.
fn placed(
    alloc: Global,
    graph: &Graph,
    names: &[Name],
) -> Result<Vec<(Name, Option<usize>)>, AllocError>
    ensures { IfOk result (λ entries. entries.items ≡ placed (keys_of graph.now) names.now) }
{
    let mut entries = Vec::with_capacity(alloc, names.len())?;
    for name in names {
        entries.push((*name, graph.position(*name)))?;
    }
    Ok(entries)
}

// The digit of the cell at two positions.
fn digit_at(table: &PairTable, i: Option<usize>, j: Option<usize>) -> u8
    ensures { result ≡ digit_at table.now i j }
{
    match (i, j) {
        (Some(i), Some(j)) => match table.cell(i, j) {
            Some(true) => b'1',
            Some(false) | None => b'0',
        },
        _ => b'0',
    }
}

// Appends the digits of a row.
fn append_digits(
    text: &mut Vec<u8>,
    table: &PairTable,
    i: Option<usize>,
    entries: &[(Name, Option<usize>)],
) -> Result<(), AllocError>
    ensures { OnOk result
        (text.new.items ≡ text.old.items ++ map (λ f. digit_at table.now i f.1) entries.now) }
{
    for entry in entries {
        text.push(digit_at(table, i, entry.1))?;
    }
    Ok(())
}

// Appends the line of a vertex.
fn append_line(
    text: &mut Vec<u8>,
    table: &PairTable,
    entry: (Name, Option<usize>),
    entries: &[(Name, Option<usize>)],
) -> Result<(), AllocError>
    ensures { OnOk result
        (text.new.items ≡ text.old.items ++ placed_line table.now entries.now entry) }
{
    text.extend_from_slice(entry.0.as_bytes())?;
    text.push(b' ')?;
    append_digits(text, table, entry.1, entries)?;
    text.push(b'\n')?;
    Ok(())
}

// The lines of a table.
fn lines_of(
    alloc: Global,
    table: &PairTable,
    entries: &[(Name, Option<usize>)],
) -> Result<Vec<u8>, AllocError>
    ensures { IfOk result (λ text. text.items ≡ placed_text table.now entries.now) }
{
    let mut text = Vec::new(alloc);
    for entry in entries {
        append_line(&mut text, table, *entry, entries)?;
    }
    Ok(text)
}

// The table that is asked for, by so many workers.
fn table_of<R: Threads + Sync>(
    rt: &R,
    alloc: Global,
    work: &TableWork,
) -> Result<PairTable, AllocError>
    requires { IsTableWork work.now }
    ensures { IfOk result (λ table. IsPairTable (graph_of work.now.graph) work.now.right table) }
{
    match pair_table(rt, alloc, &work.graph, work.right, work.workers, &OpenGate) {
        Ok(table) => Ok(table),
        Err(TableFault::Memory) => Err(AllocError),
        Err(TableFault::Workers | TableFault::TooLarge) => unreachable!(),
    }
}

fn table_report<R: Threads + Sync>(
    rt: &R,
    alloc: Global,
    work: &TableWork,
) -> Result<Report, AllocError>
    requires { IsTableWork work.now }
    ensures { IfOk result
        (λ report. AreTableLines (table_question_of work.now) (report_text report)) }
{
    let table = table_of(rt, alloc, work)?;
    let names = names_in_order(alloc, &work.graph)?;
    let entries = placed(alloc, &work.graph, &names)?;
    Ok(Report {
        bytes: lines_of(alloc, &table, &entries)?,
        status: 0,
    })
}

/// The report of a table: for each vertex a line, with a digit for each vertex, in name order.
///
/// The text is written in one pass over the table. It is held whole, with a byte for each two
/// vertices, beside the table, which has one row for each island.
pub(crate) fn table<R: Threads + Sync>(
    rt: &R,
    alloc: Global,
    first: &[u8],
    right: &str,
    workers: u64,
) -> Result<Report, Halt>
    ensures { Makes AreTableLines result (table_in first.now right.now workers) }
{
    let work = table_in(alloc, first, right, workers)?;
    let report = table_report(rt, alloc, &work)?;
    Ok(report)
}
