//! The islands of a graph, as lines.
ghost use Rattle.std.specs.Prelude.{◌≡◌, ◌++◌, ◌∷◌, [], IfOk, OnOk, replicate, slice_index_or};
ghost use Rattle.std.specs.Map.{keys_of};
ghost use Rattle.std.specs.List.{flat_map};
ghost use Rattle.tg_graph.specs.GraphOf.{graph_of};
ghost use Rattle.tg_reports.specs.Reports.{AreIslandLines, island_line};
ghost use Rattle.tg_inputs.specs.Outcomes.{report_text};
ghost use Rattle.tg_reports.specs.ReportParts.{AreGathered, numbered_text};

use std::alloc::{AllocError, Global};
use std::marker::Model;
use tg_analysis::{Islands, islands};
use tg_graph::{Graph, Name};
use tg_inputs::Report;
use tg_text::names_in_order;

// The names of one island, as far as they are gathered.
#[derive(Drop)]
struct Members {
    names: Vec<Name>,
}

impl Model for Members {
    ghost use Rattle.std.specs.Prelude.{List};
    ghost use Rattle.tg_names.specs.Names.{Name};

    ghost Value = { List Name };

    ghost view = { λ m. m.names.items };
}

impl Members {
    fn new(alloc: Global) -> Members
        ensures { result ≡ [] }
    {
        Members {
            names: Vec::new(alloc),
        }
    }

    fn add(&mut self, name: Name) -> Result<(), AllocError>
        ensures { OnOk result (self.new ≡ self.old ++ name ∷ []) }
    {
        self.names.push(name)?;
        Ok(())
    }

    fn as_slice(&self) -> &[Name]
        ensures { result.now ≡ self.now }
    {
        self.names.as_slice()
    }
}

// As many islands, without names.
fn empty(alloc: Global, count: usize) -> Result<Vec<Members>, AllocError>
    ensures { IfOk result (λ gathered. gathered.items ≡ replicate count []) }
{
    let mut gathered = Vec::with_capacity(alloc, count)?;
    for _ in 0..count {
        gathered.push(Members::new(alloc))?;
    }
    Ok(gathered)
}

// The names of each island, by its number.
fn gathered(
    alloc: Global,
    graph: &Graph,
    islands: &Islands,
    names: &[Name],
) -> Result<Vec<Members>, AllocError>
    ensures { IfOk result
        (λ gathered. AreGathered (keys_of graph.now) islands.now names.now gathered.items) }
{
    let mut gathered = empty(alloc, islands.count())?;
    for name in names {
        if let Some(number) = islands.number_of(graph, *name) {
            let island = &mut gathered[number];
            island.add(*name)?;
        }
    }
    Ok(gathered)
}

// Appends names, each with a space before it.
fn append_spaced(text: &mut Vec<u8>, names: &[Name]) -> Result<(), AllocError>
    ensures { OnOk result (text.new.items ≡ text.old.items ++ flat_map (λ u. 32 ∷ u) names.now) }
{
    for name in names {
        text.push(b' ')?;
        text.extend_from_slice(name.as_bytes())?;
    }
    Ok(())
}

// Appends the line of an island, if the name is the least of it.
fn append_line(text: &mut Vec<u8>, name: Name, island: &[Name]) -> Result<(), AllocError>
    ensures { OnOk result (text.new.items ≡ text.old.items ++ island_line name island.now) }
{
    match island {
        [least, others @ ..] if name == *least => {
            text.extend_from_slice(least.as_bytes())?;
            append_spaced(text, others)?;
            text.push(b'\n')?;
            Ok(())
        }
        _ => Ok(()),
    }
}

// The names that are gathered under a number.
fn names_at(gathered: &[Members], number: usize) -> &[Name]
    ensures { result.now ≡ slice_index_or gathered.now number [] }
{
    match gathered.get(number) {
        Some(island) => island.as_slice(),
        None => &[],
    }
}

// The lines of the islands, whose names are gathered.
fn lines_of(
    alloc: Global,
    graph: &Graph,
    islands: &Islands,
    names: &[Name],
    gathered: &[Members],
) -> Result<Vec<u8>, AllocError>
    requires { AreGathered (keys_of graph.now) islands.now names.now gathered.now }
    ensures { IfOk result
        (λ text. text.items ≡ numbered_text (keys_of graph.now) islands.now names.now) }
{
    let mut text = Vec::new(alloc);
    for name in names {
        if let Some(number) = islands.number_of(graph, *name) {
            append_line(&mut text, *name, names_at(gathered, number))?;
        }
    }
    Ok(text)
}

/// The report of the islands of a graph: a line for each, with its names in name order.
pub(crate) fn islands_report(alloc: Global, graph: &Graph) -> Result<Report, AllocError>
    ensures { IfOk result (λ report. AreIslandLines (graph_of graph.now) (report_text report)) }
{
    let islands = islands(alloc, graph)?;
    let names = names_in_order(alloc, graph)?;
    let gathered = gathered(alloc, graph, &islands, &names)?;
    Ok(Report {
        bytes: lines_of(alloc, graph, &islands, &names, &gathered)?,
        status: 0,
    })
}
