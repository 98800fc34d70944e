//! Labels that wait for the rows of vertices.
ghost use Rattle.std.specs.Prelude.{◌≡◌, ◌<◌, ◌≤◌, nat_lt, ℕ, List, [], Some, IfOk, IfSome, OnOk, OnErr, get_or, length, slice_get};
ghost use Rattle.std.specs.Map.{keys_of};
ghost use Rattle.tg_names.specs.declared.right_sets.Rights.{Rights};
ghost use Rattle.tg_names.specs.Sets.{IsNamed, nothing};
ghost use Rattle.tg_rows.specs.Rows.{Adds, IsLabel, IsRow, label_in, row_number};
ghost use Rattle.tg_graph.specs.Additions.{AddsEdge};
ghost use Rattle.tg_graph.specs.Waiting.{graph_built, label_for, MayWait, IsMoving, HasMoved};

use crate::labels::Labels;
use crate::protection::{EdgeFault, Graph};
use bitflags::Flags;
use std::alloc::{AllocError, Global};
use tg_names::{Name, Rights};
use tg_rows::{Hint, Row};

// Adds an edge to the row: behind the others, if it belongs there.
#[inline(always)]
fn put(
    graph: &Graph,
    row: &mut Row,
    target: Name,
    label: Rights,
    number: usize,
) -> Result<(), AllocError>
    requires { IsLabel label }
    ensures adds { OnOk result (Adds row.old row.new target label) }
{
    if row.push(target, label, number)? {
        return Ok(());
    }
    let hint = Hint {
        names: graph.names.as_ref(),
        number: Some(number),
    };
    row.add(target, label, hint)?;
    Ok(())
}

// Moves the label at a position to the row, for a vertex whose name may have the number.
#[inline(always)]
fn move_label(
    graph: &Graph,
    row: &mut Row,
    left: &mut Labels,
    place: usize,
    number: usize,
) -> Result<(), AllocError>
    ensures moved { (labels : List Rights) → IsMoving (keys_of graph.now) labels row.old left.old → OnOk result
        (IsMoving (keys_of graph.now) labels row.new left.new) }
    ensures gone { OnOk result (place < length graph.now → get_or left.new place nothing ≡ nothing) }
    ensures still_gone { (k : ℕ) → get_or left.old k nothing ≡ nothing → get_or left.new k nothing ≡ nothing }
{
    if !left.has(place) {
        return Ok(());
    }
    // No vertex stands twice: this `len` says so.
    let _ = graph.len();
    let Some(name) = graph.name_at(place) else {
        return Ok(());
    };
    put(graph, row, name, left.at(place), number)?;
    left.set(place, Rights::empty());
    Ok(())
}

// Those of the positions at which there are labels. No branch depends on the labels, so that the
// processor has nothing to guess.
fn labelled(alloc: Global, positions: &[u32], labels: &Labels) -> Result<Vec<u32>, AllocError> {
    let mut found = Vec::from_elem(alloc, 0, positions.len())?;
    let mut count: usize = 0;
    for position in positions {
        if let Some(next) = found.get_mut(count) {
            *next = *position;
        }
        count = count.wrapping_add(usize::from(labels.has(*position as usize)));
    }
    found.truncate(count);
    Ok(found)
}

// Moves the label of each of the shared names to the row, in their order.
fn move_each(
    graph: &Graph,
    positions: &[u32],
    row: &mut Row,
    left: &mut Labels,
) -> Result<(), AllocError>
    ensures { (labels : List Rights) → IsMoving (keys_of graph.now) labels row.old left.old → OnOk result
        (IsMoving (keys_of graph.now) labels row.new left.new) }
{
    for (number, position) in positions.iter().enumerate() {
        move_label(graph, row, left, *position as usize, number)?;
    }
    Ok(())
}

// Moves labels to the row in the order of the names, as far as the names of the vertices are shared.
// It decides no answer which are moved.
fn move_in_order(graph: &Graph, row: &mut Row, left: &mut Labels) -> Result<(), AllocError>
    ensures { (labels : List Rights) → IsMoving (keys_of graph.now) labels row.old left.old → OnOk result
        (IsMoving (keys_of graph.now) labels row.new left.new) }
{
    let Some(names) = &graph.names else {
        return Ok(());
    };
    if left.is_full() {
        return move_each(graph, names.positions(), row, left);
    }
    for position in &labelled(graph.alloc, names.positions(), left)? {
        let place = *position as usize;
        let number = names.number_at(place).unwrap_or(place);
        move_label(graph, row, left, place, number)?;
    }
    Ok(())
}

// Moves all labels to the row.
fn move_all(graph: &Graph, row: &mut Row, left: &mut Labels) -> Result<(), AllocError>
    ensures { (labels : List Rights) → IsMoving (keys_of graph.now) labels row.old left.old → OnOk result
        (HasMoved (keys_of graph.now) labels row.new) }
{
    if left.is_clear() {
        return Ok(());
    }
    for place in 0..graph.len() {
        if left.has(place) {
            move_label(graph, row, left, place, place)?;
        }
    }
    Ok(())
}

// No edges so far, in the form that suits the row with these labels.
fn row_for(graph: &Graph, labels: &Labels) -> Result<Row, AllocError>
    ensures { IfOk result (λ row. row ≡ []) }
{
    match &graph.names {
        Some(names) if names.len() == labels.len() && labels.is_full() => {
            Row::to_all(graph.alloc, names)
        }
        _ => Ok(Row::new(graph.alloc)),
    }
}

// The row with the labels.
fn row_of(graph: &Graph, labels: &Labels) -> Result<Row, AllocError>
    ensures moved { IfOk result (HasMoved (keys_of graph.now) labels.now) }
    ensures row { IfOk result IsRow }
{
    let mut left = labels.clone()?;
    let mut row = row_for(graph, labels)?;
    move_in_order(graph, &mut row, &mut left)?;
    move_all(graph, &mut row, &mut left)?;
    // It is a row: this `len` says so.
    let _ = row.len();
    Ok(row)
}

// The labels of the row of a vertex, unless a request for memory is refused.
fn labels_of(graph: &Graph, source: usize) -> Option<Labels>
    ensures labels { IfSome result
        (λ labels. (v : List ℕ) → label_for (keys_of graph.now) labels v ≡ label_in (row_number graph.now source) v) }
    ensures for_each { IfSome result (λ labels. length labels ≡ length graph.now) }
{
    let Ok(mut labels) = Labels::empty(graph.alloc, graph.len()) else {
        return None;
    };
    for place in 0..graph.row_len(source) {
        let (name, label) = graph.row_at(source, place)?;
        labels.set(graph.position(name)?, label);
    }
    Some(labels)
}

// Makes a row of what waits for the vertex at a position.
fn settle(graph: &mut Graph, waits: &mut Vec<Labels>, source: usize) -> Result<(), AllocError>
    requires within { source < length waits.old.items }
    requires may_wait { MayWait (graph.old, waits.old.items) }
    ensures same { graph_built (graph.new, waits.new.items) ≡ graph_built (graph.old, waits.old.items) }
    ensures may_wait { MayWait (graph.new, waits.new.items) }
    ensures settled { OnOk result (get_or waits.new.items source [] ≡ []) }
    ensures still_settled { (k : ℕ) → get_or waits.old.items k [] ≡ [] → get_or waits.new.items k [] ≡ [] }
    ensures length { length waits.new.items ≡ length waits.old.items }
{
    if waits[source].len() == 0 {
        return Ok(());
    }
    // No vertex stands twice: this `len` says so.
    let _ = graph.len();
    let row = row_of(graph, &waits[source])?;
    graph.set_row(source, row)?;
    waits[source] = Labels::none(graph.alloc);
    Ok(())
}

/// Makes rows of all that waits.
pub fn settle_all(graph: &mut Graph, waits: &mut Vec<Labels>) -> Result<(), AllocError>
    requires { MayWait (graph.old, waits.old.items) }
    ensures same { graph_built (graph.new, waits.new.items) ≡ graph_built (graph.old, waits.old.items) }
    ensures may_wait { MayWait (graph.new, waits.new.items) }
    ensures none { OnOk result (waits.new.items ≡ []) }
{
    for source in 0..waits.len() {
        settle(graph, waits, source)?;
    }
    *waits = Vec::new(graph.alloc);
    Ok(())
}

/// Whether there are labels that wait for the vertex at a position.
pub fn waits_at(waits: &[Labels], source: usize) -> bool
    ensures { result ≡ nat_lt 0 (length (get_or waits.now source [])) }
{
    match waits.get(source) {
        Some(labels) => labels.len() > 0,
        None => false,
    }
}

// Makes room for the labels of each vertex.
fn make_room(graph: &Graph, waits: &mut Vec<Labels>) -> Result<(), AllocError>
    ensures same { (k : ℕ) → get_or waits.new.items k [] ≡ get_or waits.old.items k [] }
    ensures room { OnOk result (length graph.now ≤ length waits.new.items) }
{
    for _ in waits.len()..graph.len() {
        waits.push(Labels::none(graph.alloc))?;
    }
    Ok(())
}

/// Lets the edges out of the vertex at a position wait from now on. A refusal is none: it costs time
/// alone.
pub fn begin(graph: &Graph, waits: &mut Vec<Labels>, source: usize)
    requires within { source < length graph.now }
    requires may_wait { MayWait (graph.now, waits.old.items) }
    ensures same { graph_built (graph.now, waits.new.items) ≡ graph_built (graph.now, waits.old.items) }
    ensures may_wait { MayWait (graph.now, waits.new.items) }
{
    // No vertex stands twice: this `len` says so.
    let _ = graph.len();
    let Ok(()) = make_room(graph, waits) else {
        return;
    };
    if waits[source].len() > 0 {
        return;
    }
    if let Some(labels) = labels_of(graph, source) {
        waits[source] = labels;
    }
}

/// Adds an edge from x to y, which stand at these positions, to the labels that wait for x.
pub fn add_waiting(
    graph: &Graph,
    waits: &mut Vec<Labels>,
    source: usize,
    target: usize,
    x: Name,
    y: Name,
    rights: Rights,
) -> Result<(), EdgeFault>
    requires may_wait { MayWait (graph.now, waits.old.items) }
    requires waits { 0 < length (get_or waits.old.items source []) }
    requires source { slice_get (keys_of graph.now) source ≡ Some x }
    requires target { slice_get (keys_of graph.now) target ≡ Some y }
    requires named { IsNamed rights }
    ensures added { AddsEdge (graph_built (graph.now, waits.old.items)) x y rights result (graph_built (graph.now, waits.new.items)) }
    ensures kept { OnErr result (waits.new ≡ waits.old) }
    ensures may_wait { MayWait (graph.now, waits.new.items) }
{
    // No vertex stands twice: this `len` says so.
    let _ = graph.len();
    if !waits[source].at(target).is_empty() {
        return Err(EdgeFault::EdgeThere);
    }
    if rights.is_empty() {
        return Err(EdgeFault::Empty);
    }
    waits[source].set(target, rights);
    Ok(())
}

/// Adds an edge from x to y, which stand at these positions, to the row of x, for which nothing
/// waits.
pub fn add_at_once(
    graph: &mut Graph,
    waits: &[Labels],
    source: usize,
    target: usize,
    x: Name,
    y: Name,
    rights: Rights,
) -> Result<(), EdgeFault>
    requires may_wait { MayWait (graph.old, waits.now) }
    requires waits { length (get_or waits.now source []) ≡ 0 }
    requires source { slice_get (keys_of graph.old) source ≡ Some x }
    requires target { slice_get (keys_of graph.old) target ≡ Some y }
    requires named { IsNamed rights }
    ensures added { AddsEdge (graph_built (graph.old, waits.now)) x y rights result (graph_built (graph.new, waits.now)) }
    ensures kept { OnErr result (graph.new ≡ graph.old) }
    ensures may_wait { MayWait (graph.new, waits.now) }
    ensures as_many { length graph.new ≡ length graph.old }
{
    // No vertex stands twice: this `len` says so.
    let _ = graph.len();
    graph.add_edge_at(source, target, x, y, rights)
}
