//! Graphs are read, and written again.
use crate::chance::Chance;
use crate::digest::Digest;
use crate::fault::Fault;
use crate::plans::{Labels, Order, Plan, Spelling};
use crate::sizes::Size;
use crate::texts::{graph_text, names};
use std::alloc::Global;
use tg_text::read_graph;

// Reads a text, and writes the graph.
fn read_and_write(
    alloc: Global,
    plan: &Plan,
    chance: &mut Chance,
    digest: &mut Digest,
) -> Result<(), Fault> {
    let names = names(alloc, plan)?;
    let text = graph_text(alloc, plan, &names, chance)?;
    let Ok(graph) = read_graph(alloc, &text) else {
        return Err(Fault::Refused);
    };
    digest.add_graph(alloc, &graph)?;
    Ok(())
}

/// Graphs of each kind.
pub(crate) fn read(
    alloc: Global,
    size: &Size,
    chance: &mut Chance,
    digest: &mut Digest,
) -> Result<(), Fault> {
    let few = size.vertices;
    let dense = Plan::scattered(few, few / 4, Labels::One);
    let some = Plan::scattered(few, few / 16, Labels::Several);
    let many = Plan::scattered(size.many, few / 16, Labels::One);
    let sparse = Plan::scattered(size.many, 4, Labels::Several);
    let plans = [
        dense,
        dense.in_order(Order::Rising),
        dense.in_order(Order::Falling),
        dense.in_order(Order::Rising).spelt(Spelling::InOrder),
        some,
        some.spelt(Spelling::Alike),
        many,
        many.spelt(Spelling::Alike),
        sparse,
        sparse.spelt(Spelling::Alike),
    ];
    for plan in &plans {
        read_and_write(alloc, plan, chance, digest)?;
    }
    Ok(())
}
