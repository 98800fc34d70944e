//! Graphs for tests, in words: "a b c" are three vertices, "a b t, b c r" two edges. Tests alone stand on it.
//!
//! The calls tell nothing of what they made, so the check of a test that makes many of them stays short.
#![tactic(auto)]

use std::alloc::Global;
use tg_graph::{Graph, Name, Rights};

/// The name that a word is, and `None` where it is none.
pub fn name(word: &str) -> Option<Name> {
    Name::parse(word.as_bytes()).ok()
}

fn add_vertices(graph: &mut Graph, vertices: &str) -> Option<()> {
    for vertex in vertices.split_whitespace() {
        graph.add_vertex(name(vertex)?).ok()?;
    }
    Some(())
}

// Adds the edge that a line says; an empty line says none.
fn add_edge(graph: &mut Graph, line: &str) -> Option<()> {
    let mut words = line.split_whitespace();
    let Some(source) = words.next() else {
        return Some(());
    };
    let (source, target) = (name(source)?, name(words.next()?)?);
    let rights = Rights::from_letters(words.next()?.as_bytes())?;
    graph.add_edge(source, target, rights).ok()
}

fn add_edges(graph: &mut Graph, edges: &str) -> Option<()> {
    for edge in edges.split(',') {
        add_edge(graph, edge)?;
    }
    Some(())
}

/// The graph with these vertices, in this order, and these edges.
///
/// `None` where a word is none, a vertex or an edge can't be added, or memory was refused.
pub fn graph(alloc: Global, vertices: &str, edges: &str) -> Option<Graph> {
    let mut graph = Graph::new(alloc);
    add_vertices(&mut graph, vertices)?;
    add_edges(&mut graph, edges)?;
    Some(graph)
}

/// The graph with so many vertices, `_0`, `_1` and so on, and no edge. `None` where memory was refused.
pub fn numbered(alloc: Global, count: u32) -> Option<Graph> {
    let mut graph = Graph::new(alloc);
    for number in 0..count {
        graph.add_vertex(Name::helper(number)).ok()?;
    }
    Some(graph)
}

/// The graph with as many vertices as there may be, `_0` to `_4095`, and these edges.
///
/// `None` where a word is none, an edge can't be added, or memory was refused.
pub fn most_vertices(alloc: Global, edges: &str) -> Option<Graph> {
    let mut graph = numbered(alloc, 4096)?;
    add_edges(&mut graph, edges)?;
    Some(graph)
}
