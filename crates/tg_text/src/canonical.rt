//! Graphs as canonical text.
ghost use Rattle.std.specs.Prelude.{◌≡◌, ◌+◌, ◌<◌, ◌≤◌, ◌∷◌, [], ◌++◌, length, IfOk, OnOk, vec_len, vec_capacity};
ghost use Rattle.std.specs.List.{flat_map, list_all};
ghost use Rattle.tg_graph.specs.GraphOf.{graph_of};
ghost use Rattle.tg_rows.specs.Rows.{IsGraph, row_number};
ghost use Rattle.tg_words.specs.Versions.{has_letters};
ghost use Rattle.tg_text.specs.Canonical.{canonical_text, edge_end, edge_front, in_name_order, letters_suffice, row_text, version_for, version_line, vertex_line};

use std::alloc::{AllocError, Global};
use tg_graph::{Graph, Name, Rights};
use tg_words::{Version, put, put_name, put_rights};

// As many bytes as the line of a version has, with its line feed.
const VERSION_LINE: usize = 10;

// As many bytes as the line of a vertex has at most, with its line feed.
const LONGEST_VERTEX_LINE: usize = 24;

// As many bytes as the line of an edge has at most up to the name of its source.
const LONGEST_EDGE_FRONT: usize = 21;

// As many bytes as the line of an edge has at most behind that name, with its line feed.
const LONGEST_EDGE_END: usize = 26;

// As many bytes as the line of an edge has at most, with its line feed.
const LONGEST_EDGE_LINE: usize = LONGEST_EDGE_FRONT + LONGEST_EDGE_END;

/// The names of the vertices of a graph in name order, each once. The error is want of memory.
pub fn names_in_order(alloc: Global, graph: &Graph) -> Result<Vec<Name>, AllocError>
    ensures names { IfOk result
        (λ names. names.items ≡ in_name_order (graph_of graph.now).vertices) }
    ensures graph { IsGraph graph.now }
{
    let mut names = Vec::with_capacity(alloc, graph.len())?;
    for position in 0..graph.len() {
        if let Some(name) = graph.name_at(position) {
            names.push(name)?;
        }
    }
    names.sort_unstable();
    Ok(names)
}

// Whether the version has letters for each label out of the vertex at a position.
fn row_letters_suffice(version: Version, graph: &Graph, position: usize) -> bool
    ensures { result ≡ list_all (λ edge. has_letters version edge.1)
        (row_number graph.now position) }
{
    for place in 0..graph.row_len(position) {
        if let Some((_, label)) = graph.row_at(position, place) {
            if !version.has_letters(label) {
                return false;
            }
        }
    }
    true
}

// Whether the version has letters for each label.
fn letters_suffice(version: Version, graph: &Graph) -> bool
    requires { IsGraph graph.now }
    ensures { result ≡ letters_suffice version (graph_of graph.now)
        (in_name_order (graph_of graph.now).vertices) }
{
    for vertex in 0..graph.len() {
        if !row_letters_suffice(version, graph, vertex) {
            return false;
        }
    }
    true
}

// The version in which a graph with these names is written.
fn version_for(graph: &Graph, names: &[Name]) -> Version
    requires graph { IsGraph graph.now }
    requires names { names.now ≡ in_name_order (graph_of graph.now).vertices }
    ensures { result ≡ version_for (graph_of graph.now) }
{
    let version = Version::One;
    if names.len() <= version.most_vertices() && letters_suffice(version, graph) {
        version
    } else {
        Version::Two
    }
}

// Appends a line feed, for which there is room.
fn end_line(text: &mut Vec<u8>)
    requires { vec_len text.old < vec_capacity text.old }
    ensures items { text.new.items ≡ text.old.items ++ 10 ∷ [] }
    ensures len { vec_len text.new ≡ vec_len text.old + 1 }
    ensures capacity { vec_capacity text.old ≤ vec_capacity text.new }
{
    text.push_reserved(b'\n');
}

// Appends the line of a version, where it has one.
fn append_version(text: &mut Vec<u8>, version: Version) -> Result<(), AllocError>
    ensures { OnOk result (text.new.items ≡ text.old.items ++ version_line version) }
{
    match version {
        Version::One => {},
        Version::Two => {
            text.reserve(VERSION_LINE)?;
            put(text, b"version 2");
            end_line(text);
        },
    }
    Ok(())
}

// Appends the line of a vertex.
fn append_vertex(text: &mut Vec<u8>, name: Name) -> Result<(), AllocError>
    ensures { OnOk result (text.new.items ≡ text.old.items ++ vertex_line name) }
{
    text.reserve(LONGEST_VERTEX_LINE)?;
    put(text, b"vertex");
    put_name(text, name);
    end_line(text);
    Ok(())
}

// Appends the lines of vertices.
fn append_vertices(text: &mut Vec<u8>, names: &[Name]) -> Result<(), AllocError>
    ensures { OnOk result (text.new.items ≡ text.old.items ++ flat_map vertex_line names.now) }
{
    for name in names {
        append_vertex(text, *name)?;
    }
    Ok(())
}

// Makes the bytes those with which the line of each edge out of a vertex begins.
fn make_front(front: &mut Vec<u8>, source: Name)
    requires { LONGEST_EDGE_FRONT ≤ vec_capacity front.old }
    ensures items { front.new.items ≡ edge_front source }
    ensures len { vec_len front.new ≤ LONGEST_EDGE_FRONT }
    ensures capacity { vec_capacity front.old ≤ vec_capacity front.new }
{
    front.clear();
    put(front, b"edge");
    put_name(front, source);
}

// Appends the line of an edge that begins with this front.
fn append_edge(text: &mut Vec<u8>, front: &[u8], edge: (Name, Rights))
    requires { vec_len text.old + length front.now + LONGEST_EDGE_END ≤ vec_capacity text.old }
    ensures items { text.new.items ≡ text.old.items ++ (front.now ++ edge_end edge.0 edge.1) }
    ensures len { vec_len text.new ≤ vec_len text.old + length front.now + LONGEST_EDGE_END }
    ensures capacity { vec_capacity text.old ≤ vec_capacity text.new }
{
    let (target, label) = edge;
    put(text, front);
    put_name(text, target);
    put_rights(text, label);
    end_line(text);
}

// Appends the lines of the edges out of one vertex, which begin with this front. Room for all of
// them is asked for at once.
fn append_row(
    text: &mut Vec<u8>,
    graph: &Graph,
    source: Name,
    front: &[u8],
) -> Result<(), AllocError>
    requires graph { IsGraph graph.now }
    requires front { front.now ≡ edge_front source }
    requires short { length front.now ≤ LONGEST_EDGE_FRONT }
    ensures { OnOk result (text.new.items ≡ text.old.items
        ++ row_text (graph_of graph.now) (in_name_order (graph_of graph.now).vertices) source) }
{
    let Some(position) = graph.position(source) else {
        return Ok(());
    };
    let count = graph.row_len(position);
    let Some(room) = count.checked_mul(LONGEST_EDGE_LINE) else {
        return Err(AllocError);
    };
    text.reserve(room)?;
    for place in 0..count {
        if let Some(edge) = graph.row_at(position, place) {
            append_edge(text, front, edge);
        }
    }
    Ok(())
}

// Appends the lines of the edges out of vertices.
fn append_rows(
    alloc: Global,
    text: &mut Vec<u8>,
    graph: &Graph,
    sources: &[Name],
) -> Result<(), AllocError>
    requires { IsGraph graph.now }
    ensures { OnOk result (text.new.items ≡ text.old.items
        ++ flat_map (row_text (graph_of graph.now) (in_name_order (graph_of graph.now).vertices)) sources.now) }
{
    let mut front = Vec::with_capacity(alloc, LONGEST_EDGE_FRONT)?;
    for source in sources {
        make_front(&mut front, *source);
        append_row(text, graph, *source, &front)?;
    }
    Ok(())
}

/// The text, and behind it the canonical text of a graph. The error is want of memory; the text is
/// gone then.
pub fn write_graph_behind(text: Vec<u8>, graph: &Graph) -> Result<Vec<u8>, AllocError>
    ensures { IfOk result (λ both. both.items ≡ text.items ++ canonical_text (graph_of graph.now)) }
{
    let mut text = text;
    let alloc = *text.allocator();
    let names = names_in_order(alloc, graph)?;
    append_version(&mut text, version_for(graph, &names))?;
    append_vertices(&mut text, &names)?;
    append_rows(alloc, &mut text, graph, &names)?;
    Ok(text)
}

/// The canonical text of a graph: the line `version 2`, if the graph has more vertices than
/// `MOST_VERTICES_OF_ONE` or a label with `a` or `d`; its vertices in name order, then its edges in
/// order of source, then target. The error is want of memory.
pub fn write_graph(alloc: Global, graph: &Graph) -> Result<Vec<u8>, AllocError>
    ensures { IfOk result (λ text. text.items ≡ canonical_text (graph_of graph.now)) }
{
    write_graph_behind(Vec::new(alloc), graph)
}
