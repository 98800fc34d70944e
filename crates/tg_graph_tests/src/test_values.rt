//! Names, sets, rules and graphs for the tests of several modules. A word that is none fails its
//! test.
ghost use Rattle.tg_names.specs.Sets.{IsNamed};
ghost use Rattle.tg_graph.specs.Rules.{rights_of};

use bitflags::Flags;
use std::alloc::Global;
use std::process::Abort;
use std::test::Fail;
use tg_graph::{Graph, Name, Right, Rights, Rule};

/// The name that the bytes are.
pub fn name(rt: &impl Abort, bytes: &[u8]) -> Name {
    Name::parse(bytes).expect(rt, "a name")
}

/// The set that the letters write.
pub fn set(rt: &impl Abort, letters: &[u8]) -> Rights
    ensures { IsNamed result }
{
    Rights::from_letters(letters).expect(rt, "a set of rights")
}

/// x takes rights over z from y.
pub fn take(rt: &impl Abort, x: &[u8], y: &[u8], z: &[u8], letters: &[u8]) -> Rule
    ensures { IsNamed (rights_of result) }
{
    Rule::Take {
        x: name(rt, x),
        y: name(rt, y),
        z: name(rt, z),
        rights: set(rt, letters),
    }
}

/// x grants y rights over z.
pub fn grant(rt: &impl Abort, x: &[u8], y: &[u8], z: &[u8], letters: &[u8]) -> Rule
    ensures { IsNamed (rights_of result) }
{
    Rule::Grant {
        x: name(rt, x),
        y: name(rt, y),
        z: name(rt, z),
        rights: set(rt, letters),
    }
}

/// x creates n with rights over it.
pub fn create(rt: &impl Abort, x: &[u8], n: &[u8], letters: &[u8]) -> Rule
    ensures { IsNamed (rights_of result) }
{
    Rule::Create {
        x: name(rt, x),
        n: name(rt, n),
        rights: set(rt, letters),
    }
}

/// x gives up rights over y.
pub fn remove(rt: &impl Abort, x: &[u8], y: &[u8], letters: &[u8]) -> Rule
    ensures { IsNamed (rights_of result) }
{
    Rule::Remove {
        x: name(rt, x),
        y: name(rt, y),
        rights: set(rt, letters),
    }
}

// The calls that follow tell nothing of the graph, so the check of a test that makes many of them
// stays short.

/// Adds a vertex.
pub fn with_vertex(rt: &impl Abort, g: &mut Graph, n: &[u8]) {
    assert!(rt; g.add_vertex(name(rt, n)) == Ok(()));
}

/// Adds an edge.
pub fn with_edge(rt: &impl Abort, g: &mut Graph, x: &[u8], y: &[u8], letters: &[u8]) {
    assert!(rt; g.add_edge(name(rt, x), name(rt, y), set(rt, letters)) == Ok(()));
}

/// Whether x has r over y.
pub fn reads(rt: &impl Abort, g: &Graph, x: &[u8], y: &[u8]) -> bool {
    g.holds(name(rt, x), Right::R, name(rt, y))
}

/// The graph has as many vertices as there are lengths, and their rows have these.
pub fn row_lengths(rt: &impl Abort, g: &Graph, lengths: &[usize]) {
    assert!(rt; g.len() == lengths.len());
    for (position, length) in lengths.iter().enumerate() {
        assert!(rt; g.row_len(position) == *length);
    }
}

/// The vertex stands at the position.
pub fn stands_at(rt: &impl Abort, g: &Graph, n: &[u8], position: usize) {
    assert!(rt; g.position(name(rt, n)) == Some(position));
    assert!(rt; g.name_at(position) == Some(name(rt, n)));
}

fn add_two(rt: &impl Abort, g: &mut Graph, letters: &[u8]) -> Result<(), Fail> {
    let (a, b) = (name(rt, b"a"), name(rt, b"b"));
    g.add_vertex(a)?;
    g.add_vertex(b)?;
    let label = set(rt, letters);
    if !label.is_empty() {
        g.add_edge(a, b, label)?;
    }
    Ok(())
}

/// The vertices a and b, and the edge between them if its label is not empty.
pub fn two(rt: &impl Abort, alloc: Global, letters: &[u8]) -> Result<Graph, Fail> {
    let mut g = Graph::new(alloc);
    add_two(rt, &mut g, letters)?;
    Ok(g)
}

fn add_third(rt: &impl Abort, g: &mut Graph) -> Result<(), Fail> {
    let c = name(rt, b"c");
    g.add_vertex(c)?;
    g.add_edge(name(rt, b"b"), c, set(rt, b"r"))?;
    Ok(())
}

/// The vertices a, b and c, where a has t over b, and b has r over c.
pub fn three(rt: &impl Abort, alloc: Global) -> Result<Graph, Fail> {
    let mut g = two(rt, alloc, b"t")?;
    add_third(rt, &mut g)?;
    Ok(g)
}

// Whether the vertices at a position have the same row.
fn same_row(one: &Graph, other: &Graph, position: usize) -> bool {
    if one.row_len(position) != other.row_len(position) {
        return false;
    }
    for place in 0..one.row_len(position) {
        if one.row_at(position, place) != other.row_at(position, place) {
            return false;
        }
    }
    true
}

/// Whether two graphs have the same vertices in the same order, with the same rows.
pub fn same(one: &Graph, other: &Graph) -> bool {
    if one.len() != other.len() {
        return false;
    }
    for position in 0..one.len() {
        if one.name_at(position) != other.name_at(position) || !same_row(one, other, position) {
            return false;
        }
    }
    true
}
