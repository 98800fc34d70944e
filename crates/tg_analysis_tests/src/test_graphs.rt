//! Graphs for tests, in words: "a b c" are three vertices, "a b t, b c r" two edges. A word that is none
//! fails its test. The calls tell nothing of what they did, so the check of a test that makes many of them
//! stays short.
ghost use Rattle.tg_names.specs.Sets.{IsNamed};

use std::alloc::Global;
use std::process::Abort;
use std::str::SplitWhitespace;
use tg_graph::{Graph, Name, Right, Rights};

pub(crate) fn name(rt: &impl Abort, word: &str) -> Name {
    Name::parse(word.as_bytes()).expect(rt, "a name")
}

/// The set of the rights of these letters.
pub(crate) fn set(rt: &impl Abort, letters: &str) -> Rights
    ensures { IsNamed result }
{
    Rights::from_letters(letters.as_bytes()).expect(rt, "letters of rights")
}

/// The right of a letter.
pub(crate) fn right(rt: &impl Abort, letter: &str) -> Right {
    match letter.as_bytes() {
        [letter] => Right::from_letter(*letter).expect(rt, "the letter of a right"),
        _ => panic!(rt; "one letter"),
    }
}

/// The next word of a line.
pub(crate) fn word<'a>(rt: &impl Abort, words: &mut SplitWhitespace<'a>) -> &'a str {
    words.next().expect(rt, "one word more")
}

/// The graph with these vertices, in this order, and these edges.
pub(crate) fn graph(rt: &impl Abort, alloc: Global, vertices: &str, edges: &str) -> Graph {
    tg_graph_trials::graph(alloc, vertices, edges).expect(rt, "a graph")
}

/// The graph with so many vertices, _0, _1 and so on, and no edge.
pub(crate) fn numbered(rt: &impl Abort, alloc: Global, count: u32) -> Graph {
    tg_graph_trials::numbered(alloc, count).expect(rt, "a graph")
}

/// The graph with as many vertices as there may be, _0 to _4095, and these edges.
pub(crate) fn most_vertices(rt: &impl Abort, alloc: Global, edges: &str) -> Graph {
    tg_graph_trials::most_vertices(alloc, edges).expect(rt, "a graph")
}
