//! The text of a graph.
ghost use Rattle.std.specs.Prelude.{⊤, ◌≡◌, ◌<◌, ◌∷◌, [], false, MatchBool, Ok};
ghost use Rattle.tg_names.specs.Names.{IsName};
ghost use Rattle.tg_names.specs.Sets.{IsNamed, is_empty_set};
ghost use Rattle.tg_graph.specs.GraphOf.{graph_of};
ghost use Rattle.tg_graph.specs.Waiting.{graph_built};
ghost use Rattle.tg_words.specs.Lines.{words_of};
ghost use Rattle.tg_words.specs.Reading.{Makes, Reads};
ghost use Rattle.tg_words.specs.Versions.{version_of};
ghost use Rattle.tg_text.specs.GraphText.{GraphSoFar, version_item, vertex_item, edge_item, graph_item, graph_text, nothing_read, with_new_vertex, with_new_edge};

use std::alloc::Global;
use tg_graph::{EdgeFault, Graph, GraphBuilder, Name, Rights, VertexFault};
use tg_words::{
    Items, LineFault, TextFault, TextKind, Version, cut_edge, edge_rights_at, header_number,
    name_at, one_word, read_lines, three_words,
};

/// The number of the last version.
const LAST_VERSION: u32 = 2;

fn add_vertex(graph: &mut GraphBuilder, version: Version, name: Name) -> Result<(), LineFault>
    ensures { Makes (with_new_vertex version (graph_built graph.old) name) result
        (graph_built graph.new) }
{
    if graph.len() >= version.most_vertices() && !graph.knows(name) {
        return Err(LineFault::Kind(TextKind::TooManyVertices));
    }
    match graph.add_vertex(name) {
        Ok(()) => Ok(()),
        Err(VertexFault::Taken) => Err(LineFault::Kind(TextKind::DuplicateVertex)),
        Err(VertexFault::Memory) => Err(LineFault::Memory),
    }
}

fn add_edge(graph: &mut GraphBuilder, x: Name, y: Name, rights: Rights) -> Result<(), LineFault>
    requires named { IsNamed rights }
    requires some { is_empty_set rights ≡ false }
    ensures { Makes (with_new_edge (graph_built graph.old) x y rights) result (graph_built graph.new) }
{
    match graph.add_edge(x, y, rights) {
        Ok(()) => Ok(()),
        Err(EdgeFault::Unknown(_)) => Err(LineFault::Kind(TextKind::UnknownVertex)),
        Err(EdgeFault::EdgeThere) => Err(LineFault::Kind(TextKind::DuplicateEdge)),
        Err(EdgeFault::Empty) => Err(LineFault::Kind(TextKind::BadRights)),
        Err(EdgeFault::Memory) => Err(LineFault::Memory),
    }
}

#[tactic(auto, unfolding(crate::specs::GraphText::vertex_item))]
fn add_vertex_line(
    graph: &mut GraphBuilder,
    version: Version,
    words: &[u8],
) -> Result<(), LineFault>
    ensures { Makes (vertex_item version (graph_built graph.old) (words_of words.now)) result
        (graph_built graph.new) }
{
    let word = one_word(words)?;
    let name = name_at(word)?;
    add_vertex(graph, version, name)?;
    Ok(())
}

#[tactic(auto, unfolding(crate::specs::GraphText::edge_item))]
fn add_edge_line(graph: &mut GraphBuilder, version: Version, words: &[u8]) -> Result<(), LineFault>
    ensures { Makes (edge_item version (graph_built graph.old) (words_of words.now)) result
        (graph_built graph.new) }
{
    let (source, target, letters) = three_words(words)?;
    let x = name_at(source)?;
    let y = name_at(target)?;
    let rights = edge_rights_at(version, letters)?;
    add_edge(graph, x, y, rights)?;
    Ok(())
}

// Adds the edge of a line with these names and letters, and says whether it was added. An edge that is
// at fault is not, nor is one that was refused memory: its line is then read anew, word by word, and that
// says what is wrong with it, asks for the memory once more, or finds that it is refused again.
#[tactic(auto, unfolding(crate::specs::GraphText::edge_item))]
fn add_plain_edge(
    graph: &mut GraphBuilder,
    version: Version,
    x: Name,
    y: Name,
    letters: &[u8],
) -> bool
    requires { IsName x × IsName y }
    ensures { MatchBool result
        (edge_item version (graph_built graph.old) (x ∷ y ∷ letters.now ∷ []) ≡ Ok (graph_built graph.new))
        (graph_built graph.new ≡ graph_built graph.old) }
{
    match edge_rights_at(version, letters) {
        Ok(rights) => graph.add_edge(x, y, rights).is_ok(),
        Err(_) => false,
    }
}

// What the lines of a text make: the version with which it begins, once a line was read, and the
// graph.
#[derive(Drop)]
pub(crate) struct GraphItems {
    begun: Option<Version>,
    graph: GraphBuilder,
}

// The version of a text that begins with this one.
fn version_of(begun: Option<Version>) -> Version
    ensures { result ≡ version_of begun }
{
    match begun {
        Some(version) => version,
        None => Version::One,
    }
}

// The version that the words of a line name: the first line may name one, and no other.
fn version_item(begun: Option<Version>, first: &[u8], rest: &[u8]) -> Result<Version, TextKind>
    ensures { result ≡ version_item begun (first.now ∷ words_of rest.now) }
{
    if begun.is_some() {
        return Err(TextKind::BadWord);
    }
    let number = header_number(b"version", LAST_VERSION, first, rest)?;
    Ok(Version::numbered(number))
}

impl Items for GraphItems {
    ghost Made = { GraphSoFar };

    ghost made = { λ items. (items.begun, graph_built items.graph) };

    ghost item = { λ _. graph_item };

    ghost IsSound = { λ _. ⊤ };

    #[tactic(auto, unfolding(crate::specs::GraphText::graph_item))]
    fn add(&mut self, _line: usize, first: &[u8], rest: &[u8]) -> Result<(), LineFault> {
        let version = version_of(self.begun);
        if first == b"vertex".as_slice() {
            add_vertex_line(&mut self.graph, version, rest)?;
            self.begun = Some(version);
            return Ok(());
        }
        if first == b"edge".as_slice() {
            add_edge_line(&mut self.graph, version, rest)?;
            self.begun = Some(version);
            return Ok(());
        }
        self.begun = Some(version_item(self.begun, first, rest)?);
        Ok(())
    }

    fn add_likely<'a>(&mut self, _line: usize, text: &'a [u8]) -> Option<&'a [u8]> {
        let version = self.begun?;
        let Some(line) = cut_edge(text) else {
            return None;
        };
        if add_plain_edge(&mut self.graph, version, line.0, line.1, line.2) {
            Some(line.3)
        } else {
            None
        }
    }
}

impl GraphItems {
    // What no lines make.
    fn nothing(alloc: Global) -> GraphItems
        ensures { (result.begun, graph_built result.graph) ≡ nothing_read }
    {
        GraphItems {
            begun: None,
            graph: GraphBuilder::over(alloc, Graph::new(alloc)),
        }
    }
}

#[tactic(auto, unfolding(crate::specs::GraphText::graph_text))]
/// The graph of a text, its vertices in the order of their lines.
///
/// The first line that is not skipped may be `version 1` or `version 2`; a text without it has
/// version 1, which keeps the letters `t`, `g`, `r`, `w` and `e` and `MOST_VERTICES_OF_ONE`
/// vertices. Version 2 has all letters and `MOST_VERTICES` vertices.
///
/// `At` names the first faulty line, and the first of these that it has: `LineTooLong`, `BadWord`,
/// `WordCount`, `BadNumber`, `BadName`, `BadRights`, `DuplicateVertex`, `TooManyVertices`,
/// `UnknownVertex`, `DuplicateEdge`. `Memory` is answered where a growth was refused, whatever
/// stands further on.
pub fn read_graph(alloc: Global, text: &[u8]) -> Result<Graph, TextFault>
    ensures { Reads graph_of result (graph_text text.now) }
{
    let mut items = GraphItems::nothing(alloc);
    read_lines(&mut items, text)?;
    match items.graph.finish() {
        Ok(graph) => Ok(graph),
        Err(_) => Err(TextFault::Memory),
    }
}
