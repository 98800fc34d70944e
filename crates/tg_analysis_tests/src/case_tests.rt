// The first cases of claims about sharing: values worked by hand, and agreement with the answers one by one.
ghost use Rattle.std.specs.Prelude.{IsTrue};
ghost use Rattle.tg_graph.specs.GraphOf.{graph_of};
ghost use Rattle.tg_analysis.specs.Cases.{ArePlaces, AreVertices};

use crate::test_answers::shares;
use crate::test_graphs::{graph, name, right, set, word};
use std::alloc::{AllocError, Global};
use std::process::Abort;
use tg_analysis::{Case, CaseIndex};
use tg_graph::{Graph, Name, Right, Rights};

// The names of a list.
fn names(rt: &impl Abort, alloc: Global, words: &str) -> Vec<Name> {
    let mut names = Vec::new(alloc);
    for word in words.split_whitespace() {
        assert!(rt; names.push(name(rt, word)).is_ok());
    }
    names
}

// The case that a text says, as "r a b"; an empty text says none.
fn case(rt: &impl Abort, text: &str) -> Option<Case> {
    let mut words = text.split_whitespace();
    let letter = words.next()?;
    Some(Case {
        right: right(rt, letter),
        x: name(rt, word(rt, &mut words)),
        y: name(rt, word(rt, &mut words)),
    })
}

/// Which cases are meant.
#[derive(Clone, Copy)]
pub(crate) enum Kind {
    /// Those in which x can come to have the right.
    Shared,
    /// Those in which it can't.
    Unshared,
    /// Those in which it can, and is none of the allowed.
    Beyond,
}

// Whether each of the names is a vertex.
fn are_vertices(graph: &Graph, names: &[Name]) -> bool
    ensures { IsTrue result → AreVertices (graph_of graph.now) names.now }
{
    for name in names {
        if !graph.knows(*name) {
            return false;
        }
    }
    true
}

// Whether each is a place of a list of so many.
fn are_places(count: usize, places: &[usize]) -> bool
    ensures { IsTrue result → ArePlaces count places.now }
{
    for place in places {
        if *place >= count {
            return false;
        }
    }
    true
}

// The place of a name among the names of an index.
fn place_of(rt: &impl Abort, names: &[Name], wanted: Name) -> usize {
    for place in 0..names.len() {
        if names[place] == wanted {
            return place;
        }
    }
    panic!(rt; "a name of the index")
}

// The first places of names among the names of an index.
fn places_of(
    rt: &impl Abort,
    alloc: Global,
    names: &[Name],
    wanted: &[Name],
) -> Result<Vec<usize>, AllocError> {
    let mut places = Vec::new(alloc);
    for name in wanted {
        places.push(place_of(rt, names, *name))?;
    }
    Ok(places)
}

// A mark for each of the names that is one of the allowed.
fn marks_of(alloc: Global, names: &[Name], allowed: &[Name]) -> Result<Vec<bool>, AllocError> {
    let mut marks = Vec::new(alloc);
    for name in names {
        marks.push(is_among(allowed, *name))?;
    }
    Ok(marks)
}

/// The first case by an index with these names: of shared and unshared ones for xs and ys, of those beyond
/// for ys and the allowed.
pub(crate) fn found(
    rt: &impl Abort,
    alloc: Global,
    graph: &Graph,
    names: &[Name],
    kind: Kind,
    rights: Rights,
    one: &[Name],
    other: &[Name],
) -> Result<Option<Case>, AllocError> {
    let places = places_of(rt, alloc, names, one)?;
    assert!(rt; are_vertices(graph, names));
    assert!(rt; are_places(names.len(), &places));
    let index = CaseIndex::of(alloc, graph, names)?;
    if let Kind::Beyond = kind {
        let allowed = marks_of(alloc, names, other)?;
        return index.first_beyond(alloc, rights, &places, &allowed);
    }
    let others = places_of(rt, alloc, names, other)?;
    assert!(rt; are_places(names.len(), &others));
    match kind {
        Kind::Shared => index.first_shared(alloc, rights, &places, &others),
        _ => index.first_unshared(alloc, rights, &places, &others),
    }
}

// The same in words, with the names of the index.
fn assert_found_among(
    rt: &impl Abort,
    alloc: Global,
    graph: &Graph,
    order: &str,
    kind: Kind,
    letters: &str,
    one: &str,
    other: &str,
    wanted: &str,
) {
    let order = names(rt, alloc, order);
    let (one, other) = (names(rt, alloc, one), names(rt, alloc, other));
    let rights = set(rt, letters);
    let found = found(rt, alloc, graph, &order, kind, rights, &one, &other);
    assert!(rt; found == Ok(case(rt, wanted)));
}

fn assert_found(
    rt: &impl Abort,
    alloc: Global,
    graph: &Graph,
    kind: Kind,
    letters: &str,
    one: &str,
    other: &str,
    wanted: &str,
) {
    let order = "a b c d e f";
    assert_found_among(rt, alloc, graph, order, kind, letters, one, other, wanted);
}

// The islands are a c, b d, e and f, whose vertices stand in another order than their names. Over e a holds r,
// c w and b a; over f both d and e hold w.
fn four_islands(rt: &impl Abort, alloc: Global) -> Graph {
    let edges = "c a t, b d g, a e r, c e w, b e a, d f w, e f w";
    graph(rt, alloc, "f d e c b a", edges)
}

#[test]
fn first_that_can(rt: HostRuntime) {
    let g = four_islands(&rt, rt.alloc());
    let cases = [
        ("rw", "a b c d", "e f", "r a e"),
        ("wr", "d c a", "f e", "r c e"),
        ("w", "a b c d", "e f", "w a e"),
        ("w", "b d", "e f", "w b f"),
        ("w", "d b", "e f", "w d f"),
        ("t", "f e a", "a b c d e f", "t a a"),
        ("trw", "e f", "e f", "w e f"),
        ("rw", "a c", "a b", ""),
        ("ad", "a b c d e f", "a b c d e f", "a b e"),
        ("ed", "a b c d e f", "a b c d e f", ""),
        ("r", "", "e", ""),
        ("r", "a", "", ""),
        ("-", "a", "e", ""),
    ];
    for (letters, xs, ys, wanted) in &cases {
        assert_found(&rt, rt.alloc(), &g, Kind::Shared, letters, xs, ys, wanted);
    }
}

#[test]
fn first_that_can_not(rt: HostRuntime) {
    let g = four_islands(&rt, rt.alloc());
    let cases = [
        ("rw", "a c", "e", ""),
        ("rw", "a c b", "e", "r b e"),
        ("rw", "a c", "e f", "r a f"),
        ("w", "a c", "e f", "w a f"),
        ("w", "d b e", "f", ""),
        ("tw", "d b e", "f", "t d f"),
        ("w", "e d a b c", "f", "w a f"),
        ("w", "e d c b a", "f", "w c f"),
        ("-", "a", "f", ""),
    ];
    for (letters, xs, ys, wanted) in &cases {
        assert_found(&rt, rt.alloc(), &g, Kind::Unshared, letters, xs, ys, wanted);
    }
}

#[test]
fn first_beyond_the_allowed(rt: HostRuntime) {
    let g = four_islands(&rt, rt.alloc());
    let cases = [
        ("r", "e", "a c", ""),
        ("r", "e", "c", "r a e"),
        ("r", "e", "a", "r c e"),
        ("rw", "e", "c", "r a e"),
        ("w", "e f", "a b c", "w d f"),
        ("w", "e f", "a b c d", "w e f"),
        ("w", "e f", "e d c b a", ""),
        ("a", "e", "b", "a d e"),
        ("tgrwead", "b", "", ""),
    ];
    for (letters, ys, allowed, wanted) in &cases {
        assert_found(
            &rt,
            rt.alloc(),
            &g,
            Kind::Beyond,
            letters,
            ys,
            allowed,
            wanted,
        );
    }
}

// A list may name one vertex twice.
#[test]
fn names_that_stand_twice(rt: HostRuntime) {
    let g = four_islands(&rt, rt.alloc());
    let cases = [
        (Kind::Shared, "r", "a a c", "e", "r a e"),
        (Kind::Shared, "w", "c a c", "f e e", "w c e"),
        (Kind::Unshared, "rw", "a a b", "e", "r b e"),
        (Kind::Unshared, "w", "d c c", "f f", "w c f"),
        (Kind::Beyond, "r", "e e", "a a", "r c e"),
        (Kind::Beyond, "w", "f e f", "c a c a", "w b f"),
    ];
    for (kind, letters, one, other, wanted) in &cases {
        assert_found(&rt, rt.alloc(), &g, *kind, letters, one, other, wanted);
    }
}

// Whose name the index has not is beyond nobody.
#[test]
fn an_index_of_some_names(rt: HostRuntime) {
    let g = four_islands(&rt, rt.alloc());
    let cases = [
        ("b c d e", "r", "e", "", "r c e"),
        ("b c d e", "r", "e", "c", ""),
        ("d b f", "w", "f", "", "w d f"),
        ("d b f", "w", "f", "d", "w b f"),
        ("e a f", "w", "f", "d", "w e f"),
        ("a c f", "w", "f", "", ""),
        ("f", "tgrwead", "f", "", ""),
        ("", "tgrwead", "", "", ""),
    ];
    for (order, letters, ys, allowed, wanted) in &cases {
        assert_found_among(
            &rt,
            rt.alloc(),
            &g,
            order,
            Kind::Beyond,
            letters,
            ys,
            allowed,
            wanted,
        );
    }
}

#[test]
fn without_edges(rt: HostRuntime) {
    let g = graph(&rt, rt.alloc(), "b a", "");
    let cases = [
        ("a b", Kind::Shared, "a b", "a b", ""),
        ("a b", Kind::Unshared, "b a", "a b", "t b a"),
        ("a b", Kind::Unshared, "a", "b", "t a b"),
        ("a b", Kind::Beyond, "a b", "", ""),
        ("", Kind::Shared, "", "", ""),
        ("", Kind::Unshared, "", "", ""),
        ("", Kind::Beyond, "", "", ""),
    ];
    for (order, kind, one, other, wanted) in &cases {
        assert_found_among(
            &rt,
            rt.alloc(),
            &g,
            order,
            *kind,
            "tgrwead",
            one,
            other,
            wanted,
        );
    }
}

fn is_among(names: &[Name], x: Name) -> bool {
    for name in names {
        if *name == x {
            return true;
        }
    }
    false
}

// Whether a question says of the right, x and y what is meant.
fn is_meant(
    rt: &impl Abort,
    alloc: Global,
    graph: &Graph,
    kind: Kind,
    allowed: &[Name],
    case: &Case,
) -> bool {
    let answer = shares(alloc, graph, case.right, case.x, case.y)
        .ok()
        .expect(rt, "an answer");
    match kind {
        Kind::Shared => answer,
        Kind::Unshared => !answer,
        Kind::Beyond => answer && !is_among(allowed, case.x),
    }
}

// The first case of a right and an x, by a question for each y.
fn first_over(
    rt: &impl Abort,
    alloc: Global,
    graph: &Graph,
    kind: Kind,
    allowed: &[Name],
    ys: &[Name],
    right: Right,
    x: &Name,
) -> Option<Case> {
    for y in ys {
        let case = Case {
            right,
            x: *x,
            y: *y,
        };
        if is_meant(rt, alloc, graph, kind, allowed, &case) {
            return Some(case);
        }
    }
    None
}

// The first case of a right, by a question for each x and y, which are the same names.
fn first_of(
    rt: &impl Abort,
    alloc: Global,
    graph: &Graph,
    kind: Kind,
    allowed: &[Name],
    names: &[Name],
    right: Right,
) -> Option<Case> {
    for x in names {
        let first = first_over(rt, alloc, graph, kind, allowed, names, right, x);
        if first.is_some() {
            return first;
        }
    }
    None
}

// The first case, by a question for each right of the set, x and y.
fn first_by_questions(
    rt: &impl Abort,
    alloc: Global,
    graph: &Graph,
    kind: Kind,
    rights: Rights,
    allowed: &[Name],
    names: &[Name],
) -> Option<Case> {
    for right in &Right::ALL {
        if rights.has(*right) {
            let first = first_of(rt, alloc, graph, kind, allowed, names, *right);
            if first.is_some() {
                return first;
            }
        }
    }
    None
}

// The index and the questions agree on the first case of these names, c and f being allowed.
fn assert_agrees(
    rt: &impl Abort,
    alloc: Global,
    graph: &Graph,
    kind: Kind,
    rights: Rights,
    names: &[Name],
) {
    let (c, f) = (name(rt, "c"), name(rt, "f"));
    let allowed = [c, f];
    let other = match kind {
        Kind::Shared | Kind::Unshared => names,
        Kind::Beyond => allowed.as_slice(),
    };
    let wanted = first_by_questions(rt, alloc, graph, kind, rights, &allowed, names);
    let found = found(rt, alloc, graph, names, kind, rights, names, other);
    assert!(rt; found == Ok(wanted));
}

fn assert_agree(rt: &impl Abort, alloc: Global, graph: &Graph, letters: &str, words: &str) {
    let names = names(rt, alloc, words);
    let rights = set(rt, letters);
    for kind in [Kind::Shared, Kind::Unshared, Kind::Beyond] {
        assert_agrees(rt, alloc, graph, kind, rights, names.as_slice());
    }
}

fn assert_all_agree(rt: &impl Abort, alloc: Global, graph: &Graph, letters: &str) {
    for words in ["f e d c b a", "a c e", "e f", "d b f", "c c d", ""] {
        assert_agree(rt, alloc, graph, letters, words);
    }
}

#[test]
fn as_questions_one_by_one_say(rt: HostRuntime) {
    let g = four_islands(&rt, rt.alloc());
    for letters in ["tgrwead", "r", "w", "wr", "gd", "ea", "-"] {
        assert_all_agree(&rt, rt.alloc(), &g, letters);
    }
}
