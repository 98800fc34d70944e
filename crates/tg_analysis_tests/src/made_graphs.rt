//! Graphs that are made from a seed, the same for the same seed.
ghost use Rattle.tg_names.specs.Sets.{IsNamed};

use crate::test_graphs::set;
use std::alloc::Global;
use std::process::Abort;
use tg_graph::{Graph, Name, Rights};

/// A source of numbers: a counter, of which each number is mixed as in SplitMix64 (Steele, Lea and Flood,
/// 2014).
#[derive(Clone, Copy)]
pub(crate) struct Chance {
    counter: u64,
}

fn mixed(number: u64) -> u64 {
    let number = (number ^ (number >> 30)).wrapping_mul(0xBF58_476D_1CE4_E5B9);
    let number = (number ^ (number >> 27)).wrapping_mul(0x94D0_49BB_1331_11EB);
    number ^ (number >> 31)
}

impl Chance {
    /// The numbers of a seed.
    pub(crate) fn new(seed: u64) -> Chance {
        Chance {
            counter: mixed(seed),
        }
    }

    /// The next number, below a bound of less than 2^32; 0 where the bound is 0.
    pub(crate) fn below(&mut self, bound: usize) -> usize {
        self.counter = self.counter.wrapping_add(0x9E37_79B9_7F4A_7C15);
        ((mixed(self.counter) >> 32).wrapping_mul(bound as u64) >> 32) as usize
    }

    /// One of these.
    pub(crate) fn one_of<T: Copy + Drop>(&mut self, choices: &[T], otherwise: T) -> T {
        let place = self.below(choices.len());
        choices.get(place).copied().unwrap_or(otherwise)
    }
}

/// What a made graph is like. Its names stand in a line, in no order of theirs.
#[derive(Clone, Copy)]
pub(crate) struct Plan {
    /// How many names are drawn. The same one may be drawn twice.
    pub(crate) names: usize,
    /// How many links each vertex is given with those soon after it, and how soon: the shorter their reach,
    /// the farther are the ends of the line apart.
    pub(crate) links: usize,
    pub(crate) reach: usize,
    /// No link of these goes over this place of the line, if there is one.
    pub(crate) gap: usize,
    /// How many links one vertex is given with any others.
    pub(crate) hub: usize,
    /// How many edges that link nothing each vertex is given.
    pub(crate) fillers: usize,
    /// How many vertices, which stand together, hold rights over each of the first few that no filler gives.
    pub(crate) holders: usize,
}

impl Plan {
    /// A plan for so many names, with so many edges a vertex that link nothing.
    pub(crate) fn drawn(chance: &mut Chance, names: usize, fillers: usize) -> Plan {
        let place = chance.below(names);
        Plan {
            names,
            links: chance.one_of(&[1, 1, 2, 2, 3, 5], 1),
            reach: chance.one_of(&[1, 2, 2, 3, 4, 6, names], 1),
            gap: chance.one_of(&[0, 0, place], 0),
            hub: chance.one_of(&[0, 0, 7, 9, 12, 20, names], 0),
            fillers,
            holders: chance.one_of(&[0, 1, 2, 3, 6], 1),
        }
    }

    /// A plan by which the ends of the line are far apart, with many shortest chains between them.
    pub(crate) fn line(names: usize, fillers: usize) -> Plan {
        Plan {
            names,
            links: 2,
            reach: 2,
            gap: 0,
            hub: 0,
            fillers,
            holders: 2,
        }
    }
}

// A name of a front and so many letters.
fn made_name(
    rt: &impl Abort,
    alloc: Global,
    chance: &mut Chance,
    front: &str,
    letters: &[u8],
    count: usize,
) -> Name {
    let mut text = Vec::new(alloc);
    assert!(rt; text.extend_from_slice(front.as_bytes()).is_ok());
    for _ in 0..count {
        assert!(rt; text.push(chance.one_of(letters, b'a')).is_ok());
    }
    Name::parse(text.as_slice()).expect(rt, "a name")
}

// A name of one of four kinds, some of which may be those of helpers.
fn any_name(rt: &impl Abort, alloc: Global, chance: &mut Chance) -> Name {
    let count = chance.one_of(&[1, 2, 3], 1);
    match chance.below(4) {
        0 => made_name(rt, alloc, chance, "", b"zyxabc", count),
        1 => made_name(rt, alloc, chance, "service_", b"0123456789", count),
        2 => made_name(rt, alloc, chance, "_", b"0123456789", count),
        _ => made_name(rt, alloc, chance, "long_name_", b"mnopqrs", 6),
    }
}

/// The names of a plan.
pub(crate) fn made_names(
    rt: &impl Abort,
    alloc: Global,
    chance: &mut Chance,
    plan: Plan,
) -> Vec<Name> {
    let mut names = Vec::new(alloc);
    for _ in 0..plan.names {
        assert!(rt; names.push(any_name(rt, alloc, chance)).is_ok());
    }
    names
}

// Adds some quarters of the names.
fn add_vertices(graph: &mut Graph, chance: &mut Chance, names: &[Name], quarters: usize) {
    for name in names {
        if chance.below(4) < quarters {
            let _ = graph.add_vertex(*name);
        }
    }
}

// Adds an edge between names at two places of the line, if they are vertices with no edge yet.
fn add_edge(graph: &mut Graph, names: &[Name], from: usize, to: usize, rights: Rights)
    requires { IsNamed rights }
{
    if let (Some(x), Some(y)) = (names.get(from), names.get(to)) {
        let _ = graph.add_edge(*x, *y, rights);
    }
}

// Links the names at two places, by take or grant or both, in one direction or the other.
fn link(
    rt: &impl Abort,
    graph: &mut Graph,
    chance: &mut Chance,
    names: &[Name],
    a: usize,
    b: usize,
) {
    let rights = set(
        rt,
        chance.one_of(&["t", "g", "tg", "t", "g", "tw", "agd"], "t"),
    );
    if chance.below(2) == 0 {
        add_edge(graph, names, a, b, rights);
    } else {
        add_edge(graph, names, b, a, rights);
    }
}

// Links the name at a place with some that come soon after it.
fn add_links(
    rt: &impl Abort,
    graph: &mut Graph,
    chance: &mut Chance,
    names: &[Name],
    plan: Plan,
    place: usize,
) {
    for _ in 0..plan.links {
        let other = place
            .saturating_add(1)
            .saturating_add(chance.below(plan.reach));
        if plan.gap <= place || other < plan.gap {
            link(rt, graph, chance, names, place, other);
        }
    }
}

// Gives the name at a place edges to some others that link nothing.
fn add_fillers(
    rt: &impl Abort,
    graph: &mut Graph,
    chance: &mut Chance,
    names: &[Name],
    plan: Plan,
    place: usize,
) {
    for _ in 0..plan.fillers {
        let other = chance.below(names.len());
        let rights = set(rt, chance.one_of(&["w", "a", "wd", "wad"], "w"));
        add_edge(graph, names, place, other, rights);
    }
}

// Gives some names next to each other rights over the name at a place.
fn add_holders(
    rt: &impl Abort,
    graph: &mut Graph,
    chance: &mut Chance,
    names: &[Name],
    plan: Plan,
    place: usize,
) {
    let first = chance.below(names.len());
    for beside in 0..plan.holders {
        let rights = set(rt, chance.one_of(&["r", "e", "re", "rd"], "r"));
        add_edge(graph, names, first.saturating_add(beside), place, rights);
    }
}

// Links one name with some others, wherever they stand.
fn add_hub(rt: &impl Abort, graph: &mut Graph, chance: &mut Chance, names: &[Name], plan: Plan) {
    let hub = chance.below(names.len());
    for _ in 0..plan.hub {
        let other = chance.below(names.len());
        link(rt, graph, chance, names, hub, other);
    }
}

/// How many names, the first of the line, are those over which holders have rights.
pub(crate) const HELD: usize = 4;

// Adds the edges of a plan, as far as they are between vertices.
fn add_edges(rt: &impl Abort, graph: &mut Graph, chance: &mut Chance, names: &[Name], plan: Plan) {
    for place in 0..HELD {
        add_holders(rt, graph, chance, names, plan, place);
    }
    add_hub(rt, graph, chance, names, plan);
    for place in 0..names.len() {
        add_links(rt, graph, chance, names, plan, place);
        add_fillers(rt, graph, chance, names, plan, place);
    }
}

/// A graph with these names, made by a plan. Some vertices and edges come after the edges of the others, so
/// that rows do not share the names of all.
pub(crate) fn made_graph(
    rt: &impl Abort,
    alloc: Global,
    chance: &mut Chance,
    names: &[Name],
    plan: Plan,
) -> Graph {
    let mut graph = Graph::new(alloc);
    for quarters in &[3, 4] {
        add_vertices(&mut graph, chance, names, *quarters);
        add_edges(rt, &mut graph, chance, names, plan);
    }
    graph
}
