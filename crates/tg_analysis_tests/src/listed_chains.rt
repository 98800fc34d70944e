//! Derivations as `tg_analysis` first found them: a search lists all links of the graph before it begins, and
//! finds the ends of edges by their names. Which chain of several shortest ones a derivation takes is fixed
//! by no contract, so tests compare it with the one that is found here.
//!
//! The code is as it was, but for its contracts. Without these no proof sees that a search ends or that a
//! number stays small, so its open loops go over numbers, and sums stop at the highest number.

use indexmap::IndexMap;
use std::alloc::{AllocError, Global};
use tg_analysis::AskFault;
use tg_graph::{Graph, MOST_VERTICES, Name, Right, Rights, Rule};

// For each vertex of a graph, by position, the positions of the vertices that are linked to it.
#[derive(Drop)]
struct Links {
    near: Vec<Vec<u32>>,
}

// The position at the other end of an edge, if its label has take or grant.
fn linked_end(graph: &Graph, position: usize, place: usize) -> Option<usize> {
    let (name, label) = graph.row_at(position, place)?;
    if label.has(Right::T) || label.has(Right::G) {
        graph.position(name)
    } else {
        None
    }
}

impl Links {
    // The links of a graph, made in one pass over its edges.
    fn of(alloc: Global, graph: &Graph) -> Result<Links, AllocError> {
        let mut links = Links::none(alloc, graph.len())?;
        for position in 0..graph.len() {
            links.add_row(graph, position)?;
        }
        Ok(links)
    }

    // The positions of the vertices that are linked to the one at a position; none past the end.
    fn at(&self, position: usize) -> &[u32] {
        match self.near.get(position) {
            Some(row) => row.as_slice(),
            None => &[],
        }
    }

    // No links between this many vertices.
    fn none(alloc: Global, count: usize) -> Result<Links, AllocError> {
        let mut near = Vec::with_capacity(alloc, count)?;
        for _ in 0..count {
            near.push(Vec::new(alloc))?;
        }
        Ok(Links { near })
    }

    // Makes one position a neighbour of another.
    fn add(&mut self, position: usize, neighbour: usize) -> Result<(), AllocError> {
        let Ok(neighbour) = u32::try_from(neighbour) else {
            return Err(AllocError);
        };
        if let Some(row) = self.near.get_mut(position) {
            row.push(neighbour)?;
        }
        Ok(())
    }

    // Makes two positions neighbours of each other.
    fn join(&mut self, a: usize, b: usize) -> Result<(), AllocError> {
        self.add(a, b)?;
        self.add(b, a)?;
        Ok(())
    }

    // Joins the ends of an edge, if its label has take or grant.
    fn add_edge(&mut self, graph: &Graph, position: usize, place: usize) -> Result<(), AllocError> {
        if let Some(end) = linked_end(graph, position, place) {
            self.join(position, end)?;
        }
        Ok(())
    }

    // Joins the ends of each edge out of a vertex whose label has take or grant.
    fn add_row(&mut self, graph: &Graph, position: usize) -> Result<(), AllocError> {
        for place in 0..graph.row_len(position) {
            self.add_edge(graph, position, place)?;
        }
        Ok(())
    }
}

// The vertices that a search has met, in the order in which it met them. With each stands the place of the
// one by which it was first met; the place of the first says nothing.
#[derive(Drop)]
struct Met {
    places: IndexMap<Name, usize>,
}

impl Met {
    // A search that has met the vertex from which it starts.
    fn from(alloc: Global, start: Name) -> Result<Met, AllocError> {
        let mut met = Met {
            places: IndexMap::new(alloc),
        };
        met.places.insert(start, 0)?;
        Ok(met)
    }

    // The vertex at a place, with the place of the one by which it was first met.
    fn at(&self, place: usize) -> Option<(Name, usize)> {
        match self.places.get_index(place) {
            Some((name, from)) => Some((*name, *from)),
            None => None,
        }
    }

    // Whether a vertex was met.
    fn has(&self, name: Name) -> bool {
        self.places.contains_key(&name)
    }

    // Meets a vertex by the one at a place; a vertex that was met before stays as it is.
    fn meet(&mut self, name: Name, from: usize) -> Result<(), AllocError> {
        if self.has(name) {
            return Ok(());
        }
        self.places.insert(name, from)?;
        Ok(())
    }

    // The vertex by which the one at a place was first met, with its place; none for the first.
    fn back(&self, place: usize) -> Option<(Name, usize)> {
        if place == 0 {
            return None;
        }
        let (_, from) = self.at(place)?;
        let (name, _) = self.at(from)?;
        Some((name, from))
    }
}

// A chain of links from a vertex that holds a right.
#[derive(Drop)]
struct Chain {
    // The vertex that holds the right.
    holder: Name,
    // The vertices after it, each linked to the one before.
    links: Vec<Name>,
}

// Adds the vertex at a position, unless it was met.
fn add_unmet(
    graph: &Graph,
    met: &Met,
    position: usize,
    names: &mut Vec<Name>,
) -> Result<(), AllocError> {
    match graph.name_at(position) {
        Some(name) if !met.has(name) => names.push(name)?,
        _ => {}
    }
    Ok(())
}

// The positions of the neighbours of a vertex.
fn neighbours<'a>(graph: &Graph, links: &'a Links, vertex: Name) -> &'a [u32] {
    match graph.position(vertex) {
        Some(position) => links.at(position),
        None => &[],
    }
}

// The neighbours of a vertex that were not met, in name order.
fn unmet(
    alloc: Global,
    graph: &Graph,
    links: &Links,
    met: &Met,
    vertex: Name,
) -> Result<Vec<Name>, AllocError> {
    let mut names = Vec::new(alloc);
    let near = neighbours(graph, links, vertex);
    for position in near {
        add_unmet(graph, met, *position as usize, &mut names)?;
    }
    names.sort_unstable();
    Ok(names)
}

// Meets the neighbours of the vertex at a place.
fn go_round(
    alloc: Global,
    graph: &Graph,
    links: &Links,
    met: &mut Met,
    place: usize,
    vertex: Name,
) -> Result<(), AllocError> {
    let names = unmet(alloc, graph, links, met, vertex)?;
    for name in &names {
        met.meet(*name, place)?;
    }
    Ok(())
}

// The vertices on the way back from the one at a place to the first.
fn way_back(alloc: Global, met: &Met, place: usize) -> Result<Vec<Name>, AllocError> {
    let mut way = Vec::new(alloc);
    let mut at = place;
    for _ in 0..usize::MAX {
        let Some(step) = met.back(at) else {
            return Ok(way);
        };
        way.push(step.0)?;
        at = step.1;
    }
    Ok(way)
}

// A breadth-first search from a vertex, neighbours in name order. It goes on as far as it is asked
// to, and from there when it is asked again.
#[derive(Drop)]
struct Search {
    links: Links,
    met: Met,
    // The neighbours of those before this place were met.
    rounds: usize,
}

impl Search {
    // A search that has met its start alone.
    fn from(alloc: Global, graph: &Graph, start: Name) -> Result<Search, AllocError> {
        Ok(Search {
            links: Links::of(alloc, graph)?,
            met: Met::from(alloc, start)?,
            rounds: 0,
        })
    }

    // Meets the neighbours of the vertex at a place, unless they were met.
    fn follow(
        &mut self,
        alloc: Global,
        graph: &Graph,
        place: usize,
        vertex: Name,
    ) -> Result<(), AllocError> {
        if place < self.rounds {
            return Ok(());
        }
        go_round(alloc, graph, &self.links, &mut self.met, place, vertex)?;
        self.rounds = place.saturating_add(1);
        Ok(())
    }

    // A shortest chain of links to the start from a vertex that holds the right over `y`, if there
    // is one: from the first such vertex in the order in which they are met.
    fn chain_to(
        &mut self,
        alloc: Global,
        graph: &Graph,
        right: Right,
        y: Name,
    ) -> Result<Option<Chain>, AllocError> {
        for place in 0..usize::MAX {
            let Some(visit) = self.met.at(place) else {
                return Ok(None);
            };
            let vertex = visit.0;
            if graph.holds(vertex, right, y) {
                return Ok(Some(Chain {
                    holder: vertex,
                    links: way_back(alloc, &self.met, place)?,
                }));
            }
            self.follow(alloc, graph, place, vertex)?;
        }
        Ok(None)
    }
}

// The one rule by which `p` gets `q`'s right over `y`, if there is one.
fn direct_rule(graph: &Graph, right: Right, y: Name, p: Name, q: Name) -> Option<Rule> {
    let rights = Rights::of(right);
    if graph.holds(p, Right::T, q) {
        return Some(Rule::Take {
            x: p,
            y: q,
            z: y,
            rights,
        });
    }
    if graph.holds(q, Right::G, p) {
        return Some(Rule::Grant {
            x: q,
            y: p,
            z: y,
            rights,
        });
    }
    None
}

// The rule by which `q` gets grant over a helper that `p` has made.
fn rule_for_helper(graph: &Graph, p: Name, q: Name, helper: Name) -> Rule {
    let rights = Rights::of(Right::G);
    if graph.holds(p, Right::G, q) {
        Rule::Grant {
            x: p,
            y: q,
            z: helper,
            rights,
        }
    } else {
        Rule::Take {
            x: q,
            y: p,
            z: helper,
            rights,
        }
    }
}

// The rules by which `p` gets `q`'s right over `y` through a helper.
fn helper_rules(graph: &Graph, right: Right, y: Name, p: Name, q: Name, helper: Name) -> [Rule; 4] {
    let rights = Rights::of(right);
    [
        Rule::Create {
            x: p,
            n: helper,
            rights: Rights::of(Right::T).union(Rights::of(Right::G)),
        },
        rule_for_helper(graph, p, q, helper),
        Rule::Grant {
            x: q,
            y: helper,
            z: y,
            rights,
        },
        Rule::Take {
            x: p,
            y: helper,
            z: y,
            rights,
        },
    ]
}

// The least number from `next` on whose helper is no vertex.
fn free_helper(graph: &Graph, next: u32) -> u32 {
    for number in next..u32::MAX {
        if !graph.knows(Name::helper(number)) {
            return number;
        }
    }
    u32::MAX
}

// Adds the rules by which `p` gets the right over `y` from `q`, which has it after the rules so far.
//
// The numbers of the helpers so far are below `next`; the result takes its place.
fn add_move(
    graph: &Graph,
    rules: &mut Vec<Rule>,
    next: u32,
    right: Right,
    y: Name,
    p: Name,
    q: Name,
) -> Result<u32, AllocError> {
    match direct_rule(graph, right, y, p, q) {
        Some(rule) => {
            rules.push(rule)?;
            Ok(next)
        }
        None => {
            let number = free_helper(graph, next);
            let helper = Name::helper(number);
            rules.extend_from_slice(&helper_rules(graph, right, y, p, q, helper))?;
            Ok(number.saturating_add(1))
        }
    }
}

// Adds the rules by which the right over `y` goes from a holder along a chain of links.
fn carry(
    graph: &Graph,
    rules: &mut Vec<Rule>,
    next: u32,
    right: Right,
    y: Name,
    holder: Name,
    links: &[Name],
) -> Result<u32, AllocError> {
    let mut number = next;
    let mut q = holder;
    for p in links {
        number = add_move(graph, rules, number, right, y, *p, q)?;
        q = *p;
    }
    Ok(number)
}

// Adds the rules by which the start of the search gets the right over `y`; none where no list of
// rules gives it.
fn add_part(
    alloc: Global,
    graph: &Graph,
    search: &mut Search,
    rules: &mut Vec<Rule>,
    next: u32,
    right: Right,
    y: Name,
) -> Result<Option<u32>, AllocError> {
    match search.chain_to(alloc, graph, right, y)? {
        None => Ok(None),
        Some(chain) => {
            let last = carry(
                graph,
                rules,
                next,
                right,
                y,
                chain.holder,
                chain.links.as_slice(),
            )?;
            Ok(Some(last))
        }
    }
}

// A list of rules that gives `x` each right of the set over `y`, if there is one.
fn derive(
    alloc: Global,
    graph: &Graph,
    rights: Rights,
    x: Name,
    y: Name,
) -> Result<Option<Vec<Rule>>, AllocError> {
    let mut search = Search::from(alloc, graph, x)?;
    let mut rules = Vec::new(alloc);
    let mut next = 0;
    for right in &Right::ALL {
        if rights.has(*right) {
            match add_part(alloc, graph, &mut search, &mut rules, next, *right, y)? {
                Some(last) => next = last,
                None => return Ok(None),
            }
        }
    }
    Ok(Some(rules))
}

/// What `derivation_all` first answered.
pub(crate) fn listed_derivation_all(
    alloc: Global,
    graph: &Graph,
    rights: Rights,
    x: Name,
    y: Name,
) -> Result<Option<Vec<Rule>>, AskFault> {
    if !graph.knows(x) {
        return Err(AskFault::Unknown(x));
    }
    if !graph.knows(y) {
        return Err(AskFault::Unknown(y));
    }
    if graph.len() > MOST_VERTICES {
        return Err(AskFault::TooLarge);
    }
    let answer = derive(alloc, graph, rights, x, y)?;
    Ok(answer)
}

/// What `derivation` first answered.
pub(crate) fn listed_derivation(
    alloc: Global,
    graph: &Graph,
    right: Right,
    x: Name,
    y: Name,
) -> Result<Option<Vec<Rule>>, AskFault> {
    listed_derivation_all(alloc, graph, Rights::of(right), x, y)
}
