//! Texts of graphs.
use crate::chance::{Chance, Scatter};
use crate::fault::Fault;
use crate::plans::{Edges, Labels, Order, Plan, Spelling};
use std::alloc::{AllocError, Global};
use tg_graph::{Graph, Name};
use tg_text::{MOST_VERTICES_OF_ONE, append_number, read_graph};

const ALIKE: &[u8; 37] = b"_0123456789abcdefghijklmnopqrstuvwxyz";

// The letter at a place, counted round and round.
fn letter(place: usize) -> u8 {
    ALIKE.get(place % 37).copied().unwrap_or(b'_')
}

// Appends a name of 16 bytes.
fn append_alike(text: &mut Vec<u8>, number: usize) -> Result<(), AllocError> {
    text.extend_from_slice(b"same_for_all_")?;
    text.push(letter(number / 1369))?;
    text.push(letter(number / 37))?;
    text.push(letter(number))?;
    Ok(())
}

// Appends the name with a number.
fn append_name(text: &mut Vec<u8>, spelling: Spelling, number: usize) -> Result<(), AllocError> {
    match spelling {
        Spelling::Numbered | Spelling::InOrder => {
            text.push(b'v')?;
            append_number(text, number)?;
        }
        Spelling::Alike => append_alike(text, number)?,
    }
    Ok(())
}

// The name with a number.
fn name(alloc: Global, spelling: Spelling, number: usize) -> Result<Name, Fault> {
    let mut text = Vec::new(alloc);
    append_name(&mut text, spelling, number)?;
    match Name::parse(&text) {
        Ok(name) => Ok(name),
        Err(_) => Err(Fault::Refused),
    }
}

/// The names of the vertices, in the order in which they come.
pub(crate) fn names(alloc: Global, plan: &Plan) -> Result<Vec<Name>, Fault> {
    let mut names = Vec::new(alloc);
    for number in 0..plan.vertices {
        let name = name(alloc, plan.spelling, number)?;
        if names.push(name).is_err() {
            return Err(Fault::Memory);
        }
    }
    if plan.spelling == Spelling::InOrder {
        names.sort_unstable();
    }
    Ok(names)
}

/// One of the names.
pub(crate) fn any(names: &[Name], chance: &mut Chance) -> Name {
    let otherwise = Name::helper(0);
    chance.one_of(names, otherwise)
}

// The letters of a label, and a line feed.
fn letters(labels: Labels, chance: &mut Chance) -> &'static [u8] {
    match labels {
        Labels::One => chance.one_of(&[b"t\n", b"g\n", b"r\n", b"w\n", b"e\n"], b"r\n"),
        Labels::Inert => chance.one_of(&[b"r\n", b"w\n", b"e\n"], b"r\n"),
        Labels::Links => chance.one_of(&[b"t\n", b"g\n"], b"t\n"),
        Labels::Both => b"tg\n",
        Labels::Several => match chance.below(8) {
            0 => b"t\n",
            1 => b"g\n",
            2 => b"r\n",
            3 => b"w\n",
            4 => b"rw\n",
            5 => b"tg\n",
            6 => b"ad\n",
            _ => b"tgrwe\n",
        },
    }
}

// Appends the lines of the vertices.
fn append_vertices(text: &mut Vec<u8>, names: &[Name]) -> Result<(), AllocError> {
    for name in names {
        text.extend_from_slice(b"vertex ")?;
        text.extend_from_slice(name.as_bytes())?;
        text.push(b'\n')?;
    }
    Ok(())
}

/// The names as words, each with something in front of it and a space behind it.
pub(crate) fn words(
    alloc: Global,
    front: &[u8],
    names: &[Name],
) -> Result<Vec<Vec<u8>>, AllocError> {
    let mut words = Vec::with_capacity(alloc, names.len())?;
    for name in names {
        let mut word = Vec::from_slice(alloc, front)?;
        word.extend_from_slice(name.as_bytes())?;
        word.push(b' ')?;
        words.push(word)?;
    }
    Ok(words)
}

// How many edges a plan has.
fn count_of(plan: &Plan) -> usize {
    match plan.edges {
        Edges::Anywhere => plan.vertices.saturating_mul(plan.degree),
        Edges::InGroups => plan.vertices.saturating_mul(plan.degree.min(7)),
        Edges::Chain => plan.vertices.saturating_sub(1),
        Edges::Star => plan.vertices,
    }
}

// The source and the target of the edge with a number.
fn ends(plan: &Plan, scatter: &Scatter, number: usize) -> (usize, usize) {
    match plan.edges {
        Edges::Anywhere => {
            let count = plan.vertices as u64;
            let pairs = count.saturating_mul(count);
            let step = count.checked_div(plan.degree as u64).unwrap_or(1);
            let rising = (number as u64).saturating_mul(step);
            let pair = match plan.order {
                Order::Rising => rising,
                Order::Falling => pairs.saturating_sub(rising.saturating_add(1)),
                Order::Scattered => scatter.at(number as u64),
            };
            let source = pair.checked_div(count).unwrap_or(0);
            let target = pair.checked_rem(count).unwrap_or(0);
            (source as usize, target as usize)
        }
        Edges::InGroups => {
            let degree = plan.degree.min(7);
            let source = number.checked_div(degree).unwrap_or(0);
            let nearby = number.checked_rem(degree).unwrap_or(0).saturating_add(1);
            (source, source ^ nearby)
        }
        Edges::Chain => (number, number.saturating_add(1)),
        Edges::Star => (0, number),
    }
}

// Appends the edge with a number.
fn append_numbered(
    text: &mut Vec<u8>,
    plan: &Plan,
    (sources, targets): (&[Vec<u8>], &[Vec<u8>]),
    scatter: &Scatter,
    chance: &mut Chance,
    number: usize,
) -> Result<(), AllocError> {
    let (source, target) = ends(plan, scatter, number);
    if let (Some(x), Some(y)) = (sources.get(source), targets.get(target)) {
        text.extend_from_slice(x)?;
        text.extend_from_slice(y)?;
        text.extend_from_slice(letters(plan.labels, chance))?;
    }
    Ok(())
}

/// The text of a graph.
pub(crate) fn graph_text(
    alloc: Global,
    plan: &Plan,
    names: &[Name],
    chance: &mut Chance,
) -> Result<Vec<u8>, AllocError> {
    let mut text = Vec::new(alloc);
    if names.len() > MOST_VERTICES_OF_ONE || plan.labels == Labels::Several {
        text.extend_from_slice(b"version 2\n")?;
    }
    append_vertices(&mut text, names)?;
    let sources = words(alloc, b"edge ", names)?;
    let targets = words(alloc, b"", names)?;
    text.reserve(count_of(plan).saturating_mul(24))?;
    let count = plan.vertices as u64;
    let scatter = Scatter::of(count.saturating_mul(count), chance);
    for number in 0..count_of(plan) {
        append_numbered(
            &mut text,
            plan,
            (&sources, &targets),
            &scatter,
            chance,
            number,
        )?;
    }
    Ok(text)
}

/// A graph.
pub(crate) fn graph(
    alloc: Global,
    plan: &Plan,
    names: &[Name],
    chance: &mut Chance,
) -> Result<Graph, Fault> {
    let text = graph_text(alloc, plan, names, chance)?;
    match read_graph(alloc, &text) {
        Ok(graph) => Ok(graph),
        Err(_) => Err(Fault::Refused),
    }
}
