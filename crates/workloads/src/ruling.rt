//! Rules are carried out as they are read.
use crate::chance::Chance;
use crate::digest::Digest;
use crate::fault::Fault;
use crate::plans::{Edges, Labels, Plan, Spelling};
use crate::sizes::Size;
use crate::texts::{graph, names, words};
use std::alloc::{AllocError, Global};
use tg_graph::{Graph, Name, Reply, Rule, RuleFault};
use tg_text::{RuleSink, append_number, append_reply, read_rules_into};

// A graph, and the replies to the rules that were carried out on it.
#[derive(Drop)]
struct Ruled {
    graph: Graph,
    replies: Vec<u8>,
}

impl RuleSink for Ruled {
    ghost Made = { Unit {0} };

    ghost made = { λ _. tt };

    ghost with_rule = { λ _ _. tt };

    ghost IsSound = { λ _. Unit {0} };

    fn put(&mut self, line: usize, rule: &Rule) -> Result<(), AllocError> {
        let reply = match self.graph.apply(rule) {
            Ok(()) => Reply::Done,
            Err(RuleFault::Refused(refusal)) => Reply::Refused(refusal),
            Err(RuleFault::Memory) => return Err(AllocError),
        };
        append_number(&mut self.replies, line)?;
        self.replies.push(b' ')?;
        append_reply(&mut self.replies, &reply)?;
        self.replies.push(b'\n')?;
        Ok(())
    }
}

// What rules are made.
#[derive(Clone, Copy, PartialEq, Eq)]
enum Rules {
    // Of the first vertex, which has t and g over all: it grants, and rights are given up.
    OfHub,
    // Of vertices anywhere, which are mostly refused.
    Anywhere,
    // Vertices are created, and what is held over them is given up.
    Creating,
}

// Appends the pieces of a line.
fn append_line(text: &mut Vec<u8>, pieces: &[&[u8]]) -> Result<(), AllocError> {
    for piece in pieces {
        text.extend_from_slice(piece)?;
    }
    Ok(())
}

// One of the words.
fn any<'a>(words: &'a [Vec<u8>], chance: &mut Chance) -> &'a [u8] {
    match words.get(chance.below(words.len())) {
        Some(word) => word.as_slice(),
        None => b"_0 ",
    }
}

// Appends a rule of the hub.
fn append_of_hub(
    text: &mut Vec<u8>,
    words: &[Vec<u8>],
    chance: &mut Chance,
) -> Result<(), AllocError> {
    let hub = match words.first() {
        Some(word) => word.as_slice(),
        None => b"_0 ",
    };
    let x = any(words, chance);
    let y = any(words, chance);
    match chance.below(3) {
        0 => append_line(text, &[b"remove ", x, y, b"rwe\n"])?,
        1 => append_line(text, &[b"grant ", hub, x, y, b"t\n"])?,
        _ => append_line(text, &[b"grant ", hub, x, y, b"tg\n"])?,
    }
    Ok(())
}

// Appends a rule of any vertex.
fn append_anywhere(
    text: &mut Vec<u8>,
    words: &[Vec<u8>],
    chance: &mut Chance,
) -> Result<(), AllocError> {
    let x = any(words, chance);
    let y = any(words, chance);
    let z = any(words, chance);
    match chance.below(3) {
        0 => append_line(text, &[b"take ", x, y, z, b"r\n"])?,
        1 => append_line(text, &[b"grant ", x, y, z, b"rw\n"])?,
        _ => append_line(text, &[b"remove ", x, y, b"wr\n"])?,
    }
    Ok(())
}

// Appends a rule that creates a vertex, or that gives up what is held over one.
fn append_creating(
    text: &mut Vec<u8>,
    words: &[Vec<u8>],
    chance: &mut Chance,
    number: usize,
) -> Result<(), AllocError> {
    let x = any(words, chance);
    let created = Name::helper(u32::try_from(number / 2).unwrap_or(0));
    if number % 2 == 0 {
        append_line(text, &[b"create ", x, created.as_bytes(), b" tgrw\n"])?;
    } else {
        append_line(text, &[b"remove ", x, created.as_bytes(), b" tgrw\n"])?;
    }
    Ok(())
}

// Appends the rule with a number.
fn append_rule(
    text: &mut Vec<u8>,
    rules: Rules,
    words: &[Vec<u8>],
    chance: &mut Chance,
    number: usize,
) -> Result<(), AllocError> {
    match rules {
        Rules::OfHub => append_of_hub(text, words, chance),
        Rules::Anywhere => append_anywhere(text, words, chance),
        Rules::Creating => append_creating(text, words, chance, number),
    }
}

// The text of so many rules.
fn rules_text(
    alloc: Global,
    rules: Rules,
    names: &[Name],
    chance: &mut Chance,
    count: usize,
) -> Result<Vec<u8>, AllocError> {
    let mut text = Vec::with_capacity(alloc, count.saturating_mul(48))?;
    let words = words(alloc, b"", names)?;
    for number in 0..count {
        append_rule(&mut text, rules, &words, chance, number)?;
    }
    Ok(text)
}

// Carries rules out, and writes the graph after them.
fn carry_out(
    alloc: Global,
    plan: &Plan,
    rules: Rules,
    count: usize,
    chance: &mut Chance,
    digest: &mut Digest,
) -> Result<(), Fault> {
    let names = names(alloc, plan)?;
    let graph = graph(alloc, plan, &names, chance)?;
    let text = rules_text(alloc, rules, &names, chance, count)?;
    let replies = Vec::new(alloc);
    let Ok(ruled) = read_rules_into(Ruled { graph, replies }, &text) else {
        return Err(Fault::Refused);
    };
    digest.add_bytes(&ruled.replies);
    digest.add_graph(alloc, &ruled.graph)?;
    Ok(())
}

/// Rules of each kind.
pub(crate) fn rule(
    alloc: Global,
    size: &Size,
    chance: &mut Chance,
    digest: &mut Digest,
) -> Result<(), Fault> {
    let star = Plan::scattered(size.vertices, 0, Labels::Both).with_edges(Edges::Star);
    let sparse = Plan::scattered(size.vertices, 4, Labels::Several);
    let large = Plan::scattered(size.many, 4, Labels::Several);
    let some = Plan::scattered(size.vertices, 32, Labels::Several);
    let many = size.part_of(131_072);
    let few = size.part_of(4_096);
    carry_out(alloc, &star, Rules::OfHub, many, chance, digest)?;
    carry_out(
        alloc,
        &star.spelt(Spelling::Alike),
        Rules::OfHub,
        many,
        chance,
        digest,
    )?;
    carry_out(alloc, &sparse, Rules::Anywhere, many, chance, digest)?;
    carry_out(
        alloc,
        &large.spelt(Spelling::Alike),
        Rules::Anywhere,
        many,
        chance,
        digest,
    )?;
    carry_out(alloc, &some, Rules::Anywhere, many, chance, digest)?;
    carry_out(alloc, &sparse, Rules::Creating, few, chance, digest)?;
    Ok(())
}
