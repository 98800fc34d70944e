//! The text of a policy over a graph, both ways.
ghost use Rattle.std.specs.Prelude.{◌≡◌, ◌∷◌, ◌++◌, List, IfOk, OnOk, Ok};
ghost use Rattle.std.specs.List.{list_any};
ghost use Rattle.tg_graph.specs.Graphs.{ProtectionGraph};
ghost use Rattle.tg_graph.specs.GraphOf.{graph_of};
ghost use Rattle.tg_words.specs.Lines.{words_of};
ghost use Rattle.tg_words.specs.Reading.{Finds, Makes, Reads, with_item};
ghost use Rattle.tg_words.specs.Spelling.{spaced, line_of};
ghost use Rattle.tg_text.specs.PolicyText.{PolicyLineOf, line_of_policy, policy_of, states, operand_at, operands_at, rights_and_operands, said_by_words, lacks_vertex, policy_text, ArePolicyLines};
ghost use Rattle.tg_text.specs.PolicyState.{HasGroupsOf, IsFound, item_over, lacks_name, known_to};
ghost use Rattle.tg_words.specs.Limits.{most_policy_lines};
ghost use Rattle.tg_text.specs.PolicyGrammar.{operand_word};
ghost use Rattle.tg_text.specs.PolicyTrips.{claim_words, policy_words, lines_of_policy};

use std::alloc::{AllocError, Global};
use std::collections::BTreeSet;
use tg_graph::{Graph, Name, Rights};
use tg_words::{
    Items, LineFault, MOST_POLICY_LINES, TextFault, TextKind, cut_word, name_at, put, put_name,
    put_rights, read_lines, some_rights_at, word_and_some, word_and_two,
};

// As many bytes as the first two words of a line have at most.
const LONGEST_CLAIM: usize = 22;

// As many bytes as an operand has at most, with the space before it.
const LONGEST_OPERAND: usize = 18;

/// What a line of a policy speaks of.
#[derive(Clone, Copy, PartialEq, Eq, Debug)]
pub enum Operand {
    /// The vertex of this name.
    Vertex(Name),
    /// The members that the group of this name has at that line.
    Group(Name),
}

/// What a line of a policy says of its operands.
#[derive(Clone, Copy, PartialEq, Eq, Debug)]
pub enum Claim {
    /// The members of each join the group of this name.
    Group(Name),
    /// None of the first can come to have any right of the set over any of the second.
    Never(Rights),
    /// Each of the first can come to have every right of the set over each of the second.
    May(Rights),
    /// Whoever can come to have any right of the set over any of the first is among the others.
    Only(Rights),
}

/// A line of a policy.
#[derive(Debug, Drop)]
pub struct PolicyLine {
    /// Its number, counted from 1.
    pub line: usize,
    /// What it says.
    pub claim: Claim,
    /// What it says that of, in turn: one operand or more for `Group` and `Only`, two for `Never` and
    /// `May`.
    pub operands: Vec<Operand>,
}

fn operand_at(word: &[u8]) -> Result<Operand, TextKind>
    ensures { result ≡ operand_at word.now }
{
    match word {
        [b'@', name @ ..] => Ok(Operand::Group(name_at(name)?)),
        _ => Ok(Operand::Vertex(name_at(word)?)),
    }
}

// An operand for each word.
#[tactic(auto, using(crate::proofs::PolicyReads::operands_alike))]
fn operands_at(alloc: Global, words: &[u8]) -> Result<Vec<Operand>, LineFault>
    ensures { Finds (λ operands. operands.items) result (operands_at (words_of words.now)) }
{
    let mut operands = Vec::new(alloc);
    let mut rest = words;
    while let Some((word, after)) = cut_word(rest) {
        operands.push(operand_at(word)?)?;
        rest = after;
    }
    Ok(operands)
}

// The rights that a word writes, and an operand for each of the words behind it.
#[tactic(auto, unfolding(crate::specs::PolicyText::rights_and_operands))]
fn rights_and_operands(
    alloc: Global,
    word: &[u8],
    others: &[u8],
) -> Result<(Rights, Vec<Operand>), LineFault>
    ensures { Finds (λ a. (a.0, a.1.items)) result
        (rights_and_operands (word.now, words_of others.now)) }
{
    let operands = operands_at(alloc, others)?;
    let rights = some_rights_at(word)?;
    Ok((rights, operands))
}

// What the words of a line say of which operands: the first word, and those behind it.
#[tactic(auto, unfolding(crate::specs::PolicyText::said_by_words, crate::specs::PolicyText::group_of_words))]
fn said_by_words(
    alloc: Global,
    first: &[u8],
    rest: &[u8],
) -> Result<(Claim, Vec<Operand>), LineFault>
    ensures { Finds (λ said. (said.0, said.1.items)) result
        (said_by_words (first.now ∷ words_of rest.now)) }
{
    if first == b"group".as_slice() {
        let (word, others) = word_and_some(rest)?;
        let name = name_at(word)?;
        let operands = operands_at(alloc, others)?;
        return Ok((Claim::Group(name), operands));
    }
    if first == b"never".as_slice() {
        let (word, others) = word_and_two(rest)?;
        let (rights, operands) = rights_and_operands(alloc, word, others)?;
        return Ok((Claim::Never(rights), operands));
    }
    if first == b"may".as_slice() {
        let (word, others) = word_and_two(rest)?;
        let (rights, operands) = rights_and_operands(alloc, word, others)?;
        return Ok((Claim::May(rights), operands));
    }
    if first == b"only".as_slice() {
        let (word, others) = word_and_some(rest)?;
        let (rights, operands) = rights_and_operands(alloc, word, others)?;
        return Ok((Claim::Only(rights), operands));
    }
    Err(LineFault::Kind(TextKind::BadWord))
}

// Whether the operand is a vertex that the graph has not.
fn lacks_vertex(graph: &Graph, operand: Operand) -> bool
    ensures { result ≡ lacks_vertex (graph_of graph.now) operand }
{
    match operand {
        Operand::Vertex(name) => !graph.knows(name),
        Operand::Group(_) => false,
    }
}

// Whether some operand is such a vertex.
fn lacks_some_vertex(graph: &Graph, operands: &[Operand]) -> bool
    ensures { result ≡ list_any (lacks_vertex (graph_of graph.now)) operands.now }
{
    operands.iter().any(|operand| lacks_vertex(graph, *operand))
}

// Whether the operand is a group whose name is not among these.
fn lacks_name(groups: &BTreeSet<Name>, operand: Operand) -> bool
    ensures { result ≡ lacks_name groups.now operand }
{
    match operand {
        Operand::Vertex(_) => false,
        Operand::Group(name) => !groups.contains(&name),
    }
}

// Whether some operand is such a group.
fn lacks_some_name(groups: &BTreeSet<Name>, operands: &[Operand]) -> bool
    ensures { result ≡ list_any (lacks_name groups.now) operands.now }
{
    operands.iter().any(|operand| lacks_name(groups, *operand))
}

// What is wrong with operands, if some are not known.
fn check(graph: &Graph, groups: &BTreeSet<Name>, operands: &[Operand]) -> Result<(), TextKind>
    ensures { IsFound result (known_to (graph_of graph.now) groups.now operands.now) }
{
    if lacks_some_vertex(graph, operands) {
        return Err(TextKind::UnknownVertex);
    }
    if lacks_some_name(groups, operands) {
        return Err(TextKind::UnknownGroup);
    }
    Ok(())
}

// What the lines of a policy over a graph make: the lines, and the names of the groups that they made.
#[derive(Drop)]
pub(crate) struct PolicyItems<'a> {
    alloc: Global,
    graph: &'a Graph,
    groups: BTreeSet<Name>,
    lines: Vec<PolicyLine>,
}

// Adds a line, if there is room for one more.
fn push_line(
    groups: &mut BTreeSet<Name>,
    lines: &mut Vec<PolicyLine>,
    line: usize,
    claim: Claim,
    operands: Vec<Operand>,
) -> Result<(), LineFault>
    requires { HasGroupsOf groups.old (policy_of lines.old.items) }
    ensures made { Makes (with_item most_policy_lines (policy_of lines.old.items)
        (Ok (record { line = line; claim = claim; operands = operands.items }))) result
        (policy_of lines.new.items) }
    ensures groups { OnOk result (HasGroupsOf groups.new (policy_of lines.new.items)) }
{
    if lines.len() >= MOST_POLICY_LINES {
        return Err(LineFault::Kind(TextKind::TooMany));
    }
    if let Claim::Group(name) = claim {
        groups.insert(name)?;
    }
    lines.push(PolicyLine {
        line,
        claim,
        operands,
    })?;
    Ok(())
}

impl Items for PolicyItems<'_> {
    ghost Made = { ProtectionGraph × List PolicyLineOf };

    ghost made = { λ policy. (graph_of policy.graph.now, policy_of policy.lines.items) };

    ghost item = { item_over };

    ghost IsSound = { λ policy. HasGroupsOf policy.groups (policy_of policy.lines.items) };

    #[tactic(auto, unfolding(crate::specs::PolicyText::policy_line, crate::specs::PolicyText::policy_item))]
    fn add(&mut self, line: usize, first: &[u8], rest: &[u8]) -> Result<(), LineFault> {
        let (claim, operands) = said_by_words(self.alloc, first, rest)?;
        if let Err(kind) = check(self.graph, &self.groups, &operands) {
            return Err(LineFault::Kind(kind));
        }
        push_line(&mut self.groups, &mut self.lines, line, claim, operands)
    }

    fn add_likely<'a>(&mut self, _line: usize, _text: &'a [u8]) -> Option<&'a [u8]> {
        None
    }
}

// Whether the claim states who can or can't come to have a right.
fn states(claim: Claim) -> bool
    ensures { result ≡ states claim }
{
    match claim {
        Claim::Group(_) => false,
        Claim::Never(_) | Claim::May(_) | Claim::Only(_) => true,
    }
}

// Whether one of the lines does.
fn has_claim(lines: &[PolicyLine]) -> bool
    ensures { result ≡ list_any (λ line. states line.claim) lines.now }
{
    lines.iter().any(|line| states(line.claim))
}

/// The lines of a policy over a graph.
///
/// Each operand is a vertex of the graph, or a group that an earlier line made. All seven letters
/// may stand, whatever the version of the graph's text.
///
/// `At` names the first faulty line, and the first of these that it has: `LineTooLong`, `BadWord`,
/// `WordCount`, `BadName`, `BadRights`, `UnknownVertex`, `UnknownGroup`, `TooMany` where there are
/// `MOST_POLICY_LINES` lines already, groups included. Where no line is faulty, and none states anything,
/// as where all make groups, it is `NoClaim`, on the line behind the last. `Memory` is answered where a
/// growth was refused, whatever stands further on.
pub fn read_policy(alloc: Global, graph: &Graph, text: &[u8]) -> Result<Vec<PolicyLine>, TextFault>
    ensures value { Reads (λ lines. policy_of lines.items) result
        (policy_text (graph_of graph.now) text.now) }
    ensures sound { IfOk result (λ lines. ArePolicyLines (graph_of graph.now) (policy_of lines.items)) }
{
    let mut policy = PolicyItems {
        alloc,
        graph,
        groups: BTreeSet::new(alloc),
        lines: Vec::new(alloc),
    };
    let count = match read_lines(&mut policy, text) {
        Ok(count) => count,
        Err(fault) => return Err(fault),
    };
    if !has_claim(&policy.lines) {
        return Err(TextFault::At {
            line: count + 1,
            kind: TextKind::NoClaim,
        });
    }
    Ok(policy.lines)
}

// Appends the first two words of a line.
fn append_claim(text: &mut Vec<u8>, claim: Claim) -> Result<(), AllocError>
    ensures { OnOk result (text.new.items ≡ text.old.items ++ spaced (claim_words claim)) }
{
    text.reserve(LONGEST_CLAIM)?;
    match claim {
        Claim::Group(name) => {
            put(text, b"group");
            put_name(text, name);
        }
        Claim::Never(rights) => {
            put(text, b"never");
            put_rights(text, rights);
        }
        Claim::May(rights) => {
            put(text, b"may");
            put_rights(text, rights);
        }
        Claim::Only(rights) => {
            put(text, b"only");
            put_rights(text, rights);
        }
    }
    Ok(())
}

// Appends a space and an operand.
fn append_operand(text: &mut Vec<u8>, operand: Operand) -> Result<(), AllocError>
    ensures { OnOk result (text.new.items ≡ text.old.items ++ 32 ∷ operand_word operand) }
{
    text.reserve(LONGEST_OPERAND)?;
    match operand {
        Operand::Vertex(name) => put_name(text, name),
        Operand::Group(name) => {
            put(text, b" @");
            put(text, name.as_bytes());
        }
    }
    Ok(())
}

// Appends the line, with its line feed.
fn append_line(text: &mut Vec<u8>, line: &PolicyLine) -> Result<(), AllocError>
    ensures { OnOk result (text.new.items
        ≡ text.old.items ++ line_of (policy_words (line_of_policy line.now))) }
{
    append_claim(text, line.claim)?;
    for operand in &line.operands {
        append_operand(text, *operand)?;
    }
    text.push(b'\n')?;
    Ok(())
}

/// A line for each, groups too, in turn: the words with single spaces, and the letters of rights in
/// their order. The numbers of the lines are not written. The error is want of memory.
pub fn write_policy(alloc: Global, lines: &[PolicyLine]) -> Result<Vec<u8>, AllocError>
    ensures { IfOk result (λ text. text.items ≡ lines_of_policy (policy_of lines.now)) }
{
    let mut text = Vec::new(alloc);
    for line in lines {
        append_line(&mut text, line)?;
    }
    Ok(text)
}
