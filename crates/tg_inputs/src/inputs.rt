//! The texts that a report is about.
ghost use Rattle.std.specs.Prelude.{◌≡◌, ◌≤◌, ◌∷◌, ◌++◌, [], length, codes, map, true, IfOk, OnOk};
ghost use Rattle.tg_graph.specs.GraphOf.{graph_of};
ghost use Rattle.tg_graph.specs.Graphs.{has_vertex};
ghost use Rattle.tg_graph.specs.Limits.{most_vertices};
ghost use Rattle.tg_text.specs.ScriptText.{script_of};
ghost use Rattle.tg_text.specs.PolicyText.{policy_of, ArePolicyLines};
ghost use Rattle.tg_inputs.specs.Readings.{kind_word, refusal, text_refusal, graph_in, script_in, policy_lines_in, right_in, rights_in, name_in, vertex_in, question_in, workers_in, table_in, who_in, reach_in, edge_in, kept_in, cut_in};
ghost use Rattle.tg_inputs.specs.Outcomes.{Brings, report_text, played_in, played_so_far, question_of, table_question_of, who_question_of, reach_question_of, cut_question_of, IsAskable, IsCuttable, HaveEnds, IsTableWork, IsPlayableScript};

use crate::outcome::{Halt, Report};
use crate::playing::AppliedRules;
use std::alloc::{AllocError, Global};
use tg_cuts::Ends;
use tg_graph::{Graph, MOST_WORKERS, Name, NameFault, Refusal, Reply, Right, Rights};
use tg_text::{
    PolicyLine, Script, TextFault, TextKind, append_reply, read_graph, read_policy,
    read_rules_into, read_script,
};

// The word for what is wrong with a line.
fn kind_word(kind: TextKind) -> &'static str
    ensures { result.now ≡ kind_word kind }
{
    match kind {
        TextKind::LineTooLong => "line-too-long",
        TextKind::BadWord => "bad-word",
        TextKind::WordCount => "word-count",
        TextKind::BadNumber => "bad-number",
        TextKind::BadName => "bad-name",
        TextKind::BadRights => "bad-rights",
        TextKind::DuplicateVertex => "duplicate-vertex",
        TextKind::TooManyVertices => "too-many-vertices",
        TextKind::UnknownVertex => "unknown-vertex",
        TextKind::UnknownGroup => "unknown-group",
        TextKind::DuplicateEdge => "duplicate-edge",
        TextKind::TooMany => "too-many",
        TextKind::NoHeader => "no-header",
        TextKind::NoClaim => "no-claim",
    }
}

// The report of a faulty text.
fn text_refusal(
    alloc: Global,
    text: &str,
    line: usize,
    kind: TextKind,
) -> Result<Report, AllocError>
    ensures { IfOk result (λ report. report_text report ≡ text_refusal text.now (line, kind)) }
{
    let word = kind_word(kind);
    let line = format!(in alloc; "refused {text} line {line} {word}\n")?;
    Ok(Report {
        bytes: line.into_bytes(),
        status: 1,
    })
}

/// The graph of a text.
///
/// The error is the report of the text's first fault, or want of memory.
pub fn graph_in(alloc: Global, text: &[u8]) -> Result<Graph, Halt>
    ensures made { Brings graph_of result (graph_in text.now) }
    ensures small { IfOk result (λ graph. length (graph_of graph).vertices ≤ most_vertices) }
{
    match read_graph(alloc, text) {
        Ok(graph) => Ok(graph),
        Err(TextFault::At { line, kind }) => {
            Err(Halt::Refused(text_refusal(alloc, "graph", line, kind)?))
        }
        Err(TextFault::Memory) => Err(Halt::Memory),
    }
}

/// What the rules of a text do to a graph in turn, up to the first that is refused.
///
/// The error is the report of the text's first fault, or want of memory. The graph is gone then.
pub fn rules_applied(alloc: Global, graph: Graph, text: &[u8]) -> Result<AppliedRules, Halt>
    ensures { Brings played_so_far result (played_in (graph_of graph) text.now) }
{
    match read_rules_into(AppliedRules::none(alloc, graph), text) {
        Ok(applied) => Ok(applied),
        Err(TextFault::At { line, kind }) => {
            Err(Halt::Refused(text_refusal(alloc, "rules", line, kind)?))
        }
        Err(TextFault::Memory) => Err(Halt::Memory),
    }
}

/// The script of a text.
///
/// The error is the report of the text's first fault, or want of memory.
pub fn script_in(alloc: Global, text: &[u8]) -> Result<Script, Halt>
    ensures made { Brings script_of result (script_in text.now) }
    ensures playable { IfOk result (λ script. IsPlayableScript (script_of script)) }
{
    match read_script(alloc, text) {
        Ok(script) => Ok(script),
        Err(TextFault::At { line, kind }) => {
            Err(Halt::Refused(text_refusal(alloc, "script", line, kind)?))
        }
        Err(TextFault::Memory) => Err(Halt::Memory),
    }
}

/// The lines of a policy over a graph.
///
/// The error is the report of the text's first fault, or want of memory.
pub fn policy_lines_in(alloc: Global, graph: &Graph, text: &[u8]) -> Result<Vec<PolicyLine>, Halt>
    ensures made { Brings (λ lines. policy_of lines.items) result
        (policy_lines_in (graph_of graph.now) text.now) }
    ensures sound { IfOk result (λ lines.
        ArePolicyLines (graph_of graph.now) (policy_of lines.items)) }
{
    match read_policy(alloc, graph, text) {
        Ok(lines) => Ok(lines),
        Err(TextFault::At { line, kind }) => {
            Err(Halt::Refused(text_refusal(alloc, "policy", line, kind)?))
        }
        Err(TextFault::Memory) => Err(Halt::Memory),
    }
}

/// A question to a graph: whether x can come to have the rights over y.
#[derive(Drop)]
pub struct Question {
    pub graph: Graph,
    pub rights: Rights,
    pub x: Name,
    pub y: Name,
}

fn word_refusal(alloc: Global, words: &str) -> Result<Report, AllocError>
    ensures { IfOk result
        (λ report. report_text report
        ≡ record { bytes = codes "refused " ++ words.now ++ 10 ∷ []; status = 1 }) }
{
    let line = format!(in alloc; "refused {words}\n")?;
    Ok(Report {
        bytes: line.into_bytes(),
        status: 1,
    })
}

fn right_in(alloc: Global, word: &str) -> Result<Right, Halt>
    ensures { Brings (λ right. right) result (right_in word.now) }
{
    let right = match word.as_bytes() {
        [letter] => Right::from_letter(*letter),
        _ => None,
    };
    match right {
        Some(right) => Ok(right),
        None => Err(Halt::Refused(word_refusal(alloc, "bad-right")?)),
    }
}

fn rights_in(alloc: Global, word: &str) -> Result<Rights, Halt>
    ensures { Brings (λ rights. rights) result (rights_in word.now) }
{
    match Rights::from_letters(word.as_bytes()) {
        Some(rights) => Ok(rights),
        None => Err(Halt::Refused(word_refusal(alloc, "bad-right")?)),
    }
}

fn name_in(alloc: Global, word: &str) -> Result<Name, Halt>
    ensures { Brings (λ name. name) result (name_in word.now) }
{
    match Name::parse(word.as_bytes()) {
        Ok(name) => Ok(name),
        Err(NameFault::Empty | NameFault::TooLong | NameFault::BadByte(_)) => {
            Err(Halt::Refused(word_refusal(alloc, "bad-name")?))
        }
    }
}

fn unknown_refusal(alloc: Global, name: Name) -> Result<Report, AllocError>
    ensures { IfOk result (λ report. report_text report ≡ refusal (codes "unknown" ∷ name ∷ [])) }
{
    let mut bytes = Vec::new(alloc);
    append_reply(&mut bytes, &Reply::Refused(Refusal::Unknown(name)))?;
    bytes.push(b'\n')?;
    Ok(Report { bytes, status: 1 })
}

fn vertex_in(alloc: Global, graph: &Graph, name: Name) -> Result<Name, Halt>
    ensures made { Brings (λ vertex. vertex) result (vertex_in (graph_of graph.now) name) }
    ensures known { OnOk result (has_vertex (graph_of graph.now) name ≡ true) }
{
    if graph.knows(name) {
        Ok(name)
    } else {
        Err(Halt::Refused(unknown_refusal(alloc, name)?))
    }
}

/// The question of a text and words.
///
/// The error is the report of the first fault, or want of memory: of the text, of the rights, of the two names,
/// and then of a name that no vertex has.
pub fn question_in(
    alloc: Global,
    text: &[u8],
    rights: &str,
    x: &str,
    y: &str,
) -> Result<Question, Halt>
    ensures made { Brings question_of result (question_in text.now rights.now x.now y.now) }
    ensures askable { IfOk result (λ question. IsAskable (question_of question)) }
{
    let graph = graph_in(alloc, text)?;
    let rights = rights_in(alloc, rights)?;
    let x = name_in(alloc, x)?;
    let y = name_in(alloc, y)?;
    let x = vertex_in(alloc, &graph, x)?;
    let y = vertex_in(alloc, &graph, y)?;
    Ok(Question {
        graph,
        rights,
        x,
        y,
    })
}

/// A question to a graph: who can come to have the rights over y.
#[derive(Drop)]
pub struct WhoQuestion {
    pub graph: Graph,
    pub rights: Rights,
    pub y: Name,
}

/// The question of a text and words.
///
/// The error is the report of the first fault, or want of memory: of the text, of the rights, of the name, and
/// then that no vertex has it.
pub fn who_in(alloc: Global, text: &[u8], rights: &str, y: &str) -> Result<WhoQuestion, Halt>
    ensures made { Brings who_question_of result (who_in text.now rights.now y.now) }
    ensures known { IfOk result
        (λ question. has_vertex (graph_of question.graph) question.y ≡ true) }
{
    let graph = graph_in(alloc, text)?;
    let rights = rights_in(alloc, rights)?;
    let y = name_in(alloc, y)?;
    let y = vertex_in(alloc, &graph, y)?;
    Ok(WhoQuestion { graph, rights, y })
}

/// A question to a graph: what x can come to have.
#[derive(Drop)]
pub struct ReachQuestion {
    pub graph: Graph,
    pub x: Name,
}

/// The question of a text and a word.
///
/// The error is the report of the first fault, or want of memory: of the text, of the name, and then that no
/// vertex has it.
pub fn reach_in(alloc: Global, text: &[u8], x: &str) -> Result<ReachQuestion, Halt>
    ensures made { Brings reach_question_of result (reach_in text.now x.now) }
    ensures known { IfOk result
        (λ question. has_vertex (graph_of question.graph) question.x ≡ true) }
{
    let graph = graph_in(alloc, text)?;
    let x = name_in(alloc, x)?;
    let x = vertex_in(alloc, &graph, x)?;
    Ok(ReachQuestion { graph, x })
}

/// A question to a graph: which rights have to go so that x can't come to have the right over y, where some
/// edges stay as they are.
#[derive(Drop)]
pub struct CutQuestion {
    pub graph: Graph,
    pub right: Right,
    pub x: Name,
    pub y: Name,
    pub kept: Vec<Ends>,
}

// The edge that two words name.
fn edge_in(alloc: Global, graph: &Graph, source: &str, target: &str) -> Result<Ends, Halt>
    ensures made { Brings (λ edge. edge) result
        (edge_in (graph_of graph.now) source.now target.now) }
    ensures source { IfOk result (λ edge. has_vertex (graph_of graph.now) edge.source ≡ true) }
    ensures target { IfOk result (λ edge. has_vertex (graph_of graph.now) edge.target ≡ true) }
{
    let source = name_in(alloc, source)?;
    let target = name_in(alloc, target)?;
    let source = vertex_in(alloc, graph, source)?;
    let target = vertex_in(alloc, graph, target)?;
    Ok(Ends { source, target })
}

// Puts an edge behind others.
fn add_edge(edges: &mut Vec<Ends>, edge: Ends) -> Result<(), AllocError>
    ensures { OnOk result (edges.new.items ≡ edges.old.items ++ edge ∷ []) }
{
    edges.push(edge)?;
    Ok(())
}

// The edges that words name in threes, behind an option each.
fn kept_in(alloc: Global, graph: &Graph, words: &[&str]) -> Result<Vec<Ends>, Halt>
    ensures made { Brings (λ kept. kept.items) result
        (kept_in (graph_of graph.now) (map (λ word. word.now) words.now)) }
    ensures known { IfOk result (λ kept. HaveEnds (graph_of graph.now) kept.items) }
{
    let mut kept = Vec::new(alloc);
    let mut left = words;
    while let [_, source, target, rest @ ..] = left {
        let edge = edge_in(alloc, graph, source, target)?;
        add_edge(&mut kept, edge)?;
        left = rest;
    }
    Ok(kept)
}

/// The question of a text and words. Of the words that keep edges, three each, the second and third name its ends.
///
/// The error is the report of the first fault, or want of memory: of the text, of the right, of the two names,
/// of a name that no vertex has, and then of the kept edges in turn.
pub fn cut_in(
    alloc: Global,
    text: &[u8],
    right: &str,
    x: &str,
    y: &str,
    kept: &[&str],
) -> Result<CutQuestion, Halt>
    ensures made { Brings cut_question_of result
        (cut_in text.now right.now x.now y.now (map (λ word. word.now) kept.now)) }
    ensures cuttable { IfOk result (λ question. IsCuttable (cut_question_of question)) }
{
    let graph = graph_in(alloc, text)?;
    let right = right_in(alloc, right)?;
    let x = name_in(alloc, x)?;
    let y = name_in(alloc, y)?;
    let x = vertex_in(alloc, &graph, x)?;
    let y = vertex_in(alloc, &graph, y)?;
    let kept = kept_in(alloc, &graph, kept)?;
    Ok(CutQuestion {
        graph,
        right,
        x,
        y,
        kept,
    })
}

fn workers_in(alloc: Global, workers: u64) -> Result<u64, Halt>
    ensures { Brings (λ workers. workers) result (workers_in workers) }
{
    if workers == 0 || workers > MOST_WORKERS {
        Err(Halt::Refused(word_refusal(alloc, "workers")?))
    } else {
        Ok(workers)
    }
}

/// A graph and the right whose table is asked for, and how many workers make it.
#[derive(Drop)]
pub struct TableWork {
    pub graph: Graph,
    pub right: Right,
    pub workers: u64,
}

/// The table that a text and words ask for.
///
/// The error is the report of the first fault, or want of memory: of the text, of the right, and then of the
/// number of workers, which is 1 to `MOST_WORKERS`.
pub fn table_in(alloc: Global, text: &[u8], right: &str, workers: u64) -> Result<TableWork, Halt>
    ensures made { Brings table_question_of result (table_in text.now right.now workers) }
    ensures possible { IfOk result IsTableWork }
    ensures workers { IfOk result (λ work. work.workers ≡ workers) }
{
    let graph = graph_in(alloc, text)?;
    let right = right_in(alloc, right)?;
    let workers = workers_in(alloc, workers)?;
    Ok(TableWork {
        graph,
        right,
        workers,
    })
}
