//! What the program does for its command line.
ghost use Rattle.std.specs.Prelude.{◌≡◌, [], IfOk, Ok, map, string_bytes};
ghost use Rattle.tg_inputs.specs.Calls.{call_words, command_of};
ghost use Rattle.officer.specs.Dealings.{Deals, Reads, ReadsBoth, Prints, IsReportOf, AnswersCall, IsRun, and_text, bytes_of, report_with, text_or, seen};
ghost use Rattle.tg_inputs.specs.Outcomes.{report_text};

use crate::deliver::DeliverFault;
use crate::fault::Cause;
use crate::fetch::FetchFault;
use crate::forms::nearest_form;
use crate::help::{HELP, VERSION};
use crate::surroundings::{Surroundings, WordsFault};
use std::alloc::{AllocError, Global};
use std::thread::Threads;
use tg_reports::{Call, Report, Request, race, read_words, report_of_texts};

// The texts of a command; where it has one text, the second is empty.
#[derive(Drop)]
struct Texts {
    first: Vec<u8>,
    second: Vec<u8>,
}

// A text that was read, or why it was not; an unreadable one has a cause of its own.
fn text_or(answer: Result<Vec<u8>, FetchFault>, unreadable: Cause) -> Result<Vec<u8>, Cause>
    ensures { seen (λ bytes. bytes.items) result
        ≡ text_or unreadable (seen (λ bytes. bytes.items) answer) }
{
    match answer {
        Ok(bytes) => Ok(bytes),
        Err(FetchFault::Unreadable) => Err(unreadable),
        Err(FetchFault::TooLarge) => Err(Cause::TooLarge),
        Err(FetchFault::Memory) => Err(Cause::Memory),
    }
}

// The text of a graph alone.
fn alone(alloc: Global, graph: Result<Vec<u8>, FetchFault>) -> Result<Texts, Cause>
    ensures { seen bytes_of result
        ≡ and_text (text_or Cause.Graph (seen (λ bytes. bytes.items) graph)) (Ok []) }
{
    match text_or(graph, Cause::Graph) {
        Ok(first) => Ok(Texts {
            first,
            second: Vec::new(alloc),
        }),
        Err(cause) => Err(cause),
    }
}

// The text of a graph and a second text.
fn beside(first: Vec<u8>, second: Result<Vec<u8>, FetchFault>) -> Result<Texts, Cause>
    ensures { seen bytes_of result
        ≡ and_text (Ok first.items) (text_or Cause.Second (seen (λ bytes. bytes.items) second)) }
{
    match text_or(second, Cause::Second) {
        Ok(second) => Ok(Texts { first, second }),
        Err(cause) => Err(cause),
    }
}

// The texts of two files, the first of them a graph.
fn both<S: Surroundings>(
    alloc: Global,
    surroundings: &mut S,
    graph: &str,
    second: &str,
) -> Result<Texts, Cause>
    ensures { Deals (S.dealings surroundings.old) (S.dealings surroundings.new)
        (ReadsBoth graph.now second.now (seen bytes_of result)) }
{
    match text_or(surroundings.file(alloc, graph), Cause::Graph) {
        Ok(first) => beside(first, surroundings.file(alloc, second)),
        Err(cause) => Err(cause),
    }
}

// The texts of a call, the graph first.
fn texts_of<S: Surroundings>(
    alloc: Global,
    surroundings: &mut S,
    call: &Call,
) -> Result<Texts, Cause>
    ensures { Deals (S.dealings surroundings.old) (S.dealings surroundings.new)
        (Reads (call_words call.now) (seen bytes_of result)) }
{
    match *call {
        Call::Input => alone(alloc, surroundings.input(alloc)),
        Call::File(_, graph) => alone(alloc, surroundings.file(alloc, graph)),
        Call::Files(_, graph, second) => both(alloc, surroundings, graph, second),
        Call::Race(graph, script) => both(alloc, surroundings, graph, script),
    }
}

// Prints bytes, and answers the status.
fn print<S: Surroundings>(surroundings: &mut S, bytes: &[u8], status: u8) -> Result<u8, Cause>
    ensures { Deals (S.dealings surroundings.old) (S.dealings surroundings.new)
        (Prints (report_with bytes.now status) result) }
{
    match surroundings.print(bytes) {
        Ok(()) => Ok(status),
        Err(DeliverFault::CannotWrite) => Err(Cause::Write),
    }
}

// The report of a call for its texts.
fn report_of<R: Threads + Sync + AllocGlobal>(
    rt: &R,
    call: &Call,
    texts: Texts,
) -> Result<Report, AllocError>
    ensures { IfOk result
        (λ report. IsReportOf
        (command_of (call_words call.now)) texts.first.items texts.second.items
        (report_text report)) }
{
    match call.command() {
        Some(command) => {
            let made = report_of_texts(rt, rt.alloc(), &command, texts.first, texts.second)?;
            Ok(made)
        }
        None => {
            let made = race(rt, &texts.first, &texts.second)?;
            Ok(made)
        }
    }
}

// Reads the texts of a call, and prints its report.
fn answer<R: Threads + Sync + AllocGlobal, S: Surroundings>(
    rt: &R,
    surroundings: &mut S,
    call: &Call,
) -> Result<u8, Cause>
    ensures { Deals (S.dealings surroundings.old) (S.dealings surroundings.new)
        (AnswersCall (call_words call.now) result) }
{
    let texts = match texts_of(rt.alloc(), surroundings, call) {
        Ok(texts) => texts,
        Err(cause) => return Err(cause),
    };
    match report_of(rt, call, texts) {
        Ok(report) => print(surroundings, &report.bytes, report.status),
        Err(AllocError) => Err(Cause::Memory),
    }
}

// The words as slices.
fn slices<'a>(alloc: Global, words: &'a [String]) -> Result<Vec<&'a str>, AllocError>
    ensures { IfOk result
        (λ slices. map (λ word. word.now) slices.items ≡ map string_bytes words.now) }
{
    let mut slices = Vec::with_capacity(alloc, words.len())?;
    for word in words {
        slices.push(word.as_str())?;
    }
    Ok(slices)
}

/// Prints the report that the words of the command line ask for, or what they ask of the program
/// itself. It answers the status of the report.
///
/// The words come first, then the graph, and a second file only once the graph is there. An error
/// means that one of these did not come, that there was no memory, or that the output did not take
/// the report.
pub fn run<R: Threads + Sync + AllocGlobal, S: Surroundings>(
    rt: &R,
    surroundings: &mut S,
) -> Result<u8, Cause>
    ensures { Deals (S.dealings surroundings.old) (S.dealings surroundings.new) (IsRun result) }
{
    let words = match surroundings.words(rt.alloc()) {
        Ok(words) => words,
        Err(WordsFault::Unreadable) => return Err(Cause::Words(None)),
        Err(WordsFault::Memory) => return Err(Cause::Memory),
    };
    let Ok(words) = slices(rt.alloc(), &words) else {
        return Err(Cause::Memory);
    };
    match read_words(&words) {
        Some(Request::Help) => print(surroundings, HELP.as_bytes(), 0),
        Some(Request::Version) => print(surroundings, VERSION.as_bytes(), 0),
        Some(Request::Report(call)) => answer(rt, surroundings, &call),
        None => Err(Cause::Words(nearest_form(&words))),
    }
}
