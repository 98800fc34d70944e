use crate::call::run;
use crate::deliver::{DeliverFault, deliver};
use crate::fault::{Cause, fault_line, form_line};
use crate::fetch::{FetchFault, MOST_BYTES, Reads, fetch, fetch_counting};
use crate::forms::{Form, nearest_form};
use crate::help::{HELP, VERSION};
use crate::surroundings::{Process, Surroundings, WordsFault};
use std::alloc::{AllocError, Global};
use std::io::{Error, ErrorKind, Read, Write};
use std::process::Abort;
use std::test::Fail;
use std::thread::Threads;
use std::{env, fs, io};

// Gives three bytes, and fails from then on.
#[derive(Drop)]
struct Broken {
    gave: bool,
}

impl Read for Broken {
    fn read(&mut self, buf: &mut [u8]) -> io::Result<usize> {
        if self.gave || buf.len() < 3 {
            return Err(Error::from(ErrorKind::Other));
        }
        self.gave = true;
        Ok(3)
    }
}

// Fills each buffer, and never ends.
#[derive(Drop)]
struct Endless;

impl Read for Endless {
    fn read(&mut self, buf: &mut [u8]) -> io::Result<usize> {
        Ok(buf.len())
    }
}

// Gives so many bytes, as many at once as it is asked for.
#[derive(Drop)]
pub(crate) struct Zeros {
    pub(crate) left: usize,
}

impl Read for Zeros {
    fn read(&mut self, buf: &mut [u8]) -> io::Result<usize> {
        let count = self.left.min(buf.len());
        self.left -= count;
        Ok(count)
    }
}

// Gives a text, and is interrupted before each read of it.
#[derive(Drop)]
struct Interrupted<'a> {
    text: &'a [u8],
    again: bool,
}

impl Read for Interrupted<'_> {
    fn read(&mut self, buf: &mut [u8]) -> io::Result<usize> {
        self.again = !self.again;
        if self.again {
            return Err(Error::from(ErrorKind::Interrupted));
        }
        self.text.read(buf)
    }
}

// Gives a text, a byte at each read. Where it pauses, it is interrupted before each byte.
#[derive(Drop)]
struct Slow<'a> {
    text: &'a [u8],
    pauses: bool,
    paused: bool,
}

impl Read for Slow<'_> {
    fn read(&mut self, buf: &mut [u8]) -> io::Result<usize> {
        self.paused = self.pauses && !self.paused;
        if self.paused {
            return Err(Error::from(ErrorKind::Interrupted));
        }
        let room = buf.len().min(1);
        self.text.read(&mut buf[..room])
    }
}

// Is interrupted at each read.
#[derive(Drop)]
struct Busy;

impl Read for Busy {
    fn read(&mut self, _buf: &mut [u8]) -> io::Result<usize> {
        Err(Error::from(ErrorKind::Interrupted))
    }
}

// Takes so many bytes in all, and fails where it would take none.
#[derive(Drop)]
pub(crate) struct Full {
    pub(crate) room: usize,
}

impl Write for Full {
    fn write(&mut self, buf: &[u8]) -> io::Result<usize> {
        let count = self.room.min(buf.len());
        if count == 0 {
            return Err(Error::from(ErrorKind::Other));
        }
        self.room -= count;
        Ok(count)
    }

    fn flush(&mut self) -> io::Result<()> {
        Ok(())
    }
}

// Takes all, and is not to be flushed.
#[derive(Drop)]
struct Stuck;

impl Write for Stuck {
    fn write(&mut self, buf: &[u8]) -> io::Result<usize> {
        Ok(buf.len())
    }

    fn flush(&mut self) -> io::Result<()> {
        Err(Error::from(ErrorKind::Other))
    }
}

// What the reader gives can be fetched: so many bytes.
fn gives<R: Read>(rt: &impl Abort, alloc: Global, reader: &mut R, count: usize) {
    let bytes = fetch(alloc, reader);
    assert!(rt; bytes.is_ok_and(|bytes| bytes.len() == count));
}

// What the reader gives is too large to be fetched.
fn is_too_large<R: Read>(rt: &impl Abort, alloc: Global, reader: &mut R) {
    let bytes = fetch(alloc, reader);
    assert!(rt; matches!(bytes, Err(FetchFault::TooLarge)));
}

#[test]
fn inputs_of_many_sizes(rt: HostRuntime) {
    gives(&rt, rt.alloc(), &mut Zeros { left: MOST_BYTES }, 67_108_864);
    is_too_large(&rt, rt.alloc(), &mut Zeros { left: 67_108_865 });
    is_too_large(&rt, rt.alloc(), &mut Endless);
}

#[test]
fn unreadable(rt: HostRuntime) {
    let fetched = fetch(rt.alloc(), &mut Broken { gave: false });
    assert!(rt; matches!(fetched, Err(FetchFault::Unreadable)));
}

// The reader gives this text.
fn is_read<R: Read>(rt: &impl Abort, alloc: Global, reader: &mut R, text: &[u8]) {
    let bytes = fetch(alloc, reader);
    assert!(rt; bytes.is_ok_and(|bytes| bytes.as_slice() == text));
}

// A text of 3,000 bytes, in which no two that stand beside each other are the same.
fn long_text(alloc: Global) -> Result<Vec<u8>, AllocError> {
    let mut text = Vec::new(alloc);
    for _ in 0..300 {
        text.extend_from_slice(b"0123456789")?;
    }
    Ok(text)
}

#[test]
fn fetches_all(rt: HostRuntime) -> Result<(), Fail> {
    let long = long_text(rt.alloc())?;
    let text = long.as_slice();
    let mut whole = text;
    is_read(&rt, rt.alloc(), &mut whole, text);
    for pauses in [false, true] {
        let mut slow = Slow {
            text,
            pauses,
            paused: false,
        };
        is_read(&rt, rt.alloc(), &mut slow, text);
    }
    Ok(())
}

#[test]
fn fetches_after_interruptions(rt: HostRuntime) {
    let text = b"vertex a\n".as_slice();
    is_read(
        &rt,
        rt.alloc(),
        &mut Interrupted { text, again: false },
        text,
    );
}

// An input that is interrupted at each read, and was so until three more reads were left to it.
fn fetch_busy(alloc: Global) -> (Result<Vec<u8>, FetchFault>, Reads) {
    let mut reads = Reads {
        gave: 0,
        interrupted: 67_108_862,
    };
    let bytes = fetch_counting(alloc, &mut Busy, &mut reads);
    (bytes, reads)
}

#[test]
fn interrupted_for_ever(rt: HostRuntime) {
    let (bytes, reads) = fetch_busy(rt.alloc());
    assert!(rt; matches!(bytes, Err(FetchFault::TooLarge)));
    assert!(rt; (reads.gave, reads.interrupted) == (0, 67_108_865));
}

#[test]
fn delivers_all(rt: HostRuntime) -> Result<(), Fail> {
    let mut out = Vec::new(rt.alloc());
    deliver(&mut out, b"graph\n")?;
    assert!(rt; out.as_slice() == b"graph\n".as_slice());
    Ok(())
}

// Whether a writer takes a report of six bytes.
pub(crate) fn takes<W: Write>(writer: &mut W) -> bool {
    deliver(writer, b"graph\n").is_ok()
}

#[test]
fn cannot_write(rt: HostRuntime) {
    assert!(rt; !takes(&mut Full { room: 0 }));
    assert!(rt; !takes(&mut Full { room: 3 }));
    assert!(rt; takes(&mut Full { room: 6 }));
    assert!(rt; !takes(&mut Stuck));
}

pub(crate) fn says(rt: &impl Abort, cause: Cause, line: &str, status: u8) {
    assert!(rt; fault_line(cause) == (line, status));
}

#[test]
fn fault_lines(rt: HostRuntime) {
    for (cause, line, status) in [
        (Cause::Graph, "officer: cannot read the graph", 3),
        (Cause::Second, "officer: cannot read the second file", 3),
        (Cause::TooLarge, "officer: input too large", 3),
        (Cause::Memory, "officer: no memory", 3),
        (Cause::Write, "officer: cannot write", 3),
        (Cause::Words(None), "officer: bad command line", 2),
    ] {
        says(&rt, cause, line, status);
    }
}

// This form is the nearest to the words, and so it is told.
pub(crate) fn is_near(rt: &impl Abort, words: &[&str], form: Option<Form>, line: &str) {
    let nearest = nearest_form(words);
    assert!(rt; nearest == form);
    assert!(rt; form_line(Cause::Words(nearest)) == Some(line));
}

#[test]
fn nearest_forms(rt: HostRuntime) {
    let share = "officer: usage: officer share G RIGHTS X Y";
    is_near(&rt, &["share", "G"], Some(Form::Share), share);
    is_near(&rt, &["shore"], Some(Form::Share), share);
    let race = "officer: usage: officer race G SCRIPT";
    is_near(&rt, &["rate", "check"], Some(Form::Race), race);
    let reach = "officer: usage: officer reach G X";
    is_near(&rt, &["r"], Some(Form::Reach), reach);
    let all = "officer: officer --help lists all forms";
    is_near(&rt, &["Check", "G"], None, all);
    is_near(&rt, &[], None, all);
}

#[test]
fn one_line_alone(rt: HostRuntime) {
    assert!(rt; form_line(Cause::Memory).is_none());
    assert!(rt; form_line(Cause::Second).is_none());
}

// What a question to a desk gives.
#[derive(Clone, Copy)]
enum Held<T> {
    Given(T),
    Unreadable,
    TooLarge,
    Busy,
    Memory,
}

// The bytes of a text, or why they do not come.
fn held_bytes(alloc: Global, text: Held<&[u8]>) -> Result<Vec<u8>, FetchFault> {
    match text {
        Held::Given(text) => {
            let bytes = Vec::from_slice(alloc, text)?;
            Ok(bytes)
        }
        Held::Unreadable => Err(FetchFault::Unreadable),
        Held::TooLarge => Err(FetchFault::TooLarge),
        Held::Busy => {
            let (bytes, _reads) = fetch_busy(alloc);
            bytes
        }
        Held::Memory => Err(FetchFault::Memory),
    }
}

fn held_words(alloc: Global, words: &[&str]) -> Result<Vec<String>, AllocError> {
    let mut strings = Vec::new(alloc);
    for word in words {
        strings.push(String::from_str(alloc, word)?)?;
    }
    Ok(strings)
}

// Surroundings in memory, in which each question may fail. The files are `g` and `h`. It keeps a
// letter for each question: `w` for the words, `i` for standard input, a file's name, and `p` for
// the output.
#[derive(Drop)]
struct Desk<'a> {
    words: Held<&'a [&'a str]>,
    input: Held<&'a [u8]>,
    graph: Held<&'a [u8]>,
    second: Held<&'a [u8]>,
    takes: bool,
    printed: Vec<u8>,
    asked: Vec<u8>,
}

impl Desk<'_> {
    // Keeps a letter; there is room for it, or it is left out.
    fn keep(&mut self, letter: u8) {
        let _ = self.asked.push(letter);
    }
}

impl Surroundings for Desk<'_> {
    fn words(&mut self, alloc: Global) -> Result<Vec<String>, WordsFault> {
        self.keep(b'w');
        match self.words {
            Held::Given(words) => match held_words(alloc, words) {
                Ok(words) => Ok(words),
                Err(AllocError) => Err(WordsFault::Memory),
            },
            Held::Unreadable | Held::TooLarge | Held::Busy => Err(WordsFault::Unreadable),
            Held::Memory => Err(WordsFault::Memory),
        }
    }

    fn input(&mut self, alloc: Global) -> Result<Vec<u8>, FetchFault> {
        self.keep(b'i');
        held_bytes(alloc, self.input)
    }

    fn file(&mut self, alloc: Global, path: &str) -> Result<Vec<u8>, FetchFault> {
        let text = match path {
            "g" => self.graph,
            "h" => self.second,
            _ => Held::Unreadable,
        };
        for letter in path.as_bytes() {
            self.keep(*letter);
        }
        held_bytes(alloc, text)
    }

    fn print(&mut self, bytes: &[u8]) -> Result<(), DeliverFault> {
        self.keep(b'p');
        if !self.takes || self.printed.extend_from_slice(bytes).is_err() {
            return Err(DeliverFault::CannotWrite);
        }
        Ok(())
    }
}

// A desk with a graph, rules for it and a case, at which these words are given.
fn desk_for<'a>(alloc: Global, words: &'a [&'a str]) -> Desk<'a> {
    Desk {
        words: Held::Given(words),
        input: Held::Given(b"vertex b\nvertex a\nrules\ntake a b b r\n"),
        graph: Held::Given(b"vertex b\nvertex a\n"),
        second: Held::Given(b"take a b b r\n"),
        takes: true,
        printed: Vec::new(alloc),
        asked: Vec::new(alloc),
    }
}

// The program at a desk asks these questions, prints these bytes and ends with this status.
fn prints<R: Abort + Threads + Sync + AllocGlobal>(
    rt: &R,
    words: &[&str],
    asked: &[u8],
    printed: &[u8],
    status: u8,
) {
    let mut desk = desk_for(rt.alloc(), words);
    assert!(rt; run(rt, &mut desk) == Ok(status));
    assert!(rt; desk.asked.as_slice() == asked);
    assert!(rt; desk.printed.as_slice() == printed);
}

// The program at a desk asks these questions and ends for this cause, and nothing is printed.
fn stops<R: Abort + Threads + Sync + AllocGlobal>(
    rt: &R,
    mut desk: Desk<'_>,
    asked: &[u8],
    cause: Cause,
) {
    assert!(rt; run(rt, &mut desk) == Err(cause));
    assert!(rt; desk.asked.as_slice() == asked);
    assert!(rt; desk.printed.is_empty());
}

#[test]
fn printed_reports(rt: HostRuntime) {
    let graph = b"vertex a\nvertex b\n".as_slice();
    prints(&rt, &["check", "g"], b"wgp", graph, 0);
    let refused = b"1 refused no-take\ngraph\nvertex a\nvertex b\n".as_slice();
    prints(&rt, &["apply", "g", "h"], b"wghp", refused, 1);
    prints(&rt, &[], b"wip", refused, 1);
}

#[test]
fn printed_texts(rt: HostRuntime) {
    prints(&rt, &["--help"], b"wp", HELP.as_bytes(), 0);
    prints(&rt, &["-V"], b"wp", b"officer 1.0.0\n".as_slice(), 0);
    assert!(rt; VERSION == "officer 1.0.0\n");
}

#[test]
fn words_that_stop(rt: HostRuntime) {
    let derive = Cause::Words(Some(Form::Derive));
    stops(&rt, desk_for(rt.alloc(), &["dare", "g"]), b"w", derive);
    let mut unreadable = desk_for(rt.alloc(), &[]);
    unreadable.words = Held::Unreadable;
    stops(&rt, unreadable, b"w", Cause::Words(None));
    let mut memory = desk_for(rt.alloc(), &[]);
    memory.words = Held::Memory;
    stops(&rt, memory, b"w", Cause::Memory);
}

#[test]
fn graphs_that_stop(rt: HostRuntime) {
    let words = ["apply", "g", "h"];
    let mut neither = desk_for(rt.alloc(), &words);
    neither.graph = Held::Unreadable;
    neither.second = Held::Unreadable;
    stops(&rt, neither, b"wg", Cause::Graph);
    let mut large = desk_for(rt.alloc(), &words);
    large.graph = Held::TooLarge;
    stops(&rt, large, b"wg", Cause::TooLarge);
    let mut memory = desk_for(rt.alloc(), &words);
    memory.graph = Held::Memory;
    stops(&rt, memory, b"wg", Cause::Memory);
}

#[test]
fn second_files_that_stop(rt: HostRuntime) {
    let words = ["run", "g", "h"];
    let mut unreadable = desk_for(rt.alloc(), &words);
    unreadable.second = Held::Unreadable;
    stops(&rt, unreadable, b"wgh", Cause::Second);
    let mut large = desk_for(rt.alloc(), &words);
    large.second = Held::TooLarge;
    stops(&rt, large, b"wgh", Cause::TooLarge);
}

#[test]
fn an_input_that_stops(rt: HostRuntime) {
    let mut unreadable = desk_for(rt.alloc(), &[]);
    unreadable.input = Held::Unreadable;
    stops(&rt, unreadable, b"wi", Cause::Graph);
    let mut busy = desk_for(rt.alloc(), &[]);
    busy.input = Held::Busy;
    stops(&rt, busy, b"wi", Cause::TooLarge);
}

#[test]
fn an_output_that_stops(rt: HostRuntime) {
    let mut full = desk_for(rt.alloc(), &["islands", "g"]);
    full.takes = false;
    stops(&rt, full, b"wgp", Cause::Write);
    let mut help = desk_for(rt.alloc(), &["-h"]);
    help.takes = false;
    stops(&rt, help, b"wp", Cause::Write);
}

// The surroundings of the system: a file that is there, and one that is not.
#[test]
fn files_of_the_system(rt: HostRuntime) -> Result<(), Fail> {
    let mut path = env::temp_dir(&rt)?;
    path.push("gaivunde_officer_test.graph")?;
    fs::write(&rt, path.as_path(), b"vertex a\n".as_slice())?;
    let read = Process::new(&rt).file(rt.alloc(), path.as_str());
    fs::remove_file(&rt, path.as_path())?;
    assert!(rt; read?.as_slice() == b"vertex a\n".as_slice());
    let gone = Process::new(&rt).file(rt.alloc(), path.as_str());
    assert!(rt; matches!(gone, Err(FetchFault::Unreadable)));
    Ok(())
}
