//! What the program is given, and where its report goes.
ghost use Rattle.std.specs.Prelude.{◌∷◌, [], List, Option, None, map, string_bytes};
ghost use Rattle.officer.specs.Dealings.{Dealing, Words, Input, File, Print, Adds, seen};

use crate::deliver::{DeliverFault, deliver};
use crate::fetch::{FetchFault, fetch};
use std::alloc::Global;
use std::io::{Error as IoError, ErrorKind, Input as StandardInput, writer};
use std::rt::{Env, Files};
use std::{env, fs, io};
use thiserror::Error;

/// Why the words of the command line were not given.
#[derive(Debug, Drop, Error)]
pub enum WordsFault {
    /// They can't be read: one of them is no text.
    #[error("cannot read the words")]
    Unreadable,
    /// No memory was left for them.
    #[error("no memory")]
    Memory,
}

/// What the program deals with: the words of its command line, the texts that it reads, and the
/// output.
pub trait Surroundings {
    // What was asked so far, with the answers, in order, where that is known.
    ghost dealings: { Self → Option (List Dealing) } = { λ _. None };

    /// The words of the command line, without the name of the program.
    fn words(&mut self, alloc: Global) -> Result<Vec<String>, WordsFault>
        ensures { Adds (dealings self.old) (dealings self.new) (Words (seen (λ words. map string_bytes words.items) result) ∷ []) };

    /// The bytes of standard input.
    fn input(&mut self, alloc: Global) -> Result<Vec<u8>, FetchFault>
        ensures { Adds (dealings self.old) (dealings self.new) (Input (seen (λ bytes. bytes.items) result) ∷ []) };

    /// The bytes of a file.
    fn file(&mut self, alloc: Global, path: &str) -> Result<Vec<u8>, FetchFault>
        ensures { Adds (dealings self.old) (dealings self.new) (File path.now (seen (λ bytes. bytes.items) result) ∷ []) };

    /// Writes bytes to standard output.
    fn print(&mut self, bytes: &[u8]) -> Result<(), DeliverFault>
        ensures { Adds (dealings self.old) (dealings self.new) (Print bytes.now result ∷ []) };
}

/// The surroundings that the system gives a process.
#[derive(Drop)]
pub struct Process<'a, R> {
    rt: &'a R,
}

impl<'a, R> Process<'a, R> {
    /// The surroundings of a runtime.
    pub fn new(rt: &'a R) -> Process<'a, R> {
        Process { rt }
    }
}

// Whether a failure is want of memory.
fn is_memory(error: &IoError) -> bool {
    error.kind() == ErrorKind::OutOfMemory
}

// The words, without the first.
fn words_of<R: Env + AllocGlobal>(rt: &R) -> io::Result<Vec<String>> {
    let words = env::args(rt)?.skip(1).collect(rt.alloc())?;
    Ok(words)
}

impl<R: Env + StandardInput + Files + Print + AllocGlobal> Surroundings for Process<'_, R> {
    fn words(&mut self, _alloc: Global) -> Result<Vec<String>, WordsFault> {
        match words_of(self.rt) {
            Ok(words) => Ok(words),
            Err(error) if is_memory(&error) => Err(WordsFault::Memory),
            Err(_) => Err(WordsFault::Unreadable),
        }
    }

    fn input(&mut self, alloc: Global) -> Result<Vec<u8>, FetchFault> {
        fetch(alloc, &mut self.rt.reader())
    }

    fn file(&mut self, alloc: Global, path: &str) -> Result<Vec<u8>, FetchFault> {
        match fs::File::open(self.rt, path) {
            Ok(mut file) => fetch(alloc, &mut file),
            Err(error) if is_memory(&error) => Err(FetchFault::Memory),
            Err(_) => Err(FetchFault::Unreadable),
        }
    }

    fn print(&mut self, bytes: &[u8]) -> Result<(), DeliverFault> {
        deliver(&mut writer(self.rt), bytes)
    }
}
