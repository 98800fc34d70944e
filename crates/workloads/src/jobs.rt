//! The jobs, by their words.
use crate::asking::ask;
use crate::chance::Chance;
use crate::digest::Digest;
use crate::fault::Fault;
use crate::playing::{play_asking, play_changing};
use crate::racing::race;
use crate::reading::read;
use crate::ruling::rule;
use crate::sizes::Size;
use crate::tabling::table;
use std::thread::Threads;

/// A job.
#[derive(Clone, Copy, PartialEq, Eq)]
pub(crate) enum Job {
    /// Graphs are read, and written again.
    Read,
    /// Rules are carried out.
    Rule,
    /// One graph is asked many questions.
    Ask,
    /// Tables of all pairs are made and read.
    Table,
    /// Sessions are played, in a hall and in a store.
    Play,
    /// Sessions are played that ask.
    AskInSessions,
}

/// The job of a word.
pub(crate) fn job_of(word: &str) -> Option<Job> {
    match word {
        "read" => Some(Job::Read),
        "rule" => Some(Job::Rule),
        "ask" => Some(Job::Ask),
        "table" => Some(Job::Table),
        "play" => Some(Job::Play),
        "ask_in_sessions" => Some(Job::AskInSessions),
        _ => None,
    }
}

// How often a job is done.
fn rounds_of(job: Job, size: &Size) -> u64 {
    match job {
        Job::Read => size.readings,
        Job::Rule => size.rules,
        Job::Ask => size.asked,
        Job::Table => size.tables,
        Job::Play => size.plays,
        Job::AskInSessions => size.asking_plays,
    }
}

// Does a job once.
fn do_once<R: Threads + Sync + AllocGlobal>(
    rt: &R,
    job: Job,
    size: &Size,
    chance: &mut Chance,
    digest: &mut Digest,
) -> Result<(), Fault> {
    let alloc = rt.alloc();
    match job {
        Job::Read => read(alloc, size, chance, digest),
        Job::Rule => rule(alloc, size, chance, digest),
        Job::Ask => ask(alloc, size, chance, digest),
        Job::Table => table(rt, alloc, size, chance, digest),
        Job::Play => {
            play_changing(alloc, size, chance, digest)?;
            race(alloc, size, chance, digest)
        }
        Job::AskInSessions => play_asking(alloc, size, chance, digest),
    }
}

/// The digest of all results of a job. Each seed gives other inputs.
pub(crate) fn done<R: Threads + Sync + AllocGlobal>(
    rt: &R,
    job: Job,
    size: &Size,
    seed: u64,
) -> Result<Digest, Fault> {
    let mut chance = Chance::new(seed);
    let mut digest = Digest::new();
    for _ in 0..rounds_of(job, size) {
        do_once(rt, job, size, &mut chance, &mut digest)?;
    }
    Ok(digest)
}
