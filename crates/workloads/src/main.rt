//! The jobs that users wait for, on inputs made from a seed: `JOB SEED`, or `trial SEED` for each job
//! on small inputs. It prints a digest of all results of a job. A word that names no job is an error.
#![tactic(auto)]

mod asking;
mod chance;
#[cfg(test)]
mod chance_tests;
mod digest;
mod fault;
mod jobs;
mod plans;
mod playing;
mod racing;
mod reading;
mod results;
mod ruling;
mod sizes;
mod steps;
mod tabling;
mod texts;

use jobs::{Job, done, job_of};
use sizes::Size;
use std::process::ExitCode;
use std::rt::Env;
use std::thread::Threads;
use std::{env, io};

// Does a job, and prints its digest. It answers whether the job was done.
fn print_digest<R: Threads + Sync + AllocGlobal + Print>(
    rt: &R,
    job: Job,
    size: &Size,
    seed: u64,
) -> io::Result<bool> {
    match done(rt, job, size, seed) {
        Ok(digest) => {
            let number = digest.number;
            println!(rt; "{number:016x}")?;
            Ok(true)
        }
        Err(_) => Ok(false),
    }
}

// Does each job on small inputs.
fn print_trial<R: Threads + Sync + AllocGlobal + Print>(rt: &R, seed: u64) -> io::Result<bool> {
    let jobs = [
        Job::Read,
        Job::Rule,
        Job::Ask,
        Job::Table,
        Job::Play,
        Job::AskInSessions,
    ];
    for job in &jobs {
        if !print_digest(rt, *job, &Size::trial(), seed)? {
            return Ok(false);
        }
    }
    Ok(true)
}

// Does the job of a word. A word that names none is an error.
fn print_named<R: Threads + Sync + AllocGlobal + Print + Eprint>(
    rt: &R,
    word: &str,
    seed: u64,
) -> io::Result<bool> {
    match job_of(word) {
        Some(job) => print_digest(rt, job, &Size::full(), seed),
        None => {
            eprintln!(rt; "workloads: no such job")?;
            Ok(false)
        }
    }
}

// Does what the words say. It answers whether that was done.
fn run<R: Threads + Sync + AllocGlobal + Print + Eprint + Env>(rt: &R) -> io::Result<bool> {
    let words: Vec<String> = env::args(rt)?.skip(1).collect(rt.alloc())?;
    let (Some(word), Some(number)) = (words.get(0), words.get(1)) else {
        return Ok(false);
    };
    let Ok(seed) = number.as_str().parse::<u64>() else {
        return Ok(false);
    };
    match word.as_str() {
        "trial" => print_trial(rt, seed),
        word => print_named(rt, word, seed),
    }
}

fn main(rt: HostRuntime) -> ExitCode {
    match run(&rt) {
        Ok(true) => ExitCode::from(0),
        Ok(false) => ExitCode::from(1),
        Err(_) => ExitCode::from(3),
    }
}
