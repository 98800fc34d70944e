//! The officer: reports on protection graphs, for the words of a command line.
#![tactic(auto)]

// a call from its words to its report
pub mod call;
// a report to a writer
pub mod deliver;
#[cfg(test)]
mod famine_tests;
// the message and status of each cause
pub mod fault;
// an input from a reader, whole
pub mod fetch;
// the forms of the command line, and the nearest
pub mod forms;
// what the program says of itself
pub mod help;
// what the definitions of a run and of the nearest form come to
pub mod laws;
#[cfg(test)]
mod memory_tests;
// the process, as what gives words and texts and takes a report
pub mod surroundings;
#[cfg(test)]
mod surroundings_tests;

use call::run;
use fault::{fault_line, form_line};
use std::process::ExitCode;
use surroundings::Process;

fn main(rt: HostRuntime) -> ExitCode {
    match run(&rt, &mut Process::new(&rt)) {
        Ok(status) => ExitCode::from(status),
        Err(cause) => {
            let (line, status) = fault_line(cause);
            // where standard error takes no line either, the status tells
            let _ = rt.eprintln(line);
            if let Some(form) = form_line(cause) {
                let _ = rt.eprintln(form);
            }
            ExitCode::from(status)
        }
    }
}
