//! What is asked of the report engine: the words of a command line, and the texts that a report is about. A fault
//! of either is a report too.
#![tactic(auto)]

// the graph, rules, script, policy and question of the texts and words, or the report of the first fault
mod inputs;
// a report, or why the work on one ends early
mod outcome;
// standard input, cut in a graph and rules
mod parts;
// rules carried out in turn, as they are read
mod playing;
// commands and calls, and what words ask for
mod words;

pub use inputs::{
    CutQuestion, Question, ReachQuestion, TableWork, WhoQuestion, cut_in, graph_in,
    policy_lines_in, question_in, reach_in, rules_applied, script_in, table_in, who_in,
};
pub use outcome::{Halt, Report};
pub use parts::parts_of;
pub use playing::AppliedRules;
pub use words::{Call, Command, Request, read_words};
