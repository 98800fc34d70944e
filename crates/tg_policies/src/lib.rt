//! Policies: which of their lines a graph keeps, and derivations that show why one is broken.
#![tactic(auto)]

// who is in which group of a policy, and whom operands stand for
mod groups;
// rules as lines of a report
mod rule_lines;
// the lines of a policy, each with its verdict
mod verdicts;
// the report on a policy
mod verifying;

pub use rule_lines::{append_derivation, append_rules};
pub use verifying::verify;
