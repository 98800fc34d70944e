//! What a session does in one step, and what it is told.
use crate::rules::{Refusal, Rule};
use tg_names::{Name, Right};

/// One step of a session: a rule to carry out, or a question to its graph.
#[derive(Clone, Copy, PartialEq, Eq, Debug)]
pub enum Step {
    /// Carry out a rule.
    Do(Rule),
    /// Ask whether x has the right over y.
    Holds { right: Right, x: Name, y: Name },
    /// Ask whether some list of rules would give x the right over y.
    Share { right: Right, x: Name, y: Name },
}

/// The answer to a step.
#[derive(Clone, Copy, PartialEq, Eq, Debug)]
pub enum Reply {
    /// The rule was carried out.
    Done,
    /// The question is answered yes.
    Yes,
    /// The question is answered no.
    No,
    /// The step was refused, and changed nothing.
    Refused(Refusal),
}

/// What a seat is told to do.
#[derive(Clone, Copy, PartialEq, Eq, Debug)]
pub enum Act {
    /// Begin a session.
    Begin,
    /// Make the step in the open session.
    Stage(Step),
    /// Commit the open session: its record comes to stand behind all others.
    Commit,
    /// Give the open session up.
    Abort,
}
