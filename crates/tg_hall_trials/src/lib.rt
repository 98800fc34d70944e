//! What the tests of sessions share: what seats do and what they are told, as rows of tables. Tests alone stand on
//! it.
#![tactic(auto)]

mod deeds;
mod graphs;
mod letters;
mod words;

pub use deeds::{Deed, act_of, event_of, step_of};
pub use graphs::{Label, holds, shows};
pub use words::{Row, Word, is_reply};
