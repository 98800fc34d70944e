//! Scripts: their seats play one after another on a hall, or at once on a store that all of them share.
#![tactic(auto)]

// the lines of its outcomes
mod outcome_lines;
// the lines of their outcomes
mod race_lines;
// the seats of a script played on a store, each in a thread of its own where one can be started
mod racing;
// a script played on a hall
mod running;
// the events of one seat, in turn
mod turns;

pub use outcome_lines::LONGEST_LINE;
pub use racing::{make_room_in_race, race, race_through};
pub use running::{make_room_in_run, run};
pub use turns::Player;
