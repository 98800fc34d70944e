//! Reports on protection graphs, from texts to texts.
#![tactic(auto)]

// which rights have to go, as rules
mod cut_lines;
// the islands
mod island_lines;
// what the definitions of reports come to
pub mod laws;
// what a vertex can come to have
mod reach_lines;
// the report of each command for its texts
mod reporting;
// the answers to questions
mod sharing;
// the answers to all questions at once
mod table_lines;
// who can come to have rights over a vertex
mod who_lines;

pub use reporting::{report, report_of_texts};
pub use tg_inputs::{Call, Command, Report, Request, read_words};
pub use tg_plays::{LONGEST_LINE, Player, make_room_in_race, make_room_in_run, race};
