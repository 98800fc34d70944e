//! What the texts of graphs, rules, scripts and policies are made of: their lines and words, names, rights and
//! numbers, how these are spelled, the versions and limits, and reading line by line up to the first fault.
#![tactic(auto)]

// what can be wrong with a text
mod faults;
// the limits of texts
mod limits;
// lines of a text
mod lines;
// lines whose words stand between single spaces, read from the front in one pass
mod plain_lines;
// reading a text line by line, up to the first fault
mod reading;
// rules, replies and numbers as text
mod spelling;
// the versions of the text of a graph
mod versions;
// the words of a line
mod words;

pub use faults::{LineFault, TextFault, TextKind};
pub use limits::{
    MOST_EVENTS, MOST_LINE_BYTES, MOST_POLICY_LINES, MOST_RULES, MOST_VERTICES_OF_ONE,
};
pub use lines::{cut_line, cut_word};
pub use plain_lines::{cut_edge, cut_rule};
pub use reading::{Items, read_lines};
pub use spelling::{
    LONGEST_NAME, LONGEST_NUMBER, LONGEST_REPLY, LONGEST_RIGHTS, LONGEST_RULE, append_number,
    append_reply, append_rule, put, put_name, put_rights, write_reply, write_rule,
};
pub use versions::Version;
pub use words::{
    edge_rights_at, four_words, header_number, name_at, no_words, number_up_to, one_word, right_at,
    rights_at, some_rights_at, three_words, word_and_some, word_and_two,
};
