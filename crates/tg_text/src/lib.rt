//! The texts of graphs, rules, scripts, policies and replies.
//!
//! What they are made of, lines and words and their faults, is that of `tg_words`.
#![tactic(auto)]

// graphs as canonical text
mod canonical;
// the text of a graph: what the words of one line add
mod graph_text;
// the text of a policy over a graph, both ways
mod policy_text;
// the text of rules
mod rule_text;
// the text of a script
mod script_text;

pub use canonical::{names_in_order, write_graph, write_graph_behind};
pub use graph_text::read_graph;
pub use policy_text::{Claim, Operand, PolicyLine, read_policy, write_policy};
pub use rule_text::{RuleLine, RuleSink, read_rule, read_rules, read_rules_into};
pub use script_text::{Script, ScriptLine, read_script};
pub use tg_words::{
    LONGEST_NUMBER, LONGEST_REPLY, LONGEST_RULE, MOST_EVENTS, MOST_LINE_BYTES, MOST_POLICY_LINES,
    MOST_RULES, MOST_VERTICES_OF_ONE, TextFault, TextKind, append_number, append_reply,
    append_rule, cut_line, cut_word, write_reply, write_rule,
};
