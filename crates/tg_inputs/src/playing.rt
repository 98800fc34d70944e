//! Rules carried out in turn, as they are read.
ghost use Rattle.std.specs.Prelude.{◌≡◌, ◌+◌, ◌≤◌, ◌∷◌, ◌++◌, [], IfOk, OnErr, codes, vec_len, vec_capacity};
ghost use Rattle.tg_graph.specs.GraphOf.{graph_of};
ghost use Rattle.tg_graph.specs.Rules.{rights_of};
ghost use Rattle.tg_names.specs.Sets.{IsNamed};
ghost use Rattle.tg_inputs.specs.Outcomes.{PlaysRule, nothing_played, played_so_far};

use std::alloc::{AllocError, Global};
use tg_graph::{Graph, Reply, Rule, RuleFault};
use tg_text::{LONGEST_NUMBER, LONGEST_REPLY, RuleSink, append_number, append_reply};

// As many bytes as the line of a reply has at most, with its line feed.
const LONGEST_REPLY_LINE: usize = LONGEST_NUMBER + LONGEST_REPLY + 2;

// Appends the end of the line of an accepted rule, for which there is room.
#[inline(always)]
fn end_with_done(text: &mut Vec<u8>)
    requires { vec_len text.old + 6 ≤ vec_capacity text.old }
    ensures { text.new.items ≡ text.old.items ++ codes " done" ++ 10 ∷ [] }
{
    // There is room, so no memory is asked for.
    let _ = text.extend_from_slice(b" done\n");
}

// Carries out a rule, and appends its reply. It answers whether the rule was accepted.
fn play_rule(
    text: &mut Vec<u8>,
    graph: &mut Graph,
    line: usize,
    rule: &Rule,
) -> Result<bool, AllocError>
    requires { IsNamed (rights_of rule.now) }
    ensures played { IfOk result
        (λ accepted. PlaysRule (record { line = line; rule = rule.now }) accepted text.old.items
        text.new.items (graph_of graph.old) (graph_of graph.new)) }
    ensures kept_text { OnErr result (text.new.items ≡ text.old.items) }
    ensures kept_graph { OnErr result (graph.new ≡ graph.old) }
{
    // With room for the whole line nothing fails once the graph has changed.
    text.reserve(LONGEST_REPLY_LINE)?;
    match graph.apply(rule) {
        Ok(()) => {
            append_number(text, line)?;
            end_with_done(text);
            Ok(true)
        }
        Err(RuleFault::Refused(refusal)) => {
            append_number(text, line)?;
            text.push_reserved(b' ');
            append_reply(text, &Reply::Refused(refusal))?;
            text.push_reserved(b'\n');
            Ok(false)
        }
        Err(RuleFault::Memory) => Err(AllocError),
    }
}

/// A graph to which rules are applied as they are read, up to the first that is refused, and the
/// lines of their replies.
#[derive(Drop)]
pub struct AppliedRules {
    pub graph: Graph,
    pub replies: Vec<u8>,
    /// The status of the report: 1 once a rule was refused.
    pub status: u8,
}

impl AppliedRules {
    /// No rules so far.
    pub(crate) fn none(alloc: Global, graph: Graph) -> AppliedRules
        ensures { played_so_far result ≡ nothing_played (graph_of graph) }
    {
        AppliedRules {
            graph,
            replies: Vec::new(alloc),
            status: 0,
        }
    }
}

impl RuleSink for AppliedRules {
    ghost use Rattle.std.specs.Prelude.{⊤};
    ghost use Rattle.tg_inputs.specs.Replies.{Played};
    ghost use Rattle.tg_inputs.specs.Outcomes.{played_on, played_so_far};

    ghost Made = { Played };

    ghost made = { played_so_far };

    ghost with_rule = { played_on };

    ghost IsSound = { λ _. ⊤ };

    fn put(&mut self, line: usize, rule: &Rule) -> Result<(), AllocError> {
        if self.status > 0 {
            return Ok(());
        }
        if !play_rule(&mut self.replies, &mut self.graph, line, rule)? {
            self.status = 1;
        }
        Ok(())
    }
}
