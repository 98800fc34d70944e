//! The text of rules.
ghost use Rattle.std.specs.Prelude.{◌≡◌, ◌∷◌, ℕ, nat_le, IfOk, OnOk, MatchOption};
ghost use Rattle.tg_names.specs.Sets.{IsNamed};
ghost use Rattle.tg_graph.specs.Rules.{rights_of};
ghost use Rattle.tg_words.specs.Limits.{most_rules};
ghost use Rattle.tg_words.specs.Lines.{words_of};
ghost use Rattle.tg_words.specs.Reading.{Makes, MakesFirst, Reads};
ghost use Rattle.tg_text.specs.RuleText.{two_names, three_names, rule_of_words, rule_of_line, counted_item, rules_make, rules_text, AreNamedLines};

use std::alloc::{AllocError, Global};
use tg_graph::{Name, Rights, Rule};
use tg_words::{
    Items, LineFault, MOST_LINE_BYTES, MOST_RULES, TextFault, TextKind, cut_rule, cut_word,
    four_words, name_at, read_lines, rights_at, three_words,
};

/// A rule of a text.
#[derive(Clone, Copy, PartialEq, Eq, Debug)]
pub struct RuleLine {
    /// The number of its line, counted from 1.
    pub line: usize,
    /// The rule.
    pub rule: Rule,
}

#[tactic(auto, unfolding(crate::specs::RuleText::two_names))]
fn two_names(bytes: &[u8]) -> Result<(Name, Name, Rights), TextKind>
    ensures value { result ≡ two_names (words_of bytes.now) }
    ensures named { IfOk result (λ a. IsNamed a.2) }
{
    let (first, second, letters) = three_words(bytes)?;
    let x = name_at(first)?;
    let y = name_at(second)?;
    let rights = rights_at(letters)?;
    Ok((x, y, rights))
}

#[tactic(auto, unfolding(crate::specs::RuleText::three_names))]
fn three_names(bytes: &[u8]) -> Result<(Name, Name, Name, Rights), TextKind>
    ensures value { result ≡ three_names (words_of bytes.now) }
    ensures named { IfOk result (λ a. IsNamed a.3) }
{
    let (first, second, third, letters) = four_words(bytes)?;
    let x = name_at(first)?;
    let y = name_at(second)?;
    let z = name_at(third)?;
    let rights = rights_at(letters)?;
    Ok((x, y, z, rights))
}

// The rule that words write: the first, and those behind it.
#[tactic(auto, unfolding(crate::specs::RuleText::rule_of_words))]
pub(crate) fn rule_of_words(first: &[u8], rest: &[u8]) -> Result<Rule, TextKind>
    ensures value { result ≡ rule_of_words (first.now ∷ words_of rest.now) }
    ensures named { IfOk result (λ rule. IsNamed (rights_of rule)) }
{
    if first == b"take".as_slice() {
        let (x, y, z, rights) = three_names(rest)?;
        return Ok(Rule::Take { x, y, z, rights });
    }
    if first == b"grant".as_slice() {
        let (x, y, z, rights) = three_names(rest)?;
        return Ok(Rule::Grant { x, y, z, rights });
    }
    if first == b"create".as_slice() {
        let (x, n, rights) = two_names(rest)?;
        return Ok(Rule::Create { x, n, rights });
    }
    if first == b"remove".as_slice() {
        let (x, y, rights) = two_names(rest)?;
        return Ok(Rule::Remove { x, y, rights });
    }
    Err(TextKind::BadWord)
}

#[tactic(auto, unfolding(crate::specs::RuleText::rule_of_words))]
/// The rule that a line without its line feed writes, or the first thing wrong with the line:
/// `LineTooLong` over `MOST_LINE_BYTES` bytes, `BadWord` where the first word names no rule,
/// `WordCount`, `BadName`, `BadRights`.
///
/// A line that a text would skip is a `BadWord`. No memory is taken.
pub fn read_rule(line: &[u8]) -> Result<Rule, TextKind>
    ensures value { result ≡ rule_of_line line.now }
    ensures named { IfOk result (λ rule. IsNamed (rights_of rule)) }
{
    if line.len() > MOST_LINE_BYTES {
        return Err(TextKind::LineTooLong);
    }
    let Some((first, rest)) = cut_word(line) else {
        return Err(TextKind::BadWord);
    };
    rule_of_words(first, rest)
}

/// What is given the rules of a text in turn, as they are read.
pub trait RuleSink {
    ghost use Rattle.std.specs.Prelude.{◌≡◌, OnOk, OnErr};
    ghost use Rattle.tg_names.specs.Sets.{IsNamed};
    ghost use Rattle.tg_graph.specs.Rules.{rights_of};
    ghost use Rattle.tg_text.specs.declared.rule_text.RuleLine.{RuleLine};

    // What the rules so far have made, as the definitions have it.
    ghost Made: { Type 0 };

    ghost made: { Self → Made };

    // What one more rule makes of it.
    ghost with_rule: { Made → RuleLine → Made };

    // What holds of all that is made.
    ghost IsSound: { Self → Type 0 };

    /// Takes the next rule, from the line with this number. The error is want of memory, and the rule is
    /// not taken then.
    fn put(&mut self, line: usize, rule: &Rule) -> Result<(), AllocError>
        requires sound { IsSound self.old }
        requires named { IsNamed (rights_of rule.now) }
        ensures made { OnOk result
            (made self.new ≡ with_rule (made self.old) (record { line = line; rule = rule.now })) }
        ensures kept { OnErr result (made self.new ≡ made self.old) }
        ensures sound { IsSound self.new };
}

impl RuleSink for Vec<RuleLine> {
    ghost use Rattle.std.specs.Prelude.{List, [], ◌∷◌, ◌++◌};
    ghost use Rattle.tg_text.specs.declared.rule_text.RuleLine.{RuleLine};
    ghost use Rattle.tg_text.specs.RuleText.{AreNamedLines};

    ghost Made = { List RuleLine };

    ghost made = { λ rules. rules.items };

    ghost with_rule = { λ rules rule. rules ++ rule ∷ [] };

    ghost IsSound = { λ rules. AreNamedLines rules.items };

    fn put(&mut self, line: usize, rule: &Rule) -> Result<(), AllocError> {
        self.push(RuleLine { line, rule: *rule })?;
        Ok(())
    }
}

// A sink, and how many rules it was given.
#[derive(Drop)]
struct Counted<S> {
    sink: S,
    count: usize,
}

impl<S> Counted<S> {
    // Whether no further rule may come.
    fn is_full(&self) -> bool
        ensures { result ≡ nat_le most_rules self.now.count }
    {
        self.count >= MOST_RULES
    }
}

// Adds the rule of a line that is not skipped.
#[tactic(auto, unfolding(crate::specs::RuleText::rule_line, crate::specs::RuleText::counted_item))]
fn add_rule<S: RuleSink>(
    rules: &mut Counted<S>,
    line: usize,
    first: &[u8],
    rest: &[u8],
) -> Result<(), LineFault>
    requires { S.IsSound rules.old.sink }
    ensures made { Makes (counted_item S.with_rule line (S.made rules.old.sink, rules.old.count) (first.now ∷ words_of rest.now))
        result (S.made rules.new.sink, rules.new.count) }
    ensures sound { OnOk result (S.IsSound rules.new.sink) }
{
    let rule = rule_of_words(first, rest)?;
    if rules.is_full() {
        return Err(LineFault::Kind(TextKind::TooMany));
    }
    let Ok(()) = rules.sink.put(line, &rule) else {
        return Err(LineFault::Memory);
    };
    rules.count += 1;
    Ok(())
}

// Adds the rule of the first line of a text, where it is written with single spaces and there is room
// for it, and gives what stands behind it.
fn add_plain_rule<'a, S: RuleSink>(
    rules: &mut Counted<S>,
    line: usize,
    text: &'a [u8],
) -> Option<&'a [u8]>
    requires { S.IsSound rules.old.sink }
    ensures made { MatchOption result
        ((S.made rules.new.sink ≡ S.made rules.old.sink) × (rules.new.count ≡ rules.old.count))
        (λ rest. MakesFirst (counted_item S.with_rule line) (S.made rules.old.sink, rules.old.count) text.now
        (S.made rules.new.sink, rules.new.count) rest.now) }
    ensures sound { S.IsSound rules.new.sink }
{
    let Some(found) = cut_rule(text) else {
        return None;
    };
    if rules.is_full() {
        return None;
    }
    let Ok(()) = rules.sink.put(line, &found.0) else {
        return None;
    };
    rules.count += 1;
    Some(found.2)
}

impl<S: RuleSink> Items for Counted<S> {
    ghost Made = { S.Made × ℕ };

    ghost made = { λ rules. (S.made rules.sink, rules.count) };

    ghost item = { counted_item S.with_rule };

    ghost IsSound = { λ rules. S.IsSound rules.sink };

    fn add(&mut self, line: usize, first: &[u8], rest: &[u8]) -> Result<(), LineFault> {
        add_rule(self, line, first, rest)
    }

    fn add_likely<'a>(&mut self, line: usize, text: &'a [u8]) -> Option<&'a [u8]> {
        add_plain_rule(self, line, text)
    }
}

/// Gives a sink the rules of a text in turn, with their lines, and gives the sink back. No list of the
/// rules is made, which no contract says.
///
/// `At` names the first faulty line. Its kind is one of those of `read_rule`, or `TooMany` where
/// there are `MOST_RULES` rules already. `Memory` is answered where the sink was refused memory,
/// whatever stands further on. After an error the sink is gone.
pub fn read_rules_into<S: RuleSink + Drop>(sink: S, text: &[u8]) -> Result<S, TextFault>
    requires { S.IsSound sink }
    ensures value { Reads S.made result (rules_make S.with_rule (S.made sink) text.now) }
    ensures sound { IfOk result S.IsSound }
{
    let mut rules = Counted { sink, count: 0 };
    match read_lines(&mut rules, text) {
        Ok(_) => Ok(rules.sink),
        Err(fault) => Err(fault),
    }
}

/// The rules of a text, with their lines.
///
/// `At` names the first faulty line. Its kind is one of those of `read_rule`, or `TooMany` where
/// there are `MOST_RULES` rules already. `Memory` is answered where a growth was refused,
/// whatever stands further on.
pub fn read_rules(alloc: Global, text: &[u8]) -> Result<Vec<RuleLine>, TextFault>
    ensures value { Reads (λ rules. rules.items) result (rules_text text.now) }
    ensures named { IfOk result (λ rules. AreNamedLines rules.items) }
{
    read_rules_into(Vec::new(alloc), text)
}
