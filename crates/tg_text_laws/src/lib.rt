//! Laws of the texts: what the readers accept, as grammars that know of no fault, and what is read
//! of that which was written. Each function does nothing: its contract is the law.
#![tactic(auto)]

ghost use Rattle.tg_text_laws.specs.CanonicalLaws.{EqualGraphsHaveOneText, NamesHaveOneOrder};
ghost use Rattle.tg_text.specs.RoundTrips.{GraphsAreReadAsWritten, ListsAreReadAsWritten, RulesAreReadAsWritten};
ghost use Rattle.tg_text.specs.GraphGrammar.{GraphTextsAreThose, GraphFaultsAreFirst};
ghost use Rattle.tg_text.specs.RuleGrammar.{RuleLinesAreThose, RulesTextsAreThose, RuleFaultsAreFirst};
ghost use Rattle.tg_text.specs.ScriptGrammar.{ScriptTextsAreThose, ScriptFaultsAreFirst};
ghost use Rattle.tg_text.specs.PolicyGrammar.{PolicyTextsAreThose, PolicyFaultsAreFirst};
ghost use Rattle.tg_text_laws.specs.PolicyKinds.{PolicyLineKinds, PolicyTextKinds, PolicyHasTheseKinds, NoClaimIsStatesNothing};
ghost use Rattle.tg_text.specs.PolicyTrips.{PoliciesAreReadAsWritten, ReadPoliciesFit};
ghost use Rattle.tg_text.specs.WordLaws.{LinesExactly, BlanksExactly, WordsExactly, NumberWordsExactly, NumbersAreDecimal};
ghost use Rattle.tg_text_laws.specs.FaultKinds.{GraphLineKinds, GraphTextKinds, OneRuleKinds, RuleLineKinds, RulesTextKinds, ScriptLineKinds, ScriptTextKinds, NoHeaderIsEndsEarly, GraphHasTheseKinds, OneRuleHasTheseKinds, RulesHaveTheseKinds, ScriptHasTheseKinds};

/// A text has a graph exactly where the grammar gives it that graph, and a fault names the
/// first line to which the grammar gives none.
pub fn graph_grammar()
    ensures texts { GraphTextsAreThose }
    ensures faults { GraphFaultsAreFirst }
{}

/// A line has a rule, and a text a list of rules, exactly where the grammar gives it that,
/// and a fault names the first line to which the grammar gives nothing.
pub fn rule_grammar()
    ensures lines { RuleLinesAreThose }
    ensures texts { RulesTextsAreThose }
    ensures faults { RuleFaultsAreFirst }
{}

/// A text has a script exactly where the grammar gives it that script, and a fault names the
/// first line to which the grammar gives nothing, or the line behind the last where a header line
/// is missing.
pub fn script_grammar()
    ensures texts { ScriptTextsAreThose }
    ensures faults { ScriptFaultsAreFirst }
{}

/// A text has the lines of a policy over a graph exactly where the grammar gives it these, and a fault
/// names the first line to which the grammar gives nothing, or the line behind the last where no line
/// states anything.
pub fn policy_grammar()
    ensures texts { PolicyTextsAreThose }
    ensures faults { PolicyFaultsAreFirst }
{}

/// A line of a graph is refused exactly with the least kind whose condition holds in it, and a text
/// exactly with its first faulty line and the least kind of that line.
pub fn graph_faults_have_the_least_kind()
    ensures lines { GraphLineKinds }
    ensures texts { GraphTextKinds }
    ensures kinds { GraphHasTheseKinds }
{}

/// A line that is to be one rule, and a line of rules, is refused exactly with the least kind whose
/// condition holds in it, and a text exactly with its first faulty line and the least kind of that
/// line.
pub fn rule_faults_have_the_least_kind()
    ensures one { OneRuleKinds }
    ensures one_kinds { OneRuleHasTheseKinds }
    ensures lines { RuleLineKinds }
    ensures texts { RulesTextKinds }
    ensures kinds { RulesHaveTheseKinds }
{}

/// A line of a script is refused exactly with the least kind whose condition holds in it, and a
/// text exactly with its first faulty line and the least kind of that line, or where it ends early.
pub fn script_faults_have_the_least_kind()
    ensures lines { ScriptLineKinds }
    ensures texts { ScriptTextKinds }
    ensures kinds { ScriptHasTheseKinds }
{}

/// A line of a policy is refused exactly with the least kind whose condition holds in it, and a text
/// exactly with its first faulty line and the least kind of that line, or where it states nothing.
pub fn policy_faults_have_the_least_kind()
    ensures lines { PolicyLineKinds }
    ensures texts { PolicyTextKinds }
    ensures kinds { PolicyHasTheseKinds }
{}

/// `NoHeader` comes exactly where the text of a script ends before both header lines, on the line
/// behind the last.
pub fn no_header_is_an_early_end()
    ensures { NoHeaderIsEndsEarly }
{}

/// `NoClaim` comes exactly where no line of a policy is faulty, and none states anything, on the line
/// behind the last.
pub fn no_claim_is_a_policy_that_states_nothing()
    ensures { NoClaimIsStatesNothing }
{}

/// The lines of a text are those that give it with a line feed behind each, but that the last one,
/// if it is not empty, may lack its own; and no line has a line feed in it.
pub fn lines_are_exact()
    ensures { LinesExactly }
{}

/// The words of a line are its longest runs without blanks, in turn; a blank is a space, a tab or a
/// carriage return.
pub fn words_are_exact()
    ensures blanks { BlanksExactly }
    ensures words { WordsExactly }
{}

/// A number is one to four digits, the first not 0, and its value is the one that they write in
/// decimal.
pub fn numbers_are_exact()
    ensures words { NumberWordsExactly }
    ensures values { NumbersAreDecimal }
{}

/// The name order of names is one list: each name once, each before those that are greater.
pub fn names_have_one_order()
    ensures { NamesHaveOneOrder }
{}

/// Equal graphs have one canonical text.
pub fn equal_graphs_have_one_text()
    ensures { EqualGraphsHaveOneText }
{}

/// A rule that was written is read as it was.
pub fn rules_are_read_as_written()
    ensures { RulesAreReadAsWritten }
{}

/// Rules that were written, one a line, are read as they were: up to `MOST_RULES` of them.
pub fn lists_are_read_as_written()
    ensures { ListsAreReadAsWritten }
{}

/// A graph of at most `MOST_VERTICES` vertices that was written is read as it was, its vertices in
/// name order.
pub fn graphs_are_read_as_written()
    ensures { GraphsAreReadAsWritten }
{}

/// Lines of a policy that were written are read as they were, on the lines 1, 2 and so on: up to
/// `MOST_POLICY_LINES` of them, of at most `MOST_LINE_BYTES` bytes each, one of which states something.
/// All that is read of a text is so.
pub fn policies_are_read_as_written()
    ensures written { PoliciesAreReadAsWritten }
    ensures read { ReadPoliciesFit }
{}
