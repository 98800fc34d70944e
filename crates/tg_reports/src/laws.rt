//! Laws of the reports. Each function does nothing: its contract is the law.
ghost use Rattle.tg_reports.specs.ReportLaws.{CanonicalTextsStay, CutTextsMakeItNo, CutsFit, CutsMakeItNo, DerivationsBelowGiveTheRight, DerivationsGiveTheRights, IslandsAreLines, KeptPoliciesHold, ReachIsARow, ReadDerivationsBelowGiveTheRight, ReadDerivationsGiveTheRights, RulesStopAtRefusal, ThereIsOneReport, WhoIsAColumn};
ghost use Rattle.tg_policies.specs.Policies.{KeptExactly, VerdictsAreOne};

use tg_text_laws::equal_graphs_have_one_text;

/// A report of rules shows those up to the first that is refused, and the graph that they lead to.
pub fn rules_stop_at_refusal()
    ensures { RulesStopAtRefusal }
{}

/// The report of a derivation on a graph of at most `MOST_VERTICES` is a text of rules: carried out
/// on the same graph, none is refused, and they give each of the rights that were asked for. So it
/// is wherever the question was read from texts.
pub fn derivations_give_the_rights()
    ensures small { DerivationsGiveTheRights }
    ensures read { ReadDerivationsGiveTheRights }
{}

/// Rules that stand below a line of a policy, on a graph of at most `MOST_VERTICES`, are a text of rules:
/// carried out on the same graph, none is refused, and they give the right that breaks the line. So it is
/// wherever graph and policy were read from texts.
pub fn derivations_below_give_the_right()
    ensures small { DerivationsBelowGiveTheRight }
    ensures read { ReadDerivationsBelowGiveTheRight }
{}

/// The rules of a cut, however many, are accepted in turn, and x can't come to have the right then. The report of
/// a cut is a text of its rules, if they are no more than a text may have: carried out on the same graph, none is
/// refused, and x can't come to have the right then. Without kept edges they are never more.
pub fn cuts_make_it_no()
    ensures no { CutsMakeItNo }
    ensures texts { CutTextsMakeItNo }
    ensures fit { CutsFit }
{}

/// What is printed of a graph of at most `MOST_VERTICES` by `check` is printed again as it stands.
pub fn canonical_texts_stay()
    ensures { CanonicalTextsStay }
{
    equal_graphs_have_one_text();
}

/// A command has one report for its texts, but that other rules may be found: as the report of `derive`, or
/// below lines of a policy where derivations are asked for.
pub fn there_is_one_report()
    ensures { ThereIsOneReport }
{}

/// What is printed for the islands of a graph is one line for each, and each vertex stands on one
/// of them, once.
pub fn islands_are_lines()
    ensures { IslandsAreLines }
{}

/// What `who` prints for one right is the column of the table of that right: the vertices with a 1.
pub fn who_is_a_column()
    ensures { WhoIsAColumn }
{}

/// What `reach` prints is the row of the tables of all rights: for each vertex the rights with a 1.
pub fn reach_is_a_row()
    ensures { ReachIsARow }
{}

/// A report of a policy ends with `kept`, and has status 0, exactly where each line holds by the groups that
/// the lines above it made; and the verdicts on the lines are the same whether derivations are told or not. A
/// report of two texts ends with `kept` only where the second is a policy over the graph of the first, and
/// some line of it states something.
pub fn kept_where_each_line_holds()
    ensures kept { KeptExactly }
    ensures read { KeptPoliciesHold }
    ensures one { VerdictsAreOne }
{}
