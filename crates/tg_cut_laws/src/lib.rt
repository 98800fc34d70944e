//! Laws of least cuts: there is one, when it has no rule, that its rules are accepted, and how many they are.
//! Each is the contract of a function that does nothing.
#![tactic(auto)]

ghost use Rattle.tg_cut_laws.specs.CutLaws.{ThereIsOneCut, NoRuleWhereNo, NotBoth, CutsAreAccepted, CutsAreShort};

/// A graph has one least cut that is nearest to x and takes no right that need not go.
pub fn there_is_one_cut()
    ensures { ThereIsOneCut }
{}

/// It has no rule exactly where x can't come to have the right; and where there is one, the kept edges leave it.
pub fn cuts_say_no()
    ensures no_rule { NoRuleWhereNo }
    ensures not_both { NotBoth }
{}

/// The rules of a cut are accepted in turn.
pub fn cuts_are_accepted()
    ensures { CutsAreAccepted }
{}

/// Where no edge is kept a cut has no more rules than the graph has vertices.
pub fn cuts_are_short()
    ensures { CutsAreShort }
{}
