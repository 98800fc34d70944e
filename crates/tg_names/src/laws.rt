//! Laws of the definitions that contracts cite. Each is the contract of a function that does
//! nothing: a proof that calls it may use the law.
ghost use Rattle.tg_names.specs.Laws.{NamesExactly, PrefixFirst, DifferenceDecides, RightsWordsExactly, LettersInOrder, LettersComeBack, DashIsEmpty};

/// A name is 1 to 16 bytes, each a letter from a to z, a digit or `_`, and the first is no digit.
pub fn names_are_exact()
    ensures { NamesExactly }
{}

/// Names are ordered by their bytes, a prefix first.
pub fn names_are_ordered_by_bytes()
    ensures prefix { PrefixFirst }
    ensures difference { DifferenceDecides }
{}

/// A rights word is `-`, or letters of `t`, `g`, `r`, `w`, `e`, `a` and `d`, none twice. It is read
/// as the set of exactly the rights whose letters it has, and no other bytes are read. The letters
/// of a set are in that order, and read as the set.
pub fn rights_words_are_exact()
    ensures read { RightsWordsExactly }
    ensures order { LettersInOrder }
    ensures back { LettersComeBack }
    ensures dash { DashIsEmpty }
{}
