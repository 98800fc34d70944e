//! Laws of the program's runs, and of the forms that it tells. The functions do nothing: the contract of each is the
//! law.
ghost use Rattle.officer.specs.FormLaws.{CallsHaveForms, OwnFormsAreNearest, WordsHaveCommonBeginnings};
ghost use Rattle.officer.specs.RunLaws.{RunsPrintReports};

/// A run that ends with a status has printed what the words ask for: the program's own text, or the report of a
/// call for the texts that were there. It has done nothing else; the status is the report's.
pub fn runs_print_reports()
    ensures { RunsPrintReports }
{}

/// The bytes that two words have in common at their beginnings, as they are counted, are the longest such beginning.
pub fn words_have_common_beginnings()
    ensures { WordsHaveCommonBeginnings }
{}

/// Where the first word is a command, its own form is the nearest.
pub fn own_forms_are_nearest()
    ensures { OwnFormsAreNearest }
{}

/// Each call of two words or more begins with a command that has a form.
pub fn calls_have_forms()
    ensures { CallsHaveForms }
{}
