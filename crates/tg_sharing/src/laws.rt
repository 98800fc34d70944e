//! Laws: what lists of rules can lead to, and how long a derivation is.
ghost use Rattle.tg_sharing.specs.Derivations.{DerivationsAreShort};
ghost use Rattle.tg_sharing.specs.SetDerivations.{OneRightAlone, DerivationsOfAllAreShort, CreatedAreNew};

pub use tg_islands::laws::{
    few_rules, flood_has_island, helpers_suffice, nothing_else, shared_exactly, stays_well,
    together,
};

/// A derivation has at most four rules for each vertex but one.
pub fn derivations_are_short()
    ensures { DerivationsAreShort }
{}

/// Of a set of one right, a derivation of the set is one of the right.
pub fn one_right_alone()
    ensures { OneRightAlone }
{}

/// A derivation of a set has at most four rules for each right of it and each vertex but one.
pub fn derivations_of_all_are_short()
    ensures { DerivationsOfAllAreShort }
{}

/// Accepted rules create no name twice, and none that is a vertex before them.
pub fn created_are_new()
    ensures { CreatedAreNew }
{}
