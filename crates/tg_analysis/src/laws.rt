//! Laws: what lists of rules can lead to, which are those of `tg_islands`, and how long a derivation is, which are
//! those of `tg_sharing`.
pub use tg_islands::laws::{
    few_rules, flood_has_island, helpers_suffice, nothing_else, shared_exactly, stays_well,
    together,
};
pub use tg_sharing::laws::{
    created_are_new, derivations_are_short, derivations_of_all_are_short, one_right_alone,
};
