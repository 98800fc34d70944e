//! The four rules, and the reasons to refuse one.
ghost use Rattle.std.specs.Prelude.{◌≡◌};

use std::alloc::AllocError;
use tg_names::{Name, Rights};

/// A rule that changes a graph. Its vertices may coincide.
///
/// The rights have no bit but those of the seven rights.
#[derive(Clone, Copy, PartialEq, Eq, Debug)]
pub enum Rule {
    /// x, which has `t` over y, takes rights that y has over z.
    Take {
        x: Name,
        y: Name,
        z: Name,
        rights: Rights,
    },
    /// x, which has `g` over y, grants y rights that x has over z.
    Grant {
        x: Name,
        y: Name,
        z: Name,
        rights: Rights,
    },
    /// x creates the vertex n, over which it then has exactly these rights.
    Create {
        x: Name,
        n: Name,
        rights: Rights,
    },
    /// x gives up these rights over y, as far as it has them.
    Remove {
        x: Name,
        y: Name,
        rights: Rights,
    },
}

/// Why a rule is refused. Where several reasons are there, the first of this list is meant.
#[derive(Clone, Copy, PartialEq, Eq, Debug)]
pub enum Refusal {
    /// A vertex of the rule is not in the graph: the first one in the order written. The new vertex
    /// of a create is not meant.
    Unknown(Name),
    /// The vertex to create is in the graph.
    Taken(Name),
    /// The rule is no create, and carries no rights.
    Empty,
    /// A take where x has no `t` over y.
    NoTake,
    /// A grant where x has no `g` over y.
    NoGrant,
    /// These rights of the rule are not held over z: by y in a take, by x in a grant.
    NotHeld(Rights),
    /// A create in a session whose graph has as many vertices as it may. A graph never answers it.
    Full,
}

/// Why a rule was not carried out.
#[derive(Clone, Copy, PartialEq, Eq, Debug)]
pub enum RuleFault {
    /// The graph does not accept the rule.
    Refused(Refusal),
    /// A request for memory was refused, or a row has no number below 2^24 for a target: for that of an edge
    /// which the rule adds, as `EdgeFault::Memory` says, or where a remove takes an edge out of a row with
    /// an edge to each of more than 2^24 shared names.
    Memory,
}

impl From<AllocError> for RuleFault {
    ghost use Rattle.std.specs.Prelude.{◌≡◌};
    ghost use Rattle.tg_graph.specs.declared.rules.RuleFault.TheVariants.{Memory};

    ghost from_gives = { λ _ fault. fault ≡ Memory };

    fn from(_error: AllocError) -> RuleFault {
        RuleFault::Memory
    }
}

impl From<Refusal> for RuleFault {
    ghost use Rattle.std.specs.Prelude.{◌≡◌};
    ghost use Rattle.tg_graph.specs.declared.rules.RuleFault.TheVariants.{Refused};

    ghost from_gives = { λ refusal fault. fault ≡ Refused refusal };

    fn from(refusal: Refusal) -> RuleFault {
        RuleFault::Refused(refusal)
    }
}
