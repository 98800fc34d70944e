//! Why a question about sharing has no answer.
use std::alloc::AllocError;
use tg_graph::Name;

/// Why a question about sharing has no answer.
#[derive(Clone, Copy, PartialEq, Eq, Debug)]
pub enum AskFault {
    /// The name, the first of those asked about, is no vertex.
    Unknown(Name),
    /// The graph has more than `MOST_VERTICES` vertices.
    TooLarge,
    /// There was no memory.
    Memory,
}

impl From<AllocError> for AskFault {
    ghost use Rattle.std.specs.Prelude.{◌≡◌};
    ghost use Rattle.tg_islands.specs.declared.questions.AskFault.TheVariants.{Memory};

    ghost from_gives = { λ _ fault. fault ≡ Memory };

    fn from(_error: AllocError) -> AskFault {
        AskFault::Memory
    }
}
