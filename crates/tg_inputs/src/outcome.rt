//! What the work on a report comes to.
use std::alloc::AllocError;

/// A report: its bytes, and the status that the program ends with.
#[derive(Drop)]
pub struct Report {
    pub bytes: Vec<u8>,
    pub status: u8,
}

/// Why the work on a report ends early.
#[derive(Drop)]
pub enum Halt {
    /// An input was refused, and this is the report.
    Refused(Report),
    /// There is no memory.
    Memory,
}

impl From<AllocError> for Halt {
    ghost use Rattle.std.specs.Prelude.{◌≡◌};
    ghost use Rattle.tg_inputs.specs.declared.outcome.Halt.TheVariants.{Memory};

    ghost from_gives = { λ _ halt. halt ≡ Memory };

    fn from(_error: AllocError) -> Halt {
        Halt::Memory
    }
}
