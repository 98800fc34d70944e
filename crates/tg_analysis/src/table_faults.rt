//! Why there is no table of all pairs.
use std::alloc::AllocError;

/// Why there is no table of all pairs. Where several reasons are there, the first of this list is
/// meant.
#[derive(Clone, Copy, PartialEq, Eq, Debug)]
pub enum TableFault {
    /// The number of workers is not 1 to 16.
    Workers,
    /// The graph has more than `MOST_VERTICES` vertices.
    TooLarge,
    /// There was no memory.
    Memory,
}

impl From<AllocError> for TableFault {
    ghost use Rattle.std.specs.Prelude.{◌≡◌};
    ghost use Rattle.tg_analysis.specs.declared.table_faults.TableFault.TheVariants.{Memory};

    ghost from_gives = { λ _ fault. fault ≡ Memory };

    fn from(_error: AllocError) -> TableFault {
        TableFault::Memory
    }
}
