//! What the calls of a journal answer.
ghost use Rattle.std.specs.Prelude.{◌≡◌};
ghost use Rattle.tg_journal.specs.declared.answers.JournalFault.TheVariants as JournalFault;

use std::alloc::AllocError;

/// What `Journal::next` found. Places count from 0.
#[derive(Drop)]
pub enum Next<'a, R> {
    /// A record of another pass, which this pass has now seen.
    Entry(&'a R),
    /// No record was found, or the pass has seen every cell.
    End,
    /// The cell at this place holds a record of the pass's own number that the pass did not put.
    /// It has seen only the places before. No use of the passes with their own journal shows this.
    Foreign(usize),
}

/// What became of a record that was to be put. Places count from 0.
#[derive(Debug, Clone, Copy, PartialEq, Eq)]
pub enum Put {
    /// The pass has seen as many records as there are cells.
    Full,
    /// Memory ran out, and nothing was put.
    Memory,
    /// The record stands at this place.
    Won(usize),
    /// Another pass's record stands at this place, and this pass has now seen it.
    Lost(usize),
    /// The cell at this place holds a record of the pass's own number that the pass did not put.
    Foreign(usize),
}

/// Why no journal was made. The first that applies is answered.
#[derive(Debug, Clone, Copy, PartialEq, Eq)]
pub enum JournalFault {
    /// The number of cells is not 1 to 4,096.
    Cells,
    /// The number of passes is not 1 to 64.
    Seats,
    /// Memory ran out.
    Memory,
}

impl From<AllocError> for JournalFault {
    ghost from_gives = { λ _ e. e ≡ JournalFault.Memory };

    fn from(_: AllocError) -> JournalFault {
        JournalFault::Memory
    }
}

/// Why a pass has not seen all that a front has.
#[derive(Debug, Clone, Copy, PartialEq, Eq)]
pub enum MeetFault {
    /// The cell at this place, counting from 0, holds a record of the pass's own number that the
    /// pass did not put. It has seen only the places before.
    Foreign(usize),
}
