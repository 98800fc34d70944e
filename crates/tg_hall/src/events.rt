//! What happens at a hall, and what it answers.
use std::alloc::AllocError;
use tg_graph::{Name, Reply, Step};

/// One event at a seat, which is named by its number.
#[derive(Clone, Copy, PartialEq, Eq, Debug)]
pub enum Event {
    /// To open a session.
    Begin(u32),
    /// To take in the next record.
    Learn(u32),
    /// To stage a step in the open session.
    Stage(u32, Step),
    /// To put the open session into the history, or to take in the next record where one is left.
    Put(u32),
    /// To give up the open session.
    Abort(u32),
}

/// Why an event was refused, in the order of the checks.
#[derive(Clone, Copy, PartialEq, Eq, Debug)]
pub enum HallFault {
    /// There is no seat of that number.
    NoSeat,
    /// A session is open already.
    AlreadyOpen,
    /// No session is open.
    NotOpen,
    /// The record at the place wrote a name that the session touches. The session has ended.
    Changed { place: usize, name: Name },
    /// With the record at the place the session would have too many vertices. The session has
    /// ended.
    Crowded { place: usize },
    /// Every cell has its record. The session has ended.
    JournalFull,
    /// Memory was refused, and nothing has changed.
    Memory,
}

/// The answer to an event.
#[derive(Clone, Copy, PartialEq, Eq, Debug)]
pub enum HallReply {
    /// The session was opened, or given up.
    Done,
    /// The record at the place was taken in.
    Learned(usize),
    /// No record was left to take in.
    Nothing,
    /// The reply to the staged step.
    Said(Reply),
    /// The session stands in the history at the place.
    Put(usize),
    /// The event was refused.
    Refused(HallFault),
}

/// Why no hall was made, in the order of the checks.
#[derive(Clone, Copy, PartialEq, Eq, Debug)]
pub enum StoreFault {
    /// The opening graph has more vertices than a session may have.
    TooManyVertices,
    /// The number of cells is not 1 to `MOST_CELLS`.
    Cells,
    /// The number of seats is not 1 to `MOST_SEATS`.
    Seats,
    /// Memory was refused.
    Memory,
}

impl From<AllocError> for StoreFault {
    ghost use Rattle.std.specs.Prelude.{◌≡◌};
    ghost use Rattle.tg_hall.specs.declared.events.StoreFault.TheVariants.{Memory};

    ghost from_gives = { λ _ fault. fault ≡ Memory };

    fn from(_error: AllocError) -> StoreFault {
        StoreFault::Memory
    }
}
