//! What the calls of a running store answer.
use crate::running_seats::Seat;
use crate::running_sessions::Session;
use tg_graph::Name;

/// What came of beginning a session.
#[derive(Drop)]
pub enum Begun {
    /// A session without steps.
    Session(Session),
    /// No session was opened. The seat comes back.
    Refused(Seat, BeginFault),
}

/// Why no session was opened.
#[derive(Clone, Copy, PartialEq, Eq, Debug)]
pub enum BeginFault {
    /// The cell at the place holds a record of the seat's own number that the seat did not put.
    Foreign(usize),
    /// A request for memory was refused.
    Memory,
}

/// Where a session was put.
#[derive(Clone, Copy, PartialEq, Eq, Debug)]
pub struct Receipt {
    /// The place of its record.
    pub place: usize,
}

/// What came of committing a session.
#[derive(Drop)]
pub enum Committed {
    /// The session was put, and its seat comes back.
    Done(Seat, Receipt),
    /// The session has ended, and nothing was put.
    Refused(Seat, CommitFault),
    /// A request for memory was refused, and nothing was put. The session goes on.
    Again(Session),
}

/// Why a session was not put, in the order of the checks.
#[derive(Clone, Copy, PartialEq, Eq, Debug)]
pub enum CommitFault {
    /// The record at the place wrote a name that the session touches.
    Changed { place: usize, name: Name },
    /// With the record at the place the session would have too many vertices.
    Crowded { place: usize },
    /// Every cell has its record.
    JournalFull,
    /// The cell at the place holds a record of the seat's own number that the seat did not put.
    Foreign(usize),
}

/// Why a seat has not taken in all that a front has.
#[derive(Clone, Copy, PartialEq, Eq, Debug)]
pub enum StoreMeetFault {
    /// The cell at the place holds a record of the seat's own number that the seat did not put.
    Foreign(usize),
    /// A request for memory was refused.
    Memory,
}
