//! What a seat of a race does at its events, one after another.
ghost use Rattle.std.specs.Prelude.{◌≡◌};
ghost use Rattle.tg_store.specs.Running.{IsOf, IsSeat};
ghost use Rattle.tg_graph.specs.StepWords.{IsStageableAct};
ghost use Rattle.tg_plays.specs.Races.{seat_at, unopened_reply, fault_reply, OpensSession, Stages, CommitsSession, Turns};

use std::alloc::AllocError;
use tg_graph::{Act, Step};
use tg_store::{
    BeginFault, Begun, CommitFault, Committed, HallFault, HallReply, Seat, Session, Store,
};

/// A seat between two events.
#[derive(Drop)]
pub enum Player {
    /// No session is open.
    Free(Seat),
    /// This session is open.
    Open(Session),
}

/// What an event of a race came to.
#[derive(Clone, Copy, PartialEq, Eq, Debug)]
pub enum RaceReply {
    /// What it may come to in a hall too.
    Told(HallReply),
    /// The cell at the place holds a record of the seat's own number that the seat did not put.
    Foreign(usize),
    /// Memory was refused.
    Memory,
}

impl Player {
    // The seat. A session that is open is given up.
    pub(crate) fn into_seat(self) -> Seat
        ensures value { result ≡ seat_at self }
        ensures seat { IsSeat result }
    {
        match self {
            Player::Free(seat) => {
                // its contract says what is true of each seat
                let _ = seat.taken();
                seat
            }
            Player::Open(session) => session.abort(),
        }
    }

    /// Gives up what an open session knows from earlier questions, and says whether that took memory.
    pub(crate) fn give_up_known(&mut self) -> bool
        ensures { self.new ≡ self.old }
    {
        match self {
            Player::Free(_) => false,
            Player::Open(session) => session.give_up_known(),
        }
    }
}

// An event that is refused.
fn refused(fault: HallFault) -> RaceReply
    ensures { result ≡ RaceReply.Told (HallReply.Refused fault) }
{
    RaceReply::Told(HallReply::Refused(fault))
}

// Why no session was opened, as it is told.
fn unopened_reply(fault: BeginFault) -> RaceReply
    ensures { result ≡ unopened_reply fault }
{
    match fault {
        BeginFault::Foreign(place) => RaceReply::Foreign(place),
        BeginFault::Memory => RaceReply::Memory,
    }
}

// Opens a session.
fn begin(store: &Store, seat: Seat) -> (Player, RaceReply)
    requires { IsOf store.now seat }
    ensures { OpensSession seat result.1 result.0 }
{
    match store.begin(seat) {
        Begun::Session(session) => (Player::Open(session), RaceReply::Told(HallReply::Done)),
        Begun::Refused(seat, fault) => (Player::Free(seat), unopened_reply(fault)),
    }
}

// Stages a step.
fn stage(session: Session, step: Step) -> (Player, RaceReply)
    requires { IsStageableAct (Act.Stage step) }
    ensures { Stages session step result.1 result.0 }
{
    let mut session = session;
    match session.step(step) {
        Ok(reply) => (
            Player::Open(session),
            RaceReply::Told(HallReply::Said(reply)),
        ),
        Err(AllocError) => (Player::Open(session), RaceReply::Memory),
    }
}

// Why a session was not put, as it is told.
fn fault_reply(fault: CommitFault) -> RaceReply
    ensures { result ≡ fault_reply fault }
{
    match fault {
        CommitFault::Changed { place, name } => refused(HallFault::Changed { place, name }),
        CommitFault::Crowded { place } => refused(HallFault::Crowded { place }),
        CommitFault::JournalFull => refused(HallFault::JournalFull),
        CommitFault::Foreign(place) => RaceReply::Foreign(place),
    }
}

// Commits a session. Where memory is refused, it stays open.
fn commit(store: &Store, session: Session) -> (Player, RaceReply)
    requires { IsOf store.now session.seat }
    ensures { CommitsSession session result.1 result.0 }
{
    match store.commit(session) {
        Committed::Done(seat, receipt) => (
            Player::Free(seat),
            RaceReply::Told(HallReply::Put(receipt.place)),
        ),
        Committed::Refused(seat, fault) => (Player::Free(seat), fault_reply(fault)),
        Committed::Again(session) => (Player::Open(session), RaceReply::Memory),
    }
}

// What a seat with no open session does.
fn free_turn(store: &Store, seat: Seat, act: &Act) -> (Player, RaceReply)
    requires { IsOf store.now seat }
    ensures { Turns (Player.Free seat) act.now result.1 result.0 }
{
    match *act {
        Act::Begin => begin(store, seat),
        Act::Stage(_) | Act::Commit | Act::Abort => {
            (Player::Free(seat), refused(HallFault::NotOpen))
        }
    }
}

// What a seat does in its open session.
fn open_turn(store: &Store, session: Session, act: &Act) -> (Player, RaceReply)
    requires seat { IsOf store.now session.seat }
    requires act { IsStageableAct act.now }
    ensures { Turns (Player.Open session) act.now result.1 result.0 }
{
    match *act {
        Act::Begin => (Player::Open(session), refused(HallFault::AlreadyOpen)),
        Act::Stage(step) => stage(session, step),
        Act::Commit => commit(store, session),
        Act::Abort => (
            Player::Free(session.abort()),
            RaceReply::Told(HallReply::Done),
        ),
    }
}

/// Has a seat do what an event says.
pub(crate) fn turn(store: &Store, player: Player, act: &Act) -> (Player, RaceReply)
    requires seat { IsOf store.now (seat_at player) }
    requires act { IsStageableAct act.now }
    ensures { Turns player act.now result.1 result.0 }
{
    match player {
        Player::Free(seat) => free_turn(store, seat, act),
        Player::Open(session) => open_turn(store, session, act),
    }
}
