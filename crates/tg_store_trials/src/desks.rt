//! A store and its two seats, which act in turn.
ghost use Rattle.std.specs.Prelude.{◌≡◌, IfSome};
ghost use Rattle.tg_graph.specs.StepWords.{IsStageableAct, IsNamedStep};
ghost use Rattle.tg_store.specs.Running.{IsOf};
ghost use Rattle.tg_store_trials.specs.Chairs.{IsAt};
ghost use Rattle.tg_store_trials.specs.declared.desks.Chair.TheVariants as Chair;

use crate::seats::{agreeing, lonely, met};
use std::alloc::AllocError;
use std::mem;
use tg_graph::{Act, Step};
use tg_hall_trials::{Row, act_of, is_reply};
use tg_store::{Begun, CommitFault, Committed, HallFault, HallReply, Seat, Session, Store};

// A seat that is free, its session, or nobody, while an act goes on.
#[derive(Drop)]
enum Chair {
    Free(Seat),
    Busy(Session),
    Empty,
}

/// A store and its two seats.
#[derive(Drop)]
pub struct Desk {
    store: Store,
    one: Chair,
    two: Chair,
    ghost one_at: { IsAt store one },
    ghost two_at: { IsAt store two },
}

fn begin(store: &Store, seat: Seat) -> (Chair, HallReply)
    requires { IsOf store.now seat }
    ensures { IsAt store.now result.0 }
{
    match store.begin(seat) {
        Begun::Session(session) => (Chair::Busy(session), HallReply::Done),
        Begun::Refused(seat, _) => (Chair::Free(seat), HallReply::Refused(HallFault::Memory)),
    }
}

fn stage(session: Session, step: Step) -> (Session, HallReply)
    requires { IsNamedStep step }
    ensures { result.0.seat ≡ session.seat }
{
    let mut session = session;
    let reply = match session.step(step) {
        Ok(reply) => HallReply::Said(reply),
        Err(AllocError) => HallReply::Refused(HallFault::Memory),
    };
    (session, reply)
}

// The reply of a hall that a refused commit is; a foreign record is none.
fn refused(fault: CommitFault) -> Option<HallReply> {
    match fault {
        CommitFault::Changed { place, name } => {
            Some(HallReply::Refused(HallFault::Changed { place, name }))
        }
        CommitFault::Crowded { place } => Some(HallReply::Refused(HallFault::Crowded { place })),
        CommitFault::JournalFull => Some(HallReply::Refused(HallFault::JournalFull)),
        CommitFault::Foreign(_) => None,
    }
}

fn commit(store: &Store, session: Session) -> (Chair, Option<HallReply>)
    requires { IsOf store.now session.seat }
    ensures { IsAt store.now result.0 }
{
    match store.commit(session) {
        Committed::Done(seat, receipt) => (Chair::Free(seat), Some(HallReply::Put(receipt.place))),
        Committed::Refused(seat, fault) => (Chair::Free(seat), refused(fault)),
        Committed::Again(session) => (
            Chair::Busy(session),
            Some(HallReply::Refused(HallFault::Memory)),
        ),
    }
}

// An act of a free seat.
fn act_free(store: &Store, seat: Seat, act: &Act) -> (Chair, HallReply)
    requires { IsOf store.now seat }
    ensures { IsAt store.now result.0 }
{
    match *act {
        Act::Begin => begin(store, seat),
        _ => (Chair::Free(seat), HallReply::Refused(HallFault::NotOpen)),
    }
}

// An act in a session.
fn act_busy(store: &Store, session: Session, act: &Act) -> (Chair, Option<HallReply>)
    requires of { IsOf store.now session.seat }
    requires stageable { IsStageableAct act.now }
    ensures { IsAt store.now result.0 }
{
    match *act {
        Act::Begin => (
            Chair::Busy(session),
            Some(HallReply::Refused(HallFault::AlreadyOpen)),
        ),
        Act::Stage(step) => {
            let (session, reply) = stage(session, step);
            (Chair::Busy(session), Some(reply))
        }
        Act::Commit => commit(store, session),
        Act::Abort => (Chair::Free(session.abort()), Some(HallReply::Done)),
    }
}

// An act of a seat, and what a hall would say of what came of it.
fn act(store: &Store, chair: Chair, act: &Act) -> (Chair, Option<HallReply>)
    requires at { IsAt store.now chair }
    requires stageable { IsStageableAct act.now }
    ensures { IsAt store.now result.0 }
{
    match chair {
        Chair::Free(seat) => {
            let (chair, reply) = act_free(store, seat, act);
            (chair, Some(reply))
        }
        Chair::Busy(session) => act_busy(store, session, act),
        Chair::Empty => (Chair::Empty, None),
    }
}

// The seat in a chair, where it is free.
fn free_seat(chair: Chair) -> Option<Seat>
    ensures { IfSome result (λ seat. chair ≡ Chair.Free seat) }
{
    match chair {
        Chair::Free(seat) => Some(seat),
        Chair::Busy(_) | Chair::Empty => None,
    }
}

impl Desk {
    /// A desk at the store with these two seats of it, of the numbers 1 and 2.
    pub fn new(store: Store, one: Seat, two: Seat) -> Desk
        requires one { IsOf store one }
        requires two { IsOf store two }
    {
        Desk {
            store,
            one: Chair::Free(one),
            two: Chair::Free(two),
        }
    }

    fn chair(&self, number: u32) -> &Chair
        ensures { IsAt self.now.store result.now }
    {
        if number == 1 { &self.one } else { &self.two }
    }

    /// The seat of the number, 1 or 2; `None` where it is in a session.
    pub fn seat(&self, number: u32) -> Option<&Seat> {
        match self.chair(number) {
            Chair::Free(seat) => Some(seat),
            Chair::Busy(_) | Chair::Empty => None,
        }
    }

    fn act(&mut self, number: u32, deed: &Act) -> Option<HallReply>
        requires { IsStageableAct deed.now }
    {
        if number == 1 {
            let chair = mem::replace(&mut self.one, Chair::Empty);
            let (chair, reply) = act(&self.store, chair, deed);
            self.one = chair;
            reply
        } else {
            let chair = mem::replace(&mut self.two, Chair::Empty);
            let (chair, reply) = act(&self.store, chair, deed);
            self.two = chair;
            reply
        }
    }

    // Whether the act of the row is answered as the row says.
    fn is_answered_so(&mut self, row: &Row) -> bool {
        let (number, deed, word) = *row;
        let Some(deed) = act_of(deed) else {
            return false;
        };
        match self.act(number, &deed) {
            Some(reply) => is_reply(word, reply),
            None => false,
        }
    }

    /// Plays the rows as acts of the seats up to the first that is not answered so, and says which that is; `None`
    /// where all are.
    pub fn play(&mut self, rows: &[Row]) -> Option<usize> {
        for at in 0..rows.len() {
            if !self.is_answered_so(&rows[at]) {
                return Some(at);
            }
        }
        None
    }

    // Both seats, where both are free. Else the desk has lost them.
    fn both(&mut self) -> Option<(Seat, Seat)>
        ensures seats { IfSome result (λ r. IsOf self.old.store r.0 × IsOf self.old.store r.1) }
        ensures store { self.new.store ≡ self.old.store }
    {
        let one = mem::replace(&mut self.one, Chair::Empty);
        let two = mem::replace(&mut self.two, Chair::Empty);
        let (one, two) = (free_seat(one)?, free_seat(two)?);
        Some((one, two))
    }

    /// The second seat sees what the first has seen; `None` where one is in a session, or memory is refused.
    pub fn meet(&mut self) -> Option<()> {
        let (one, two) = self.both()?;
        let two = met(&self.store, two, &one)?;
        self.one = Chair::Free(one);
        self.two = Chair::Free(two);
        Some(())
    }

    /// Whether the seat of the number knows a record at the place; `None` where it is in a session.
    pub fn knows(&self, number: u32, place: usize) -> Option<bool> {
        match self.chair(number) {
            Chair::Free(seat) => Some(self.store.at(seat, place).is_some()),
            Chair::Busy(_) | Chair::Empty => None,
        }
    }

    /// Whether the two seats agree; `None` where one is in a session.
    pub fn agreed(&mut self) -> Option<bool> {
        let (one, two) = self.both()?;
        let (one, two, agreed) = agreeing(&self.store, one, two);
        self.one = Chair::Free(one);
        self.two = Chair::Free(two);
        Some(agreed)
    }

    /// Whether the second seat agrees with itself alone; `None` where it is in a session.
    pub fn agreed_alone(&mut self) -> Option<bool> {
        let two = free_seat(mem::replace(&mut self.two, Chair::Empty))?;
        let (two, agreed) = lonely(&self.store, two);
        self.two = Chair::Free(two);
        Some(agreed)
    }
}
