//! The sessions of a running store.
ghost use Rattle.std.specs.Prelude.{◌≡◌, ◌∷◌, ◌++◌, ◌<◌, [], IfOk, OnErr, length};
ghost use Rattle.tg_graph.specs.GraphOf.{graph_of};
ghost use Rattle.tg_graph.specs.StepWords.{IsNamedStep};
ghost use Rattle.tg_hall.specs.Answers.{IsAnswer, after_steps};
ghost use Rattle.tg_store.specs.Running.{RunningSession, IsSeat, IsSession, KnowsNoMore};
ghost use Rattle.tg_store.specs.Outcomes.{BeginSays, CommitSays, CommitFaultSays};
ghost use Rattle.tg_store.specs.Attempts.{AttemptSays, EndsBy, IsNext};
ghost use Rattle.tg_store.specs.declared.outcomes.Begun.TheVariants as Begun;
ghost use Rattle.tg_store.specs.declared.outcomes.Committed.TheVariants as Committed;
ghost use Rattle.tg_store.specs.declared.running_sessions.Attempt.TheVariants as Attempt;
ghost use Rattle.tg_store.specs.declared.weighing.Weighed.TheVariants as Weighed;

use crate::outcomes::{CommitFault, Committed, Receipt};
use crate::running_seats::{Look, Offered, Seat};
use crate::weighing::{self, Weighed};
use std::alloc::AllocError;
use std::marker::Model;
use tg_graph::{Draft, Reply, Step};
use tg_hall::{OpenSession, Record, Steps};
use tg_journal::{Journal, Put};

/// An open session at a seat of a running store.
#[derive(Drop)]
pub struct Session {
    seat: Seat,
    staged: OpenSession,
}

impl Model for Session {
    ghost use Rattle.tg_store.specs.Running.{RunningSession};
    ghost use Rattle.tg_hall.specs.Seats.{IsSessionOn};

    ghost Value = { RunningSession };

    ghost view = { λ s. record { seat = s.seat; steps = s.staged.kept.items } };

    ghost invariant = { λ s. IsSessionOn s.seat.graph s.staged };
}

/// What came of one attempt to commit a session.
#[derive(Drop)]
pub enum Attempt {
    /// The commit is over.
    Over(Committed),
    /// One record more was seen or taken in, and the session goes on.
    Further(Session),
}

impl Session {
    // A session without steps.
    pub(crate) fn open(seat: Seat) -> Session
        requires all { seat.taken ≡ length seat.pass.seen }
        requires no_more { KnowsNoMore seat }
        ensures { BeginSays seat (Begun.Session result) }
    {
        // its contract says what is true of the seat
        let _ = seat.taken();
        let staged = OpenSession::new(seat.graph(), seat.alloc());
        Session { seat, staged }
    }

    /// Stages a step, and answers it. Where memory is refused, nothing is staged.
    pub fn step(&mut self, step: Step) -> Result<Reply, AllocError>
        requires { IsNamedStep step }
        ensures reply { IfOk result
            (λ reply. IsAnswer (after_steps (graph_of self.old.seat.graph) self.old.steps) step
            reply) }
        ensures steps { IfOk result
            (λ reply. self.new.steps ≡ self.old.steps ++ (record { step = step; reply = reply })
            ∷ []) }
        ensures seat { self.new.seat ≡ self.old.seat }
        ensures err { OnErr result (self.new ≡ self.old) }
        ensures session { IsSession self.new }
    {
        let _ = self.seat.taken();
        self.staged.stage(self.seat.graph(), &step)
    }

    /// Gives the session up. Its seat comes back as it was.
    pub fn abort(self) -> Seat
        ensures value { result ≡ self.seat }
        ensures seat { IsSeat result }
    {
        let Session { seat, staged: _ } = self;
        let _ = seat.taken();
        seat
    }

    /// Gives up what the session knows of its graph from earlier questions, and says whether that took
    /// memory. No answer hangs on it, and steps and seat stay: it makes room for whatever its thread asks
    /// for next.
    pub fn give_up_known(&mut self) -> bool
        ensures { self.new ≡ self.old }
    {
        self.staged.give_up()
    }

    /// Whether it knows something that takes memory.
    pub fn knows_any(&self) -> bool {
        self.staged.knows_any()
    }

    // The same session, which knows nothing that takes memory.
    fn unknowing(self) -> Session
        ensures { result ≡ self }
    {
        let Session { seat, staged } = self;
        let staged = staged.unknowing();
        Session { seat, staged }
    }

    // What the next record that its seat has seen is to the session.
    fn weigh(&self, journal: &Journal<Record>) -> Result<Weighed, AllocError>
        requires cells { self.now.seat.pass.cells ≡ journal.now }
        requires left { self.now.seat.taken < length self.now.seat.pass.seen }
        ensures { IfOk result (IsNext self.now) }
    {
        let place = self.seat.taken();
        let Some(stored) = self.seat.at(journal, place) else {
            unreachable!()
        };
        weighing::weigh(
            self.seat.graph(),
            place,
            stored.steps.as_slice(),
            self.staged.kept.as_slice(),
        )
    }

    // Rests on the next record as well, whose draft this is. Its own draft is as it was.
    fn rest_on(self, draft: Draft) -> Attempt
        requires clear { IsNext self (Weighed.Clear draft) }
        requires left { self.seat.taken < length self.seat.pass.seen }
        ensures { AttemptSays self result }
    {
        let Session { mut seat, staged } = self;
        // these contracts say what is true of the seat and of its graph
        let _ = seat.taken();
        let _ = seat.graph().len();
        match seat.take_in(draft) {
            Ok(()) => {
                let staged = staged.unknowing();
                Attempt::Further(Session { seat, staged })
            }
            Err(AllocError) => Attempt::Over(Committed::Again(Session { seat, staged })),
        }
    }

    // Ends by a fault.
    fn end(self, fault: CommitFault) -> Attempt
        requires { CommitFaultSays self.steps fault self.seat }
        ensures says { AttemptSays self result }
        ensures ends { result ≡ Attempt.Over (Committed.Refused self.seat fault) }
    {
        Attempt::Over(Committed::Refused(self.abort(), fault))
    }

    // Rests on the next record that its seat has seen, or ends, by what that is to the session.
    fn rest_or_end(self, weighed: Weighed) -> Attempt
        requires next { IsNext self weighed }
        requires left { self.seat.taken < length self.seat.pass.seen }
        ensures says { AttemptSays self result }
        ensures ends { EndsBy self weighed result }
    {
        match weighed {
            Weighed::Clear(draft) => self.rest_on(draft),
            Weighed::Ends(fault) => self.end(fault),
        }
    }

    // Takes in the next record that its seat has seen, unless that ends the session.
    fn take_in(self, journal: &Journal<Record>) -> Attempt
        requires cells { self.seat.pass.cells ≡ journal.now }
        requires left { self.seat.taken < length self.seat.pass.seen }
        ensures { AttemptSays self result }
    {
        match self.weigh(journal) {
            Ok(weighed) => self.rest_or_end(weighed),
            Err(AllocError) => Attempt::Over(Committed::Again(self)),
        }
    }

    // Offers its record to the next cell, which it has not seen, or sees the one that got there first.
    fn offer(self, journal: &Journal<Record>) -> Attempt
        requires cells { self.seat.pass.cells ≡ journal.now }
        requires all { self.seat.taken ≡ length self.seat.pass.seen }
        requires free { length self.seat.pass.seen < length self.seat.pass.cells }
        ensures { AttemptSays self result }
    {
        let Session { seat, staged } = self;
        let (draft, kept) = staged.into_parts();
        let _ = seat.taken();
        let record = Record {
            seat: seat.number(),
            number: seat.commits(),
            steps: Steps::from_vec(kept),
        };
        let offered = seat.offer(journal, &record, draft);
        let kept = record.steps.into_vec();
        match offered {
            Offered::Won(seat, place) => Attempt::Over(Committed::Done(seat, Receipt { place })),
            Offered::Back(seat, draft, answer) => {
                let staged = OpenSession::of_parts(draft, kept);
                match answer {
                    Put::Won(_) => unreachable!(),
                    Put::Full => Attempt::Over(Committed::Refused(seat, CommitFault::JournalFull)),
                    Put::Foreign(place) => {
                        Attempt::Over(Committed::Refused(seat, CommitFault::Foreign(place)))
                    }
                    Put::Lost(_) => Attempt::Further(Session { seat, staged }),
                    Put::Memory => Attempt::Over(Committed::Again(Session { seat, staged })),
                }
            }
        }
    }

    // Puts its record. Whether a cell is free is looked at before room for the record is asked for.
    fn put(self, journal: &Journal<Record>) -> Attempt
        requires cells { self.seat.pass.cells ≡ journal.now }
        requires all { self.seat.taken ≡ length self.seat.pass.seen }
        ensures { AttemptSays self result }
    {
        if self.seat.is_full() {
            return self.end(CommitFault::JournalFull);
        }
        self.offer(journal)
    }

    // Puts its record where no further one is found.
    fn look(self, journal: &Journal<Record>) -> Attempt
        requires cells { self.seat.pass.cells ≡ journal.now }
        requires all { self.seat.taken ≡ length self.seat.pass.seen }
        ensures { AttemptSays self result }
    {
        let Session { mut seat, staged } = self;
        match seat.look(journal) {
            Look::Found => Attempt::Further(Session { seat, staged }),
            Look::Nothing => Session { seat, staged }.put(journal),
            Look::Foreign(place) => {
                Attempt::Over(Committed::Refused(seat, CommitFault::Foreign(place)))
            }
        }
    }

    /// Takes in one record more, sees one more, or puts the session where no further one is found.
    pub(crate) fn attempt(self, journal: &Journal<Record>) -> Attempt
        requires { self.seat.pass.cells ≡ journal.now }
        ensures { AttemptSays self result }
    {
        if self.seat.taken() < self.seat.seen() {
            self.take_in(journal)
        } else {
            self.look(journal)
        }
    }

    /// Takes in the records that are left, and puts the session after them.
    pub(crate) fn commit(self, journal: &Journal<Record>) -> Committed
        requires { self.seat.pass.cells ≡ journal.now }
        ensures { CommitSays self result }
    {
        // what it knows stands in the way of no request that is made from here on
        let mut session = self.unknowing();
        loop {
            match session.attempt(journal) {
                Attempt::Over(committed) => return committed,
                Attempt::Further(next) => session = next,
            }
        }
    }
}
