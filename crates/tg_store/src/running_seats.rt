//! The seats of a running store.
ghost use Rattle.std.specs.Prelude.{◌≡◌, ◌↔◌, ◌∷◌, ◌++◌, ◌+◌, ◌<◌, ◌≤◌, [], IsTrue, IfOk, OnOk, OnErr, IfSome, IfErr, length, slice_get, take};
ghost use Rattle.std.specs.Arc.{arc_value};
ghost use Rattle.std.specs.Option.{option_copied};
ghost use Rattle.tg_graph.specs.GraphOf.{graph_of};
ghost use Rattle.tg_journal.specs.Pass.{IsPass};
ghost use Rattle.tg_journal.specs.Lists.{Begins};
ghost use Rattle.tg_graph.specs.Drafts.{Fits, laid_over};
ghost use Rattle.tg_hall.specs.Answers.{AreAnswers, after_steps};
ghost use Rattle.tg_hall.specs.Drafted.{drafted};
ghost use Rattle.tg_store.specs.Offers.{OfferSays};
ghost use Rattle.tg_store.specs.Running.{RunningSeat, seat_number, seat_from, seen_graph, IsSeat, KnowsNoMore, GoesOn, PutsNothing};
ghost use Rattle.tg_store.specs.Outcomes.{FindsForeign, HasSeenLonger, MeetingEnds};
ghost use Rattle.tg_store.specs.declared.outcomes.StoreMeetFault.TheVariants as StoreMeetFault;
ghost use Rattle.tg_store.specs.Looks.{is_found, LookSays};

use std::alloc::{AllocError, Global};
use std::marker::Model;
use std::sync::Arc;
use tg_graph::{Draft, Graph, Ready};
use tg_hall::Record;
use tg_journal::{Front, Journal, MeetFault, Next, Pass, Put};

/// A seat of a running store, for one thread. `Store::start` makes it, and it stays with that
/// store.
///
/// It knows the records that it has seen, and has a graph, which is the replay of those that it has
/// taken in. It shares no row of it with another seat.
#[derive(Drop)]
pub struct Seat {
    opening: Arc<Graph, Global>,
    pass: Pass<Record>,
    taken: usize,
    graph: Graph,
    alloc: Global,
}

impl Model for Seat {
    ghost use Rattle.tg_store.specs.Running.{RunningSeat, IsSeat};

    ghost Value = { RunningSeat };

    ghost view = { λ s. record { opening = s.opening.value; pass = s.pass; taken = s.taken; graph = s.graph } };

    ghost invariant = { λ s.
        IsSeat (record { opening = s.opening.value; pass = s.pass; taken = s.taken; graph = s.graph }) };
}

/// What a look at the next cell finds.
#[derive(Clone, Copy, PartialEq, Eq, Debug)]
pub enum Look {
    /// A record, which the seat has now seen.
    Found,
    /// No record.
    Nothing,
    /// At the place, a record of the seat's own number that it did not put.
    Foreign(usize),
}

/// What came of a record that a seat offered.
#[derive(Drop)]
pub enum Offered {
    /// It stands at the place, and is taken in.
    Won(Seat, usize),
    /// It was not put, for this answer.
    Back(Seat, Draft, Put),
}

// Whether a record was found.
fn is_found(look: &Look) -> bool
    ensures { result ≡ is_found look.now }
{
    match *look {
        Look::Found => true,
        Look::Nothing | Look::Foreign(_) => false,
    }
}

impl Seat {
    /// A seat that has taken in nothing.
    pub(crate) fn start(
        opening: &Arc<Graph, Global>,
        alloc: Global,
        pass: Pass<Record>,
    ) -> Result<Seat, AllocError>
        requires pass { IsPass seat_number pass }
        requires seen { pass.seen ≡ [] }
        requires mine { pass.mine ≡ [] }
        ensures { IfOk result (λ seat. seat ≡ seat_from (arc_value opening.now) pass) }
    {
        let graph = opening.copy_unshared()?;
        Ok(Seat {
            opening: Arc::try_clone(opening)?,
            pass,
            taken: 0,
            graph,
            alloc,
        })
    }

    /// The seat's number. The seats of a store are numbered from 1.
    pub fn number(&self) -> u32
        ensures { result ≡ self.now.pass.number }
    {
        self.pass.number()
    }

    /// How many records the seat has taken in.
    pub fn taken(&self) -> usize
        ensures value { result ≡ self.now.taken }
        ensures seat { IsSeat self.now }
    {
        self.taken
    }

    /// The replay of the records that the seat has taken in.
    pub fn graph(&self) -> &Graph
        ensures value { result.now ≡ self.now.graph }
        ensures replayed { graph_of result.now ≡ seen_graph self.now self.now.taken }
    {
        &self.graph
    }

    // How many records it has seen.
    pub(crate) fn seen(&self) -> usize
        ensures { result ≡ length self.now.pass.seen }
    {
        self.pass.len()
    }

    // Whether each cell of its journal has a record that it has seen.
    pub(crate) fn is_full(&self) -> bool
        ensures full { IsTrue result ↔ (length self.now.pass.seen ≡ length self.now.pass.cells) }
        ensures seat { IsSeat self.now }
    {
        self.pass.is_full()
    }

    // How many records it has put.
    pub(crate) fn commits(&self) -> usize
        ensures { result ≡ length self.now.pass.mine }
    {
        self.pass.own()
    }

    pub(crate) fn alloc(&self) -> Global {
        self.alloc
    }

    // A seen record.
    pub(crate) fn at<'a>(&self, journal: &'a Journal<Record>, place: usize) -> Option<&'a Record>
        requires { self.now.pass.cells ≡ journal.now }
        ensures { option_copied result ≡ slice_get self.now.pass.seen place }
    {
        journal.at(&self.pass, place)
    }

    // The records that it has seen, to be met.
    pub(crate) fn front(&self, journal: &Journal<Record>) -> Result<Front<Record>, AllocError>
        requires { self.now.pass.cells ≡ journal.now }
        ensures cells { IfOk result (λ f. f.cells ≡ take (length f.seen) journal.now) }
        ensures seen { IfOk result (λ f. f.seen ≡ self.now.pass.seen) }
    {
        journal.front(&self.pass)
    }

    // Looks at the next cell.
    pub(crate) fn look(&mut self, journal: &Journal<Record>) -> Look
        requires { self.old.pass.cells ≡ journal.now }
        ensures { LookSays self.old result self.new }
    {
        match journal.next(&mut self.pass) {
            Next::Entry(_) => Look::Found,
            Next::End => Look::Nothing,
            Next::Foreign(place) => Look::Foreign(place),
        }
    }

    // Looks at one cell after another, for as long as there are records.
    pub(crate) fn look_all(&mut self, journal: &Journal<Record>) -> Result<(), usize>
        requires { self.old.pass.cells ≡ journal.now }
        ensures goes_on { GoesOn self.old self.new × PutsNothing self.old self.new }
        ensures seat { IsSeat self.new }
        ensures no_more { OnOk result (KnowsNoMore self.new) }
        ensures foreign { IfErr result (λ place. FindsForeign place self.new) }
    {
        let mut look = self.look(journal);
        while is_found(&look) {
            look = self.look(journal);
        }
        match look {
            Look::Foreign(place) => Err(place),
            Look::Found | Look::Nothing => Ok(()),
        }
    }

    // Takes in the next record that it has seen, whose draft this is. An error changes nothing.
    pub(crate) fn take_in(&mut self, draft: Draft) -> Result<(), AllocError>
        requires seen { self.old.taken < length self.old.pass.seen }
        requires fits { Fits self.old.graph draft }
        requires laid { drafted self.old.graph draft ≡ seen_graph self.old (self.old.taken + 1) }
        ensures pass { (self.new.opening ≡ self.old.opening) × (self.new.pass ≡ self.old.pass) }
        ensures graph { OnOk result (self.new.graph ≡ laid_over self.old.graph draft) }
        ensures taken { OnOk result (self.new.taken ≡ self.old.taken + 1) }
        ensures err { OnErr result (self.new ≡ self.old) }
        ensures seat { IsSeat self.new }
    {
        tg_hall::merge(&mut self.graph, draft)?;
        self.taken += 1;
        Ok(())
    }

    // Takes in the next record that it has seen. An error changes nothing.
    fn take_in_next(&mut self, journal: &Journal<Record>) -> Result<(), AllocError>
        requires cells { self.old.pass.cells ≡ journal.now }
        requires seen { self.old.taken < length self.old.pass.seen }
        ensures pass { (self.new.opening ≡ self.old.opening) × (self.new.pass ≡ self.old.pass) }
        ensures taken { OnOk result (self.new.taken ≡ self.old.taken + 1) }
        ensures err { OnErr result (self.new.taken ≡ self.old.taken) }
        ensures seat { IsSeat self.new }
    {
        let Some(stored) = journal.at(&self.pass, self.taken) else {
            unreachable!()
        };
        tg_hall::lay_all(&mut self.graph, stored.steps.as_slice())?;
        self.taken += 1;
        Ok(())
    }

    // Takes in all records that it has seen. Where memory is refused, it has taken in some of them.
    pub(crate) fn take_in_all(&mut self, journal: &Journal<Record>) -> Result<(), AllocError>
        requires { self.old.pass.cells ≡ journal.now }
        ensures goes_on { GoesOn self.old self.new × PutsNothing self.old self.new }
        ensures seat { IsSeat self.new }
        ensures pass { self.new.pass ≡ self.old.pass }
        ensures all { OnOk result (self.new.taken ≡ length self.new.pass.seen) }
    {
        for _ in self.taken()..self.seen() {
            self.take_in_next(journal)?;
        }
        Ok(())
    }

    // Puts a record of its own, which is true where it stands and whose draft this is, or sees the
    // one that got there first. All room is made before.
    pub(crate) fn offer(self, journal: &Journal<Record>, stored: &Record, draft: Draft) -> Offered
        requires cells { self.pass.cells ≡ journal.now }
        requires number { (stored.now.seat ≡ self.pass.number)
            × (stored.now.number ≡ length self.pass.mine) }
        requires answers { AreAnswers (graph_of self.graph) stored.now.steps }
        requires fits { Fits self.graph draft }
        requires laid { drafted self.graph draft
            ≡ after_steps (graph_of self.graph) stored.now.steps }
        requires all { self.taken ≡ length self.pass.seen }
        ensures { OfferSays self draft stored.now result }
    {
        let Seat {
            opening,
            mut pass,
            taken,
            graph,
            alloc,
        } = self;
        let ready = match Ready::new(graph, draft) {
            Ok(ready) => ready,
            Err((graph, draft)) => {
                let unready = Seat {
                    opening,
                    pass,
                    taken,
                    graph,
                    alloc,
                };
                return Offered::Back(unready, draft, Put::Memory);
            }
        };
        match journal.put(&mut pass, stored) {
            Put::Won(place) => {
                let further = Seat {
                    opening,
                    pass,
                    taken: taken + 1,
                    graph: ready.merge(),
                    alloc,
                };
                Offered::Won(further, place)
            }
            answer => {
                let (graph, draft) = ready.into_parts();
                let back = Seat {
                    opening,
                    pass,
                    taken,
                    graph,
                    alloc,
                };
                Offered::Back(back, draft, answer)
            }
        }
    }

    // Sees what the front has seen.
    pub(crate) fn meet(
        &mut self,
        journal: &Journal<Record>,
        front: &Front<Record>,
    ) -> Result<(), usize>
        requires cells { self.old.pass.cells ≡ journal.now }
        requires front { front.now.cells ≡ take (length front.now.seen) journal.now }
        ensures goes_on { GoesOn self.old self.new × PutsNothing self.old self.new }
        ensures seat { IsSeat self.new }
        ensures met { IfOk result (λ _. Begins front.now.seen self.new.pass.seen) }
        ensures longer { OnOk result (HasSeenLonger front.now self.old.pass self.new.pass) }
        ensures foreign { IfErr result (λ place. FindsForeign place self.new) }
        ensures ends { IfErr result
            (λ place. MeetingEnds (StoreMeetFault.Foreign place) front.now self.old.pass
            self.new.pass) }
    {
        match journal.meet(&mut self.pass, front) {
            Ok(()) => Ok(()),
            Err(MeetFault::Foreign(place)) => Err(place),
        }
    }
}
