//! The seats of a hall.
ghost use Rattle.std.specs.Prelude.{◌≡◌, ◌≢◌, ◌<◌, ◌≤◌, ◌∷◌, ◌++◌, [], List, All, IsSome, IfOk, OnOk, OnErr, IfSome, Some, None, length, map, slice_get, vec_len, not, is_none, false};
ghost use Rattle.std.specs.Option.{option_map};
ghost use Rattle.std.specs.Vec.{vec_capacity};
ghost use Rattle.tg_graph.specs.Graphs.{ProtectionGraph};
ghost use Rattle.tg_rows.specs.Rows.{Entries};
ghost use Rattle.tg_graph.specs.GraphOf.{graph_of};
ghost use Rattle.tg_graph.specs.Drafts.{ArePositionsOf};
ghost use Rattle.tg_graph.specs.Limits.{most_cells};
ghost use Rattle.tg_hall.specs.declared.records.Record.{Record};
ghost use Rattle.tg_graph.specs.StepWords.{IsNamedStep};
ghost use Rattle.tg_hall.specs.Answers.{IsAnswer, AreAnswers, after_steps};
ghost use Rattle.tg_hall.specs.Histories.{count_of, replay};
ghost use Rattle.tg_hall.specs.Touches.{IsClear};
ghost use Rattle.tg_hall.specs.Trails.{HasRoom, SameTrail, IsTrail, LeadsBy, TakesOver, vertices_at};
ghost use Rattle.tg_hall.specs.Seats.{IsSessionOn, unknowing, given_up, KnowsNothing};
ghost use Rattle.tg_index.specs.ByTarget.{unasked};
ghost use Rattle.tg_hall.specs.Knowing.{knows_any, forgotten};
ghost use Rattle.tg_hall.specs.Worlds.{is_short_of_memory, one_further, fresh_seat, Begins, TakesIn, Learns, Stages, Aborts, Joins, Puts};

use crate::answers::{Answered, Steps};
use crate::events::{HallFault, HallReply};
use crate::knowing::Known;
use crate::records::Record;
use crate::trails::Trail;
use crate::{replays, spoilers};
use std::alloc::{AllocError, Global};
use std::mem;
use tg_graph::{Draft, Graph, Refusal, Reply, Rule, Step};

/// An open session: its draft over the graph of its seat, its steps with their replies, and what is
/// known of the graph that the draft stands for.
#[derive(Drop)]
pub struct OpenSession {
    /// What its steps make of the graph.
    pub draft: Draft,
    /// Its steps with their replies.
    pub kept: Vec<Answered>,
    /// What is known of the graph that the draft stands for.
    pub known: Known,
}

/// A seat: how many records it has taken in, the graph that they lead to, how many sessions it has
/// committed, and its open session.
#[derive(Drop)]
pub struct SeatState {
    taken: usize,
    graph: Graph,
    commits: usize,
    session: Option<OpenSession>,
    alloc: Global,
}

// Keeps a step with its reply, for which there is room.
fn keep(kept: &mut Vec<Answered>, step: Step, reply: Reply)
    requires { vec_len kept.old < vec_capacity kept.old }
    ensures { kept.new.items ≡ kept.old.items ++ (record { step = step; reply = reply }) ∷ [] }
{
    // the check is told of the types inside a step by these
    let _rule: Option<Rule> = None;
    let _refusal: Option<Refusal> = None;
    kept.push_reserved(Answered::new(step, reply));
}

impl OpenSession {
    ghost use Rattle.tg_hall.specs.Seats.{IsSessionOn};

    /// A session without steps.
    pub fn new(base: &Graph, alloc: Global) -> OpenSession
        ensures on { IsSessionOn base.now result }
        ensures kept { result.kept.items ≡ [] }
    {
        OpenSession {
            draft: base.draft(),
            kept: Vec::new(alloc),
            known: Known::unasked(),
        }
    }

    /// The session with a draft and steps, where nothing is known of the graph that the draft stands
    /// for.
    pub fn of_parts(draft: Draft, kept: Vec<Answered>) -> OpenSession
        ensures { result ≡ record { draft = draft; kept = kept; known = Known.OfWhole unasked } }
    {
        OpenSession {
            draft,
            kept,
            known: Known::of_changes(),
        }
    }

    /// The draft, and the steps.
    pub fn into_parts(self) -> (Draft, Vec<Answered>)
        ensures draft { result.0 ≡ self.draft }
        ensures kept { result.1 ≡ self.kept }
    {
        let OpenSession { draft, kept, .. } = self;
        (draft, kept)
    }

    /// The same session, which knows what is still known where the base is another.
    pub fn unknowing(self) -> OpenSession
        ensures value { result ≡ record { draft = self.draft; kept = self.kept; known = forgotten self.known } }
        ensures on { (base : Entries) → IsSessionOn base self → IsSessionOn base result }
    {
        let OpenSession { draft, kept, known } = self;
        OpenSession {
            draft,
            kept,
            known: known.forgotten(),
        }
    }

    /// Whether something is known that takes memory.
    pub fn knows_any(&self) -> bool
        ensures { result ≡ knows_any self.now.known }
    {
        self.known.knows_any()
    }

    /// Gives up what is known, and says whether that took memory.
    pub fn give_up(&mut self) -> bool
        ensures took { result ≡ knows_any self.old.known }
        ensures value { self.new ≡ unknowing self.old }
        ensures on { (base : Entries) → IsSessionOn base self.old → IsSessionOn base self.new }
    {
        let took_memory = self.known.knows_any();
        self.known.give_up();
        took_memory
    }

    // Makes room for a step. Where there is none beside what is known, that is given up, and room is asked
    // for once more. An error leaves nothing known.
    fn make_room(&mut self) -> Result<(), AllocError>
        ensures kept { self.new.kept.items ≡ self.old.kept.items }
        ensures room { OnOk result (vec_len self.new.kept < vec_capacity self.new.kept) }
        ensures on { (base : Entries) → IsSessionOn base self.old → IsSessionOn base self.new }
        ensures unknown { OnErr result (knows_any self.new.known ≡ false) }
    {
        if self.kept.reserve(1).is_ok() {
            return Ok(());
        }
        if !self.give_up() {
            return Err(AllocError);
        }
        self.kept.reserve(1)
    }

    /// Answers a step, and keeps it with its reply. An error changes no step, and leaves nothing known.
    pub fn stage(&mut self, base: &Graph, step: &Step) -> Result<Reply, AllocError>
        requires on { IsSessionOn base.now self.old }
        requires named { IsNamedStep step.now }
        ensures reply { IfOk result
            (λ reply. IsAnswer (after_steps (graph_of base.now) self.old.kept.items) step.now
            reply) }
        ensures kept { IfOk result
            (λ reply. self.new.kept.items ≡ self.old.kept.items
            ++ (record { step = step.now; reply = reply }) ∷ []) }
        ensures err { OnErr result (self.new.kept.items ≡ self.old.kept.items) }
        ensures on { IsSessionOn base.now self.new }
        ensures unknown { OnErr result (knows_any self.new.known ≡ false) }
    {
        self.make_room()?;
        let alloc = *self.kept.allocator();
        let outcome = replays::answer(alloc, base, &mut self.draft, &mut self.known, step);
        // `created` says that it is a draft
        let _ = self.draft.created();
        if let Ok(reply) = &outcome {
            keep(&mut self.kept, *step, *reply);
        }
        outcome
    }
}

// The same session, if there is one, which knows what is still known where the base is another.
fn unknowing(session: Option<OpenSession>) -> Option<OpenSession>
    ensures { result ≡ option_map unknowing session }
{
    match session {
        Some(session) => Some(session.unknowing()),
        None => None,
    }
}

impl SeatState {
    ghost use Rattle.tg_hall.specs.Seats.{seen_seat, IsConsistent, Rests, Obstructs};

    /// A seat that has taken in nothing.
    pub fn new(alloc: Global, opening: &Graph) -> Result<SeatState, AllocError>
        ensures graph { IfOk result (λ seat. seat.graph ≡ opening.now) }
        ensures seen { IfOk result (λ seat. seen_seat seat ≡ fresh_seat) }
        ensures consistent { IfOk result IsConsistent }
        ensures fresh { IfOk result (λ seat. seat.commits ≡ 0) }
    {
        Ok(SeatState {
            taken: 0,
            graph: opening.copy()?,
            commits: 0,
            session: None,
            alloc,
        })
    }

    /// Gives up what the open session knows of its graph, and says whether that took memory.
    pub fn give_up(&mut self) -> bool
        ensures value { self.new ≡ given_up self.old }
        ensures unknown { KnowsNothing self.new }
        ensures seen { seen_seat self.new ≡ seen_seat self.old }
        ensures taken { self.new.taken ≡ self.old.taken }
        ensures graph { self.new.graph ≡ self.old.graph }
        ensures commits { self.new.commits ≡ self.old.commits }
        ensures open { IsSome self.old.session → IsSome self.new.session }
        ensures rests { (g : ProtectionGraph) (history : List Record) → Rests g history self.old
            → Rests g history self.new }
        ensures consistent { IsConsistent self.old → IsConsistent self.new }
    {
        let took_memory = match &self.session {
            Some(session) => session.known.knows_any(),
            None => false,
        };
        self.session = unknowing(self.session.take());
        took_memory
    }

    /// Whether the open session knows something that takes memory.
    pub fn knows_any(&self) -> bool {
        match &self.session {
            Some(session) => session.known.knows_any(),
            None => false,
        }
    }

    // Lends its graph, and has the empty one meanwhile.
    fn lend_graph(&mut self) -> Graph
        ensures graph { result ≡ self.old.graph }
        ensures rest { self.new ≡ record self.old { graph = [] } }
    {
        mem::replace(&mut self.graph, Graph::new(self.alloc))
    }

    // Has a graph, to which so many records lead.
    fn settle(&mut self, graph: Graph, taken: usize)
        ensures { self.new ≡ record self.old { graph = graph; taken = taken } }
    {
        self.graph = graph;
        self.taken = taken;
    }

    /// How many records the seat has taken in.
    pub fn taken(&self) -> usize
        ensures { result ≡ self.now.taken }
    {
        self.taken
    }

    /// The graph that they lead to.
    pub fn graph(&self) -> &Graph
        ensures { result.now ≡ self.now.graph }
    {
        &self.graph
    }

    /// The graph that all records lead to, those that the seat has taken in and those that are
    /// left.
    pub fn replayed(&self, records: &[Record]) -> Result<Graph, AllocError>
        requires { self.now.taken ≤ length records.now }
        ensures { IfOk result
            (λ graph. (g : ProtectionGraph) → Rests g records.now self.now
            → graph_of graph ≡ replay g records.now) }
    {
        replays::replayed(&self.graph, &records[self.taken..])
    }

    /// Whether a session is open.
    pub fn is_open(&self) -> bool
        ensures { not result ≡ is_none (seen_seat self.now).session }
    {
        self.session.is_some()
    }

    /// Opens a session.
    pub fn begin(&mut self) -> HallReply
        requires { IsConsistent self.old }
        ensures begins { Begins (seen_seat self.old) result (seen_seat self.new) }
        ensures spared { is_short_of_memory result ≡ false }
        ensures graph { self.new.graph ≡ self.old.graph }
        ensures consistent { IsConsistent self.new }
        ensures commits { self.new.commits ≡ self.old.commits }
    {
        if self.session.is_some() {
            return HallReply::Refused(HallFault::AlreadyOpen);
        }
        self.session = Some(OpenSession::new(&self.graph, self.alloc));
        HallReply::Done
    }

    /// Gives the open session up.
    pub fn abort(&mut self) -> HallReply
        requires { IsConsistent self.old }
        ensures aborts { Aborts (seen_seat self.old) result (seen_seat self.new) }
        ensures spared { is_short_of_memory result ≡ false }
        ensures graph { self.new.graph ≡ self.old.graph }
        ensures consistent { IsConsistent self.new }
        ensures commits { self.new.commits ≡ self.old.commits }
    {
        if self.session.is_none() {
            return HallReply::Refused(HallFault::NotOpen);
        }
        self.session = None;
        HallReply::Done
    }

    /// Stages a step in the open session.
    pub fn stage(&mut self, step: Step) -> HallReply
        requires consistent { IsConsistent self.old }
        requires named { IsNamedStep step }
        ensures stages { Stages (graph_of self.old.graph) step (seen_seat self.old) result
            (seen_seat self.new) }
        ensures graph { self.new.graph ≡ self.old.graph }
        ensures consistent { IsConsistent self.new }
        ensures commits { self.new.commits ≡ self.old.commits }
    {
        match &mut self.session {
            None => HallReply::Refused(HallFault::NotOpen),
            Some(session) => match session.stage(&self.graph, &step) {
                Ok(reply) => HallReply::Said(reply),
                Err(AllocError) => HallReply::Refused(HallFault::Memory),
            },
        }
    }

    // What keeps the open session from resting on a record as well.
    fn obstacle(&self, next: &Record) -> Option<HallFault>
        requires consistent { IsConsistent self.now }
        requires answers { AreAnswers (graph_of self.now.graph) next.now.steps }
        ensures { Obstructs (graph_of self.now.graph) next.now.steps (seen_seat self.now) result }
    {
        let session = self.session.as_ref()?;
        let committed = next.steps.as_slice();
        let steps = session.kept.as_slice();
        if let Some(name) = spoilers::spoiler(&self.graph, committed, steps) {
            return Some(HallFault::Changed {
                place: self.taken,
                name,
            });
        }
        if spoilers::crowds(&self.graph, committed, steps) {
            return Some(HallFault::Crowded { place: self.taken });
        }
        None
    }

    // Lays the steps of a record on the graph. The draft of the open session, of which the record
    // is clear and which knows nothing, is as it was. An error changes nothing.
    fn lay(&mut self, committed: &[Answered]) -> Result<(), AllocError>
        requires consistent { IsConsistent self.old }
        requires named { All (λ a. IsNamedStep a.step) committed.now }
        requires clear { IsClear (graph_of self.old.graph) committed.now
            (seen_seat self.old).session }
        requires unknown { KnowsNothing self.old }
        ensures graph { OnOk result
            (graph_of self.new.graph ≡ after_steps (graph_of self.old.graph) committed.now) }
        ensures err { OnErr result (self.new.graph ≡ self.old.graph) }
        ensures seen { seen_seat self.new ≡ seen_seat self.old }
        ensures consistent { IsConsistent self.new }
        ensures commits { self.new.commits ≡ self.old.commits }
    {
        // no vertex stands twice in the graph: this `len` says
        let _ = self.graph.len();
        let draft = replays::with_steps(&self.graph, committed)?;
        replays::merge(&mut self.graph, draft)?;
        Ok(())
    }

    // Takes a record in. An error changes nothing but what the open session knows.
    fn advance(&mut self, next: &Record) -> Result<(), AllocError>
        requires consistent { IsConsistent self.old }
        requires answers { AreAnswers (graph_of self.old.graph) next.now.steps }
        requires clear { IsClear (graph_of self.old.graph) next.now.steps
            (seen_seat self.old).session }
        requires room { self.old.taken < most_cells }
        ensures graph { OnOk result
            (graph_of self.new.graph ≡ after_steps (graph_of self.old.graph) next.now.steps) }
        ensures seen { OnOk result (seen_seat self.new ≡ one_further (seen_seat self.old)) }
        ensures err { OnErr result
            ((self.new.graph ≡ self.old.graph) × (seen_seat self.new ≡ seen_seat self.old)) }
        ensures consistent { IsConsistent self.new }
        ensures commits { self.new.commits ≡ self.old.commits }
    {
        let committed = next.steps.as_slice();
        if spoilers::has_change(committed) {
            self.give_up();
            self.lay(committed)?;
        }
        self.taken += 1;
        Ok(())
    }

    // Takes a record in, unless it ends the open session.
    fn take_in(&mut self, next: &Record) -> HallReply
        requires consistent { IsConsistent self.old }
        requires answers { AreAnswers (graph_of self.old.graph) next.now.steps }
        requires room { self.old.taken < most_cells }
        ensures takes { TakesIn (graph_of self.old.graph) next.now (seen_seat self.old) result
            (seen_seat self.new) }
        ensures rests { (g : ProtectionGraph) (history : List Record) → slice_get history self.old.taken ≡ Some next.now
            → Rests g history self.old → Rests g history self.new }
        ensures consistent { IsConsistent self.new }
        ensures commits { self.new.commits ≡ self.old.commits }
    {
        if let Some(fault) = self.obstacle(next) {
            self.session = None;
            return HallReply::Refused(fault);
        }
        let place = self.taken;
        match self.advance(next) {
            Ok(()) => HallReply::Learned(place),
            Err(AllocError) => HallReply::Refused(HallFault::Memory),
        }
    }

    /// Takes in the next record, if there is one, unless it ends the open session.
    pub fn learn(&mut self, records: &[Record]) -> HallReply
        requires consistent { IsConsistent self.old }
        requires answers { IfSome (slice_get records.now self.old.taken)
            (λ r. AreAnswers (graph_of self.old.graph) r.steps) }
        requires room { length records.now ≤ most_cells }
        ensures learns { Learns (graph_of self.old.graph) (slice_get records.now self.old.taken)
            (seen_seat self.old) result (seen_seat self.new) }
        ensures rests { (g : ProtectionGraph) → Rests g records.now self.old
            → Rests g records.now self.new }
        ensures consistent { IsConsistent self.new }
        ensures commits { self.new.commits ≡ self.old.commits }
    {
        if self.taken < records.len() {
            self.take_in(&records[self.taken])
        } else {
            HallReply::Nothing
        }
    }

    // Makes room for the record of the open session, and tells where it wrote.
    fn make_room(
        &self,
        records: &mut Vec<Record>,
        trail: &mut Trail,
    ) -> Result<Vec<usize>, AllocError>
        requires { IsConsistent self.now }
        ensures records { records.new.items ≡ records.old.items }
        ensures trail { SameTrail trail.old trail.new }
        ensures room { OnOk result (vec_len records.new < vec_capacity records.new) }
        ensures trail_room { IfOk result (λ positions. HasRoom trail.new (length positions.items)) }
        ensures positions { IfOk result (λ positions. IfSome self.now.session
            (λ o. ArePositionsOf self.now.graph o.draft positions.items)) }
    {
        records.reserve(1)?;
        let positions = match &self.session {
            Some(session) => session.draft.positions(&self.graph)?,
            None => Vec::new(self.alloc),
        };
        trail.reserve(positions.len())?;
        Ok(positions)
    }

    // Puts the open session at the end of the history. It knows nothing that stands in the way of a request.
    fn join(
        &mut self,
        number: u32,
        cells: usize,
        records: &mut Vec<Record>,
        trail: &mut Trail,
    ) -> HallReply
        requires consistent { IsConsistent self.old }
        requires counted { self.old.commits ≡ count_of number records.old.items }
        requires open { IsSome self.old.session }
        requires room { length records.old.items < cells }
        requires cells { cells ≤ most_cells }
        requires all_taken { self.old.taken ≡ length records.old.items }
        requires unknown { KnowsNothing self.old }
        ensures joins { IfSome (seen_seat self.old).session (λ steps.
            Joins cells number records.old.items steps (seen_seat self.old) result (seen_seat self.new) records.new.items) }
        ensures rests { (g : ProtectionGraph) → Rests g records.old.items self.old
            → Rests g records.new.items self.new }
        ensures trail { (g : ProtectionGraph) → Rests g records.old.items self.old
            → IsTrail g records.old.items trail.old → IsTrail g records.new.items trail.new }
        ensures consistent { IsConsistent self.new }
        ensures counted { self.new.commits ≡ count_of number records.new.items }
    {
        let Ok(positions) = self.make_room(records, trail) else {
            return HallReply::Refused(HallFault::Memory);
        };
        let place = records.len();
        if let Some(session) = self.session.take() {
            let (draft, kept) = session.into_parts();
            match self.graph.merge(draft) {
                Ok(()) => {}
                Err(draft) => {
                    self.session = Some(OpenSession::of_parts(draft, kept));
                    return HallReply::Refused(HallFault::Memory);
                }
            }
            records.push_reserved(Record {
                seat: number,
                number: self.commits,
                steps: Steps::from_vec(kept),
            });
            trail.note(positions.as_slice());
            self.taken += 1;
            self.commits += 1;
        }
        HallReply::Put(place)
    }

    /// Puts the open session at the end of the history, or takes in the next record where one is
    /// left.
    pub fn put(
        &mut self,
        number: u32,
        cells: usize,
        records: &mut Vec<Record>,
        trail: &mut Trail,
    ) -> HallReply
        requires consistent { IsConsistent self.old }
        requires counted { self.old.commits ≡ count_of number records.old.items }
        requires answers { IfSome (slice_get records.old.items self.old.taken)
            (λ r. AreAnswers (graph_of self.old.graph) r.steps) }
        requires room { length records.old.items ≤ cells }
        requires cells { cells ≤ most_cells }
        requires within { self.old.taken ≤ length records.old.items }
        ensures puts { Puts (graph_of self.old.graph) cells number records.old.items
            (seen_seat self.old) result (seen_seat self.new) records.new.items }
        ensures rests { (g : ProtectionGraph) → Rests g records.old.items self.old
            → Rests g records.new.items self.new }
        ensures trail { (g : ProtectionGraph) → Rests g records.old.items self.old
            → IsTrail g records.old.items trail.old → IsTrail g records.new.items trail.new }
        ensures consistent { IsConsistent self.new }
        ensures counted { self.new.commits ≡ count_of number records.new.items }
    {
        if self.session.is_none() {
            return HallReply::Refused(HallFault::NotOpen);
        }
        if self.taken < records.len() {
            return self.learn(records.as_slice());
        }
        if records.len() >= cells {
            self.session = None;
            return HallReply::Refused(HallFault::JournalFull);
        }
        self.give_up();
        self.join(number, cells, records, trail)
    }
}

/// Gives up what the open sessions know of their graphs, and says whether that took memory.
pub fn give_up_all(seats: &mut [SeatState]) -> bool
    ensures { seats.new ≡ map given_up seats.old }
{
    let mut took_memory = false;
    for at in 0..seats.len() {
        took_memory |= seats[at].give_up();
    }
    took_memory
}

/// A seat comes to where another seat stands, to whose graph the vertices at the positions lead
/// from its own. An error changes nothing.
pub fn take_over(
    seats: &mut [SeatState],
    index: usize,
    other: usize,
    positions: &[usize],
) -> Result<(), AllocError>
    requires apart { index ≢ other }
    requires within { (index < length seats.old) × (other < length seats.old) }
    requires leads { (s t : SeatState) → slice_get seats.old index ≡ Some s
        → slice_get seats.old other ≡ Some t → LeadsBy (graph_of s.graph)
        (vertices_at (graph_of t.graph) positions.now) (graph_of t.graph) }
    ensures ok { OnOk result (TakesOver seats.old index other seats.new) }
    ensures err { OnErr result (seats.new ≡ seats.old) }
{
    let mut graph = seats[index].lend_graph();
    let outcome = replays::take_over(&mut graph, &seats[other].graph, positions);
    let taken = match outcome {
        Ok(()) => seats[other].taken,
        Err(AllocError) => seats[index].taken,
    };
    seats[index].settle(graph, taken);
    outcome
}
