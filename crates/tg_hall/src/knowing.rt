//! What a session knows of the graph that it asks.
ghost use Rattle.std.specs.Prelude.{◌≡◌, false, IfOk, OnErr, None};
ghost use Rattle.tg_graph.specs.GraphOf.{graph_of};
ghost use Rattle.tg_graph.specs.Drafts.{Fits, laid_over};
ghost use Rattle.tg_index.specs.ByTarget.{IsIndexOf, has_found, unasked};
ghost use Rattle.tg_hall.specs.Answers.{IsAnswer, unknown_of_two};
ghost use Rattle.tg_hall.specs.Drafted.{drafted};
ghost use Rattle.tg_hall.specs.Knowing.{IsKnown, knows_any, forgotten};

use std::alloc::{AllocError, Global};
use tg_graph::{Draft, Graph, Name, Reply, Right, Step};
use tg_index::SharingIndex;
use tg_islands::AskFault;

/// What a session knows of the graph that its draft stands for, from the questions about sharing that came
/// before, until a rule is carried out, a record is taken in or the session ends: the islands, once they are
/// found, 8 bytes a vertex. It lists no edges and keeps no graph, so that many open sessions together keep
/// little beside the graphs of their seats.
#[derive(Drop)]
pub enum Known {
    /// The draft changes nothing, and the index is that of the base.
    OfBase(SharingIndex),
    /// The draft may have changes, and the index is that of the graph that it stands for.
    OfWhole(SharingIndex),
}

// Answers by the index of a graph whether x can come to have a right over y, which are vertices. Where memory
// is refused, what was found is given up.
fn reply_by(
    index: &mut SharingIndex,
    alloc: Global,
    graph: &Graph,
    right: Right,
    x: Name,
    y: Name,
) -> Result<Reply, AllocError>
    requires index { IsIndexOf graph.now index.old }
    requires vertices { unknown_of_two (graph_of graph.now) x y ≡ None }
    ensures reply { IfOk result
        (λ reply. IsAnswer (graph_of graph.now) (Step.Share right x y) reply) }
    ensures index { IsIndexOf graph.now index.new }
    ensures err { OnErr result (index.new ≡ unasked) }
{
    match index.can_share(alloc, graph, right, x, y) {
        Ok(true) => Ok(Reply::Yes),
        Ok(false) => Ok(Reply::No),
        // both names are vertices, so only memory can be wanting
        Err(AskFault::Unknown(_) | AskFault::TooLarge | AskFault::Memory) => {
            *index = SharingIndex::of_islands_alone();
            Err(AllocError)
        }
    }
}

// Answers for a draft by the index of the graph that it stands for, which is made for this question alone.
// Where memory is refused, what was found is given up.
fn reply_on_whole(
    index: &mut SharingIndex,
    alloc: Global,
    base: &Graph,
    draft: &Draft,
    right: Right,
    x: Name,
    y: Name,
) -> Result<Reply, AllocError>
    requires fits { Fits base.now draft.now }
    requires index { IsIndexOf (laid_over base.now draft.now) index.old }
    requires vertices { unknown_of_two (drafted base.now draft.now) x y ≡ None }
    ensures reply { IfOk result
        (λ reply. IsAnswer (drafted base.now draft.now) (Step.Share right x y) reply) }
    ensures index { IsIndexOf (laid_over base.now draft.now) index.new }
    ensures err { OnErr result (index.new ≡ unasked) }
{
    let Ok(whole) = draft.whole(base) else {
        *index = SharingIndex::of_islands_alone();
        return Err(AllocError);
    };
    reply_by(index, alloc, &whole, right, x, y)
}

impl Known {
    /// What is known of a draft that changes nothing, before the first question.
    pub fn unasked() -> Known
        ensures { result ≡ Known.OfBase unasked }
    {
        Known::OfBase(SharingIndex::of_islands_alone())
    }

    /// What is known of a draft that may have changes, before the first question.
    pub fn of_changes() -> Known
        ensures { result ≡ Known.OfWhole unasked }
    {
        Known::OfWhole(SharingIndex::of_islands_alone())
    }

    // Answers as `reply` does, by one try. An error leaves nothing known.
    fn ask(
        &mut self,
        alloc: Global,
        base: &Graph,
        draft: &Draft,
        right: Right,
        x: Name,
        y: Name,
    ) -> Result<Reply, AllocError>
        requires fits { Fits base.now draft.now }
        requires known { IsKnown base.now draft.now self.old }
        requires vertices { unknown_of_two (drafted base.now draft.now) x y ≡ None }
        ensures reply { IfOk result
            (λ reply. IsAnswer (drafted base.now draft.now) (Step.Share right x y) reply) }
        ensures known { IsKnown base.now draft.now self.new }
        ensures err { OnErr result (self.new ≡ forgotten self.old) }
    {
        match self {
            Known::OfBase(index) => reply_by(index, alloc, base, right, x, y),
            Known::OfWhole(index) => reply_on_whole(index, alloc, base, draft, right, x, y),
        }
    }

    /// Answers whether x can come to have a right over y, which are vertices. What is found on the way is
    /// known from then on.
    ///
    /// Where memory is refused while something is known, that is given up, and the question is tried once
    /// more. An error leaves nothing known.
    pub fn reply(
        &mut self,
        alloc: Global,
        base: &Graph,
        draft: &Draft,
        right: Right,
        x: Name,
        y: Name,
    ) -> Result<Reply, AllocError>
        requires fits { Fits base.now draft.now }
        requires known { IsKnown base.now draft.now self.old }
        requires vertices { unknown_of_two (drafted base.now draft.now) x y ≡ None }
        ensures reply { IfOk result
            (λ reply. IsAnswer (drafted base.now draft.now) (Step.Share right x y) reply) }
        ensures known { IsKnown base.now draft.now self.new }
        ensures err { OnErr result (knows_any self.new ≡ false) }
    {
        if self.knows_any() {
            // an error gives up what stands in the way of the next try
            if let Ok(reply) = self.ask(alloc, base, draft, right, x, y) {
                return Ok(reply);
            }
        }
        self.ask(alloc, base, draft, right, x, y)
    }

    /// Whether something is known that takes memory.
    pub fn knows_any(&self) -> bool
        ensures { result ≡ knows_any self.now }
    {
        match self {
            Known::OfBase(index) => index.has_found(),
            Known::OfWhole(index) => index.has_found(),
        }
    }

    /// Knows nothing of a draft from then on, which may have changes.
    pub fn forget(&mut self)
        ensures { self.new ≡ Known.OfWhole unasked }
    {
        *self = Known::of_changes();
    }

    /// Gives up what takes memory.
    pub fn give_up(&mut self)
        ensures { self.new ≡ forgotten self.old }
    {
        match self {
            Known::OfBase(index) => *index = SharingIndex::of_islands_alone(),
            Known::OfWhole(index) => *index = SharingIndex::of_islands_alone(),
        }
    }

    /// What is still known where the base is another: whether the draft changes nothing.
    pub fn forgotten(self) -> Known
        ensures { result ≡ forgotten self }
    {
        match self {
            Known::OfBase(_) => Known::unasked(),
            Known::OfWhole(_) => Known::of_changes(),
        }
    }
}
