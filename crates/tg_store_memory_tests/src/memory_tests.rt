// Each test passes whichever one request for memory is refused, which `make refusals` tries. Where a
// call was refused memory, its second try has it.
ghost use Rattle.std.specs.Prelude.{◌≡◌, IfOk, length, take};
ghost use Rattle.tg_store.specs.Running.{IsOf};

use std::alloc::{AllocError, Global};
use std::process::Abort;
use std::test::Fail;
use tg_graph::{Graph, Reply, Right};
use tg_graph_trials::graph;
use tg_hall_trials::{Deed, Word, holds, is_reply, step_of};
use tg_journal::Front;
use tg_store::{
    Answered, BeginFault, Begun, CommitFault, Committed, HallReply, Record, Seat, Session, Store,
    StoreFault, StoreMeetFault,
};
use tg_store_trials::opened;

// The vertices a, b, c and d. a has t over b, and b has r over c.
fn four(alloc: Global) -> Option<Graph> {
    graph(alloc, "a b c d", "a b t, b c r")
}

// A store over the four vertices with two seats and so many cells.
fn opened_with(rt: &impl Abort, alloc: Global, cells: usize) -> (Store, Seat, Seat)
    ensures one { IsOf result.0 result.1 }
    ensures two { IsOf result.0 result.2 }
{
    let graph = match four(alloc) {
        Some(graph) => graph,
        None => four(alloc).expect(rt, "a graph"),
    };
    let first = opened(alloc, &graph, cells);
    match first {
        Err(StoreFault::Memory) => opened(alloc, &graph, cells).expect(rt, "a store"),
        made => made.expect(rt, "a store"),
    }
}

// One with four cells.
fn opened_on_four(rt: &impl Abort, alloc: Global) -> (Store, Seat, Seat)
    ensures one { IsOf result.0 result.1 }
    ensures two { IsOf result.0 result.2 }
{
    opened_with(rt, alloc, 4)
}

fn begun(rt: &impl Abort, store: &Store, seat: Seat) -> Session
    requires { IsOf store.now seat }
    ensures { IsOf store.now result.seat }
{
    let answer = match store.begin(seat) {
        Begun::Refused(seat, BeginFault::Memory) => store.begin(seat),
        answer => answer,
    };
    match answer {
        Begun::Session(session) => session,
        Begun::Refused(_, _) => panic!(rt; "no session"),
    }
}

// Whether the session is told so of the step that the deed stages.
fn is_told(session: &mut Session, deed: Deed, word: Word) -> bool
    ensures { session.new.seat ≡ session.old.seat }
{
    let Some(step) = step_of(deed) else {
        return false;
    };
    match session.step(step) {
        Ok(reply) => is_reply(word, HallReply::Said(reply)),
        Err(AllocError) => false,
    }
}

// The session is told so, at the second try where memory was refused to the first.
fn stage(rt: &impl Abort, session: &mut Session, deed: Deed, word: Word)
    ensures { session.new.seat ≡ session.old.seat }
{
    let staged = is_told(session, deed, word) || is_told(session, deed, word);
    assert!(rt; staged);
}

// A session that was refused memory goes on, and its record has the place that it would have had.
fn committed(rt: &impl Abort, store: &Store, session: Session, place: usize) -> Seat
    requires { IsOf store.now session.seat }
    ensures { IsOf store.now result }
{
    let answer = match store.commit(session) {
        Committed::Again(session) => store.commit(session),
        answer => answer,
    };
    match answer {
        Committed::Done(seat, receipt) => {
            assert!(rt; receipt.place == place);
            seat
        }
        Committed::Refused(_, _) | Committed::Again(_) => panic!(rt; "not done"),
    }
}

#[test]
fn refused_commits(rt: HostRuntime) {
    let (store, one, _two) = opened_on_four(&rt, rt.alloc());
    let mut session = begun(&rt, &store, one);
    stage(
        &rt,
        &mut session,
        Deed::Holds(Right::R, *b"az"),
        Word::Unknown(b'z'),
    );
    let one = committed(&rt, &store, session, 0);
    let session = begun(&rt, &store, one);
    assert!(rt; committed(&rt, &store, session, 1).taken() == 2);
}

// d creates n, at the first place.
fn put_first(rt: &impl Abort, store: &Store, seat: Seat) -> Seat
    requires { IsOf store.now seat }
    ensures { IsOf store.now result }
{
    let mut session = begun(rt, store, seat);
    stage(rt, &mut session, Deed::Create(*b"dn", b"g"), Word::Did);
    committed(rt, store, session, 0)
}

// The first seat's session takes r over c, and the second seat has put a record since.
fn behind(rt: &impl Abort, store: &Store, one: Seat, two: Seat) -> Session
    requires { IsOf store.now one × IsOf store.now two }
    ensures { IsOf store.now result.seat }
{
    let mut session = begun(rt, store, one);
    stage(rt, &mut session, Deed::Take(*b"abc", b"r"), Word::Did);
    assert!(rt; put_first(rt, store, two).taken() == 1);
    session
}

// Whether a took r over c.
fn is_done_take(answered: &Answered) -> bool {
    match step_of(Deed::Take(*b"abc", b"r")) {
        Some(step) => answered.reply == Reply::Done && answered.step == step,
        None => false,
    }
}

// Its only step was done, and it is the first of its seat.
fn is_first_take(rt: &impl Abort, record: &Record) {
    assert!(rt; record.seat == 1);
    assert!(rt; record.number == 0);
    match record.steps.as_slice() {
        [only] => assert!(rt; is_done_take(only)),
        _ => panic!(rt; "not one step"),
    }
}

#[test]
fn refused_commit_behind_another(rt: HostRuntime) {
    let (store, one, two) = opened_on_four(&rt, rt.alloc());
    let session = behind(&rt, &store, one, two);
    let one = committed(&rt, &store, session, 1);
    let Some(record) = store.at(&one, 1) else {
        panic!(rt; "no record");
    };
    is_first_take(&rt, record);
    assert!(rt; holds(one.graph(), b'a', Right::R, b'c'));
}

// Where every cell is taken, a commit is told so, whether or not there is room for the vertex that it creates.
#[test]
fn a_full_journal_before_want_of_room(rt: HostRuntime) {
    let (store, one, two) = opened_with(&rt, rt.alloc(), 1);
    assert!(rt; put_first(&rt, &store, two).taken() == 1);
    let mut session = begun(&rt, &store, one);
    stage(&rt, &mut session, Deed::Create(*b"dm", b"g"), Word::Did);
    let full = matches!(
        store.commit(session),
        Committed::Refused(_, CommitFault::JournalFull)
    );
    assert!(rt; full);
}

// How many vertices there are, whether d has g over n, and whether a has r over c.
fn shown(graph: &Graph) -> (usize, bool, bool) {
    let created = holds(graph, b'd', Right::G, b'n');
    let taken = holds(graph, b'a', Right::R, b'c');
    (graph.len(), created, taken)
}

// Whether the seat's graph is the replay of no record, or of the creation of n alone.
fn is_replay(seat: &Seat) -> bool {
    match seat.taken() {
        0 => shown(seat.graph()) == (4, false, false),
        1 => shown(seat.graph()) == (5, true, false),
        _ => false,
    }
}

// The seat's graph is the replay of the creation of n.
fn rests_on_the_creation(rt: &impl Abort, seat: &Seat) {
    assert!(rt; seat.taken() == 1);
    assert!(rt; is_replay(seat));
}

// A session that was refused memory is given up, and its seat begins again.
#[test]
fn abort_after_a_refusal(rt: HostRuntime) {
    let (store, one, two) = opened_on_four(&rt, rt.alloc());
    let session = behind(&rt, &store, one, two);
    match store.commit(session) {
        Committed::Again(session) => {
            let seat = session.abort();
            assert!(rt; is_replay(&seat));
            assert!(rt; is_replay(&begun(&rt, &store, seat).abort()));
        }
        Committed::Done(_, receipt) => assert!(rt; receipt.place == 1),
        Committed::Refused(_, _) => panic!(rt; "refused"),
    }
}

// A seat that was refused memory has taken in what its graph shows.
#[test]
fn refused_begin(rt: HostRuntime) {
    let (store, one, two) = opened_on_four(&rt, rt.alloc());
    assert!(rt; put_first(&rt, &store, two).taken() == 1);
    let session = match store.begin(one) {
        Begun::Session(session) => session,
        Begun::Refused(seat, _) => {
            assert!(rt; is_replay(&seat));
            begun(&rt, &store, seat)
        }
    };
    let one = session.abort();
    rests_on_the_creation(&rt, &one);
}

fn fronted(store: &Store, seat: &Seat) -> Result<Front<Record>, AllocError>
    requires { IsOf store.now seat.now }
    ensures cells { IfOk result (λ f. f.cells ≡ take (length f.seen) store.now.cells) }
{
    match store.front(seat) {
        Ok(front) => Ok(front),
        Err(AllocError) => store.front(seat),
    }
}

#[test]
fn refused_meeting(rt: HostRuntime) -> Result<(), Fail> {
    let (store, mut one, two) = opened_on_four(&rt, rt.alloc());
    let two = put_first(&rt, &store, two);
    let front = fronted(&store, &two)?;
    assert!(rt; front.len() == 1);
    if let Err(fault) = store.meet(&mut one, &front) {
        assert!(rt; fault == StoreMeetFault::Memory);
        assert!(rt; is_replay(&one));
        assert!(rt; store.meet(&mut one, &front).is_ok());
    }
    rests_on_the_creation(&rt, &one);
    Ok(())
}

// Asks whether a can come to have w over c, which nobody has.
fn asked(rt: &impl Abort, session: &mut Session) -> Result<Reply, AllocError>
    ensures { session.new.seat ≡ session.old.seat }
{
    let step = step_of(Deed::Share(Right::W, *b"ac")).expect(rt, "a step");
    session.step(step)
}

// Asks twice.
fn ask_twice(rt: &impl Abort, session: &mut Session)
    ensures { session.new.seat ≡ session.old.seat }
{
    let _ = asked(rt, session);
    let _ = asked(rt, session);
}

// Asks four times.
fn ask_often(rt: &impl Abort, session: &mut Session)
    ensures { session.new.seat ≡ session.old.seat }
{
    ask_twice(rt, session);
    ask_twice(rt, session);
}

// Asks until something is known, also where memory is refused for it once, which may be at the last question
// and gives up what was known.
fn ask_until_it_knows(rt: &impl Abort, session: &mut Session)
    ensures { session.new.seat ≡ session.old.seat }
{
    ask_often(rt, session);
    if !session.knows_any() {
        ask_often(rt, session);
    }
    assert!(rt; session.knows_any());
}

// A question is answered, whichever request is refused, where the session knows something. Where it is
// refused, nothing is known.
fn answered(rt: &impl Abort, session: &mut Session)
    ensures { session.new.seat ≡ session.old.seat }
{
    let knew = session.knows_any();
    if asked(rt, session).is_err() {
        assert!(rt; !knew);
        assert!(rt; !session.knows_any());
        assert!(rt; asked(rt, session) == Ok(Reply::No));
    }
}

// More questions than there is room for at first.
fn answered_often(rt: &impl Abort, session: &mut Session) {
    for _ in 0..9 {
        answered(rt, session);
    }
}

#[test]
fn questions_of_a_session_that_knows(rt: HostRuntime) {
    let (store, one, _two) = opened_on_four(&rt, rt.alloc());
    let mut session = begun(&rt, &store, one);
    ask_until_it_knows(&rt, &mut session);
    answered_often(&rt, &mut session);
}

// Whether d is said to create n.
fn creates(session: &mut Session) -> bool
    ensures { session.new.seat ≡ session.old.seat }
{
    is_told(session, Deed::Create(*b"dn", b"g"), Word::Did)
}

// A rule gives up what is known, also where it is refused.
#[test]
fn questions_after_a_rule(rt: HostRuntime) {
    let (store, one, _two) = opened_on_four(&rt, rt.alloc());
    let mut session = begun(&rt, &store, one);
    ask_until_it_knows(&rt, &mut session);
    let staged = creates(&mut session);
    assert!(rt; !session.knows_any());
    assert!(rt; staged || creates(&mut session));
    ask_until_it_knows(&rt, &mut session);
    answered_often(&rt, &mut session);
}

// What is known is given up where that is asked for, and the session goes on.
#[test]
fn a_session_gives_up_what_it_knows(rt: HostRuntime) {
    let (store, one, _two) = opened_on_four(&rt, rt.alloc());
    let mut session = begun(&rt, &store, one);
    assert!(rt; !session.give_up_known());
    ask_until_it_knows(&rt, &mut session);
    assert!(rt; session.give_up_known());
    assert!(rt; !session.knows_any());
    assert!(rt; !session.give_up_known());
    answered_often(&rt, &mut session);
}

// A commit that is refused gives up what is known.
#[test]
fn a_refused_commit_after_questions(rt: HostRuntime) {
    let (store, one, _two) = opened_on_four(&rt, rt.alloc());
    let mut session = begun(&rt, &store, one);
    ask_until_it_knows(&rt, &mut session);
    match store.commit(session) {
        Committed::Done(_, receipt) => assert!(rt; receipt.place == 0),
        Committed::Again(session) => {
            assert!(rt; !session.knows_any());
            assert!(rt; committed(&rt, &store, session, 0).taken() == 1);
        }
        Committed::Refused(_, _) => panic!(rt; "refused"),
    }
}
