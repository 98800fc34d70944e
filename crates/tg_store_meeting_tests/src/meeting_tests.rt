ghost use Rattle.std.specs.Prelude.{IfOk};
ghost use Rattle.tg_graph.specs.StepWords.{IsNamedStep};
ghost use Rattle.tg_store.specs.Running.{IsOf};

use std::alloc::{AllocError, Global};
use std::test::Fail;
use std::{process, thread};
use tg_graph::{Graph, Name, Reply, Right, Rights, Rule, Step};
use tg_graph_trials::{graph, name};
use tg_hall_trials::Deed::{Abort, Begin, Commit, Holds, Share, Take};
use tg_hall_trials::Word::{Did, Done, No, Put, Yes};
use tg_hall_trials::{Row, shows, step_of};
use tg_store::{Begun, Committed, Seat, Session, Store};
use tg_store_trials::{Desk, agreeing, met, opened};

// Plays the rows, each of which is answered so.
fn play(rt: &impl process::Abort, desk: &mut Desk, rows: &[Row]) {
    assert!(rt; desk.play(rows) == None);
}

// The seat of the number has taken in so many records.
fn has_taken(rt: &impl process::Abort, desk: &Desk, number: u32, taken: usize) {
    let seat = desk.seat(number).expect(rt, "a free seat");
    assert!(rt; seat.taken() == taken);
}

// A store of four cells, over the vertices a, b and c, where the first seat has put that a takes r
// over c from b.
fn first_put(rt: &impl process::Abort, alloc: Global) -> Result<Desk, Fail> {
    let g = graph(alloc, "a b c", "a b t, b c r").expect(rt, "a graph");
    let (store, one, two) = opened(alloc, &g, 4)?;
    let mut desk = Desk::new(store, one, two);
    let rows = [
        (1, Begin, Done),
        (1, Take(*b"abc", b"r"), Did),
        (1, Commit, Put(0)),
    ];
    play(rt, &mut desk, &rows);
    has_taken(rt, &desk, 1, 1);
    Ok(desk)
}

// No call but a commit puts a record: after a meeting and a begin the next place is still free.
#[test]
fn nothing_put_in_passing(rt: HostRuntime) -> Result<(), Fail> {
    let mut desk = first_put(&rt, rt.alloc())?;
    assert!(rt; desk.meet() == Some(()));
    play(&rt, &mut desk, &[(2, Begin, Done), (2, Commit, Put(1))]);
    has_taken(&rt, &desk, 2, 2);
    Ok(())
}

// Both agree once they have met, and neither alone.
#[test]
fn seats_that_meet(rt: HostRuntime) -> Result<(), Fail> {
    let mut desk = first_put(&rt, rt.alloc())?;
    assert!(rt; desk.meet() == Some(()));
    assert!(rt; desk.knows(2, 0) == Some(true));
    assert!(rt; desk.knows(2, 1) == Some(false));
    assert!(rt; desk.agreed() == Some(true));
    assert!(rt; desk.agreed_alone() == Some(false));
    let two = desk.seat(2).expect(&rt, "a free seat");
    assert!(rt; shows(two.graph(), 3, &[(*b"ac", b"r")]));
    let rows = [
        (2, Begin, Done),
        (2, Holds(Right::R, *b"ac"), Yes),
        (2, Share(Right::W, *b"ac"), No),
        (2, Abort, Done),
    ];
    play(&rt, &mut desk, &rows);
    has_taken(&rt, &desk, 2, 1);
    Ok(())
}

// Each row of the seat's graph is its own: no other graph has it.
fn owns_its_rows(rt: &impl process::Abort, seat: &Seat) {
    let graph = seat.graph();
    for position in 0..graph.len() {
        assert!(rt; graph.row_owners(position) == Some(1));
    }
}

// Both seats are free, and no other graph has a row of theirs.
fn share_no_rows(rt: &impl process::Abort, desk: &Desk) {
    owns_its_rows(rt, desk.seat(1).expect(rt, "a free seat"));
    owns_its_rows(rt, desk.seat(2).expect(rt, "a free seat"));
}

// Seats share no row, neither from the start nor once each has taken in what the other has put.
#[test]
fn seats_share_no_rows(rt: HostRuntime) -> Result<(), Fail> {
    let g = graph(rt.alloc(), "a b c", "a b t, b c r").expect(&rt, "a graph");
    let (store, one, two) = opened(rt.alloc(), &g, 4)?;
    let mut desk = Desk::new(store, one, two);
    share_no_rows(&rt, &desk);
    play(
        &rt,
        &mut desk,
        &[
            (1, Begin, Done),
            (1, Take(*b"abc", b"r"), Did),
            (1, Commit, Put(0)),
        ],
    );
    assert!(rt; desk.meet() == Some(()));
    play(
        &rt,
        &mut desk,
        &[
            (2, Begin, Done),
            (2, Take(*b"abc", b"r"), Did),
            (2, Commit, Put(1)),
            (1, Begin, Done),
            (1, Abort, Done),
        ],
    );
    has_taken(&rt, &desk, 1, 2);
    has_taken(&rt, &desk, 2, 2);
    share_no_rows(&rt, &desk);
    Ok(())
}

// The letter and the number, below 100, in decimal.
fn lettered(letter: u8, number: u8) -> Option<Name> {
    let (tens, ones) = (b'0' + number / 10 % 10, b'0' + number % 10);
    let text = if number < 10 {
        Name::parse(&[letter, ones])
    } else {
        Name::parse(&[letter, tens, ones])
    };
    text.ok()
}

// x creates the vertex without rights over it.
fn creation(x: Name, n: Name) -> Step
    ensures { IsNamedStep result }
{
    let rights = Rights::of(Right::R).difference(Rights::of(Right::R));
    Step::Do(Rule::Create { x, n, rights })
}

// The two graphs have the same vertices at the same positions.
fn same_vertices(one: &Graph, other: &Graph) -> bool {
    let mut same = one.len() == other.len();
    for position in 0..one.len() {
        if one.name_at(position) != other.name_at(position) {
            same = false;
        }
    }
    same
}

// Commits a session with one step, and says where it stands.
fn committed(store: &Store, seat: Seat, step: Step) -> (Seat, Option<usize>)
    requires of { IsOf store.now seat }
    requires named { IsNamedStep step }
    ensures { IsOf store.now result.0 }
{
    let mut session = match store.begin(seat) {
        Begun::Session(session) => session,
        Begun::Refused(back, _) => return (back, None),
    };
    if session.step(step) != Ok(Reply::Done) {
        return (session.abort(), None);
    }
    match store.commit(session) {
        Committed::Done(back, receipt) => (back, Some(receipt.place)),
        Committed::Refused(back, _) => (back, None),
        Committed::Again(session) => (session.abort(), None),
    }
}

// Commits fifty sessions, each of which creates a vertex, and says where they stand.
fn fill(
    store: &Store,
    seat: Seat,
    x: Name,
    letter: u8,
    alloc: Global,
) -> Result<(Seat, Vec<usize>), AllocError>
    requires { IsOf store.now seat }
    ensures { IfOk result (λ r. IsOf store.now r.0) }
{
    let mut seat = seat;
    let mut places = Vec::new(alloc);
    for k in 0..50 {
        let Some(n) = lettered(letter, k) else {
            break;
        };
        let (back, place) = committed(store, seat, creation(x, n));
        seat = back;
        if let Some(place) = place {
            places.push(place)?;
        }
    }
    Ok((seat, places))
}

// Whether the places are 0 to 99, each once.
fn all_apart(places: &[usize], others: &[usize]) -> bool {
    let mut apart = places.len() == 50 && others.len() == 50;
    for place in 0..100 {
        if places.contains(&place) == others.contains(&place) {
            apart = false;
        }
    }
    apart
}

// The seats meet. Then they agree, and their graphs are the same.
fn united(rt: &impl process::Abort, store: &Store, one: Seat, two: Seat)
    requires { IsOf store.now one × IsOf store.now two }
{
    let (one, two, agreed) = agreeing(store, one, two);
    assert!(rt; !agreed);
    let two = met(store, two, &one).expect(rt, "a front");
    let one = met(store, one, &two).expect(rt, "a front");
    assert!(rt; one.graph().len() == 102);
    assert!(rt; same_vertices(one.graph(), two.graph()));
    let (_one, _two, agreed) = agreeing(store, one, two);
    assert!(rt; agreed);
}

#[test]
fn two_seats(rt: HostRuntime) -> Result<(), Fail> {
    let alloc = rt.alloc();
    let a = name("a").expect(&rt, "a name");
    let b = name("b").expect(&rt, "a name");
    let g = graph(alloc, "a b", "").expect(&rt, "a graph");
    let (store, one, two) = opened(alloc, &g, 100)?;
    let shared = &store;
    let (first, second) = thread::join(
        &rt,
        move || -> Result<(Seat, Vec<usize>), AllocError>
            requires { IsOf shared.now one }
            ensures { IfOk result (λ r. IsOf shared.entry.now r.0) }
        { fill(shared, one, a, b'p', alloc) },
        move || -> Result<(Seat, Vec<usize>), AllocError>
            requires { IsOf shared.now two }
            ensures { IfOk result (λ r. IsOf shared.entry.now r.0) }
        { fill(shared, two, b, b'q', alloc) },
    );
    let (one, places) = first?;
    let (two, others) = second?;
    assert!(rt; all_apart(places.as_slice(), others.as_slice()));
    united(&rt, &store, one, two);
    Ok(())
}

// Asks four times whether a can come to have w over c, which nobody has.
fn ask_often(rt: &impl process::Abort, session: &mut Session) {
    for _ in 0..4 {
        let asks = step_of(Share(Right::W, *b"ac")).expect(rt, "a step");
        let reply = session.step(asks);
        assert!(rt; reply == Ok(Reply::No));
    }
}

// Four questions that no edge answers are enough for a session to keep what they found.
#[test]
fn four_questions_are_kept(rt: HostRuntime) -> Result<(), Fail> {
    let g = graph(rt.alloc(), "a b c", "a b t, b c r").expect(&rt, "a graph");
    let (store, one, _two) = opened(rt.alloc(), &g, 4)?;
    let Begun::Session(mut session) = store.begin(one) else {
        panic!(rt; "no session");
    };
    ask_often(&rt, &mut session);
    assert!(rt; session.knows_any());
    Ok(())
}
