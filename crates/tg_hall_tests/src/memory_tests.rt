// Each test passes whichever one request for memory is refused, which `make refusals` tries. Where a
// call was refused memory, its second try has it.
ghost use Rattle.tg_graph.specs.StepWords.{IsStageableAct};
ghost use Rattle.tg_hall.specs.Worlds.{IsStageable};

use std::alloc::{AllocError, Global};
use std::process::Abort;
use tg_graph::{Act, Graph, Right};
use tg_graph_trials::graph;
use tg_hall::{Event, Hall, HallFault, HallReply, StoreFault};
use tg_hall_trials::Deed::{Begin, Commit, Create, Learn, PutOnce, Share};
use tg_hall_trials::Word::{Did, Done, Learned, No, Put, Yes};
use tg_hall_trials::{Deed, Row, act_of, event_of, holds, is_reply};

// Two seats and four cells over the graph, where memory was not refused.
fn made(rt: &impl Abort, alloc: Global, graph: &Graph) -> Option<Hall> {
    match Hall::new(alloc, graph, 4, 2) {
        Ok(hall) => Some(hall),
        Err(fault) => {
            assert!(rt; fault == StoreFault::Memory);
            None
        }
    }
}

// Two seats and four cells over the vertex a.
fn opened(rt: &impl Abort, alloc: Global) -> Hall {
    let opening = match graph(alloc, "a", "") {
        Some(opening) => opening,
        None => graph(alloc, "a", "").expect(rt, "a graph"),
    };
    match made(rt, alloc, &opening) {
        Some(hall) => hall,
        None => made(rt, alloc, &opening).expect(rt, "a hall"),
    }
}

fn event(rt: &impl Abort, seat: u32, deed: Deed) -> Event
    ensures { IsStageable result }
{
    event_of(seat, deed).expect(rt, "an event")
}

fn act(rt: &impl Abort, deed: Deed) -> Act
    ensures { IsStageableAct result }
{
    act_of(deed).expect(rt, "an act")
}

fn is_refused_memory(reply: &HallReply) -> bool {
    matches!(reply, HallReply::Refused(HallFault::Memory))
}

// The row as an event, which is answered so. Where memory was refused, nothing has changed.
fn happened(rt: &impl Abort, hall: &mut Hall, row: &Row) {
    let (seat, deed, word) = *row;
    let len = hall.len();
    let first = hall.taken(1);
    let second = hall.taken(2);
    let mut answer = hall.step(event(rt, seat, deed));
    if is_refused_memory(&answer) {
        assert!(rt; hall.len() == len);
        assert!(rt; hall.taken(1) == first);
        assert!(rt; hall.taken(2) == second);
        answer = hall.step(event(rt, seat, deed));
    }
    assert!(rt; is_reply(word, answer));
}

fn happen(rt: &impl Abort, hall: &mut Hall, rows: &[Row]) {
    for row in rows {
        happened(rt, hall, row);
    }
}

// The row as an act, which is answered so. Where memory was refused, no record was put.
fn told(rt: &impl Abort, hall: &mut Hall, row: &Row) {
    let (seat, deed, word) = *row;
    let len = hall.len();
    let mut answer = hall.act(seat, &act(rt, deed));
    if is_refused_memory(&answer) {
        assert!(rt; hall.len() == len);
        answer = hall.act(seat, &act(rt, deed));
    }
    assert!(rt; is_reply(word, answer));
}

fn tell(rt: &impl Abort, hall: &mut Hall, rows: &[Row]) {
    for row in rows {
        told(rt, hall, row);
    }
}

fn last_of(hall: &Hall) -> Result<Graph, AllocError> {
    match hall.last() {
        Ok(graph) => Ok(graph),
        Err(_) => hall.last(),
    }
}

// The replay of all records has so many vertices, and in it x has r over y.
fn ends(rt: &impl Abort, hall: &Hall, len: usize, x: u8, y: u8) {
    match last_of(hall) {
        Ok(last) => {
            assert!(rt; last.len() == len);
            assert!(rt; holds(&last, x, Right::R, y));
        }
        Err(AllocError) => panic!(rt; "no graph"),
    }
}

#[test]
fn refused_acts(rt: HostRuntime) {
    let mut hall = opened(&rt, rt.alloc());
    let rows = [
        (1, Begin, Done),
        (1, Create(*b"ab", b"r"), Did),
        (1, Commit, Put(0)),
        (2, Begin, Done),
        (2, Share(Right::R, *b"ab"), Yes),
    ];
    tell(&rt, &mut hall, &rows);
    ends(&rt, &hall, 2, b'a', b'b');
}

#[test]
fn refused_events(rt: HostRuntime) {
    let mut hall = opened(&rt, rt.alloc());
    let rows = [
        (1, Begin, Done),
        (1, Create(*b"ab", b"r"), Did),
        (1, PutOnce, Put(0)),
        (2, Learn, Learned(0)),
    ];
    happen(&rt, &mut hall, &rows);
    assert!(rt; hall.len() == 1);
    assert!(rt; hall.taken(2) == Some(1));
}

// What a session asks before its first rule, and after each. It finds islands in between.
#[test]
fn refused_questions(rt: HostRuntime) {
    let mut hall = opened(&rt, rt.alloc());
    let rows = [
        (1, Begin, Done),
        (1, Create(*b"ab", b"tr"), Did),
        (1, PutOnce, Put(0)),
        (1, Begin, Done),
        (1, Share(Right::W, *b"ab"), No),
        (1, Share(Right::E, *b"ab"), No),
        (1, Share(Right::W, *b"ba"), No),
        (1, Create(*b"ad", b"g"), Did),
        (1, Share(Right::W, *b"ab"), No),
        (1, Share(Right::R, *b"bb"), Yes),
        (1, Share(Right::E, *b"ba"), No),
        (1, Share(Right::R, *b"bb"), Yes),
        (1, Create(*b"bc", b"r"), Did),
        (1, Share(Right::R, *b"ac"), Yes),
        (1, Share(Right::W, *b"ac"), No),
        (1, PutOnce, Put(1)),
        (2, Learn, Learned(0)),
        (2, Learn, Learned(1)),
    ];
    happen(&rt, &mut hall, &rows);
    ends(&rt, &hall, 4, b'b', b'c');
}

// A record is taken in under an open session, which goes on from where it was.
#[test]
fn refused_under_a_session(rt: HostRuntime) {
    let mut hall = opened(&rt, rt.alloc());
    let rows = [
        (1, Begin, Done),
        (1, Create(*b"ab", b"r"), Did),
        (1, PutOnce, Put(0)),
        (2, Learn, Learned(0)),
        (1, Begin, Done),
        (2, Begin, Done),
        (1, Create(*b"ac", b"r"), Did),
        (2, Create(*b"bd", b"r"), Did),
        (1, PutOnce, Put(1)),
        (2, PutOnce, Learned(1)),
        (2, Create(*b"be", b"r"), Did),
        (2, PutOnce, Put(2)),
    ];
    happen(&rt, &mut hall, &rows);
    ends(&rt, &hall, 5, b'b', b'e');
}

// A run of a begin and a put. One that was refused memory for its replies has done nothing.
fn run(rt: &impl Abort, hall: &mut Hall) -> Option<[HallReply; 2]> {
    match hall.run(&[event(rt, 1, Begin), event(rt, 1, PutOnce)]) {
        Ok(replies) => match replies.as_slice() {
            [begun, put] => Some([*begun, *put]),
            _ => panic!(rt; "not two replies"),
        },
        Err(AllocError) => {
            assert!(rt; hall.len() == 0);
            None
        }
    }
}

#[test]
fn refused_in_a_run(rt: HostRuntime) {
    let mut hall = opened(&rt, rt.alloc());
    let replies = match run(&rt, &mut hall) {
        Some(replies) => replies,
        None => run(&rt, &mut hall).expect(&rt, "replies"),
    };
    let [begun, put] = replies;
    // Where no session was opened, none is put.
    assert!(rt; begun == HallReply::Done || is_refused_memory(&begun));
    assert!(rt; hall.len() == if put == HallReply::Put(0) { 1 } else { 0 });
}

// The first seat puts a session that creates b, and opens another, which asks until it knows something, also
// where memory is refused for it once.
fn know(rt: &impl Abort, hall: &mut Hall) {
    let rows = [
        (1, Begin, Done),
        (1, Create(*b"ab", b"tr"), Did),
        (1, PutOnce, Put(0)),
        (1, Begin, Done),
    ];
    happen(rt, hall, &rows);
    for _ in 0..4 {
        happened(rt, hall, &(1, Share(Right::W, *b"ab"), No));
    }
    assert!(rt; hall.knows_any());
}

// Whether memory was refused at the second seat, which it never is while the first one knows something.
fn is_refused_beside(rt: &impl Abort, knew: bool, reply: &HallReply) -> bool {
    let refused = is_refused_memory(reply);
    assert!(rt; !(refused && knew));
    refused
}

#[test]
fn events_beside_a_session_that_knows(rt: HostRuntime) {
    let mut hall = opened(&rt, rt.alloc());
    know(&rt, &mut hall);
    let rows = [
        (2, Learn, Learned(0)),
        (2, Begin, Done),
        (2, Create(*b"bc", b"r"), Did),
        (2, Share(Right::W, *b"bc"), No),
        (2, PutOnce, Put(1)),
    ];
    for row in &rows {
        let (seat, deed, word) = *row;
        let knew = hall.knows_any();
        let reply = hall.step(event(&rt, seat, deed));
        if is_refused_beside(&rt, knew, &reply) {
            happened(&rt, &mut hall, row);
        } else {
            assert!(rt; is_reply(word, reply));
        }
    }
}

#[test]
fn an_act_beside_a_session_that_knows(rt: HostRuntime) {
    let mut hall = opened(&rt, rt.alloc());
    know(&rt, &mut hall);
    let knew = hall.knows_any();
    let reply = hall.act(2, &act(&rt, Begin));
    assert!(rt; !is_refused_beside(&rt, knew, &reply));
    assert!(rt; hall.taken(2) == Some(1));
}

#[test]
fn a_run_beside_a_session_that_knows(rt: HostRuntime) {
    let mut hall = opened(&rt, rt.alloc());
    know(&rt, &mut hall);
    let knew = hall.knows_any();
    let ran = hall
        .run(&[event(&rt, 2, Begin), event(&rt, 2, Learn)])
        .is_ok();
    assert!(rt; ran || !knew);
}

// A put that is refused gives up what the session knows.
#[test]
fn a_refused_put_after_questions(rt: HostRuntime) {
    let mut hall = opened(&rt, rt.alloc());
    know(&rt, &mut hall);
    let reply = hall.step(event(&rt, 1, PutOnce));
    assert!(rt; !hall.knows_any());
    if is_refused_memory(&reply) {
        happened(&rt, &mut hall, &(1, PutOnce, Put(1)));
    } else {
        assert!(rt; reply == HallReply::Put(1));
    }
}
