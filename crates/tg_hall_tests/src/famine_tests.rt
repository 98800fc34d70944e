// What a hall does without memory. Each test passes when every request for memory from some one on is
// refused, which `make refusals` tries: it ends early or with an error where it can't be set up, and
// else everything is answered.
use crate::test_halls::{acts, event, events, hall_of_three};
use std::alloc::{AllocError, Global};
use std::process;
use std::test::Fail;
use tg_graph::Right;
use tg_hall::{Hall, HallFault, HallReply};
use tg_hall_trials::Deed::{Abort, Begin, Learn, PutOnce, Remove, Share, Take};
use tg_hall_trials::Word::{
    AlreadyOpen, Changed, Did, Done, JournalFull, No, NoSeat, NotOpen, Nothing, Put,
};
use tg_hall_trials::{Row, holds, is_reply};

// Whether the row as an event is refused memory; else it is answered so.
fn is_refused(rt: &impl process::Abort, hall: &mut Hall, row: &Row) -> bool {
    let (seat, deed, word) = *row;
    let reply = hall.step(event(rt, seat, deed));
    let refused = reply == HallReply::Refused(HallFault::Memory);
    assert!(rt; refused || is_reply(word, reply));
    refused
}

// Whether the events are answered so, until one is refused for want of memory.
fn is_set_up(rt: &impl process::Abort, hall: &mut Hall, rows: &[Row]) -> bool {
    for row in rows {
        if is_refused(rt, hall, row) {
            return false;
        }
    }
    true
}

#[test]
fn bare_begin(rt: HostRuntime) -> Result<(), Fail> {
    let mut hall = hall_of_three(rt.alloc(), 4, 2)?;
    events(&rt, &mut hall, &[(1, Begin, Done)]);
    acts(&rt, &mut hall, &[(2, Begin, Done)]);
    events(&rt, &mut hall, &[(1, Abort, Done)]);
    acts(&rt, &mut hall, &[(2, Abort, Done)]);
    Ok(())
}

#[test]
fn events_refused(rt: HostRuntime) -> Result<(), Fail> {
    let mut hall = hall_of_three(rt.alloc(), 4, 1)?;
    events(&rt, &mut hall, &[(2, Begin, NoSeat), (1, PutOnce, NotOpen)]);
    acts(&rt, &mut hall, &[(1, Begin, Done)]);
    let rows = [(1, Begin, AlreadyOpen), (1, Learn, Nothing)];
    events(&rt, &mut hall, &rows);
    Ok(())
}

// Two sessions take the same right. The first is put, which changes the second.
#[test]
fn a_session_changed(rt: HostRuntime) -> Result<(), Fail> {
    let mut hall = hall_of_three(rt.alloc(), 4, 2)?;
    acts(&rt, &mut hall, &[(1, Begin, Done), (2, Begin, Done)]);
    let rows = [
        (1, Take(*b"abc", b"r"), Did),
        (2, Take(*b"abc", b"r"), Did),
        (1, PutOnce, Put(0)),
    ];
    if is_set_up(&rt, &mut hall, &rows) {
        events(&rt, &mut hall, &[(2, PutOnce, Changed(0, b'a'))]);
    }
    Ok(())
}

// What is there after the first seat has put a session without steps, in the only cell.
fn read(rt: &impl process::Abort, hall: &Hall) {
    assert!(rt; hall.len() == 1);
    assert!(rt; hall.taken(1) == Some(1));
    assert!(rt; hall.taken(2) == Some(0));
    assert!(rt; hall.taken(3).is_none());
    assert!(rt; hall.at(0).is_some());
    assert!(rt; hall.at(1).is_none());
    assert!(rt; hall.graph(3).is_none());
}

// The graph of the first seat.
fn read_graph(rt: &impl process::Abort, hall: &Hall) {
    let Some(one) = hall.graph(1) else {
        panic!(rt; "no graph");
    };
    assert!(rt; one.len() == 3);
    assert!(rt; holds(one, b'a', Right::T, b'b'));
}

#[test]
fn halls_read(rt: HostRuntime) -> Result<(), Fail> {
    let mut hall = hall_of_three(rt.alloc(), 1, 2)?;
    acts(&rt, &mut hall, &[(1, Begin, Done)]);
    if is_set_up(&rt, &mut hall, &[(1, PutOnce, Put(0))]) {
        read(&rt, &hall);
        read_graph(&rt, &hall);
        acts(&rt, &mut hall, &[(1, Begin, Done)]);
        events(&rt, &mut hall, &[(1, PutOnce, JournalFull)]);
    }
    Ok(())
}

// A row that the session has changed is changed again where it stands, also when the session asked what its
// graph shares in between.
#[test]
fn a_rule_after_a_question(rt: HostRuntime) -> Result<(), Fail> {
    let mut hall = hall_of_three(rt.alloc(), 4, 1)?;
    let rows = [
        (1, Begin, Done),
        (1, Take(*b"abc", b"r"), Did),
        (1, Share(Right::W, *b"ac"), No),
    ];
    if is_set_up(&rt, &mut hall, &rows) {
        events(&rt, &mut hall, &[(1, Remove(*b"ac", b"r"), Did)]);
    }
    Ok(())
}

// What refuses the first hall refuses the second one right after it.
fn refused_alike(rt: &impl process::Abort, first: &mut Hall, second: &mut Hall, rows: &[Row]) {
    for row in rows {
        if is_refused(rt, first, row) {
            assert!(rt; is_refused(rt, second, row));
            return;
        }
        if is_refused(rt, second, row) {
            return;
        }
    }
}

// Whether there is memory: then none was refused so far.
fn has_memory(alloc: Global) -> bool {
    let spare: Result<Vec<u8>, AllocError> = Vec::with_capacity(alloc, 1);
    spare.is_ok()
}

// Whether a hall's session has asked three questions, where memory was not refused for them, and knows
// something, or has given it up. It knows something where none was refused at all, and nothing once it has
// given up.
fn asked(rt: &impl process::Abort, alloc: Global, hall: &mut Hall, knows: bool) -> bool {
    let rows = [
        (1, Begin, Done),
        (1, Share(Right::W, *b"ac"), No),
        (1, Share(Right::W, *b"ac"), No),
        (1, Share(Right::W, *b"ac"), No),
    ];
    if !is_set_up(rt, hall, &rows) {
        return false;
    }
    assert!(rt; hall.knows_any() || !has_memory(alloc));
    if !knows {
        hall.give_up_known();
        assert!(rt; !hall.knows_any());
    }
    hall.knows_any() == knows
}

// A session that knows something is refused memory where one is that knows nothing.
#[test]
fn a_session_that_knows_after_one_that_does_not(rt: HostRuntime) -> Result<(), Fail> {
    let mut knowing = hall_of_three(rt.alloc(), 4, 1)?;
    let mut other = hall_of_three(rt.alloc(), 4, 1)?;
    let rows = [
        (1, Take(*b"abc", b"r"), Did),
        (1, Remove(*b"bc", b"r"), Did),
        (1, PutOnce, Put(0)),
    ];
    if asked(&rt, rt.alloc(), &mut knowing, true) && asked(&rt, rt.alloc(), &mut other, false) {
        refused_alike(&rt, &mut other, &mut knowing, &rows);
    }
    Ok(())
}

// And nowhere else, at no question either.
#[test]
fn a_session_that_knows_before_one_that_does_not(rt: HostRuntime) -> Result<(), Fail> {
    let mut knowing = hall_of_three(rt.alloc(), 4, 1)?;
    let mut other = hall_of_three(rt.alloc(), 4, 1)?;
    let rows = [
        (1, Share(Right::E, *b"ab"), No),
        (1, Take(*b"abc", b"r"), Did),
        (1, Share(Right::E, *b"ab"), No),
        (1, Share(Right::E, *b"ab"), No),
        (1, Share(Right::E, *b"ab"), No),
        (1, Remove(*b"bc", b"r"), Did),
        (1, PutOnce, Put(0)),
    ];
    if asked(&rt, rt.alloc(), &mut knowing, true) && asked(&rt, rt.alloc(), &mut other, false) {
        refused_alike(&rt, &mut knowing, &mut other, &rows);
    }
    Ok(())
}
