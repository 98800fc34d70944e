// Each shape of answer that an event or an act has beyond those of a script, with memory for all, and what can be
// read of a hall.
use crate::test_halls::{acts, ends, event, events, hall_of_three, rests};
use std::test::Fail;
use tg_graph::{Graph, Right};
use tg_graph_trials::graph;
use tg_hall::Hall;
use tg_hall_trials::Deed::{
    Abort, Begin, Commit, Create, Holds, Learn, PutOnce, Remove, Share, Take,
};
use tg_hall_trials::Word::{
    AlreadyOpen, Changed, Did, Done, JournalFull, Learned, No, NoSeat, NotOpen, Nothing, Put,
    Unknown, Yes,
};
use tg_hall_trials::is_reply;

#[test]
fn begins_and_aborts(rt: HostRuntime) -> Result<(), Fail> {
    let mut hall = hall_of_three(rt.alloc(), 4, 2)?;
    let rows = [
        (3, Begin, NoSeat),
        (0, Abort, NoSeat),
        (1, Abort, NotOpen),
        (1, Begin, Done),
        (1, Begin, AlreadyOpen),
        (1, Abort, Done),
        (1, Abort, NotOpen),
    ];
    events(&rt, &mut hall, &rows);
    let rows = [
        (3, Begin, NoSeat),
        (3, Holds(Right::T, *b"ab"), NoSeat),
        (3, Commit, NoSeat),
        (3, Abort, NoSeat),
    ];
    acts(&rt, &mut hall, &rows);
    Ok(())
}

#[test]
fn records_learnt(rt: HostRuntime) -> Result<(), Fail> {
    let mut hall = hall_of_three(rt.alloc(), 4, 3)?;
    let rows = [(4, Learn, NoSeat), (1, Learn, Nothing)];
    events(&rt, &mut hall, &rows);
    let rows = [
        (1, Begin, Done),
        (2, Begin, Done),
        (3, Begin, Done),
        (1, Take(*b"abc", b"r"), Did),
        (2, Holds(Right::R, *b"bc"), Yes),
        (3, Holds(Right::R, *b"ac"), No),
        (1, Commit, Put(0)),
    ];
    acts(&rt, &mut hall, &rows);
    let rows = [(2, Learn, Learned(0)), (3, Learn, Changed(0, b'a'))];
    events(&rt, &mut hall, &rows);
    Ok(())
}

#[test]
fn sessions_put(rt: HostRuntime) -> Result<(), Fail> {
    let mut hall = hall_of_three(rt.alloc(), 2, 3)?;
    let rows = [
        (4, PutOnce, NoSeat),
        (1, PutOnce, NotOpen),
        (1, Begin, Done),
        (2, Begin, Done),
        (3, Begin, Done),
        (1, PutOnce, Put(0)),
        (2, PutOnce, Learned(0)),
        (2, PutOnce, Put(1)),
        (3, PutOnce, Learned(0)),
        (3, PutOnce, Learned(1)),
        (3, PutOnce, JournalFull),
    ];
    events(&rt, &mut hall, &rows);
    Ok(())
}

// The third seat's session is changed by the second record, and the seat rests on the first alone. When it begins
// again, it takes in both.
#[test]
fn what_a_seat_has_taken(rt: HostRuntime) -> Result<(), Fail> {
    let g = graph(rt.alloc(), "a b c d", "a b t, b c r").expect(&rt, "a graph");
    let mut hall = Hall::new(rt.alloc(), &g, 8, 3)?;
    let rows = [
        (1, Begin, Done),
        (2, Begin, Done),
        (3, Begin, Done),
        (1, Take(*b"abc", b"r"), Did),
        (2, Create(*b"dn", b"g"), Did),
        (3, Remove(*b"dn", b"g"), Unknown(b'n')),
        (1, Commit, Put(0)),
    ];
    acts(&rt, &mut hall, &rows);
    assert!(rt; hall.taken(1) == Some(1));
    assert!(rt; hall.taken(2) == Some(0));
    let rows = [(2, Commit, Put(1)), (3, Commit, Changed(1, b'd'))];
    acts(&rt, &mut hall, &rows);
    // n is no vertex there
    rests(&rt, &hall, 3, 1, 4, &[(*b"ac", b"r")]);
    acts(&rt, &mut hall, &[(3, Begin, Done)]);
    assert!(rt; hall.taken(3) == Some(2));
    events(&rt, &mut hall, &[(3, Abort, Done), (3, Learn, Nothing)]);
    Ok(())
}

#[test]
fn what_no_seat_has_taken(rt: HostRuntime) -> Result<(), Fail> {
    let hall = hall_of_three(rt.alloc(), 2, 2)?;
    assert!(rt; hall.taken(0).is_none());
    assert!(rt; hall.taken(3).is_none());
    assert!(rt; hall.graph(0).is_none());
    assert!(rt; hall.graph(2).is_some());
    assert!(rt; hall.graph(3).is_none());
    Ok(())
}

// Three questions that no edge answers are enough for a session to keep what they found, until it is given up.
#[test]
fn three_questions_are_kept(rt: HostRuntime) -> Result<(), Fail> {
    let mut hall = hall_of_three(rt.alloc(), 4, 1)?;
    let rows = [
        (1, Begin, Done),
        (1, Share(Right::W, *b"ac"), No),
        (1, Share(Right::W, *b"ac"), No),
        (1, Share(Right::W, *b"ac"), No),
    ];
    events(&rt, &mut hall, &rows);
    assert!(rt; hall.knows_any());
    assert!(rt; hall.give_up_known());
    assert!(rt; !hall.knows_any());
    assert!(rt; !hall.give_up_known());
    let rows = [(1, Share(Right::W, *b"ac"), No)];
    events(&rt, &mut hall, &rows);
    Ok(())
}

#[test]
fn nine_events_in_one_run(rt: HostRuntime) -> Result<(), Fail> {
    let mut hall = hall_of_three(rt.alloc(), 4, 2)?;
    let replies = hall.run(&[
        event(&rt, 1, Begin),
        event(&rt, 1, Take(*b"abc", b"r")),
        event(&rt, 1, PutOnce),
        event(&rt, 2, Begin),
        event(&rt, 2, Holds(Right::R, *b"ac")),
        event(&rt, 2, PutOnce),
        event(&rt, 2, Learn),
        event(&rt, 2, Learn),
        event(&rt, 3, Begin),
    ])?;
    let words = [
        Done,
        Did,
        Put(0),
        Done,
        No,
        Changed(0, b'a'),
        Learned(0),
        Nothing,
        NoSeat,
    ];
    assert!(rt; replies.as_slice().len() == words.len());
    for (reply, word) in replies.as_slice().iter().zip(words.iter()) {
        assert!(rt; is_reply(*word, *reply));
    }
    ends(&rt, &hall, 3, &[(*b"ac", b"r")]);
    Ok(())
}

#[test]
fn a_record_that_stands(rt: HostRuntime) -> Result<(), Fail> {
    let g = Graph::new(rt.alloc());
    let mut hall = Hall::new(rt.alloc(), &g, 4, 2)?;
    let rows = [(2, Begin, Done), (2, Commit, Put(0))];
    acts(&rt, &mut hall, &rows);
    match hall.at(0) {
        Some(record) => {
            assert!(rt; record.seat == 2);
            assert!(rt; record.number == 0);
            assert!(rt; record.steps.as_slice().is_empty());
        }
        None => panic!(rt; "no record"),
    }
    assert!(rt; hall.at(1).is_none());
    Ok(())
}
