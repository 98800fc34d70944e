//! Halls for the tests, and rows that they answer.
ghost use Rattle.tg_graph.specs.StepWords.{IsStageableAct};
ghost use Rattle.tg_hall.specs.Worlds.{IsStageable};

use std::alloc::{AllocError, Global};
use std::process::Abort;
use std::test::Fail;
use tg_graph::Act;
use tg_graph_trials::graph;
use tg_hall::{Event, Hall};
use tg_hall_trials::{Deed, Label, Row, act_of, event_of, is_reply, shows};

/// A hall over the vertices a, b and c, of which a has t over b, and b has r over c.
pub fn hall_of_three(alloc: Global, cells: usize, seats: u32) -> Result<Hall, Fail> {
    let graph = graph(alloc, "a b c", "a b t, b c r").ok_or(AllocError)?;
    Ok(Hall::new(alloc, &graph, cells, seats)?)
}

/// The event that a deed of a seat is.
pub fn event(rt: &impl Abort, seat: u32, deed: Deed) -> Event
    ensures { IsStageable result }
{
    event_of(seat, deed).expect(rt, "an event")
}

fn act(rt: &impl Abort, deed: Deed) -> Act
    ensures { IsStageableAct result }
{
    act_of(deed).expect(rt, "an act")
}

/// The rows as acts of a hall, each of which is answered so.
pub fn acts(rt: &impl Abort, hall: &mut Hall, rows: &[Row]) {
    for at in 0..rows.len() {
        let (seat, deed, word) = rows[at];
        let reply = hall.act(seat, &act(rt, deed));
        assert!(rt; is_reply(word, reply), "row {at}");
    }
}

/// The rows as events of a hall, each of which is answered so.
pub fn events(rt: &impl Abort, hall: &mut Hall, rows: &[Row]) {
    for at in 0..rows.len() {
        let (seat, deed, word) = rows[at];
        let reply = hall.step(event(rt, seat, deed));
        assert!(rt; is_reply(word, reply), "row {at}");
    }
}

/// The replay of all records of the hall has so many vertices, and these labels.
pub fn ends(rt: &impl Abort, hall: &Hall, len: usize, labels: &[Label]) {
    match hall.last() {
        Ok(last) => assert!(rt; shows(&last, len, labels)),
        Err(_) => panic!(rt; "no graph"),
    }
}

/// The seat of the hall has taken in so many records, and its graph has so many vertices, and these
/// labels.
pub fn rests(rt: &impl Abort, hall: &Hall, seat: u32, taken: usize, len: usize, labels: &[Label]) {
    assert!(rt; hall.taken(seat) == Some(taken));
    match hall.graph(seat) {
        Some(graph) => assert!(rt; shows(graph, len, labels)),
        None => panic!(rt; "no seat"),
    }
}
