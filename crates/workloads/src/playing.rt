//! Sessions are played in a hall.
use crate::chance::Chance;
use crate::digest::Digest;
use crate::fault::Fault;
use crate::plans::{Edges, Labels, Plan, Spelling};
use crate::sizes::Size;
use crate::steps::{Steps, step};
use crate::texts::{graph, names};
use std::alloc::Global;
use tg_graph::{Act, Graph, Name};
use tg_store::{Hall, HallFault, HallReply};

// Takes in why an act was refused.
fn add_fault(digest: &mut Digest, fault: &HallFault) {
    match *fault {
        HallFault::NoSeat => digest.add(41),
        HallFault::AlreadyOpen => digest.add(42),
        HallFault::NotOpen => digest.add(43),
        HallFault::Changed { place, name } => digest.add_place_and_name(44, place, name),
        HallFault::Crowded { place } => digest.add_place(45, place),
        HallFault::JournalFull => digest.add(46),
        HallFault::Memory => digest.add(47),
    }
}

// Takes the answer to an act in.
fn add_answer(digest: &mut Digest, answer: &HallReply) {
    match answer {
        HallReply::Done => digest.add(31),
        HallReply::Learned(place) => digest.add_place(32, *place),
        HallReply::Nothing => digest.add(33),
        HallReply::Said(reply) => digest.add_reply(reply),
        HallReply::Put(place) => digest.add_place(34, *place),
        HallReply::Refused(fault) => add_fault(digest, fault),
    }
}

// A kind of play.
#[derive(Clone, Copy)]
struct Playing {
    seats: u32,
    commits: usize,
    // How many steps a session has.
    length: usize,
    steps: Steps,
}

// Plays one session.
fn play_session(
    hall: &mut Hall,
    seat: u32,
    play: &Playing,
    names: &[Name],
    chance: &mut Chance,
    digest: &mut Digest,
) {
    for _ in 0..play.length {
        let step = step(play.steps, names, chance);
        add_answer(digest, &hall.act(seat, &Act::Stage(step)));
    }
}

// Has the seats begin in turn, each before the others commit, and commit in turn.
fn play_round(
    hall: &mut Hall,
    play: &Playing,
    names: &[Name],
    chance: &mut Chance,
    digest: &mut Digest,
) {
    for _ in 0..play.seats {
        let seat = u32::try_from(chance.below(play.seats as usize)).unwrap_or(0);
        let seat = seat.saturating_add(1);
        add_answer(digest, &hall.act(seat, &Act::Begin));
        play_session(hall, seat, play, names, chance, digest);
        if chance.below(8) > 0 {
            add_answer(digest, &hall.act(seat, &Act::Commit));
        }
    }
}

// Plays sessions on a graph.
fn play_on(
    alloc: Global,
    graph: &Graph,
    names: &[Name],
    play: &Playing,
    chance: &mut Chance,
    digest: &mut Digest,
) -> Result<(), Fault> {
    let Ok(mut hall) = Hall::new(alloc, graph, 4_096, play.seats) else {
        return Err(Fault::Refused);
    };
    let rounds = play.commits.checked_div(play.seats as usize).unwrap_or(0);
    for _ in 0..rounds {
        play_round(&mut hall, play, names, chance, digest);
    }
    let last = hall.last()?;
    digest.add_graph(alloc, &last)?;
    Ok(())
}

// Makes a graph, and plays sessions on it.
fn play_plan(
    alloc: Global,
    plan: &Plan,
    play: &Playing,
    chance: &mut Chance,
    digest: &mut Digest,
) -> Result<(), Fault> {
    let names = names(alloc, plan)?;
    let graph = graph(alloc, plan, &names, chance)?;
    play_on(alloc, &graph, &names, play, chance, digest)
}

/// Sessions that change a graph.
pub(crate) fn play_changing(
    alloc: Global,
    size: &Size,
    chance: &mut Chance,
    digest: &mut Digest,
) -> Result<(), Fault> {
    let sparse = Plan::scattered(size.vertices, 4, Labels::Several);
    let large = Plan::scattered(size.many, 4, Labels::Several);
    let dense = Plan::scattered(size.vertices, size.vertices / 8, Labels::One);
    let commits = size.part_of(5_120);
    for seats in [1, 16, 64] {
        let play = Playing {
            seats,
            commits,
            length: 3,
            steps: Steps::Changes,
        };
        play_plan(alloc, &sparse, &play, chance, digest)?;
        play_plan(alloc, &large.spelt(Spelling::Alike), &play, chance, digest)?;
        play_plan(alloc, &dense, &play, chance, digest)?;
    }
    Ok(())
}

/// Sessions that mostly ask what can be shared.
pub(crate) fn play_asking(
    alloc: Global,
    size: &Size,
    chance: &mut Chance,
    digest: &mut Digest,
) -> Result<(), Fault> {
    let sparse = Plan::scattered(size.vertices, 4, Labels::Several);
    let groups = Plan::scattered(size.vertices, 4, Labels::One).with_edges(Edges::InGroups);
    let large = Plan::scattered(size.many, 4, Labels::One);
    for (seats, plan, questions) in [
        (4, sparse, 8_192),
        (64, sparse, 4_096),
        (16, groups, 8_192),
        (16, large, 1_024),
    ] {
        let play = Playing {
            seats,
            commits: size.part_of(questions) / 10,
            length: 12,
            steps: Steps::Questions,
        };
        play_plan(alloc, &plan, &play, chance, digest)?;
    }
    Ok(())
}
