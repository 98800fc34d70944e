// Each test passes whichever one request for memory is refused, which `make refusals` tries. Where a
// call was refused memory, its second try has it.
ghost use Rattle.std.specs.Prelude.{IfSome};
ghost use Rattle.tg_graph.specs.StepWords.{IsNamedStep};

use std::alloc::{AllocError, Global};
use std::process::Abort;
use std::test::Fail;
use std::thread::Threads;
use tg_graph::{Act, Name, Refusal, Right, Rule, Step};
use tg_reports::{
    Command, LONGEST_LINE, Player, Report, make_room_in_race, make_room_in_run, race, report,
    report_of_texts,
};
use tg_store::{Begun, Hall, Session, Store};
use tg_text::read_graph;

const GRAPH: &[u8] = b"vertex a\nvertex b\nvertex c\nedge a b g\nedge b c r\n";

// The report of a command for two texts, by its second try where the first was refused memory.
fn made<R: Threads + Sync + AllocGlobal>(
    rt: &R,
    command: Command,
    first: &[u8],
    second: &[u8],
) -> Result<Report, AllocError> {
    if let Ok(made) = report(rt, rt.alloc(), &command, first, second) {
        return Ok(made);
    }
    report(rt, rt.alloc(), &command, first, second)
}

// The report has these bytes.
fn reports<R: Abort + Threads + Sync + AllocGlobal>(
    rt: &R,
    command: Command,
    second: &[u8],
    wanted: &[u8],
) -> Result<(), AllocError> {
    let made = made(rt, command, GRAPH, second)?;
    assert!(rt; made.bytes.as_slice() == wanted);
    Ok(())
}

#[test]
fn refused_graphs(rt: HostRuntime) -> Result<(), Fail> {
    reports(&rt, Command::Check, b"", GRAPH)?;
    reports(&rt, Command::Islands, b"", b"a b\nc\n")?;
    Ok(())
}

// The report of `check` for texts that it takes, which are copies of these.
fn checked<R: Threads + Sync + AllocGlobal>(rt: &R, first: &[u8]) -> Result<Report, AllocError> {
    let alloc = rt.alloc();
    let first = Vec::from_slice(alloc, first)?;
    report_of_texts(rt, alloc, &Command::Check, first, Vec::new(alloc))
}

#[test]
fn refused_canonical_texts(rt: HostRuntime) -> Result<(), Fail> {
    let text = b"version 2\nvertex b\nvertex a\nedge a b a\n";
    let made = match checked(&rt, text) {
        Ok(made) => made,
        Err(AllocError) => checked(&rt, text)?,
    };
    assert!(rt; made.bytes.as_slice() == b"version 2\nvertex a\nvertex b\nedge a b a\n".as_slice());
    assert!(rt; made.status == 0);
    Ok(())
}

#[test]
fn refused_tables(rt: HostRuntime) -> Result<(), Fail> {
    let (right, workers) = ("r", 2);
    let table = Command::Table { right, workers };
    reports(&rt, table, b"", b"a 001\nb 001\nc 000\n")?;
    Ok(())
}

#[test]
fn refused_questions_about_one_vertex(rt: HostRuntime) -> Result<(), Fail> {
    let (rights, y) = ("r", "c");
    reports(&rt, Command::Who { rights, y }, b"", b"a\nb\n")?;
    reports(&rt, Command::Reach { x: "a" }, b"", b"b g\nc r\n")?;
    Ok(())
}

#[test]
fn refused_cuts(rt: HostRuntime) -> Result<(), Fail> {
    let (right, x, y) = ("r", "a", "c");
    let none: &[&str] = &[];
    let one: &[&str] = &["--keep", "a", "b"];
    for (kept, wanted) in [
        (none, b"# cut 1\nremove a b g\n".as_slice()),
        (one, b"# cut 1\nremove b c r\n"),
    ] {
        reports(&rt, Command::Cut { right, x, y, kept }, b"", wanted)?;
    }
    Ok(())
}

#[test]
fn refused_policies(rt: HostRuntime) -> Result<(), Fail> {
    let policy = b"group g b a\nonly r c @g\nmay r @g c\nnever w @g c\n";
    let kept = b"2 holds\n3 holds\n4 holds\nkept\n";
    reports(&rt, Command::Verify { why: false }, policy, kept)?;
    let broken = b"1 fails r b c\n# yes 0\nbroken 1\n";
    reports(&rt, Command::Verify { why: true }, b"only r c a\n", broken)?;
    reports(
        &rt,
        Command::Verify { why: true },
        b"only r c @g\n",
        b"refused policy line 1 unknown-group\n",
    )?;
    Ok(())
}

#[test]
fn refused_rules(rt: HostRuntime) -> Result<(), Fail> {
    reports(
        &rt,
        Command::Apply,
        b"remove b c r\nremove a b g\n",
        b"1 done\n2 done\ngraph\nvertex a\nvertex b\nvertex c\n",
    )?;
    Ok(())
}

// A text with its rules. What was refused at a line is printed at that line.
#[test]
fn refused_cases(rt: HostRuntime) -> Result<(), Fail> {
    let text = b"vertex a\nrules\ncreate a b r\ntake a b b r\n";
    let made = made(&rt, Command::Case, text, b"")?;
    let wanted = b"1 done\n2 refused no-take\ngraph\nvertex a\nvertex b\nedge a b r\n";
    assert!(rt; made.bytes.as_slice() == wanted.as_slice());
    assert!(rt; made.status == 1);
    Ok(())
}

#[test]
fn refused_questions(rt: HostRuntime) -> Result<(), Fail> {
    let (x, y) = ("a", "c");
    for (rights, share, derive) in [
        (
            "r",
            b"yes\n".as_slice(),
            b"# yes 4\ncreate a _0 tg\ngrant a b _0 g\ngrant b _0 c r\ntake a _0 c r\n".as_slice(),
        ),
        ("rw", b"no\n", b"# no\n"),
    ] {
        reports(&rt, Command::Share { rights, x, y }, b"", share)?;
        reports(&rt, Command::Derive { rights, x, y }, b"", derive)?;
    }
    Ok(())
}

#[test]
fn refused_scripts(rt: HostRuntime) -> Result<(), Fail> {
    reports(
        &rt,
        Command::Run,
        b"seats 1\ncells 1\n1 begin\n1 remove b c r\n1 commit\n",
        b"3 1 done\n4 1 done\n5 1 done 0\ngraph\nvertex a\nvertex b\nvertex c\nedge a b g\n",
    )?;
    Ok(())
}

// A question that is answered no.
fn question() -> Option<Step>
    ensures { IfSome result IsNamedStep }
{
    let (x, y) = (Name::parse(b"a").ok()?, Name::parse(b"c").ok()?);
    let right = Right::W;
    Some(Step::Share { right, x, y })
}

// A hall whose one session has asked four times: so it knows something, also where memory was refused for
// that once.
fn asking_hall(alloc: Global) -> Option<Hall> {
    let graph = read_graph(alloc, GRAPH).ok()?;
    let mut hall = Hall::new(alloc, &graph, 1, 1).ok()?;
    let ask = Act::Stage(question()?);
    let _ = hall.act(1, &Act::Begin);
    for _ in 0..4 {
        let _ = hall.act(1, &ask);
    }
    Some(hall)
}

fn hall_that_asked(rt: &impl Abort, alloc: Global) -> Hall {
    match asking_hall(alloc) {
        Some(hall) => hall,
        None => asking_hall(alloc).expect(rt, "a hall"),
    }
}

// A session of a store that has asked likewise.
fn asking_session(alloc: Global) -> Option<Session> {
    // the check is told of the types inside a step and its reply by these
    let _rule: Option<Rule> = None;
    let _refusal: Option<Refusal> = None;
    let graph = read_graph(alloc, GRAPH).ok()?;
    let (store, mut seats) = Store::start(alloc, &graph, 1, 1).ok()?;
    let Begun::Session(mut session) = store.begin(seats.pop()?) else {
        return None;
    };
    let ask = question()?;
    for _ in 0..4 {
        let _ = session.step(ask);
    }
    Some(session)
}

fn session_that_asked(rt: &impl Abort, alloc: Global) -> Session {
    match asking_session(alloc) {
        Some(session) => session,
        None => asking_session(alloc).expect(rt, "a session"),
    }
}

#[test]
fn sessions_that_asked_know_something(rt: HostRuntime) {
    assert!(rt; hall_that_asked(&rt, rt.alloc()).give_up_known());
    assert!(rt; session_that_asked(&rt, rt.alloc()).give_up_known());
}

// A line finds room, whichever request is refused, beside sessions that know something.
#[test]
fn room_for_a_line_of_a_run(rt: HostRuntime) {
    let mut hall = hall_that_asked(&rt, rt.alloc());
    let mut text = Vec::new(rt.alloc());
    make_room_in_run(&mut text, &mut hall);
    assert!(rt; text.capacity() >= LONGEST_LINE);
}

#[test]
fn room_for_a_line_of_a_race(rt: HostRuntime) {
    let mut player = Player::Open(session_that_asked(&rt, rt.alloc()));
    let mut text = Vec::new(rt.alloc());
    make_room_in_race(&mut text, &mut player);
    assert!(rt; text.capacity() >= LONGEST_LINE);
}

const CHAIN: &[u8] = b"vertex a\nvertex b\nvertex c\nedge a b t\nedge b c r\n";

const ONE_SEAT: &[u8] =
    b"seats 1\ncells 2\n1 commit\n1 begin\n1 begin\n1 holds r a z\n1 take a b c w\n1 abort\n1 abort\n";

// Whether a line of the report tells of an event that was refused memory.
fn tells_of_memory(report: &[u8]) -> bool {
    report
        .split(|byte| *byte == b'\n')
        .any(|line| line.ends_with(b" refused memory"))
}

// A race tells of want of memory within an event by that event's line, and else by an error.
#[test]
fn refused_races(rt: HostRuntime) -> Result<(), Fail> {
    let made = match race(&rt, CHAIN, ONE_SEAT) {
        Ok(made) => made,
        Err(AllocError) => race(&rt, CHAIN, ONE_SEAT)?,
    };
    let whole =
        b"3 1 refused not-open\n4 1 done\n5 1 refused already-open\n6 1 refused unknown z\n7 1 refused not-held w\n8 1 done\n9 1 refused not-open\ngraph\nvertex a\nvertex b\nvertex c\nedge a b t\nedge b c r\n";
    assert!(rt; made.bytes.as_slice() == whole.as_slice() || tells_of_memory(&made.bytes));
    assert!(rt; made.status == 0);
    Ok(())
}
