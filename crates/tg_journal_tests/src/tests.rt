ghost use Rattle.std.specs.Prelude.{◌≡◌, IfOk};

use crate::memory_tests::{put_after_refusal, started};
use std::alloc::{AllocError, Global};
use std::process::Abort;
use std::test::Fail;
use std::thread;
use tg_journal::{Entry, Front, Journal, JournalFault, Next, Pass, Put};

// Memory runs out for a copy of the record with this number.
const NO_COPY: u32 = 100;

#[derive(Debug, PartialEq, Eq, Drop)]
pub(crate) struct Mark {
    pub(crate) seat: u32,
    pub(crate) number: u32,
}

impl Entry for Mark {
    ghost seat_of = { λ m. m.seat };

    fn seat(&self) -> u32 {
        self.seat
    }

    fn copy(&self) -> Result<Mark, AllocError> {
        if self.number == NO_COPY {
            return Err(AllocError);
        }
        Ok(Mark {
            seat: self.seat,
            number: self.number,
        })
    }

    ghost use Rattle.std.proofs.Common.{rules};

    ghost same = { Prim.search rules };
}

fn fill(
    journal: &Journal<Mark>,
    pass: Pass<Mark>,
    alloc: Global,
) -> Result<(Pass<Mark>, Vec<usize>), AllocError>
    requires { pass.cells ≡ journal.now }
    ensures { IfOk result (λ r. r.0.cells ≡ journal.now) }
{
    let mut pass = pass;
    let mut places = Vec::new(alloc);
    for _ in 0..200u32 {
        if places.len() >= 100 {
            break;
        }
        let mark = Mark {
            seat: pass.number(),
            number: places.len() as u32,
        };
        if let Put::Won(place) = journal.put(&mut pass, &mark) {
            places.push(place)?;
        }
    }
    Ok((pass, places))
}

fn agree(journal: &Journal<Mark>, one: &Pass<Mark>, two: &Pass<Mark>) -> bool
    requires { (one.now.cells ≡ journal.now) × (two.now.cells ≡ journal.now) }
{
    let mut agreed = true;
    for place in 0..200 {
        if journal.at(one, place) != journal.at(two, place) {
            agreed = false;
        }
    }
    agreed
}

#[test]
fn two_passes(rt: HostRuntime) -> Result<(), Fail> {
    let alloc = rt.alloc();
    let Ok((journal, mut passes)) = Journal::start(alloc, 200, 2) else {
        assert!(rt; false);
        return Ok(());
    };
    let (Some(two), Some(one)) = (passes.pop(), passes.pop()) else {
        assert!(rt; false);
        return Ok(());
    };
    let shared = &journal;
    let (first, second) = thread::join(
        &rt,
        move || -> Result<(Pass<Mark>, Vec<usize>), AllocError>
            requires { one.cells ≡ shared.now }
            ensures { IfOk result (λ r. r.0.cells ≡ shared.entry.now) }
        { fill(shared, one, alloc) },
        move || -> Result<(Pass<Mark>, Vec<usize>), AllocError>
            requires { two.cells ≡ shared.now }
            ensures { IfOk result (λ r. r.0.cells ≡ shared.entry.now) }
        { fill(shared, two, alloc) },
    );
    let (mut one, places) = first?;
    let (mut two, others) = second?;
    assert!(rt; places.len() == 100 && others.len() == 100);
    let front = journal.front(&one)?;
    assert!(rt; journal.meet(&mut two, &front).is_ok());
    let front = journal.front(&two)?;
    assert!(rt; journal.meet(&mut one, &front).is_ok());
    assert!(rt; one.len() == 200 && two.len() == 200);
    for place in 0..200 {
        assert!(rt; places.contains(&place) != others.contains(&place));
    }
    assert!(rt; agree(&journal, &one, &two));
    Ok(())
}

pub(crate) fn finds(next: Next<'_, Mark>, number: u32) -> bool {
    match next {
        Next::Entry(mark) => mark.number == number,
        Next::End | Next::Foreign(_) => false,
    }
}

fn filled(
    rt: &impl Abort,
    journal: &Journal<Mark>,
    p: &mut Pass<Mark>,
    q: &mut Pass<Mark>,
    s: &mut Pass<Mark>,
)
    requires cells { (p.old.cells ≡ journal.now) × (q.old.cells ≡ journal.now)
        × (s.old.cells ≡ journal.now) }
    requires numbers { (p.old.number ≡ 1) × (q.old.number ≡ 2) }
    ensures { (p.new.cells ≡ journal.now) × (q.new.cells ≡ journal.now)
        × (s.new.cells ≡ journal.now) }
{
    let (a, b, c) = (
        Mark { seat: 1, number: 7 },
        Mark { seat: 2, number: 8 },
        Mark { seat: 2, number: 9 },
    );
    assert!(rt; matches!(journal.next(s), Next::End));
    assert!(rt; journal.put(p, &a) == Put::Won(0));
    assert!(rt; journal.put(q, &b) == Put::Lost(0));
    assert!(rt; journal.put(q, &b) == Put::Won(1));
    assert!(rt; journal.put(q, &c) == Put::Full);
    assert!(rt; q.is_full() && !p.is_full());
    assert!(rt; p.own() == 1 && q.own() == 1 && s.own() == 0);
}

fn met(
    rt: &impl Abort,
    journal: &Journal<Mark>,
    p: &mut Pass<Mark>,
    q: &mut Pass<Mark>,
) -> Result<(), AllocError>
    requires { (p.old.cells ≡ journal.now) × (q.old.cells ≡ journal.now) }
{
    let front = journal.front(q)?;
    assert!(rt; front.len() == 2);
    assert!(rt; journal.at(p, 1).is_none());
    assert!(rt; journal.meet(p, &front).is_ok());
    let number = match journal.at(p, 1) {
        Some(mark) => mark.number,
        None => 0,
    };
    assert!(rt; number == 8);
    assert!(rt; matches!(journal.next(p), Next::End));
    Ok(())
}

fn read(rt: &impl Abort, journal: &Journal<Mark>, s: &mut Pass<Mark>)
    requires { s.old.cells ≡ journal.now }
{
    assert!(rt; finds(journal.next(s), 7));
    assert!(rt; finds(journal.next(s), 8));
    assert!(rt; matches!(journal.next(s), Next::End));
}

#[test]
fn worked_row(rt: HostRuntime) -> Result<(), Fail> {
    let alloc = rt.alloc();
    let Ok((journal, mut passes)) = Journal::start(alloc, 2, 3) else {
        assert!(rt; false);
        return Ok(());
    };
    let (Some(mut s), Some(mut q), Some(mut p)) = (passes.pop(), passes.pop(), passes.pop()) else {
        assert!(rt; false);
        return Ok(());
    };
    filled(&rt, &journal, &mut p, &mut q, &mut s);
    met(&rt, &journal, &mut p, &mut q)?;
    read(&rt, &journal, &mut s);
    Ok(())
}

#[test]
fn limits(rt: HostRuntime) {
    let alloc = rt.alloc();
    for (cells, seats, fault) in [
        (0, 1, JournalFault::Cells),
        (4097, 1, JournalFault::Cells),
        (1, 0, JournalFault::Seats),
        (1, 65, JournalFault::Seats),
        (0, 0, JournalFault::Cells),
    ] {
        let refused = Journal::<Mark>::start(alloc, cells, seats).err();
        assert!(rt; refused == Some(fault), "at {cells} and {seats}");
    }
    for (cells, seats) in [(1, 1), (1, 64), (4096, 1), (4096, 64)] {
        let made = Journal::<Mark>::start(alloc, cells, seats).is_ok();
        assert!(rt; made, "at {cells} and {seats}");
    }
}

#[test]
fn copy_refused(rt: HostRuntime) {
    let first = Mark {
        seat: 1,
        number: NO_COPY,
    };
    let Ok((journal, mut passes)) = started(rt.alloc(), 1) else {
        assert!(rt; false);
        return;
    };
    let Some(mut pass) = passes.pop() else {
        assert!(rt; false);
        return;
    };
    put_after_refusal(&rt, &journal, &mut pass, first);
    assert!(rt; pass.len() == 1);
}
