// Each test passes whichever one request for memory is refused, which `make refusals` tries. Where a
// call was refused memory, its second try has it.
ghost use Rattle.std.specs.Prelude.{◌≡◌, ◌<◌, ◌+◌, ℕ, IfOk, Some, length, slice_get};
ghost use Rattle.tg_journal.specs.Pass.{fresh};

use crate::tests::Mark;
use std::alloc::{AllocError, Global};
use std::process::Abort;
use std::test::Fail;
use tg_journal::{Journal, JournalFault, Pass, Put};

// A row of two cells with so many passes.
pub(crate) fn started(
    alloc: Global,
    seats: u32,
) -> Result<(Journal<Mark>, Vec<Pass<Mark>>), JournalFault>
    ensures passes { IfOk result (λ r. length r.1.items ≡ seats) }
    ensures fresh { IfOk result (λ r.
        (k : ℕ) → k < seats → slice_get r.1.items k ≡ Some (fresh r.0 (k + 1))) }
{
    match Journal::start(alloc, 2, seats) {
        Ok(made) => Ok(made),
        Err(JournalFault::Memory) => Journal::start(alloc, 2, seats),
        Err(fault) => Err(fault),
    }
}

// A put that memory was refused to has put nothing: a later put of another record has its place.
pub(crate) fn put_after_refusal(
    rt: &impl Abort,
    journal: &Journal<Mark>,
    pass: &mut Pass<Mark>,
    first: Mark,
)
    requires { (pass.old.cells ≡ journal.now) × (pass.old.number ≡ 1) × (first.seat ≡ 1) }
    ensures { pass.new.cells ≡ journal.now }
{
    let other = Mark { seat: 1, number: 8 };
    let refused = journal.put(pass, &first) == Put::Memory;
    assert!(rt; pass.len() == if refused { 0 } else { 1 });
    let place = pass.len();
    let answer = match journal.put(pass, &other) {
        Put::Memory => journal.put(pass, &other),
        answer => answer,
    };
    assert!(rt; answer == Put::Won(place));
}

// How many records the front of a pass has, which is as many as the pass has seen.
fn fronts(rt: &impl Abort, journal: &Journal<Mark>, pass: &Pass<Mark>) -> Result<(), AllocError>
    requires { pass.now.cells ≡ journal.now }
{
    let seen = pass.len();
    let front = match journal.front(pass) {
        Ok(front) => front,
        Err(AllocError) => journal.front(pass)?,
    };
    assert!(rt; pass.len() == seen && front.len() == seen);
    Ok(())
}

#[test]
fn refused_put(rt: HostRuntime) -> Result<(), Fail> {
    let (journal, mut passes) = started(rt.alloc(), 1)?;
    let Some(mut pass) = passes.pop() else {
        assert!(rt; false);
        return Ok(());
    };
    put_after_refusal(&rt, &journal, &mut pass, Mark { seat: 1, number: 7 });
    fronts(&rt, &journal, &pass)?;
    Ok(())
}

fn put_first(rt: &impl Abort, journal: &Journal<Mark>, pass: &mut Pass<Mark>)
    requires { (pass.old.cells ≡ journal.now) × (pass.old.number ≡ 1) }
{
    let mark = Mark { seat: 1, number: 7 };
    let answer = match journal.put(pass, &mark) {
        Put::Memory => journal.put(pass, &mark),
        answer => answer,
    };
    assert!(rt; answer == Put::Won(0));
}

// A put that memory was refused to has seen nothing: the next one finds what another has put.
fn put_behind(rt: &impl Abort, journal: &Journal<Mark>, pass: &mut Pass<Mark>)
    requires { (pass.old.cells ≡ journal.now) × (pass.old.number ≡ 2) }
    ensures { pass.new.cells ≡ journal.now }
{
    let mark = Mark { seat: 2, number: 8 };
    let mut answer = journal.put(pass, &mark);
    if answer == Put::Memory {
        assert!(rt; pass.len() == 0);
        answer = journal.put(pass, &mark);
    }
    assert!(rt; answer == Put::Lost(0) && pass.len() == 1);
    let answer = match journal.put(pass, &mark) {
        Put::Memory => journal.put(pass, &mark),
        answer => answer,
    };
    assert!(rt; answer == Put::Won(1));
}

#[test]
fn refused_put_behind_another(rt: HostRuntime) -> Result<(), Fail> {
    let (journal, mut passes) = started(rt.alloc(), 2)?;
    let (Some(mut second), Some(mut first)) = (passes.pop(), passes.pop()) else {
        assert!(rt; false);
        return Ok(());
    };
    put_first(&rt, &journal, &mut first);
    put_behind(&rt, &journal, &mut second);
    fronts(&rt, &journal, &second)?;
    Ok(())
}
