// What takes no memory. Each test passes when every request for memory from some one on is refused,
// which `make refusals` tries: it ends with an error where it can't be set up, and else everything
// is answered.
ghost use Rattle.std.specs.Prelude.{◌≡◌};

use crate::tests::{Mark, finds};
use std::process::Abort;
use std::test::Fail;
use tg_journal::{Front, Journal, JournalFault, Next, Pass, Put};

// What the first pass has seen, and the second finds, where the one cell is set.
fn read(
    rt: &impl Abort,
    journal: &Journal<Mark>,
    first: &mut Pass<Mark>,
    second: &mut Pass<Mark>,
    front: &Front<Mark>,
)
    requires cells { (first.old.cells ≡ journal.now) × (second.old.cells ≡ journal.now) }
    requires front { front.now.cells ≡ journal.now }
    requires number { second.old.number ≡ 2 }
{
    assert!(rt; first.number() == 1 && first.len() == 1 && front.len() == 1);
    assert!(rt; journal.at(first, 0).is_some() && journal.at(first, 1).is_none());
    assert!(rt; journal.at(second, 0).is_none());
    assert!(rt; matches!(journal.next(first), Next::End));
    assert!(rt; finds(journal.next(second), 7) && second.len() == 1);
    assert!(rt; journal.meet(second, front).is_ok());
    assert!(rt; journal.put(second, &Mark { seat: 2, number: 8 }) == Put::Full);
}

#[test]
fn one_cell_read(rt: HostRuntime) -> Result<(), Fail> {
    let (journal, mut passes) = Journal::start(rt.alloc(), 1, 2)?;
    let (Some(mut second), Some(mut first)) = (passes.pop(), passes.pop()) else {
        assert!(rt; false);
        return Ok(());
    };
    let answer = journal.put(&mut first, &Mark { seat: 1, number: 7 });
    if answer == Put::Memory {
        return Ok(());
    }
    assert!(rt; answer == Put::Won(0));
    let front = journal.front(&first)?;
    read(&rt, &journal, &mut first, &mut second, &front);
    Ok(())
}

// A front that has more than the pass is met without memory as well.
#[test]
fn a_front_met(rt: HostRuntime) -> Result<(), Fail> {
    let (journal, mut passes) = Journal::start(rt.alloc(), 1, 2)?;
    let (Some(mut second), Some(mut first)) = (passes.pop(), passes.pop()) else {
        assert!(rt; false);
        return Ok(());
    };
    let answer = journal.put(&mut first, &Mark { seat: 1, number: 7 });
    if answer == Put::Memory {
        return Ok(());
    }
    let front = journal.front(&first)?;
    assert!(rt; journal.meet(&mut second, &front).is_ok() && second.len() == 1);
    Ok(())
}

#[test]
fn limits_without_memory(rt: HostRuntime) {
    let cells = Journal::<Mark>::start(rt.alloc(), 0, 1).err();
    assert!(rt; cells == Some(JournalFault::Cells));
    let seats = Journal::<Mark>::start(rt.alloc(), 1, 65).err();
    assert!(rt; seats == Some(JournalFault::Seats));
}
