use std::sync::atomic::{AtomicU64, Ordering};
use std::test::Fail;
use std::thread;
use tg_analysis::Gate;
use tg_plays::race_through;
use tg_reports::race;

// One of the texts.
fn is_one_of(text: Option<&[u8]>, texts: &[&[u8]]) -> bool {
    texts.iter().any(|other| text == Some(*other))
}

#[test]
fn two_seats_in_either_order(rt: HostRuntime) -> Result<(), Fail> {
    let made = race(
        &rt,
        b"vertex a\nvertex b\nvertex c\nvertex d\nedge a b t\nedge b c r\n",
        b"seats 2\ncells 8\n1 begin\n2 begin\n1 take a b c r\n2 create d n g\n2 commit\n1 commit\n",
    )?;
    let graph =
        b"graph\nvertex a\nvertex b\nvertex c\nvertex d\nvertex n\nedge a b t\nedge a c r\nedge b c r\nedge d n g\n".as_slice();
    let lines = [
        b"3 1 done\n5 1 done\n8 1 done 0\n4 2 done\n6 2 done\n7 2 done 1\n".as_slice(),
        b"3 1 done\n5 1 done\n8 1 done 1\n4 2 done\n6 2 done\n7 2 done 0\n",
    ];
    assert!(rt; is_one_of(made.bytes.strip_suffix(graph), &lines));
    assert!(rt; made.status == 0);
    Ok(())
}

// How often a seat looks whether the others have come: minutes, where the machine is busy.
const MOST_LOOKS: u64 = 100_000_000;

// Holds each seat until so many have come. Once one has waited too long, none waits any more.
#[derive(Drop)]
struct Meeting {
    wanted: u64,
    entered: AtomicU64,
    missed: AtomicU64,
}

impl Meeting {
    fn is_over(&self) -> bool {
        self.entered.load(Ordering::SeqCst) >= self.wanted || self.missed.load(Ordering::SeqCst) > 0
    }
}

impl Gate for Meeting {
    fn enter(&self, _seat: usize) {
        self.entered.fetch_add(1, Ordering::SeqCst);
        for _ in 0..MOST_LOOKS {
            if self.is_over() {
                return;
            }
            thread::yield_now();
        }
        self.missed.fetch_add(1, Ordering::SeqCst);
    }
}

// Seats play at once: two meet before the first event of either, and each passes the gate once.
#[test]
fn two_seats_meet(rt: HostRuntime) -> Result<(), Fail> {
    let meeting = Meeting {
        wanted: 2,
        entered: AtomicU64::new(0),
        missed: AtomicU64::new(0),
    };
    let script = b"seats 2\ncells 2\n1 begin\n2 begin\n";
    let made = race_through(&rt, &meeting, b"vertex a\n", script)?;
    assert!(rt; made.bytes.as_slice() == b"3 1 done\n4 2 done\ngraph\nvertex a\n".as_slice());
    assert!(rt; meeting.entered.load(Ordering::SeqCst) == 2);
    assert!(rt; meeting.missed.load(Ordering::SeqCst) == 0);
    Ok(())
}
