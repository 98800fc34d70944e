// What takes no memory. Each test passes when every request for memory from some one on is refused,
// which `make refusals` tries: it ends with an error where it can't be set up, and else everything
// is answered.
use crate::memory_tests::three;
use crate::test_answers::cut_of;
use std::test::Fail;
use tg_analysis::AskFault;
use tg_graph::{Name, Right};

// A cut is found, or there is no memory.
#[test]
fn cuts_read(rt: HostRuntime) -> Result<(), Fail> {
    let graph = three(rt.alloc())?;
    let (x, y) = (Name::helper(0), Name::helper(2));
    let cut = cut_of(rt.alloc(), &graph, Right::R, x, y, &[])?;
    match cut {
        Some(rules) => assert!(rt; rules.len() == 1),
        None => panic!(rt; "a cut"),
    }
    Ok(())
}

// The other refusals come before that for want of memory.
#[test]
fn questions_refused(rt: HostRuntime) -> Result<(), Fail> {
    let graph = three(rt.alloc())?;
    let (x, nobody) = (Name::helper(0), Name::helper(3));
    let unknown = Some(AskFault::Unknown(nobody));
    assert!(rt; cut_of(rt.alloc(), &graph, Right::R, nobody, x, &[]).err() == unknown);
    assert!(rt; cut_of(rt.alloc(), &graph, Right::R, x, nobody, &[]).err() == unknown);
    Ok(())
}
