// What takes no memory. Each test passes when every request for memory from some one on is refused,
// which `make refusals` tries: it ends with an error where it can't be set up, and else everything
// is answered.
use crate::case_tests::{Kind, found};
use crate::memory_tests::three;
use crate::test_answers::{
    all_derived, assert_no_table, assert_numbers, assert_table, derived, islands_of, reach_of,
    shares, shares_all, table_of, who_can,
};
use bitflags::Flags;
use std::test::Fail;
use tg_analysis::{AskFault, Case, Gate, OpenGate, SharingIndex, TableFault};
use tg_graph::{Name, Right, Rights};

#[test]
fn islands_read(rt: HostRuntime) -> Result<(), Fail> {
    let graph = three(rt.alloc())?;
    let islands = islands_of(rt.alloc(), &graph)?;
    assert_numbers(&rt, &islands, 2, &[0, 0, 1]);
    Ok(())
}

// A case is found, or there is no memory; none is missed.
#[test]
fn cases_read(rt: HostRuntime) -> Result<(), Fail> {
    let graph = three(rt.alloc())?;
    let (x, y, z) = (Name::helper(0), Name::helper(1), Name::helper(2));
    let names = [x, y, z];
    let kind = Kind::Beyond;
    let first = found(
        &rt,
        rt.alloc(),
        &graph,
        &names,
        kind,
        Rights::READ,
        &names,
        &[x],
    )?;
    let right = Right::R;
    assert!(rt; first == Some(Case { right, x: y, y: z }));
    Ok(())
}

#[test]
fn tables_read(rt: HostRuntime) -> Result<(), Fail> {
    OpenGate.enter(0);
    let graph = three(rt.alloc())?;
    let table = table_of(&rt, rt.alloc(), &graph, 2, &OpenGate)?;
    assert_table(&rt, &table, &[b"001", b"001", b"000"]);
    Ok(())
}

// The other refusals come before that for want of memory.
#[test]
fn questions_refused(rt: HostRuntime) -> Result<(), Fail> {
    let graph = three(rt.alloc())?;
    let (x, nobody) = (Name::helper(0), Name::helper(3));
    let unknown = Some(AskFault::Unknown(nobody));
    assert!(rt; shares(rt.alloc(), &graph, Right::R, x, nobody).err() == unknown);
    assert!(rt; shares_all(rt.alloc(), &graph, Rights::READ, nobody, x).err() == unknown);
    assert!(rt; derived(rt.alloc(), &graph, Right::R, nobody, x).err() == unknown);
    let rights = Rights::of(Right::R);
    assert!(rt; all_derived(rt.alloc(), &graph, rights, x, nobody).err() == unknown);
    assert!(rt; who_can(rt.alloc(), &graph, Rights::READ, nobody).err() == unknown);
    assert!(rt; reach_of(rt.alloc(), &graph, nobody).err() == unknown);
    assert_no_table(&rt, rt.alloc(), &graph, 0, TableFault::Workers);
    Ok(())
}

#[test]
fn no_rights_asked_for(rt: HostRuntime) -> Result<(), Fail> {
    let graph = three(rt.alloc())?;
    let (x, y) = (Name::helper(0), Name::helper(2));
    assert!(rt; shares_all(rt.alloc(), &graph, Rights::empty(), x, y) == Ok(true));
    Ok(())
}

// Where the islands were found, each question is answered, though the edges can't be listed.
#[test]
fn an_index_read(rt: HostRuntime) -> Result<(), Fail> {
    let graph = three(rt.alloc())?;
    let (x, y) = (Name::helper(0), Name::helper(2));
    let mut index = SharingIndex::new();
    let first = index.can_share(rt.alloc(), &graph, Right::W, x, y);
    let second = index.can_share(rt.alloc(), &graph, Right::W, x, y);
    if first == Ok(false) && second == Ok(false) && index.has_found() {
        assert!(rt; index.can_share(rt.alloc(), &graph, Right::R, x, y) == Ok(true));
        assert!(rt; index.can_share(rt.alloc(), &graph, Right::W, x, y) == Ok(false));
        assert!(rt; index.can_share(rt.alloc(), &graph, Right::R, x, y) == Ok(true));
    }
    Ok(())
}
