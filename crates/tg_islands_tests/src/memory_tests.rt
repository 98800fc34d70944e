// Each test passes whichever one request for memory is refused, which `make refusals` tries. Where a
// call was refused memory, its second try has it.
use crate::link_tests::adds;
use std::alloc::{AllocError, Global};
use std::process::Abort;
use std::test::Fail;
use tg_islands::Links;

// No links between so many vertices.
fn none(alloc: Global, count: usize) -> Result<Links, AllocError> {
    match Links::none(alloc, count) {
        Err(AllocError) => Links::none(alloc, count),
        outcome => outcome,
    }
}

// A neighbour of the first vertex, behind so many. Where memory is refused there are still as many.
fn adds_behind(rt: &impl Abort, links: &mut Links, neighbour: usize) -> Result<(), AllocError> {
    match adds(rt, links, 0, neighbour) {
        Err(AllocError) => {
            assert!(rt; links.at(0).len() == neighbour);
            adds(rt, links, 0, neighbour)
        }
        outcome => outcome,
    }
}

// The first six stand in the value itself.
#[test]
fn nine_neighbours(rt: HostRuntime) -> Result<(), Fail> {
    let mut links = none(rt.alloc(), 2)?;
    for neighbour in 0..9 {
        adds_behind(&rt, &mut links, neighbour)?;
    }
    assert!(rt; links.at(0) == [0, 1, 2, 3, 4, 5, 6, 7, 8].as_slice());
    assert!(rt; links.at(1).is_empty());
    Ok(())
}
