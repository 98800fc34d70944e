// Each test passes whichever one request for memory is refused, which `make refusals` tries. Where a
// call was refused memory, its second try has it.
use crate::fetch::{FetchFault, fetch};
use crate::surroundings_tests::Zeros;
use std::test::Fail;

const GRAPH: &[u8] = b"vertex a\nvertex b\nvertex c\nedge a b g\nedge b c r\n";

#[test]
fn refused_input(rt: HostRuntime) -> Result<(), Fail> {
    let mut text = GRAPH;
    let bytes = match fetch(rt.alloc(), &mut text) {
        Ok(bytes) => bytes,
        Err(fault) => {
            assert!(rt; matches!(fault, FetchFault::Memory));
            text = GRAPH;
            fetch(rt.alloc(), &mut text)?
        }
    };
    assert!(rt; bytes.as_slice() == GRAPH);
    Ok(())
}

// Input that takes several growths.
#[test]
fn refused_long_input(rt: HostRuntime) -> Result<(), Fail> {
    let bytes = match fetch(rt.alloc(), &mut Zeros { left: 40_000 }) {
        Ok(bytes) => bytes,
        Err(fault) => {
            assert!(rt; matches!(fault, FetchFault::Memory));
            fetch(rt.alloc(), &mut Zeros { left: 40_000 })?
        }
    };
    assert!(rt; bytes.len() == 40_000);
    Ok(())
}
