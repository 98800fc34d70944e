// Ends of edges by position, beside the names and positions that they stand for.
use crate::test_values::set;
use bitflags::Flags;
use std::alloc::Global;
use std::process::Abort;
use std::test::Fail;
use tg_graph::{Graph, Name, Right, Rights, Wanted};

// As many vertices as share their names with the rows; more come after them.
const COUNT: u32 = 12;

// Adds an edge between two vertices with these numbers.
fn add(rt: &impl Abort, g: &mut Graph, x: u32, y: u32, letters: &[u8]) {
    let added = g.add_edge(Name::helper(x), Name::helper(y), set(rt, letters));
    assert!(rt; added == Ok(()));
}

// Adds vertices with these numbers.
fn add_vertices(rt: &impl Abort, g: &mut Graph, first: u32, last: u32) {
    for number in first..last {
        assert!(rt; g.add_vertex(Name::helper(number)) == Ok(()));
    }
}

// Edges to vertices whose names are shared, and to others that came later.
fn mixed(rt: &impl Abort, alloc: Global) -> Graph {
    let mut g = Graph::new(alloc);
    add_vertices(rt, &mut g, 0, COUNT);
    add(rt, &mut g, 1, 7, b"r");
    add(rt, &mut g, 1, 2, b"t");
    add_vertices(rt, &mut g, COUNT, 20);
    add(rt, &mut g, 1, 15, b"rg");
    add(rt, &mut g, 1, 0, b"w");
    g
}

// What names and positions say of the end of an edge.
fn by_name(g: &Graph, position: usize, place: usize) -> Option<(usize, Rights)> {
    let (name, label) = g.row_at(position, place)?;
    Some((g.position(name)?, label))
}

fn agrees(rt: &impl Abort, g: &Graph, position: usize, place: usize) {
    let said = g.end_at(position, place, Wanted::All);
    assert!(rt; said == by_name(g, position, place));
}

// Edges out of the second vertex to so many others, all with shared names.
fn plain(rt: &impl Abort, alloc: Global, count: u32) -> Graph {
    let mut g = Graph::new(alloc);
    add_vertices(rt, &mut g, 0, COUNT);
    for target in 0..count {
        add(rt, &mut g, 1, target, b"r");
    }
    g
}

// Whether the rights over a vertex are found at the row of the second, by the number that its name mostly
// has, by another and by none.
fn finds_rights(rt: &impl Abort, g: &Graph, target: u32, rights: Rights) {
    let name = Name::helper(target);
    assert!(rt; g.rights_near(1, name, g.likely_number(name)) == rights);
    assert!(rt; g.rights_near(1, name, Some(3)) == rights);
    assert!(rt; g.rights_at(1, name) == rights);
}

#[test]
fn each_end_is_where_its_name_is(rt: HostRuntime) -> Result<(), Fail> {
    let g = mixed(&rt, rt.alloc());
    for place in 0..5 {
        agrees(&rt, &g, 1, place);
    }
    Ok(())
}

#[test]
fn an_end_is_told_of_edges_that_are_asked_for(rt: HostRuntime) -> Result<(), Fail> {
    // in name order: _0 w, _15 rg, _2 t, _7 r
    let g = mixed(&rt, rt.alloc());
    assert!(rt; g.end_at(1, 0, Wanted::Links) == None);
    assert!(rt; g.end_at(1, 1, Wanted::Links) == Some((15, set(&rt, b"rg"))));
    assert!(rt; g.end_at(1, 2, Wanted::With(Right::R)) == None);
    assert!(rt; g.end_at(1, 3, Wanted::With(Right::R)) == Some((7, set(&rt, b"r"))));
    assert!(rt; g.end_at(1, 4, Wanted::All) == None);
    assert!(rt; g.end_at(20, 0, Wanted::All) == None);
    Ok(())
}

#[test]
fn a_row_of_shared_names_is_laid_open(rt: HostRuntime) -> Result<(), Fail> {
    let g = plain(&rt, rt.alloc(), 3);
    let opened = g.open_row(1);
    assert!(rt; opened.is_some());
    let first = g.end_in(&opened, 1, 0, Wanted::All);
    assert!(rt; first == Some((0, set(&rt, b"r"))));
    assert!(rt; g.end_in(&opened, 1, 2, Wanted::With(Right::W)) == None);
    assert!(rt; g.end_in(&opened, 1, 3, Wanted::All) == None);
    Ok(())
}

#[test]
fn a_row_with_a_name_of_its_own_is_read_as_before(rt: HostRuntime) -> Result<(), Fail> {
    let g = mixed(&rt, rt.alloc());
    let opened = g.open_row(1);
    assert!(rt; opened.is_none());
    let second = g.end_in(&opened, 1, 1, Wanted::Links);
    assert!(rt; second == Some((15, set(&rt, b"rg"))));
    assert!(rt; g.open_row(20).is_none());
    Ok(())
}

#[test]
fn rights_are_found_among_few_edges(rt: HostRuntime) -> Result<(), Fail> {
    let g = plain(&rt, rt.alloc(), 8);
    finds_rights(&rt, &g, 7, set(&rt, b"r"));
    finds_rights(&rt, &g, 8, Rights::empty());
    Ok(())
}

#[test]
fn rights_are_found_among_more_edges(rt: HostRuntime) -> Result<(), Fail> {
    let g = plain(&rt, rt.alloc(), 9);
    finds_rights(&rt, &g, 8, set(&rt, b"r"));
    finds_rights(&rt, &g, 9, Rights::empty());
    Ok(())
}

#[test]
fn rights_over_a_name_that_is_not_shared_are_found(rt: HostRuntime) -> Result<(), Fail> {
    let g = mixed(&rt, rt.alloc());
    finds_rights(&rt, &g, 15, set(&rt, b"rg"));
    finds_rights(&rt, &g, 16, Rights::empty());
    Ok(())
}
