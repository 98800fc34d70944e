// Rows whose edges come in various orders, and whose targets' names are shared or not.
use crate::test_values::{create, grant, name, remove, same, set, three, with_edge, with_vertex};
use std::alloc::{AllocError, Global};
use std::cmp::Ordering;
use std::process::Abort;
use std::test::Fail;
use tg_graph::{Graph, Name};
use tg_rows::{Hint, Row, SharedNames};

// Six names of 16 bytes, of which four share 15.
const LONG: [&[u8]; 6] = [
    b"same_for_all_of_",
    b"same_for_all_of1",
    b"same_for_all_ofz",
    b"same_for_all_ofa",
    b"zame_for_all_of_",
    b"same_for_all_o__",
];

// The positions of LONG in name order: digits stand before `_`, and that before letters.
const IN_ORDER: [usize; 6] = [5, 1, 0, 3, 2, 4];

// The vertices of LONG, with edges from the first to those with these numbers, in this order.
fn long_row(rt: &impl Abort, alloc: Global, targets: &[usize]) -> Graph {
    let mut g = Graph::new(alloc);
    for n in LONG {
        with_vertex(rt, &mut g, n);
    }
    for target in targets {
        with_edge(rt, &mut g, LONG[0], LONG[*target % 6], b"rw");
    }
    g
}

fn leads_in_order(rt: &impl Abort, g: &Graph) {
    assert!(rt; g.row_len(0) == 6);
    for (place, number) in IN_ORDER.iter().enumerate() {
        let edge = (name(rt, LONG[*number % 6]), set(rt, b"rw"));
        assert!(rt; g.row_at(0, place) == Some(edge));
    }
}

fn is_there(rt: &impl Abort, g: &mut Graph, x: &[u8], y: &[u8]) {
    assert!(rt; g.add_edge(name(rt, x), name(rt, y), set(rt, b"t")).is_err());
}

#[test]
fn an_edge_is_there_in_any_order(rt: HostRuntime) {
    let mut g = long_row(&rt, rt.alloc(), &[3, 5, 0, 4, 1, 2]);
    for target in LONG {
        is_there(&rt, &mut g, LONG[0], target);
    }
    leads_in_order(&rt, &g);
}

fn adds_edge(rt: &impl Abort, g: &mut Graph, x: Name, y: Name, letters: &[u8]) {
    assert!(rt; g.add_edge(x, y, set(rt, letters)) == Ok(()));
}

// Each vertex comes with its edges: to itself, and to and from those before it. So most targets are
// vertices that came after their row's first edge.
fn one_by_one(rt: &impl Abort, alloc: Global, count: u32) -> Graph {
    let mut g = Graph::new(alloc);
    for last in 0..count {
        let n = Name::helper(last);
        assert!(rt; g.add_vertex(n) == Ok(()));
        for other in 0..last {
            adds_edge(rt, &mut g, n, Name::helper(other), b"r");
            adds_edge(rt, &mut g, Name::helper(other), n, b"w");
        }
        adds_edge(rt, &mut g, n, n, b"e");
    }
    g
}

// The same edges, after all vertices.
fn all_at_once(rt: &impl Abort, alloc: Global, count: u32) -> Graph {
    let mut g = Graph::new(alloc);
    for n in 0..count {
        assert!(rt; g.add_vertex(Name::helper(n)) == Ok(()));
    }
    for x in 0..count {
        for y in 0..count {
            let letters = match x.cmp(&y) {
                Ordering::Less => b"w",
                Ordering::Equal => b"e",
                Ordering::Greater => b"r",
            };
            adds_edge(rt, &mut g, Name::helper(x), Name::helper(y), letters);
        }
    }
    g
}

fn has_same_copies(rt: &impl Abort, g: &Graph) -> Result<(), Fail> {
    let shared = g.copy()?;
    assert!(rt; same(g, &shared));
    let unshared = g.copy_unshared()?;
    assert!(rt; same(g, &unshared));
    Ok(())
}

#[test]
fn vertices_among_edges_make_the_same_graph(rt: HostRuntime) -> Result<(), Fail> {
    let g = one_by_one(&rt, rt.alloc(), 12);
    assert!(rt; same(&g, &all_at_once(&rt, rt.alloc(), 12)));
    has_same_copies(&rt, &g)
}

// Each row of the graph has so many owners.
fn rows_have_owners(rt: &impl Abort, g: &Graph, owners: usize) {
    for position in 0..g.len() {
        assert!(rt; g.row_owners(position) == Some(owners));
    }
    assert!(rt; g.row_owners(g.len()).is_none());
}

fn copies_apart(rt: &impl Abort, g: &Graph) -> Result<(), Fail> {
    let owners = g.name_owners();
    let unshared = g.copy_unshared()?;
    rows_have_owners(rt, g, 1);
    rows_have_owners(rt, &unshared, 1);
    assert!(rt; owners.is_some() && g.name_owners() == owners);
    Ok(())
}

// A contract sees the same rows, shared or not.
#[test]
fn an_unshared_copy_shares_no_row(rt: HostRuntime) -> Result<(), Fail> {
    let g = three(&rt, rt.alloc())?;
    copies_apart(&rt, &g)?;
    let shared = g.copy()?;
    rows_have_owners(&rt, &shared, 2);
    Ok(())
}

// Vertices that come after those whose edges lead to them, not in name order.
const CREATED: [&[u8]; 3] = [b"z", b"x", b"y"];

fn creates_all(rt: &impl Abort, g: &mut Graph) {
    for n in CREATED {
        assert!(rt; g.apply(&create(rt, b"a", n, b"rw")) == Ok(()));
    }
}

fn grants_all(rt: &impl Abort, g: &mut Graph) {
    for n in CREATED {
        assert!(rt; g.apply(&grant(rt, b"a", b"b", n, b"rw")) == Ok(()));
    }
}

fn removes_all(rt: &impl Abort, g: &mut Graph) {
    for n in CREATED {
        assert!(rt; g.apply(&remove(rt, b"b", n, b"rw")) == Ok(()));
    }
}

fn leads_to(rt: &impl Abort, g: &Graph, place: usize, n: &[u8]) {
    assert!(rt; g.row_at(1, place) == Some((name(rt, n), set(rt, b"rw"))));
}

// Rights over vertices that were created after their names could be shared come and go, over and
// over, so that the names of edges that are gone must be let go of.
#[test]
fn edges_that_come_and_go(rt: HostRuntime) {
    let mut g = Graph::new(rt.alloc());
    with_vertex(&rt, &mut g, b"a");
    with_vertex(&rt, &mut g, b"b");
    with_edge(&rt, &mut g, b"a", b"b", b"g");
    creates_all(&rt, &mut g);
    for _ in 0..30 {
        grants_all(&rt, &mut g);
        leads_to(&rt, &g, 0, b"x");
        leads_to(&rt, &g, 2, b"z");
        removes_all(&rt, &mut g);
        assert!(rt; g.row_len(1) == 0 && g.row_len(0) == 4);
    }
}

// The names of LONG, which rows share.
fn shared_long(rt: &impl Abort, alloc: Global) -> Result<SharedNames, AllocError> {
    let mut names = Vec::new(alloc);
    for n in LONG {
        names.push(name(rt, n))?;
    }
    SharedNames::new(alloc, &names)
}

// Edges to these of the names of LONG, which other rows share.
fn row_to(
    rt: &impl Abort,
    alloc: Global,
    shared: &SharedNames,
    positions: &[usize],
) -> Result<Row, AllocError> {
    let mut row = Row::new(alloc);
    for position in positions {
        let target = name(rt, LONG[*position % 6]);
        let hint = Hint {
            names: Some(shared),
            number: shared.find(target),
        };
        row.add(target, set(rt, b"r"), hint)?;
    }
    Ok(row)
}

fn has_same_edges(rt: &impl Abort, one: &Row, other: &Row) {
    assert!(rt; one.len() == other.len());
    for place in 0..one.len() {
        assert!(rt; one.at(place) == other.at(place));
    }
}

// Whether a row of edges to these of the names of LONG takes the shorter form, which is never laid open,
// where it is moved.
fn is_shortened(rt: &impl Abort, alloc: Global, positions: &[usize]) -> Result<bool, AllocError> {
    let shared = shared_long(rt, alloc)?;
    let row = row_to(rt, alloc, &shared, positions)?;
    let moved = row.moved_to(alloc, Some(&shared))?;
    assert!(rt; row.open().is_some());
    has_same_edges(rt, &row, &moved);
    Ok(moved.open().is_none())
}

#[test]
fn shared_names_are_numbered_in_order(rt: HostRuntime) -> Result<(), Fail> {
    let shared = shared_long(&rt, rt.alloc())?;
    for number in 0..6 {
        let position = IN_ORDER[number];
        let target = name(&rt, LONG[position % 6]);
        assert!(rt; shared.at(number) == Some(target));
        assert!(rt; shared.number_at(position) == Some(number));
        assert!(rt; shared.position_in_order(target) == Some(position));
    }
    assert!(rt; shared.at(6).is_none() && shared.number_at(6).is_none());
    Ok(())
}

// A row with an edge to each of the shared names has two forms, with the same edges in both.
#[test]
fn a_row_with_an_edge_to_each_name_is_shortened(rt: HostRuntime) -> Result<(), Fail> {
    assert!(rt; is_shortened(&rt, rt.alloc(), &IN_ORDER)?);
    assert!(rt; is_shortened(&rt, rt.alloc(), &[0, 1, 2, 3, 4, 5])?);
    assert!(rt; !is_shortened(&rt, rt.alloc(), &[5, 1, 0, 3, 2])?);
    assert!(rt; !is_shortened(&rt, rt.alloc(), &[1, 0, 3, 2, 4])?);
    Ok(())
}

// So many names that some stand beside their slot, and some are found by their order alone.
const MANY: u32 = 100;

#[test]
fn each_shared_name_is_found(rt: HostRuntime) -> Result<(), Fail> {
    let mut names = Vec::new(rt.alloc());
    for number in 0..MANY {
        names.push(Name::helper(number))?;
    }
    let shared = SharedNames::new(rt.alloc(), &names)?;
    for position in 0..MANY {
        let target = Name::helper(position);
        let found = shared.find(target);
        assert!(rt; found.and_then(|number| shared.at(number)) == Some(target));
        assert!(rt; found == shared.number_at(position as usize));
        assert!(rt; shared.position_in_order(target) == Some(position as usize));
    }
    assert!(rt; shared.find(Name::helper(MANY)).is_none());
    Ok(())
}

// A name of three letters, by number.
fn three_letters(rt: &impl Abort, number: u32) -> Name {
    let first = b'a' + (number / 256 % 16) as u8;
    let second = b'a' + (number / 16 % 16) as u8;
    let third = b'a' + (number % 16) as u8;
    name(rt, &[first, second, third])
}

// How many of these names, once rows share them, are not found at their slots.
fn missed(alloc: Global, names: &Vec<Name>) -> Result<usize, AllocError> {
    let shared = SharedNames::new(alloc, names)?;
    let mut missed = Vec::new(alloc);
    for (position, name) in names.iter().enumerate() {
        if shared.likely_position(*name) != Some(position) {
            missed.push(*name)?;
        }
    }
    Ok(missed.len())
}

// A name that is not at its slot is found by the order of names: a right answer that comes late, so that no
// contract sees how many there are.
#[test]
fn one_name_of_a_hundred_at_most_is_not_at_its_slot(rt: HostRuntime) -> Result<(), Fail> {
    let mut numbered = Vec::new(rt.alloc());
    let mut short = Vec::new(rt.alloc());
    for number in 0..4096 {
        numbered.push(Name::helper(number))?;
        short.push(three_letters(&rt, number))?;
    }
    assert!(rt; missed(rt.alloc(), &numbered)? <= 40);
    assert!(rt; missed(rt.alloc(), &short)? <= 40);
    Ok(())
}

// Of the names that begin so and end in each of the numbers below one, at most one of a hundred is not at its
// slot.
fn numbered_are_found(
    rt: &impl Abort,
    alloc: Global,
    beginning: &[u8],
    end: u32,
) -> Result<(), AllocError> {
    let mut names = Vec::new(alloc);
    for number in 0..end {
        let mut text = Vec::new(alloc);
        text.extend_from_slice(beginning)?;
        text.extend_from_slice(Name::helper(number).as_bytes())?;
        names.push(name(rt, text.as_slice()))?;
    }
    assert!(rt; missed(alloc, &names)? <= names.len() / 100);
    Ok(())
}

#[test]
fn names_that_end_in_one_to_four_digits_are_at_their_slots(rt: HostRuntime) -> Result<(), Fail> {
    for beginning in [
        b"service".as_slice(),
        b"project".as_slice(),
        b"a".as_slice(),
    ] {
        for end in [10, 100, 1000, 4096] {
            numbered_are_found(&rt, rt.alloc(), beginning, end)?;
        }
    }
    Ok(())
}

// Of so many names of one letter, each the one a step behind the last, all are at their slots.
fn letters_are_found(
    rt: &impl Abort,
    alloc: Global,
    count: u8,
    step: u8,
) -> Result<(), AllocError> {
    let mut names = Vec::new(alloc);
    for place in 0..count {
        names.push(name(rt, &[b'a' + place.wrapping_mul(step) % 26]))?;
    }
    assert!(rt; missed(alloc, &names)? == 0);
    Ok(())
}

#[test]
fn names_of_one_letter_are_at_their_slots(rt: HostRuntime) -> Result<(), Fail> {
    for (count, step) in [(26, 1), (10, 1), (13, 2), (9, 3)] {
        letters_are_found(&rt, rt.alloc(), count, step)?;
    }
    Ok(())
}

// Of the first names of two letters behind a beginning, at most one of a hundred is not at its slot.
fn pairs_are_found(
    rt: &impl Abort,
    alloc: Global,
    beginning: &[u8],
    count: u32,
) -> Result<(), AllocError> {
    let mut names = Vec::new(alloc);
    for number in 0..count {
        let mut text = Vec::new(alloc);
        text.extend_from_slice(beginning)?;
        text.push(b'a' + (number / 26 % 26) as u8)?;
        text.push(b'a' + (number % 26) as u8)?;
        names.push(name(rt, text.as_slice()))?;
    }
    assert!(rt; missed(alloc, &names)? <= names.len() / 100);
    Ok(())
}

#[test]
fn names_that_end_in_two_letters_are_at_their_slots(rt: HostRuntime) -> Result<(), Fail> {
    for beginning in [b"".as_slice(), b"project_".as_slice()] {
        for count in [100, 400, 676] {
            pairs_are_found(&rt, rt.alloc(), beginning, count)?;
        }
    }
    Ok(())
}
