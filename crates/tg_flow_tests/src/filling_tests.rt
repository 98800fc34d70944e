use crate::test_networks::{BOTH, END, Edge, LINK, network};
use std::alloc::Global;
use std::process::Abort;
use tg_flow::{Flow, MOST_POSITIONS, Network};

// So many units go from 0 to the end, where 1 stands for the vertex to which edges to the end lead.
fn assert_filled(rt: &impl Abort, alloc: Global, edges: &[Edge], units: Option<usize>) {
    let mut network = network(rt, alloc, 8, edges);
    assert_eq!(rt; network.fill(0, 1).expect(rt, "memory"), units);
}

#[test]
fn edges_of_one_unit(rt: HostRuntime) {
    let alloc = rt.alloc();
    // nothing to send
    assert_filled(
        &rt,
        alloc,
        &[(0, 2, LINK, false), (3, 1, END, false)],
        Some(0),
    );
    assert_filled(&rt, alloc, &[], Some(0));
    // a direct way, an edge that is both, and links against their direction
    assert_filled(&rt, alloc, &[(0, 1, END, false)], Some(1));
    assert_filled(&rt, alloc, &[(0, 1, BOTH, false)], Some(1));
    assert_filled(
        &rt,
        alloc,
        &[(2, 0, LINK, false), (2, 1, END, false)],
        Some(1),
    );
    // whoever comes to the target of an edge that is both, comes to the end; of one that leads to the end, not
    assert_filled(
        &rt,
        alloc,
        &[(0, 1, LINK, false), (2, 1, BOTH, false)],
        Some(1),
    );
    assert_filled(
        &rt,
        alloc,
        &[(0, 1, LINK, false), (2, 1, END, false)],
        Some(0),
    );
}

#[test]
fn units_that_meet(rt: HostRuntime) {
    let alloc = rt.alloc();
    let behind_one_edge = [
        (0, 2, LINK, false),
        (2, 3, LINK, false),
        (2, 4, LINK, false),
        (3, 1, END, false),
        (4, 1, END, false),
    ];
    assert_filled(&rt, alloc, &behind_one_edge, Some(1));
    let to_and_fro = [(0, 2, LINK, false), (2, 0, LINK, false), (2, 1, END, true)];
    assert_filled(&rt, alloc, &to_and_fro, Some(2));
    // one unit takes the edge that is both from the other
    let in_place_of_another = [
        (0, 1, LINK, false),
        (0, 2, LINK, false),
        (2, 1, BOTH, false),
        (2, 3, LINK, false),
        (3, 1, END, false),
    ];
    assert_filled(&rt, alloc, &in_place_of_another, Some(2));
}

#[test]
fn a_unit_turns_back(rt: HostRuntime) {
    // the first unit goes by 2 and 4; the next comes by 3 to 4, turns back there, and goes by 5
    let edges = [
        (0, 2, LINK, false),
        (0, 3, LINK, false),
        (2, 4, LINK, false),
        (3, 4, LINK, false),
        (3, 5, LINK, false),
        (4, 1, END, false),
        (5, 1, END, false),
    ];
    assert_filled(&rt, rt.alloc(), &edges, Some(2));
}

#[test]
fn edges_from_a_position_to_itself(rt: HostRuntime) {
    let alloc = rt.alloc();
    assert_filled(
        &rt,
        alloc,
        &[(0, 0, LINK, false), (0, 0, LINK, true)],
        Some(0),
    );
    assert_filled(&rt, alloc, &[(0, 0, END, false)], Some(1));
    assert_filled(
        &rt,
        alloc,
        &[(0, 1, LINK, false), (1, 1, END, false)],
        Some(1),
    );
    assert_filled(
        &rt,
        alloc,
        &[(0, 1, LINK, true), (1, 1, BOTH, false)],
        Some(1),
    );
}

#[test]
fn kept_edges(rt: HostRuntime) {
    let alloc = rt.alloc();
    assert_filled(&rt, alloc, &[(0, 1, END, true)], None);
    let by_others = [
        (0, 2, LINK, true),
        (2, 1, END, false),
        (3, 2, LINK, true),
        (3, 1, END, true),
    ];
    assert_filled(&rt, alloc, &by_others, None);
    let longer_way = [
        (0, 2, LINK, true),
        (0, 3, LINK, false),
        (2, 3, LINK, false),
        (3, 1, END, true),
    ];
    assert_filled(&rt, alloc, &longer_way, Some(2));
    assert_filled(
        &rt,
        alloc,
        &[(0, 1, LINK, true), (2, 1, BOTH, false)],
        Some(1),
    );
}

#[test]
fn a_unit_is_taken_back(rt: HostRuntime) {
    let edges = [
        (0, 2, LINK, false),
        (0, 4, LINK, false),
        (2, 3, LINK, false),
        (2, 6, LINK, false),
        (3, 1, END, false),
        (4, 5, LINK, false),
        (5, 3, LINK, false),
        (6, 7, LINK, false),
        (7, 1, END, false),
    ];
    let mut network = network(&rt, rt.alloc(), 8, &edges);
    assert_eq!(rt; network.fill(0, 1).expect(&rt, "memory"), Some(2));
    // the first unit goes over the third edge, and the second takes it back there
    assert_eq!(rt; network.edge(2).expect(&rt, "an edge").flow, Flow::Idle);
    assert_eq!(&rt;
        network.edge(6).expect(&rt, "an edge").flow,
        Flow::FromSource
    );
    // from another position, where all were taken back before
    assert_eq!(rt; network.fill(4, 1).expect(&rt, "memory"), Some(2));
    assert_eq!(rt; network.fill(7, 1).expect(&rt, "memory"), Some(2));
    assert_eq!(rt; network.fill(1, 1).expect(&rt, "memory"), Some(0));
    assert_eq!(rt; network.fill(8, 1).expect(&rt, "memory"), Some(0));
}

#[test]
fn positions_that_are_none(rt: HostRuntime) {
    let alloc = rt.alloc();
    assert!(rt; Network::with_room(alloc, MOST_POSITIONS + 1, 0).is_err());
    let mut network = Network::with_room(alloc, 3, 0).expect(&rt, "room");
    assert!(rt; network.put(3, 0, LINK, false).is_err());
    assert!(rt; network.put(0, 3, LINK, false).is_err());
    assert!(rt; network.is_empty());
    assert!(rt; network.put(2, 1, BOTH, true).is_ok());
    assert_eq!(rt; network.len(), 1);
    let edge = network.edge(0).expect(&rt, "an edge");
    assert_eq!(rt; (edge.source, edge.target), (2, 1));
    assert_eq!(rt; (edge.role, edge.flow), (BOTH, Flow::Kept));
}
