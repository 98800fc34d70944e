use crate::test_networks::{BOTH, END, Edge, LINK, assert_marked, network};
use std::alloc::Global;
use std::process::Abort;

// Once no more units can go from 0, these positions are near it, and these beyond.
fn assert_sides(rt: &impl Abort, alloc: Global, edges: &[Edge], near: &[usize], beyond: &[usize]) {
    let mut network = network(rt, alloc, 8, edges);
    network.fill(0, 1).expect(rt, "memory");
    let found = network.find_near(0).expect(rt, "memory");
    assert_marked(rt, found.as_slice(), near);
    let others = network
        .find_beyond(found.as_slice(), true, 1)
        .expect(rt, "memory");
    assert_marked(rt, others.as_slice(), beyond);
}

#[test]
fn nobody_or_one_is_beyond(rt: HostRuntime) {
    let alloc = rt.alloc();
    assert_sides(&rt, alloc, &[(0, 1, END, false)], &[0], &[]);
    assert_sides(&rt, alloc, &[(0, 1, BOTH, false)], &[0], &[]);
    let apart = [(0, 2, LINK, false), (3, 1, END, false)];
    assert_sides(&rt, alloc, &apart, &[0, 2], &[3]);
    let near_the_target = [(0, 1, LINK, false), (2, 1, END, false)];
    assert_sides(&rt, alloc, &near_the_target, &[0, 1], &[2]);
    let linked_to_the_target = [(0, 1, LINK, false), (2, 1, BOTH, false)];
    assert_sides(&rt, alloc, &linked_to_the_target, &[0], &[1, 2]);
    let to_itself = [(0, 1, LINK, false), (1, 1, END, false)];
    assert_sides(&rt, alloc, &to_itself, &[0], &[1]);
}

#[test]
fn sides_of_kept_edges(rt: HostRuntime) {
    let alloc = rt.alloc();
    let both = [(0, 1, LINK, true), (2, 1, BOTH, false)];
    assert_sides(&rt, alloc, &both, &[0, 1], &[2]);
    let longer_way = [
        (0, 2, LINK, true),
        (0, 3, LINK, false),
        (2, 3, LINK, false),
        (3, 1, END, true),
    ];
    assert_sides(&rt, alloc, &longer_way, &[0, 2], &[3]);
    let to_and_fro = [(0, 2, LINK, false), (2, 0, LINK, false), (2, 1, END, true)];
    assert_sides(&rt, alloc, &to_and_fro, &[0], &[2]);
}

#[test]
fn sides_of_a_dense_island(rt: HostRuntime) {
    let edges = [
        (0, 2, LINK, false),
        (0, 3, LINK, false),
        (0, 4, LINK, false),
        (2, 0, LINK, false),
        (2, 3, LINK, false),
        (2, 4, LINK, false),
        (3, 0, LINK, false),
        (3, 1, END, false),
        (3, 2, LINK, false),
        (3, 4, LINK, false),
        (4, 0, LINK, false),
        (4, 1, END, false),
        (4, 2, LINK, false),
        (4, 3, LINK, false),
    ];
    assert_sides(&rt, rt.alloc(), &edges, &[0, 2, 3, 4], &[]);
}

#[test]
fn sources_of_edges_to_the_end_do_not_count(rt: HostRuntime) {
    let edges = [(2, 1, END, false), (2, 3, LINK, false)];
    let network = network(&rt, rt.alloc(), 4, &edges);
    let others = network.find_beyond(&[], false, 1).expect(&rt, "memory");
    assert_marked(&rt, others.as_slice(), &[]);
    let holders = network.find_beyond(&[], true, 1).expect(&rt, "memory");
    assert_marked(&rt, holders.as_slice(), &[2, 3]);
    assert!(rt; network.find_near(4).is_err());
}
