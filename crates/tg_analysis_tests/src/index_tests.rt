// What an index says of a graph, beside what `can_share` says.
use crate::test_answers::shares;
use crate::test_graphs::{graph, name};
use std::alloc::Global;
use std::process::Abort;
use std::test::Fail;
use tg_analysis::{AskFault, SharingIndex};
use tg_graph::{Graph, Name, Right};

fn indexed(alloc: Global, graph: &Graph, right: Right, x: Name, y: Name) -> Result<bool, AskFault> {
    let mut index = SharingIndex::new();
    index.can_share(alloc, graph, right, x, y)
}

fn assert_same(rt: &impl Abort, alloc: Global, graph: &Graph, right: Right, x: Name, y: Name) {
    assert!(rt; indexed(alloc, graph, right, x, y) == shares(alloc, graph, right, x, y));
}

// Of each two vertices, whether the index says the same.
fn assert_agrees(rt: &impl Abort, alloc: Global, graph: &Graph, right: Right) {
    for i in 0..graph.len() {
        for j in 0..graph.len() {
            if let (Some(x), Some(y)) = (graph.name_at(i), graph.name_at(j)) {
                assert_same(rt, alloc, graph, right, x, y);
            }
        }
    }
}

#[test]
fn an_index_says_what_can_be_shared(rt: HostRuntime) -> Result<(), Fail> {
    // two islands, a b c and d e, and f alone
    let g = graph(
        &rt,
        rt.alloc(),
        "a b c d e f",
        "a b t, c b g, c d r, d e tg, e a w, f a re, d f r, b f e",
    );
    for right in &Right::ALL {
        assert_agrees(&rt, rt.alloc(), &g, *right);
    }
    Ok(())
}

// Of each two vertices, whether an index that is kept says the same.
fn assert_kept_agrees(rt: &impl Abort, alloc: Global, graph: &Graph, right: Right) {
    let mut index = SharingIndex::new();
    for i in 0..graph.len() {
        for j in 0..graph.len() {
            if let (Some(x), Some(y)) = (graph.name_at(i), graph.name_at(j)) {
                let answer = index.can_share(alloc, graph, right, x, y);
                assert!(rt; answer == shares(alloc, graph, right, x, y));
            }
        }
    }
}

#[test]
fn an_index_that_is_kept_says_the_same(rt: HostRuntime) -> Result<(), Fail> {
    // the first question finds near a what it asks for; once questions have looked at 13 rows and edges, the
    // next one finds the islands, and once they have looked at 13 rows more, the next one lists the edges
    let g = graph(
        &rt,
        rt.alloc(),
        "a b c d e f g h i j k l m",
        "a a tgrwead, a b tr, b c g, c d t, d e g, e a r, f g t, g h r, h f g, i j w, k i e, j k r, l a rt, m m g",
    );
    for right in &Right::ALL {
        assert_kept_agrees(&rt, rt.alloc(), &g, *right);
    }
    Ok(())
}

// Four rows and edges are half of what there is: a search that looks at each row pays for the islands,
// and two questions that look at two rows each pay for the list.
#[test]
fn an_index_finds_what_was_paid_for(rt: HostRuntime) -> Result<(), Fail> {
    let g = graph(&rt, rt.alloc(), "a b c d", "a b t, c a r, c b r, c d r");
    let (a, d) = (name(&rt, "a"), name(&rt, "d"));
    let mut index = SharingIndex::new();
    assert!(rt; index.can_share(rt.alloc(), &g, Right::W, a, d) == Ok(false));
    assert!(rt; !index.has_found());
    assert!(rt; index.can_share(rt.alloc(), &g, Right::W, a, d) == Ok(false));
    assert!(rt; index.has_found());
    assert!(rt; index.can_share(rt.alloc(), &g, Right::W, a, d) == Ok(false));
    assert!(rt; !index.has_listed());
    assert!(rt; index.can_share(rt.alloc(), &g, Right::R, a, d) == Ok(false));
    assert!(rt; index.has_listed());
    assert!(rt; index.can_share(rt.alloc(), &g, Right::T, a, name(&rt, "b")) == Ok(true));
    Ok(())
}

#[test]
fn an_index_knows_no_stranger(rt: HostRuntime) -> Result<(), Fail> {
    let g = graph(&rt, rt.alloc(), "a b", "a b t");
    let (a, stranger) = (name(&rt, "a"), name(&rt, "c"));
    let mut index = SharingIndex::new();
    let unknown = Err(AskFault::Unknown(stranger));
    assert!(rt; index.can_share(rt.alloc(), &g, Right::T, a, stranger) == unknown);
    assert!(rt; index.can_share(rt.alloc(), &g, Right::T, stranger, a) == unknown);
    Ok(())
}

// Of each two of the first eight vertices, four times over, whether an index of islands alone says the same,
// and has listed no edges.
fn assert_alone_agrees(rt: &impl Abort, alloc: Global, graph: &Graph, right: Right) {
    let mut index = SharingIndex::of_islands_alone();
    for pair in 0..256_usize {
        let (i, j) = (pair / 8 % 8, pair % 8);
        if let (Some(x), Some(y)) = (graph.name_at(i), graph.name_at(j)) {
            let answer = index.can_share(alloc, graph, right, x, y);
            assert!(rt; answer == shares(alloc, graph, right, x, y));
        }
    }
    assert!(rt; index.has_found());
    assert!(rt; !index.has_listed());
}

#[test]
fn an_index_of_islands_alone_lists_no_edges(rt: HostRuntime) -> Result<(), Fail> {
    let g = graph(
        &rt,
        rt.alloc(),
        "a b c d e f g h",
        "a b t, b c g, c d r, d e tg, e a w, f a re, d f r, b f e, g h r, h g t",
    );
    for right in &Right::ALL {
        assert_alone_agrees(&rt, rt.alloc(), &g, *right);
    }
    Ok(())
}
