//! What a least cut answers. The call tells nothing of what it saw, so the check of a test that makes
//! several of them stays short.
use std::alloc::Global;
use tg_analysis::{AskFault, Ends, least_cut};
use tg_graph::{Graph, Name, Right, Rule};

/// Which rights have to go.
pub(crate) fn cut_of(
    alloc: Global,
    graph: &Graph,
    right: Right,
    x: Name,
    y: Name,
    kept: &[Ends],
) -> Result<Option<Vec<Rule>>, AskFault> {
    least_cut(alloc, graph, right, x, y, kept)
}
