//! How many edges a graph has.
use tg_graph::Graph;

/// How many edges a graph has. It decides no answer, only how one is found.
pub(crate) fn edge_count(graph: &Graph) -> usize {
    let mut count: usize = 0;
    for position in 0..graph.len() {
        count = count.saturating_add(graph.row_len(position));
    }
    count
}
