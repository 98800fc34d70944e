//! What graphs have, by letters. Vertices are named as in a `Deed`; of others nothing holds.
use crate::letters::name;
use tg_graph::{Graph, Right, Rights};

/// A source and a target, and the rights of the edge between them.
pub type Label = ([u8; 2], &'static [u8]);

/// Whether x has the right over y.
pub fn holds(graph: &Graph, x: u8, right: Right, y: u8) -> bool {
    let (Some(x), Some(y)) = (name(x), name(y)) else {
        return false;
    };
    graph.holds(x, right, y)
}

// Whether x has exactly these rights over y.
fn has_label(graph: &Graph, x: u8, y: u8, letters: &[u8]) -> bool {
    let (Some(x), Some(y)) = (name(x), name(y)) else {
        return false;
    };
    match Rights::from_letters(letters) {
        Some(rights) => graph.label(x, y) == Some(rights),
        None => false,
    }
}

/// Whether the graph has so many vertices, and these labels.
pub fn shows(graph: &Graph, len: usize, labels: &[Label]) -> bool {
    for label in labels {
        let ([x, y], letters) = *label;
        if !has_label(graph, x, y, letters) {
            return false;
        }
    }
    graph.len() == len
}
