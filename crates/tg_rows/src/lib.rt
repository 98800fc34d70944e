//! The edges out of one vertex: rows that are read in name order and looked up by place.
#![tactic(auto)]

// a list of edges, in one of the two forms that follow
mod edge_list;
// labels alone, where there is an edge to each of the shared names, in their order; or so far to the first of them
mod edges_to_all;
// a number for each target, and its label
mod listed_edges;
// a row laid open: its edges, names and positions, found once for all of its edges
mod open_row;
// the edges of a row in name order
mod row;
// the names that rows share, which rise with their numbers
mod shared_names;
// the row of a vertex, which copies of a graph share
mod shared_row;
// the names behind the numbers of a row: shared ones, and its own
mod targets;

pub use open_row::OpenRow;
pub use row::Row;
pub use shared_names::{Hint, SharedNames};
pub use shared_row::SharedRow;
pub use targets::shared_with;
