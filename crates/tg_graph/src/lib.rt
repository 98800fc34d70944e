//! Protection graphs: names, rights, the graph and its four rules.
#![tactic(auto)]

// a graph that is built edge by edge, as from a text
mod builder;
// whether a rule is accepted, for whatever has rows
mod checks;
// changed rows and new vertices, laid over a graph
mod draft;
// the ends of edges by position
mod ends;
// the labels of waiting edges, by the position of the target
mod labels;
// the limits that texts, sessions and derivations keep
mod limits;
// the graph: vertices with rows, in order of insertion
mod protection;
// changes of several rows at a time
mod row_maps;
// the four rules, and the reasons to refuse one
mod rules;
// what a session does in one step, and what it is told
mod session;
// edges that wait for their rows
mod waiting;

pub use builder::GraphBuilder;
pub use draft::{Draft, Ready};
pub use ends::Wanted;
pub use limits::{MOST_CELLS, MOST_SEATS, MOST_VERTICES, MOST_WORKERS};
pub use protection::{EdgeFault, Graph, VertexFault};
pub use rules::{Refusal, Rule, RuleFault};
pub use session::{Act, Reply, Step};
pub use tg_names::{Name, NameFault, Right, Rights};
pub use tg_rows::OpenRow;
