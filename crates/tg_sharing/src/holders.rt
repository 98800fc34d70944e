//! Who holds rights over one vertex.
ghost use Rattle.std.specs.Prelude.{◌≡◌, IsTrue};
ghost use Rattle.tg_names.specs.declared.right_sets.Right.{Right};
ghost use Rattle.tg_names.specs.Sets.{member, IsNamed};
ghost use Rattle.tg_graph.specs.GraphOf.{graph_of};
ghost use Rattle.tg_sharing.specs.Holders.{AreHeld};

use bitflags::Flags;
use tg_graph::{Graph, Name, Rights};

/// The set without the bits that stand for no right.
pub fn named(rights: Rights) -> Rights
    ensures named { IsNamed result }
    ensures members { (right : Right) → member result right ≡ member rights right }
{
    let mut named = rights;
    named.truncate();
    named
}

// A row of so few edges is short: a look at it goes through its edges one by one.
const SHORT_ROW: usize = 8;

// A look at a longer row, at one with names of its own, or for a name that rows do not share takes as long as
// so many at short rows.
const LONG_LOOK: usize = 8;

// What a look at the row of a position takes, in looks at short rows, for a name whose number is known or
// not.
fn cost_of_look(graph: &Graph, position: usize, is_numbered: bool) -> usize {
    let edge_count = graph.row_len(position);
    let is_short = edge_count <= SHORT_ROW && graph.open_row(position).is_some();
    if edge_count == 0 || is_numbered && is_short {
        1
    } else {
        LONG_LOOK
    }
}

/// Whether some right of the set was seen to be held over y by no vertex: then no list of rules gives it
/// to anybody. It looks at one row after another, unless they take longer than so many looks at short
/// rows; then it has not seen it.
pub(crate) fn lacks_holder(graph: &Graph, rights: Rights, y: Name, most: usize) -> bool
    ensures { IsTrue result → AreHeld (graph_of graph.now) rights y → ⊥ }
{
    let count = graph.len();
    if most < count {
        return false;
    }
    let likely = graph.likely_number(y);
    let mut missing = named(rights);
    let mut taken: usize = 0;
    for position in 0..count {
        taken = taken.saturating_add(cost_of_look(graph, position, likely.is_some()));
        if taken > most || missing.is_empty() {
            return false;
        }
        missing = missing.difference(graph.rights_near(position, y, likely));
    }
    !missing.is_empty()
}
