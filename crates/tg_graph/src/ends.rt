//! The ends of edges, by position.
ghost use Rattle.std.specs.Prelude.{◌≡◌, IfSome, bytes_eq, position};
ghost use Rattle.std.specs.Map.{keys_of};
ghost use Rattle.tg_graph.specs.Ends.{is_wanted, end_of};
ghost use Rattle.tg_rows.specs.Rows.{row_number};

use crate::protection::Graph;
use tg_names::{Name, Right, Rights};
use tg_rows::OpenRow;

/// Which edges are asked for.
#[derive(Clone, Copy, PartialEq, Eq, Debug)]
pub enum Wanted {
    /// Each edge.
    All,
    /// Those whose labels have take or grant, which link their ends.
    Links,
    /// Those whose labels have the right.
    With(Right),
}

impl Wanted {
    // Whether an edge with the label is asked for.
    #[inline(always)]
    fn wants(self, label: Rights) -> bool
        ensures { result ≡ is_wanted self label }
    {
        match self {
            Wanted::All => true,
            Wanted::Links => label.has(Right::T) || label.has(Right::G),
            Wanted::With(right) => label.has(right),
        }
    }
}

impl Graph {
    // The position of a vertex, which is mostly the likely one.
    #[inline(always)]
    fn position_or(&self, likely: Option<usize>, name: Name) -> Option<usize>
        ensures { result ≡ position (bytes_eq name) (keys_of self.now) }
    {
        match self.confirmed(likely, name) {
            Some(found) => Some(found),
            None => self.position(name),
        }
    }

    /// The position of the target of an edge out of the vertex at a position, and its label, by the
    /// place of the edge in the name order of the targets. `None` past the last edge or vertex, and for
    /// an edge that is not asked for.
    ///
    /// It says what `row_at` and `position` say together, and mostly looks for no name.
    #[inline(always)]
    pub fn end_at(&self, position: usize, place: usize, wanted: Wanted) -> Option<(usize, Rights)>
        ensures { result ≡ end_of self.now position place wanted }
    {
        let (name, label) = self.row_at(position, place)?;
        if !wanted.wants(label) {
            return None;
        }
        let end = self.position_or(self.likely_end(position, place), name)?;
        Some((end, label))
    }

    /// The edges out of the vertex at a position, laid open for `end_in`, where they are kept so that this
    /// makes it faster; `None` else, and past the last vertex. No memory is taken.
    pub fn open_row(&self, position: usize) -> Option<OpenRow<'_>>
        ensures { IfSome result (λ row. row ≡ row_number self.now position) }
    {
        let (_, row) = self.rows.get_index(position)?;
        row.edges().open()
    }

    /// The same as `end_at`, found faster where the row is laid open.
    #[inline(always)]
    pub fn end_in(
        &self,
        opened: &Option<OpenRow<'_>>,
        position: usize,
        place: usize,
        wanted: Wanted,
    ) -> Option<(usize, Rights)>
        requires { IfSome opened.now (λ row. row ≡ row_number self.now position) }
        ensures { result ≡ end_of self.now position place wanted }
    {
        let Some(row) = opened else {
            return self.end_at(position, place, wanted);
        };
        let is_wanted = wanted.wants(row.label_at(place)?);
        if !is_wanted {
            return None;
        }
        let (name, label) = row.at(place)?;
        let end = self.position_or(row.likely_end(place), name)?;
        Some((end, label))
    }
}
