//! Who is near a position, and who comes to the end beyond those.
ghost use Rattle.std.specs.Prelude.{◌≡◌, IfOk};
ghost use Rattle.tg_flow.specs.Courses.{is_in};
ghost use Rattle.tg_flow.specs.Sides.{AreNear, AreBeyond};

use crate::courses::Course;
use crate::edges::Side;
use crate::network::Network;
use crate::searches::Search;
use crate::ways::{Step, Ways};
use std::alloc::AllocError;

// The step of the position from which a search begins: it was met by no edge, and what stands here decides
// nothing.
fn first_step() -> Step {
    Step {
        number: 0,
        side: Side::Source,
        level: 0,
    }
}

impl Network {
    /// For each position whether it is near x: whether a unit could still come there from x, over edges that let
    /// it go on.
    ///
    /// The error is want of memory, or an x that is no position.
    pub fn find_near(&self, x: usize) -> Result<Vec<bool>, AllocError>
        ensures { IfOk result (λ near. AreNear self.now x (is_in near.items)) }
    {
        let search = Search {
            network: self,
            course: Course::Near,
            near: &[],
            first: Some(x),
            sought: None,
        };
        let mut ways = Ways::none(self.allocator(), self.count())?;
        ways.meet(x, first_step())?;
        search.run(&mut ways, x)?;
        let near = ways.marks(self.allocator())?;
        Ok(near)
    }

    /// For each position whether it comes to the end without the near ones: those beside them from which an edge
    /// leads to the end, if such count, and those that are linked to one of these by edges with no end near.
    /// What edges carry is nothing to it. It looks first at the edges into y; it decides no answer.
    ///
    /// The one error is want of memory.
    pub fn find_beyond(
        &self,
        near: &[bool],
        has_holders: bool,
        y: usize,
    ) -> Result<Vec<bool>, AllocError>
        ensures { IfOk result (λ beyond.
            AreBeyond self.now has_holders (is_in near.now) (is_in beyond.items)) }
    {
        let search = Search {
            network: self,
            course: Course::Beyond { has_holders },
            near,
            first: None,
            sought: None,
        };
        let mut ways = Ways::none(self.allocator(), self.count())?;
        search.run(&mut ways, y)?;
        let beyond = ways.marks(self.allocator())?;
        Ok(beyond)
    }
}
