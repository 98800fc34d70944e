//! The positions that a flood has met.
ghost use Rattle.std.specs.Prelude.{◌≡◌, ◌<◌, [], ◌∷◌, IfOk, IfSome, OnOk, true, length, replicate, None, ℕ};
ghost use Rattle.std.specs.Map.{keys_of};
ghost use Rattle.tg_rows.specs.Rows.{row_number};
ghost use Rattle.tg_islands.specs.Linked.{neighbours, is_near};
ghost use Rattle.tg_sharing.specs.Flooding.{Meets, MeetsEnd, MeetsEnds};

use std::alloc::{AllocError, Global};
use tg_graph::{Graph, OpenRow};
use tg_islands::{Links, linked_end};

/// A flood that gives numbers to the positions that it meets.
#[derive(Drop)]
pub struct Flood {
    /// The numbers so far, by position.
    pub numbers: Vec<Option<usize>>,
    /// The positions whose neighbours are still to be met.
    pub waiting: Vec<usize>,
    /// The number that is given now.
    pub current: usize,
}

impl Flood {
    /// A flood that has met none of so many positions.
    ///
    /// The one error is want of memory.
    pub fn new(alloc: Global, count: usize) -> Result<Flood, AllocError>
        ensures numbers { IfOk result (λ flood. flood.numbers.items ≡ replicate count None) }
        ensures waiting { IfOk result (λ flood. flood.waiting.items ≡ []) }
        ensures current { IfOk result (λ flood. flood.current ≡ 0) }
    {
        Ok(Flood {
            numbers: vec![in alloc; None; count]?,
            waiting: Vec::new(alloc),
            current: 0,
        })
    }

    /// Gives a position the current number, if it has none.
    ///
    /// The one error is want of memory.
    pub fn meet(&mut self, position: usize) -> Result<(), AllocError>
        requires { position < length self.old.numbers.items }
        ensures { OnOk result (Meets (position ∷ []) self.old self.new) }
    {
        if self.numbers[position].is_none() {
            self.waiting.push(position)?;
            self.numbers[position] = Some(self.current);
        }
        Ok(())
    }

    /// Meets each neighbour of a position.
    ///
    /// The one error is want of memory.
    pub fn meet_neighbours(&mut self, links: &Links, position: usize) -> Result<(), AllocError>
        requires { (b : ℕ) → is_near links.now position b ≡ true
            → b < length self.old.numbers.items }
        ensures { OnOk result (Meets (neighbours links.now position) self.old self.new) }
    {
        for neighbour in links.at(position) {
            self.meet(*neighbour as usize)?;
        }
        Ok(())
    }

    // Meets the end of an edge, if its label has take or grant.
    fn meet_end(
        &mut self,
        graph: &Graph,
        opened: &Option<OpenRow<'_>>,
        position: usize,
        place: usize,
    ) -> Result<(), AllocError>
        requires opened { IfSome opened.now (λ row. row ≡ row_number graph.now position) }
        requires len { length self.old.numbers.items ≡ length (keys_of graph.now) }
        ensures { OnOk result (MeetsEnd graph.now position place self.old self.new) }
    {
        if let Some(end) = linked_end(graph, opened, position, place) {
            self.meet(end)?;
        }
        Ok(())
    }

    /// Meets the ends of the edges out of a position whose labels have take or grant.
    ///
    /// The one error is want of memory.
    pub fn meet_row(&mut self, graph: &Graph, position: usize) -> Result<(), AllocError>
        requires { length self.old.numbers.items ≡ length (keys_of graph.now) }
        ensures { OnOk result
            (MeetsEnds graph.now position (length (row_number graph.now position)) self.old self.new) }
    {
        let opened = graph.open_row(position);
        for place in 0..graph.row_len(position) {
            self.meet_end(graph, &opened, position, place)?;
        }
        Ok(())
    }
}
