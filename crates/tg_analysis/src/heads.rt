//! The first places of the numbers of a list.
ghost use Rattle.std.specs.Prelude.{◌≡◌, ◌+◌, ◌<◌, ℕ, Some, IfOk, OnOk, length, slice_get, slice_index};
ghost use Rattle.tg_analysis.specs.Cases.{AreHeads};

use std::alloc::{AllocError, Global};

/// For each number of a list the first place at which it stands, and these places in rising order.
#[derive(Drop)]
pub(crate) struct Heads {
    /// By number its first place, if it has one.
    pub places: Vec<Option<usize>>,
    /// The places in rising order.
    pub order: Vec<usize>,
}

impl Heads {
    // Takes in the number at one place more.
    fn add(&mut self, numbers: &[usize], place: usize) -> Result<(), AllocError>
        requires within { place < length numbers.now }
        requires number { slice_index numbers.now place < length self.old.places.items }
        requires so_far { AreHeads numbers.now place self.old.places.items self.old.order.items }
        ensures heads { OnOk result
            (AreHeads numbers.now (place + 1) self.new.places.items self.new.order.items) }
        ensures len { OnOk result
            (length self.new.places.items ≡ length self.old.places.items) }
    {
        let number = numbers[place];
        if self.places[number].is_some() {
            return Ok(());
        }
        self.order.push(place)?;
        self.places[number] = Some(place);
        Ok(())
    }

    /// The first places of the numbers of a list, each of which is below the count.
    pub(crate) fn of(alloc: Global, numbers: &[usize], count: usize) -> Result<Heads, AllocError>
        requires below { (k n : ℕ) → slice_get numbers.now k ≡ Some n → n < count }
        ensures { IfOk result (λ heads.
            AreHeads numbers.now (length numbers.now) heads.places.items heads.order.items) }
    {
        let mut heads = Heads {
            places: vec![in alloc; None; count]?,
            order: Vec::new(alloc),
        };
        for place in 0..numbers.len() {
            heads.add(numbers, place)?;
        }
        Ok(heads)
    }
}
