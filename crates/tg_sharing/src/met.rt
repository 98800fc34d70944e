//! The vertices that a search has met.
ghost use Rattle.std.specs.Prelude.{◌≡◌, ◌<◌, ◌^◌, [], ◌∷◌, IfOk, OnOk, bytes_eq, length, slice_get};
ghost use Rattle.std.specs.List.{list_any, IsDistinct};
ghost use Rattle.std.specs.Map.{keys_of};
ghost use Rattle.tg_sharing.specs.Searches.{with_met, back_of};

use indexmap::IndexMap;
use std::alloc::{AllocError, Global};
use std::marker::Model;
use tg_graph::Name;

/// The vertices that a search has met, in the order in which it met them.
///
/// With each stands the place of the one by which it was first met; the place of the first says
/// nothing.
#[derive(Drop)]
pub struct Met {
    places: IndexMap<Name, usize>,
}

impl Model for Met {
    ghost use Rattle.std.specs.Prelude.{List, ℕ};

    ghost Value = { List (List ℕ × ℕ) };

    ghost view = { λ m. m.places.entries };
}

impl Met {
    /// A search that has met the vertex from which it starts.
    ///
    /// The one error is want of memory.
    pub fn from(alloc: Global, start: Name) -> Result<Met, AllocError>
        ensures { IfOk result (λ met. met ≡ (start, 0) ∷ []) }
    {
        let mut met = Met {
            places: IndexMap::new(alloc),
        };
        met.places.insert(start, 0)?;
        Ok(met)
    }

    /// The vertex at a place, with the place of the one by which it was first met.
    pub fn at(&self, place: usize) -> Option<(Name, usize)>
        ensures value { result ≡ slice_get self.now place }
        ensures apart { IsDistinct bytes_eq (keys_of self.now) }
        ensures small { length self.now < 2 ^ 63 }
    {
        // The length of a map is small: a fact that its length alone tells.
        let _ = self.places.len();
        match self.places.get_index(place) {
            Some((name, from)) => Some((*name, *from)),
            None => None,
        }
    }

    /// Whether a vertex was met.
    pub fn has(&self, name: Name) -> bool
        ensures { result ≡ list_any (bytes_eq name) (keys_of self.now) }
    {
        self.places.contains_key(&name)
    }

    /// Meets a vertex by the one at a place; a vertex that was met before stays as it is.
    ///
    /// The one error is want of memory.
    pub fn meet(&mut self, name: Name, from: usize) -> Result<(), AllocError>
        ensures { OnOk result (self.new ≡ with_met self.old name from) }
    {
        if self.has(name) {
            return Ok(());
        }
        self.places.insert(name, from)?;
        Ok(())
    }

    /// The vertex by which the one at a place was first met, with its place; none for the first.
    pub fn back(&self, place: usize) -> Option<(Name, usize)>
        ensures { result ≡ back_of self.now place }
    {
        if place == 0 {
            return None;
        }
        let (_, from) = self.at(place)?;
        let (name, _) = self.at(from)?;
        Some((name, from))
    }
}
