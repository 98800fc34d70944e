//! Labels by position.
ghost use Rattle.std.specs.Prelude.{◌≡◌, ◌<◌, ℕ, [], IfOk, get_or, length, not, true, false, replicate, slice_set};
ghost use Rattle.std.specs.List.{AllByRecursion};
ghost use Rattle.tg_names.specs.Sets.{IsNamed, is_empty_set, nothing};

use bitflags::Flags;
use std::alloc::{AllocError, Global};
use std::marker::Model;
use tg_names::Rights;

/// At the position of each vertex a label, or no rights.
#[derive(Drop)]
pub struct Labels {
    labels: Vec<Rights>,
}

impl Model for Labels {
    ghost use Rattle.std.specs.Prelude.{List};
    ghost use Rattle.std.specs.List.{AllByRecursion};
    ghost use Rattle.tg_names.specs.declared.right_sets.Rights.{Rights};
    ghost use Rattle.tg_names.specs.Sets.{IsNamed};

    ghost Value = { List Rights };

    ghost view = { λ l. l.labels.items };

    ghost invariant = { λ l. AllByRecursion IsNamed l.labels.items };
}

impl Clone for Labels {
    ghost use Rattle.std.specs.Prelude.{◌≡◌};

    ghost is_clone = { λ labels copy. copy ≡ labels };

    fn clone(&self) -> Result<Labels, AllocError> {
        Ok(Labels {
            labels: Vec::from_slice(*self.labels.allocator(), self.labels.as_slice())?,
        })
    }
}

impl Labels {
    /// For no vertices.
    pub fn none(alloc: Global) -> Labels
        ensures { result ≡ [] }
    {
        Labels {
            labels: Vec::new(alloc),
        }
    }

    /// No rights for each of so many vertices.
    pub fn empty(alloc: Global, vertices: usize) -> Result<Labels, AllocError>
        ensures { IfOk result (λ labels. labels ≡ replicate vertices nothing) }
    {
        Ok(Labels {
            labels: Vec::from_elem(alloc, Rights::empty(), vertices)?,
        })
    }

    /// How many vertices they are for.
    pub fn len(&self) -> usize
        ensures value { result ≡ length self.now }
        ensures named { AllByRecursion IsNamed self.now }
    {
        self.labels.len()
    }

    /// Whether there is a label at a position that has a right.
    pub fn has(&self, place: usize) -> bool
        ensures value { result ≡ not (is_empty_set (get_or self.now place nothing)) }
        ensures within { result ≡ true → place < length self.now }
    {
        match self.labels.get(place) {
            Some(label) => !label.is_empty(),
            None => false,
        }
    }

    /// Whether there is no label that has a right. The loop goes on behind one that has, so that it is
    /// compiled to few steps for many labels.
    pub fn is_clear(&self) -> bool
        ensures { result ≡ true → (k : ℕ) → get_or self.now k nothing ≡ nothing }
    {
        let mut found = false;
        for i in 0..self.labels.len() {
            found |= !self.labels[i].is_empty();
        }
        !found
    }

    /// Whether each label has a right. The loop goes on behind one that has none, as above.
    pub fn is_full(&self) -> bool
        ensures { result ≡ true → (k : ℕ) → k < length self.now → is_empty_set (get_or self.now k nothing) ≡ false }
    {
        let mut missing = false;
        for i in 0..self.labels.len() {
            missing |= self.labels[i].is_empty();
        }
        !missing
    }

    /// The label at a position.
    pub fn at(&self, place: usize) -> Rights
        requires { place < length self.now }
        ensures value { result ≡ get_or self.now place nothing }
        ensures named { IsNamed result }
    {
        self.labels[place]
    }

    /// Writes the label at a position.
    pub fn set(&mut self, place: usize, label: Rights)
        requires place { place < length self.old }
        requires named { IsNamed label }
        ensures { self.new ≡ slice_set self.old place label }
    {
        self.labels[place] = label;
    }
}
