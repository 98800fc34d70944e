//! The edges of one row that has an edge to each of the shared names: a byte an edge.
ghost use Rattle.std.specs.Prelude.{◌≡◌, ◌<◌, ℕ, List, [], ◌∷◌, ◌++◌, if◌then◌else◌, IfOk, IfSome, OnErr, length, slice_get, slice_index_or, slice_set, zip};
ghost use Rattle.tg_names.specs.declared.right_sets.Rights.{Rights};
ghost use Rattle.tg_rows.specs.Rows.{IsPlaceOf};

use crate::listed_edges::ListedEdges;
use crate::shared_names::{Hint, SharedNames};
use std::alloc::{AllocError, Global};
use std::marker::Model;
use std::sync::Arc;
use tg_names::{Name, Rights};

/// Edges to each of the shared names, in name order. While they are put in, there are edges to the
/// first of these names alone.
#[derive(Drop)]
pub struct EdgesToAll {
    shared: SharedNames,
    // The shared names in name order.
    names: Arc<Vec<Name>>,
    // The labels of the edges to the first of them, in the same order.
    labels: Vec<Rights>,
}

impl Model for EdgesToAll {
    ghost use Rattle.std.specs.Prelude.{◌≤◌, List, ℕ, length, zip};
    ghost use Rattle.std.specs.Arc.{arc_value};
    ghost use Rattle.tg_names.specs.declared.right_sets.Rights.{Rights};

    ghost Value = { List (List ℕ × Rights) };

    ghost view = { λ e. zip (arc_value e.names).items e.labels.items };

    ghost invariant = { λ e. length e.labels.items ≤ length (arc_value e.names).items };
}

impl Clone for EdgesToAll {
    ghost use Rattle.std.specs.Prelude.{◌≡◌};

    ghost is_clone = { λ edges copy. copy ≡ edges };

    fn clone(&self) -> Result<EdgesToAll, AllocError> {
        Ok(EdgesToAll {
            shared: self.shared.clone()?,
            names: Arc::try_clone(&self.names)?,
            labels: Vec::from_slice(*self.labels.allocator(), self.labels.as_slice())?,
        })
    }
}

// The labels of the edges, where their targets are these names.
fn labels_to_all(list: &ListedEdges, names: &[Name]) -> Option<Vec<Rights>>
    ensures { IfSome result
        (λ labels. (zip names.now labels.items ≡ list.now) × (length names.now ≡ length labels.items)) }
{
    if list.len() != names.len() {
        return None;
    }
    let Ok(mut labels) = Vec::with_capacity(list.allocator(), names.len()) else {
        return None;
    };
    for (place, name) in names.iter().enumerate() {
        if list.target(place) != *name {
            return None;
        }
        let Ok(()) = labels.push(list.label(place)) else {
            return None;
        };
    }
    Some(labels)
}

impl EdgesToAll {
    /// No edges so far, with room for one to each of the shared names.
    pub fn with_room(alloc: Global, shared: &SharedNames) -> Result<EdgesToAll, AllocError>
        ensures { IfOk result (λ edges. edges ≡ []) }
    {
        let names = Arc::try_clone(shared.names())?;
        let labels = Vec::with_capacity(alloc, names.len())?;
        Ok(EdgesToAll {
            shared: shared.clone()?,
            names,
            labels,
        })
    }

    /// The same edges, if there is one to each of the shared names. There are none too where memory
    /// is refused.
    pub fn of(list: &ListedEdges) -> Option<EdgesToAll>
        ensures { IfSome result (λ edges. edges ≡ list.now) }
    {
        let shared = list.shared()?;
        let names = shared.names();
        let labels = labels_to_all(list, names.as_slice())?;
        Some(EdgesToAll {
            shared: shared.clone().ok()?,
            names: Arc::try_clone(names).ok()?,
            labels,
        })
    }

    /// How many edges there are.
    pub fn len(&self) -> usize
        ensures { result ≡ length self.now }
    {
        self.labels.len()
    }

    /// The edge at a place.
    pub fn at(&self, place: usize) -> Option<(Name, Rights)>
        ensures { result ≡ slice_get self.now place }
    {
        if place < self.len() {
            Some((self.target(place), self.label(place)))
        } else {
            None
        }
    }

    /// Where the edge to a vertex mostly is. It decides no answer.
    pub fn likely_place(&self, target: Name) -> Option<usize> {
        self.shared.likely_number(target)
    }

    /// Where the edge to a vertex is, where its name has this number.
    #[inline(always)]
    pub fn place_by_number(&self, target: Name, number: Option<usize>) -> Option<usize>
        ensures { IfSome result (IsPlaceOf self.now target) }
    {
        let place = number?;
        if place < self.len() && self.target(place) == target {
            Some(place)
        } else {
            None
        }
    }

    /// The position that the target of the edge at a place mostly has. It decides no answer.
    pub fn likely_end(&self, place: usize) -> Option<usize> {
        self.shared.position_at(place)
    }

    /// The target of the edge at a place.
    pub fn target(&self, place: usize) -> Name
        requires { place < length self.now }
        ensures { (d : List ℕ × Rights) → result ≡ (slice_index_or self.now place d).0 }
    {
        self.names[place]
    }

    /// The label of the edge at a place.
    pub fn label(&self, place: usize) -> Rights
        requires { place < length self.now }
        ensures { (d : List ℕ × Rights) → result ≡ (slice_index_or self.now place d).1 }
    {
        self.labels[place]
    }

    /// Writes the label of the edge at a place.
    pub fn set_label(&mut self, place: usize, label: Rights)
        requires { place < length self.old }
        ensures { (d : List ℕ × Rights) → self.new ≡ slice_set self.old place ((slice_index_or self.old place d).0, label) }
    {
        self.labels[place] = label;
    }

    /// Puts an edge behind the others where its target is the next of the names, and says whether it
    /// was put there.
    #[inline(always)]
    pub fn push(&mut self, target: Name, label: Rights) -> Result<bool, AllocError>
        ensures pushed { IfOk result
            (λ pushed. self.new ≡ (if pushed then self.old ++ (target, label) ∷ [] else self.old)) }
        ensures err { OnErr result (self.new ≡ self.old) }
    {
        match self.names.get(self.labels.len()) {
            Some(name) if *name == target => {
                self.labels.push(label)?;
                Ok(true)
            }
            _ => Ok(false),
        }
    }

    /// The same edges, whose targets have numbers among these names where they had them among
    /// others that are the same.
    pub fn listed(
        &self,
        alloc: Global,
        names: Option<&SharedNames>,
    ) -> Result<ListedEdges, AllocError>
        ensures { IfOk result (λ list. list ≡ self.now) }
    {
        let mut list = ListedEdges::with_room(alloc, names, self.len())?;
        for place in 0..self.len() {
            let hint = Hint {
                names,
                number: Some(place),
            };
            list.put(place, (self.target(place), self.label(place)), hint)?;
        }
        Ok(list)
    }

    /// The same edges among the names that they share.
    pub fn expanded(&self) -> Result<ListedEdges, AllocError>
        ensures { IfOk result (λ list. list ≡ self.now) }
    {
        self.listed(*self.labels.allocator(), Some(&self.shared))
    }
}
