//! The edges out of one vertex, in the shorter of two forms.
ghost use Rattle.std.specs.Prelude.{◌≡◌, ◌<◌, ◌≤◌, [], ◌∷◌, ◌++◌, if◌then◌else◌, IfOk, IfErr, IfSome, OnOk, OnErr, length, slice_get, slice_index_or, slice_set};
ghost use Rattle.std.specs.List.{insert, remove};
ghost use Rattle.std.specs.Ordering.{nat_cmp};
ghost use Rattle.std.specs.Cmp.Lexicographic.{slice_cmp};
ghost use Rattle.std.specs.List.Sorted.{IsStrictlySortedBy};
ghost use Rattle.std.specs.Map.{keys_of};
ghost use Rattle.tg_names.specs.declared.right_sets.Rights.{Rights};
ghost use Rattle.tg_rows.specs.Rows.{IsPlaceOf, IsGapFor, label_in};

use crate::edges_to_all::EdgesToAll;
use crate::listed_edges::ListedEdges;
use crate::open_row::OpenRow;
use crate::shared_names::{Hint, SharedNames};
use std::alloc::{AllocError, Global};
use std::marker::Model;
use tg_names::{Name, Rights};

// The form that a list is in.
#[derive(Drop)]
enum Form {
    Listed(ListedEdges),
    ToAll(EdgesToAll),
}

/// A list of edges, each with its target and label.
#[derive(Drop)]
pub struct EdgeList {
    form: Form,
}

impl Model for EdgeList {
    ghost use Rattle.std.specs.Prelude.{List, ℕ};
    ghost use Rattle.tg_names.specs.declared.right_sets.Rights.{Rights};

    ghost Value = { List (List ℕ × Rights) };

    ghost use Rattle.tg_rows.specs.EdgeForms.{edges_in};

    ghost view = { λ l. edges_in l.form };
}

impl Clone for EdgeList {
    ghost use Rattle.std.specs.Prelude.{◌≡◌};

    ghost is_clone = { λ list copy. copy ≡ list };

    fn clone(&self) -> Result<EdgeList, AllocError> {
        let form = match &self.form {
            Form::Listed(edges) => Form::Listed(edges.clone()?),
            Form::ToAll(edges) => Form::ToAll(edges.clone()?),
        };
        Ok(EdgeList { form })
    }
}

impl EdgeList {
    ghost use Rattle.std.specs.Prelude.{List, ℕ};

    /// No edges, among whose targets these names are.
    pub fn new(alloc: Global, names: Option<SharedNames>) -> EdgeList
        ensures { result ≡ [] }
    {
        EdgeList {
            form: Form::Listed(ListedEdges::new(alloc, names)),
        }
    }

    /// No edges so far, where there is to be one to each of the shared names, in name order.
    pub fn to_all(alloc: Global, names: &SharedNames) -> Result<EdgeList, AllocError>
        ensures { IfOk result (λ list. list ≡ []) }
    {
        Ok(EdgeList {
            form: Form::ToAll(EdgesToAll::with_room(alloc, names)?),
        })
    }

    /// How many edges there are.
    pub fn len(&self) -> usize
        ensures { result ≡ length self.now }
    {
        match &self.form {
            Form::Listed(edges) => edges.len(),
            Form::ToAll(edges) => edges.len(),
        }
    }

    /// The edge at a place.
    pub fn at(&self, place: usize) -> Option<(Name, Rights)>
        ensures { result ≡ slice_get self.now place }
    {
        match &self.form {
            Form::Listed(edges) => edges.at(place),
            Form::ToAll(edges) => edges.at(place),
        }
    }

    /// The edges to be read one by one, where all names are shared and each edge has its number.
    pub fn open(&self) -> Option<OpenRow<'_>>
        ensures { IfSome result (λ row. row ≡ self.now) }
    {
        match &self.form {
            Form::Listed(edges) => edges.open(),
            Form::ToAll(_) => None,
        }
    }

    /// Where the edge to a vertex mostly is, or would go. It decides no answer.
    pub fn likely_place(&self, target: Name) -> Option<usize> {
        match &self.form {
            Form::Listed(edges) => edges.likely_place(target),
            Form::ToAll(edges) => edges.likely_place(target),
        }
    }

    /// The number that a vertex's name mostly has, where numbers alone tell its edge. It decides no answer.
    pub fn likely_number(&self, target: Name) -> Option<usize> {
        match &self.form {
            Form::Listed(edges) => edges.likely_number(target),
            Form::ToAll(_) => None,
        }
    }

    /// Where the edge to a vertex, whose name may have this number, is, or would go, where numbers of
    /// names alone tell it.
    #[inline(always)]
    pub fn place_by_number(
        &self,
        target: Name,
        likely: Option<usize>,
    ) -> Option<Result<usize, usize>>
        requires { IsStrictlySortedBy (slice_cmp nat_cmp) (keys_of self.now) }
        ensures found { IfSome result (λ place. IfOk place (IsPlaceOf self.now target)) }
        ensures absent { IfSome result (λ place. IfErr place (IsGapFor self.now target)) }
    {
        match &self.form {
            Form::Listed(edges) => edges.place_by_number(target, likely),
            Form::ToAll(edges) => Some(Ok(edges.place_by_number(target, likely)?)),
        }
    }

    /// The label of the edge to a vertex, no rights where there is none, where there are few edges and the
    /// number is that of the vertex's name, so that numbers alone tell it.
    #[inline(always)]
    pub fn label_in_few(&self, target: Name, number: Option<usize>) -> Option<Rights>
        requires { IsStrictlySortedBy (slice_cmp nat_cmp) (keys_of self.now) }
        ensures { IfSome result (λ label. label ≡ label_in self.now target) }
    {
        match &self.form {
            Form::Listed(edges) => edges.label_in_few(target, number),
            Form::ToAll(_) => None,
        }
    }

    /// The position that the target of the edge at a place mostly has. It decides no answer.
    pub fn likely_end(&self, place: usize) -> Option<usize> {
        match &self.form {
            Form::Listed(edges) => edges.likely_end(place),
            Form::ToAll(edges) => edges.likely_end(place),
        }
    }

    /// The target of the edge at a place.
    pub fn target(&self, place: usize) -> Name
        requires { place < length self.now }
        ensures { (d : List ℕ × Rights) → result ≡ (slice_index_or self.now place d).0 }
    {
        match &self.form {
            Form::Listed(edges) => edges.target(place),
            Form::ToAll(edges) => edges.target(place),
        }
    }

    /// The label of the edge at a place.
    pub fn label(&self, place: usize) -> Rights
        requires { place < length self.now }
        ensures { (d : List ℕ × Rights) → result ≡ (slice_index_or self.now place d).1 }
    {
        match &self.form {
            Form::Listed(edges) => edges.label(place),
            Form::ToAll(edges) => edges.label(place),
        }
    }

    /// Writes the label of the edge at a place.
    pub fn set_label(&mut self, place: usize, label: Rights)
        requires { place < length self.old }
        ensures { (d : List ℕ × Rights) → self.new ≡ slice_set self.old place ((slice_index_or self.old place d).0, label) }
    {
        match &mut self.form {
            Form::Listed(edges) => edges.set_label(place, label),
            Form::ToAll(edges) => edges.set_label(place, label),
        }
    }

    /// The same edges, whose targets have numbers among these names where they had them among
    /// others that are the same.
    pub fn moved_to(
        &self,
        alloc: Global,
        names: Option<&SharedNames>,
    ) -> Result<EdgeList, AllocError>
        ensures { IfOk result (λ list. list ≡ self.now) }
    {
        let edges = match &self.form {
            Form::Listed(edges) => edges.moved_to(alloc, names)?,
            Form::ToAll(edges) => edges.listed(alloc, names)?,
        };
        let mut list = EdgeList {
            form: Form::Listed(edges),
        };
        list.shorten();
        Ok(list)
    }

    /// Takes the shorter form where there is an edge to each of the shared names and to no other.
    /// Where memory is refused, the longer one stays.
    pub fn shorten(&mut self)
        ensures { self.new ≡ self.old }
    {
        let Form::Listed(edges) = &self.form else {
            return;
        };
        if let Some(edges) = EdgesToAll::of(edges) {
            self.form = Form::ToAll(edges);
        }
    }

    /// Puts an edge in at a place.
    pub fn insert(
        &mut self,
        place: usize,
        edge: (Name, Rights),
        hint: Hint,
    ) -> Result<(), AllocError>
        requires { place ≤ length self.old }
        ensures put { OnOk result (self.new ≡ insert self.old place edge) }
        ensures err { OnErr result (self.new ≡ self.old) }
    {
        match &mut self.form {
            Form::Listed(edges) => edges.insert(place, edge, hint),
            Form::ToAll(edges) => {
                let mut listed = edges.expanded()?;
                listed.put(place, edge, hint)?;
                self.form = Form::Listed(listed);
                Ok(())
            }
        }
    }

    /// Puts an edge behind the others where it is found at once that it may stand there: the number is
    /// that of its target, or the target is the next of all. It says whether it was put there.
    #[inline(always)]
    pub fn push(&mut self, target: Name, label: Rights, number: usize) -> Result<bool, AllocError>
        ensures pushed { IfOk result
            (λ pushed. self.new ≡ (if pushed then self.old ++ (target, label) ∷ [] else self.old)) }
        ensures err { OnErr result (self.new ≡ self.old) }
    {
        match &mut self.form {
            Form::Listed(edges) => edges.push(target, label, number),
            Form::ToAll(edges) => edges.push(target, label),
        }
    }

    /// Takes the edge at a place away. It fails where memory is refused, as the longer form may be
    /// needed.
    pub fn remove(&mut self, place: usize) -> Result<(), AllocError>
        requires { place < length self.old }
        ensures removed { OnOk result (self.new ≡ remove self.old place) }
        ensures err { OnErr result (self.new ≡ self.old) }
    {
        match &mut self.form {
            Form::Listed(edges) => edges.remove(place),
            Form::ToAll(edges) => {
                let mut listed = edges.expanded()?;
                listed.remove(place);
                self.form = Form::Listed(listed);
            }
        }
        Ok(())
    }
}
