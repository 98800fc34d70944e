//! The groups of a policy, and whom operands stand for: by the places of vertices in name order.
ghost use Rattle.std.specs.Prelude.{◌≡◌, ◌↔◌, ◌<◌, ◌≤◌, ◌||◌, ◌&&◌, ℕ, List, Some, false, IfOk, OnOk, IsTrue, bytes_eq, length, position, slice_get};
ghost use Rattle.std.specs.List.Sorted.{IsStrictlySortedBy};
ghost use Rattle.tg_names.specs.Names.{Name, same_name};
ghost use Rattle.tg_text.specs.Canonical.{name_cmp};
ghost use Rattle.tg_analysis.specs.Cases.{ArePlaces, StandsAt, is_marked};
ghost use Rattle.tg_policies.specs.Policies.{stands_for, some_stands_for};
ghost use Rattle.tg_policies.specs.PolicyParts.{AreMarked, AreRisingPlaces, IsNamed, is_marked_name, membership};

use std::alloc::{AllocError, Global};
use std::collections::BTreeMap;
use tg_graph::Name;
use tg_text::Operand;

/// Who is in which group.
#[derive(Drop)]
pub(crate) struct Groups {
    /// By the name of a group a mark for each place, whether the vertex there is a member.
    pub members: BTreeMap<Name, Vec<bool>>,
}

// The place of a name among names in name order, if it is one of them.
fn place_of(names: &[Name], name: Name) -> Option<usize>
    requires { IsStrictlySortedBy name_cmp names.now }
    ensures { result ≡ position (bytes_eq name) names.now }
{
    names.binary_search(&name).ok()
}

// Whether a place is marked.
fn is_marked(marks: &[bool], place: usize) -> bool
    ensures { result ≡ is_marked marks.now place }
{
    match marks.get(place) {
        Some(mark) => *mark,
        None => false,
    }
}

// The marked ones of so many places, in rising order.
fn marked_places(alloc: Global, marks: &[bool], count: usize) -> Result<Vec<usize>, AllocError>
    ensures { IfOk result (λ places. AreMarked marks.now count places.items) }
{
    let mut places = Vec::new(alloc);
    for place in 0..count {
        if is_marked(marks, place) {
            places.push(place)?;
        }
    }
    Ok(places)
}

// Marks what is marked in others.
fn mark_all(marks: &mut [bool], others: &[bool])
    ensures len { length marks.new ≡ length marks.old }
    ensures each { (place : ℕ) → place < length marks.old
        → is_marked marks.new place ≡ (is_marked marks.old place || is_marked others.now place) }
{
    for place in 0..marks.len() {
        if is_marked(others, place) {
            marks[place] = true;
        }
    }
}

impl Groups {
    /// No groups.
    pub(crate) fn none(alloc: Global) -> Groups
        ensures { (names : List Name) (n v : Name) → membership names result n v ≡ false }
    {
        Groups {
            members: BTreeMap::new(alloc),
        }
    }

    /// The places of those for whom an operand stands, in rising order. The names are in name order, and the
    /// operand's own is one of them.
    pub(crate) fn places_of(
        &self,
        alloc: Global,
        names: &[Name],
        operand: Operand,
    ) -> Result<Vec<usize>, AllocError>
        requires order { IsStrictlySortedBy name_cmp names.now }
        requires known { IsNamed names.now operand }
        ensures same { IfOk result (λ places. (v : Name)
            → ((i : ℕ) × StandsAt names.now places.items i v)
            ↔ IsTrue (stands_for (membership names.now self.now) v operand)) }
        ensures rising { IfOk result (λ places. AreRisingPlaces places.items) }
        ensures within { IfOk result (λ places. ArePlaces (length names.now) places.items) }
    {
        match operand {
            Operand::Vertex(name) => match place_of(names, name) {
                Some(place) => Ok(Vec::from_slice(alloc, &[place])?),
                None => Ok(Vec::new(alloc)),
            },
            Operand::Group(name) => match self.members.get(&name) {
                Some(marks) => {
                    let places = marked_places(alloc, marks, names.len())?;
                    Ok(places)
                }
                None => Ok(Vec::new(alloc)),
            },
        }
    }

    // Marks those for whom an operand stands.
    fn mark(&self, names: &[Name], marks: &mut [bool], operand: Operand)
        requires order { IsStrictlySortedBy name_cmp names.now }
        requires known { IsNamed names.now operand }
        requires len { length marks.old ≡ length names.now }
        ensures len { length marks.new ≡ length names.now }
        ensures each { (v : Name) → is_marked_name names.now marks.new v
            ≡ (is_marked_name names.now marks.old v
            || stands_for (membership names.now self.now) v operand) }
    {
        match operand {
            Operand::Vertex(name) => {
                if let Some(place) = place_of(names, name) {
                    marks[place] = true;
                }
            }
            Operand::Group(name) => {
                if let Some(others) = self.members.get(&name) {
                    mark_all(marks, others);
                }
            }
        }
    }

    /// A mark for each of the names, whether some of the operands stands for it. The names are in name order, and
    /// the operands' own are among them.
    pub(crate) fn marks_of(
        &self,
        alloc: Global,
        names: &[Name],
        operands: &[Operand],
    ) -> Result<Vec<bool>, AllocError>
        requires order { IsStrictlySortedBy name_cmp names.now }
        requires known { (i : ℕ) (one : Operand) → slice_get operands.now i ≡ Some one
            → IsNamed names.now one }
        ensures len { IfOk result (λ marks. length marks.items ≡ length names.now) }
        ensures each { IfOk result (λ marks. (v : Name) → is_marked_name names.now marks.items v
            ≡ some_stands_for (membership names.now self.now) operands.now v) }
    {
        let mut marks = vec![in alloc; false; names.len()]?;
        for operand in operands {
            self.mark(names, &mut marks, *operand);
        }
        Ok(marks)
    }

    /// Adds those who are marked to the group, which need not be there yet. After an error the group may have
    /// lost members.
    pub(crate) fn join(
        &mut self,
        alloc: Global,
        group: Name,
        marks: Vec<bool>,
    ) -> Result<(), AllocError>
        ensures { OnOk result ((names : List Name) → length names ≤ length marks.items → (n v : Name)
            → membership names self.new n v ≡ (membership names self.old n v
            || (same_name n group && is_marked_name names marks.items v))) }
    {
        let others = match self.members.remove(&group) {
            Some(others) => others,
            None => Vec::new(alloc),
        };
        let mut members = marks;
        mark_all(&mut members, &others);
        self.members.insert(group, members)?;
        Ok(())
    }
}
