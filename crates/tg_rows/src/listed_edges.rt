//! The edges out of one vertex: four bytes for an edge whose target's name is shared.
ghost use Rattle.std.specs.Prelude.{◌≡◌, ◌<◌, ◌≤◌, ◌+◌, [], ◌∷◌, ◌++◌, if◌then◌else◌, true, Some, IfOk, IfErr, IfSome, OnOk, OnErr, MatchOption, is_ok, length, slice_get, slice_index_or, slice_set};
ghost use Rattle.std.specs.List.{insert, remove};
ghost use Rattle.tg_names.specs.declared.right_sets.Rights.{Rights};
ghost use Rattle.tg_rows.specs.EdgeLists.{names_of, edges_of, AreWithin, AreNumbered, HasNumber, HasLabel, NoneHas, IsAbove, IsNumberGap};
ghost use Rattle.std.specs.Ordering.{nat_cmp};
ghost use Rattle.std.specs.Cmp.Lexicographic.{slice_cmp};
ghost use Rattle.std.specs.List.Sorted.{IsStrictlySortedBy};
ghost use Rattle.std.specs.Map.{keys_of};
ghost use Rattle.tg_rows.specs.Rows.{IsPlaceOf, IsGapFor, label_in};
ghost use Rattle.tg_names.specs.Sets.{IsNamed};

use crate::open_row::OpenRow;
use crate::shared_names::{Hint, SharedNames};
use crate::targets::{Targets, shared_with};
use bitflags::Flags;
use std::alloc::{AllocError, Global};
use std::marker::Model;
use tg_names::{Name, Rights};

// The numbers of targets are below this one, so that a label has eight bits beside them.
const MOST_NUMBERS: usize = 16_777_216;

// So many edges are counted, and of more a half is left out first.
const FEW_EDGES: usize = 64;

// So few edges are gone through one by one.
const ONE_BY_ONE: usize = 8;

// How many names of their own a list's edges may leave behind before they are gathered anew.
const SPARE_NAMES: usize = 8;

/// The number of a target, with eight bits for the label behind it.
#[derive(Clone, Copy)]
pub struct Edge {
    bits: u32,
}

impl Edge {
    ghost use Rattle.tg_rows.specs.EdgeLists.{number_of, label_on};

    fn new(number: usize, label: Rights) -> Edge
        requires { number < MOST_NUMBERS }
        ensures number { number_of result ≡ number }
        ensures label { label_on result ≡ label }
    {
        Edge {
            bits: number as u32 * 256 + u32::from(label.bits()),
        }
    }

    fn with_label(self, label: Rights) -> Edge
        ensures number { number_of result ≡ number_of self }
        ensures label { label_on result ≡ label }
    {
        Edge {
            bits: self.bits / 256 * 256 + u32::from(label.bits()),
        }
    }

    /// The number of the target.
    #[inline(always)]
    pub fn number(self) -> usize
        ensures { result ≡ number_of self }
    {
        (self.bits / 256) as usize
    }

    /// The rights.
    #[inline(always)]
    pub fn label(self) -> Rights
        ensures { result ≡ label_on self }
    {
        Rights::from_bits_retain((self.bits % 256) as u8)
    }
}

// How many of the edges have bits that are, as a number, this or more. No branch depends on them, so
// that the processor has nothing to guess.
fn count_from(edges: &[Edge], bits: u32) -> u32 {
    let mut count: u32 = 0;
    for edge in edges {
        count = count.wrapping_add(u32::from(edge.bits >= bits));
    }
    count
}

// How many of the edges, which are mostly in the order of their numbers, have lesser numbers: halves of
// many are left out, and of the few that are left those are counted that have no lesser ones.
fn count_in_order(edges: &[Edge], number: u32) -> usize {
    // an edge with a lesser number has lesser bits
    let bits = number.wrapping_mul(256);
    let mut few = edges;
    let mut below: usize = 0;
    while few.len() > FEW_EDGES {
        let (front, back) = few.split_at(few.len() / 2);
        few = match back.first() {
            Some(edge) if edge.bits < bits => {
                below = below.wrapping_add(front.len());
                back
            }
            _ => front,
        };
    }
    let above = count_from(few, bits) as usize;
    below.wrapping_add(few.len()).wrapping_sub(above)
}

// Whether each edge in front of a place has a lesser number, where numbers rise.
fn is_above(edges: &[Edge], place: usize, number: usize) -> bool
    ensures { result ≡ true → IsAbove edges.now number place }
{
    if place == 0 {
        return true;
    }
    match edges.get(place - 1) {
        Some(edge) => edge.number() < number,
        None => false,
    }
}

// Where the edge with a number is, or would go, where numbers rise and the place is found at once.
fn place_of_number(edges: &[Edge], number: usize) -> Option<Result<usize, usize>>
    ensures found { IfSome result (λ place. IfOk place (HasNumber edges.now number)) }
    ensures absent { IfSome result (λ place. IfErr place (IsNumberGap edges.now number)) }
{
    let place = count_in_order(edges, u32::try_from(number).ok()?);
    match edges.get(place) {
        Some(edge) if edge.number() == number => return Some(Ok(place)),
        Some(edge) if edge.number() < number => return None,
        _ => {}
    }
    if is_above(edges, place, number) {
        Some(Err(place))
    } else {
        None
    }
}

// The label of the first edge with a number. The edges are gone through one by one.
fn label_with_number(edges: &[Edge], number: usize) -> Option<Rights>
    ensures { MatchOption result (NoneHas edges.now number) (HasLabel edges.now number) }
{
    for edge in edges {
        if edge.number() == number {
            return Some(edge.label());
        }
    }
    None
}

// Puts an edge in at a place. Those behind it are moved all at once.
fn insert_at(edges: &mut Vec<Edge>, place: usize, edge: Edge) -> Result<(), AllocError>
    requires { place ≤ length edges.old.items }
    ensures items { edges.new.items ≡ (if is_ok result then insert edges.old.items place edge else edges.old.items) }
{
    let end = edges.len();
    edges.push(edge)?;
    edges.copy_within(place..end, place + 1);
    edges[place] = edge;
    Ok(())
}

// Whether the targets of edges have the same numbers among other names.
fn are_numbered(edges: &[Edge], targets: &Targets, names: &SharedNames) -> bool
    ensures { result ≡ true → AreNumbered (names_of targets.now) names.now edges.now }
{
    for edge in edges {
        let Some(name) = names.at(edge.number()) else {
            return false;
        };
        if !targets.is_at(edge.number(), name) {
            return false;
        }
    }
    true
}

/// A list of edges, each with its target and label.
#[derive(Drop)]
pub struct ListedEdges {
    targets: Targets,
    edges: Vec<Edge>,
}

impl Model for ListedEdges {
    ghost use Rattle.std.specs.Prelude.{List, ℕ};
    ghost use Rattle.tg_names.specs.declared.right_sets.Rights.{Rights};
    ghost use Rattle.tg_rows.specs.EdgeLists.{names_of, edges_of, AreWithin};

    ghost Value = { List (List ℕ × Rights) };

    ghost view = { λ l. edges_of (names_of l.targets) l.edges.items };

    ghost invariant = { λ l. AreWithin (names_of l.targets) l.edges.items };
}

impl Clone for ListedEdges {
    ghost use Rattle.std.specs.Prelude.{◌≡◌};

    ghost is_clone = { λ list copy. copy ≡ list };

    fn clone(&self) -> Result<ListedEdges, AllocError> {
        Ok(ListedEdges {
            targets: self.targets.clone()?,
            edges: Vec::from_slice(*self.edges.allocator(), self.edges.as_slice())?,
        })
    }
}

impl ListedEdges {
    ghost use Rattle.std.specs.Prelude.{List, ℕ};

    /// No edges, among whose targets these names are.
    pub fn new(alloc: Global, names: Option<SharedNames>) -> ListedEdges
        ensures { result ≡ [] }
    {
        ListedEdges {
            targets: Targets::new(alloc, names),
            edges: Vec::new(alloc),
        }
    }

    /// No edges, among whose targets these names are, with room for so many.
    pub fn with_room(
        alloc: Global,
        names: Option<&SharedNames>,
        count: usize,
    ) -> Result<ListedEdges, AllocError>
        ensures { IfOk result (λ list. list ≡ []) }
    {
        let mut list = ListedEdges::new(alloc, shared_with(names)?);
        list.edges.reserve(count)?;
        Ok(list)
    }

    // Edges with the numbers of their targets.
    fn of_parts(targets: Targets, edges: Vec<Edge>) -> ListedEdges
        requires { AreWithin (names_of targets) edges.items }
        ensures { result ≡ edges_of (names_of targets) edges.items }
    {
        ListedEdges { targets, edges }
    }

    /// How many edges there are.
    pub fn len(&self) -> usize
        ensures { result ≡ length self.now }
    {
        self.edges.len()
    }

    /// The edge at a place.
    pub fn at(&self, place: usize) -> Option<(Name, Rights)>
        ensures { result ≡ slice_get self.now place }
    {
        let edge = self.edges.get(place).copied()?;
        let name = self.targets.at(edge.number())?;
        Some((name, edge.label()))
    }

    /// The edges to be read one by one, where all names are shared.
    pub fn open(&self) -> Option<OpenRow<'_>>
        ensures { IfSome result (λ row. row ≡ self.now) }
    {
        let names = self.targets.shared_alone()?;
        Some(OpenRow::new(self.edges.as_slice(), names.as_slice(), names.positions()))
    }

    /// The names that are shared.
    pub fn shared(&self) -> Option<&SharedNames> {
        self.targets.shared()
    }

    /// The memory that the list is in.
    pub fn allocator(&self) -> Global {
        *self.edges.allocator()
    }

    /// Where the edge to a vertex mostly is, or would go: behind the edges with lesser numbers, as names
    /// have their numbers in name order. It decides no answer.
    pub fn likely_place(&self, target: Name) -> Option<usize> {
        let number = self.targets.shared()?.likely_number(target)?;
        let number = u32::try_from(number).ok()?;
        Some(count_in_order(self.edges.as_slice(), number))
    }

    /// The number that a vertex's name mostly has, where numbers alone tell its edge. It decides no answer.
    pub fn likely_number(&self, target: Name) -> Option<usize> {
        self.targets.rising()?.likely_number(target)
    }

    /// Where the edge to a vertex is, or would go, where numbers alone tell it: no name but that of the
    /// vertex is looked at, which may have this number.
    #[inline(always)]
    pub fn place_by_number(
        &self,
        target: Name,
        likely: Option<usize>,
    ) -> Option<Result<usize, usize>>
        requires { IsStrictlySortedBy (slice_cmp nat_cmp) (keys_of self.now) }
        ensures found { IfSome result (λ place. IfOk place (IsPlaceOf self.now target)) }
        ensures absent { IfSome result (λ place. IfErr place (IsGapFor self.now target)) }
    {
        let number = self.targets.rising_number(target, likely)?;
        place_of_number(self.edges.as_slice(), number)
    }

    /// The label of the edge to a vertex, no rights where there is none, where there are few edges and the
    /// number is that of the vertex's name, so that numbers alone tell it.
    #[inline(always)]
    pub fn label_in_few(&self, target: Name, number: Option<usize>) -> Option<Rights>
        requires { IsStrictlySortedBy (slice_cmp nat_cmp) (keys_of self.now) }
        ensures { IfSome result (λ label. label ≡ label_in self.now target) }
    {
        if self.edges.len() > ONE_BY_ONE {
            return None;
        }
        let number = self.targets.rising_at(number, target)?;
        let label = label_with_number(self.edges.as_slice(), number);
        Some(label.unwrap_or(Rights::empty()))
    }

    /// The position that the target of the edge at a place mostly has. It decides no answer.
    pub fn likely_end(&self, place: usize) -> Option<usize> {
        let edge = self.edges.get(place).copied()?;
        self.targets.shared()?.position_at(edge.number())
    }

    /// The target of the edge at a place.
    pub fn target(&self, place: usize) -> Name
        requires { place < length self.now }
        ensures { (d : List ℕ × Rights) → result ≡ (slice_index_or self.now place d).0 }
    {
        let Some(name) = self.targets.at(self.edges[place].number()) else {
            unreachable!();
        };
        name
    }

    /// The label of the edge at a place.
    pub fn label(&self, place: usize) -> Rights
        requires { place < length self.now }
        ensures { (d : List ℕ × Rights) → result ≡ (slice_index_or self.now place d).1 }
    {
        self.edges[place].label()
    }

    /// Writes the label of the edge at a place.
    pub fn set_label(&mut self, place: usize, label: Rights)
        requires { place < length self.old }
        ensures { (d : List ℕ × Rights) → self.new ≡ slice_set self.old place ((slice_index_or self.old place d).0, label) }
    {
        self.edges[place] = self.edges[place].with_label(label);
    }

    /// Puts an edge in at a place, and lets go of no name.
    pub fn put(&mut self, place: usize, edge: (Name, Rights), hint: Hint) -> Result<(), AllocError>
        requires { place ≤ length self.old }
        ensures put { OnOk result (self.new ≡ insert self.old place edge) }
        ensures err { OnErr result (self.new ≡ self.old) }
    {
        let number = self.targets.number_for(edge.0, hint)?;
        if number >= MOST_NUMBERS {
            return Err(AllocError);
        }
        insert_at(&mut self.edges, place, Edge::new(number, edge.1))?;
        Ok(())
    }

    // The same edges, put in one by one.
    fn put_in_turn(
        &self,
        alloc: Global,
        names: Option<&SharedNames>,
    ) -> Result<ListedEdges, AllocError>
        ensures { IfOk result (λ list. list ≡ self.now) }
    {
        let mut list = ListedEdges::with_room(alloc, names, self.edges.len())?;
        for place in 0..self.edges.len() {
            let number = self.edges[place].number();
            if let Some(edge) = self.at(place) {
                let hint = Hint {
                    names,
                    number: Some(number),
                };
                list.put(place, edge, hint)?;
            }
        }
        Ok(list)
    }

    /// The same edges, whose targets have numbers among these names where they had them among
    /// others that are the same. Where all have the same numbers, as in most copies, the edges are
    /// copied at once.
    pub fn moved_to(
        &self,
        alloc: Global,
        names: Option<&SharedNames>,
    ) -> Result<ListedEdges, AllocError>
        ensures { IfOk result (λ list. list ≡ self.now) }
    {
        match names {
            Some(shared) if are_numbered(self.edges.as_slice(), &self.targets, shared) => {
                let targets = Targets::new(alloc, Some(shared.clone()?));
                let edges = Vec::from_slice(alloc, self.edges.as_slice())?;
                Ok(ListedEdges::of_parts(targets, edges))
            }
            _ => self.put_in_turn(alloc, names),
        }
    }

    // Gathers the edges anew where most of their own names are of edges that were taken away.
    fn tidy(&mut self) -> Result<(), AllocError>
        ensures { self.new ≡ self.old }
    {
        let used = self.edges.len().saturating_add(SPARE_NAMES);
        if self.targets.own_len() / 2 > used {
            let alloc = *self.edges.allocator();
            *self = self.moved_to(alloc, self.targets.shared())?;
        }
        Ok(())
    }

    /// Puts an edge in at a place.
    pub fn insert(
        &mut self,
        place: usize,
        edge: (Name, Rights),
        hint: Hint,
    ) -> Result<(), AllocError>
        requires { place ≤ length self.old }
        ensures put { OnOk result (self.new ≡ insert self.old place edge) }
        ensures err { OnErr result (self.new ≡ self.old) }
    {
        self.tidy()?;
        self.put(place, edge, hint)
    }

    /// Puts an edge behind the others where the number is that of its target, and says whether it
    /// was put there.
    #[inline(always)]
    pub fn push(&mut self, target: Name, label: Rights, number: usize) -> Result<bool, AllocError>
        ensures pushed { IfOk result
            (λ pushed. self.new ≡ (if pushed then self.old ++ (target, label) ∷ [] else self.old)) }
        ensures err { OnErr result (self.new ≡ self.old) }
    {
        if number >= MOST_NUMBERS || !self.targets.is_at(number, target) {
            return Ok(false);
        }
        self.edges.push(Edge::new(number, label))?;
        Ok(true)
    }

    /// Takes the edge at a place away.
    pub fn remove(&mut self, place: usize)
        requires { place < length self.old }
        ensures { self.new ≡ remove self.old place }
    {
        self.edges.remove(place);
    }
}
