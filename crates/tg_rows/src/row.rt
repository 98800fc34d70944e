//! The edges out of one vertex.
ghost use Rattle.std.specs.Prelude.{◌≡◌, true, Some, None, ◌+◌, ◌<◌, ◌≤◌, [], IfOk, IfErr, IfSome, OnOk, OnErr, bytes_eq, length, slice_get, MatchBool};
ghost use Rattle.std.specs.Map.{lookup};
ghost use Rattle.tg_names.specs.Sets.{IsNamed};
ghost use Rattle.tg_rows.specs.Rows.{label_in, IsLabel, IsRow, Puts, Adds, TakesAway, IsPlaceOf, IsGapFor, AreBelow, AreAbove};
ghost use Rattle.tg_rows.specs.Halves.{LastIsNotAbove};

use crate::edge_list::EdgeList;
use crate::open_row::OpenRow;
use crate::shared_names::{Hint, SharedNames};
use bitflags::Flags;
use std::alloc::{AllocError, Global};
use std::cmp::Ordering;
use std::marker::Model;
use tg_names::{Name, Rights};

// A search goes on by halves down to so few edges. The rest are counted, which is faster, as the
// processor has no branch to guess.
const FEW_EDGES: usize = 8;

/// The edges out of one vertex, in name order of their targets.
#[derive(Drop)]
pub struct Row {
    edges: EdgeList,
    // The place behind the edge that was put in last, and whether that one went behind the one put
    // in before it, as the next then mostly does. They decide no answer.
    next: usize,
    in_turn: bool,
}

impl Model for Row {
    ghost use Rattle.std.specs.Prelude.{List, ℕ};
    ghost use Rattle.tg_names.specs.declared.right_sets.Rights.{Rights};

    ghost Value = { List (List ℕ × Rights) };

    ghost use Rattle.tg_rows.specs.Rows.{IsRow};

    ghost view = { λ r. r.edges };

    ghost invariant = { λ r. IsRow r.edges };
}

impl Clone for Row {
    ghost use Rattle.std.specs.Prelude.{◌≡◌};

    ghost is_clone = { λ row copy. copy ≡ row };

    fn clone(&self) -> Result<Row, AllocError> {
        Ok(Row {
            edges: self.edges.clone()?,
            next: self.next,
            in_turn: self.in_turn,
        })
    }
}

impl Row {
    /// No edges.
    pub fn new(alloc: Global) -> Row
        ensures { result ≡ [] }
    {
        Row {
            edges: EdgeList::new(alloc, None),
            next: 0,
            in_turn: true,
        }
    }

    /// No edges so far, where there is to be one to each of the shared names, in name order. It takes
    /// less memory than a row of any others.
    pub fn to_all(alloc: Global, names: &SharedNames) -> Result<Row, AllocError>
        ensures { IfOk result (λ row. row ≡ []) }
    {
        Ok(Row {
            edges: EdgeList::to_all(alloc, names)?,
            next: 0,
            in_turn: true,
        })
    }

    /// The same edges, which share these names with others.
    pub fn moved_to(&self, alloc: Global, names: Option<&SharedNames>) -> Result<Row, AllocError>
        ensures { IfOk result (λ row. row ≡ self.now) }
    {
        Ok(Row {
            edges: self.edges.moved_to(alloc, names)?,
            next: self.next,
            in_turn: self.in_turn,
        })
    }

    /// How many edges there are.
    pub fn len(&self) -> usize
        ensures value { result ≡ length self.now }
        ensures row { IsRow self.now }
    {
        self.edges.len()
    }

    /// The edge at a position.
    pub fn at(&self, position: usize) -> Option<(Name, Rights)>
        ensures value { result ≡ slice_get self.now position }
        ensures row { IsRow self.now }
    {
        self.edges.at(position)
    }

    /// The edges to be read one by one, where all names are shared and each edge has its number.
    pub fn open(&self) -> Option<OpenRow<'_>>
        ensures { IfSome result (λ row. row ≡ self.now) }
    {
        self.edges.open()
    }

    /// The position that the target of the edge at a place mostly has. It decides no answer.
    pub fn likely_end(&self, place: usize) -> Option<usize> {
        self.edges.likely_end(place)
    }

    // Whether the edge to y is at the place.
    fn is_at(&self, place: usize, y: Name) -> bool
        ensures { result ≡ true → IsPlaceOf self.now y place }
    {
        place < self.edges.len() && self.edges.target(place) == y
    }

    // Two places with few edges between them, found by halves: no target in front of the first is
    // above y, and each from the second on is.
    fn halve_up_to(&self, y: Name) -> (usize, usize)
        ensures order { result.0 ≤ result.1 }
        ensures few { result.1 ≤ result.0 + FEW_EDGES }
        ensures within { result.1 ≤ length self.now }
        ensures last { LastIsNotAbove self.now y result.0 }
        ensures above { AreAbove self.now y result.1 }
    {
        let mut low = 0;
        let mut high = self.edges.len();
        while high - low > FEW_EDGES {
            let middle = low + (high - low) / 2;
            if self.edges.target(middle).cmp(&y).is_gt() {
                high = middle;
            } else {
                low = middle + 1;
            }
        }
        (low, high)
    }

    // How many targets stand in front of the first that is above y. The few edges that halving leaves
    // are all looked at, so that no branch depends on their names.
    fn count_up_to(&self, y: Name) -> usize
        ensures within { result ≤ length self.now }
        ensures last { LastIsNotAbove self.now y result }
        ensures above { AreAbove self.now y result }
        ensures row { IsRow self.now }
    {
        let (low, high) = self.halve_up_to(y);
        let mut count = low;
        for place in low..high {
            count += usize::from(!self.edges.target(place).cmp(&y).is_gt());
        }
        count
    }

    // Where the edge to y is, or where it would go, found by halves.
    fn place_by_halves(&self, y: Name) -> Result<usize, usize>
        ensures found { IfOk result (IsPlaceOf self.now y) }
        ensures absent { IfErr result (IsGapFor self.now y) }
        ensures row { IsRow self.now }
    {
        let count = self.count_up_to(y);
        if count == 0 {
            return Err(0);
        }
        match self.edges.target(count - 1).cmp(&y) {
            Ordering::Less => Err(count),
            Ordering::Equal => Ok(count - 1),
            Ordering::Greater => unreachable!(),
        }
    }

    // Where the edge to y is, or where it would go, found by names. It is found at once where there are
    // edges to all the vertices whose names the rows share.
    #[inline(never)]
    fn place_by_names(&self, y: Name) -> Result<usize, usize>
        ensures found { IfOk result (IsPlaceOf self.now y) }
        ensures absent { IfErr result (IsGapFor self.now y) }
        ensures row { IsRow self.now }
    {
        match self.edges.likely_place(y) {
            Some(place) if self.is_at(place, y) => Ok(place),
            Some(place) if self.is_gap(place, y) => Err(place),
            _ => self.place_by_halves(y),
        }
    }

    // Where the edge to y is, or where it would go. Mostly the numbers of names tell it, and names are
    // looked at where they do not. That of y may be known; it decides no answer.
    #[inline(always)]
    fn place_near(&self, y: Name, likely: Option<usize>) -> Result<usize, usize>
        ensures found { IfOk result (IsPlaceOf self.now y) }
        ensures absent { IfErr result (IsGapFor self.now y) }
        ensures row { IsRow self.now }
    {
        match self.edges.place_by_number(y, likely) {
            Some(place) => place,
            None => self.place_by_names(y),
        }
    }

    // Whether each target in front of the place is below y.
    fn is_above(&self, place: usize, y: Name) -> bool
        requires { place ≤ length self.now }
        ensures { result ≡ true → AreBelow self.now y place }
    {
        if place == 0 {
            return true;
        }
        self.edges.target(place - 1).cmp(&y).is_lt()
    }

    // Whether each target from the place on is above y.
    fn is_below(&self, place: usize, y: Name) -> bool
        requires { place ≤ length self.now }
        ensures { result ≡ true → AreAbove self.now y place }
    {
        if place == self.edges.len() {
            return true;
        }
        self.edges.target(place).cmp(&y).is_gt()
    }

    // Whether the place is a gap for an edge to y.
    fn is_gap(&self, place: usize, y: Name) -> bool
        ensures gap { result ≡ true → IsGapFor self.now y place }
        ensures row { IsRow self.now }
    {
        if place > self.edges.len() {
            return false;
        }
        self.is_above(place, y) && self.is_below(place, y)
    }

    /// Where the edge to y is, or where it would go, found at once where edges are put in one behind the
    /// other. The name may have this number among those that rows share.
    pub fn place_of_next(&self, y: Name, likely: Option<usize>) -> Result<usize, usize>
        ensures found { IfOk result (IsPlaceOf self.now y) }
        ensures absent { IfErr result (IsGapFor self.now y) }
        ensures row { IsRow self.now }
    {
        if self.in_turn && self.is_gap(self.next, y) {
            Err(self.next)
        } else {
            self.place_near(y, likely)
        }
    }

    // The label of the edge to y, which is at the place.
    fn label_at(&self, place: usize, y: Name) -> Rights
        requires { IsPlaceOf self.now y place }
        ensures found { lookup (bytes_eq y) self.now ≡ Some result }
        ensures label { IsLabel result }
    {
        self.edges.label(place)
    }

    // The label of the edge to a vertex, found by its place.
    #[inline(never)]
    fn label_by_place(&self, y: Name, likely: Option<usize>) -> Rights
        ensures { result ≡ label_in self.now y }
    {
        match self.place_near(y, likely) {
            Ok(place) => self.label_at(place, y),
            Err(_place) => Rights::empty(),
        }
    }

    /// The label of the edge to a vertex, whose name may have this number among those that rows share. Of
    /// few edges it is found without a place.
    #[inline(always)]
    pub fn label_near(&self, y: Name, likely: Option<usize>) -> Rights
        ensures value { result ≡ label_in self.now y }
        ensures named { IsNamed result }
    {
        match self.edges.label_in_few(y, likely) {
            Some(label) => label,
            None => self.label_by_place(y, likely),
        }
    }

    /// The label of the edge to a vertex.
    pub fn label(&self, y: Name) -> Rights
        ensures value { result ≡ label_in self.now y }
        ensures named { IsNamed result }
    {
        self.label_near(y, self.edges.likely_number(y))
    }

    // Writes the label of the edge to y, which is at the place.
    fn write(&mut self, place: usize, y: Name, label: Rights)
        requires place { IsPlaceOf self.old y place }
        requires label { IsLabel label }
        ensures puts { Puts self.old self.new y (Some label) }
        ensures row { IsRow self.new }
    {
        self.edges.set_label(place, label);
    }

    /// Puts an edge to y in, for which the place is a gap.
    pub fn insert(
        &mut self,
        place: usize,
        y: Name,
        label: Rights,
        hint: Hint,
    ) -> Result<(), AllocError>
        requires place { IsGapFor self.old y place }
        requires label { IsLabel label }
        ensures puts { OnOk result (Puts self.old self.new y (Some label)) }
        ensures err { OnErr result (self.new ≡ self.old) }
        ensures row { IsRow self.new }
    {
        self.edges.insert(place, (y, label), hint)?;
        self.in_turn = place == self.next;
        self.next = place.saturating_add(1);
        Ok(())
    }

    /// Adds the edge to y behind the others where no target is above y, and the number is that of y or
    /// y is the next of all. It says whether it was added.
    #[inline(always)]
    pub fn push(&mut self, y: Name, label: Rights, number: usize) -> Result<bool, AllocError>
        requires { IsLabel label }
        ensures pushed { IfOk result
            (λ pushed. MatchBool pushed (Adds self.old self.new y label) (self.new ≡ self.old)) }
        ensures err { OnErr result (self.new ≡ self.old) }
        ensures row { IsRow self.new }
    {
        let end = self.edges.len();
        if !self.is_above(end, y) {
            return Ok(false);
        }
        let pushed = self.edges.push(y, label, number)?;
        Ok(pushed)
    }

    // Takes the edge to y away, which is at the place.
    fn cut(&mut self, place: usize, y: Name) -> Result<(), AllocError>
        requires { IsPlaceOf self.old y place }
        ensures puts { OnOk result (Puts self.old self.new y None) }
        ensures err { OnErr result (self.new ≡ self.old) }
        ensures row { IsRow self.new }
    {
        self.edges.remove(place)
    }

    /// Adds rights to the label of the edge to a vertex.
    pub fn add(&mut self, y: Name, rights: Rights, hint: Hint) -> Result<(), AllocError>
        requires { IsNamed rights }
        ensures adds { OnOk result (Adds self.old self.new y rights) }
        ensures err { OnErr result (self.new ≡ self.old) }
        ensures row { IsRow self.new }
    {
        // The edges are a row before and, where nothing is added, after.
        let _ = &self.edges;
        if rights.is_empty() {
            return Ok(());
        }
        match self.place_of_next(y, hint.number) {
            Ok(place) => {
                let label = Flags::union(self.label_at(place, y), rights);
                self.write(place, y, label);
                Ok(())
            }
            Err(place) => self.insert(place, y, rights, hint),
        }
    }

    /// Takes rights out of the label of the edge to a vertex, whose name may have this number among those
    /// that rows share.
    pub fn take(&mut self, y: Name, rights: Rights, likely: Option<usize>) -> Result<(), AllocError>
        requires { IsNamed rights }
        ensures taken { OnOk result (TakesAway self.old self.new y rights) }
        ensures err { OnErr result (self.new ≡ self.old) }
        ensures row { IsRow self.new }
    {
        let Ok(place) = self.place_near(y, likely) else {
            return Ok(());
        };
        let left = Flags::difference(self.label_at(place, y), rights);
        if left.is_empty() {
            self.cut(place, y)?;
        } else {
            self.write(place, y, left);
        }
        Ok(())
    }
}
