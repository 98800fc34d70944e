//! Names by number, which many rows share.
ghost use Rattle.std.specs.Prelude.{◌≡◌, true, Some, IfSome, length, slice_get};
ghost use Rattle.std.specs.Ordering.{nat_cmp};
ghost use Rattle.std.specs.Cmp.Lexicographic.{slice_cmp};
ghost use Rattle.std.specs.List.Sorted.{IsStrictlySortedBy};
ghost use Rattle.std.specs.Arc.{arc_value};

use std::alloc::{AllocError, Global};
use std::marker::Model;
use std::sync::Arc;
use tg_names::Name;

// How many slots there are for each name, and how many lie together, where it may stand: sixteen bytes, which
// mostly come from memory at once.
const SLOTS_A_NAME: usize = 4;

const SLOTS_TOGETHER: usize = 4;

// A position takes the low bits of a slot, and a mark of the name the eight bits above them. Of a position
// that needs more the low bits stand there, which are another name's, so that each name from position 2^24 on
// is found by the order of the names alone, after the slots were looked at in vain.
const POSITION_BITS: u32 = 24;

// The bits of a position.
const POSITION_MASK: u32 = (1 << POSITION_BITS) - 1;

// The factors by which the halves of a name spread, found by trial: with them, names that differ in digits or
// in letters, wherever these stand, fall on slots about as evenly as random names or more so.
const FRONT_FACTOR: u64 = 0x5ead_b7ef_709d_1695;

const BACK_FACTOR: u64 = 0x84c4_f471_416e_79f7;

// Where the vertex of a name may stand, in four bytes: a look-up waits for the memory that the slots are in,
// and the more of them are near, the less it waits.
#[derive(Clone, Copy)]
struct Slot {
    // A mark of the name, by which it is known here, and its position; 0 where no name stands.
    bits: u32,
}

impl Slot {
    // No name stands there.
    fn empty() -> Slot {
        Slot { bits: 0 }
    }

    // The mark of a name that spreads to this, one of 1 to 255. It is taken from the low half, as slots are
    // told by the high one alone: so names at one slot differ in it as others do, however many there are.
    fn mark(spread: u64) -> u32 {
        let low = spread & 0xffff_ffff;
        (low.wrapping_mul(255) >> 32) as u32 + 1
    }

    fn new(spread: u64, position: u32) -> Slot {
        Slot {
            bits: Slot::mark(spread) << POSITION_BITS | (position & POSITION_MASK),
        }
    }

    // Whether a name that spreads to this may stand there.
    fn may_have(self, spread: u64) -> bool {
        self.bits >> POSITION_BITS == Slot::mark(spread)
    }

    fn position(self) -> usize {
        (self.bits & POSITION_MASK) as usize
    }
}

// Names by number, and what finds the number of a name.
#[derive(Drop)]
struct NameTable {
    // The names in name order, by which they have their numbers.
    names: Arc<Vec<Name>>,
    // The positions of their vertices, in the same order.
    positions: Vec<u32>,
    // The numbers of the names by position.
    numbers: Vec<u32>,
    // Whether each name was found to be above the one before it, so that names rise with their numbers.
    rise: bool,
    // A name whose slot has another's stands at one beside it. Where all of these have others', the name is
    // looked for in the order, so that no choice of names makes a look-up dear.
    slots: Vec<Slot>,
}

/// Names by number, in name order. Clones share them, and they never change.
#[derive(Drop)]
pub struct SharedNames {
    table: Arc<NameTable>,
}

impl Model for SharedNames {
    ghost use Rattle.std.specs.Prelude.{List, ℕ};
    ghost use Rattle.std.specs.Arc.{arc_value};

    ghost Value = { List (List ℕ) };

    ghost use Rattle.std.specs.Prelude.{◌≡◌, true};
    ghost use Rattle.std.specs.Ordering.{nat_cmp};
    ghost use Rattle.std.specs.Cmp.Lexicographic.{slice_cmp};
    ghost use Rattle.std.specs.List.Sorted.{IsStrictlySortedBy};

    ghost view = { λ s. (arc_value (arc_value s.table).names).items };

    ghost invariant = { λ s. (arc_value s.table).rise ≡ true
        → IsStrictlySortedBy (slice_cmp nat_cmp) (arc_value (arc_value s.table).names).items };
}

impl Clone for SharedNames {
    ghost use Rattle.std.specs.Prelude.{◌≡◌};

    ghost is_clone = { λ names copy. copy ≡ names };

    fn clone(&self) -> Result<SharedNames, AllocError> {
        Ok(SharedNames {
            table: Arc::try_clone(&self.table)?,
        })
    }
}

// Whether each name is above the one before it.
fn rise(names: &[Name]) -> bool
    ensures { result ≡ true → IsStrictlySortedBy (slice_cmp nat_cmp) names.now }
{
    for place in 1..names.len() {
        if !names[place - 1].cmp(&names[place]).is_lt() {
            return false;
        }
    }
    true
}

// Names with their positions, in name order.
fn in_order(alloc: Global, names: &[Name]) -> Result<Vec<(Name, u32)>, AllocError> {
    let mut in_order = Vec::with_capacity(alloc, names.len())?;
    for (position, name) in names.iter().enumerate() {
        in_order.push((*name, u32::try_from(position).unwrap_or(0)))?;
    }
    in_order.sort_unstable_by_key(|&(name, _)| name);
    Ok(in_order)
}

// Names alone, and their positions alone.
fn apart(alloc: Global, in_order: &[(Name, u32)]) -> Result<(Vec<Name>, Vec<u32>), AllocError> {
    let mut names = Vec::with_capacity(alloc, in_order.len())?;
    let mut positions = Vec::with_capacity(alloc, in_order.len())?;
    for (name, position) in in_order {
        names.push(*name)?;
        positions.push(*position)?;
    }
    Ok((names, positions))
}

// The numbers by position of names that have these positions in name order.
fn numbers_by_position(alloc: Global, positions: &[u32]) -> Result<Vec<u32>, AllocError> {
    let mut numbers = Vec::from_elem(alloc, 0, positions.len())?;
    for (number, position) in positions.iter().enumerate() {
        if let Some(place) = numbers.get_mut(*position as usize) {
            *place = u32::try_from(number).unwrap_or(0);
        }
    }
    Ok(numbers)
}

// The product of two numbers, its high half laid on the low one, so that each bit hangs on all of both.
#[inline(always)]
fn folded(half: u64, factor: u64) -> u64 {
    let product = u128::from(half).wrapping_mul(u128::from(factor));
    (product >> 64) as u64 ^ ((product << 64) >> 64) as u64
}

// A number in which names mostly differ. Each of its 64 bits hangs on every byte of the name.
fn spread_of(name: Name) -> u64 {
    let number = name.number();
    let front = folded((number >> 64) as u64, FRONT_FACTOR);
    let back = folded(((number << 64) >> 64) as u64, BACK_FACTOR);
    front.wrapping_add(back)
}

// The slot among so many of a name that spreads to this, if there are any. The high half tells it.
fn slot_of(spread: u64, slots: usize) -> usize {
    ((spread >> 32).wrapping_mul(slots as u64) >> 32) as usize
}

// Where a name that spreads to this is to stand: at its slot, or else at the first of those beside it where
// none stands.
fn slot_for(slots: &[Slot], spread: u64) -> usize {
    let first = slot_of(spread, slots.len());
    for beside in 0..SLOTS_TOGETHER {
        match slots.get(first ^ beside) {
            Some(slot) if slot.bits != 0 => {}
            _ => return first ^ beside,
        }
    }
    first
}

// At the slot of each name, or at one beside it, where the name stands. Where all are taken, the name takes
// the place of another.
fn slots_of(alloc: Global, in_order: &[(Name, u32)]) -> Result<Vec<Slot>, AllocError> {
    let count = in_order.len().saturating_mul(SLOTS_A_NAME);
    let mut slots = Vec::from_elem(alloc, Slot::empty(), count)?;
    for (name, position) in in_order {
        let spread = spread_of(*name);
        let place = slot_for(slots.as_slice(), spread);
        if let Some(slot) = slots.get_mut(place) {
            *slot = Slot::new(spread, *position);
        }
    }
    Ok(slots)
}

impl SharedNames {
    /// The names of vertices that come by position. Which names there are, and where, decides no
    /// answer.
    pub fn new(alloc: Global, names: &[Name]) -> Result<SharedNames, AllocError> {
        let in_order = in_order(alloc, names)?;
        let (names, positions) = apart(alloc, &in_order)?;
        let rise = rise(&names);
        let table = NameTable {
            rise,
            names: Arc::new(alloc, names)?,
            numbers: numbers_by_position(alloc, &positions)?,
            positions,
            slots: slots_of(alloc, &in_order)?,
        };
        Ok(SharedNames {
            table: Arc::new(alloc, table)?,
        })
    }

    /// How many have the names, this one counted. It decides no answer.
    pub fn owners(&self) -> usize {
        Arc::strong_count(&self.table)
    }

    /// How many names there are.
    pub fn len(&self) -> usize
        ensures { result ≡ length self.now }
    {
        self.table.names.len()
    }

    /// Whether names are known to rise with their numbers, which they do where no name stands twice.
    pub fn rise(&self) -> bool
        ensures { result ≡ true → IsStrictlySortedBy (slice_cmp nat_cmp) self.now }
    {
        self.table.rise
    }

    /// The names by number, in name order.
    pub fn names(&self) -> &Arc<Vec<Name>>
        ensures { (arc_value result.now).items ≡ self.now }
    {
        &self.table.names
    }

    /// The same, one behind the other.
    pub fn as_slice(&self) -> &[Name]
        ensures { result.now ≡ self.now }
    {
        self.table.names.as_slice()
    }

    /// The positions of the vertices with these names, in name order. They decide no answer.
    pub fn positions(&self) -> &[u32] {
        self.table.positions.as_slice()
    }

    /// The position that the vertex with the name of a number mostly has. It decides no answer.
    pub fn position_at(&self, number: usize) -> Option<usize> {
        Some(*self.table.positions.get(number)? as usize)
    }

    /// The number that the name of the vertex at a position mostly has. It decides no answer.
    pub fn number_at(&self, position: usize) -> Option<usize> {
        Some(*self.table.numbers.get(position)? as usize)
    }

    // What stands for a name at its slot, or at one beside it.
    fn slot(&self, name: Name) -> Option<Slot> {
        let slots = &self.table.slots;
        let spread = spread_of(name);
        let first = slot_of(spread, slots.len());
        for beside in 0..SLOTS_TOGETHER {
            let slot = *slots.get(first ^ beside)?;
            if slot.may_have(spread) {
                return Some(slot);
            }
        }
        None
    }

    /// The number that a name mostly has. It decides no answer.
    pub fn likely_number(&self, name: Name) -> Option<usize> {
        self.number_at(self.likely_position(name)?)
    }

    /// The position that the vertex with a name mostly has. It decides no answer.
    pub fn likely_position(&self, name: Name) -> Option<usize> {
        Some(self.slot(name)?.position())
    }

    /// The position of the vertex with a name, found by the order of the names. It decides no answer.
    pub fn position_in_order(&self, name: Name) -> Option<usize> {
        let number = self.number_in_order(name)?;
        Some(*self.table.positions.get(number)? as usize)
    }

    /// The name with a number.
    pub fn at(&self, number: usize) -> Option<Name>
        ensures { result ≡ slice_get self.now number }
    {
        self.table.names.get(number).copied()
    }
}

impl SharedNames {
    // The number of a name by the order of the names.
    fn number_in_order(&self, name: Name) -> Option<usize> {
        self.table.names.binary_search(&name).ok()
    }

    /// The number, if it is that of the name.
    #[inline(always)]
    pub fn confirmed(&self, number: Option<usize>, name: Name) -> Option<usize>
        ensures { IfSome result (λ number. slice_get self.now number ≡ Some name) }
    {
        let number = number?;
        if self.at(number)? == name {
            Some(number)
        } else {
            None
        }
    }

    /// The likely number of a name, if it is the name's.
    #[inline(always)]
    pub fn found_at_once(&self, name: Name) -> Option<usize>
        ensures { IfSome result (λ number. slice_get self.now number ≡ Some name) }
    {
        self.confirmed(self.likely_number(name), name)
    }

    /// The number of a name, if it is this one or else the likely one.
    #[inline(always)]
    pub fn found_near(&self, name: Name, number: Option<usize>) -> Option<usize>
        ensures { IfSome result (λ number. slice_get self.now number ≡ Some name) }
    {
        match self.confirmed(number, name) {
            Some(number) => Some(number),
            None => self.found_at_once(name),
        }
    }

    /// The number of a name, where it is found among these names.
    pub fn find(&self, name: Name) -> Option<usize>
        ensures { IfSome result (λ number. slice_get self.now number ≡ Some name) }
    {
        match self.found_at_once(name) {
            Some(number) => Some(number),
            None => self.confirmed(self.number_in_order(name), name),
        }
    }
}

/// Where a name may stand among shared names. It decides no answer.
#[derive(Clone, Copy)]
pub struct Hint<'a> {
    /// The names, if there are such.
    pub names: Option<&'a SharedNames>,
    /// The number that the name may have. Without one it is looked for where it is wanted.
    pub number: Option<usize>,
}
