//! What islands hold over one vertex: an entry for each island, and what of it comes soonest.
ghost use Rattle.std.specs.Prelude.{◌≡◌, ◌↔◌, ◌<◌, ◌+◌, ℕ, Some, IfOk, OnOk, IsTrue, length, slice_get};
ghost use Rattle.tg_names.specs.declared.right_sets.Right.{Right};
ghost use Rattle.tg_names.specs.Sets.{member};
ghost use Rattle.tg_index.specs.HeldInto.{IsSaid};
ghost use Rattle.tg_analysis.specs.Cases.{AreHeads, AreRising, IsClaim, IsClaimOf, IsClaimWithout, IsFirstWithout, IsLackOf, IsSoonest, JoinsUpTo, rights_under};

use crate::cases::{Claimed, first_in_both, sooner};
use crate::heads::Heads;
use crate::members::place_at;
use bitflags::Flags;
use std::alloc::{AllocError, Global};
use std::collections::BTreeMap;
use std::marker::Model;
use tg_graph::{Right, Rights};
use tg_index::Held;
use tg_sharing::named;

// The first right of the set that an entry says, with the place that stands for its island.
fn claim_of(entry: Held, places: &[Option<usize>], rights: Rights) -> Option<Claimed>
    ensures { IsSoonest (IsClaimOf entry places.now rights) result }
{
    let right = first_in_both(entry.label, rights)?;
    let place = place_at(places, entry.number)?;
    Some(Claimed { right, place })
}

/// The soonest right of the set that an entry says, with the place that stands for its island.
pub(crate) fn soonest(entries: &[Held], places: &[Option<usize>], rights: Rights) -> Option<Claimed>
    ensures { IsSoonest (IsClaim entries.now places.now rights (length entries.now)) result }
{
    let mut best = None;
    for index in 0..entries.len() {
        best = sooner(best, claim_of(entries[index], places, rights));
    }
    best
}

// The rights under a number.
fn rights_under(held: &BTreeMap<usize, Rights>, number: usize) -> Rights
    ensures { result ≡ rights_under held.now number }
{
    match held.get(&number) {
        Some(rights) => *rights,
        None => Rights::empty(),
    }
}

// Adds what the entry at a place says to the rights under its number.
fn add_entry(
    held: &mut BTreeMap<usize, Rights>,
    entries: &[Held],
    index: usize,
) -> Result<(), AllocError>
    requires within { index < length entries.now }
    requires so_far { JoinsUpTo entries.now index held.old }
    ensures { OnOk result (JoinsUpTo entries.now (index + 1) held.new) }
{
    let entry = entries[index];
    let rights = rights_under(held, entry.number).union(named(entry.label));
    held.insert(entry.number, rights)?;
    Ok(())
}

// The rights that entries say, by the numbers of their islands.
fn joined(alloc: Global, entries: &[Held]) -> Result<BTreeMap<usize, Rights>, AllocError>
    ensures { IfOk result (λ held. JoinsUpTo entries.now (length entries.now) held) }
{
    let mut held = BTreeMap::new(alloc);
    for index in 0..entries.len() {
        add_entry(&mut held, entries, index)?;
    }
    Ok(held)
}

/// What islands hold over one vertex, an entry for each island, in rising order of their numbers.
///
/// A contract sees it as the list of the entries.
#[derive(Drop)]
pub(crate) struct HeldOver {
    held: Vec<Held>,
}

impl Model for HeldOver {
    ghost use Rattle.std.specs.Prelude.{List};
    ghost use Rattle.tg_index.specs.declared.by_target.Held as one;

    ghost Value = { List one.Held };

    ghost view = { λ h. h.held.items };
}

impl HeldOver {
    /// What entries say, of which many may be of one island.
    pub(crate) fn of(alloc: Global, entries: &[Held]) -> Result<HeldOver, AllocError>
        ensures said { IfOk result (λ held. (right : Right) (number : ℕ)
            → IsSaid held right number ↔ IsSaid entries.now right number) }
        ensures rising { IfOk result AreRising }
    {
        let sums = joined(alloc, entries)?;
        let mut held = Vec::with_capacity(alloc, sums.len())?;
        for (number, label) in &sums {
            held.push(Held {
                number: *number,
                label: *label,
            })?;
        }
        Ok(HeldOver { held })
    }

    /// The entries.
    pub(crate) fn as_slice(&self) -> &[Held]
        ensures { result.now ≡ self.now }
    {
        self.held.as_slice()
    }
}

// The rights that the entry of an island says.
fn label_of(entries: &[Held], number: usize) -> Rights
    requires { AreRising entries.now }
    ensures { (right : Right) → IsTrue (member result right) ↔ IsSaid entries.now right number }
{
    match entries.binary_search_by_key(&number, |entry| entry.number) {
        Ok(place) => entries[place].label,
        Err(_) => Rights::empty(),
    }
}

// The first of the places at which stands the number of an island that lacks the right.
fn place_without(
    entries: &[Held],
    numbers: &[usize],
    places: &[usize],
    right: Right,
) -> Option<usize>
    requires rising { AreRising entries.now }
    requires within { (t place : ℕ) → slice_get places.now t ≡ Some place
        → place < length numbers.now }
    ensures { IsFirstWithout entries.now numbers.now places.now right result }
{
    for index in 0..places.len() {
        let place = places[index];
        if !label_of(entries, numbers[place]).has(right) {
            return Some(place);
        }
    }
    None
}

// The same, if the right is one of the set.
fn claim_without(
    entries: &[Held],
    numbers: &[usize],
    places: &[usize],
    rights: Rights,
    right: Right,
) -> Option<Claimed>
    requires rising { AreRising entries.now }
    requires within { (t place : ℕ) → slice_get places.now t ≡ Some place
        → place < length numbers.now }
    ensures { IsClaimWithout entries.now numbers.now places.now rights right result }
{
    if !rights.has(right) {
        return None;
    }
    let place = place_without(entries, numbers, places, right)?;
    Some(Claimed { right, place })
}

/// The soonest right of the set that an island lacks, with the first place at which its number stands.
pub(crate) fn soonest_without(
    entries: &[Held],
    numbers: &[usize],
    heads: &Heads,
    rights: Rights,
) -> Option<Claimed>
    requires rising { AreRising entries.now }
    requires heads { AreHeads numbers.now (length numbers.now)
        heads.now.places.items heads.now.order.items }
    ensures { IsSoonest (IsLackOf entries.now numbers.now rights) result }
{
    for right in &Right::ALL {
        let claim = claim_without(entries, numbers, heads.order.as_slice(), rights, *right);
        if claim.is_some() {
            return claim;
        }
    }
    None
}
