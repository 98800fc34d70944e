//! The vertices with their rows, in order.
ghost use Rattle.std.specs.Prelude.{◌≡◌, ◌+◌, ◌<◌, ◌≤◌, ◌∷◌, ◌++◌, [], false, true, IfOk, OnOk, bytes_eq, length, map, slice_get, Some};
ghost use Rattle.indexmap.specs.IndexMap.{spare, insert_entry, insert_all};
ghost use Rattle.indexmap.specs.Layout.{set_value_at};
ghost use Rattle.std.specs.List.{IsDistinct};
ghost use Rattle.std.specs.Map.{keys_of};
ghost use Rattle.tg_rows.specs.Rows.{is_known};
ghost use Rattle.tg_graph.specs.Drafts.{entries_at};
ghost use Rattle.tg_graph.specs.TakenRows.{entry_of};

use indexmap::IndexMap;
use std::alloc::{AllocError, Global};
use tg_names::Name;
use tg_rows::{SharedNames, SharedRow};

/// Puts a row in: in the place of the one that its vertex has, or as the last. A new vertex needs
/// room.
pub fn put(rows: &mut IndexMap<Name, SharedRow>, n: Name, row: SharedRow)
    requires room { is_known rows.old.entries n ≡ false → 0 < spare rows.old }
    ensures put { rows.new.entries ≡ insert_entry bytes_eq rows.old.entries n row }
    ensures room { length rows.old.entries + spare rows.old ≤ length rows.new.entries + spare
        rows.new }
{
    match rows.get_mut(&n) {
        Some(place) => *place = row,
        None => {
            // There is room, so it is not refused.
            let _ = rows.insert(n, row);
        }
    }
}

/// The same rows, each with one more owner.
pub fn shared(rows: &IndexMap<Name, SharedRow>) -> Result<IndexMap<Name, SharedRow>, AllocError>
    ensures { IfOk result (λ copy. copy.entries ≡ rows.now.entries) }
{
    let copy = rows.clone()?;
    Ok(copy)
}

/// The names of the vertices, in their order.
pub fn names_of(
    alloc: Global,
    rows: &IndexMap<Name, SharedRow>,
) -> Result<SharedNames, AllocError> {
    let mut names = Vec::with_capacity(alloc, rows.len())?;
    for (n, _) in rows {
        names.push(*n)?;
    }
    SharedNames::new(alloc, &names)
}

/// The same rows, each copied, and with these names shared among them.
pub fn unshared(
    alloc: Global,
    rows: &IndexMap<Name, SharedRow>,
    names: Option<&SharedNames>,
) -> Result<IndexMap<Name, SharedRow>, AllocError>
    ensures { IfOk result (λ copy. copy.entries ≡ rows.now.entries) }
{
    let mut copy = IndexMap::new(alloc);
    copy.reserve(rows.len())?;
    for (n, row) in rows {
        copy.insert(*n, row.moved_to(alloc, names)?)?;
    }
    Ok(copy)
}

/// A row that is taken over from another map, and the place that its vertex has there.
#[derive(Drop)]
pub struct TakenRow {
    place: usize,
    name: Name,
    row: SharedRow,
}

// Takes the row at a place over, with one more owner.
fn take_at(
    taken: &mut Vec<TakenRow>,
    rows: &IndexMap<Name, SharedRow>,
    place: usize,
) -> Result<(), AllocError>
    ensures { OnOk result
        (map entry_of taken.new.items ≡ map entry_of taken.old.items
        ++ entries_at rows.now.entries (place ∷ [])) }
{
    if let Some((name, row)) = rows.get_index(place) {
        let row = row.clone()?;
        taken.push(TakenRow {
            place,
            name: *name,
            row,
        })?;
    }
    Ok(())
}

/// The rows at the places, in turn, each with one more owner.
pub fn taken_at(
    alloc: Global,
    rows: &IndexMap<Name, SharedRow>,
    places: &[usize],
) -> Result<Vec<TakenRow>, AllocError>
    ensures { IfOk result
        (λ taken. map entry_of taken.items ≡ entries_at rows.now.entries places.now) }
{
    let mut taken = Vec::with_capacity(alloc, places.len())?;
    for place in places {
        take_at(&mut taken, rows, *place)?;
    }
    Ok(taken)
}

/// Whether a vertex stands at a place.
pub fn stands_at(rows: &IndexMap<Name, SharedRow>, n: Name, place: usize) -> bool
    ensures stands { result ≡ true → slice_get (keys_of rows.now.entries) place ≡ Some n }
    ensures apart { IsDistinct bytes_eq (keys_of rows.now.entries) }
{
    // no vertex stands twice: this `len` says
    let _ = rows.len();
    match rows.get_index(place) {
        Some((name, _)) => *name == n,
        None => false,
    }
}

/// Puts a row in at a place.
pub fn set_at(rows: &mut IndexMap<Name, SharedRow>, place: usize, row: SharedRow)
    requires { place < length rows.old.entries }
    ensures set { rows.new.entries ≡ set_value_at rows.old.entries place row }
    ensures room { spare rows.new ≡ spare rows.old }
{
    if let Some(held) = rows.get_index_mut(place) {
        *held = row;
    }
}

// Puts a taken row in. Where its vertex has the place that it had, no name is looked up.
fn put_taken(rows: &mut IndexMap<Name, SharedRow>, taken: TakenRow)
    requires room { is_known rows.old.entries taken.name ≡ false → 0 < spare rows.old }
    ensures put { rows.new.entries ≡ insert_entry bytes_eq rows.old.entries taken.name taken.row }
    ensures room { length rows.old.entries + spare rows.old ≤ length rows.new.entries + spare
        rows.new }
{
    let TakenRow { place, name, row } = taken;
    if stands_at(rows, name, place) {
        set_at(rows, place, row);
    } else {
        put(rows, name, row);
    }
}

// The place that a vertex mostly has among rows that share these names. It decides no answer.
fn likely_place(names: Option<&SharedNames>, n: Name) -> usize {
    names
        .and_then(|names| names.likely_position(n))
        .unwrap_or(0)
}

/// Puts each of the changes in, where there is room for the new vertices among them. The names that the
/// rows share tell where their vertices mostly stand.
pub fn put_all(
    rows: &mut IndexMap<Name, SharedRow>,
    names: Option<&SharedNames>,
    changes: IndexMap<Name, SharedRow>,
)
    requires room { length
        (insert_all bytes_eq rows.old.entries changes.entries) ≤ length rows.old.entries + spare
        rows.old }
    ensures { rows.new.entries ≡ insert_all bytes_eq rows.old.entries changes.entries }
{
    for (name, row) in changes {
        let place = likely_place(names, name);
        put_taken(rows, TakenRow { place, name, row });
    }
}

/// Puts each of the taken rows in, where there is room for the new vertices among them.
pub fn put_all_taken(rows: &mut IndexMap<Name, SharedRow>, taken: Vec<TakenRow>)
    requires room { length
        (insert_all bytes_eq rows.old.entries (map entry_of taken.items)) ≤ length
        rows.old.entries + spare rows.old }
    ensures { rows.new.entries ≡ insert_all bytes_eq rows.old.entries (map entry_of taken.items) }
{
    for moved in taken {
        put_taken(rows, moved);
    }
}
