//! Cases of a right, an x and a y, and which of them comes first.
ghost use Rattle.std.specs.Prelude.{◌≡◌};
ghost use Rattle.tg_names.specs.Sets.{bit_of};
ghost use Rattle.tg_analysis.specs.Cases.{is_sooner, sooner_of, earlier_of, IsFirstInBoth};

use tg_graph::{Name, Right, Rights};

/// A right, one who can come to have it or can't, and over whom.
#[derive(Clone, Copy, PartialEq, Eq, Debug)]
pub struct Case {
    /// The right.
    pub right: Right,
    /// Who can come to have it, or can't.
    pub x: Name,
    /// Over whom.
    pub y: Name,
}

/// A right, and the place of an x.
#[derive(Clone, Copy)]
pub(crate) struct Claimed {
    /// The right.
    pub right: Right,
    /// The place of x.
    pub place: usize,
}

/// A right, and the places of an x and of a y.
#[derive(Clone, Copy)]
pub(crate) struct Spot {
    /// The right.
    pub right: Right,
    /// The place of x.
    pub x: usize,
    /// The place of y.
    pub y: usize,
}

// The place of a right in the order of the letters.
fn order_of(right: Right) -> u8
    ensures { result ≡ bit_of right }
{
    match right {
        Right::T => 0,
        Right::G => 1,
        Right::R => 2,
        Right::W => 3,
        Right::E => 4,
        Right::A => 5,
        Right::D => 6,
    }
}

/// The first right in the order of the letters that is in both sets.
pub(crate) fn first_in_both(one: Rights, other: Rights) -> Option<Right>
    ensures { IsFirstInBoth one other result }
{
    for right in &Right::ALL {
        if one.has(*right) && other.has(*right) {
            return Some(*right);
        }
    }
    None
}

// Whether a right with a place comes before another with its place.
fn is_sooner(right: Right, place: usize, other: Right, other_place: usize) -> bool
    ensures { result ≡ is_sooner right place other other_place }
{
    let (own, others) = (order_of(right), order_of(other));
    own < others || own == others && place < other_place
}

/// The sooner of two; the first, where neither is.
pub(crate) fn sooner(best: Option<Claimed>, next: Option<Claimed>) -> Option<Claimed>
    ensures { result ≡ sooner_of best next }
{
    let Some(first) = best else {
        return next;
    };
    match next {
        Some(second) if is_sooner(second.right, second.place, first.right, first.place) => next,
        _ => best,
    }
}

/// The spot so far, or that of `next` over the y at this place, where its right and x come sooner. The ys come
/// in turn, so the spot so far stays where these are the same.
pub(crate) fn earlier(spot: Option<Spot>, next: Option<Claimed>, y: usize) -> Option<Spot>
    ensures { result ≡ earlier_of spot next y }
{
    let Some(Claimed { right, place: x }) = next else {
        return spot;
    };
    match spot {
        Some(first) if !is_sooner(right, x, first.right, first.x) => Some(first),
        _ => Some(Spot { right, x, y }),
    }
}
