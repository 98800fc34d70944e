//! Names of vertices.
ghost use Rattle.std.specs.Prelude.{◌≡◌, ◌≤◌, ◌<◌, ◌+◌, ℕ, true, Some, None, MatchOption, [], ◌∷◌, refl, length, bytes_eq, get_or, false, take, drop, decimal};
ghost use Rattle.std.specs.Ordering.{nat_cmp};
ghost use Rattle.std.specs.Slice.Scan.{big_endian};
ghost use Rattle.std.specs.Cmp.{partial_equiv_from_equiv};
ghost use Rattle.std.specs.Cmp.Lexicographic.{slice_cmp, nat_list_eq_equiv, nat_list_cmp_total, texts_ties, texts_po};
ghost use Rattle.tg_names.specs.NameFields.{equal_hash_alike};
ghost use Rattle.tg_names.specs.Names.{AllFit, IsName, IsLongestName, name_of, fits_at, first_bad, helper_name, padded_to_16, name_number};

use std::cmp::Ordering;
use std::hash::{Hash, Hasher};
use std::marker::Model;
use std::simd::prelude::*;

/// Why bytes are no name. Where several faults are there, the first of this list is meant.
#[derive(Clone, Copy, PartialEq, Eq, Debug)]
pub enum NameFault {
    /// There are no bytes.
    Empty,
    /// There are more than 16 bytes.
    TooLong,
    /// The byte at this place, counted from 0, is the first that may not stand where it does.
    BadByte(usize),
}

/// The name of a vertex: 1 to 16 bytes of `a` to `z`, `0` to `9` and `_`, the first not a digit.
///
/// Names are ordered by their bytes, a prefix first. A contract sees a name as the list of its
/// bytes.
#[derive(Clone, Copy, Debug)]
pub struct Name {
    padded: [u8; 16],
    len: u8,
}

impl Model for Name {
    ghost use Rattle.std.specs.Prelude.{List, ℕ, take, length};

    ghost Value = { List ℕ };

    ghost use Rattle.tg_names.specs.Names.{IsPadded};

    ghost view = { λ n. take n.len n.padded };

    ghost invariant = { λ n. IsPadded n.padded n.len };

    ghost use Rattle.tg_names.specs.NameFields.{fields_of, fields_are};

    ghost inverse = { fields_of };

    ghost inverse_ok = { fields_are };
}

// Whether the byte may stand at the place of a name.
fn fits_at(place: usize, byte: u8) -> bool
    ensures { result ≡ fits_at place byte }
{
    (b'a' <= byte && byte <= b'z') || byte == b'_' || (0 < place && b'0' <= byte && byte <= b'9')
}

// Whether each byte may stand behind another. The loop goes on behind one that may not, so that it is
// compiled to few steps for many bytes.
fn all_fit(bytes: &[u8]) -> bool
    ensures { result ≡ true → AllFit bytes.now (length bytes.now) }
{
    let mut fit = true;
    for i in 0..bytes.len() {
        fit &= fits_at(1, bytes[i]);
    }
    fit
}

// The place of the first byte that may not stand where it does.
fn first_bad(bytes: &[u8]) -> Option<usize>
    ensures { result ≡ first_bad 0 bytes.now }
{
    if !bytes.is_empty() && fits_at(0, bytes[0]) && all_fit(bytes) {
        return None;
    }
    for i in 0..bytes.len() {
        if !fits_at(i, bytes[i]) {
            return Some(i);
        }
    }
    None
}

// The number that the bytes spell, the first byte the highest.
fn number_spelled(bytes: &[u8]) -> u128
    requires { length bytes.now ≤ 16 }
    ensures { result ≡ big_endian 0 bytes.now }
{
    let mut number = 0;
    for i in 0..bytes.len() {
        number = number * 256 + u128::from(bytes[i]);
    }
    number
}

// The bytes, and zeros up to 16 bytes. They are put together in a register, not in memory.
fn padded(bytes: &[u8]) -> [u8; 16]
    requires some { 0 < length bytes.now }
    requires within { length bytes.now ≤ 16 }
    ensures { result ≡ padded_to_16 bytes.now }
{
    let zeros = 16 - bytes.len() as u32;
    (number_spelled(bytes) << (8 * zeros)).to_be_bytes()
}

// How many of the bytes, from the first on, may each stand behind another. All 16 are looked at at once.
#[inline(always)]
fn fitting(bytes: &[u8; 16]) -> usize
    ensures few { result ≤ 16 }
    ensures fit { AllFit bytes.now result }
    ensures stops { result < 16 → fits_at 1 (get_or bytes.now result 0) ≡ false }
{
    let lanes = u8x16::from_array(*bytes);
    let are_letters = (lanes - u8x16::splat(b'a')).simd_lt(u8x16::splat(26));
    let are_digits = (lanes - u8x16::splat(b'0')).simd_lt(u8x16::splat(10));
    let fit = are_letters | are_digits | lanes.simd_eq(u8x16::splat(b'_'));
    fit.to_bitmask().trailing_ones() as usize
}

// As many of the bytes, and zeros up to 16 bytes.
#[inline(always)]
fn cut_to(bytes: &[u8; 16], len: usize) -> [u8; 16]
    requires { len ≤ 16 }
    ensures { result ≡ padded_to_16 (take len bytes.now) }
{
    let places = u8x16::from_array([0, 1, 2, 3, 4, 5, 6, 7, 8, 9, 10, 11, 12, 13, 14, 15]);
    let are_kept = places.simd_lt(u8x16::splat(len as u8));
    let kept = are_kept.select(u8x16::from_array(*bytes), u8x16::splat(0));
    kept.to_array()
}

// The longest name at the front of 16 bytes, padded, and how many bytes it has: none where no name
// stands there.
#[inline(always)]
fn front_of_16(bytes: &[u8; 16]) -> ([u8; 16], usize)
    ensures few { result.1 ≤ 16 }
    ensures padded { result.0 ≡ padded_to_16 (take result.1 bytes.now) }
    ensures fit { first_bad 0 (take result.1 bytes.now) ≡ None }
    ensures longest { (k : ℕ) → IsName (take k bytes.now) → length (take k bytes.now) ≤ result.1 }
{
    let len = fitting(bytes);
    if len == 0 || bytes[0] <= b'9' {
        return ([0; 16], 0);
    }
    (cut_to(bytes, len), len)
}

// The same of few bytes.
fn front_of_few(bytes: &[u8]) -> ([u8; 16], usize)
    requires { length bytes.now < 16 }
    ensures within { result.1 ≤ length bytes.now }
    ensures padded { result.0 ≡ padded_to_16 (take result.1 bytes.now) }
    ensures fit { first_bad 0 (take result.1 bytes.now) ≡ None }
    ensures longest { (k : ℕ) → IsName (take k bytes.now) → length (take k bytes.now) ≤ result.1 }
{
    let mut padded = [0; 16];
    for i in 0..bytes.len() {
        let byte = bytes[i];
        if !fits_at(i, byte) {
            return (padded, i);
        }
        padded[i] = byte;
    }
    (padded, bytes.len())
}

// The longest name at the front, padded, and how many bytes it has: none where no name stands there.
#[inline(always)]
fn front(bytes: &[u8]) -> ([u8; 16], usize)
    ensures within { result.1 ≤ length bytes.now }
    ensures few { result.1 ≤ 16 }
    ensures padded { result.0 ≡ padded_to_16 (take result.1 bytes.now) }
    ensures fit { first_bad 0 (take result.1 bytes.now) ≡ None }
    ensures longest { (k : ℕ) → IsName (take k bytes.now) → length (take k bytes.now) ≤ result.1 }
{
    match bytes.first_chunk::<16>() {
        Some(first) => front_of_16(first),
        None => front_of_few(bytes),
    }
}

// Writes the number in decimal so that it ends with the text, and gives the place of its first
// digit.
fn write_decimal(text: &mut [u8], number: u32) -> usize
    requires { length text.old ≡ 11 }
    ensures start { result + length (decimal number) ≡ 11 }
    ensures written { drop result text.new ≡ decimal number }
{
    let mut left = number;
    let mut start = 11;
    while left >= 10 {
        start -= 1;
        text[start] = b'0' + (left % 10) as u8;
        left /= 10;
    }
    start -= 1;
    text[start] = b'0' + left as u8;
    start
}

impl Name {
    /// The name that the bytes are, or the first fault for which they are none.
    pub fn parse(bytes: &[u8]) -> Result<Name, NameFault>
        ensures { result ≡ name_of bytes.now }
    {
        if bytes.is_empty() {
            return Err(NameFault::Empty);
        }
        if bytes.len() > 16 {
            return Err(NameFault::TooLong);
        }
        if let Some(at) = first_bad(bytes) {
            return Err(NameFault::BadByte(at));
        }
        Ok(Name::from_text(bytes))
    }

    /// The longest name that stands at the front of the bytes, and what stands behind it; nothing where
    /// no name stands there.
    #[inline(always)]
    pub fn at_front(bytes: &[u8]) -> Option<(Name, &[u8])>
        ensures { MatchOption result
            ((k : ℕ) → IsName (take k bytes.now) → ⊥)
            (λ cut. IsLongestName bytes.now cut.0 cut.1.now) }
    {
        let (padded, len) = front(bytes);
        if len == 0 {
            return None;
        }
        let name = Name {
            padded,
            len: len as u8,
        };
        Some((name, &bytes[len..]))
    }

    /// The name `_k`, with the number in decimal and without leading zeros for k.
    pub fn helper(number: u32) -> Name
        ensures { result ≡ helper_name number }
    {
        let mut text = [0; 11];
        let start = write_decimal(&mut text, number);
        text[start - 1] = b'_';
        let bytes = &text[start - 1..];
        Name::from_text(bytes)
    }

    // The name that the bytes are, which are a name.
    fn from_text(bytes: &[u8]) -> Name
        requires { IsName bytes.now }
        ensures { result ≡ bytes.now }
    {
        Name {
            padded: padded(bytes),
            len: bytes.len() as u8,
        }
    }

    /// The bytes of the name as one number, the first byte the highest, with zeros behind them up to 16. Names
    /// are ordered as these numbers are.
    pub fn number(&self) -> u128
        ensures value { result ≡ name_number self.now }
        ensures valid { IsName self.now }
    {
        u128::from_be_bytes(self.padded)
    }

    /// The bytes of the name.
    pub fn as_bytes(&self) -> &[u8]
        ensures value { result.now ≡ self.now }
        ensures valid { IsName self.now }
    {
        &self.padded[..self.len as usize]
    }
}

impl PartialEq for Name {
    ghost eq = { bytes_eq };

    ghost laws = { partial_equiv_from_equiv nat_list_eq_equiv };

    fn eq(&self, other: &Name) -> bool {
        self.number() == other.number()
    }
}

impl Eq for Name {
    ghost laws = { nat_list_eq_equiv };
}

impl PartialOrd for Name {
    ghost partial_cmp = { λ a b. Some (slice_cmp nat_cmp a b) };

    ghost laws = { texts_po };

    fn partial_cmp(&self, other: &Name) -> Option<Ordering> {
        Some(self.cmp(other))
    }
}

impl Ord for Name {
    ghost cmp = { slice_cmp nat_cmp };

    ghost total = { nat_list_cmp_total };

    ghost matches_partial_cmp = { λ a b. refl };

    ghost matches_eq = { texts_ties };

    fn cmp(&self, other: &Name) -> Ordering {
        // A search asks for `Greater` alone, so that comparison stands first.
        let (mine, theirs) = (self.number(), other.number());
        if mine > theirs {
            Ordering::Greater
        } else if mine < theirs {
            Ordering::Less
        } else {
            Ordering::Equal
        }
    }
}

impl Hash for Name {
    ghost hash_input = { λ n. padded_to_16 n ∷ [] };

    ghost respects_eq = { equal_hash_alike };

    fn hash<H: Hasher>(&self, state: &mut H) {
        state.write(&self.padded);
    }
}
