//! Lines whose words stand between single spaces, as they mostly do: read from the front of a text in
//! one pass, before the end of the line is looked for.
ghost use Rattle.std.specs.Prelude.{◌≡◌, ◌<◌, ◌≤◌, ◌∷◌, ◌++◌, [], Some, IfSome, codes, length};
ghost use Rattle.tg_names.specs.Letters.{set_of_letters};
ghost use Rattle.tg_names.specs.Names.{IsName};
ghost use Rattle.tg_graph.specs.Rules.{rights_of};
ghost use Rattle.tg_graph.specs.RuleWords.{IsRule};
ghost use Rattle.tg_words.specs.Spelling.{line_of, words_with};
ghost use Rattle.tg_words.specs.Lines.{IsLineEnd};

use crate::lines::{BLOCK, line_feeds};
use crate::spelling::MOST_LETTERS;
use std::simd::prelude::*;
use tg_graph::{Name, Rights, Rule};

// As many bits as there are for the bytes of a block. None is set where there is no line feed.
const NO_LINE_FEED: usize = 64;

// What stands behind the word `edge` and a space, where they stand at the front.
#[inline(always)]
fn behind_edge(bytes: &[u8]) -> Option<&[u8]>
    ensures { IfSome result (λ rest. bytes.now ≡ codes "edge" ++ 32 ∷ rest.now) }
{
    match bytes {
        [b'e', b'd', b'g', b'e', b' ', rest @ ..] => Some(rest),
        _ => None,
    }
}

// How many bytes stand in front of the first line feed, where that is among the first `BLOCK` bytes, all
// of which are looked at at once; else `NO_LINE_FEED`.
#[inline(always)]
fn line_end_in_block(bytes: &[u8]) -> usize
    requires { BLOCK ≤ length bytes.now }
    ensures { result < NO_LINE_FEED → IsLineEnd bytes.now result × (result < length bytes.now) }
{
    line_feeds(u8x16::from_slice(bytes)).trailing_zeros() as usize
}

// The bytes up to a line feed and those behind it, where there are as few as a label may have.
#[inline(always)]
fn cut_letters(bytes: &[u8]) -> Option<(&[u8], &[u8])>
    ensures bytes { IfSome result (λ cut. bytes.now ≡ cut.0.now ++ 10 ∷ cut.1.now) }
    ensures few { IfSome result (λ cut. length cut.0.now ≤ 7) }
{
    if bytes.len() < BLOCK {
        return cut_last_letters(bytes);
    }
    let end = line_end_in_block(bytes);
    if end > MOST_LETTERS {
        return None;
    }
    Some((&bytes[..end], &bytes[end + 1..]))
}

// The same of the last bytes of a text.
#[inline(never)]
fn cut_last_letters(bytes: &[u8]) -> Option<(&[u8], &[u8])>
    ensures bytes { IfSome result (λ cut. bytes.now ≡ cut.0.now ++ 10 ∷ cut.1.now) }
    ensures few { IfSome result (λ cut. length cut.0.now ≤ 7) }
{
    for i in 0..bytes.len().min(MOST_LETTERS + 1) {
        if bytes[i] == b'\n' {
            return Some((&bytes[..i], &bytes[i + 1..]));
        }
    }
    None
}

// The name at the front, and what stands behind it and a space.
#[inline(always)]
fn cut_name(bytes: &[u8]) -> Option<(Name, &[u8])>
    ensures bytes { IfSome result (λ cut. bytes.now ≡ cut.0 ++ 32 ∷ cut.1.now) }
    ensures name { IfSome result (λ cut. IsName cut.0) }
{
    let Some(cut) = Name::at_front(bytes) else {
        return None;
    };
    match cut.1 {
        [b' ', rest @ ..] => Some((cut.0, rest)),
        _ => None,
    }
}

// Two names and letters that end a line, and what stands behind the line.
#[inline(always)]
fn two_names(bytes: &[u8]) -> Option<(Name, Name, &[u8], &[u8])>
    ensures line { IfSome result
        (λ found. bytes.now ≡ line_of (found.0 ∷ found.1 ∷ found.2.now ∷ []) ++ found.3.now) }
    ensures names { IfSome result (λ found. IsName found.0 × IsName found.1) }
    ensures few { IfSome result (λ found. length found.2.now ≤ 7) }
{
    let Some(first) = cut_name(bytes) else {
        return None;
    };
    let Some(second) = cut_name(first.1) else {
        return None;
    };
    let Some(cut) = cut_letters(second.1) else {
        return None;
    };
    Some((first.0, second.0, cut.0, cut.1))
}

/// Source, target and letters of the edge that the first line of a text writes, and what stands behind
/// the line. Nothing where the line is none of an edge, or its words don't stand between single spaces up to
/// a line feed: it may be an edge all the same. The letters may be none of rights.
#[inline(always)]
pub fn cut_edge(text: &[u8]) -> Option<(Name, Name, &[u8], &[u8])>
    ensures line { IfSome result
        (λ found. text.now ≡ line_of (codes "edge" ∷ found.0 ∷ found.1 ∷ found.2.now ∷ []) ++ found.3.now) }
    ensures names { IfSome result (λ found. IsName found.0 × IsName found.1) }
    ensures few { IfSome result (λ found. length found.2.now ≤ 7) }
{
    let bytes = behind_edge(text)?;
    let Some(found) = two_names(bytes) else {
        return None;
    };
    Some(found)
}

// Three names and letters that end a line, and what stands behind the line.
#[inline(always)]
fn three_names(bytes: &[u8]) -> Option<(Name, Name, Name, &[u8], &[u8])>
    ensures line { IfSome result
        (λ found. bytes.now ≡ line_of (found.0 ∷ found.1 ∷ found.2 ∷ found.3.now ∷ []) ++ found.4.now) }
    ensures names { IfSome result (λ found. IsName found.0 × IsName found.1 × IsName found.2) }
    ensures few { IfSome result (λ found. length found.3.now ≤ 7) }
{
    let Some(first) = cut_name(bytes) else {
        return None;
    };
    let Some(others) = two_names(first.1) else {
        return None;
    };
    Some((first.0, others.0, others.1, others.2, others.3))
}

// Each kind of rule is cut by itself, so that its names stay whole: where one kind has a name, another has
// its rights.

// The take that stands behind its keyword.
#[inline(never)]
fn cut_take(bytes: &[u8]) -> Option<(Rule, &[u8], &[u8])>
    ensures line { IfSome result
        (λ found. codes "take" ++ 32 ∷ bytes.now ≡ line_of (words_with found.0 found.1.now) ++ found.2.now) }
    ensures rule { IfSome result (λ found. IsRule found.0) }
    ensures letters { IfSome result
        (λ found. set_of_letters found.1.now ≡ Some (rights_of found.0)) }
    ensures few { IfSome result (λ found. length found.1.now ≤ 7) }
{
    let Some(found) = three_names(bytes) else {
        return None;
    };
    let Some(rights) = Rights::from_letters(found.3) else {
        return None;
    };
    let rule = Rule::Take {
        x: found.0,
        y: found.1,
        z: found.2,
        rights,
    };
    Some((rule, found.3, found.4))
}

// The grant that stands behind its keyword.
#[inline(never)]
fn cut_grant(bytes: &[u8]) -> Option<(Rule, &[u8], &[u8])>
    ensures line { IfSome result
        (λ found. codes "grant" ++ 32 ∷ bytes.now ≡ line_of (words_with found.0 found.1.now) ++ found.2.now) }
    ensures rule { IfSome result (λ found. IsRule found.0) }
    ensures letters { IfSome result
        (λ found. set_of_letters found.1.now ≡ Some (rights_of found.0)) }
    ensures few { IfSome result (λ found. length found.1.now ≤ 7) }
{
    let Some(found) = three_names(bytes) else {
        return None;
    };
    let Some(rights) = Rights::from_letters(found.3) else {
        return None;
    };
    let rule = Rule::Grant {
        x: found.0,
        y: found.1,
        z: found.2,
        rights,
    };
    Some((rule, found.3, found.4))
}

// The create that stands behind its keyword.
#[inline(never)]
fn cut_create(bytes: &[u8]) -> Option<(Rule, &[u8], &[u8])>
    ensures line { IfSome result
        (λ found. codes "create" ++ 32 ∷ bytes.now ≡ line_of (words_with found.0 found.1.now) ++ found.2.now) }
    ensures rule { IfSome result (λ found. IsRule found.0) }
    ensures letters { IfSome result
        (λ found. set_of_letters found.1.now ≡ Some (rights_of found.0)) }
    ensures few { IfSome result (λ found. length found.1.now ≤ 7) }
{
    let Some(found) = two_names(bytes) else {
        return None;
    };
    let Some(rights) = Rights::from_letters(found.2) else {
        return None;
    };
    let rule = Rule::Create {
        x: found.0,
        n: found.1,
        rights,
    };
    Some((rule, found.2, found.3))
}

// The remove that stands behind its keyword.
#[inline(never)]
fn cut_remove(bytes: &[u8]) -> Option<(Rule, &[u8], &[u8])>
    ensures line { IfSome result
        (λ found. codes "remove" ++ 32 ∷ bytes.now ≡ line_of (words_with found.0 found.1.now) ++ found.2.now) }
    ensures rule { IfSome result (λ found. IsRule found.0) }
    ensures letters { IfSome result
        (λ found. set_of_letters found.1.now ≡ Some (rights_of found.0)) }
    ensures few { IfSome result (λ found. length found.1.now ≤ 7) }
{
    let Some(found) = two_names(bytes) else {
        return None;
    };
    let Some(rights) = Rights::from_letters(found.2) else {
        return None;
    };
    let rule = Rule::Remove {
        x: found.0,
        y: found.1,
        rights,
    };
    Some((rule, found.2, found.3))
}

/// The rule that the first line of a text writes, its letters, and what stands behind the line. Nothing
/// where the line writes no rule, or its words don't stand between single spaces up to a line feed: it may
/// write a rule all the same.
#[inline(always)]
pub fn cut_rule(text: &[u8]) -> Option<(Rule, &[u8], &[u8])>
    ensures line { IfSome result
        (λ found. text.now ≡ line_of (words_with found.0 found.1.now) ++ found.2.now) }
    ensures rule { IfSome result (λ found. IsRule found.0) }
    ensures letters { IfSome result
        (λ found. set_of_letters found.1.now ≡ Some (rights_of found.0)) }
    ensures few { IfSome result (λ found. length found.1.now ≤ 7) }
{
    match text {
        [b't', b'a', b'k', b'e', b' ', rest @ ..] => cut_take(rest),
        [b'g', b'r', b'a', b'n', b't', b' ', rest @ ..] => cut_grant(rest),
        [b'c', b'r', b'e', b'a', b't', b'e', b' ', rest @ ..] => cut_create(rest),
        [b'r', b'e', b'm', b'o', b'v', b'e', b' ', rest @ ..] => cut_remove(rest),
        _ => None,
    }
}
