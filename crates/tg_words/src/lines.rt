//! Lines and words.
ghost use Rattle.std.specs.Prelude.{◌≡◌, ◌<◌, ◌≤◌, ◌∷◌, ◌++◌, [], nat_lt, true, take, drop, length, map, MatchOption, IfSome};
ghost use Rattle.std.specs.Simd.Lanes.{mask_l};
ghost use Rattle.tg_words.specs.Lines.{NoLineFeedBefore, IsLineEnd, is_line_feed, lines_of, words_of, is_blank, begins_with_word, begins_with_hash};
ghost use Rattle.tg_words.specs.Reading.{Sees, content_of};
ghost use Rattle.std.specs.Option.{option_map};

use crate::faults::TextKind;
use crate::limits::MOST_LINE_BYTES;
use std::simd::prelude::*;

/// As many bytes as are looked at together for a line feed.
pub(crate) const BLOCK: usize = 16;

/// A bit for each of the bytes, the first the lowest, which is set where the byte is a line feed.
#[inline(always)]
pub(crate) fn line_feeds(bytes: u8x16) -> u64
    ensures { result ≡ mask_l (map is_line_feed bytes) }
{
    bytes.simd_eq(u8x16::splat(b'\n')).to_bitmask()
}

// Where the first line feed behind so many bytes is, which have none; the length of the text where
// there is none. The bytes are looked at one by one.
fn line_end_near(text: &[u8], clear: usize) -> usize
    requires within { clear ≤ length text.now }
    requires clear { NoLineFeedBefore text.now clear }
    ensures { IsLineEnd text.now result }
{
    for i in clear..text.len() {
        if text[i] == b'\n' {
            return i;
        }
    }
    text.len()
}

// Where the first line feed is, or the length of the text where there is none. Blocks of bytes are
// looked at at once.
fn line_end(text: &[u8]) -> usize
    ensures { IsLineEnd text.now result }
{
    let mut clear = 0;
    while text.len() - clear >= BLOCK {
        let found = line_feeds(u8x16::from_slice(&text[clear..]));
        if found != 0 {
            return clear + found.trailing_zeros() as usize;
        }
        clear += BLOCK;
    }
    line_end_near(text, clear)
}

/// The first line of a text without its line feed, and what stands behind it.
///
/// A text that is not empty has a first line, and each cut makes it shorter, so a loop that goes on
/// with what stands behind the line meets every line in turn. No memory is taken.
pub fn cut_line(text: &[u8]) -> (&[u8], &[u8])
    requires { 0 < length text.now }
    ensures cut { lines_of text.now ≡ result.0.now ∷ lines_of result.1.now }
    ensures joined { 0 < length result.1.now → text.now ≡ result.0.now ++ 10 ∷ result.1.now }
    ensures shorter { length result.1.now < length text.now }
{
    let end = line_end(text);
    if end == text.len() {
        return (text, &[]);
    }
    (&text[..end], &text[end + 1..])
}

fn is_blank(byte: u8) -> bool
    ensures { result ≡ is_blank byte }
{
    byte == b' ' || byte == b'\t' || byte == b'\r'
}

// How many blanks there are at the front.
fn blanks(bytes: &[u8]) -> usize
    ensures within { result ≤ length bytes.now }
    ensures words { words_of (drop result bytes.now) ≡ words_of bytes.now }
    ensures word { begins_with_word (drop result bytes.now) ≡ nat_lt result (length bytes.now) }
{
    for i in 0..bytes.len() {
        if !is_blank(bytes[i]) {
            return i;
        }
    }
    bytes.len()
}

// The length of the word at the front. Its first byte is no blank, so the search begins behind it.
fn word_len(bytes: &[u8]) -> usize
    requires { begins_with_word bytes.now ≡ true }
    ensures some { 0 < result }
    ensures within { result ≤ length bytes.now }
    ensures word { words_of bytes.now ≡ take result bytes.now ∷ words_of (drop result bytes.now) }
{
    for i in 1..bytes.len() {
        if is_blank(bytes[i]) {
            return i;
        }
    }
    bytes.len()
}

/// The first word of a line, and what stands behind it, which is shorter; nothing where the line
/// has no word.
///
/// No memory is taken.
pub fn cut_word(bytes: &[u8]) -> Option<(&[u8], &[u8])>
    ensures cut { MatchOption result (words_of bytes.now ≡ [])
        (λ cut. words_of bytes.now ≡ cut.0.now ∷ words_of cut.1.now) }
    ensures shorter { IfSome result (λ cut. length cut.1.now < length bytes.now) }
{
    let start = blanks(bytes);
    if start == bytes.len() {
        return None;
    }
    let found = &bytes[start..];
    let end = word_len(found);
    Some((&found[..end], &found[end..]))
}

fn begins_with_hash(word: &[u8]) -> bool
    ensures { result ≡ begins_with_hash word.now }
{
    match word {
        [first, ..] => *first == b'#',
        [] => false,
    }
}

// The first word of the line and what stands behind it, unless the line is skipped.
pub(crate) fn content(line: &[u8]) -> Result<Option<(&[u8], &[u8])>, TextKind>
    ensures { Sees (option_map (λ cut. cut.0.now ∷ words_of cut.1.now)) result
        (content_of line.now) }
{
    if line.len() > MOST_LINE_BYTES {
        return Err(TextKind::LineTooLong);
    }
    match cut_word(line) {
        Some((first, rest)) if !begins_with_hash(first) => Ok(Some((first, rest))),
        _ => Ok(None),
    }
}
