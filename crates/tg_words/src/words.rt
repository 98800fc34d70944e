//! The words of a line.
ghost use Rattle.std.specs.Prelude.{◌≡◌, ◌<◌, ◌≤◌, ◌∷◌, [], ◌+◌, ◌*◌, length, IfOk, MatchResult, Ok, Err};
ghost use Rattle.tg_names.specs.Sets.{IsNamed};
ghost use Rattle.tg_words.specs.Lines.{words_of};
ghost use Rattle.tg_words.specs.Words.{no_words, one_word, three_words, four_words, name_at, rights_at, right_at, number_up_to, number_of, with_digits, header_number, some_rights_at, word_and_some, word_and_two};
ghost use Rattle.tg_words.specs.Versions.{edge_rights_at};
ghost use Rattle.tg_words.specs.Reading.{Sees};

use crate::faults::TextKind;
use crate::lines::cut_word;
use crate::versions::Version;
use bitflags::Flags;
use tg_graph::{Name, NameFault, Right, Rights};

// The first word, and what stands behind it.
fn first_word(bytes: &[u8]) -> Result<(&[u8], &[u8]), TextKind>
    ensures { MatchResult result
        (λ cut. words_of bytes.now ≡ cut.0.now ∷ words_of cut.1.now)
        (λ kind. (kind ≡ TextKind.WordCount) × (words_of bytes.now ≡ [])) }
{
    match cut_word(bytes) {
        Some(cut) => Ok(cut),
        None => Err(TextKind::WordCount),
    }
}

/// Sees that a line, or what is left of it, has no word. The error is `WordCount` where it has one.
pub fn no_words(bytes: &[u8]) -> Result<(), TextKind>
    ensures { result ≡ no_words (words_of bytes.now) }
{
    match cut_word(bytes) {
        Some(_) => Err(TextKind::WordCount),
        None => Ok(()),
    }
}

/// The one word. The error is `WordCount` where there is none, or more than one.
pub fn one_word(bytes: &[u8]) -> Result<&[u8], TextKind>
    ensures { Sees (λ w. w.now) result (one_word (words_of bytes.now)) }
{
    let (first, rest) = first_word(bytes)?;
    no_words(rest)?;
    Ok(first)
}

/// The three words. The error is `WordCount` where there are fewer or more.
pub fn three_words(bytes: &[u8]) -> Result<(&[u8], &[u8], &[u8]), TextKind>
    ensures { Sees (λ w. (w.0.now, w.1.now, w.2.now)) result (three_words (words_of bytes.now)) }
{
    let (first, rest) = first_word(bytes)?;
    let (second, rest) = first_word(rest)?;
    let third = one_word(rest)?;
    Ok((first, second, third))
}

/// The four words. The error is `WordCount` where there are fewer or more.
pub fn four_words(bytes: &[u8]) -> Result<(&[u8], &[u8], &[u8], &[u8]), TextKind>
    ensures { Sees (λ w. (w.0.now, w.1.now, w.2.now, w.3.now)) result
        (four_words (words_of bytes.now)) }
{
    let (first, rest) = first_word(bytes)?;
    let (second, third, fourth) = three_words(rest)?;
    Ok((first, second, third, fourth))
}

/// A word, and what stands behind it, in which there is a word at least. The error is `WordCount` where
/// there are fewer than two words.
pub fn word_and_some(bytes: &[u8]) -> Result<(&[u8], &[u8]), TextKind>
    ensures { Sees (λ w. (w.0.now, words_of w.1.now)) result (word_and_some (words_of bytes.now)) }
{
    let (first, rest) = first_word(bytes)?;
    first_word(rest)?;
    Ok((first, rest))
}

/// A word, and what stands behind it, in which there are two words. The error is `WordCount` where there
/// are fewer than three words or more.
pub fn word_and_two(bytes: &[u8]) -> Result<(&[u8], &[u8]), TextKind>
    ensures { Sees (λ w. (w.0.now, words_of w.1.now)) result (word_and_two (words_of bytes.now)) }
{
    let (first, rest) = first_word(bytes)?;
    let (_, last) = first_word(rest)?;
    one_word(last)?;
    Ok((first, rest))
}

/// The name that a word is. The error is `BadName` where it is none.
pub fn name_at(word: &[u8]) -> Result<Name, TextKind>
    ensures { result ≡ name_at word.now }
{
    match Name::parse(word) {
        Ok(name) => Ok(name),
        Err(NameFault::Empty | NameFault::TooLong | NameFault::BadByte(_)) => Err(
            TextKind::BadName,
        ),
    }
}

/// The set of rights that the letters of a word write, and `-` the empty one. The error is `BadRights`
/// where the word writes none.
pub fn rights_at(word: &[u8]) -> Result<Rights, TextKind>
    ensures value { result ≡ rights_at word.now }
    ensures named { IfOk result IsNamed }
{
    match Rights::from_letters(word) {
        Some(rights) => Ok(rights),
        None => Err(TextKind::BadRights),
    }
}

/// A set of rights that is not empty. The error is `BadRights` where the word writes no set, or the empty
/// one.
pub fn some_rights_at(word: &[u8]) -> Result<Rights, TextKind>
    ensures { result ≡ some_rights_at word.now }
{
    let rights = rights_at(word)?;
    if rights.is_empty() {
        return Err(TextKind::BadRights);
    }
    Ok(rights)
}

/// The label that a word writes in a text of this version: a set of rights that is not empty. The error is
/// `BadRights` where the word writes no set, the empty one, or one for which the version has not all letters.
#[tactic(auto, unfolding(crate::specs::Versions::edge_rights_at))]
pub fn edge_rights_at(version: Version, word: &[u8]) -> Result<Rights, TextKind>
    ensures value { result ≡ edge_rights_at version word.now }
    ensures named { IfOk result IsNamed }
{
    let rights = rights_at(word)?;
    if rights.is_empty() || !version.has_letters(rights) {
        return Err(TextKind::BadRights);
    }
    Ok(rights)
}

/// The right that a word of one letter writes. The error is `BadRights` where it writes none.
pub fn right_at(word: &[u8]) -> Result<Right, TextKind>
    ensures { result ≡ right_at word.now }
{
    match word {
        [letter] => match Right::from_letter(*letter) {
            Some(right) => Ok(right),
            None => Err(TextKind::BadRights),
        },
        _ => Err(TextKind::BadRights),
    }
}

// The number that digits write, at most four of them.
fn with_digits(digits: &[u8]) -> Option<u32>
    requires { length digits.now ≤ 4 }
    ensures { result ≡ with_digits 0 digits.now }
{
    let mut number = 0;
    for byte in digits {
        if !byte.is_ascii_digit() {
            return None;
        }
        number = 10 * number + u32::from(*byte - b'0');
    }
    Some(number)
}

fn number_of(word: &[u8]) -> Option<u32>
    ensures { result ≡ number_of word.now }
{
    match word {
        [] => None,
        [first, rest @ ..] if *first == b'0' || rest.len() > 3 => None,
        _ => with_digits(word),
    }
}

/// The number that a word writes: one to four digits, the first not 0, and at most the limit. The error is
/// `BadNumber` where it writes none such.
pub fn number_up_to(limit: u32, word: &[u8]) -> Result<u32, TextKind>
    ensures { result ≡ number_up_to limit word.now }
{
    match number_of(word) {
        Some(number) if number <= limit => Ok(number),
        _ => Err(TextKind::BadNumber),
    }
}

/// The number in a header line, if its first word is the keyword. The error is `BadWord` where it is not,
/// else `WordCount` where there is not one word behind it, else `BadNumber` where that writes no number from
/// 1 to the limit.
#[tactic(auto, unfolding(crate::specs::Words::header_number))]
pub fn header_number(keyword: &[u8], limit: u32, first: &[u8], rest: &[u8]) -> Result<u32, TextKind>
    ensures { result ≡ header_number keyword.now limit (first.now ∷ words_of rest.now) }
{
    if first != keyword {
        return Err(TextKind::BadWord);
    }
    let number = one_word(rest)?;
    number_up_to(limit, number)
}
