//! Rules, replies and numbers as text.
ghost use Rattle.std.specs.Prelude.{◌≡◌, ◌+◌, ◌/◌, ◌%◌, ◌≤◌, ◌<◌, ◌++◌, ◌∷◌, [], IfOk, IfSome, OnOk, OnErr, length, vec_len, vec_capacity};
ghost use Rattle.std.specs.Fmt.{decimal};
ghost use Rattle.tg_words.specs.Spelling.{rule_text, reply_text, refusal_words, rights_text, spaced};
ghost use Rattle.tg_names.specs.Letters.{letters_among};

use bitflags::Flags;
use std::alloc::{AllocError, Global};
use tg_graph::{Name, Refusal, Reply, Right, Rights, Rule};

/// As many bytes as the line of a rule has at most.
pub const LONGEST_RULE: usize = 64;

/// As many bytes as the text of a reply has at most.
pub const LONGEST_REPLY: usize = 32;

/// As many digits as a number has at most.
pub const LONGEST_NUMBER: usize = 20;

/// As many bytes as a name has at most, with the space before it.
pub const LONGEST_NAME: usize = 17;

/// As many letters as a set of rights has at most.
pub(crate) const MOST_LETTERS: usize = 7;

/// As many bytes as a set of rights has at most, with the space before it.
pub const LONGEST_RIGHTS: usize = 1 + MOST_LETTERS;

// As many bytes as the words of a refusal have at most, with the space before them.
const LONGEST_REFUSAL: usize = 25;

/// Appends bytes for which there is room. No memory is taken.
#[inline(always)]
pub fn put(text: &mut Vec<u8>, bytes: &[u8])
    requires { vec_len text.old + length bytes.now ≤ vec_capacity text.old }
    ensures items { text.new.items ≡ text.old.items ++ bytes.now }
    ensures len { vec_len text.new ≡ vec_len text.old + length bytes.now }
    ensures capacity { vec_capacity text.old ≤ vec_capacity text.new }
{
    // There is room, so no memory is asked for.
    let _ = text.extend_from_slice(bytes);
}

/// Appends a space and a name, where there is room for [`LONGEST_NAME`] bytes. No memory is taken.
pub fn put_name(text: &mut Vec<u8>, name: Name)
    requires { vec_len text.old + LONGEST_NAME ≤ vec_capacity text.old }
    ensures items { text.new.items ≡ text.old.items ++ 32 ∷ name }
    ensures len { vec_len text.new ≤ vec_len text.old + LONGEST_NAME }
    ensures capacity { vec_capacity text.old ≤ vec_capacity text.new }
{
    text.push_reserved(b' ');
    put(text, name.as_bytes());
}

// The letter of the one right of a set, where there is one alone. Which right is looked at decides no
// answer.
#[inline(always)]
fn only_letter(set: Rights) -> Option<u8>
    ensures { IfSome result (λ letter. rights_text set ≡ letter ∷ []) }
{
    let right = *Right::ALL.get(set.bits().trailing_zeros() as usize)?;
    if Rights::of(right) == set {
        Some(right.letter())
    } else {
        None
    }
}

// Appends the letters of those of the rights that are in the set.
fn put_letters(text: &mut Vec<u8>, set: Rights, rights: &[Right])
    requires { vec_len text.old + length rights.now ≤ vec_capacity text.old }
    ensures items { text.new.items ≡ text.old.items ++ letters_among set rights.now }
    ensures len { vec_len text.new ≡ vec_len text.old + length (letters_among set rights.now) }
    ensures capacity { vec_capacity text.old ≤ vec_capacity text.new }
{
    for right in rights {
        if set.has(*right) {
            text.push_reserved(right.letter());
        }
    }
}

// Appends the letters of a set of rights, or `-` for none.
#[inline(never)]
fn put_letters_or_dash(text: &mut Vec<u8>, rights: Rights)
    requires { vec_len text.old + MOST_LETTERS ≤ vec_capacity text.old }
    ensures items { text.new.items ≡ text.old.items ++ rights_text rights }
    ensures len { vec_len text.new ≤ vec_len text.old + MOST_LETTERS }
    ensures capacity { vec_capacity text.old ≤ vec_capacity text.new }
{
    let start = text.len();
    put_letters(text, rights, &Right::ALL);
    if text.len() == start {
        text.push_reserved(b'-');
    }
}

/// Appends a space and the letters of a set of rights, or `-` for the empty one, where there is room for
/// [`LONGEST_RIGHTS`] bytes. No memory is taken.
#[inline(always)]
pub fn put_rights(text: &mut Vec<u8>, rights: Rights)
    requires { vec_len text.old + LONGEST_RIGHTS ≤ vec_capacity text.old }
    ensures items { text.new.items ≡ text.old.items ++ 32 ∷ rights_text rights }
    ensures len { vec_len text.new ≤ vec_len text.old + LONGEST_RIGHTS }
    ensures capacity { vec_capacity text.old ≤ vec_capacity text.new }
{
    text.push_reserved(b' ');
    match only_letter(rights) {
        Some(letter) => text.push_reserved(letter),
        None => put_letters_or_dash(text, rights),
    }
}

/// Appends the line of a rule, without a line feed. It fails only where there is no room and memory
/// is refused, and the text then stays as it was.
pub fn append_rule(text: &mut Vec<u8>, rule: &Rule) -> Result<(), AllocError>
    ensures appended { OnOk result (text.new.items ≡ text.old.items ++ rule_text rule.now) }
    ensures kept { OnErr result (text.new.items ≡ text.old.items) }
    ensures full { OnErr result (vec_capacity text.old < vec_len text.old + LONGEST_RULE) }
{
    text.reserve(LONGEST_RULE)?;
    match *rule {
        Rule::Take { x, y, z, rights } => {
            put(text, b"take");
            put_name(text, x);
            put_name(text, y);
            put_name(text, z);
            put_rights(text, rights);
        }
        Rule::Grant { x, y, z, rights } => {
            put(text, b"grant");
            put_name(text, x);
            put_name(text, y);
            put_name(text, z);
            put_rights(text, rights);
        }
        Rule::Create { x, n, rights } => {
            put(text, b"create");
            put_name(text, x);
            put_name(text, n);
            put_rights(text, rights);
        }
        Rule::Remove { x, y, rights } => {
            put(text, b"remove");
            put_name(text, x);
            put_name(text, y);
            put_rights(text, rights);
        }
    }
    Ok(())
}

// Appends a space and the words of a refusal.
fn put_refusal(text: &mut Vec<u8>, refusal: Refusal)
    requires { vec_len text.old + LONGEST_REFUSAL ≤ vec_capacity text.old }
    ensures items { text.new.items ≡ text.old.items ++ 32 ∷ spaced (refusal_words refusal) }
    ensures len { vec_len text.new ≤ vec_len text.old + LONGEST_REFUSAL }
    ensures capacity { vec_capacity text.old ≤ vec_capacity text.new }
{
    match refusal {
        Refusal::Unknown(name) => {
            put(text, b" unknown");
            put_name(text, name);
        }
        Refusal::Taken(name) => {
            put(text, b" taken");
            put_name(text, name);
        }
        Refusal::Empty => put(text, b" empty"),
        Refusal::NoTake => put(text, b" no-take"),
        Refusal::NoGrant => put(text, b" no-grant"),
        Refusal::NotHeld(rights) => {
            put(text, b" not-held");
            put_rights(text, rights);
        }
        Refusal::Full => put(text, b" full"),
    }
}

/// Appends the text of a reply. It fails only where there is no room and memory is refused, and the
/// text then stays as it was.
pub fn append_reply(text: &mut Vec<u8>, reply: &Reply) -> Result<(), AllocError>
    ensures appended { OnOk result (text.new.items ≡ text.old.items ++ reply_text reply.now) }
    ensures kept { OnErr result (text.new.items ≡ text.old.items) }
    ensures full { OnErr result (vec_capacity text.old < vec_len text.old + LONGEST_REPLY) }
    ensures len { vec_len text.new ≤ vec_len text.old + LONGEST_REPLY }
    ensures capacity { vec_capacity text.old ≤ vec_capacity text.new }
{
    text.reserve(LONGEST_REPLY)?;
    match *reply {
        Reply::Done => put(text, b"done"),
        Reply::Yes => put(text, b"yes"),
        Reply::No => put(text, b"no"),
        Reply::Refused(refusal) => {
            put(text, b"refused");
            put_refusal(text, refusal);
        }
    }
    Ok(())
}

// Appends the digits of a number below 100, of which there may be a zero in front.
#[inline(always)]
fn put_two_digits(text: &mut Vec<u8>, number: usize)
    requires below { number < 100 }
    requires room { vec_len text.old + 2 ≤ vec_capacity text.old }
    ensures items { text.new.items ≡ text.old.items
        ++ (48 + number / 10) ∷ (48 + number % 10) ∷ [] }
    ensures len { vec_len text.new ≡ vec_len text.old + 2 }
    ensures capacity { vec_capacity text.old ≤ vec_capacity text.new }
{
    text.push_reserved(b'0' + (number / 10) as u8);
    text.push_reserved(b'0' + (number % 10) as u8);
}

// Appends a number below 100 in decimal.
#[inline(always)]
fn put_one_or_two_digits(text: &mut Vec<u8>, number: usize)
    requires below { number < 100 }
    requires room { vec_len text.old + length (decimal number) ≤ vec_capacity text.old }
    ensures items { text.new.items ≡ text.old.items ++ decimal number }
    ensures len { vec_len text.new ≡ vec_len text.old + length (decimal number) }
    ensures capacity { vec_capacity text.old ≤ vec_capacity text.new }
{
    if number < 10 {
        text.push_reserved(b'0' + number as u8);
        return;
    }
    put_two_digits(text, number);
}

// Appends a number below 10,000 in decimal.
#[inline(always)]
fn put_up_to_four_digits(text: &mut Vec<u8>, number: usize)
    requires below { number < 10000 }
    requires room { vec_len text.old + length (decimal number) ≤ vec_capacity text.old }
    ensures items { text.new.items ≡ text.old.items ++ decimal number }
    ensures len { vec_len text.new ≡ vec_len text.old + length (decimal number) }
    ensures capacity { vec_capacity text.old ≤ vec_capacity text.new }
{
    if number < 100 {
        put_one_or_two_digits(text, number);
        return;
    }
    put_one_or_two_digits(text, number / 100);
    put_two_digits(text, number % 100);
}

// Appends a number in decimal, four digits at a time.
fn put_number(text: &mut Vec<u8>, number: usize)
    requires { vec_len text.old + length (decimal number) ≤ vec_capacity text.old }
    ensures items { text.new.items ≡ text.old.items ++ decimal number }
    ensures len { vec_len text.new ≡ vec_len text.old + length (decimal number) }
    ensures capacity { vec_capacity text.old ≤ vec_capacity text.new }
{
    if number < 10_000 {
        put_up_to_four_digits(text, number);
        return;
    }
    put_number(text, number / 10_000);
    put_two_digits(text, number / 100 % 100);
    put_two_digits(text, number % 100);
}

/// Appends a number in decimal, without leading zeros. It fails only where there is no room and
/// memory is refused, and the text then stays as it was.
pub fn append_number(text: &mut Vec<u8>, number: usize) -> Result<(), AllocError>
    ensures appended { OnOk result (text.new.items ≡ text.old.items ++ decimal number) }
    ensures kept { OnErr result (text.new.items ≡ text.old.items) }
    ensures full { OnErr result (vec_capacity text.old < vec_len text.old + LONGEST_NUMBER) }
    ensures len { vec_len text.new ≤ vec_len text.old + LONGEST_NUMBER }
    ensures capacity { vec_capacity text.old ≤ vec_capacity text.new }
{
    text.reserve(LONGEST_NUMBER)?;
    put_number(text, number);
    Ok(())
}

/// The line of a rule, with single spaces and without a line feed. The error is want of memory.
pub fn write_rule(alloc: Global, rule: &Rule) -> Result<Vec<u8>, AllocError>
    ensures { IfOk result (λ text. text.items ≡ rule_text rule.now) }
{
    let mut text = Vec::new(alloc);
    append_rule(&mut text, rule)?;
    Ok(text)
}

/// The text of a reply, without a line feed. The error is want of memory.
pub fn write_reply(alloc: Global, reply: &Reply) -> Result<Vec<u8>, AllocError>
    ensures { IfOk result (λ text. text.items ≡ reply_text reply.now) }
{
    let mut text = Vec::new(alloc);
    append_reply(&mut text, reply)?;
    Ok(text)
}
