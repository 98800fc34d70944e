//! Names of one letter.
use tg_graph::Name;

// The name of one letter, or `_` and the digit.
pub(crate) fn name(letter: u8) -> Option<Name> {
    let parsed = if letter.is_ascii_digit() {
        Name::parse(&[b'_', letter])
    } else {
        Name::parse(&[letter])
    };
    parsed.ok()
}
