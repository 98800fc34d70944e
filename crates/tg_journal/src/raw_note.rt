//! A note that is written over by hand.
ghost use Rattle.std.specs.Prelude.{◌≡◌};

use once_cell::race::Note;

// `to` becomes what `from` is. `Note::again` asks for a `&mut`, so this is proved by hand.
pub(crate) fn overwrite<T>(to: &mut Note<T>, from: &Note<T>)
    ensures { to.new ≡ from.now }
{}
