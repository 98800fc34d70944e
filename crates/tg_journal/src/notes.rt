//! Notes of cells that are written once more, or over one another.
ghost use Rattle.once_cell.specs.Once.{Agrees};
ghost use Rattle.std.specs.Prelude.{◌≡◌, IfSome};

use crate::raw_note::overwrite;
use once_cell::race::{Note, OnceBox};

// A second note like `from`. The cell may be any: it only gives a note to begin with.
pub(crate) fn duplicate<T>(cell: &OnceBox<T>, from: &Note<T>) -> Note<T>
    ensures { result ≡ from.now }
{
    let mut to = cell.note();
    overwrite(&mut to, from);
    to
}

// `to` becomes what `from` is, which agrees with what `to` knew.
pub(crate) fn replace<T>(cell: &OnceBox<T>, to: &mut Note<T>, from: &Note<T>)
    requires { to.old.cell ≡ from.now.cell }
    ensures note { to.new ≡ from.now }
    ensures agrees { IfSome from.now.known (Agrees to.old.known) }
{
    to.compare(duplicate(cell, from));
    overwrite(to, from);
}
