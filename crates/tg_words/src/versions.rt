//! The versions of the text of a graph.
ghost use Rattle.std.specs.Prelude.{◌≡◌};
ghost use Rattle.tg_words.specs.Versions.{has_letters, limit_of, version_numbered};

use crate::limits::MOST_VERTICES_OF_ONE;
use tg_graph::{MOST_VERTICES, Right, Rights};

/// A version of the text of a graph.
#[derive(Clone, Copy)]
pub enum Version {
    /// It has no letters for `a` and `d`, and room for `MOST_VERTICES_OF_ONE` vertices.
    One,
    /// It has letters for all rights, and room for `MOST_VERTICES` vertices.
    Two,
}

impl Version {
    /// The version with this number, 1 or 2.
    pub fn numbered(number: u32) -> Version
        ensures { result ≡ version_numbered number }
    {
        if number == 1 {
            Version::One
        } else {
            Version::Two
        }
    }

    /// How many vertices a text of this version may have.
    pub fn most_vertices(self) -> usize
        ensures { result ≡ limit_of self }
    {
        match self {
            Version::One => MOST_VERTICES_OF_ONE,
            Version::Two => MOST_VERTICES,
        }
    }

    /// Whether this version has a letter for each right of the set.
    pub fn has_letters(self, rights: Rights) -> bool
        ensures { result ≡ has_letters self rights }
    {
        match self {
            Version::One => !rights.has(Right::A) && !rights.has(Right::D),
            Version::Two => true,
        }
    }
}
