//! The rights of one vertex over another.
ghost use Rattle.std.specs.Prelude.{⊤, ◌≡◌, ◌==◌, ◌^◌, ◌<◌, [], ◌∷◌, codes, Some, None, if◌then◌else◌};
ghost use Rattle.tg_names.specs.Sets.{member, bit_of, nothing, IsNamed, right_of_letter};
ghost use Rattle.tg_names.specs.Letters.{letters_of, letters_among, letter_of, set_of_letters, set_of_right, with_letters, with_new_right};
ghost use Rattle.std.specs.Prelude.{◌+◌, ◌||◌, ◌&&◌, ◌↔◌, not, true, IsTrue, bit_or, slice_get, length, IfSome};
ghost use Rattle.tg_names.specs.declared.right_sets.Right.{Right};
ghost use Rattle.tg_names.specs.Sets.{rights_where};

use bitflags::{Flag, Flags, bitflag_items};

/// One right. The rules ask only for `T` and `G`, the other five are inert.
#[derive(Clone, Copy, PartialEq, Eq, Debug)]
pub enum Right {
    /// Take, with the letter `t`.
    T,
    /// Grant, with the letter `g`.
    G,
    /// Read, with the letter `r`.
    R,
    /// Write, with the letter `w`.
    W,
    /// Execute, with the letter `e`.
    E,
    /// Append, with the letter `a`.
    A,
    /// Delete, with the letter `d`.
    D,
}

/// A set of rights, one bit for each.
///
/// Calls that are given a set require that it has no bit but those of the seven rights.
#[derive(Clone, Copy, PartialEq, Eq, Debug)]
pub struct Rights(u8);

bitflag_items! {
    impl Rights: u8 {
        const TAKE = 1;
        const GRANT = 2;
        const READ = 4;
        const WRITE = 8;
        const EXECUTE = 16;
        const APPEND = 32;
        const DELETE = 64;
    }
}

impl Flags for Rights {
    type Bits = u8;

    ghost exact = { ⊤ };

    ghost table = { (codes "TAKE", 1) ∷ (codes "GRANT", 2) ∷ (codes "READ", 4) ∷ (codes "WRITE", 8) ∷ (codes "EXECUTE", 16) ∷ (codes "APPEND", 32) ∷ (codes "DELETE", 64) ∷ [] };

    ghost set_of = { λ s. s.0 };

    fn flags<'a>() -> &'a [Flag<Rights>] {
        Rights::FLAGS
    }

    fn bits(&self) -> u8 {
        self.0
    }

    fn from_bits_retain(bits: u8) -> Rights {
        Rights(bits)
    }
}

impl Right {
    /// The rights in the order of their letters.
    pub const ALL: [Right; 7] = [
        Right::T,
        Right::G,
        Right::R,
        Right::W,
        Right::E,
        Right::A,
        Right::D,
    ];
}

impl Right {
    /// The right of a letter, if it is one of `t`, `g`, `r`, `w`, `e`, `a` and `d`.
    pub fn from_letter(letter: u8) -> Option<Right>
        ensures { result ≡ right_of_letter letter }
    {
        match letter {
            b't' => Some(Right::T),
            b'g' => Some(Right::G),
            b'r' => Some(Right::R),
            b'w' => Some(Right::W),
            b'e' => Some(Right::E),
            b'a' => Some(Right::A),
            b'd' => Some(Right::D),
            _ => None,
        }
    }
}

impl Right {
    /// The letter of the right.
    pub fn letter(self) -> u8
        ensures { result ≡ letter_of self }
    {
        match self {
            Right::T => b't',
            Right::G => b'g',
            Right::R => b'r',
            Right::W => b'w',
            Right::E => b'e',
            Right::A => b'a',
            Right::D => b'd',
        }
    }
}

// One of two numbers. Both are there before the test is looked at, so that the processor has no branch
// to guess.
#[inline(always)]
fn chosen(test: bool, yes: u8, no: u8) -> u8
    ensures { result ≡ (if test then yes else no) }
{
    if test { yes } else { no }
}

impl Rights {
    /// The set of one right.
    pub fn of(right: Right) -> Rights
        ensures bit { result.0 ≡ 2 ^ bit_of right }
        ensures named { IsNamed result }
    {
        match right {
            Right::T => Rights::TAKE,
            Right::G => Rights::GRANT,
            Right::R => Rights::READ,
            Right::W => Rights::WRITE,
            Right::E => Rights::EXECUTE,
            Right::A => Rights::APPEND,
            Right::D => Rights::DELETE,
        }
    }

    /// The rights of either set.
    pub fn union(self, other: Rights) -> Rights
        requires named { IsNamed self }
        requires other_named { IsNamed other }
        ensures members { (right : Right)
            → member result right ≡ (member self right || member other right) }
        ensures bits { result.0 ≡ bit_or self.0 other.0 }
        ensures named { IsNamed result }
    {
        Flags::union(self, other)
    }

    /// The rights of this set that the other has not.
    pub fn difference(self, other: Rights) -> Rights
        requires named { IsNamed self }
        requires other_named { IsNamed other }
        ensures set { result ≡ rights_where
            (λ right. member self right && not (member other right)) }
        ensures named { IsNamed result }
    {
        Flags::difference(self, other)
    }

    /// Whether each right of the other set is in this one.
    pub fn contains(self, other: Rights) -> bool
        requires named { IsNamed self }
        requires other_named { IsNamed other }
        ensures { IsTrue result
            ↔ ((right : Right) → member other right ≡ true → member self right ≡ true) }
    {
        Flags::contains(&self, other)
    }

    /// Whether the right is in the set.
    pub fn has(self, right: Right) -> bool
        ensures { result ≡ member self right }
    {
        Flags::contains(&self, Rights::of(right))
    }

    /// How many rights are in the set.
    pub fn count(self) -> usize
        ensures { result ≡ length (letters_of self) }
    {
        usize::from(self.has(Right::T))
            + usize::from(self.has(Right::G))
            + usize::from(self.has(Right::R))
            + usize::from(self.has(Right::W))
            + usize::from(self.has(Right::E))
            + usize::from(self.has(Right::A))
            + usize::from(self.has(Right::D))
    }

    /// The letter at an index among those of the set, in the order `t`, `g`, `r`, `w`, `e`, `a`, `d`.
    pub fn letter(self, index: usize) -> Option<u8>
        ensures { result ≡ slice_get (letters_of self) index }
    {
        self.letter_among(&Right::ALL, index)
    }

    // A letter of those of the rights that are in the set.
    fn letter_among(self, rights: &[Right], index: usize) -> Option<u8>
        ensures { result ≡ slice_get (letters_among self rights.now) index }
    {
        let mut left = index;
        for right in rights {
            if self.has(*right) {
                if left == 0 {
                    return Some(right.letter());
                }
                left -= 1;
            }
        }
        None
    }

    // The set of the right of a letter, empty for a byte that is none.
    fn of_letter(byte: u8) -> Rights
        ensures set { result ≡ set_of_right (right_of_letter byte) }
        ensures named { IsNamed result }
    {
        let bits = chosen(byte == b'd', 64, 0);
        let bits = chosen(byte == b'a', 32, bits);
        let bits = chosen(byte == b'e', 16, bits);
        let bits = chosen(byte == b'w', 8, bits);
        let bits = chosen(byte == b'r', 4, bits);
        let bits = chosen(byte == b'g', 2, bits);
        Rights(chosen(byte == b't', 1, bits))
    }

    // The set with the right of a letter besides, which it has not yet. There is none for a byte that is
    // no letter.
    #[inline(always)]
    fn with_letter(self, letter: u8) -> Option<Rights>
        requires { IsNamed self }
        ensures value { result ≡ with_new_right self (right_of_letter letter) }
        ensures named { IfSome result IsNamed }
    {
        let right = Rights::of_letter(letter);
        if right.is_empty() || Flags::contains(&self, right) {
            return None;
        }
        Some(Flags::union(self, right))
    }

    // The set that one byte writes.
    fn from_byte(byte: u8) -> Option<Rights>
        ensures value { result ≡ set_of_letters (byte ∷ []) }
        ensures named { IfSome result IsNamed }
    {
        if byte == b'-' {
            Some(Rights::empty())
        } else {
            Rights::empty().with_letter(byte)
        }
    }

    // The set of the letters, none of which stands twice.
    fn of_all(letters: &[u8]) -> Option<Rights>
        ensures value { result ≡ with_letters (Some nothing) letters.now }
        ensures named { IfSome result IsNamed }
    {
        let mut rights = Rights::empty();
        for letter in letters {
            rights = rights.with_letter(*letter)?;
        }
        Some(rights)
    }

    /// The set that the bytes write: one letter or more, in any order and none twice, or `-` for
    /// the empty set.
    pub fn from_letters(letters: &[u8]) -> Option<Rights>
        ensures value { result ≡ set_of_letters letters.now }
        ensures named { IfSome result IsNamed }
    {
        match letters {
            [] => None,
            [byte] => Rights::from_byte(*byte),
            _ => Rights::of_all(letters),
        }
    }
}
