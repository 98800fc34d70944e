//! Reading a text line by line, up to the first fault.
ghost use Rattle.std.specs.Prelude.{◌≡◌, ◌≤◌, ℕ, List, Result, ◌∷◌, IfOk, OnOk, MatchOption, length};
ghost use Rattle.tg_words.specs.declared.faults.TextKind.{TextKind};
ghost use Rattle.tg_words.specs.Lines.{lines_of, words_of};
ghost use Rattle.tg_words.specs.Reading.{Makes, MakesAll, MakesFirst, after_line, after_lines};

use crate::faults::{LineFault, TextFault};
use crate::lines::{content, cut_line};

/// What the lines of a text make, each adding to what the earlier ones made.
pub trait Items {
    // What was made, as the definitions have it.
    ghost Made: { Type 0 };

    ghost made: { Self → Made };

    // What the words of a line with this number make of what the earlier lines made.
    ghost item: { ℕ → Made → List (List ℕ) → Result Made TextKind };

    // What holds of all that is made.
    ghost IsSound: { Self → Type 0 };

    /// Adds what a line that is not skipped says: its first word, and the words behind it. The error is what
    /// is wrong with the line, or want of memory.
    fn add(&mut self, line: usize, first: &[u8], rest: &[u8]) -> Result<(), LineFault>
        requires { IsSound self.old }
        ensures made { Makes (item line (made self.old) (first.now ∷ words_of rest.now)) result
            (made self.new) }
        ensures sound { OnOk result (IsSound self.new) };

    /// Adds what the first line of a text says, which has this number, where it is written as such
    /// lines mostly are, and gives what stands behind it. Otherwise nothing is added.
    fn add_likely<'a>(&mut self, line: usize, text: &'a [u8]) -> Option<&'a [u8]>
        requires { IsSound self.old }
        ensures made { MatchOption result (made self.new ≡ made self.old)
            (λ rest. MakesFirst (item line) (made self.old) text.now (made self.new) rest.now) }
        ensures sound { IsSound self.new };
}

fn add_line<T: Items>(items: &mut T, line: usize, bytes: &[u8]) -> Result<(), LineFault>
    requires { T.IsSound items.old }
    ensures made { Makes (after_line (T.item line) (T.made items.old) bytes.now) result
        (T.made items.new) }
    ensures sound { OnOk result (T.IsSound items.new) }
{
    let Some((first, rest)) = content(bytes)? else {
        return Ok(());
    };
    items.add(line, first, rest)?;
    Ok(())
}

/// Adds what the lines of a text say, each in turn, and gives the number of the lines. The error is
/// the first fault, with its line: `LineTooLong` where a line has more than `MOST_LINE_BYTES` bytes, else
/// what [`Items::add`] finds wrong with it; or want of memory, which `add` told.
pub fn read_lines<T: Items>(items: &mut T, text: &[u8]) -> Result<usize, TextFault>
    requires { T.IsSound items.old }
    ensures made { MakesAll (after_lines T.item 1 (T.made items.old) (lines_of text.now))
        (length (lines_of text.now)) result (T.made items.new) }
    ensures sound { OnOk result (T.IsSound items.new) }
    ensures few { IfOk result (λ count. count ≤ length text.now) }
{
    let mut rest = text;
    let mut line = 0;
    while !rest.is_empty() {
        line += 1;
        rest = match items.add_likely(line, rest) {
            Some(after) => after,
            None => {
                let (bytes, after) = cut_line(rest);
                if let Err(fault) = add_line(items, line, bytes) {
                    return Err(fault.on_line(line));
                }
                after
            },
        };
    }
    Ok(line)
}
