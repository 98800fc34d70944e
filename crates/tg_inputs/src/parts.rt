//! The two texts of an input that holds a graph and rules.
ghost use Rattle.std.specs.Prelude.{◌≡◌};
ghost use Rattle.tg_words.specs.Lines.{lines_of};
ghost use Rattle.tg_inputs.specs.Parts.{parts_texts, graph_part, rules_part};

use tg_text::{MOST_LINE_BYTES, cut_line, cut_word};

// Whether a line stands between a graph and rules.
fn parts_texts(line: &[u8]) -> bool
    ensures { result ≡ parts_texts line.now }
{
    if line.len() > MOST_LINE_BYTES {
        return false;
    }
    match cut_word(line) {
        Some((word, rest)) => word == b"rules".as_slice() && cut_word(rest).is_none(),
        None => false,
    }
}

/// The graph and the rules of an input: what stands before the first line `rules`, and what stands behind it.
/// Where there is no such line, all is the graph's.
pub fn parts_of(input: &[u8]) -> (&[u8], &[u8])
    ensures graph { lines_of result.0.now ≡ lines_of (graph_part input.now) }
    ensures rules { lines_of result.1.now ≡ lines_of (rules_part input.now) }
{
    let mut rest = input;
    while !rest.is_empty() {
        let (line, after) = cut_line(rest);
        if parts_texts(line) {
            return (&input[..input.len() - rest.len()], after);
        }
        rest = after;
    }
    (input, &[])
}
