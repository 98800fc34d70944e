//! The text of a script.
ghost use Rattle.std.specs.Prelude.{◌≡◌, ◌∷◌, List, Ok, IfOk, OnOk};
ghost use Rattle.tg_text.specs.declared.script_text.Header.{Header};
ghost use Rattle.tg_text.specs.declared.script_text.ScriptLine.{ScriptLine};
ghost use Rattle.tg_words.specs.Limits.{most_events};
ghost use Rattle.tg_words.specs.Lines.{words_of};
ghost use Rattle.tg_words.specs.Reading.{Makes, Reads, with_item};
ghost use Rattle.tg_text.specs.ScriptText.{right_and_names, act_alone, act_of_words, seated, event_of_words, event_item, script_item, script_text, script_of, IsNamedAct, AreNamedEvents, IsWithinLimits};

use crate::rule_text::rule_of_words;
use std::alloc::Global;
use tg_graph::{Act, MOST_CELLS, MOST_SEATS, Name, Right, Step};
use tg_words::{
    Items, LineFault, MOST_EVENTS, TextFault, TextKind, cut_word, header_number, name_at, no_words,
    number_up_to, read_lines, right_at, three_words,
};

/// An event of a script: an act of a seat.
#[derive(Clone, Copy, PartialEq, Eq, Debug)]
pub struct ScriptLine {
    /// The number of its line, counted from 1.
    pub line: usize,
    /// The number of the seat, counted from 1.
    pub seat: u32,
    /// What the seat does.
    pub act: Act,
}

/// A script: its header, and the events in turn.
#[derive(Debug, Drop)]
pub struct Script {
    /// How many seats there are, 1 to `MOST_SEATS`.
    pub seats: u32,
    /// How many cells there are, 1 to `MOST_CELLS`.
    pub cells: usize,
    /// The events.
    pub lines: Vec<ScriptLine>,
}

/// How much of a script's header has come.
#[derive(Clone, Copy, PartialEq, Eq, Debug)]
pub enum Header {
    Nothing,
    Seats(u32),
    Whole { seats: u32, cells: u32 },
}

#[tactic(auto, unfolding(crate::specs::ScriptText::right_and_names))]
fn right_and_names(bytes: &[u8]) -> Result<(Right, Name, Name), TextKind>
    ensures { result ≡ right_and_names (words_of bytes.now) }
{
    let (letter, first, second) = three_words(bytes)?;
    let x = name_at(first)?;
    let y = name_at(second)?;
    let right = right_at(letter)?;
    Ok((right, x, y))
}

// The act, if no word is left.
fn act_alone(act: Act, bytes: &[u8]) -> Result<Act, TextKind>
    ensures { result ≡ act_alone act (words_of bytes.now) }
{
    no_words(bytes)?;
    Ok(act)
}

// The act that words after the number of a seat write.
#[tactic(auto, unfolding(crate::specs::ScriptText::act_of_words))]
fn act_of_words(bytes: &[u8]) -> Result<Act, TextKind>
    ensures value { result ≡ act_of_words (words_of bytes.now) }
    ensures named { IfOk result IsNamedAct }
{
    let Some((word, rest)) = cut_word(bytes) else {
        return Err(TextKind::BadWord);
    };
    if word == b"begin".as_slice() {
        return act_alone(Act::Begin, rest);
    }
    if word == b"commit".as_slice() {
        return act_alone(Act::Commit, rest);
    }
    if word == b"abort".as_slice() {
        return act_alone(Act::Abort, rest);
    }
    if word == b"holds".as_slice() {
        let (right, x, y) = right_and_names(rest)?;
        return Ok(Act::Stage(Step::Holds { right, x, y }));
    }
    if word == b"share".as_slice() {
        let (right, x, y) = right_and_names(rest)?;
        return Ok(Act::Stage(Step::Share { right, x, y }));
    }
    let rule = rule_of_words(word, rest)?;
    Ok(Act::Stage(Step::Do(rule)))
}

// The event, where what is wrong with the form of the act comes first.
fn seated(
    line: usize,
    seat: Result<u32, TextKind>,
    act: Result<Act, TextKind>,
) -> Result<ScriptLine, TextKind>
    ensures { result ≡ seated line seat act }
{
    match act {
        Err(TextKind::BadWord) => Err(TextKind::BadWord),
        Err(TextKind::WordCount) => Err(TextKind::WordCount),
        _ => {
            let seat = seat?;
            let act = act?;
            Ok(ScriptLine { line, seat, act })
        },
    }
}

#[tactic(auto, unfolding(crate::specs::ScriptText::event_of_words))]
fn event_of_words(
    line: usize,
    seats: u32,
    first: &[u8],
    rest: &[u8],
) -> Result<ScriptLine, TextKind>
    ensures value { result ≡ event_of_words line seats (first.now ∷ words_of rest.now) }
    ensures named { IfOk result (λ event. IsNamedAct event.act) }
{
    seated(line, number_up_to(seats, first), act_of_words(rest))
}

// Adds an event, if there is room for one more.
fn push_event(
    lines: &mut Vec<ScriptLine>,
    line: usize,
    seat: u32,
    act: Act,
) -> Result<(), LineFault>
    requires named { IsNamedAct act }
    requires all_named { AreNamedEvents lines.old.items }
    ensures made { Makes (with_item most_events lines.old.items
        (Ok (record { line = line; seat = seat; act = act }))) result lines.new.items }
    ensures named { OnOk result (AreNamedEvents lines.new.items) }
{
    if lines.len() >= MOST_EVENTS {
        return Err(LineFault::Kind(TextKind::TooMany));
    }
    // Without a step at hand the check does not learn what an event holds.
    let event = match act {
        Act::Stage(step) => ScriptLine {
            line,
            seat,
            act: Act::Stage(step),
        },
        _ => ScriptLine { line, seat, act },
    };
    lines.push(event)?;
    Ok(())
}

// Adds the event of a line that is not skipped.
#[tactic(auto, unfolding(crate::specs::ScriptText::event_item))]
fn add_event(
    lines: &mut Vec<ScriptLine>,
    seats: u32,
    line: usize,
    first: &[u8],
    rest: &[u8],
) -> Result<(), LineFault>
    requires { AreNamedEvents lines.old.items }
    ensures made { Makes (event_item line seats lines.old.items (first.now ∷ words_of rest.now))
        result lines.new.items }
    ensures named { OnOk result (AreNamedEvents lines.new.items) }
{
    match event_of_words(line, seats, first, rest) {
        Ok(ScriptLine { line, seat, act }) => {
            push_event(lines, line, seat, act)?;
            Ok(())
        },
        Err(kind) => Err(LineFault::Kind(kind)),
    }
}

// What the lines of a script make: the header as far as it has come, and the events.
#[derive(Drop)]
pub(crate) struct ScriptItems {
    header: Header,
    lines: Vec<ScriptLine>,
}

impl Items for ScriptItems {
    ghost Made = { Header × List ScriptLine };

    ghost made = { λ script. (script.header, script.lines.items) };

    ghost item = { script_item };

    ghost IsSound = { λ script. AreNamedEvents script.lines.items };

    #[tactic(auto, unfolding(crate::specs::ScriptText::script_item))]
    fn add(&mut self, line: usize, first: &[u8], rest: &[u8]) -> Result<(), LineFault> {
        match self.header {
            Header::Nothing => {
                self.header = Header::Seats(header_number(b"seats", MOST_SEATS, first, rest)?);
            },
            Header::Seats(seats) => {
                let cells = header_number(b"cells", MOST_CELLS as u32, first, rest)?;
                self.header = Header::Whole { seats, cells };
            },
            Header::Whole { seats, .. } => add_event(&mut self.lines, seats, line, first, rest)?,
        }
        Ok(())
    }

    fn add_likely<'a>(&mut self, _line: usize, _text: &'a [u8]) -> Option<&'a [u8]> {
        None
    }
}

#[tactic(auto, unfolding(crate::specs::ScriptText::script_text))]
/// The script of a text.
///
/// `At` names the first faulty line, and the first of these that it has: `LineTooLong`, `BadWord`,
/// `WordCount`, `BadNumber`, `BadName`, `BadRights`, `TooMany` where there are `MOST_EVENTS`
/// events already. Where the text ends before both header lines it is `NoHeader`, on the line
/// behind the last. `Memory` is answered where a growth was refused, whatever stands further on.
pub fn read_script(alloc: Global, text: &[u8]) -> Result<Script, TextFault>
    ensures value { Reads script_of result (script_text text.now) }
    ensures named { IfOk result (λ script. AreNamedEvents script.lines.items) }
    ensures within { IfOk result (λ script. IsWithinLimits (script_of script)) }
{
    let mut script = ScriptItems {
        header: Header::Nothing,
        lines: Vec::new(alloc),
    };
    let count = read_lines(&mut script, text)?;
    let Header::Whole { seats, cells } = script.header else {
        return Err(TextFault::At {
            line: count + 1,
            kind: TextKind::NoHeader,
        });
    };
    Ok(Script {
        seats,
        cells: cells as usize,
        lines: script.lines,
    })
}
