//! The outcomes of acts, as lines.
ghost use Rattle.std.specs.Prelude.{◌≡◌, ◌++◌, ◌<◌, OnOk, length, decimal};
ghost use Rattle.tg_words.specs.Spelling.{spaced};
ghost use Rattle.tg_plays.specs.Runs.{fault_words, outcome_words, outcome_line};
ghost use Rattle.tg_plays.specs.RunParts.{MayBeTold, MayBeToldFault};

use std::alloc::AllocError;
use tg_graph::Name;
use tg_store::{HallFault, HallReply};
use tg_text::{ScriptLine, append_number, append_reply};

/// No line of an outcome is longer.
pub const LONGEST_LINE: usize = 128;

// Appends words, and the number of a place.
pub(crate) fn append_place(text: &mut Vec<u8>, words: &[u8], place: usize) -> Result<(), AllocError>
    ensures { OnOk result (text.new.items ≡ text.old.items ++ (words.now ++ decimal place)) }
{
    text.extend_from_slice(words)?;
    append_number(text, place)?;
    Ok(())
}

// Appends that a record ended the session: the place of the record, and the name that it wrote.
fn append_changed(text: &mut Vec<u8>, place: usize, name: Name) -> Result<(), AllocError>
    ensures { OnOk result
        (text.new.items ≡ text.old.items ++ spaced (fault_words (HallFault.Changed place name))) }
{
    append_place(text, b"refused changed ", place)?;
    text.push(b' ')?;
    text.extend_from_slice(name.as_bytes())?;
    Ok(())
}

// Appends why an act was refused. It fails for want of memory, the act's own included.
fn append_fault(text: &mut Vec<u8>, fault: HallFault) -> Result<(), AllocError>
    requires { MayBeToldFault fault }
    ensures appended { OnOk result (text.new.items ≡ text.old.items ++ spaced (fault_words fault)) }
    ensures told { OnOk result (0 < length (fault_words fault)) }
{
    match fault {
        HallFault::NoSeat => unreachable!(),
        HallFault::AlreadyOpen => text.extend_from_slice(b"refused already-open")?,
        HallFault::NotOpen => text.extend_from_slice(b"refused not-open")?,
        HallFault::Changed { place, name } => append_changed(text, place, name)?,
        HallFault::Crowded { place } => append_place(text, b"refused crowded ", place)?,
        HallFault::JournalFull => text.extend_from_slice(b"refused journal-full")?,
        HallFault::Memory => return Err(AllocError),
    }
    Ok(())
}

// Appends what an act came to. It fails for want of memory, the act's own included.
pub(crate) fn append_outcome(text: &mut Vec<u8>, answer: &HallReply) -> Result<(), AllocError>
    requires { MayBeTold answer.now }
    ensures appended { OnOk result
        (text.new.items ≡ text.old.items ++ spaced (outcome_words answer.now)) }
    ensures told { OnOk result (0 < length (outcome_words answer.now)) }
{
    match *answer {
        HallReply::Done => text.extend_from_slice(b"done")?,
        HallReply::Put(place) => append_place(text, b"done ", place)?,
        HallReply::Said(reply) => append_reply(text, &reply)?,
        HallReply::Refused(fault) => append_fault(text, fault)?,
        HallReply::Learned(_) | HallReply::Nothing => unreachable!(),
    }
    Ok(())
}

// Appends the line of an event's outcome. It fails for want of memory, the act's own included.
pub(crate) fn append_line(
    text: &mut Vec<u8>,
    event: &ScriptLine,
    answer: &HallReply,
) -> Result<(), AllocError>
    requires { MayBeTold answer.now }
    ensures appended { OnOk result
        (text.new.items ≡ text.old.items ++ outcome_line event.now answer.now) }
    ensures told { OnOk result (0 < length (outcome_words answer.now)) }
{
    append_number(text, event.line)?;
    text.push(b' ')?;
    append_number(text, event.seat as usize)?;
    text.push(b' ')?;
    append_outcome(text, answer)?;
    text.push(b'\n')?;
    Ok(())
}
