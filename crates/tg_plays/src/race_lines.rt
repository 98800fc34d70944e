//! The outcomes of a race's events, as lines.
ghost use Rattle.std.specs.Prelude.{◌≡◌, ◌++◌, ◌<◌, length, OnOk};
ghost use Rattle.tg_words.specs.Spelling.{spaced, line_of};
ghost use Rattle.tg_plays.specs.Races.{race_words, race_line};
ghost use Rattle.tg_plays.specs.RaceParts.{MayBeToldInRace};

use crate::outcome_lines::{append_outcome, append_place};
use crate::turns::RaceReply;
use std::alloc::AllocError;
use tg_text::{ScriptLine, append_number};

// Appends what an event came to.
fn append_reply(text: &mut Vec<u8>, answer: &RaceReply) -> Result<(), AllocError>
    requires { MayBeToldInRace answer.now }
    ensures appended { OnOk result
        (text.new.items ≡ text.old.items ++ spaced (race_words answer.now)) }
    ensures told { OnOk result (0 < length (race_words answer.now)) }
{
    match *answer {
        RaceReply::Told(told) => append_outcome(text, &told)?,
        RaceReply::Foreign(place) => append_place(text, b"refused foreign ", place)?,
        RaceReply::Memory => text.extend_from_slice(b"refused memory")?,
    }
    Ok(())
}

/// Appends the line of a meeting that found a record of the seat's own number that the seat did not
/// put.
pub(crate) fn append_foreign(text: &mut Vec<u8>, place: usize) -> Result<(), AllocError>
    ensures { OnOk result
        (text.new.items ≡ text.old.items ++ line_of (race_words (RaceReply.Foreign place))) }
{
    append_reply(text, &RaceReply::Foreign(place))?;
    text.push(b'\n')?;
    Ok(())
}

/// Appends the line of an event's outcome.
pub(crate) fn append_race_line(
    text: &mut Vec<u8>,
    event: &ScriptLine,
    answer: &RaceReply,
) -> Result<(), AllocError>
    requires { MayBeToldInRace answer.now }
    ensures { OnOk result (text.new.items ≡ text.old.items ++ race_line event.now answer.now) }
{
    append_number(text, event.line)?;
    text.push(b' ')?;
    append_number(text, event.seat as usize)?;
    text.push(b' ')?;
    append_reply(text, answer)?;
    text.push(b'\n')?;
    Ok(())
}
