//! What seats are told.
use crate::deeds::Deed;
use crate::letters::name;
use tg_graph::{Refusal, Reply};
use tg_hall::{HallFault, HallReply};

/// What a seat is told. Vertices are named as in a `Deed`.
#[derive(Clone, Copy)]
pub enum Word {
    /// The session was opened, or given up.
    Done,
    Nothing,
    Learned(usize),
    Put(usize),
    /// The rule was carried out.
    Did,
    Yes,
    No,
    Unknown(u8),
    Full,
    NoSeat,
    AlreadyOpen,
    NotOpen,
    Changed(usize, u8),
    Crowded(usize),
    JournalFull,
}

/// The number of a seat, what it does, and what it is told.
pub type Row = (u32, Deed, Word);

// The reply to a step that a word is.
fn said(word: Word) -> Option<Reply> {
    match word {
        Word::Did => Some(Reply::Done),
        Word::Yes => Some(Reply::Yes),
        Word::No => Some(Reply::No),
        Word::Unknown(letter) => Some(Reply::Refused(Refusal::Unknown(name(letter)?))),
        Word::Full => Some(Reply::Refused(Refusal::Full)),
        _ => None,
    }
}

// The refusal of an event that a word is.
fn fault_of(word: Word) -> Option<HallFault> {
    match word {
        Word::NoSeat => Some(HallFault::NoSeat),
        Word::AlreadyOpen => Some(HallFault::AlreadyOpen),
        Word::NotOpen => Some(HallFault::NotOpen),
        Word::Changed(place, letter) => {
            let name = name(letter)?;
            Some(HallFault::Changed { place, name })
        }
        Word::Crowded(place) => Some(HallFault::Crowded { place }),
        Word::JournalFull => Some(HallFault::JournalFull),
        _ => None,
    }
}

// The reply that a word is.
fn reply_of(word: Word) -> Option<HallReply> {
    if let Some(reply) = said(word) {
        return Some(HallReply::Said(reply));
    }
    if let Some(fault) = fault_of(word) {
        return Some(HallReply::Refused(fault));
    }
    match word {
        Word::Done => Some(HallReply::Done),
        Word::Nothing => Some(HallReply::Nothing),
        Word::Learned(place) => Some(HallReply::Learned(place)),
        Word::Put(place) => Some(HallReply::Put(place)),
        _ => None,
    }
}

/// Whether the word stands for the reply.
pub fn is_reply(word: Word, reply: HallReply) -> bool {
    match reply_of(word) {
        Some(wanted) => reply == wanted,
        None => false,
    }
}
