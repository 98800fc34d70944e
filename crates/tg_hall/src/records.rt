//! Committed sessions.
ghost use Rattle.std.specs.Prelude.{◌≡◌, IfOk};

use crate::answers::Steps;
use std::alloc::AllocError;
use tg_journal::Entry;

/// One committed session.
#[derive(PartialEq, Eq, Drop)]
pub struct Record {
    /// The number of its seat, from 1.
    pub seat: u32,
    /// How many sessions its seat had committed before.
    pub number: usize,
    /// Its steps with their replies.
    pub steps: Steps,
}

impl Entry for Record {
    ghost seat_of = { λ r. r.seat };

    fn seat(&self) -> u32 {
        self.seat
    }

    fn copy(&self) -> Result<Record, AllocError> {
        Ok(Record {
            seat: self.seat,
            number: self.number,
            steps: self.steps.copy()?,
        })
    }

    ghost use Rattle.tg_hall.specs.Sameness.{record_same};

    ghost same = { record_same };
}
