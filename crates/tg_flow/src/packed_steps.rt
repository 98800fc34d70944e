//! A step in eight bytes.
ghost use Rattle.std.specs.Prelude.{◌≡◌, Some, IfSome};
ghost use Rattle.tg_flow.specs.PackedSteps.{no_step, side_number, step_of};

use crate::edges::Side;
use crate::ways::Step;

// So many numbers of edges there are that a step can have.
const NUMBERS: usize = 1 << 30;

impl Side {
    fn number(self) -> u32
        ensures { result ≡ side_number self }
    {
        match self {
            Side::Source => 1,
            Side::Target => 2,
        }
    }
}

/// A step, or that there is none.
#[derive(Clone, Copy)]
pub struct PackedStep {
    // The number of the edge, and behind it two bits for the side: 0 where there is no step.
    code: u32,
    level: u16,
}

impl PackedStep {
    /// No step.
    pub fn none() -> PackedStep
        ensures { result ≡ no_step }
    {
        PackedStep { code: 0, level: 0 }
    }

    /// A step, packed; none where the number of its edge is 2^30 or more.
    pub fn new(step: Step) -> Option<PackedStep>
        ensures { IfSome result (λ packed. step_of packed ≡ Some step) }
    {
        if step.number >= NUMBERS {
            return None;
        }
        Some(PackedStep {
            code: step.number as u32 * 4 + step.side.number(),
            level: step.level,
        })
    }

    /// The step; none where there is none.
    pub fn step(&self) -> Option<Step>
        ensures { result ≡ step_of self.now }
    {
        let side = match self.code % 4 {
            0 => return None,
            1 => Side::Source,
            _ => Side::Target,
        };
        Some(Step {
            number: (self.code / 4) as usize,
            side,
            level: self.level,
        })
    }
}
