//! The steps of a session, each with its reply.
ghost use Rattle.std.specs.Prelude.{◌≡◌, All, IfOk};
ghost use Rattle.tg_graph.specs.StepWords.{IsNamedStep};

use std::alloc::AllocError;
use std::marker::Model;
use tg_graph::{Reply, Step};

/// A step and the reply to it.
#[derive(Clone, Copy, PartialEq, Eq, Debug)]
pub struct Answered {
    /// What was asked.
    pub step: Step,
    /// What was answered.
    pub reply: Reply,
}

impl Answered {
    /// The step with the reply to it.
    pub fn new(step: Step, reply: Reply) -> Answered
        ensures { result ≡ record { step = step; reply = reply } }
    {
        Answered { step, reply }
    }
}

/// The steps of a session in their order, each with its reply.
#[derive(Drop)]
pub struct Steps {
    kept: Vec<Answered>,
}

impl Model for Steps {
    ghost use Rattle.std.specs.Prelude.{List, All};
    ghost use Rattle.tg_hall.specs.declared.answers.Answered.{Answered};
    ghost use Rattle.tg_graph.specs.StepWords.{IsNamedStep};

    ghost Value = { List Answered };

    ghost view = { λ s. s.kept.items };

    ghost invariant = { λ s. All (λ a. IsNamedStep a.step) s.kept.items };
}

impl PartialEq for Steps {
    ghost use Rattle.std.specs.Cmp.Lexicographic.{pointwise, lists_per};
    ghost use Rattle.tg_hall.specs.contracts.answers.AnsweredPartialEq.TheImpl.Laws.{laws-law};

    ghost eq = { pointwise ⟦<Answered as PartialEq>⟧.eq };

    ghost laws = { lists_per laws-law };

    fn eq(&self, other: &Steps) -> bool {
        self.as_slice() == other.as_slice()
    }
}

impl Eq for Steps {
    ghost use Rattle.std.specs.Cmp.Lexicographic.{lists_equiv};
    ghost use Rattle.tg_hall.specs.contracts.answers.AnsweredEq.TheImpl.Laws.{laws-law};

    ghost laws = { lists_equiv laws-law };
}

impl Steps {
    /// The steps in their order.
    pub fn as_slice(&self) -> &[Answered]
        ensures value { result.now ≡ self.now }
        ensures named { All (λ a. IsNamedStep a.step) self.now }
    {
        self.kept.as_slice()
    }

    /// The same steps, of which each names only rights.
    pub fn from_vec(kept: Vec<Answered>) -> Steps
        requires { All (λ a. IsNamedStep a.step) kept.items }
        ensures { result ≡ kept.items }
    {
        Steps { kept }
    }

    /// The steps as a list that can grow.
    pub fn into_vec(self) -> Vec<Answered>
        ensures value { result.items ≡ self }
        ensures named { All (λ a. IsNamedStep a.step) result.items }
    {
        self.kept
    }

    /// The same steps once more.
    pub fn copy(&self) -> Result<Steps, AllocError>
        ensures { IfOk result (λ copy. copy ≡ self.now) }
    {
        Ok(Steps {
            kept: self.kept.clone()?,
        })
    }
}
