//! The steps of sessions.
ghost use Rattle.std.specs.Prelude.{◌≡◌};
ghost use Rattle.tg_graph.specs.StepWords.{IsNamedStep};

use crate::chance::Chance;
use crate::texts::any;
use tg_graph::{Name, Right, Rights, Rule, Step};

/// What steps are made.
#[derive(Clone, Copy, PartialEq, Eq)]
pub(crate) enum Steps {
    /// Rules, and whether a right is held.
    Changes,
    /// Mostly whether a right can be shared.
    Questions,
}

// Any right.
fn right(chance: &mut Chance) -> Right {
    let rights = [Right::T, Right::G, Right::R, Right::W, Right::E];
    chance.one_of(&rights, Right::R)
}

// Any rule.
fn rule(names: &[Name], chance: &mut Chance) -> Step
    ensures { IsNamedStep result }
{
    let x = any(names, chance);
    let y = any(names, chance);
    let z = any(names, chance);
    let rights = Rights::of(right(chance));
    match chance.below(8) {
        0 => Step::Do(Rule::Take { x, y, z, rights }),
        1 => Step::Do(Rule::Grant { x, y, z, rights }),
        2 => {
            let n = Name::helper(u32::try_from(chance.below(1 << 20)).unwrap_or(0));
            Step::Do(Rule::Create { x, n, rights })
        }
        _ => Step::Do(Rule::Remove { x, y, rights }),
    }
}

// Any question whether a right can be shared.
fn question(names: &[Name], chance: &mut Chance) -> Step
    ensures { IsNamedStep result }
{
    let x = any(names, chance);
    let y = any(names, chance);
    let right = right(chance);
    Step::Share { right, x, y }
}

// Any question whether a right is held.
fn held(names: &[Name], chance: &mut Chance) -> Step
    ensures { IsNamedStep result }
{
    let x = any(names, chance);
    let y = any(names, chance);
    let right = right(chance);
    Step::Holds { right, x, y }
}

/// Any step.
pub(crate) fn step(steps: Steps, names: &[Name], chance: &mut Chance) -> Step
    ensures { IsNamedStep result }
{
    match steps {
        Steps::Changes => match chance.below(3) {
            0 => held(names, chance),
            _ => rule(names, chance),
        },
        Steps::Questions => match chance.below(6) {
            0 => rule(names, chance),
            _ => question(names, chance),
        },
    }
}
