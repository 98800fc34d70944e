//! What seats do.
ghost use Rattle.std.specs.Prelude.{IfSome};
ghost use Rattle.tg_graph.specs.Rules.{rights_of};
ghost use Rattle.tg_names.specs.Sets.{IsNamed};
ghost use Rattle.tg_graph.specs.StepWords.{IsStageableAct, IsNamedStep};
ghost use Rattle.tg_hall.specs.Worlds.{IsStageable};

use crate::letters::name;
use tg_graph::{Act, Right, Rights, Rule, Step};
use tg_hall::Event;

/// What a seat does. A vertex is named by its letter, and one of `_0` to `_9` by the digit.
#[derive(Clone, Copy)]
pub enum Deed {
    Begin,
    Commit,
    Abort,
    /// An event and no act: to take in the next record.
    Learn,
    /// An event and no act: to put the session, or to take in the next record.
    PutOnce,
    Take([u8; 3], &'static [u8]),
    Create([u8; 2], &'static [u8]),
    Remove([u8; 2], &'static [u8]),
    Holds(Right, [u8; 2]),
    Share(Right, [u8; 2]),
}

// The rule that a deed asks for.
fn rule_of(deed: Deed) -> Option<Rule>
    ensures { IfSome result (λ rule. IsNamed (rights_of rule)) }
{
    match deed {
        Deed::Take(names, letters) => {
            let [x, y, z] = names;
            let (x, y, z) = (name(x)?, name(y)?, name(z)?);
            let rights = Rights::from_letters(letters)?;
            Some(Rule::Take { x, y, z, rights })
        }
        Deed::Create(names, letters) => {
            let [x, n] = names;
            let (x, n) = (name(x)?, name(n)?);
            let rights = Rights::from_letters(letters)?;
            Some(Rule::Create { x, n, rights })
        }
        Deed::Remove(names, letters) => {
            let [x, y] = names;
            let (x, y) = (name(x)?, name(y)?);
            let rights = Rights::from_letters(letters)?;
            Some(Rule::Remove { x, y, rights })
        }
        _ => None,
    }
}

/// The step that a deed stages; `None` where it stages none, or what names a vertex in it is no letter and no
/// digit.
pub fn step_of(deed: Deed) -> Option<Step>
    ensures { IfSome result IsNamedStep }
{
    match deed {
        Deed::Holds(right, names) => {
            let [x, y] = names;
            let (x, y) = (name(x)?, name(y)?);
            Some(Step::Holds { right, x, y })
        }
        Deed::Share(right, names) => {
            let [x, y] = names;
            let (x, y) = (name(x)?, name(y)?);
            Some(Step::Share { right, x, y })
        }
        other => {
            let rule = rule_of(other)?;
            Some(Step::Do(rule))
        }
    }
}

/// The event that a deed of a seat is; `None` for a commit, which is several, and where `step_of` gives none.
pub fn event_of(seat: u32, deed: Deed) -> Option<Event>
    ensures { IfSome result IsStageable }
{
    match deed {
        Deed::Begin => Some(Event::Begin(seat)),
        Deed::Learn => Some(Event::Learn(seat)),
        Deed::PutOnce => Some(Event::Put(seat)),
        Deed::Abort => Some(Event::Abort(seat)),
        other => {
            let step = step_of(other)?;
            Some(Event::Stage(seat, step))
        }
    }
}

/// The act that a deed is; `None` for a deed that is an event and no act, and where `step_of` gives none.
pub fn act_of(deed: Deed) -> Option<Act>
    ensures { IfSome result IsStageableAct }
{
    match deed {
        Deed::Begin => Some(Act::Begin),
        Deed::Commit => Some(Act::Commit),
        Deed::Abort => Some(Act::Abort),
        other => {
            let step = step_of(other)?;
            Some(Act::Stage(step))
        }
    }
}
