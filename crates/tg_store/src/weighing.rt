//! A record that a session comes upon, of which it is not known whether it is true.
ghost use Rattle.std.specs.Prelude.{◌≡◌, ◌↔◌, ◌<◌, ◌+◌, All, IsTrue, IfOk, OnOk, None, find, [], length, count_by};
ghost use Rattle.tg_graph.specs.Drafts.{Fits};
ghost use Rattle.tg_graph.specs.GraphOf.{graph_of};
ghost use Rattle.tg_graph.specs.Limits.{most_vertices};
ghost use Rattle.tg_graph.specs.StepWords.{IsNamedStep};
ghost use Rattle.tg_hall.specs.Answers.{AreAnswers, after_step};
ghost use Rattle.tg_hall.specs.Drafted.{drafted, GainsRows, IsDraftOf};
ghost use Rattle.tg_hall.specs.Touches.{touches, step_writes, spoiler};
ghost use Rattle.tg_hall.specs.Told.{tells_creation};
ghost use Rattle.tg_store.specs.Weighing.{Weighs};

use crate::outcomes::CommitFault;
use std::alloc::AllocError;
use tg_graph::{Draft, Graph, MOST_VERTICES, Name, Step};
use tg_hall::Answered;

/// What a record is to a session.
#[derive(Drop)]
pub enum Weighed {
    /// It leaves the session as it is, and this is its draft.
    Clear(Draft),
    /// It ends the session.
    Ends(CommitFault),
}

// Lays a step on a draft, and says the first name that it writes and that the session touches.
fn lay_watched(
    base: &Graph,
    draft: &mut Draft,
    step: &Step,
    session: &[Answered],
) -> Result<Option<Name>, AllocError>
    requires fits { Fits base.now draft.old }
    requires named { IsNamedStep step.now }
    ensures laid { OnOk result
        (drafted base.now draft.new ≡ after_step (drafted base.now draft.old) step.now) }
    ensures rows { OnOk result
        (GainsRows draft.old (step_writes (drafted base.now draft.old) step.now) draft.new) }
    ensures fits { Fits base.now draft.new }
    ensures name { IfOk result
        (λ name. name ≡ find (touches session.now)
        (step_writes (drafted base.now draft.old) step.now)) }
{
    match *step {
        Step::Do(rule) => {
            let reply = tg_hall::carry_out(base, draft, &rule)?;
            Ok(tg_hall::spoiler_in(&Answered::new(*step, reply), session))
        }
        Step::Holds { .. } | Step::Share { .. } => Ok(None),
    }
}

// Lays steps on a draft that is empty, and says the first name that they write and that the session
// touches. There it stops.
fn lay_all_watched(
    base: &Graph,
    draft: &mut Draft,
    committed: &[Answered],
    session: &[Answered],
) -> Result<Option<Name>, AllocError>
    requires empty { draft.old ≡ ([], []) }
    requires named { All (λ a. IsNamedStep a.step) committed.now }
    ensures name { IfOk result
        (λ name. name ≡ spoiler (graph_of base.now) committed.now session.now) }
    ensures drawn { IfOk result (λ name. name ≡ None → IsDraftOf base.now committed.now draft.new) }
{
    for answered in committed {
        let name = lay_watched(base, draft, &answered.step, session)?;
        if name.is_some() {
            return Ok(name);
        }
    }
    // `created` says that it is a draft
    let _ = draft.created();
    Ok(None)
}

// Whether what a draft makes of a graph has too many vertices, together with those that the session
// creates.
fn overfills(base: &Graph, draft: &Draft, session: &[Answered]) -> bool
    requires { Fits base.now draft.now }
    ensures { IsTrue result ↔
        (most_vertices < length (drafted base.now draft.now).vertices + count_by tells_creation session.now) }
{
    base.len()
        .saturating_add(draft.created())
        .saturating_add(tg_hall::creation_count(session))
        > MOST_VERTICES
}

/// What a record with these committed steps, at this place, is to a session.
pub fn weigh(
    base: &Graph,
    place: usize,
    committed: &[Answered],
    session: &[Answered],
) -> Result<Weighed, AllocError>
    requires named { All (λ a. IsNamedStep a.step) committed.now }
    requires session { AreAnswers (graph_of base.now) session.now }
    ensures { IfOk result (Weighs base.now place committed.now session.now) }
{
    // its contract says that no vertex is there twice
    let _ = base.len();
    let mut draft = base.draft();
    if let Some(name) = lay_all_watched(base, &mut draft, committed, session)? {
        return Ok(Weighed::Ends(CommitFault::Changed { place, name }));
    }
    if overfills(base, &draft, session) {
        return Ok(Weighed::Ends(CommitFault::Crowded { place }));
    }
    Ok(Weighed::Clear(draft))
}
