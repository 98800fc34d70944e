//! The names that a session touches, and the records that stand in its way.
ghost use Rattle.std.specs.Prelude.{◌≡◌, ◌↔◌, ◌∷◌, [], IsTrue, None, count_by, find};
ghost use Rattle.std.specs.List.{list_any};
ghost use Rattle.tg_graph.specs.GraphOf.{graph_of};
ghost use Rattle.tg_hall.specs.Answers.{AreAnswers};
ghost use Rattle.tg_hall.specs.Touches.{step_touches, reply_touches, touches, spoiler, IsCrowded};
ghost use Rattle.tg_hall.specs.Told.{is_done, told_writes, all_told_writes, tells_creation, tells_change};

use crate::answers::Answered;
use tg_graph::{Graph, MOST_VERTICES, Name, Refusal, Reply, Rule, Step};

// Whether a step touches a name, accepted or refused.
fn step_touches(step: &Step, name: Name) -> bool
    ensures { result ≡ step_touches step.now name }
{
    match *step {
        Step::Do(Rule::Take { x, y, .. }) => name == x || name == y,
        Step::Do(Rule::Grant { x, y, .. }) => name == x || name == y,
        Step::Do(Rule::Create { x, n, .. }) => name == x || name == n,
        Step::Do(Rule::Remove { x, .. }) => name == x,
        Step::Holds { x, .. } => name == x,
        Step::Share { .. } => true,
    }
}

// Whether a reply touches a name: the one that it says is no vertex.
fn reply_touches(reply: &Reply, name: Name) -> bool
    ensures { result ≡ reply_touches reply.now name }
{
    match *reply {
        Reply::Refused(Refusal::Unknown(unknown)) => name == unknown,
        _ => false,
    }
}

/// Whether a session with these steps touches a name.
pub fn touches(session: &[Answered], name: Name) -> bool
    ensures { result ≡ touches session.now name }
{
    session.iter().any(|answered| step_touches(&answered.step, name)
        || reply_touches(&answered.reply, name))
}

// The name, if the session touches it.
fn touched(session: &[Answered], name: Name) -> Option<Name>
    ensures { result ≡ find (touches session.now) (name ∷ []) }
{
    if touches(session, name) {
        Some(name)
    } else {
        None
    }
}

fn is_done(reply: &Reply) -> bool
    ensures { result ≡ is_done reply.now }
{
    match *reply {
        Reply::Done => true,
        Reply::Yes | Reply::No | Reply::Refused(_) => false,
    }
}

/// The first name that one true answer tells was written and that the session touches.
pub fn spoiler_in(answered: &Answered, session: &[Answered]) -> Option<Name>
    ensures { result ≡ find (touches session.now)
        (told_writes answered.now.step answered.now.reply) }
{
    if !is_done(&answered.reply) {
        return None;
    }
    match answered.step {
        Step::Do(Rule::Take { x, .. }) => touched(session, x),
        Step::Do(Rule::Grant { y, .. }) => touched(session, y),
        Step::Do(Rule::Create { x, n, .. }) => match touched(session, x) {
            Some(name) => Some(name),
            None => touched(session, n),
        },
        Step::Do(Rule::Remove { x, .. }) => touched(session, x),
        Step::Holds { .. } | Step::Share { .. } => None,
    }
}

// The first name that true answers tell was written and that the session touches.
fn told_spoiler(committed: &[Answered], session: &[Answered]) -> Option<Name>
    ensures { result ≡ find (touches session.now) (all_told_writes committed.now) }
{
    for answered in committed {
        if let Some(name) = spoiler_in(answered, session) {
            return Some(name);
        }
    }
    None
}

/// The first name that a record wrote and that the session touches.
pub fn spoiler(graph: &Graph, committed: &[Answered], session: &[Answered]) -> Option<Name>
    requires { AreAnswers (graph_of graph.now) committed.now }
    ensures { result ≡ spoiler (graph_of graph.now) committed.now session.now }
{
    // the replies tell what was written; only the contract speaks of the graph
    let _ = graph;
    told_spoiler(committed, session)
}

fn tells_creation(answered: &Answered) -> bool
    ensures { result ≡ tells_creation answered.now }
{
    match answered.step {
        Step::Do(Rule::Create { .. }) => is_done(&answered.reply),
        _ => false,
    }
}

fn tells_change(answered: &Answered) -> bool
    ensures { result ≡ tells_change answered.now }
{
    match answered.step {
        Step::Do(_) => is_done(&answered.reply),
        Step::Holds { .. } | Step::Share { .. } => false,
    }
}

/// How many vertices true answers tell were created.
pub fn creation_count(steps: &[Answered]) -> usize
    ensures { result ≡ count_by tells_creation steps.now }
{
    steps
        .iter()
        .filter(|answered| tells_creation(answered))
        .count()
}

/// Whether true answers tell that a rule was carried out.
pub fn has_change(steps: &[Answered]) -> bool
    ensures { result ≡ list_any tells_change steps.now }
{
    steps.iter().any(|answered| tells_change(answered))
}

/// Whether the vertices after a record, together with those that the session creates, are too many.
pub fn crowds(graph: &Graph, committed: &[Answered], session: &[Answered]) -> bool
    requires committed { AreAnswers (graph_of graph.now) committed.now }
    requires session { AreAnswers (graph_of graph.now) session.now }
    requires apart { spoiler (graph_of graph.now) committed.now session.now ≡ None }
    ensures { IsTrue result ↔ IsCrowded (graph_of graph.now) committed.now session.now }
{
    let created = creation_count(committed).saturating_add(creation_count(session));
    graph.len().saturating_add(created) > MOST_VERTICES
}
