//! Steps on a draft over a graph.
ghost use Rattle.std.specs.Prelude.{◌≡◌, All, IfOk, OnOk, OnErr, is_some, is_none, Some, None, false, if◌then◌else◌};
ghost use Rattle.tg_names.specs.Sets.{IsNamed};
ghost use Rattle.tg_graph.specs.Rules.{rights_of};
ghost use Rattle.tg_graph.specs.GraphOf.{graph_of};
ghost use Rattle.tg_graph.specs.Drafts.{laid_over, Fits, IsDraft};
ghost use Rattle.tg_graph.specs.StepWords.{IsNamedStep};
ghost use Rattle.tg_hall.specs.Histories.{replay};
ghost use Rattle.tg_hall.specs.Answers.{lack_of_room, session_refusal, IsAnswer, unknown_of_two, after_step, after_steps};
ghost use Rattle.tg_hall.specs.Touches.{step_writes};
ghost use Rattle.tg_hall.specs.Trails.{LeadsBy, vertices_at};
ghost use Rattle.tg_hall.specs.Drafted.{drafted, GainsRows, IsDraftOf};
ghost use Rattle.tg_hall.specs.Knowing.{IsKnown, knows_any};

use crate::answers::Answered;
use crate::knowing::Known;
use crate::records::Record;
use std::alloc::{AllocError, Global};
use tg_graph::{Draft, Graph, MOST_VERTICES, Name, Refusal, Reply, Right, Rule, RuleFault, Step};

// Whether the rule would create a vertex for which there is no room.
fn lacks_room(base: &Graph, draft: &Draft, rule: &Rule) -> bool
    requires { Fits base.now draft.now }
    ensures { result ≡ is_some (lack_of_room (drafted base.now draft.now) rule.now) }
{
    match *rule {
        Rule::Create { .. } => base.len().saturating_add(draft.created()) >= MOST_VERTICES,
        Rule::Take { .. } | Rule::Grant { .. } | Rule::Remove { .. } => false,
    }
}

// The refusal of a rule for which there is no room.
fn refused(base: &Graph, draft: &Draft, rule: &Rule) -> Refusal
    requires fits { Fits base.now draft.now }
    requires named { IsNamed (rights_of rule.now) }
    requires full { lack_of_room (drafted base.now draft.now) rule.now ≡ Some Refusal.Full }
    ensures { session_refusal (drafted base.now draft.now) rule.now ≡ Some result }
{
    match draft.check(base, rule) {
        Err(refusal) => refusal,
        Ok(()) => Refusal::Full,
    }
}

/// Carries out a rule in a session. An error changes nothing, and comes only where the rule is not refused.
pub fn carry_out(base: &Graph, draft: &mut Draft, rule: &Rule) -> Result<Reply, AllocError>
    requires fits { Fits base.now draft.old }
    requires named { IsNamed (rights_of rule.now) }
    ensures reply { IfOk result
        (λ reply. IsAnswer (drafted base.now draft.old) (Step.Do rule.now) reply) }
    ensures after { OnOk result
        (drafted base.now draft.new ≡ after_step (drafted base.now draft.old) (Step.Do rule.now)) }
    ensures rows { OnOk result
        (GainsRows draft.old (step_writes (drafted base.now draft.old) (Step.Do rule.now))
        draft.new) }
    ensures err { OnErr result (draft.new ≡ draft.old) }
    ensures due { OnErr result (session_refusal (drafted base.now draft.old) rule.now ≡ None) }
    ensures kept { IfOk result (λ reply. (reply ≡ Reply.Done → ⊥) → draft.new ≡ draft.old) }
    ensures fits { Fits base.now draft.new }
{
    if lacks_room(base, draft, rule) {
        return Ok(Reply::Refused(refused(base, draft, rule)));
    }
    match draft.apply(base, rule) {
        Ok(()) => Ok(Reply::Done),
        Err(RuleFault::Refused(refusal)) => Ok(Reply::Refused(refusal)),
        Err(RuleFault::Memory) => Err(AllocError),
    }
}

// The first of the two names that is no vertex.
fn unknown_of_two(base: &Graph, draft: &Draft, x: Name, y: Name) -> Option<Refusal>
    requires { Fits base.now draft.now }
    ensures { result ≡ unknown_of_two (drafted base.now draft.now) x y }
{
    if !draft.known(base, x) {
        return Some(Refusal::Unknown(x));
    }
    if !draft.known(base, y) {
        return Some(Refusal::Unknown(y));
    }
    None
}

// Answers whether x has a right over y.
fn answer_holds(base: &Graph, draft: &Draft, right: Right, x: Name, y: Name) -> Reply
    requires { Fits base.now draft.now }
    ensures { IsAnswer (drafted base.now draft.now) (Step.Holds right x y) result }
{
    match unknown_of_two(base, draft, x, y) {
        Some(refusal) => Reply::Refused(refusal),
        None => {
            if draft.holds(base, x, right, y) {
                Reply::Yes
            } else {
                Reply::No
            }
        }
    }
}

// Answers whether x can come to have a right over y. Where x has it, a look is enough; else what is known
// of the draft serves for it. An error leaves nothing known.
fn answer_share(
    alloc: Global,
    base: &Graph,
    draft: &Draft,
    known: &mut Known,
    right: Right,
    x: Name,
    y: Name,
) -> Result<Reply, AllocError>
    requires fits { Fits base.now draft.now }
    requires known { IsKnown base.now draft.now known.old }
    ensures reply { IfOk result
        (λ reply. IsAnswer (drafted base.now draft.now) (Step.Share right x y) reply) }
    ensures known { IsKnown base.now draft.now known.new }
    ensures unknown { OnErr result (knows_any known.new ≡ false) }
{
    if let Some(refusal) = unknown_of_two(base, draft, x, y) {
        return Ok(Reply::Refused(refusal));
    }
    let has_it = draft.holds(base, x, right, y);
    if has_it {
        return Ok(Reply::Yes);
    }
    known.reply(alloc, base, draft, right, x, y)
}

// Whether the rule is carried out.
fn is_accepted(base: &Graph, draft: &Draft, rule: &Rule) -> bool
    requires fits { Fits base.now draft.now }
    requires named { IsNamed (rights_of rule.now) }
    ensures { result ≡ is_none (session_refusal (drafted base.now draft.now) rule.now) }
{
    draft.check(base, rule).is_ok() && !lacks_room(base, draft, rule)
}

// Gives up what is known of the draft before a rule is carried out, so that no memory is kept from it.
fn make_way(base: &Graph, draft: &Draft, known: &mut Known, rule: &Rule)
    requires fits { Fits base.now draft.now }
    requires named { IsNamed (rights_of rule.now) }
    requires known { IsKnown base.now draft.now known.old }
    ensures known { IsKnown base.now draft.now known.new }
    ensures way { session_refusal (drafted base.now draft.now) rule.now ≡ None → knows_any known.new ≡ false }
{
    if known.knows_any() && is_accepted(base, draft, rule) {
        known.give_up();
    }
}

// Carries out a rule, for which way was made. What was known of the draft is no longer known where the rule
// changes it.
fn carry_out_known(
    base: &Graph,
    draft: &mut Draft,
    known: &mut Known,
    rule: &Rule,
) -> Result<Reply, AllocError>
    requires fits { Fits base.now draft.old }
    requires named { IsNamed (rights_of rule.now) }
    requires known { IsKnown base.now draft.old known.old }
    requires way { session_refusal (drafted base.now draft.old) rule.now ≡ None → knows_any known.old ≡ false }
    ensures reply { IfOk result
        (λ reply. IsAnswer (drafted base.now draft.old) (Step.Do rule.now) reply) }
    ensures after { OnOk result
        (drafted base.now draft.new ≡ after_step (drafted base.now draft.old) (Step.Do rule.now)) }
    ensures rows { OnOk result
        (GainsRows draft.old (step_writes (drafted base.now draft.old) (Step.Do rule.now))
        draft.new) }
    ensures err { OnErr result (draft.new ≡ draft.old) }
    ensures fits { Fits base.now draft.new }
    ensures known { IsKnown base.now draft.new known.new }
    ensures unknown { OnErr result (knows_any known.new ≡ false) }
{
    let reply = carry_out(base, draft, rule)?;
    if let Reply::Done = reply {
        known.forget();
    }
    Ok(reply)
}

/// Answers a step, and carries it out. An error changes nothing, but leaves nothing known of the draft.
pub fn answer(
    alloc: Global,
    base: &Graph,
    draft: &mut Draft,
    known: &mut Known,
    step: &Step,
) -> Result<Reply, AllocError>
    requires fits { Fits base.now draft.old }
    requires named { IsNamedStep step.now }
    requires known { IsKnown base.now draft.old known.old }
    ensures reply { IfOk result (λ reply. IsAnswer (drafted base.now draft.old) step.now reply) }
    ensures after { OnOk result
        (drafted base.now draft.new ≡ after_step (drafted base.now draft.old) step.now) }
    ensures rows { OnOk result
        (GainsRows draft.old (step_writes (drafted base.now draft.old) step.now) draft.new) }
    ensures err { OnErr result (draft.new ≡ draft.old) }
    ensures fits { Fits base.now draft.new }
    ensures known { IsKnown base.now draft.new known.new }
    ensures unknown { OnErr result (knows_any known.new ≡ false) }
{
    match *step {
        Step::Do(rule) => {
            make_way(base, draft, known, &rule);
            carry_out_known(base, draft, known, &rule)
        }
        Step::Holds { right, x, y } => Ok(answer_holds(base, draft, right, x, y)),
        Step::Share { right, x, y } => answer_share(alloc, base, draft, known, right, x, y),
    }
}

// Lays a step on a draft again.
fn lay(base: &Graph, draft: &mut Draft, step: &Step) -> Result<(), AllocError>
    requires fits { Fits base.now draft.old }
    requires named { IsNamedStep step.now }
    ensures after { OnOk result
        (drafted base.now draft.new ≡ after_step (drafted base.now draft.old) step.now) }
    ensures rows { OnOk result
        (GainsRows draft.old (step_writes (drafted base.now draft.old) step.now) draft.new) }
    ensures fits { Fits base.now draft.new }
{
    match *step {
        Step::Do(rule) => {
            if carry_out(base, draft, &rule).is_err() {
                return Err(AllocError);
            }
            Ok(())
        }
        Step::Holds { .. } | Step::Share { .. } => Ok(()),
    }
}

/// The draft that steps make over a graph.
pub fn with_steps(base: &Graph, steps: &[Answered]) -> Result<Draft, AllocError>
    requires { All (λ a. IsNamedStep a.step) steps.now }
    ensures { IfOk result (IsDraftOf base.now steps.now) }
{
    let mut draft = base.draft();
    for answered in steps {
        lay(base, &mut draft, &answered.step)?;
    }
    // `created` says that it is a draft
    let _ = draft.created();
    Ok(draft)
}

/// Takes the changes of a draft in. An error changes nothing, and the draft is given up.
pub fn merge(graph: &mut Graph, draft: Draft) -> Result<(), AllocError>
    requires { Fits graph.old draft }
    ensures merged { OnOk result (graph.new ≡ laid_over graph.old draft) }
    ensures err { OnErr result (graph.new ≡ graph.old) }
{
    match graph.merge(draft) {
        Ok(()) => Ok(()),
        Err(_draft) => Err(AllocError),
    }
}

/// Brings a graph to where another stands, to which the vertices at the positions lead from it. An
/// error changes nothing.
pub fn take_over(graph: &mut Graph, source: &Graph, positions: &[usize]) -> Result<(), AllocError>
    requires { LeadsBy (graph_of graph.old) (vertices_at (graph_of source.now) positions.now)
        (graph_of source.now) }
    ensures graph { OnOk result (graph_of graph.new ≡ graph_of source.now) }
    ensures err { OnErr result (graph.new ≡ graph.old) }
{
    // no vertex stands twice in the source: this `len` says
    let _ = source.len();
    graph.take_over(source, positions)?;
    Ok(())
}

/// Lays steps on a graph again. An error changes nothing.
pub fn lay_all(graph: &mut Graph, steps: &[Answered]) -> Result<(), AllocError>
    requires { All (λ a. IsNamedStep a.step) steps.now }
    ensures graph { OnOk result (graph_of graph.new ≡ after_steps (graph_of graph.old) steps.now) }
    ensures err { OnErr result (graph.new ≡ graph.old) }
{
    let draft = with_steps(graph, steps)?;
    merge(graph, draft)?;
    Ok(())
}

/// The graph after all records.
pub fn replayed(opening: &Graph, records: &[Record]) -> Result<Graph, AllocError>
    ensures { IfOk result (λ graph. graph_of graph ≡ replay (graph_of opening.now) records.now) }
{
    let mut graph = opening.copy()?;
    for record in records {
        lay_all(&mut graph, record.steps.as_slice())?;
    }
    Ok(graph)
}
