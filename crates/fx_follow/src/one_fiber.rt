//! Follows one fiber along its trace.
ghost use Rattle.std.specs.Prelude.{◌≡◌, ◌≢◌, ℕ, true, false, Option, Some, IfOk, IfSome};
ghost use Rattle.std.specs.Bool.{OnTrue};
ghost use Rattle.fx_term.specs.declared.outcome.Outcome.{Outcome};
ghost use Rattle.fx_term.specs.Stamped.{events_in};
ghost use Rattle.fx_text.specs.View.{meaning};
ghost use Rattle.fx_model.specs.Origin.{Origin};
ghost use Rattle.fx_model.specs.Outside.{Outside, can_step};
ghost use Rattle.fx_model.specs.Report.{final_outside, is_requested_in};
ghost use Rattle.fx_model.specs.Step.{has_ended};
ghost use Rattle.fx_report.specs.Script.{script_of};
ghost use Rattle.fx_fiber.specs.Fiber.{progress, IsAtFirst};
ghost use Rattle.fx_explore.specs.AnswerCalls.{outcome_told};
ghost use Rattle.fx_follow.specs.Trails.{IsTrail, IsWhole};
ghost use Rattle.fx_follow.specs.declared.one_fiber.Advanced.TheVariants.{IsBlocked};

use crate::budget::Budget;
use crate::ending::{has_come, is_requested};
use crate::expecting::expect;
use crate::trail::Trail;
use fx_explore::{AnswerPort, Answers};
use fx_fiber::Fiber;
use fx_model::{FiberReport, Report, State};
use fx_term::{Code, CodeBrand, Event, Memory, Stamped};
use fx_text::Script;
use std::alloc::Global;

/// How many places at which a fiber may have seen its request are tried: first that at which it waits, if it comes to one.
const MOST_TRIES: u32 = 4_096;

/// Whether this is the same event.
fn is_same_event(one: Event, other: Event) -> bool
    ensures { OnTrue result (one ≡ other) }
{
    one == other
}

/// Whether these are the same events.
fn are_same_events(one: &[Stamped], other: &[Stamped]) -> bool
    ensures { OnTrue result (events_in one.now ≡ events_in other.now) }
{
    if one.len() != other.len() {
        return false;
    }
    for (at, stamped) in one.iter().enumerate() {
        if !is_same_event(stamped.event, other[at].event) {
            return false;
        }
    }
    true
}

/// Whether the last event is that one of the whole trace.
fn keeps_to(shown: &[Stamped], trace: &[Stamped]) -> bool {
    match shown.len().checked_sub(1) {
        Some(last) => match (shown.get(last), trace.get(last)) {
            (Some(a), Some(b)) => a.event == b.event,
            _ => false,
        },
        None => true,
    }
}

/// What came of one more step along a trace.
#[derive(Clone, Copy)]
enum Advanced {
    /// The fiber made it, and showed what comes next, or nothing.
    Went,
    /// It made none: it has shown its whole trace, and waits for what has not come.
    IsBlocked,
    /// It showed something else, or waits though there is more to show.
    Strays,
}

/// Whether the fiber is to see its request where it stands: it shows that next, the place is open, and it would wait there or
/// show something else, or it has passed as many open places as it is to pass.
fn sees<J: CodeBrand>(
    fiber: &Fiber<AnswerPort<J>>,
    code: &Code,
    next: Event,
    passes: &mut u32,
) -> bool
    requires { code.now.nodes ≡ J.nodes }
{
    if next != Event::Seen || !fiber.is_open(code) {
        return false;
    }
    if *passes == 0 || fiber.waits_for(code).is_some() {
        return true;
    }
    *passes -= 1;
    false
}

/// Makes a step of a fiber that shows this event next in that trace.
fn advance_to<J: CodeBrand>(
    trail: &mut Trail<J>,
    code: &Code,
    trace: &[Stamped],
    next: Event,
    answers: &mut Answers,
    passes: &mut u32,
) -> Result<Advanced, Memory>
    requires code { code.now.nodes ≡ J.nodes }
    requires going { has_ended (progress J.nodes trail.old.fiber) ≡ false }
    ensures trail { IfOk result (λ _. (outcome : ℕ → Option Outcome) (b : Origin)
        → ((g : ℕ) (o : Outcome) → outcome_told answers.old g ≡ Some o → outcome g ≡ Some o)
        → IsTrail J.nodes outcome b trail.old.fiber trail.old.last_node trail.old.stands.items trail.old.children.items
        → IsTrail J.nodes outcome b trail.new.fiber trail.new.last_node trail.new.stands.items trail.new.children.items) }
    ensures goes { IfOk result (λ advanced. advanced ≢ IsBlocked) }
    ensures outcomes { IfOk result (λ _. answers.new.outcomes ≡ answers.old.outcomes) }
{
    let sees = sees(&trail.fiber, code, next, passes);
    expect(answers, Some(next), sees);
    match trail.step(code, answers)? {
        None if keeps_to(trail.fiber.trace(), trace) => Ok(Advanced::Went),
        None | Some(_) => Ok(Advanced::Strays),
    }
}

/// Makes a step of the fiber of a report that has shown its whole trace, and is requested or not.
fn advance_past<J: CodeBrand>(
    trail: &mut Trail<J>,
    script: &Script,
    report: &Report,
    reported: &FiberReport,
    answers: &mut Answers,
    is_asked: bool,
) -> Result<Advanced, Memory>
    requires code { script.now.code.nodes ≡ J.nodes }
    requires going { has_ended (progress J.nodes trail.old.fiber) ≡ false }
    requires asked { is_asked ≡ is_requested_in report.now reported.now.id }
    ensures trail { IfOk result (λ _. (outcome : ℕ → Option Outcome) (b : Origin)
        → ((g : ℕ) (o : Outcome) → outcome_told answers.old g ≡ Some o → outcome g ≡ Some o)
        → IsTrail J.nodes outcome b trail.old.fiber trail.old.last_node trail.old.stands.items trail.old.children.items
        → IsTrail J.nodes outcome b trail.new.fiber trail.new.last_node trail.new.stands.items trail.new.children.items) }
    ensures blocked { IfOk result (λ advanced. advanced ≡ IsBlocked
        → can_step (final_outside (script_of (meaning script.now)) report.now) reported.now.id
        trail.new.fiber.counts (progress J.nodes trail.new.fiber) ≡ false) }
    ensures outcomes { IfOk result (λ _. answers.new.outcomes ≡ answers.old.outcomes) }
{
    expect(answers, None, is_asked);
    match trail.step(&script.code, answers)? {
        Some(source) if !has_come(script, report, source) => Ok(Advanced::IsBlocked),
        None if keeps_to(trail.fiber.trace(), &reported.trace) => Ok(Advanced::Went),
        None | Some(_) => Ok(Advanced::Strays),
    }
}

/// Makes a step of the fiber of a report along its trace, or finds that it is blocked at the end of that.
fn advance<J: CodeBrand>(
    trail: &mut Trail<J>,
    script: &Script,
    report: &Report,
    reported: &FiberReport,
    answers: &mut Answers,
    is_asked: bool,
    passes: &mut u32,
) -> Result<Advanced, Memory>
    requires code { script.now.code.nodes ≡ J.nodes }
    requires going { has_ended (progress J.nodes trail.old.fiber) ≡ false }
    requires asked { is_asked ≡ is_requested_in report.now reported.now.id }
    ensures trail { IfOk result (λ _. (outcome : ℕ → Option Outcome) (b : Origin)
        → ((g : ℕ) (o : Outcome) → outcome_told answers.old g ≡ Some o → outcome g ≡ Some o)
        → IsTrail J.nodes outcome b trail.old.fiber trail.old.last_node trail.old.stands.items trail.old.children.items
        → IsTrail J.nodes outcome b trail.new.fiber trail.new.last_node trail.new.stands.items trail.new.children.items) }
    ensures blocked { IfOk result (λ advanced. advanced ≡ IsBlocked
        → can_step (final_outside (script_of (meaning script.now)) report.now) reported.now.id
        trail.new.fiber.counts (progress J.nodes trail.new.fiber) ≡ false) }
    ensures outcomes { IfOk result (λ _. answers.new.outcomes ≡ answers.old.outcomes) }
{
    match reported.trace.get(trail.fiber.trace().len()) {
        Some(next) => advance_to(
            trail,
            &script.code,
            &reported.trace,
            next.event,
            answers,
            passes,
        ),
        None => advance_past(trail, script, report, reported, answers, is_asked),
    }
}

/// Follows the fiber of a report from its first step on, where it sees its request, if it sees one, at an open place after so
/// many others. None where it strays from its trace, or where there are not steps enough left.
fn follow_once<J: CodeBrand>(
    alloc: Global,
    script: &Script,
    report: &Report,
    reported: &FiberReport,
    first: Fiber<AnswerPort<J>>,
    answers: &mut Answers,
    budget: &mut Budget,
    is_asked: bool,
    passes: u32,
) -> Result<Option<Trail<J>>, Memory>
    requires code { script.now.code.nodes ≡ J.nodes }
    requires asked { is_asked ≡ is_requested_in report.now reported.now.id }
    requires outcomes { (g : ℕ) (o : Outcome) → outcome_told answers.old g ≡ Some o
        → (final_outside (script_of (meaning script.now)) report.now).outcome g ≡ Some o }
    ensures whole { IfOk result (λ made. IfSome made (λ trail.
        IsWhole J.nodes (final_outside (script_of (meaning script.now)) report.now) reported.now trail.fiber)) }
    ensures trail { IfOk result (λ made. IfSome made (λ trail. (b : Origin) → IsAtFirst J.nodes b first
        → IsTrail J.nodes (final_outside (script_of (meaning script.now)) report.now).outcome b
        trail.fiber trail.last_node trail.stands.items trail.children.items)) }
    ensures outcomes { IfOk result (λ _. answers.new.outcomes ≡ answers.old.outcomes) }
{
    let mut trail = Trail::of(alloc, first);
    let mut passes = passes;
    for _step in 0..u64::MAX {
        if trail.fiber.has_ended() {
            return Ok(whole(trail, reported, false));
        }
        if !budget.take() {
            return Ok(None);
        }
        let advanced = advance(
            &mut trail,
            script,
            report,
            reported,
            answers,
            is_asked,
            &mut passes,
        )?;
        match advanced {
            Advanced::Went => {}
            Advanced::IsBlocked => return Ok(whole(trail, reported, true)),
            Advanced::Strays => return Ok(None),
        }
    }
    Ok(None)
}

/// The way of the fiber of a report, if it came to the end that is told of the fiber.
fn whole<J: CodeBrand>(
    trail: Trail<J>,
    reported: &FiberReport,
    is_blocked: bool,
) -> Option<Trail<J>>
    ensures whole { IfSome result (λ made. (o : Outside)
        → (is_blocked ≡ true → can_step o reported.now.id trail.fiber.counts (progress J.nodes trail.fiber) ≡ false)
        → IsWhole J.nodes o reported.now made.fiber) }
    ensures same { IfSome result (λ made. made ≡ trail) }
{
    let is_as_told = match reported.state {
        State::Ended => trail.fiber.has_ended(),
        State::Blocked => is_blocked && !trail.fiber.has_ended(),
    };
    if is_as_told && are_same_events(trail.fiber.trace(), &reported.trace) {
        Some(trail)
    } else {
        None
    }
}

/// Follows the fiber of a report, which is before its first step, along its trace: where it sees a request, that is tried at
/// one open place after the other. None where the trace is not found so, or where there are not steps enough left.
pub(crate) fn follow_fiber<J: CodeBrand>(
    alloc: Global,
    script: &Script,
    report: &Report,
    reported: &FiberReport,
    first: &Fiber<AnswerPort<J>>,
    answers: &mut Answers,
    budget: &mut Budget,
) -> Result<Option<Trail<J>>, Memory>
    requires code { script.now.code.nodes ≡ J.nodes }
    requires outcomes { (g : ℕ) (o : Outcome) → outcome_told answers.old g ≡ Some o
        → (final_outside (script_of (meaning script.now)) report.now).outcome g ≡ Some o }
    ensures whole { IfOk result (λ made. IfSome made (λ trail.
        IsWhole J.nodes (final_outside (script_of (meaning script.now)) report.now) reported.now trail.fiber)) }
    ensures trail { IfOk result (λ made. IfSome made (λ trail. (b : Origin) → IsAtFirst J.nodes b first.now
        → IsTrail J.nodes (final_outside (script_of (meaning script.now)) report.now).outcome b
        trail.fiber trail.last_node trail.stands.items trail.children.items)) }
    ensures outcomes { IfOk result (λ _. answers.new.outcomes ≡ answers.old.outcomes) }
{
    let is_asked = is_requested(report, reported.id);
    for tried in 0..MOST_TRIES {
        let passes = tried.checked_sub(1).unwrap_or(u32::MAX);
        let fork = first.fork(first.port().copied()?)?;
        let trail = follow_once(
            alloc, script, report, reported, fork, answers, budget, is_asked, passes,
        )?;
        if trail.is_some() {
            return Ok(trail);
        }
    }
    Ok(None)
}
