//! Follows the fibers of a report.
ghost use Rattle.std.specs.Prelude.{◌≡◌, ◌<◌, ◌++◌, ◌∷◌, [], ℕ, List, Some, map, length, IfOk, IfSome};
ghost use Rattle.std.specs.List.{HoldsAt};
ghost use Rattle.fx_term.specs.declared.outcome.Outcome.{Outcome};
ghost use Rattle.fx_text.specs.View.{meaning};
ghost use Rattle.fx_model.specs.Report.{FiberReportView, ReportView, final_outside};
ghost use Rattle.fx_report.specs.Script.{script_of};
ghost use Rattle.fx_explore.specs.AnswerCalls.{outcome_told};
ghost use Rattle.fx_follow.specs.declared.stand.Stand.{Stand as AnyStand};
ghost use Rattle.fx_follow.specs.Followed.{AreFollowed, stands_of};
ghost use Rattle.fx_follow.specs.Waiting.{IsTakenOut, IsUnderWay};

use crate::budget::Budget;
use crate::ending::outcomes_of;
use crate::expecting::answers_with;
use crate::one_fiber::follow_fiber;
use crate::stand::Stand;
use fx_explore::{AnswerPort, Answers};
use fx_fiber::{Fiber, main_begin};
use fx_model::{FiberReport, Report};
use fx_term::{CodeBrand, Memory};
use fx_text::Script;
use std::alloc::Global;
use std::marker::Brand;

/// How many steps are made at the most: some seconds of them.
const MOST_STEPS: u64 = 20_000_000;

/// The index of the fiber of this number, if it is there.
fn place_of<J: CodeBrand>(waiting: &[Fiber<AnswerPort<J>>], id: u32) -> Option<usize>
    ensures { IfSome result (λ at. (at < length waiting.now)
        × HoldsAt (λ fiber. fiber.port.number ≡ id) waiting.now at) }
{
    waiting.iter().position(|fiber| fiber.id() == id)
}

/// Takes out the fiber of this number, if it is there.
fn take_out<J: CodeBrand>(
    waiting: &mut Vec<Fiber<AnswerPort<J>>>,
    id: u32,
) -> Option<Fiber<AnswerPort<J>>>
    ensures { IfSome result (λ fiber. (fiber.port.number ≡ id) × IsTakenOut fiber waiting.old.items waiting.new.items) }
{
    let at = place_of(waiting, id)?;
    Some(waiting.remove(at))
}

/// Those that wait to be followed at first: the main fiber.
fn main_alone<J: CodeBrand>(
    alloc: Global,
    script: &Script,
) -> Result<Vec<Fiber<AnswerPort<J>>>, Memory>
    requires code { script.now.code.nodes ≡ J.nodes }
    ensures { IfOk result (λ waiting. (r : ReportView)
        → IsUnderWay J.nodes (script_of (meaning script.now)) r [] [] waiting.items) }
{
    let port: AnswerPort<J> = AnswerPort::new(alloc, 0, &main_begin(alloc, &script.code))?;
    let mut waiting = Vec::new(alloc);
    waiting.push(Fiber::new(alloc, &script.code, port)?)?;
    Ok(waiting)
}

/// Follows the next fiber of the report, which waits for that, and has those wait that it started. None where it does not
/// wait, or cannot be followed.
fn follow_next<J: CodeBrand>(
    alloc: Global,
    script: &Script,
    report: &Report,
    reported: &FiberReport,
    waiting: &mut Vec<Fiber<AnswerPort<J>>>,
    answers: &mut Answers,
    budget: &mut Budget,
) -> Result<Option<Vec<Stand>>, Memory>
    requires code { script.now.code.nodes ≡ J.nodes }
    requires outcomes { (g : ℕ) (o : Outcome) → outcome_told answers.old g ≡ Some o
        → (final_outside (script_of (meaning script.now)) report.now).outcome g ≡ Some o }
    ensures way { IfOk result (λ made. IfSome made (λ stands. (xs : List FiberReportView) (told : List (List AnyStand))
        → IsUnderWay J.nodes (script_of (meaning script.now)) report.now xs told waiting.old.items
        → IsUnderWay J.nodes (script_of (meaning script.now)) report.now (xs ++ reported.now ∷ [])
        (told ++ stands.items ∷ []) waiting.new.items)) }
    ensures outcomes { IfOk result (λ _. answers.new.outcomes ≡ answers.old.outcomes) }
{
    let Some(first) = take_out(waiting, reported.id) else {
        return Ok(None);
    };
    let followed = follow_fiber(alloc, script, report, reported, &first, answers, budget)?;
    let Some(mut trail) = followed else {
        return Ok(None);
    };
    waiting.append(&mut trail.children)?;
    Ok(Some(trail.stands))
}

/// The same of a script whose code the type names.
fn follow_named<J: CodeBrand>(
    alloc: Global,
    script: &Script,
    report: &Report,
) -> Result<Option<Vec<Vec<Stand>>>, Memory>
    requires code { script.now.code.nodes ≡ J.nodes }
    ensures { IfOk result (λ made. IfSome made (λ told. AreFollowed J.nodes (script_of (meaning script.now))
        report.now (stands_of told.items))) }
{
    let mut waiting = main_alone::<J>(alloc, script)?;
    let outcomes = outcomes_of(alloc, report, script.total())?;
    let mut answers = answers_with(alloc, outcomes, script.queues.len())?;
    let mut budget = Budget::new(MOST_STEPS);
    let mut told = Vec::with_capacity(alloc, report.fibers.len())?;
    for reported in &report.fibers {
        let next = follow_next(
            alloc,
            script,
            report,
            reported,
            &mut waiting,
            &mut answers,
            &mut budget,
        )?;
        let Some(stands) = next else {
            return Ok(None);
        };
        told.push(stands)?;
    }
    if !waiting.is_empty() {
        return Ok(None);
    }
    Ok(Some(told))
}

/// Where the fibers of a report stood before each step that showed an event of their traces, and of whose ends they learned by
/// it: fiber by fiber, in the order of the report, and event by event. It is told by runs that have these traces and ends, and
/// come to what is left: each fiber is made to step again from what it began with, and is answered what its trace says. A trace
/// does not tell at which open place a request was seen, so these are tried one after the other, and another run may have seen
/// it elsewhere. None where no such run is found, for which 20,000,000 steps are made at the most. One that is found says
/// nothing of queues: it may be there for a report that is not lawful, too.
pub fn follow(
    alloc: Global,
    script: &Script,
    report: &Report,
) -> Result<Option<Vec<Vec<Stand>>>, Memory>
    ensures { IfOk result (λ made. IfSome made (λ told. AreFollowed script.now.code.nodes
        (script_of (meaning script.now)) report.now (stands_of told.items))) }
{
    follow_named::<Brand>(alloc, script, report)
}
