//! Replays a script: makes the run of its fibers that a schedule chooses.
ghost use Rattle.std.specs.Prelude.{◌≡◌, ◌≤◌, true, All, IfOk, IfSome, length};
ghost use Rattle.fx_model.specs.LawfulReport.{IsLawfulReport};
ghost use Rattle.fx_model.specs.Happenings.{IsLawfulInOneList};
ghost use Rattle.fx_model.specs.Headline.{KeepsWhatIsPromised};
ghost use Rattle.fx_text.specs.View.{meaning};
ghost use Rattle.fx_model.specs.ReportStamps.{IsStampedReport};
ghost use Rattle.fx_plain.specs.Chosen.{IsReplay};
ghost use Rattle.fx_plain.specs.PassedPicks.{IsWhyAtQueueBelow, TellsPassed};
ghost use Rattle.fx_plain.specs.StampedList.{IsStampedInOneList};
ghost use Rattle.fx_plain.specs.Standing.{IsReplayWithBlocked};
ghost use Rattle.fx_report.specs.Script.{script_of};
ghost use Rattle.fx_report.specs.Text.{queue_names, IsWritable};
ghost use Rattle.fx_report.specs.Waits.{IsBlockedAtQueueBelow};

use crate::passed::{PassedOver, told_after};
use crate::plain_machine::PlainMachine;
use fx_fiber::Report;
use fx_report::Halt;
use fx_term::{CodeBrand, Memory};
use fx_text::{Pick, Script};
use std::alloc::Global;
use std::marker::Brand;

/// What there is once the run that the picks choose has halted, and what is told of the picks that were
/// passed over.
#[derive(Drop)]
pub struct Replayed {
    pub halt: Halt,
    pub passed: Option<PassedOver>,
}

/// The replay of a script whose code the type names.
fn replay_named<J: CodeBrand>(
    alloc: Global,
    script: &Script,
    picks: &[Pick],
) -> Result<Replayed, Memory>
    requires code { script.now.code.nodes ≡ J.nodes }
    ensures replayed { IfOk result (λ it. IsReplayWithBlocked script.now.code.nodes
        (script_of (meaning script.now)) picks.now it.halt.report it.halt.blocked.items) }
    ensures promised { IfOk result
        (λ it. KeepsWhatIsPromised (script_of (meaning script.now)) (λ f. true) it.halt.report) }
    ensures writable { script.now.code.queues ≤ length script.now.queues.items
        → IfOk result (λ it. IsWritable (queue_names (meaning script.now)) it.halt.report) }
    ensures named { script.now.code.queues ≤ length script.now.queues.items
        → IfOk result (λ it. All
        (IsBlockedAtQueueBelow (length (queue_names (meaning script.now)))) it.halt.blocked.items) }
    ensures passed { IfOk result
        (λ it. TellsPassed (script_of (meaning script.now)) picks.now it.passed) }
    ensures passed_named { script.now.code.queues ≤ length script.now.queues.items
        → IfOk result (λ it. IfSome it.passed (λ told.
        IsWhyAtQueueBelow (length (queue_names (meaning script.now))) told.first.why)) }
{
    let mut machine: PlainMachine<J> = PlainMachine::opening(alloc, script)?;
    let mut passed = None;
    for (before, pick) in picks.iter().enumerate() {
        let why = machine.take_pick(&script.code, *pick)?;
        passed = told_after(passed, before + 1, *pick, why);
    }
    machine.run_to_halt(&script.code)?;
    let waits = machine.waits(alloc, &script.code)?;
    let blocked = machine.all_blocked(alloc, &script.code, &waits)?;
    let report = machine.into_report(alloc)?;
    Ok(Replayed {
        halt: Halt { report, blocked },
        passed,
    })
}

/// The report of the run that the picks choose, as [`replay`] gives it, what its blocked fibers wait for
/// and where they stand, and what is told of the picks that were passed over. The writers take all three
/// where the code names no queue that is not declared.
pub fn replay_to_halt(alloc: Global, script: &Script, picks: &[Pick]) -> Result<Replayed, Memory>
    ensures replayed { IfOk result (λ it. IsReplayWithBlocked script.now.code.nodes
        (script_of (meaning script.now)) picks.now it.halt.report it.halt.blocked.items) }
    ensures promised { IfOk result
        (λ it. KeepsWhatIsPromised (script_of (meaning script.now)) (λ f. true) it.halt.report) }
    ensures writable { script.now.code.queues ≤ length script.now.queues.items
        → IfOk result (λ it. IsWritable (queue_names (meaning script.now)) it.halt.report) }
    ensures named { script.now.code.queues ≤ length script.now.queues.items
        → IfOk result (λ it. All
        (IsBlockedAtQueueBelow (length (queue_names (meaning script.now)))) it.halt.blocked.items) }
    ensures passed { IfOk result
        (λ it. TellsPassed (script_of (meaning script.now)) picks.now it.passed) }
    ensures passed_named { script.now.code.queues ≤ length script.now.queues.items
        → IfOk result (λ it. IfSome it.passed (λ told.
        IsWhyAtQueueBelow (length (queue_names (meaning script.now))) told.first.why)) }
{
    replay_named::<Brand>(alloc, script, picks)
}

/// The report of the run that the picks choose: each pick makes its step or is skipped, and after the
/// last one the fiber with the least number that can step makes one step, again and again, until none
/// can. A fiber that has not ended by then is blocked: it waits for good. The writers take it where the
/// code names no queue that is not declared.
pub fn replay(alloc: Global, script: &Script, picks: &[Pick]) -> Result<Report, Memory>
    ensures replayed { IfOk result
        (λ report. IsReplay (script_of (meaning script.now)) picks.now report) }
    ensures lawful { IfOk result
        (λ report. IsLawfulReport (script_of (meaning script.now)) (λ f. true) report) }
    ensures causes { IfOk result
        (λ report. IsLawfulInOneList (script_of (meaning script.now)) (λ f. true) report) }
    ensures in_list { IfOk result
        (λ report. IsStampedInOneList (script_of (meaning script.now)) (λ f. true) report) }
    ensures stamped { IfOk result
        (λ report. IsStampedReport (script_of (meaning script.now)) (λ f. true) report) }
    ensures promised { IfOk result
        (λ report. KeepsWhatIsPromised (script_of (meaning script.now)) (λ f. true) report) }
    ensures writable { script.now.code.queues ≤ length script.now.queues.items
        → IfOk result (λ report. IsWritable (queue_names (meaning script.now)) report) }
{
    let replayed = replay_to_halt(alloc, script, picks)?;
    Ok(replayed.halt.report)
}
