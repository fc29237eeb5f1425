//! The end of a run on threads.
ghost use Rattle.std.specs.Prelude.{◌≡◌, ◌≤◌, ℕ, Bool, All, IfOk, IfErr, length, map};
ghost use Rattle.std.specs.List.Sorted.{IsStrictlyIncreasing};
ghost use Rattle.fx_term.specs.Script.{total};
ghost use Rattle.fx_text.specs.View.{meaning};
ghost use Rattle.fx_report.specs.Script.{script_of};
ghost use Rattle.fx_queue.specs.Queues.{QueueId};
ghost use Rattle.fx_run.specs.Reported.{AreAscending};
ghost use Rattle.fx_run.specs.Gathered.{IsGathered, AreAllowed};
ghost use Rattle.fx_report.specs.Text.{queue_names, IsWritable};
ghost use Rattle.fx_report.specs.Waits.{IsBlockedAtQueueBelow};
ghost use Rattle.fx_run.specs.LawfulRun.{IsLawfulHalt};
ghost use Rattle.fx_run.specs.Closing.{AreMarked, IsReportOf, IsCloseFault};

use crate::gathered::Gathered;
use crate::lost::whole_ledger;
use crate::run_fault::RunFault;
use crate::waits::all_blocked;
use crate::whole_report::report_by;
use fx_fiber::main_begin;
use fx_port::{Marks, close_queues};
use fx_queue::FiberQueue;
use fx_report::Halt;
use fx_term::Memory;
use fx_text::Script;
use fx_word::Words;
use std::alloc::Global;
use std::sync::Wait;

/// The numbers below the bound that are marked, ascending.
fn marked(alloc: Global, bound: u32, marks: &Marks) -> Result<Vec<u32>, Memory>
    ensures ascending { IfOk result (λ numbers. IsStrictlyIncreasing numbers.items) }
    ensures marked { IfOk result (λ numbers. AreMarked bound marks.now numbers.items) }
{
    let mut numbers = Vec::new(alloc);
    for id in 0..bound {
        if marks.is_marked(id) {
            numbers.push(id)?;
        }
    }
    Ok(numbers)
}

/// Gives up the words and the queues of a run, by what its fibers left, and answers its report.
pub(crate) fn close_run<R: Wait>(
    rt: &R,
    alloc: Global,
    script: &Script,
    words: Words,
    queues: Vec<FiberQueue>,
    gathered: Gathered,
    late: u64,
) -> Result<Halt, RunFault>
    requires gathered { IsGathered script.now.code.nodes words queues.items gathered }
    requires ascending { AreAscending gathered.bares.items }
    requires fibers { words.fibers ≡ total (script_of (meaning script.now)) }
    requires capacities { map (λ (i : QueueId). i.cap) queues.items
        ≡ (script_of (meaning script.now)).capacities }
    ensures report { IfOk result
        (λ halt. IsReportOf (script_of (meaning script.now)) gathered late halt.report) }
    ensures halted { (may : ℕ → Bool) → AreAllowed may gathered.noted
        → IfOk result (λ halt. IsLawfulHalt script.now.code.nodes (script_of (meaning script.now))
        may halt.report halt.blocked.items) }
    ensures writable { script.now.code.queues ≤ length script.now.queues.items
        → IfOk result (λ halt. IsWritable (queue_names (meaning script.now)) halt.report) }
    ensures named { script.now.code.queues ≤ length script.now.queues.items
        → IfOk result (λ halt. All
        (IsBlockedAtQueueBelow (length (queue_names (meaning script.now)))) halt.blocked.items) }
    ensures fault { IfErr result
        (λ fault. IsCloseFault (script_of (meaning script.now)) gathered late fault) }
{
    let Gathered {
        bares,
        seat,
        passes,
        noted,
    } = gathered;
    let numbers = main_begin(alloc, &script.code).end;
    let ledger = whole_ledger(alloc, script.total(), &bares)?;
    let outside = marked(alloc, numbers, &noted)?;
    words.close(seat);
    let left = close_queues(rt, alloc, queues, passes)?;
    let blocked = all_blocked(alloc, &script.code, &bares)?;
    let report = report_by(alloc, script, ledger, bares, left, outside, late)?;
    Ok(Halt { report, blocked })
}
