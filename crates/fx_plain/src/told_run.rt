//! Tells the run that a schedule chooses, step by step.
ghost use Rattle.std.specs.Prelude.{◌≡◌, ◌≤◌, All, IfOk, length};
ghost use Rattle.fx_text.specs.View.{meaning};
ghost use Rattle.fx_report.specs.Script.{script_of};
ghost use Rattle.fx_report.specs.Text.{queue_names};
ghost use Rattle.fx_plain.specs.ToldRun.{TellsRun, IsToldAtQueueBelow};

use crate::plain_machine::PlainMachine;
use crate::told::Told;
use fx_term::{CodeBrand, Memory};
use fx_text::{Pick, Script};
use std::alloc::Global;
use std::marker::Brand;

/// What is told of a script whose code the type names.
fn told_named<J: CodeBrand>(
    alloc: Global,
    script: &Script,
    picks: &[Pick],
) -> Result<Vec<Told>, Memory>
    requires code { script.now.code.nodes ≡ J.nodes }
    ensures told { IfOk result (λ told. TellsRun J.nodes
        (script_of (meaning script.now)) picks.now told.items) }
    ensures named { script.now.code.queues ≤ length script.now.queues.items
        → IfOk result (λ told. All (IsToldAtQueueBelow (length (queue_names (meaning script.now))))
        told.items) }
{
    let mut machine: PlainMachine<J> = PlainMachine::opening(alloc, script)?;
    let mut told = Vec::new(alloc);
    for (before, pick) in picks.iter().enumerate() {
        let next = machine.tell_pick(&script.code, before + 1, *pick)?;
        told.push(next)?;
    }
    machine.tell_rest(&script.code, &mut told)?;
    Ok(told)
}

/// The run that the picks choose, told step by step, with the picks that it passes over: what
/// [`replay_to_halt`](crate::replay_to_halt) reports, in the order in which it is made.
pub fn tell_run(alloc: Global, script: &Script, picks: &[Pick]) -> Result<Vec<Told>, Memory>
    ensures told { IfOk result (λ told. TellsRun script.now.code.nodes
        (script_of (meaning script.now)) picks.now told.items) }
    ensures named { script.now.code.queues ≤ length script.now.queues.items
        → IfOk result (λ told. All (IsToldAtQueueBelow (length (queue_names (meaning script.now))))
        told.items) }
{
    told_named::<Brand>(alloc, script, picks)
}
