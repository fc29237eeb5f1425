//! Runs a script's fibers on threads.
ghost use Rattle.std.specs.Prelude.{◌≡◌, ◌≢◌, ◌<◌, ◌≤◌, ◌↔◌, ◌⊎◌, ℕ, true, Err, All, IfOk, IfErr, length, map};
ghost use Rattle.fx_term.specs.Script.{total};
ghost use Rattle.fx_model.specs.Headline.{KeepsWhatIsPromised};
ghost use Rattle.fx_text.specs.View.{meaning};
ghost use Rattle.fx_report.specs.Script.{script_of};
ghost use Rattle.fx_report.specs.Text.{queue_names, IsWritable};
ghost use Rattle.fx_report.specs.Waits.{IsBlockedAtQueueBelow};
ghost use Rattle.fx_word.specs.SeatView.{first_view};
ghost use Rattle.fx_word.specs.Words.{IsOf};
ghost use Rattle.fx_port.specs.Rows.{AreFirst};
ghost use Rattle.fx_run.specs.Reported.{AreAscending};
ghost use Rattle.fx_run.specs.Gathered.{IsGathered, AreAllowed};
ghost use Rattle.fx_run.specs.LawfulRun.{IsLawfulRun, IsLawfulHalt};
ghost use Rattle.fx_run.specs.Workers.{most_workers};
ghost use Rattle.fx_run.specs.declared.run_fault.RunFault.TheVariants.{Workers};

use crate::closing::close_run;
use crate::gathered::{Gathered, gather_all};
use crate::queue_lengths::capacities;
use crate::rounds::run_rounds;
use crate::run_fault::RunFault;
use fx_fiber::{Fiber, Report};
use fx_port::{Notes, Passes, RunBrand, Sources, ThreadPort, open_queues};
use fx_queue::FiberQueue;
use fx_report::Halt;
use fx_sched::Gate;
use fx_term::Memory;
use fx_text::Script;
use fx_word::{WordSeat, Words};
use std::alloc::{AllocGlobal, Global};
use std::marker::Brand;
use std::random::RandomSource;
use std::sync::Wait;
use std::thread::Threads;

/// The most workers that a run can have.
pub const MOST_WORKERS: u32 = 64;

/// What the fibers of a run left, and how many waiting ones only a sweep put back.
#[derive(Drop)]
struct Ran {
    gathered: Gathered,
    late: u64,
}

/// What so many workers share with the fibers that they run: nobody is to be woken.
fn notes<N: RunBrand>(alloc: Global, fibers: u32, workers: u32) -> Result<Vec<Notes<N>>, Memory>
    requires { fibers ≡ N.words.fibers }
{
    let mut shared = Vec::new(alloc);
    for _ in 0..workers {
        shared.push(Notes::new(alloc, fibers)?)?;
    }
    Ok(shared)
}

/// Runs the script's fibers over these words and queues, until none can step, and gathers what they left. All
/// that may be requested from outside are below the number `named`.
fn run_over<
    N: RunBrand + Send + Sync,
    R: Wait + Threads + Sync + RandomSource + AllocGlobal,
    G: Gate + Sync,
>(
    rt: &R,
    alloc: Global,
    script: &Script,
    workers: u32,
    gate: &G,
    words: &Words,
    queues: &[FiberQueue],
    seat: WordSeat,
    passes: Passes,
    named: u32,
) -> Result<Ran, RunFault>
    requires code { script.now.code.nodes ≡ N.nodes }
    requires words { (words.now ≡ N.words)
        × (N.words.fibers ≡ total (script_of (meaning script.now))) }
    requires queues { queues.now ≡ N.queues }
    requires seat { IsOf seat N.words × (seat.view ≡ first_view N.words.fibers) }
    requires passes { AreFirst N.words.fibers N.queues passes }
    requires gate { (id : ℕ) → G.may gate.now id ≡ true → N.may id ≡ true }
    requires named { (f : ℕ) → N.may f ≡ true → f < N.words.fibers → f < named }
    ensures gathered { IfOk result (λ ran. IsGathered N.nodes N.words N.queues ran.gathered) }
    ensures ascending { IfOk result (λ ran. AreAscending ran.gathered.bares.items) }
    ensures allowed { IfOk result (λ ran. AreAllowed N.may ran.gathered.noted) }
    ensures fault { IfErr result (λ fault. fault ≢ Workers) }
{
    let fibers = words.fibers();
    let sources = Sources::new(alloc, fibers)?;
    let port: ThreadPort<R, N> = ThreadPort::new(
        rt, alloc, words, queues, &sources, seat, passes, named,
    )?;
    let main = Fiber::new(alloc, &script.code, port)?;
    let shared = notes(alloc, fibers, workers)?;
    let ran = run_rounds(rt, alloc, script, main, shared, gate)?;
    let gathered = gather_all(alloc, words, queues, &script.code, ran.fibers)?;
    Ok(Ran {
        gathered,
        late: ran.late,
    })
}

/// Runs the script's fibers by so many workers, over words and queues of their own.
fn run_by<R: Wait + Threads + Sync + RandomSource + AllocGlobal, G: Gate + Sync>(
    rt: &R,
    alloc: Global,
    script: &Script,
    workers: u32,
    gate: &G,
) -> Result<Halt, RunFault>
    ensures halted { IfOk result (λ halt. IsLawfulHalt script.now.code.nodes
        (script_of (meaning script.now)) (G.may gate.now) halt.report halt.blocked.items) }
    ensures writable { script.now.code.queues ≤ length script.now.queues.items
        → IfOk result (λ halt. IsWritable (queue_names (meaning script.now)) halt.report) }
    ensures named { script.now.code.queues ≤ length script.now.queues.items
        → IfOk result (λ halt. All
        (IsBlockedAtQueueBelow (length (queue_names (meaning script.now)))) halt.blocked.items) }
    ensures fault { IfErr result (λ fault. fault ≢ Workers) }
{
    let total = script.total();
    let capacities = capacities(alloc, &script.queues)?;
    let (words, seat) = Words::new(alloc, total)?;
    let (queues, passes) = open_queues(alloc, &capacities, total)?;
    let named = gate.names_below().min(u64::from(total)) as u32;
    let ran = run_over::<Brand, R, G>(
        rt, alloc, script, workers, gate, &words, &queues, seat, passes, named,
    )?;
    close_run(rt, alloc, script, words, queues, ran.gathered, ran.late)
}

/// The report of a run of the script's fibers by so many workers, as [`run`] gives it, and what its
/// blocked fibers wait for and where they stand. The writers take both where the code names no queue that is
/// not declared.
pub fn run_to_halt<R: Wait + Threads + Sync + RandomSource + AllocGlobal, G: Gate + Sync>(
    rt: &R,
    alloc: Global,
    script: &Script,
    workers: u32,
    gate: &G,
) -> Result<Halt, RunFault>
    ensures halted { IfOk result (λ halt. IsLawfulHalt script.now.code.nodes
        (script_of (meaning script.now)) (G.may gate.now) halt.report halt.blocked.items) }
    ensures writable { script.now.code.queues ≤ length script.now.queues.items
        → IfOk result (λ halt. IsWritable (queue_names (meaning script.now)) halt.report) }
    ensures named { script.now.code.queues ≤ length script.now.queues.items
        → IfOk result (λ halt. All
        (IsBlockedAtQueueBelow (length (queue_names (meaning script.now)))) halt.blocked.items) }
    ensures workers { ((workers < 1) ⊎ (most_workers < workers)) ↔ (result ≡ Err Workers) }
{
    if workers < 1 || MOST_WORKERS < workers {
        return Err(RunFault::Workers);
    }
    run_by(rt, alloc, script, workers, gate)
}

/// The report of a run of the script's fibers by so many workers, with what the gate may ask for. One of
/// them is the thread that calls, and each other has a thread of its own: where one of these cannot be
/// started, it answers `Memory`. The workers share the fibers and go on until none can step: one that has
/// not ended by then is blocked, and waits for good. How the fibers interleave is up to the threads; the
/// report is lawful however they do.
pub fn run<R: Wait + Threads + Sync + RandomSource + AllocGlobal, G: Gate + Sync>(
    rt: &R,
    alloc: Global,
    script: &Script,
    workers: u32,
    gate: &G,
) -> Result<Report, RunFault>
    ensures promised { IfOk result
        (λ r. KeepsWhatIsPromised (script_of (meaning script.now)) (G.may gate.now) r) }
    ensures lawful { IfOk result
        (λ r. IsLawfulRun (script_of (meaning script.now)) (G.may gate.now) r) }
    ensures writable { script.now.code.queues ≤ length script.now.queues.items
        → IfOk result (λ r. IsWritable (queue_names (meaning script.now)) r) }
    ensures workers { ((workers < 1) ⊎ (most_workers < workers)) ↔ (result ≡ Err Workers) }
{
    let halt = run_to_halt(rt, alloc, script, workers, gate)?;
    Ok(halt.report)
}
