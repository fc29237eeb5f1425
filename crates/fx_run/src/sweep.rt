//! Looks between two rounds for waiting fibers that can step.
ghost use Rattle.std.specs.Prelude.{◌≡◌, ◌++◌, ◌∷◌, [], IfOk, OnOk};
ghost use Rattle.std.specs.Bool.{OnFalse};
ghost use Rattle.std.specs.List.{filter};
ghost use Rattle.fx_text.specs.View.{meaning};
ghost use Rattle.fx_report.specs.Script.{script_of};
ghost use Rattle.fx_run.specs.Sweep.{lists_of, closed_of, can_go, can_go_by, is_unable, is_unable_by};

use crate::queue_lengths::capacities;
use crate::tally::Tally;
use fx_fiber::{Closed, Fiber, Port};
use fx_port::{RunBrand, ThreadPort};
use fx_sched::Resting;
use fx_term::{Code, Memory};
use fx_text::Script;
use std::alloc::Global;
use std::sync::Wait;

/// Fibers between two rounds: those that can step, and those that cannot.
#[derive(Drop)]
pub(crate) struct Swept<P: Port> {
    pub able: Vec<Fiber<P>>,
    pub unable: Vec<Resting<P>>,
}

impl<P: Port + Drop> Swept<P> {
    /// Puts one more fiber to those that can step, or to those that cannot.
    fn put(&mut self, code: &Code, closed: &Closed, fiber: Resting<P>) -> Result<(), Memory>
        requires { code.now.nodes ≡ P.theory.code }
        ensures able { OnOk result (self.new.able.items
            ≡ self.old.able.items ++ filter (can_go_by P.theory closed.now) (fiber ∷ [])) }
        ensures unable { OnOk result (self.new.unable.items
            ≡ self.old.unable.items ++ filter (is_unable_by P.theory closed.now) (fiber ∷ [])) }
    {
        if fiber.can_step(code, closed) {
            self.able.push(fiber.into_fiber())?;
        } else {
            self.unable.push(fiber)?;
        }
        Ok(())
    }
}

/// What these fibers of a script's run have come to, by their traces, and by what was requested from
/// outside through their ports.
pub(crate) fn closed_between<'a, R: Wait, N: RunBrand>(
    alloc: Global,
    script: &Script,
    fibers: &[Resting<ThreadPort<'a, R, N>>],
) -> Result<Closed, Memory>
    ensures { IfOk result
        (λ closed. lists_of closed ≡ closed_of (script_of (meaning script.now)) fibers.now) }
{
    let mut tally = Tally::new(alloc, script)?;
    tally.fibers(fibers);
    let (rests, outcomes, requested) = tally.into_lists(alloc)?;
    Ok(Closed {
        caps: capacities(alloc, &script.queues)?,
        rests,
        outcomes,
        requested,
    })
}

/// Whether one of these can step.
fn can_one_step<P: Port>(code: &Code, closed: &Closed, fibers: &[Resting<P>]) -> bool
    requires { code.now.nodes ≡ P.theory.code }
    ensures { OnFalse result (filter (can_go_by P.theory closed.now) fibers.now ≡ []) }
{
    for k in 0..fibers.len() {
        if fibers[k].can_step(code, closed) {
            return true;
        }
    }
    false
}

/// Parts those that can step from those that cannot, over a port of any kind.
fn sweep_any<P: Port + Drop>(
    alloc: Global,
    code: &Code,
    closed: &Closed,
    fibers: Vec<Resting<P>>,
) -> Result<Swept<P>, Memory>
    requires { code.now.nodes ≡ P.theory.code }
    ensures able { IfOk result
        (λ swept. swept.able.items ≡ filter (can_go_by P.theory closed.now) fibers.items) }
    ensures unable { IfOk result
        (λ swept. swept.unable.items ≡ filter (is_unable_by P.theory closed.now) fibers.items) }
{
    // Mostly none can, and then they stay as they lie.
    if !can_one_step(code, closed, &fibers) {
        return Ok(Swept {
            able: Vec::new(alloc),
            unable: fibers,
        });
    }
    let mut swept = Swept {
        able: Vec::new(alloc),
        unable: Vec::with_capacity(alloc, fibers.len())?,
    };
    for fiber in fibers {
        swept.put(code, closed, fiber)?;
    }
    Ok(swept)
}

/// Parts those that can step, by what all have come to, from those that cannot.
pub(crate) fn sweep<'a, R: Wait, N: RunBrand>(
    alloc: Global,
    code: &Code,
    closed: &Closed,
    fibers: Vec<Resting<ThreadPort<'a, R, N>>>,
) -> Result<Swept<ThreadPort<'a, R, N>>, Memory>
    requires { code.now.nodes ≡ N.nodes }
    ensures able { IfOk result (λ swept. swept.able.items
        ≡ filter (can_go N.nodes (lists_of closed.now)) fibers.entry.items) }
    ensures unable { IfOk result (λ swept. swept.unable.items
        ≡ filter (is_unable N.nodes (lists_of closed.now)) fibers.entry.items) }
{
    sweep_any(alloc, code, closed, fibers)
}
