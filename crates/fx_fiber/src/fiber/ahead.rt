//! What comes before a rule of a burst.
ghost use Rattle.fx_fiber.specs.Places.{is_open_machine};
ghost use Rattle.fx_fiber.specs.Bursts.{Outset, HasLooked, ComesAhead};

use crate::machine::Machine;
use crate::port::Port;

/// Whether a look serves for the rules to come.
#[derive(Clone, Copy)]
pub(crate) enum Looked {
    /// It found no request, and nothing was asked since.
    InVain,
    /// There was none.
    NotYet,
}

/// What comes before the rule of a place.
#[derive(Clone, Copy)]
pub(crate) enum Ahead {
    /// Nothing does.
    Rule,
    /// A look does.
    Look,
    /// Cancellation does.
    Cancellation,
}

/// What comes before the rule of a place other than `canceled`. A look in vain is not made again.
#[inline(always)]
pub(crate) fn look_ahead<P: Port>(machine: &Machine, looked: Looked) -> Ahead
    ghost outset: { Outset P P.Shared }
    requires looked { HasLooked P.theory.calls looked machine.now.known outset.port outset.shared }
    ensures { ComesAhead P.theory.calls (is_open_machine machine.now) machine.now.known result
        outset.port outset.shared }
{
    if matches!(looked, Looked::InVain) || !machine.is_open() {
        return Ahead::Rule;
    }
    if machine.known {
        return Ahead::Cancellation;
    }
    Ahead::Look
}
