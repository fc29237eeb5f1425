//! The class of a fiber.
ghost use Rattle.std.specs.Prelude.{◌≡◌, option_map};
ghost use Rattle.fx_plain.specs.Classes.{awaited, waits_for_end};
ghost use Rattle.fx_plain.specs.declared.passed.Why.TheVariants.{Waits};

use crate::passed::Why;
use fx_fiber::Source;

/// What is known of whether a fiber can step, without asking it.
#[derive(Clone, Copy)]
pub(crate) enum Class {
    /// It has not started.
    Unstarted,
    /// It may step: it has started, has not ended, and is not known to wait.
    Able,
    /// It waits for this.
    Waits(Source),
    /// It has ended.
    Over,
}

impl Class {
    /// That it waits, and for what, if it does.
    pub fn waiting(self) -> Option<Why>
        ensures { result ≡ option_map Waits (awaited self) }
    {
        match self {
            Class::Waits(source) => Some(Why::Waits(source)),
            _ => None,
        }
    }

    /// Whether it waits for the end of that fiber.
    pub fn waits_for_end(self, fiber: u32) -> bool
        ensures { result ≡ waits_for_end fiber self }
    {
        match self {
            Class::Waits(Source::Outcome(f)) => f == fiber,
            Class::Waits(Source::Either(f, g)) => f == fiber || g == fiber,
            _ => false,
        }
    }
}
