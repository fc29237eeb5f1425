//! How a fiber is reported.
ghost use Rattle.std.specs.Prelude.{◌≡◌};
ghost use Rattle.fx_model.specs.FiberReport.{is_ended};

use fx_model::State;

/// How a fiber is once no fiber can step any more: one that has not ended by then is blocked.
pub fn state_at_halt(has_ended: bool) -> State
    ensures { is_ended result ≡ has_ended }
{
    if has_ended {
        State::Ended
    } else {
        State::Blocked
    }
}
