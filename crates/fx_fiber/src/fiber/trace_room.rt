//! Room in a trace.
ghost use Rattle.std.specs.Prelude.{◌≡◌, ◌<◌, IfOk};
ghost use Rattle.std.specs.Vec.{vec_len, vec_capacity};

use fx_term::{Memory, Stamped};

/// Has room for one event more in the trace.
#[inline(always)]
pub(crate) fn have_room(trace: &mut Vec<Stamped>) -> Result<(), Memory>
    ensures ok { IfOk result (λ unit. vec_len trace.new < vec_capacity trace.new) }
    ensures items { trace.new.items ≡ trace.old.items }
{
    if trace.len() < trace.capacity() {
        return Ok(());
    }
    lengthen_trace(trace)
}

/// The same of a trace that is full. It is seldom, and laid into the loop of a replay it would make each
/// event dearer.
#[inline(never)]
fn lengthen_trace(trace: &mut Vec<Stamped>) -> Result<(), Memory>
    ensures ok { IfOk result (λ unit. vec_len trace.new < vec_capacity trace.new) }
    ensures items { trace.new.items ≡ trace.old.items }
{
    trace.reserve(1)?;
    Ok(())
}
