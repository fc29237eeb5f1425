//! The clock of a fiber: the stamp of its last event, or of its start before the first one.
ghost use Rattle.std.specs.Prelude.{◌≡◌, max};
ghost use Rattle.fx_model.specs.Stamps.{one_more};

/// Raises a clock to the stamp of what its fiber found.
#[inline(always)]
pub(crate) fn raise(clock: &mut u64, found: u64)
    ensures { clock.new ≡ max clock.old found }
{
    if *clock < found {
        *clock = found;
    }
}

/// The stamp of the event that comes next: one more than the clock. At the greatest number stamps stay.
#[inline(always)]
pub(crate) fn after(clock: u64) -> u64
    ensures { result ≡ one_more clock }
{
    clock.saturating_add(1)
}
