//! What is told of the picks of a schedule that were passed over.
ghost use Rattle.std.specs.Prelude.{◌≡◌, ◌<◌, Some, IfSome};
ghost use Rattle.fx_plain.specs.PassedPicks.{number_of};
ghost use Rattle.fx_plain.specs.TakenPick.{told_after};

use fx_fiber::Source;
use fx_text::Pick;

/// Why a pick is passed over.
#[derive(Clone, Copy, PartialEq, Eq, Debug)]
pub enum Why {
    /// The script has no fiber of that number.
    NoFiber,
    /// The fiber has not started.
    NotStarted,
    /// The fiber has ended.
    Ended,
    /// The fiber waits for this, which has not come.
    Waits(Source),
}

/// A pick that is passed over: its place in the schedule, from 1, and why.
#[derive(Clone, Copy, PartialEq, Eq, Debug)]
pub struct PassedPick {
    pub place: usize,
    pub pick: Pick,
    pub why: Why,
}

impl PassedPick {
    /// The number of the fiber that it names.
    pub fn fiber(&self) -> u32
        ensures { result ≡ number_of self.now.pick }
    {
        match self.pick {
            Pick::Step(fiber) | Pick::Cancel(fiber) => fiber,
        }
    }
}

/// How many picks of a schedule are passed over, which is one at least, and the first of them.
#[derive(Clone, Copy, PartialEq, Eq, Debug)]
pub struct PassedOver {
    pub count: usize,
    pub first: PassedPick,
}

/// What is told once this pick was taken too, and was passed over if there is a reason.
pub(crate) fn told_after(
    told: Option<PassedOver>,
    place: usize,
    pick: Pick,
    why: Option<Why>,
) -> Option<PassedOver>
    requires { IfSome told (λ t. t.count < place) }
    ensures { result ≡ told_after told place pick why }
{
    let Some(why) = why else {
        return told;
    };
    Some(match told {
        None => PassedOver {
            count: 1,
            first: PassedPick { place, pick, why },
        },
        Some(told) => PassedOver {
            count: told.count + 1,
            first: told.first,
        },
    })
}
