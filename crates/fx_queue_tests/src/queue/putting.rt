//! Offers made one after another.
ghost use Rattle.std.specs.Prelude.{◌≡◌, []};
ghost use Rattle.fx_queue.specs.Queues.{IsOf, IsSameFiber};

use fx_queue::{FiberQueue, QueuePass};
use fx_term::Item;
use std::ops::Range;
use std::sync::Wait;

/// A pass, how many elements it put or took, and their sum.
#[derive(Drop)]
pub(crate) struct Tally {
    pub(crate) pass: QueuePass,
    pub(crate) count: u64,
    pub(crate) sum: u64,
}

/// Offers these values, each once, and counts those that were put. The first that is put has the stamp 1,
/// and each one after it the next.
pub(crate) fn put<R: Wait>(
    rt: &R,
    queue: &FiberQueue,
    mut pass: QueuePass,
    fiber: u32,
    values: Range<u64>,
) -> Tally
    requires queue { IsOf pass queue.now }
    requires fresh { (fiber ≡ pass.view.own.id) × (pass.view.own.acts ≡ []) }
    ensures { IsSameFiber pass result.pass }
{
    let mut nth = 0u64;
    let mut sum = 0u64;
    'putting: for value in values {
        let Some(stamp) = nth.checked_add(1) else {
            break;
        };
        let item = Item {
            fiber,
            nth,
            value,
            stamp,
        };
        match queue.offer_as(rt, &mut pass, item) {
            Ok(()) => {
                sum = sum.wrapping_add(value);
                nth = stamp;
            }
            Err(_full) => {}
        }
    }
    Tally {
        pass,
        count: nth,
        sum,
    }
}
