//! Closes the queues of a run.
ghost use Rattle.std.specs.Prelude.{◌≡◌, ℕ, length, map, replicate, [], IfOk, Some, slice_get};
ghost use Rattle.fx_queue.specs.Queues.{HeldPass, IsOf};
ghost use Rattle.fx_queue.specs.PassView.{IsWhole};
ghost use Rattle.fx_queue.specs.Told.{IsRest};
ghost use Rattle.fx_port.specs.Rows.{IsRowOf, AreRests};

use crate::counted_pass::CountedPass;
use crate::passes::Passes;
use fx_queue::FiberQueue;
use fx_term::{Item, Memory};
use std::alloc::Global;
use std::sync::Wait;

/// Gives the queues up, by the main fiber's passes, which have gathered all that were split off: what is
/// left in each, from front to back.
pub fn close_queues<R: Wait>(
    rt: &R,
    alloc: Global,
    queues: Vec<FiberQueue>,
    passes: Passes,
) -> Result<Vec<Vec<Item>>, Memory>
    requires queues { IsRowOf queues.items passes }
    requires whole { (q : ℕ) (s : HeldPass) → slice_get passes q ≡ Some s → IsWhole s.view }
    ensures { IfOk result (λ left. AreRests passes (map (λ items. items.items) left.items)) }
{
    close_row(rt, alloc, queues, passes.into_row())
}

/// From the last queue to the first.
fn close_row<R: Wait>(
    rt: &R,
    alloc: Global,
    mut queues: Vec<FiberQueue>,
    mut row: Vec<CountedPass>,
) -> Result<Vec<Vec<Item>>, Memory>
    requires queues { IsRowOf queues.items row.items }
    requires whole { (q : ℕ) (s : HeldPass) → slice_get row.items q ≡ Some s → IsWhole s.view }
    ensures { IfOk result (λ left. AreRests row.items (map (λ items. items.items) left.items)) }
{
    let mut left = nothing_left(alloc, row.len())?;
    'closing: for _closed in 0..left.len() {
        let (Some(queue), Some(pass)) = (queues.pop(), row.pop()) else {
            unreachable!()
        };
        left[row.len()] = close_one(rt, queue, pass)?;
    }
    Ok(left)
}

fn nothing_left(alloc: Global, count: usize) -> Result<Vec<Vec<Item>>, Memory>
    ensures { IfOk result (λ left. length left.items ≡ count) }
{
    let mut left = Vec::new(alloc);
    for _made in 0..count {
        left.push(Vec::new(alloc))?;
    }
    Ok(left)
}

fn close_one<R: Wait>(rt: &R, queue: FiberQueue, pass: CountedPass) -> Result<Vec<Item>, Memory>
    requires queue { IsOf pass queue }
    requires whole { IsWhole pass.view }
    ensures { IfOk result (λ rest. IsRest pass.view rest.items) }
{
    queue.close(rt, pass.into_pass())
}
