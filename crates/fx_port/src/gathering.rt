//! Takes the port of a fiber that is done apart, and into those that were gathered.
ghost use Rattle.std.specs.Prelude.{◌≡◌};
ghost use Rattle.fx_word.specs.SeatView.{joined};
ghost use Rattle.fx_word.specs.Words.{IsOf};
ghost use Rattle.fx_port.specs.PortView.{IsOfRun};
ghost use Rattle.fx_port.specs.Rows.{IsRowOf, joined_row};

use crate::noted::Noted;
use crate::passes::Passes;
use crate::run_brand::RunBrand;
use crate::thread_port::ThreadPort;
use fx_queue::FiberQueue;
use fx_word::{WordSeat, Words};
use std::sync::Wait;

/// The seat and the passes take those of the port in. What the port noted from outside comes back.
pub fn gather<'a, R: Wait, N: RunBrand>(
    words: &Words,
    queues: &[FiberQueue],
    seat: &mut WordSeat,
    passes: &mut Passes,
    port: ThreadPort<'a, R, N>,
) -> Noted<N>
    requires words { (words.now ≡ N.words) × IsOf seat.old N.words }
    requires queues { (queues.now ≡ N.queues) × IsRowOf N.queues passes.old }
    ensures table { IsOf seat.new N.words }
    ensures seat { seat.new.view ≡ joined seat.old.view port.entry.words }
    ensures passes { passes.new ≡ joined_row passes.old port.entry.passes }
    ensures row { IsRowOf N.queues passes.new }
    ensures noted { result ≡ port.entry.noted }
    ensures of_run { IsOfRun N.words N.queues N.may port.entry }
{
    let (other, others, noted) = port.into_parts();
    words.gather(seat, other);
    passes.gather(queues, others);
    noted
}
