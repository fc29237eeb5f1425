//! How what was made in a step is told.
ghost use Rattle.std.specs.Prelude.{◌≡◌, ◌<◌, ◌++◌, false};
ghost use Rattle.std.specs.Vec.{vec_len, vec_capacity};
ghost use Rattle.fx_model.specs.Stamps.{one_more};
ghost use Rattle.fx_fiber.specs.Made.{label_of};
ghost use Rattle.fx_fiber.specs.StampedRun.{stamped_event, clock_after};
ghost use Rattle.fx_fiber.specs.Telling.{IsMade, answer_to, TellsMade};

use crate::fiber::body::Body;
use crate::machine::made::Made;
use crate::port::Port;
use crate::stepped::Stepped;
use fx_term::Event;

/// Tells what was made: its event to the trace, where it has its room, and the end of the fiber to the
/// port.
pub(crate) fn tell<P: Port>(
    port: &mut P,
    body: &mut Body,
    shared: &mut P::Shared,
    made: Made,
) -> Stepped<P>
    requires made { IsMade made }
    requires going { (P.theory.facts port.old).has_finished ≡ false }
    requires room { vec_len body.old.trace < vec_capacity body.old.trace }
    ensures answer { result ≡ answer_to made }
    ensures told { TellsMade P.theory (one_more body.old.clock) made
        port.old shared.old port.new shared.new }
    ensures trace { body.new.trace.items
        ≡ body.old.trace.items ++ stamped_event (one_more body.old.clock) (label_of made) }
    ensures clock { body.new.clock ≡ clock_after (label_of made) body.old.clock }
    ensures machine { body.new.machine ≡ body.old.machine }
    ensures id { body.new.id ≡ body.old.id }
    ensures source { body.new.source ≡ body.old.source }
{
    match made {
        Made::Silent => Stepped::Went,
        Made::Yielded => Stepped::Gave,
        Made::Waits(source) => Stepped::Waits(source),
        Made::Starts(..) => unreachable!(),
        Made::Learns(_, _, learnt) => {
            body.show(learnt);
            Stepped::Went
        }
        Made::Shows(event) => {
            body.show(event);
            let Event::Ended(outcome) = event else {
                return Stepped::Went;
            };
            port.finish(shared, outcome, body.clock);
            Stepped::Ended
        }
    }
}
