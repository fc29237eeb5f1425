//! The rule that the ring and all passes keep.
ghost use Rattle.fx_queue.specs.Rule.{Ringed};
ghost use Rattle.fx_queue.specs.PassView.{blank_view};

use crate::pass_view::PassView;
use crossbeam_queue::protocol::Protocol;
use fx_term::Item;

/// The rule of a ring: there is one legal history, and each pass knows its own part of it.
pub struct RingRule;

impl Protocol<Item, PassView> for RingRule {
    ghost holds = { Ringed };

    ghost first = { blank_view };
}
