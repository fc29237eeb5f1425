//! What a fiber knows of a queue.
ghost use Rattle.std.specs.Prelude.{◌≡◌};

use crate::pass_view::PassView;
use crossbeam_queue::Pass;
use fx_term::Item;
use std::marker::Model;

/// What the fiber of one number did to the queue and saw of it. It has no bytes: contracts alone see
/// it.
#[derive(Drop)]
pub struct QueuePass {
    pub(crate) pass: Pass<Item, PassView>,
}

impl Model for QueuePass {
    ghost use Rattle.fx_queue.specs.Queues.{HeldPass, pass_of, IsIdle};

    ghost Value = { HeldPass };

    ghost view = { λ p. pass_of p.pass };

    ghost invariant = { λ p. IsIdle p.pass };
}
