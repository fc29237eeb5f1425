//! One context.
ghost use Rattle.std.specs.Prelude.{◌≡◌, ℕ, ◌+◌, ◌^◌, ◌<◌};

use fx_mask::Region;
use fx_term::{Done, NodeId};

/// One context: what is done with the result of the part that stands in it.
#[derive(Clone, Copy, PartialEq, Eq, Debug)]
pub enum Frame {
    /// A `let` whose first part runs: its name, and its second part.
    Let(Option<u32>, NodeId),
    /// A `handle` whose first part runs: its name, and its handler.
    Handle(Option<u32>, NodeId),
    /// An `oncancel` whose first part runs: its finalizer.
    OnCancel(NodeId),
    /// A `bracket` whose acquire part runs: the node of the `bracket`.
    Acquire(NodeId),
    /// A `bracket` whose use runs: the number of its resource, and its release.
    Using(u64, NodeId),
    /// A `bracketcase` whose acquire part runs: the node of the `bracketcase`.
    AcquireCase(NodeId),
    /// A `bracketcase` whose use runs: the number of its resource, the node of the `bracketcase`, and its
    /// release after cancellation.
    UsingCase(u64, NodeId, NodeId),
    /// A `bracket` or `bracketcase` whose release runs: the number of its resource, and the result of its
    /// use.
    Releasing(u64, Done),
    /// A mask whose inside runs.
    Masked,
    /// A poll whose inside runs: its region, and whether the poll took that region off.
    Opened(Region, bool),
    /// A `for` of which a turn runs: the node of the `for`, and the number of the next turn.
    Loop(NodeId, u32),
}

impl Frame {
    ghost use Rattle.fx_term.specs.declared.node.NodeId.{NodeId};
    ghost use Rattle.fx_frames.specs.declared.frame.Frame.TheVariants.{Loop};

    /// A loop of which a turn runs goes on to the turn after the next one.
    #[inline(always)]
    pub(crate) fn next_turn(&mut self)
        requires { (id : NodeId) × (turn : ℕ) × (self.old ≡ Loop id turn) × (turn + 1 < 2 ^ 32) }
        ensures { (id : NodeId) (turn : ℕ) → self.old ≡ Loop id turn → self.new ≡ Loop id (turn + 1) }
    {
        let Frame::Loop(_, turn) = self else {
            unreachable!();
        };
        *turn += 1;
    }
}
