//! The table of results that show nothing, by the innermost context.
ghost use Rattle.std.specs.Prelude.{◌≡◌, IfOk, OnErr};
ghost use Rattle.fx_fiber.specs.Places.{IsSame, IsReturning};
ghost use Rattle.fx_fiber.specs.Makes.{DoesResult};

use crate::machine::Machine;
use fx_frames::Frame;
use fx_term::{Done, Memory, NodeId};

/// What the row of a result did.
#[derive(Clone, Copy)]
pub(crate) enum ResultRow {
    /// It made a rule, which shows nothing.
    Made,
    /// It did nothing yet: the value is that of a turn of the loop of this node, and this turn comes next.
    Turned(NodeId, u32),
    /// It did nothing, since the rule is another one.
    Other,
}

impl Machine {
    ghost use Rattle.std.specs.Prelude.{List};
    ghost use Rattle.fx_term.specs.declared.node.Node.{Node};

    /// The row of a result in its context. The value of a turn is left to the caller, who may make the next
    /// rule of the loop with it.
    #[inline(always)]
    pub fn result_row(&mut self, done: Done) -> Result<ResultRow, Memory>
        ghost nodes: { List Node }
        requires given { IsReturning nodes self.old done }
        ensures ok { IfOk result (λ row. DoesResult nodes self.old row self.new) }
        ensures err { OnErr result (IsSame nodes self.old self.new) }
    {
        match (self.frames.last(), done) {
            (Some(&Frame::Let(name, b)), Done::Val(n)) => self.let_value(name, b, n)?,
            (Some(&Frame::Let(..)), Done::Err(_)) => self.let_error(),
            (Some(&Frame::Handle(..)), Done::Val(_)) => self.handle_value(),
            (Some(&Frame::Handle(name, b)), Done::Err(e)) => self.handle_error(name, b, e)?,
            (Some(&Frame::OnCancel(_)), _) => self.oncancel_ends(),
            (Some(&Frame::Masked), _) => self.masked_ends(),
            (Some(&Frame::Opened(r, took_off)), _) => self.opened_ends(r, took_off),
            (Some(&Frame::Loop(id, turn)), Done::Val(_)) => return Ok(ResultRow::Turned(id, turn)),
            (Some(&Frame::Loop(..)), Done::Err(_)) => self.turn_error(),
            (
                Some(
                    &Frame::Acquire(_)
                    | &Frame::Using(..)
                    | &Frame::AcquireCase(_)
                    | &Frame::UsingCase(..)
                    | &Frame::Releasing(..),
                )
                | None,
                _,
            ) => return Ok(ResultRow::Other),
        }
        Ok(ResultRow::Made)
    }
}
