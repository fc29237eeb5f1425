//! The rules of `let` and `handle`, one method each, named as in the table.
ghost use Rattle.fx_fiber.specs.Places.{IsSame, ReturnsInto};
ghost use Rattle.fx_fiber.specs.Makes.{MakesSilently};

use crate::machine::Machine;
use crate::machine::focus::Focus;
use fx_frames::Frame;
use fx_term::{Done, Memory, NodeId};

impl Machine {
    ghost use Rattle.std.specs.Prelude.{ℕ, Option, List, OnOk, OnErr};
    ghost use Rattle.fx_term.specs.declared.node.Node.{Node};

    /// A value in a `let` is put for the name in the second part.
    #[inline(always)]
    pub fn let_value(&mut self, name: Option<u32>, second: NodeId, n: u64) -> Result<(), Memory>
        ghost nodes: { List Node }
        requires inside { ReturnsInto nodes self.old (Frame.Let name second) (Done.Val n) }
        ensures ok { OnOk result (MakesSilently nodes self.old self.new) }
        ensures err { OnErr result (IsSame nodes self.old self.new) }
    {
        self.registers.bind(name, n)?;
        let _ = self.frames.pop();
        self.focus = Focus::Eval(second);
        Ok(())
    }

    /// An error in a `let` is its result.
    #[inline(always)]
    pub fn let_error(&mut self)
        ghost nodes: { List Node }
        requires { (name : Option ℕ) × (second : NodeId) × (e : ℕ)
            × ReturnsInto nodes self.old (Frame.Let name second) (Done.Err e) }
        ensures { MakesSilently nodes self.old self.new }
    {
        let _ = self.frames.pop();
    }

    /// A value in a `handle` is its result.
    #[inline(always)]
    pub fn handle_value(&mut self)
        ghost nodes: { List Node }
        requires { (name : Option ℕ) × (handler : NodeId) × (n : ℕ)
            × ReturnsInto nodes self.old (Frame.Handle name handler) (Done.Val n) }
        ensures { MakesSilently nodes self.old self.new }
    {
        let _ = self.frames.pop();
    }

    /// An error in a `handle` is put for the name in the handler.
    #[inline(always)]
    pub fn handle_error(&mut self, name: Option<u32>, handler: NodeId, e: u64) -> Result<(), Memory>
        ghost nodes: { List Node }
        requires inside { ReturnsInto nodes self.old (Frame.Handle name handler) (Done.Err e) }
        ensures ok { OnOk result (MakesSilently nodes self.old self.new) }
        ensures err { OnErr result (IsSame nodes self.old self.new) }
    {
        self.registers.bind(name, e)?;
        let _ = self.frames.pop();
        self.focus = Focus::Eval(handler);
        Ok(())
    }
}
