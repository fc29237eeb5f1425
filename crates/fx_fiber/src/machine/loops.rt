//! The rules of `if` and `for`, one method each, named as in the table. A turn of a loop stands in a
//! `let` without a name, so its end is made by the rules of `let`, in methods of their own.
ghost use Rattle.std.specs.Prelude.{◌≡◌, ◌≢◌, ◌+◌, ◌^◌, ◌<◌, Some, slice_get};
ghost use Rattle.fx_term.specs.declared.node.Node.TheVariants as node;
ghost use Rattle.fx_fiber.specs.Places.{IsSame, StandsAt, HasTurn, IsOver, ReturnsInto, after_turn};
ghost use Rattle.fx_fiber.specs.Makes.{MakesSilently, MakesTwo};

use crate::machine::Machine;
use crate::machine::focus::Focus;
use fx_frames::Frame;
use fx_term::{Done, Memory, Node, NodeId};

impl Machine {
    ghost use Rattle.std.specs.Prelude.{ℕ, suc, List, OnOk, OnErr, length};
    ghost use Rattle.fx_term.specs.declared.node.Arg.{Arg};
    ghost use Rattle.fx_term.specs.declared.node.Arg.TheVariants.{Number};
    ghost use Rattle.fx_term.specs.declared.node.Node.{Node};
    ghost use Rattle.fx_term.specs.Fill.{fill_arg};
    ghost use Rattle.fx_fiber.specs.Places.{StandsAtIf};

    /// An `if` of another number than 0 goes on with its first part.
    #[inline(always)]
    pub fn if_not_zero(&mut self, part: NodeId)
        ghost nodes: { List Node }
        requires { (n : ℕ) × (other : NodeId) × (n ≢ 0) × StandsAtIf nodes self.old n part other }
        ensures { MakesSilently nodes self.old self.new }
    {
        self.focus = Focus::Eval(part);
    }

    /// An `if` of 0 goes on with its second part.
    #[inline(always)]
    pub fn if_zero(&mut self, other: NodeId)
        ghost nodes: { List Node }
        requires { (part : NodeId) × StandsAtIf nodes self.old 0 part other }
        ensures { MakesSilently nodes self.old self.new }
    {
        self.focus = Focus::Eval(other);
    }

    /// A `for` becomes its loop, before the turn 0.
    #[inline(always)]
    pub fn for_begins(&mut self, id: NodeId)
        ghost nodes: { List Node }
        requires at { (name : ℕ) × (count : ℕ) × (part : NodeId)
            × StandsAt nodes self.old id (node.For name count part) }
        ensures { MakesSilently nodes self.old self.new }
    {
        self.focus = Focus::Turn(id, 0);
    }

    /// A turn of a loop: its number is put for the name in the part.
    #[inline(always)]
    pub fn loop_turns(
        &mut self,
        id: NodeId,
        turn: u32,
        name: u32,
        part: NodeId,
    ) -> Result<(), Memory>
        ghost nodes: { List Node }
        requires at { HasTurn nodes self.old id turn name part }
        requires fits { turn + 1 < 2 ^ 32 }
        ensures ok { OnOk result (MakesSilently nodes self.old self.new) }
        ensures err { OnErr result (IsSame nodes self.old self.new) }
    {
        self.registers.bind(Some(name), u64::from(turn))?;
        self.frames.push(Frame::Loop(id, turn + 1))?;
        self.focus = Focus::Eval(part);
        Ok(())
    }

    /// A loop without a turn left gives 0.
    #[inline(always)]
    pub fn loop_ends(&mut self)
        ghost nodes: { List Node }
        requires { IsOver nodes self.old }
        ensures { MakesSilently nodes self.old self.new }
    {
        self.focus = Focus::Return(Done::Val(0));
    }

    /// The value of a turn is dropped (the rule `let_value` of a binder without a name).
    #[inline(always)]
    pub fn turn_value(&mut self, id: NodeId, turn: u32)
        ghost nodes: { List Node }
        requires { (n : ℕ) × ReturnsInto nodes self.old (Frame.Loop id turn) (Done.Val n) }
        ensures made { MakesSilently nodes self.old self.new }
        ensures is { self.new ≡ after_turn self.old id turn }
    {
        let _ = self.frames.pop();
        self.focus = Focus::Turn(id, turn);
    }

    /// The value of a turn is dropped, and the next rule of its loop is made: a turn, or its end. Beside the two rules one
    /// after the other, a turn is spared the context that is left and entered again.
    #[inline(always)]
    pub fn turn_goes_on(&mut self, id: NodeId, turn: u32, node: &Node) -> Result<(), Memory>
        ghost nodes: { List Node }
        requires inside { (n : ℕ) × ReturnsInto nodes self.old (Frame.Loop id turn) (Done.Val n) }
        requires node { slice_get nodes id.0 ≡ Some node.now }
        ensures ok { OnOk result (MakesTwo nodes self.old id turn self.new) }
        ensures err { OnErr result (IsSame nodes self.old self.new) }
    {
        let Node::For(name, count, part) = *node else {
            unreachable!();
        };
        if turn < count {
            return self.turn_turns(id, turn, name, part);
        }
        self.turn_value(id, turn);
        self.loop_ends();
        Ok(())
    }

    /// The same where the loop has this turn.
    #[inline(always)]
    fn turn_turns(&mut self, id: NodeId, turn: u32, name: u32, part: NodeId) -> Result<(), Memory>
        ghost nodes: { List Node }
        requires inside { (n : ℕ) × ReturnsInto nodes self.old (Frame.Loop id turn) (Done.Val n) }
        requires node { (count : ℕ) × (slice_get nodes id.0 ≡ Some (node.For name count part)) × (turn < count) }
        requires fits { turn + 1 < 2 ^ 32 }
        ensures ok { OnOk result (MakesTwo nodes self.old id turn self.new) }
        ensures err { OnErr result (IsSame nodes self.old self.new) }
    {
        self.registers.bind(Some(name), u64::from(turn))?;
        self.frames.next_turn();
        self.focus = Focus::Eval(part);
        Ok(())
    }

    /// The error of a turn is that of the loop (the rule `let_error`).
    #[inline(always)]
    pub fn turn_error(&mut self)
        ghost nodes: { List Node }
        requires { (id : NodeId) × (turn : ℕ) × (e : ℕ)
            × ReturnsInto nodes self.old (Frame.Loop id turn) (Done.Err e) }
        ensures { MakesSilently nodes self.old self.new }
    {
        let _ = self.frames.pop();
    }
}
