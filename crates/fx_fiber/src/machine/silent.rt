//! Rules that show nothing, ask the port nothing and do not yield, beside the tables of nodes (`node_row`) and of
//! results (`result_row`). Beside these and those of a bracket a burst makes none. They and what they call are laid
//! into its loop by hints on inlining: a step makes them too, so LLVM alone would call each of them.
ghost use Rattle.std.specs.Prelude.{◌≡◌, ◌^◌, ◌<◌, false, IfOk, OnOk, OnErr};
ghost use Rattle.std.specs.Bool.{OnTrue};
ghost use Rattle.fx_term.specs.declared.node.Node.TheVariants as node;
ghost use Rattle.fx_fiber.specs.Leaves.{is_silent_node, is_silent_inside};
ghost use Rattle.fx_fiber.specs.Sound.{IsSoundMachine};
ghost use Rattle.fx_fiber.specs.Places.{IsSame, IsInside, StandsAt, IsBeforeTurn, IsReturning};
ghost use Rattle.fx_fiber.specs.Makes.{MakesSilently, MakesIfSilent};

use crate::machine::Machine;
use crate::machine::entry::is_canceled;
use crate::machine::focus::Focus;
use crate::machine::result_row::ResultRow;
use fx_term::{Arg, Code, Done, Memory, Node, NodeId};

impl Machine {
    ghost use Rattle.std.specs.Prelude.{List};
    ghost use Rattle.fx_term.specs.declared.node.Node.{Node};

    /// Enters contexts down to a leaf, and answers whether the fiber stands inside all contexts, at a place
    /// other than `canceled`.
    #[inline(always)]
    pub fn comes_inside(&mut self, code: &Code) -> Result<bool, Memory>
        ghost nodes: { List Node }
        requires code { code.now.nodes ≡ nodes }
        requires sound { IsSoundMachine nodes self.old }
        ensures inside { IfOk result (λ is_inside. OnTrue is_inside (IsInside nodes self.new false)) }
        ensures same { IsSame nodes self.old self.new }
    {
        match self.focus {
            Focus::Eval(from) => {
                let (_, node) = self.enter(code, from)?;
                Ok(!is_canceled(node))
            }
            Focus::Return(_) | Focus::Turn(..) => Ok(true),
            Focus::Await(_) | Focus::Unwinding | Focus::Ended(_) => Ok(false),
        }
    }

    /// The row of an `if`, by its number.
    #[inline(always)]
    pub fn if_rule(&mut self, value: Arg, part: NodeId, other: NodeId)
        ghost nodes: { List Node }
        requires at { (id : NodeId) × StandsAt nodes self.old id (node.If value part other) }
        ensures { MakesSilently nodes self.old self.new }
    {
        if self.registers.number_of(value) != 0 {
            self.if_not_zero(part);
        } else {
            self.if_zero(other);
        }
    }

    /// The row of a loop: a turn, or its end.
    #[inline(always)]
    pub fn turn_rule(&mut self, id: NodeId, turn: u32, node: &Node) -> Result<(), Memory>
        ghost nodes: { List Node }
        requires at { IsBeforeTurn nodes self.old id turn node.now }
        ensures ok { OnOk result (MakesSilently nodes self.old self.new) }
        ensures err { OnErr result (IsSame nodes self.old self.new) }
    {
        let Node::For(name, count, part) = *node else {
            unreachable!();
        };
        if turn < count {
            self.loop_turns(id, turn, name, part)
        } else {
            self.loop_ends();
            Ok(())
        }
    }

    /// The row of a result in its context, where it is silent, and whether it is.
    #[inline(always)]
    pub fn silent_result(&mut self, done: Done) -> Result<bool, Memory>
        ghost nodes: { List Node }
        requires given { IsReturning nodes self.old done }
        ensures silent { IfOk result (λ is_made. is_made ≡ is_silent_inside self.old.frames) }
        ensures ok { IfOk result (λ is_made. MakesIfSilent nodes self.old is_made self.new) }
        ensures err { OnErr result (IsSame nodes self.old self.new) }
    {
        match self.result_row(done)? {
            ResultRow::Made => Ok(true),
            ResultRow::Turned(id, turn) => {
                self.turn_value(id, turn);
                Ok(true)
            }
            ResultRow::Other => Ok(false),
        }
    }
}
