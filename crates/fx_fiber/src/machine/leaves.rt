//! The rules of leaves that have no part, one method each, named as in the table.
ghost use Rattle.fx_term.specs.declared.node.Node.TheVariants as node;
ghost use Rattle.fx_fiber.specs.Places.{StandsAt};
ghost use Rattle.fx_fiber.specs.Makes.{MakesRule, MakesSilently};

use crate::machine::Machine;
use crate::machine::focus::Focus;
use crate::machine::made::Made;
use fx_term::{Arg, Done, Event};

impl Machine {
    ghost use Rattle.std.specs.Prelude.{List};
    ghost use Rattle.fx_term.specs.declared.node.Node.{Node};
    ghost use Rattle.fx_term.specs.declared.node.NodeId.{NodeId};

    /// `pure n` becomes its value.
    #[inline(always)]
    pub fn pure(&mut self, value: Arg)
        ghost nodes: { List Node }
        requires at { (id : NodeId) × StandsAt nodes self.old id (node.Pure value) }
        ensures { MakesSilently nodes self.old self.new }
    {
        let n = self.registers.number_of(value);
        self.focus = Focus::Return(Done::Val(n));
    }

    /// `raise e` becomes its error.
    #[inline(always)]
    pub fn raise(&mut self, error: Arg)
        ghost nodes: { List Node }
        requires at { (id : NodeId) × StandsAt nodes self.old id (node.Raise error) }
        ensures { MakesSilently nodes self.old self.new }
    {
        let e = self.registers.number_of(error);
        self.focus = Focus::Return(Done::Err(e));
    }

    /// `canceled` where the place is closed: the fiber is known to be canceled from now on.
    pub fn self_request(&mut self) -> Made
        ghost nodes: { List Node }
        requires at { (id : NodeId) × StandsAt nodes self.old id node.Canceled }
        ensures { MakesRule nodes self.old result self.new }
    {
        self.known = true;
        self.focus = Focus::Return(Done::Val(0));
        Made::Shows(Event::SelfRequest)
    }

    /// `cede` becomes 0, after others.
    pub fn cede(&mut self) -> Made
        ghost nodes: { List Node }
        requires at { (id : NodeId) × StandsAt nodes self.old id node.Cede }
        ensures { MakesRule nodes self.old result self.new }
    {
        self.focus = Focus::Return(Done::Val(0));
        Made::Yielded
    }
}
