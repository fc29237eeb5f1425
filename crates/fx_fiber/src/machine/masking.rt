//! The rules of `mask`, `poll` and `oncancel`, one method each, named as in the table.
ghost use Rattle.std.specs.Prelude.{◌≡◌, ◌^◌, ◌<◌, ◌∷◌, OnOk, OnErr};
ghost use Rattle.fx_mask.specs.Masks.{entered};
ghost use Rattle.fx_term.specs.declared.node.Node.TheVariants as node;
ghost use Rattle.fx_fiber.specs.Places.{IsSame, StandsAt, ReturnsInto};
ghost use Rattle.fx_fiber.specs.Makes.{MakesSilently};

use crate::machine::Machine;
use crate::machine::focus::Focus;
use fx_frames::Frame;
use fx_mask::Region;
use fx_term::{Arg, Memory, NodeId};

impl Machine {
    ghost use Rattle.std.specs.Prelude.{Bool, List};
    ghost use Rattle.fx_term.specs.declared.node.Node.{Node};
    ghost use Rattle.fx_term.specs.declared.done.Done.{Done};

    /// A `mask` closes a new region, and its name has that region's number.
    #[inline(always)]
    pub fn mask(&mut self, name: u32, part: NodeId) -> Result<(), Memory>
        ghost nodes: { List Node }
        requires at { (id : NodeId) × StandsAt nodes self.old id (node.Mask name part) }
        requires countable { self.old.masks.entries < 2 ^ 63 }
        ensures ok { OnOk result (MakesSilently nodes self.old self.new) }
        ensures err { OnErr result (IsSame nodes self.old self.new) }
    {
        self.registers.bind(Some(name), self.masks.entries())?;
        self.close_region()?;
        self.focus = Focus::Eval(part);
        Ok(())
    }

    /// Enters the context of a mask, whose region closes what stands in it.
    #[inline(always)]
    fn close_region(&mut self) -> Result<(), Memory>
        requires { self.old.masks.entries < 2 ^ 63 }
        ensures ok { OnOk result
            (self.new ≡ record self.old {
              frames = Frame.Masked ∷ self.old.frames;
              masks = entered self.old.masks;
            }) }
        ensures err { OnErr result (self.new ≡ self.old) }
    {
        self.frames.push(Frame::Masked)?;
        if let Err(refused) = self.masks.enter() {
            let _ = self.frames.pop();
            return Err(refused);
        }
        Ok(())
    }

    /// A `poll` opens its mask's region where that is the innermost.
    #[inline(always)]
    pub fn poll(&mut self, name: u32, part: NodeId) -> Result<(), Memory>
        ghost nodes: { List Node }
        requires at { (id : NodeId) × StandsAt nodes self.old id (node.Poll name part) }
        ensures ok { OnOk result (MakesSilently nodes self.old self.new) }
        ensures err { OnErr result (IsSame nodes self.old self.new) }
    {
        let region = Region(self.registers.number_of(Arg::Slot(name)));
        let took_off = self.masks.open(region);
        if let Err(refused) = self.frames.push(Frame::Opened(region, took_off)) {
            if took_off {
                self.masks.reclose(region);
            }
            return Err(refused);
        }
        self.focus = Focus::Eval(part);
        Ok(())
    }

    /// A result in a mask is its result, and the mask's region is left.
    #[inline(always)]
    pub fn masked_ends(&mut self)
        ghost nodes: { List Node }
        requires { (done : Done) × ReturnsInto nodes self.old Frame.Masked done }
        ensures { MakesSilently nodes self.old self.new }
    {
        let _ = self.frames.pop();
        self.masks.leave();
    }

    /// A result in a poll is its result, and the region that the poll took off is closed again.
    #[inline(always)]
    pub fn opened_ends(&mut self, region: Region, took_off: bool)
        ghost nodes: { List Node }
        requires { (done : Done) × ReturnsInto nodes self.old (Frame.Opened region took_off) done }
        ensures { MakesSilently nodes self.old self.new }
    {
        let _ = self.frames.pop();
        if took_off {
            self.masks.reclose(region);
        }
    }

    /// A result in an `oncancel` is its result, and the finalizer is not run.
    #[inline(always)]
    pub fn oncancel_ends(&mut self)
        ghost nodes: { List Node }
        requires { (finalizer : NodeId) × (done : Done)
            × ReturnsInto nodes self.old (Frame.OnCancel finalizer) done }
        ensures { MakesSilently nodes self.old self.new }
    {
        let _ = self.frames.pop();
    }
}
