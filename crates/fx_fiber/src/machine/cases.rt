//! The rules of `bracketcase`, one method each, named as in the table.
ghost use Rattle.std.specs.Prelude.{◌≡◌, ◌^◌, ◌<◌, Some, ◌∷◌, length, slice_get};
ghost use Rattle.fx_term.specs.Registers.{ReachUpTo, with_number};
ghost use Rattle.fx_mask.specs.Closing.{Seal};
ghost use Rattle.fx_mask.specs.Masks.{closed_by};
ghost use Rattle.fx_fiber.specs.Places.{IsSame, ReturnsInto, IsCaseAt, HasSuccess, HasFailure};
ghost use Rattle.fx_fiber.specs.Makes.{MakesSilently, MakesShown};

use crate::machine::Machine;
use crate::machine::focus::Focus;
use fx_frames::Frame;
use fx_term::{Done, Event, Memory, Node, NodeId};

impl Machine {
    ghost use Rattle.std.specs.Prelude.{ℕ, List, IfOk, OnOk, OnErr};
    ghost use Rattle.fx_term.specs.declared.node.Node.{Node};
    ghost use Rattle.fx_frames.specs.declared.frame.Frame.{Frame};

    /// A value of the acquire part is a resource, by the number of those acquired before. The use
    /// begins, no longer sealed, with the value put for the name in it and in the releases.
    pub fn acquired_case(
        &mut self,
        id: NodeId,
        name: u32,
        use_part: NodeId,
        canceled: NodeId,
        n: u64,
    ) -> Result<Event, Memory>
        ghost nodes: { List Node }
        requires case { IsCaseAt nodes id name use_part canceled }
        requires inside { ReturnsInto nodes self.old (Frame.AcquireCase id) (Done.Val n) }
        requires countable { self.old.acquired < 2 ^ 63 }
        ensures ok { IfOk result (λ event. MakesShown nodes self.old event self.new) }
        ensures err { OnErr result (IsSame nodes self.old self.new) }
    {
        self.registers.bind(Some(name), n)?;
        let number = self.acquired;
        self.frames.replace(Frame::UsingCase(number, id, canceled));
        self.masks.leave();
        self.acquired = number + 1;
        self.focus = Focus::Eval(use_part);
        Ok(Event::Acquired(number))
    }

    /// An error of the acquire part is that of the `bracketcase`, and nothing is released.
    pub fn acquire_case_fails(&mut self)
        ghost nodes: { List Node }
        requires { (case : NodeId) × (e : ℕ)
            × ReturnsInto nodes self.old (Frame.AcquireCase case) (Done.Err e) }
        ensures { MakesSilently nodes self.old self.new }
    {
        let _ = self.frames.pop();
        self.masks.leave();
    }

    /// A use that succeeded is followed by the release for that, which is sealed, with the value put for
    /// its name.
    pub fn use_succeeded(
        &mut self,
        resource: u64,
        name: u32,
        release: NodeId,
        n: u64,
    ) -> Result<Event, Memory>
        ghost nodes: { List Node }
        requires { (case : NodeId) × (canceled : NodeId) × HasSuccess nodes case name release
            × ReturnsInto nodes self.old (Frame.UsingCase resource case canceled) (Done.Val n) }
        ensures ok { IfOk result (λ event. MakesShown nodes self.old event self.new) }
        ensures err { OnErr result (IsSame nodes self.old self.new) }
    {
        self.into_release(resource, name, release, n, Done::Val(n))?;
        Ok(Event::Begin(resource))
    }

    /// A use that erred is followed by the release for that, which is sealed, with the error put for its
    /// name.
    pub fn use_erred(
        &mut self,
        resource: u64,
        name: u32,
        release: NodeId,
        e: u64,
    ) -> Result<Event, Memory>
        ghost nodes: { List Node }
        requires { (case : NodeId) × (canceled : NodeId) × HasFailure nodes case name release
            × ReturnsInto nodes self.old (Frame.UsingCase resource case canceled) (Done.Err e) }
        ensures ok { IfOk result (λ event. MakesShown nodes self.old event self.new) }
        ensures err { OnErr result (IsSame nodes self.old self.new) }
    {
        self.into_release(resource, name, release, e, Done::Err(e))?;
        Ok(Event::Begin(resource))
    }

    /// Goes from the use of a resource into this release of it, with this number for its name. The use had
    /// that result.
    fn into_release(
        &mut self,
        resource: u64,
        name: u32,
        release: NodeId,
        number: u64,
        used: Done,
    ) -> Result<(), Memory>
        requires inside { (inner : Frame) × (outer : List Frame) × (self.old.frames ≡ inner ∷ outer) }
        requires reaches { ReachUpTo (Some name) (length self.old.registers) }
        ensures ok { OnOk result ((inner : Frame) (outer : List Frame) → self.old.frames ≡ inner ∷ outer
            → self.new ≡ record self.old {
              registers = with_number (Some name) number self.old.registers;
              frames = Frame.Releasing resource used ∷ outer;
              masks = closed_by Seal self.old.masks;
              focus = Focus.Eval release;
            }) }
        ensures err { OnErr result (self.new ≡ self.old) }
    {
        self.masks.seal()?;
        if let Err(refused) = self.registers.bind(Some(name), number) {
            self.masks.leave();
            return Err(refused);
        }
        self.frames.replace(Frame::Releasing(resource, used));
        self.focus = Focus::Eval(release);
        Ok(())
    }

    /// The row of a value in the acquire part.
    pub(super) fn acquire_case_rule(
        &mut self,
        id: NodeId,
        node: &Node,
        n: u64,
    ) -> Result<Event, Memory>
        ghost nodes: { List Node }
        requires inside { ReturnsInto nodes self.old (Frame.AcquireCase id) (Done.Val n) }
        requires node { slice_get nodes id.0 ≡ Some node.now }
        requires countable { self.old.acquired < 2 ^ 63 }
        ensures ok { IfOk result (λ event. MakesShown nodes self.old event self.new) }
        ensures err { OnErr result (IsSame nodes self.old self.new) }
    {
        let Node::BracketCase(name, _, use_part, _, _, _, _, canceled) = *node else {
            unreachable!();
        };
        self.acquired_case(id, name, use_part, canceled, n)
    }

    /// The row of a result of the use.
    pub(super) fn use_case_rule(
        &mut self,
        resource: u64,
        id: NodeId,
        canceled: NodeId,
        node: &Node,
        done: Done,
    ) -> Result<Event, Memory>
        ghost nodes: { List Node }
        requires inside { ReturnsInto nodes self.old (Frame.UsingCase resource id canceled) done }
        requires node { slice_get nodes id.0 ≡ Some node.now }
        ensures ok { IfOk result (λ event. MakesShown nodes self.old event self.new) }
        ensures err { OnErr result (IsSame nodes self.old self.new) }
    {
        let Node::BracketCase(_, _, _, value, success, error, failure, _) = *node else {
            unreachable!();
        };
        match done {
            Done::Val(n) => self.use_succeeded(resource, value, success, n),
            Done::Err(e) => self.use_erred(resource, error, failure, e),
        }
    }
}
