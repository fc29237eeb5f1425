//! The rules of `bracket`, one method each, named as in the table; and the table of those, of `bracket` and
//! `bracketcase`, that show what becomes of the resource, which a burst makes too.
ghost use Rattle.std.specs.Prelude.{◌≡◌, ◌^◌, ◌<◌, Some, slice_get, is_some};
ghost use Rattle.fx_model.specs.Row.{after_release};
ghost use Rattle.fx_fiber.specs.Leaves.{is_of_bracket};
ghost use Rattle.fx_fiber.specs.Places.{IsSame, IsReturning, ReturnsInto, IsBracketAt};
ghost use Rattle.fx_fiber.specs.Makes.{MakesSilently, MakesShown, MakesIfShown};

use crate::machine::Machine;
use crate::machine::focus::Focus;
use fx_frames::Frame;
use fx_term::{Code, Done, Event, Memory, Node, NodeId};

/// The result of a bracket whose release ended so: an error of the release is raised where the use
/// succeeded, and is dropped where the use erred.
fn after_release(released: Done, used: Done) -> Done
    ensures { result ≡ after_release released used }
{
    match (released, used) {
        (Done::Err(e), Done::Val(_)) => Done::Err(e),
        _ => used,
    }
}

impl Machine {
    ghost use Rattle.std.specs.Prelude.{ℕ, List, IfOk, OnErr};
    ghost use Rattle.fx_term.specs.declared.node.Node.{Node};

    /// A value of the acquire part is a resource, by the number of those acquired before. The use
    /// begins, no longer sealed, with the value put for the name in it and in the release.
    pub fn acquired(
        &mut self,
        name: Option<u32>,
        use_part: NodeId,
        release: NodeId,
        n: u64,
    ) -> Result<Event, Memory>
        ghost nodes: { List Node }
        requires inside { (bracket : NodeId) × IsBracketAt nodes bracket name use_part release
            × ReturnsInto nodes self.old (Frame.Acquire bracket) (Done.Val n) }
        requires countable { self.old.acquired < 2 ^ 63 }
        ensures ok { IfOk result (λ event. MakesShown nodes self.old event self.new) }
        ensures err { OnErr result (IsSame nodes self.old self.new) }
    {
        self.registers.bind(name, n)?;
        let number = self.acquired;
        self.frames.replace(Frame::Using(number, release));
        self.masks.leave();
        self.acquired = number + 1;
        self.focus = Focus::Eval(use_part);
        Ok(Event::Acquired(number))
    }

    /// An error of the acquire part is that of the bracket, and nothing is released.
    pub fn acquire_fails(&mut self)
        ghost nodes: { List Node }
        requires { (bracket : NodeId) × (e : ℕ)
            × ReturnsInto nodes self.old (Frame.Acquire bracket) (Done.Err e) }
        ensures { MakesSilently nodes self.old self.new }
    {
        let _ = self.frames.pop();
        self.masks.leave();
    }

    /// A use that has a result is followed by the release, which is sealed.
    pub fn used(&mut self, resource: u64, release: NodeId, done: Done) -> Result<Event, Memory>
        ghost nodes: { List Node }
        requires inside { ReturnsInto nodes self.old (Frame.Using resource release) done }
        ensures ok { IfOk result (λ event. MakesShown nodes self.old event self.new) }
        ensures err { OnErr result (IsSame nodes self.old self.new) }
    {
        self.masks.seal()?;
        self.frames.replace(Frame::Releasing(resource, done));
        self.focus = Focus::Eval(release);
        Ok(Event::Begin(resource))
    }

    /// A release that has a result ends its `bracket` or `bracketcase`.
    pub fn released(&mut self, resource: u64, use_result: Done, done: Done) -> Event
        ghost nodes: { List Node }
        requires inside { ReturnsInto nodes self.old (Frame.Releasing resource use_result) done }
        ensures { MakesShown nodes self.old result self.new }
    {
        let _ = self.frames.pop();
        self.masks.leave();
        self.focus = Focus::Return(after_release(done, use_result));
        Event::End(resource)
    }

    /// The row of a result in a bracket, where it shows something, and what it shows.
    pub fn bracket_result(&mut self, code: &Code, done: Done) -> Result<Option<Event>, Memory>
        ghost nodes: { List Node }
        requires code { code.now.nodes ≡ nodes }
        requires given { IsReturning nodes self.old done }
        requires countable { self.old.acquired < 2 ^ 63 }
        ensures shown { IfOk result (λ shown. is_some shown ≡ is_of_bracket self.old.frames done) }
        ensures ok { IfOk result (λ shown. MakesIfShown nodes self.old shown self.new) }
        ensures err { OnErr result (IsSame nodes self.old self.new) }
    {
        let event = match (self.frames.last(), done) {
            (Some(&Frame::Acquire(id)), Done::Val(n)) => self.acquire_rule(id, code.node(id), n)?,
            (Some(&Frame::Using(k, release)), done) => self.used(k, release, done)?,
            (Some(&Frame::AcquireCase(id)), Done::Val(n)) => {
                self.acquire_case_rule(id, code.node(id), n)?
            }
            (Some(&Frame::UsingCase(k, id, canceled)), done) => {
                self.use_case_rule(k, id, canceled, code.node(id), done)?
            }
            (Some(&Frame::Releasing(k, result)), done) => self.released(k, result, done),
            _ => return Ok(None),
        };
        Ok(Some(event))
    }

    /// The row of a value in the acquire part of a bracket.
    fn acquire_rule(&mut self, id: NodeId, node: &Node, n: u64) -> Result<Event, Memory>
        ghost nodes: { List Node }
        requires inside { ReturnsInto nodes self.old (Frame.Acquire id) (Done.Val n) }
        requires node { slice_get nodes id.0 ≡ Some node.now }
        requires countable { self.old.acquired < 2 ^ 63 }
        ensures ok { IfOk result (λ event. MakesShown nodes self.old event self.new) }
        ensures err { OnErr result (IsSame nodes self.old self.new) }
    {
        let Node::Bracket(name, _, use_part, release) = *node else {
            unreachable!();
        };
        self.acquired(name, use_part, release, n)
    }
}
