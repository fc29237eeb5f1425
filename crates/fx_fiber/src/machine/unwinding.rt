//! Cancellation, a request that is seen, and the rules of clean-ups and ends. A fiber that ends gives back the
//! memory of its contexts and of the numbers of its names: the next one to start may have it.
ghost use Rattle.std.specs.Prelude.{◌≡◌, Some, None, ◌∷◌};
ghost use Rattle.fx_fiber.specs.declared.machine.unwound.Unwound.{Unwound};
ghost use Rattle.fx_fiber.specs.Sound.{IsSoundMachine};
ghost use Rattle.fx_fiber.specs.Places.{IsSame, ReturnsOut};
ghost use Rattle.fx_fiber.specs.Makes.{MakesRule};
ghost use Rattle.fx_fiber.specs.Interruption.{Interrupts, IsInterrupted};

use crate::machine::Machine;
use crate::machine::focus::Focus;
use crate::machine::interruption::Interruption;
use crate::machine::made::Made;
use crate::machine::unwound::Unwound;
use fx_frames::{Cleanup, Frames};
use fx_term::{Done, Event, Memory, Outcome, Registers};
use std::mem;

impl Machine {
    ghost use Rattle.std.specs.Prelude.{ℕ, List, OnOk, OnErr, IfOk};
    ghost use Rattle.fx_term.specs.declared.node.Node.{Node};

    /// Gives the term up for its clean-ups, under a seal.
    pub fn cancelled(&mut self) -> Result<Made, Memory>
        ghost nodes: { List Node }
        requires { IsInterrupted nodes self.old Interruption.Cancellation }
        ensures ok { IfOk result
            (λ made. Interrupts nodes self.old Interruption.Cancellation made self.new) }
        ensures err { OnErr result (IsSame nodes self.old self.new) }
    {
        self.masks.seal()?;
        let frames = mem::replace(&mut self.frames, Frames::new(self.alloc));
        self.cleanups = Some(Unwound {
            resource: None,
            left: frames.unwind(),
        });
        self.focus = Focus::Unwinding;
        Ok(Made::Shows(Event::Cancelled))
    }

    /// A request that is seen: the fiber is known to be canceled from now on.
    pub fn seen(&mut self) -> Made
        ghost nodes: { List Node }
        requires { IsInterrupted nodes self.old Interruption.Request }
        ensures { Interrupts nodes self.old Interruption.Request result self.new }
    {
        self.known = true;
        Made::Shows(Event::Seen)
    }

    /// Begins the next clean-up (the rules `finalizer` and `release`), or ends the fiber after the
    /// last one (the rule `unwound`).
    // (laid into each step, as the end of a result is)
    #[inline(always)]
    pub fn unwinds(&mut self) -> Made
        ghost nodes: { List Node }
        requires sound { IsSoundMachine nodes self.old }
        requires focus { self.old.focus ≡ Focus.Unwinding }
        ensures { MakesRule nodes self.old result self.new }
    {
        let Some(unwound) = &mut self.cleanups else {
            unreachable!();
        };
        match unwound.next() {
            Some(Cleanup::Finalizer(finalizer)) => {
                self.focus = Focus::Eval(finalizer);
                Made::Silent
            }
            Some(Cleanup::Release(number, release)) => {
                self.focus = Focus::Eval(release);
                Made::Shows(Event::Begin(number))
            }
            None => {
                self.registers = Registers::new(self.alloc);
                self.focus = Focus::Ended(Outcome::Canceled);
                Made::Shows(Event::Ended(Outcome::Canceled))
            }
        }
    }

    /// The result of a finalizer is dropped, an error too.
    pub fn finalizer_ends(&mut self) -> Made
        ghost nodes: { List Node }
        requires { (done : Done) × (unwound : Unwound) × ReturnsOut nodes self.old done
            × (self.old.cleanups ≡ Some unwound) × (unwound.resource ≡ None) }
        ensures { MakesRule nodes self.old result self.new }
    {
        self.focus = Focus::Unwinding;
        Made::Silent
    }

    /// So is the result of a release.
    pub fn release_ends(&mut self, number: u64) -> Made
        ghost nodes: { List Node }
        requires { (done : Done) × (unwound : Unwound) × ReturnsOut nodes self.old done
            × (self.old.cleanups ≡ Some unwound) × (unwound.resource ≡ Some number) }
        ensures { MakesRule nodes self.old result self.new }
    {
        self.focus = Focus::Unwinding;
        Made::Shows(Event::End(number))
    }

    /// A value in no context ends the fiber.
    // (as `unwinds` is)
    #[inline(always)]
    pub fn succeeds(&mut self, n: u64) -> Made
        ghost nodes: { List Node }
        requires given { ReturnsOut nodes self.old (Done.Val n) }
        requires runs { self.old.cleanups ≡ None }
        ensures { MakesRule nodes self.old result self.new }
    {
        self.frames = Frames::new(self.alloc);
        self.registers = Registers::new(self.alloc);
        self.focus = Focus::Ended(Outcome::Succeeded(n));
        Made::Shows(Event::Ended(Outcome::Succeeded(n)))
    }

    /// An error in no context ends the fiber.
    pub fn errs(&mut self, e: u64) -> Made
        ghost nodes: { List Node }
        requires given { ReturnsOut nodes self.old (Done.Err e) }
        requires runs { self.old.cleanups ≡ None }
        ensures { MakesRule nodes self.old result self.new }
    {
        self.frames = Frames::new(self.alloc);
        self.registers = Registers::new(self.alloc);
        self.focus = Focus::Ended(Outcome::Errored(e));
        Made::Shows(Event::Ended(Outcome::Errored(e)))
    }
}
