//! Steps and picks of a machine, told one by one.
ghost use Rattle.std.specs.Prelude.{◌≡◌, ℕ, true, [], List, None, IfOk, OnOk, slice_index_or};
ghost use Rattle.fx_term.specs.Script.{ScriptView};
ghost use Rattle.fx_text.specs.declared.pick.Pick.{Pick as AnyPick};
ghost use Rattle.fx_text.specs.declared.pick.Pick.TheVariants as pick;
ghost use Rattle.fx_plain.specs.WholeMachine.{WholeMachine};
ghost use Rattle.fx_plain.specs.World.{is_ready_in};
ghost use Rattle.fx_plain.specs.PlainMachine.{StandsForRun, StandsForSome, Halts};
ghost use Rattle.fx_plain.specs.ToldWay.{with_step, shown_at, found_of, learned_of, made_step, IsBeforeStepAt, TriesAndTells, IsTakenAndTold, IsToldWay};

use super::PlainMachine;
use crate::passed::PassedPick;
use crate::started::{BeforeStep, Started};
use crate::told::{MadeStep, Told};
use fx_model::Source;
use fx_term::{Code, CodeBrand, Event, Memory};
use fx_text::Pick;

/// How the fiber of this place stands, if it has started.
fn before_step_at<J: CodeBrand>(code: &Code, place: &Option<Started<J>>) -> BeforeStep
    requires { code.now.nodes ≡ J.nodes }
    ensures { IsBeforeStepAt J.nodes place.now result }
{
    match place {
        Some(started) => started.before_step(code),
        None => BeforeStep {
            shown: 0,
            node: None,
            is_open: false,
            waits: None,
        },
    }
}

/// The event at this place of the trace of a fiber, if it has started and there is one.
fn event_of<J: CodeBrand>(place: &Option<Started<J>>, shown: usize) -> Option<Event>
    ensures { result ≡ shown_at place.now shown }
{
    place.as_ref()?.event(shown)
}

/// The fiber that was found to have ended: of two that were waited for the left one, or the right one.
fn found(waits: Option<Source>, side: u8) -> Option<u32>
    ensures { result ≡ found_of waits side }
{
    match waits {
        Some(Source::Either(left, right)) => Some(if side == 0 { left } else { right }),
        _ => None,
    }
}

/// The fiber of whose end a step learns that shows this event, where that was waited for before it.
fn learned(waits: Option<Source>, event: Option<Event>) -> Option<u32>
    ensures { result ≡ learned_of waits event }
{
    match event {
        Some(Event::Joined(fiber, _)) | Some(Event::Awaited(fiber)) => Some(fiber),
        Some(Event::First(side)) => found(waits, side),
        _ => None,
    }
}

/// Appends a step, if one was made.
fn tell(told: &mut Vec<Told>, made: Option<MadeStep>) -> Result<(), Memory>
    ensures { OnOk result (told.new.items ≡ with_step made told.old.items) }
{
    if let Some(made) = made {
        told.push(Told::Step(made))?;
    }
    Ok(())
}

impl<J: CodeBrand> PlainMachine<J> {
    /// How this fiber stands.
    pub(super) fn before_step(&self, code: &Code, fiber: u32) -> BeforeStep
        requires { code.now.nodes ≡ J.nodes }
        ensures { IsBeforeStepAt J.nodes (slice_index_or self.now.fibers.items fiber None) result }
    {
        match self.fibers.get(fiber as usize) {
            Some(place) => before_step_at(code, place),
            None => BeforeStep {
                shown: 0,
                node: None,
                is_open: false,
                waits: None,
            },
        }
    }

    /// The event at this place of the fiber's trace, if there is one.
    fn event(&self, fiber: u32, shown: usize) -> Option<Event>
        ensures { result ≡ shown_at (slice_index_or self.now.fibers.items fiber None) shown }
    {
        event_of(self.fibers.get(fiber as usize)?, shown)
    }

    /// What is told of a step of this fiber, which stood so before it.
    fn told(&self, fiber: u32, before: BeforeStep) -> MadeStep
        ensures { result ≡ made_step fiber before
            (shown_at (slice_index_or self.now.fibers.items fiber None) before.shown) }
    {
        let event = self.event(fiber, before.shown);
        MadeStep {
            fiber,
            node: before.node,
            is_open: before.is_open,
            event,
            learned: learned(before.waits, event),
        }
    }

    /// Lets a fiber that is ready make one step, and tells it; or notes that it waits.
    fn try_and_tell(&mut self, code: &Code, fiber: u32) -> Result<Option<MadeStep>, Memory>
        requires code { code.now.nodes ≡ J.nodes }
        requires ready { is_ready_in self.old.world fiber ≡ true }
        requires stands { StandsForSome J.nodes self.old }
        ensures { IfOk result (λ told. (s : ScriptView) (m : WholeMachine)
            → StandsForRun J.nodes s self.old m
            → TriesAndTells J.nodes s m fiber self.old self.new told) }
    {
        let before = self.before_step(code, fiber);
        self.go(code, Some(fiber))?;
        if self.world.waiting(fiber).is_some() {
            return Ok(None);
        }
        Ok(Some(self.told(fiber, before)))
    }

    /// Takes a pick of a fiber, which has this place in the schedule, and tells what it makes.
    fn tell_step(&mut self, code: &Code, place: usize, fiber: u32) -> Result<Told, Memory>
        requires code { code.now.nodes ≡ J.nodes }
        requires stands { StandsForSome J.nodes self.old }
        ensures { IfOk result (λ told. (s : ScriptView) (m : WholeMachine)
            → StandsForRun J.nodes s self.old m
            → IsTakenAndTold J.nodes s m place (pick.Step fiber) told self.new) }
    {
        let before = self.before_step(code, fiber);
        match self.take_step(code, fiber)? {
            Some(why) => {
                let pick = Pick::Step(fiber);
                Ok(Told::Passed(PassedPick { place, pick, why }))
            }
            None => Ok(Told::Step(self.told(fiber, before))),
        }
    }

    /// Takes a request, which has this place in the schedule, and tells it.
    fn tell_request(&mut self, place: usize, fiber: u32) -> Told
        requires stands { StandsForSome J.nodes self.old }
        ensures { (s : ScriptView) (m : WholeMachine) → StandsForRun J.nodes s self.old m
            → IsTakenAndTold J.nodes s m place (pick.Cancel fiber) result self.new }
    {
        match self.take_request(fiber) {
            Some(why) => {
                let pick = Pick::Cancel(fiber);
                Told::Passed(PassedPick { place, pick, why })
            }
            None => Told::Request(fiber),
        }
    }

    /// Takes a pick, which has this place in the schedule, and tells what it makes, or why it is passed over.
    pub fn tell_pick(&mut self, code: &Code, place: usize, pick: Pick) -> Result<Told, Memory>
        requires code { code.now.nodes ≡ J.nodes }
        requires stands { StandsForSome J.nodes self.old }
        ensures { IfOk result (λ told. (s : ScriptView) (m : WholeMachine)
            → StandsForRun J.nodes s self.old m
            → IsTakenAndTold J.nodes s m place pick told self.new) }
    {
        match pick {
            Pick::Step(fiber) => self.tell_step(code, place, fiber),
            Pick::Cancel(fiber) => Ok(self.tell_request(place, fiber)),
        }
    }

    /// Lets the ready fiber with the least number make one step, again and again, until none is ready, and tells
    /// each step.
    pub fn tell_rest(&mut self, code: &Code, told: &mut Vec<Told>) -> Result<(), Memory>
        requires code { code.now.nodes ≡ J.nodes }
        requires stands { StandsForSome J.nodes self.old }
        ensures halts { OnOk result (Halts self.new) }
        ensures way { OnOk result ((s : ScriptView) (all : List AnyPick) (taken : ℕ)
            → IsToldWay J.nodes s all taken [] told.old.items self.old
            → IsToldWay J.nodes s all taken [] told.new.items self.new) }
    {
        while let Some(fiber) = self.chosen(None) {
            let made = self.try_and_tell(code, fiber)?;
            tell(told, made)?;
        }
        Ok(())
    }
}
