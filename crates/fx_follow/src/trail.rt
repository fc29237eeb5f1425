//! The way of a fiber along its trace.
ghost use Rattle.std.specs.Prelude.{◌≡◌, ℕ, false, Option, Some, IfOk, OnOk, IfSome, ◌++◌, length, slice_get};
ghost use Rattle.fx_term.specs.declared.outcome.Outcome.{Outcome};
ghost use Rattle.fx_model.specs.Origin.{Origin};
ghost use Rattle.fx_model.specs.Step.{has_ended};
ghost use Rattle.fx_model.specs.WaitsFor.{IsWaiting};
ghost use Rattle.fx_fiber.specs.Fiber.{progress, IsAtFirst};
ghost use Rattle.fx_fiber.specs.MakesStep.{DoesStep};
ghost use Rattle.fx_explore.specs.AnswerCalls.{answer_theory, outcome_told};
ghost use Rattle.fx_follow.specs.Places.{IsPlaceAt, told_of, KeepsTry};
ghost use Rattle.fx_follow.specs.Trails.{last_node_after, IsTrail};
ghost use Rattle.fx_follow.specs.declared.stand.Place.{Place as AnyPlace};

use crate::stand::{Place, Stand, last_node_after};
use fx_explore::{AnswerPort, Answers, step_from};
use fx_fiber::{Fiber, Source, Stepped};
use fx_term::{Code, CodeBrand, Event, Memory, NodeId};
use std::alloc::Global;

/// A fiber that came to where it is, the last node at which it stood before a step, what is told of each step that showed
/// an event, and those that it started, before their first steps.
#[derive(Drop)]
pub(crate) struct Trail<J: CodeBrand> {
    pub(crate) fiber: Fiber<AnswerPort<J>>,
    pub(crate) last_node: Option<NodeId>,
    pub(crate) stands: Vec<Stand>,
    pub(crate) children: Vec<Fiber<AnswerPort<J>>>,
}

impl<J: CodeBrand> Trail<J> {
    /// The way of a fiber before its first step.
    #[tactic(auto, using(crate::proofs::Trails::of_first))]
    pub fn of(alloc: Global, fiber: Fiber<AnswerPort<J>>) -> Trail<J>
        ensures fiber { result.fiber ≡ fiber }
        ensures trail { (outcome : ℕ → Option Outcome) (b : Origin) → IsAtFirst J.nodes b fiber
            → IsTrail J.nodes outcome b result.fiber result.last_node result.stands.items result.children.items }
    {
        Trail {
            fiber,
            last_node: None,
            stands: Vec::new(alloc),
            children: Vec::new(alloc),
        }
    }

    /// Makes a step of the fiber by these answers. A step of one of whose outcomes the first is kept back is that of a fork,
    /// since a port keeps back only once.
    fn stepped(
        &mut self,
        code: &Code,
        answers: &mut Answers,
    ) -> Result<Stepped<AnswerPort<J>>, Memory>
        requires code { code.now.nodes ≡ J.nodes }
        requires going { has_ended (progress J.nodes self.old.fiber) ≡ false }
        ensures step { IfOk result (λ answer. DoesStep (answer_theory J.nodes) self.old.fiber answers.old answer
            self.new.fiber answers.new) }
        ensures same { (self.new.last_node ≡ self.old.last_node) × (self.new.stands ≡ self.old.stands)
            × (self.new.children ≡ self.old.children) }
    {
        if !answers.keeps_back {
            return self.fiber.step(code, answers);
        }
        let (answer, fiber) = step_from(&self.fiber, code, answers)?;
        self.fiber = fiber;
        Ok(answer)
    }

    /// The event at this place of the fiber's trace, if there is one.
    fn event(&self, place: usize) -> Option<Event>
        ensures { result ≡ slice_get self.now.fiber.trace place }
    {
        let stamped = self.fiber.trace().get(place)?;
        Some(stamped.event)
    }

    /// Keeps what there is to tell of a step that was made from this place, by a fiber that had shown so many events.
    fn keep(&mut self, place: Place, shown: usize) -> Result<(), Memory>
        ensures last { self.new.last_node ≡ last_node_after self.old.last_node place.node }
        ensures stands { OnOk result (self.new.stands.items ≡ self.old.stands.items
            ++ told_of place self.new.last_node (slice_get self.old.fiber.trace shown)) }
        ensures same { (self.new.fiber ≡ self.old.fiber) × (self.new.children ≡ self.old.children) }
    {
        self.last_node = last_node_after(self.last_node, place.node);
        if let Some(event) = self.event(shown) {
            self.stands.push(place.stand(self.last_node, event))?;
        }
        Ok(())
    }

    /// Makes a step of the fiber by these answers, and keeps what there is to tell of it, if the fiber does not wait.
    fn step_told(
        &mut self,
        code: &Code,
        answers: &mut Answers,
    ) -> Result<Stepped<AnswerPort<J>>, Memory>
        requires code { code.now.nodes ≡ J.nodes }
        requires going { has_ended (progress J.nodes self.old.fiber) ≡ false }
        ensures step { IfOk result (λ answer. DoesStep (answer_theory J.nodes) self.old.fiber answers.old answer
            self.new.fiber answers.new) }
        ensures kept { IfOk result (λ answer. (place : AnyPlace) × IsPlaceAt J.nodes (progress J.nodes self.old.fiber) place
            × KeepsTry answer place (slice_get self.new.fiber.trace (length self.old.fiber.trace))
            self.old.last_node self.old.stands.items self.new.last_node self.new.stands.items) }
        ensures children { self.new.children ≡ self.old.children }
    {
        let place = Place::of(&self.fiber, code);
        let shown = self.fiber.trace().len();
        let answer = self.stepped(code, answers)?;
        if !matches!(answer, Stepped::Waits(_)) {
            self.keep(place, shown)?;
        }
        Ok(answer)
    }

    /// Makes the next step of the fiber by these answers, or answers what it waits for there.
    pub fn step(&mut self, code: &Code, answers: &mut Answers) -> Result<Option<Source>, Memory>
        requires code { code.now.nodes ≡ J.nodes }
        requires going { has_ended (progress J.nodes self.old.fiber) ≡ false }
        ensures trail { IfOk result (λ _. (outcome : ℕ → Option Outcome) (b : Origin)
            → ((g : ℕ) (o : Outcome) → outcome_told answers.old g ≡ Some o → outcome g ≡ Some o)
            → IsTrail J.nodes outcome b self.old.fiber self.old.last_node self.old.stands.items self.old.children.items
            → IsTrail J.nodes outcome b self.new.fiber self.new.last_node self.new.stands.items self.new.children.items) }
        ensures waits { IfOk result (λ waits. IfSome waits (IsWaiting answers.old.is_requested self.new.fiber.counts
            (progress J.nodes self.new.fiber))) }
        ensures outcomes { IfOk result (λ _. answers.new.outcomes ≡ answers.old.outcomes) }
    {
        let answer = self.step_told(code, answers)?;
        match answer {
            Stepped::Waits(source) => Ok(Some(source)),
            Stepped::Child(child) => {
                self.children.push(child)?;
                Ok(None)
            }
            Stepped::Went | Stepped::Gave | Stepped::Ended => Ok(None),
        }
    }
}
