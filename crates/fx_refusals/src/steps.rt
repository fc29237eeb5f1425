//! Whole runs of fibers, of which each step is refused memory.
ghost use Rattle.std.specs.Prelude.{◌≡◌, false};
ghost use Rattle.fx_model.specs.Step.{has_ended};
ghost use Rattle.fx_fiber.specs.Fiber.{progress};

use crate::given::Given;
use crate::harness::{Answer, Call, OTHER};
use crate::refuser::Refuser;
use futures::task::{Poll, Solo};
use fx_fiber::{Fiber, Port, Report, Stepped, Turned};
use fx_sched::{Free, Resting, gated_turn, leave};
use fx_term::{Code, Memory, Stamped};
use std::alloc::Global;

/// Which call of a fiber is refused memory.
#[derive(Clone, Copy)]
pub enum Part {
    /// None: all have ample memory.
    None,
    Step,
    Burst,
    Turn,
}

/// The fibers of a script, of which the first one goes on that can, and come to its report.
#[derive(Drop)]
pub struct Steps<'a, P: Port> {
    given: &'a Given,
    part: Part,
    pub fibers: Vec<Fiber<P>>,
    shared: &'a mut P::Shared,
    events: usize,
    ghost fits: { given.now.script.code.nodes ≡ P.theory.code },
}

impl<'a, P: Port + Drop> Steps<'a, P> {
    /// The run that this fiber begins, with room for each that can start: so none of them requests memory to be kept.
    pub fn new(
        alloc: Global,
        given: &'a Given,
        part: Part,
        main: Fiber<P>,
        shared: &'a mut P::Shared,
    ) -> Result<Steps<'a, P>, Memory>
        requires { given.now.script.code.nodes ≡ P.theory.code }
    {
        let Ok(mut fibers) = Vec::with_capacity(alloc, given.script.total() as usize) else {
            return Err(Memory);
        };
        if fibers.push(main).is_err() {
            return Err(Memory);
        }
        Ok(Steps {
            given,
            part,
            fibers,
            shared,
            events: 0,
        })
    }

    /// Has the fiber at this place go on: what was answered, or nothing where it waits or has ended.
    fn goes(&mut self, place: usize, refuser: &Refuser) -> Option<Answer> {
        match self.fibers.get_mut(place) {
            Some(fiber) if !fiber.has_ended() => {
                let stepped = moves(self.part, fiber, self.given, self.shared, refuser);
                came_to(&mut self.fibers, stepped)
            }
            _ => None,
        }
    }
}

/// How many events these fibers have shown.
fn events_of<P: Port>(fibers: &[Fiber<P>]) -> usize {
    let mut count = 0usize;
    for fiber in fibers {
        count = count.saturating_add(fiber.trace().len());
    }
    count
}

/// A fiber, whether it rests or not.
pub trait Traced {
    /// Its events so far.
    fn shown(&self) -> &[Stamped];
}

impl<P: Port> Traced for Fiber<P> {
    fn shown(&self) -> &[Stamped] {
        self.trace()
    }
}

impl<P: Port> Traced for Resting<P> {
    fn shown(&self) -> &[Stamped] {
        self.trace()
    }
}

/// Whether the fibers, in the order of their numbers, have the traces of the report.
pub fn are_told<T: Traced>(fibers: &[T], report: &Report) -> bool {
    for (place, told) in report.fibers.iter().enumerate() {
        match fibers.get(place) {
            Some(fiber) if fiber.shown() == told.trace.as_slice() => {}
            _ => return false,
        }
    }
    fibers.len() == report.fibers.len()
}

/// What a step answered, of which a child is kept.
fn came_to<P: Port + Drop>(
    fibers: &mut Vec<Fiber<P>>,
    answer: Result<Stepped<P>, Memory>,
) -> Option<Answer> {
    match answer {
        Err(Memory) => Some(Answer::Memory),
        Ok(Stepped::Waits(_)) => None,
        Ok(Stepped::Child(child)) => Some(if fibers.push(child).is_ok() {
            Answer::Goes
        } else {
            OTHER
        }),
        Ok(Stepped::Went | Stepped::Gave | Stepped::Ended) => Some(Answer::Goes),
    }
}

/// A step, a burst or a turn.
fn moves<P: Port + Drop>(
    part: Part,
    fiber: &mut Fiber<P>,
    given: &Given,
    shared: &mut P::Shared,
    refuser: &Refuser,
) -> Result<Stepped<P>, Memory>
    requires code { given.now.script.code.nodes ≡ P.theory.code }
    requires going { has_ended (progress P.theory.code fiber.now) ≡ false }
{
    let code = &given.script.code;
    match part {
        Part::None => fiber.step(code, shared),
        Part::Step => {
            refuser.go_on();
            let stepped = fiber.step(code, shared);
            refuser.hold();
            stepped
        }
        Part::Burst => bursts(fiber, code, shared, refuser),
        Part::Turn => turns(&given.solo, fiber, code, shared, refuser),
    }
}

/// A step with ample memory, and a burst after it.
fn bursts<P: Port + Drop>(
    fiber: &mut Fiber<P>,
    code: &Code,
    shared: &mut P::Shared,
    refuser: &Refuser,
) -> Result<Stepped<P>, Memory>
    requires code { code.now.nodes ≡ P.theory.code }
    requires going { has_ended (progress P.theory.code fiber.now) ≡ false }
{
    let stepped = fiber.step(code, shared);
    if !matches!(&stepped, Ok(Stepped::Went)) {
        return stepped;
    }
    refuser.go_on();
    let made = fiber.burst(code, shared, 63);
    refuser.hold();
    match made {
        Ok(_) => stepped,
        Err(Memory) => Err(Memory),
    }
}

/// A turn at a gate that names nobody, which may make several steps before its fiber waits.
fn turns<P: Port + Drop>(
    solo: &Solo,
    fiber: &mut Fiber<P>,
    code: &Code,
    shared: &mut P::Shared,
    refuser: &Refuser,
) -> Result<Stepped<P>, Memory>
    requires { code.now.nodes ≡ P.theory.code }
{
    match polled(solo, fiber, code, shared, refuser) {
        Poll::Ready(Turned::Memory) => Err(Memory),
        Poll::Ready(Turned::Child(child)) => Ok(Stepped::Child(child)),
        Poll::Ready(Turned::Ended) => Ok(Stepped::Ended),
        Poll::Pending => Ok(match fiber.source() {
            Some(source) => Stepped::Waits(source),
            None => Stepped::Gave,
        }),
    }
}

fn polled<P: Port>(
    solo: &Solo,
    fiber: &mut Fiber<P>,
    code: &Code,
    shared: &mut P::Shared,
    refuser: &Refuser,
) -> Poll<Turned<P>>
    requires { code.now.nodes ≡ P.theory.code }
{
    let mut cx = solo.begin();
    refuser.go_on();
    let turned = gated_turn(&mut cx, &Free, 0, fiber, code, shared);
    refuser.hold();
    leave(cx);
    turned
}

impl<'a, P: Port + Drop> Call for Steps<'a, P> {
    fn make(&mut self, refuser: &Refuser) -> Answer {
        self.events = events_of(&self.fibers);
        for place in 0..self.fibers.len() {
            if let Some(answer) = self.goes(place, refuser) {
                return answer;
            }
        }
        // (a turn may make steps before its fiber waits)
        if events_of(&self.fibers) > self.events {
            Answer::Goes
        } else if are_told(&self.fibers, &self.given.report) {
            Answer::Whole
        } else {
            OTHER
        }
    }

    fn is_kept(&self) -> bool {
        let events = events_of(&self.fibers);
        match self.part {
            Part::None | Part::Step => events == self.events,
            // what was made before memory was refused stays
            Part::Burst | Part::Turn => events >= self.events,
        }
    }
}
