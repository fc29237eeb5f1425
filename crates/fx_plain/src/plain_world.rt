//! What the fibers of one thread share.
ghost use Rattle.std.specs.Prelude.{◌≡◌, ◌<◌, ◌≤◌, List, Some, true, false, IfOk, IfSome, IfNone, OnOk, OnErr};
ghost use Rattle.std.specs.Prelude.{length, map, option_map, slice_index_or, slice_set};
ghost use Rattle.std.specs.List.{filter, range_with_len};
ghost use Rattle.std.specs.Bool.{OnTrue};
ghost use Rattle.fx_plain.specs.declared.class.Class.TheVariants.{Able, Waits};
ghost use Rattle.fx_plain.specs.NumberSet.{IsLeastOf};
ghost use Rattle.fx_plain.specs.ClassSets.{class_at, is_able};
ghost use Rattle.fx_plain.specs.PlainQueue.{QueueView, empty_queue, queue_at, have_room, have_element, front_of};
ghost use Rattle.fx_plain.specs.Classes.{awaited, is_ready};
ghost use Rattle.fx_plain.specs.TakenPick.{why_of};
ghost use Rattle.fx_plain.specs.declared.passed.Why.TheVariants as why;
ghost use Rattle.fx_term.specs.Code.{IsCode};
ghost use Rattle.fx_term.specs.Script.{ScriptView, total};
ghost use Rattle.fx_model.specs.Origin.{main_begin_of};
ghost use Rattle.fx_text.specs.View.{meaning};
ghost use Rattle.fx_plain.specs.PlainCalls.{new_port};
ghost use Rattle.fx_report.specs.Script.{script_of};
ghost use Rattle.fx_plain.specs.World.{is_requested_in, asked_in, outcome_in, ended_in, is_ready_in, after_request};
ghost use Rattle.fx_plain.specs.World.{with_mark, after_request_from_outside, after_start, after_end};
ghost use Rattle.fx_plain.specs.World.{after_put, after_take, opening_world};

use crate::class::Class;
use crate::class_sets::lesser;
use crate::number_set::NUMBERS;
use crate::passed::Why;
use crate::plain_port::PlainPort;
use crate::plain_queue::PlainQueue;
use crate::woken_classes::WokenClasses;
use fx_fiber::{Source, main_begin};
use fx_term::{CodeBrand, Item, Memory, Outcome};
use fx_text::{QueueDecl, Script};
use std::alloc::Global;
use std::marker::Model;

/// By fiber number: who is requested, who of these from outside, the greatest stamp of the requests that
/// fibers made, how each ended, the stamp of that, and the class of each; and the queues by their numbers.
/// A number that is not one of the script's is not requested, and has no outcome; a queue that there is
/// not has neither room nor an element. No call but the first and a put takes memory.
#[derive(Drop)]
pub struct PlainWorld {
    requested: Vec<bool>,
    from_outside: Vec<bool>,
    // 0 where no fiber has requested it
    asked: Vec<u64>,
    outcomes: Vec<Option<Outcome>>,
    // 0 where it has not ended
    ended: Vec<u64>,
    classes: WokenClasses,
    queues: Vec<PlainQueue>,
    // the least fiber that is ready, where it is known
    found: Option<u32>,
}

/// A queue with no element for each of these, of its capacity.
fn empty_queues(alloc: Global, declared: &[QueueDecl]) -> Result<Vec<PlainQueue>, Memory>
    ensures { IfOk result
        (λ queues. queues.items ≡ map (λ q. empty_queue q.cap) declared.now) }
{
    let mut queues = Vec::with_capacity(alloc, declared.len())?;
    for queue in declared {
        queues.push(PlainQueue::new(alloc, queue.cap))?;
    }
    Ok(queues)
}

/// The fiber that was found, if it is not above this one, which is able now.
fn not_above(found: Option<u32>, fiber: u32) -> Option<u32>
    ensures { IfSome result (λ n. (found ≡ Some n) × (n ≤ fiber)) }
{
    let least = found?;
    if least <= fiber { Some(least) } else { None }
}

/// The least fiber that is ready once an element was put into this queue, where it is known: who was found, if
/// it is able, or who waits there for an element below it.
fn found_after_put(
    found: Option<u32>,
    classes: &WokenClasses,
    queue: u8,
    own: &PlainQueue,
) -> Option<u32>
    requires { queue < classes.now.queues }
    ensures { (queues : List QueueView) → queue < length queues → have_room queues queue ≡ true
        → IfSome found (λ n. IsLeastOf (λ f. is_ready (have_room queues) (have_element queues)
        (class_at classes.now.of f)) (Some n))
        → IfSome result (λ n. IsLeastOf (λ f. is_ready (have_room (slice_set queues queue own.now))
        (have_element (slice_set queues queue own.now)) (class_at classes.now.of f)) (Some n)) }
{
    let least = found?;
    if matches!(classes.class(least), Class::Able) {
        lesser(Some(least), classes.least_for_element(queue, own))
    } else {
        None
    }
}

/// The least fiber that is ready once an element was taken out of this queue, where it is known: who was found, if
/// it is able, or who waits there for room below it.
fn found_after_take(
    found: Option<u32>,
    classes: &WokenClasses,
    queue: u8,
    own: &PlainQueue,
) -> Option<u32>
    requires { queue < classes.now.queues }
    ensures { (queues : List QueueView) → queue < length queues → have_element queues queue ≡ true
        → IfSome found (λ n. IsLeastOf (λ f. is_ready (have_room queues) (have_element queues)
        (class_at classes.now.of f)) (Some n))
        → IfSome result (λ n. IsLeastOf (λ f. is_ready (have_room (slice_set queues queue own.now))
        (have_element (slice_set queues queue own.now)) (class_at classes.now.of f)) (Some n)) }
{
    let least = found?;
    if matches!(classes.class(least), Class::Able) {
        lesser(Some(least), classes.least_for_room(queue, own))
    } else {
        None
    }
}

impl Model for PlainWorld {
    ghost use Rattle.std.specs.Prelude.{◌≡◌, IfSome, Some, length};
    ghost use Rattle.fx_plain.specs.NumberSet.{IsLeastOf};
    ghost use Rattle.fx_plain.specs.PlainQueue.{have_room, have_element};
    ghost use Rattle.fx_plain.specs.Classes.{is_ready};
    ghost use Rattle.fx_plain.specs.ClassSets.{class_at};
    ghost use Rattle.fx_plain.specs.World.{WorldView};

    ghost Value = { WorldView };

    ghost view = { λ w. record {
      requested = w.requested.items;
      from_outside = w.from_outside.items;
      asked = w.asked.items;
      outcomes = w.outcomes.items;
      ended = w.ended.items;
      classes = w.classes.of;
      queues = w.queues.items;
    } };

    ghost invariant = { λ w. (length w.requested.items ≡ length w.classes.of)
        × (length w.from_outside.items ≡ length w.classes.of)
        × (length w.asked.items ≡ length w.classes.of)
        × (length w.outcomes.items ≡ length w.classes.of)
        × (length w.ended.items ≡ length w.classes.of)
        × (length w.queues.items ≡ w.classes.queues)
        × IfSome w.found (λ n. IsLeastOf (λ f. is_ready (have_room w.queues.items)
        (have_element w.queues.items) (class_at w.classes.of f)) (Some n)) };
}

impl PlainWorld {
    /// The world of a script with so many fibers and these queues before any step: the main fiber alone
    /// has started.
    pub(crate) fn opening(
        alloc: Global,
        fibers: u32,
        queues: Vec<PlainQueue>,
    ) -> Result<PlainWorld, Memory>
        requires some { 0 < fibers }
        requires few { fibers ≤ NUMBERS }
        ensures { IfOk result (λ world. (s : ScriptView) → total s ≡ fibers
            → queues.items ≡ map empty_queue s.capacities → world ≡ opening_world s) }
    {
        let long = fibers as usize;
        let mut classes = WokenClasses::new(alloc, fibers, queues.len())?;
        classes.become_able(0);
        Ok(PlainWorld {
            requested: vec![in alloc; false; long]?,
            from_outside: vec![in alloc; false; long]?,
            asked: vec![in alloc; 0; long]?,
            outcomes: vec![in alloc; None; long]?,
            ended: vec![in alloc; 0; long]?,
            classes,
            queues,
            found: None,
        })
    }

    /// The world of a script before any step, and the port of its main fiber, which alone has started.
    pub fn new<J: CodeBrand>(
        alloc: Global,
        script: &Script,
    ) -> Result<(PlainWorld, PlainPort<J>), Memory>
        requires code { script.now.code.nodes ≡ J.nodes }
        ensures world { IfOk result
            (λ opened. opened.0 ≡ opening_world (script_of (meaning script.now))) }
        ensures port { IfOk result
            (λ opened. opened.1 ≡ new_port 0 (main_begin_of script.now.code.nodes)) }
        ensures code { OnOk result (IsCode script.now.code.queues script.now.code.nodes) }
    {
        let begin = main_begin(alloc, &script.code);
        let queues = empty_queues(alloc, &script.queues)?;
        let world = PlainWorld::opening(alloc, begin.end, queues)?;
        Ok((world, PlainPort::new(alloc, 0, &begin)))
    }

    /// How many numbers the script has for its fibers.
    pub fn total(&self) -> u32
        ensures { result ≡ length self.now.classes }
    {
        self.classes.total()
    }

    /// Whether the queue has room.
    pub fn has_room(&self, queue: u8) -> bool
        ensures { result ≡ have_room self.now.queues queue }
    {
        match self.queues.get(queue as usize) {
            Some(own) => own.has_room(),
            None => false,
        }
    }

    /// Whether the queue has an element.
    pub fn has_element(&self, queue: u8) -> bool
        ensures { result ≡ have_element self.now.queues queue }
    {
        match self.queues.get(queue as usize) {
            Some(own) => own.has_element(),
            None => false,
        }
    }

    /// Whether the fiber is ready: it has started, has not ended, and is not known to wait, or waits at a
    /// queue that has what it waits for.
    pub(crate) fn is_ready(&self, fiber: u32) -> bool
        ensures { result ≡ is_ready_in self.now fiber }
    {
        match self.classes.class(fiber) {
            Class::Able => true,
            Class::Waits(Source::Room(queue)) => self.has_room(queue),
            Class::Waits(Source::Element(queue)) => self.has_element(queue),
            Class::Unstarted | Class::Waits(_) | Class::Over => false,
        }
    }

    /// Whether the fiber is able: it has started, has not ended, and is not known to wait.
    pub(crate) fn is_able(&self, fiber: u32) -> bool
        ensures { result ≡ is_able (class_at self.now.classes fiber) }
    {
        matches!(self.classes.class(fiber), Class::Able)
    }

    /// That the fiber waits, and for what, if it is noted to.
    pub(crate) fn waiting(&self, fiber: u32) -> Option<Why>
        ensures { result ≡ option_map why.Waits (awaited (class_at self.now.classes fiber)) }
    {
        self.classes.class(fiber).waiting()
    }

    /// Why the fiber cannot step, unless it is able.
    pub(crate) fn why(&self, fiber: u32) -> Option<Why>
        ensures { result
            ≡ why_of (length self.now.classes) fiber (class_at self.now.classes fiber) }
    {
        match self.classes.class(fiber) {
            Class::Able => None,
            Class::Waits(source) => Some(Why::Waits(source)),
            Class::Over => Some(Why::Ended),
            Class::Unstarted => Some(if fiber < self.total() {
                Why::NotStarted
            } else {
                Why::NoFiber
            }),
        }
    }

    /// Puts the element at the back of the queue.
    #[inline(always)]
    pub fn put(&mut self, queue: u8, item: Item) -> Result<(), Memory>
        requires { have_room self.old.queues queue ≡ true }
        ensures ok { OnOk result (self.new ≡ after_put queue item self.old) }
        ensures err { OnErr result (self.new ≡ self.old) }
    {
        let Some(own) = self.queues.get_mut(queue as usize) else {
            unreachable!();
        };
        own.put(item)?;
        self.found = found_after_put(self.found, &self.classes, queue, own);
        Ok(())
    }

    /// Takes the front of the queue, if it has one.
    #[inline(always)]
    pub fn take(&mut self, queue: u8) -> Option<Item>
        ensures front { result ≡ front_of (queue_at self.old.queues queue) }
        ensures world { self.new ≡ after_take queue self.old }
        ensures none { IfNone result (self.new ≡ self.old) }
    {
        let own = self.queues.get_mut(queue as usize)?;
        let item = own.take()?;
        self.found = found_after_take(self.found, &self.classes, queue, own);
        Some(item)
    }

    /// What is left in each queue, from front to back.
    pub(crate) fn into_left(self, alloc: Global) -> Result<Vec<Vec<Item>>, Memory>
        ensures { IfOk result (λ left. map (λ items. items.items) left.items
            ≡ map (λ q. q.items) self.queues) }
    {
        let mut left = Vec::with_capacity(alloc, self.queues.len())?;
        for queue in self.queues {
            left.push(queue.into_items())?;
        }
        Ok(left)
    }

    /// Whether the fiber was requested from outside.
    fn is_from_outside(&self, fiber: u32) -> bool
        ensures { result ≡ slice_index_or self.now.from_outside fiber false }
    {
        self.from_outside
            .get(fiber as usize)
            .copied()
            .unwrap_or(false)
    }

    /// The numbers that were requested from outside, ascending.
    pub(crate) fn outside(&self, alloc: Global) -> Result<Vec<u32>, Memory>
        ensures { IfOk result (λ numbers. numbers.items
            ≡ filter (λ f. slice_index_or self.now.from_outside f false)
            (range_with_len 0 (length self.now.classes))) }
    {
        let mut numbers = Vec::new(alloc);
        for fiber in 0..self.total() {
            if self.is_from_outside(fiber) {
                numbers.push(fiber)?;
            }
        }
        Ok(numbers)
    }

    /// Whether the fiber is requested.
    pub fn is_requested(&self, fiber: u32) -> bool
        ensures { result ≡ is_requested_in self.now fiber }
    {
        self.requested.get(fiber as usize).copied().unwrap_or(false)
    }

    /// The greatest stamp of the requests for the fiber that fibers made; 0 where there is none.
    pub fn asked(&self, fiber: u32) -> u64
        ensures { result ≡ asked_in self.now fiber }
    {
        self.asked.get(fiber as usize).copied().unwrap_or(0)
    }

    /// How the fiber ended, if it has.
    pub fn outcome(&self, fiber: u32) -> Option<Outcome>
        ensures { result ≡ outcome_in self.now fiber }
    {
        self.outcomes.get(fiber as usize).copied().flatten()
    }

    /// The stamp of the fiber's end; 0 where it has not ended.
    pub fn ended(&self, fiber: u32) -> u64
        ensures { result ≡ ended_in self.now fiber }
    {
        self.ended.get(fiber as usize).copied().unwrap_or(0)
    }

    /// The fiber is requested.
    fn mark(&mut self, fiber: u32)
        ensures { self.new ≡ with_mark fiber self.old }
    {
        if let Some(requested) = self.requested.get_mut(fiber as usize) {
            *requested = true;
        }
        self.found = None;
        self.classes.request(fiber);
    }

    /// Requests the fiber, by an event with this stamp.
    pub fn request(&mut self, fiber: u32, stamp: u64)
        ensures { self.new ≡ after_request fiber stamp self.old }
    {
        if let Some(asked) = self.asked.get_mut(fiber as usize) {
            *asked = stamp.max(*asked);
        }
        self.mark(fiber);
    }

    /// Requests the fiber from outside, which has no stamp.
    pub fn request_from_outside(&mut self, fiber: u32)
        ensures { self.new ≡ after_request_from_outside fiber self.old }
    {
        if let Some(from_outside) = self.from_outside.get_mut(fiber as usize) {
            *from_outside = true;
        }
        self.mark(fiber);
    }

    /// The fiber starts.
    // (else LLVM makes a call of it in the loop of a replay)
    #[inline(always)]
    pub fn start(&mut self, fiber: u32)
        ensures { self.new ≡ after_start fiber self.old }
    {
        self.classes.become_able(fiber);
        self.found = not_above(self.found, fiber);
    }

    /// The fiber may step. If it may already, nothing changes.
    pub(crate) fn wake(&mut self, fiber: u32)
        ensures { self.new ≡ after_start fiber self.old }
    {
        if !matches!(self.classes.class(fiber), Class::Able) {
            self.start(fiber);
        }
    }

    /// The fiber ends so, by an event with this stamp.
    pub fn finish(&mut self, fiber: u32, outcome: Outcome, stamp: u64)
        ensures { self.new ≡ after_end fiber outcome stamp self.old }
    {
        if let Some(ended) = self.ended.get_mut(fiber as usize) {
            *ended = stamp;
        }
        if let Some(own) = self.outcomes.get_mut(fiber as usize) {
            *own = Some(outcome);
        }
        self.found = None;
        self.classes.end(fiber);
    }

    /// The fiber waits for that.
    #[inline(always)]
    pub fn wait(&mut self, fiber: u32, source: Source)
        requires { fiber < length self.old.classes }
        ensures { self.new
            ≡ record self.old { classes = slice_set self.old.classes fiber (Waits source) } }
    {
        self.found = None;
        self.classes.wait(fiber, source);
    }

    /// Whether the fiber is known to be the least one that is ready.
    #[inline(always)]
    pub(crate) fn is_next(&self, fiber: u32) -> bool
        ensures { OnTrue result (IsLeastOf (is_ready_in self.now) (Some fiber)) }
    {
        self.found == Some(fiber)
    }

    /// The least number of a fiber that is ready. It searches for it only where it is not known.
    #[inline(always)]
    pub fn least(&mut self) -> Option<u32>
        ensures least { IsLeastOf (is_ready_in self.old) result }
        ensures same { self.new ≡ self.old }
    {
        if self.found.is_none() {
            self.found = self.classes.least(&self.queues);
        }
        self.found
    }
}
