//! Rules in one go that go on through offers and takes.
ghost use Rattle.std.specs.Prelude.{◌≡◌, ◌≤◌, ◌<◌, List, true, false, MatchBool, MatchOption, IfOk, OnErr};
ghost use Rattle.std.specs.Bool.{OnTrue};
ghost use Rattle.std.specs.Vec.{vec_len, vec_capacity};
ghost use Rattle.fx_term.specs.declared.event.Event.TheVariants as event;
ghost use Rattle.fx_term.specs.declared.node.Node.{Node};
ghost use Rattle.fx_model.specs.Row.{Shows};
ghost use Rattle.fx_fiber.specs.Fiber.{IsKept, fiber_at};
ghost use Rattle.fx_fiber.specs.Sound.{IsSoundMachine};
ghost use Rattle.fx_fiber.specs.Places.{is_open_machine};
ghost use Rattle.fx_fiber.specs.QueueSteps.{StandsAtQueue, StandsWithResult, Returned, OnWent, is_due_in};
ghost use Rattle.fx_fiber.specs.Bursts.{Bursts, BurstsShort, Outset, outset_at, LeadsTo, LooksNext, HasLooked, ReachesShort, ComesAhead, GoesBy};
ghost use Rattle.fx_fiber.specs.Flows.{FlowsTo, MeetsQueue, LooksOut, IsFreeAfter, ReachesRule, LooksInVainHere};
ghost use Rattle.fx_fiber.specs.declared.fiber.ahead.Ahead.TheVariants.{Rule};
ghost use Rattle.fx_fiber.specs.declared.fiber.ahead.Looked.TheVariants.{InVain};

use crate::clock::raise;
use crate::fiber::body::Body;
use crate::fiber::glide::glide_turn;
use crate::fiber::queue_step::{AtQueue, offer_step, take_step};
use crate::fiber::rules::{Reached, closed_rules, rules_after_look};
use crate::fiber::trace_room::have_room;
use crate::machine::focus::Focus;
use crate::port::Port;
use fx_term::{Code, Event, Memory, Node};

/// What a flow came to.
#[derive(Clone, Copy)]
pub enum Flow {
    /// It made so many steps, and makes no more.
    Stops(u32),
    /// It made so many steps, and the fiber waits at the queue where it stands.
    Waits(u32),
    /// Memory was refused.
    Memory,
}

/// What comes after the rules and the look between two steps at queues.
#[derive(Clone, Copy)]
pub(crate) enum Outlook {
    /// They were so many steps, and nothing comes before the next rule.
    Rule(u32),
    /// They were so many steps, and no more are made.
    Stops(u32),
    /// Memory was refused.
    Memory,
}

/// Whether it stands at an `offer` or a `take`, and cancellation is not due there.
#[inline(always)]
pub(crate) fn stands_at_queue(body: &Body, code: &Code) -> bool
    ghost nodes: { List Node }
    requires code { code.now.nodes ≡ nodes }
    requires sound { IsSoundMachine nodes body.now.machine }
    ensures { OnTrue result (StandsAtQueue nodes body.now.machine.focus (is_due_in body.now.machine)) }
{
    is_at_queue(body, code) && !is_due(body)
}

/// Whether it stands at an `offer` or a `take`.
#[inline(always)]
fn is_at_queue(body: &Body, code: &Code) -> bool
    ghost nodes: { List Node }
    requires code { code.now.nodes ≡ nodes }
    requires sound { IsSoundMachine nodes body.now.machine }
    ensures { OnTrue result (StandsAtQueue nodes body.now.machine.focus false) }
{
    let Focus::Eval(id) = body.machine.focus else {
        return false;
    };
    matches!(code.node(id), Node::Offer(..) | Node::Take(_))
}

/// Whether cancellation is due, at a place other than `canceled`.
#[inline(always)]
fn is_due(body: &Body) -> bool
    ensures { result ≡ is_due_in body.now.machine }
{
    body.machine.known && body.machine.is_open()
}

/// Makes steps of a fiber that stands at an `offer` or a `take`, at most so many, of which there is one.
#[inline(always)]
pub(crate) fn flow_on<P: Port>(
    port: &mut P,
    body: &mut Body,
    code: &Code,
    shared: &mut P::Shared,
    most: u32,
) -> Flow
    requires code { code.now.nodes ≡ P.theory.code }
    requires some { 0 < most }
    requires stands { StandsAtQueue P.theory.code body.old.machine.focus (is_due_in body.old.machine) }
    requires kept { IsKept P.theory port.old
        body.old.trace.items body.old.clock body.old.machine }
    ensures to { FlowsTo P.theory most
        (fiber_at port.old body.old.trace.items body.old.machine body.old.source) shared.old result
        (fiber_at port.new body.new.trace.items body.new.machine body.new.source) shared.new }
    ensures kept { IsKept P.theory port.new
        body.new.trace.items body.new.clock body.new.machine }
    ensures id { body.new.id ≡ body.old.id }
    ensures source { body.new.source ≡ body.old.source }
    ensures number { (P.theory.facts port.new).number ≡ (P.theory.facts port.old).number }
    ensures beginning { (P.theory.facts port.new).beginning ≡ (P.theory.facts port.old).beginning }
{
    match have_room(&mut body.trace) {
        Ok(()) => {}
        Err(Memory) => return Flow::Memory,
    }
    if sees_first(port, body, shared) {
        return Flow::Stops(1);
    }
    let mut left = most;
    while left > 0 {
        match at_queue(port, body, code, shared) {
            AtQueue::Went => left -= 1,
            AtQueue::Waits => return Flow::Waits(most - left),
            AtQueue::Memory => return Flow::Memory,
        }
        if left == 0 || !port.goes_on(shared) {
            return Flow::Stops(most - left);
        }
        match rules_to_queue(port, body, code, shared, left) {
            Outlook::Rule(made) => left -= made,
            Outlook::Stops(made) => return Flow::Stops(most - left + made),
            Outlook::Memory => return Flow::Memory,
        }
        if !is_at_queue(body, code) {
            return Flow::Stops(most - left);
        }
    }
    Flow::Stops(most)
}

/// Whether it stands with a result, and cancellation is not due there.
#[inline(always)]
pub(crate) fn stands_with_result(body: &Body) -> bool
    ensures { OnTrue result (StandsWithResult body.now.machine.focus (is_due_in body.now.machine)) }
{
    matches!(body.machine.focus, Focus::Return(_)) && !is_due(body)
}

/// Makes rules of a fiber that stands with a result, at most so many, of which there is one, and answers how many.
#[inline(always)]
pub(crate) fn burst_from_result<P: Port>(
    port: &mut P,
    body: &mut Body,
    code: &Code,
    shared: &mut P::Shared,
    most: u32,
) -> Result<u32, Memory>
    requires code { code.now.nodes ≡ P.theory.code }
    requires some { 0 < most }
    requires stands { StandsWithResult body.old.machine.focus (is_due_in body.old.machine) }
    requires kept { IsKept P.theory port.old
        body.old.trace.items body.old.clock body.old.machine }
    ensures ok { IfOk result (λ n. Bursts P.theory most n
        (fiber_at port.old body.old.trace.items body.old.machine body.old.source) shared.old
        (fiber_at port.new body.new.trace.items body.new.machine body.new.source) shared.new) }
    ensures err { OnErr result (BurstsShort P.theory most
        (fiber_at port.old body.old.trace.items body.old.machine body.old.source) shared.old
        (fiber_at port.new body.new.trace.items body.new.machine body.new.source) shared.new) }
    ensures kept { IsKept P.theory port.new
        body.new.trace.items body.new.clock body.new.machine }
    ensures id { body.new.id ≡ body.old.id }
    ensures source { body.new.source ≡ body.old.source }
    ensures number { (P.theory.facts port.new).number ≡ (P.theory.facts port.old).number }
    ensures beginning { (P.theory.facts port.new).beginning ≡ (P.theory.facts port.old).beginning }
{
    match rules_to_queue(port, body, code, shared, most) {
        Outlook::Rule(made) | Outlook::Stops(made) => Ok(made),
        Outlook::Memory => Err(Memory),
    }
}

/// Looks where the fiber stands at an `offer` or a `take`, if the place is open, and sees a request if there is one.
/// Cancellation is not due there.
#[inline(always)]
fn sees_first<P: Port>(port: &mut P, body: &mut Body, shared: &mut P::Shared) -> bool
    requires stands { StandsAtQueue P.theory.code body.old.machine.focus (is_due_in body.old.machine) }
    requires kept { IsKept P.theory port.old
        body.old.trace.items body.old.clock body.old.machine }
    requires room { vec_len body.old.trace < vec_capacity body.old.trace }
    ensures saw { MatchBool result
        (GoesBy P.theory (Shows event.Seen)
        (fiber_at port.old body.old.trace.items body.old.machine body.old.source) shared.old
        (fiber_at port.new body.new.trace.items body.new.machine body.new.source) shared.new)
        (ComesAhead P.theory.calls (is_open_machine body.old.machine) body.old.machine.known Rule port.old shared.old
        × (port.new ≡ port.old) × (shared.new ≡ shared.old) × (body.new ≡ body.old)) }
    ensures kept { IsKept P.theory port.new
        body.new.trace.items body.new.clock body.new.machine }
    ensures id { body.new.id ≡ body.old.id }
    ensures source { body.new.source ≡ body.old.source }
    ensures number { (P.theory.facts port.new).number ≡ (P.theory.facts port.old).number }
    ensures beginning { (P.theory.facts port.new).beginning ≡ (P.theory.facts port.old).beginning }
{
    if !body.machine.is_open() {
        return false;
    }
    sees_request(port, body, shared)
}

/// Looks, where that comes next, and sees a request if there is one.
#[inline(always)]
fn sees_request<P: Port>(port: &mut P, body: &mut Body, shared: &mut P::Shared) -> bool
    requires next { LooksNext P.theory.code body.old.machine }
    requires kept { IsKept P.theory port.old
        body.old.trace.items body.old.clock body.old.machine }
    requires room { vec_len body.old.trace < vec_capacity body.old.trace }
    ensures saw { MatchBool result
        (GoesBy P.theory (Shows event.Seen)
        (fiber_at port.old body.old.trace.items body.old.machine body.old.source) shared.old
        (fiber_at port.new body.new.trace.items body.new.machine body.new.source) shared.new)
        (LooksInVainHere P.theory.calls port.old shared.old body.old port.new shared.new body.new) }
    ensures kept { IsKept P.theory port.new
        body.new.trace.items body.new.clock body.new.machine }
    ensures id { body.new.id ≡ body.old.id }
    ensures source { body.new.source ≡ body.old.source }
    ensures number { (P.theory.facts port.new).number ≡ (P.theory.facts port.old).number }
    ensures beginning { (P.theory.facts port.new).beginning ≡ (P.theory.facts port.old).beginning }
{
    let Some(stamp) = port.look(shared) else {
        return false;
    };
    raise(&mut body.clock, stamp);
    let _ = body.machine.seen();
    body.show(Event::Seen);
    true
}

/// Makes the rule of an `offer` or a `take`, where the fiber stands. Nothing comes before it, and its event has its room
/// in the trace.
#[inline(always)]
fn at_queue<P: Port>(port: &mut P, body: &mut Body, code: &Code, shared: &mut P::Shared) -> AtQueue
    requires code { code.now.nodes ≡ P.theory.code }
    requires stands { StandsAtQueue P.theory.code body.old.machine.focus (is_due_in body.old.machine) }
    requires kept { IsKept P.theory port.old
        body.old.trace.items body.old.clock body.old.machine }
    requires free { ComesAhead P.theory.calls (is_open_machine body.old.machine) body.old.machine.known
        Rule port.old shared.old }
    requires room { vec_len body.old.trace < vec_capacity body.old.trace }
    ensures returned { OnWent result (Returned body.old.machine body.new.machine) }
    ensures meets { MeetsQueue P.theory
        (fiber_at port.old body.old.trace.items body.old.machine body.old.source) shared.old result
        (fiber_at port.new body.new.trace.items body.new.machine body.new.source) shared.new }
    ensures kept { IsKept P.theory port.new
        body.new.trace.items body.new.clock body.new.machine }
    ensures id { body.new.id ≡ body.old.id }
    ensures source { body.new.source ≡ body.old.source }
    ensures number { (P.theory.facts port.new).number ≡ (P.theory.facts port.old).number }
    ensures beginning { (P.theory.facts port.new).beginning ≡ (P.theory.facts port.old).beginning }
{
    let Focus::Eval(id) = body.machine.focus else {
        unreachable!();
    };
    match *code.node(id) {
        Node::Offer(queue, value) => offer_step(port, body, shared, queue, value),
        Node::Take(queue) => take_step(port, body, shared, queue),
        _ => unreachable!(),
    }
}

/// Makes the rules between two steps at queues, at most so many, of which there is one. The fiber has been given a
/// result, so where the place is open a look comes next.
#[inline(always)]
fn rules_to_queue<P: Port>(
    port: &mut P,
    body: &mut Body,
    code: &Code,
    shared: &mut P::Shared,
    most: u32,
) -> Outlook
    requires code { code.now.nodes ≡ P.theory.code }
    requires some { 0 < most }
    requires next { is_open_machine body.old.machine ≡ true → LooksNext P.theory.code body.old.machine }
    requires kept { IsKept P.theory port.old
        body.old.trace.items body.old.clock body.old.machine }
    ensures looked { LooksOut P.theory most
        (fiber_at port.old body.old.trace.items body.old.machine body.old.source) shared.old result
        (fiber_at port.new body.new.trace.items body.new.machine body.new.source) shared.new }
    ensures free { IsFreeAfter P.theory most result body.new port.new shared.new }
    ensures kept { IsKept P.theory port.new
        body.new.trace.items body.new.clock body.new.machine }
    ensures id { body.new.id ≡ body.old.id }
    ensures source { body.new.source ≡ body.old.source }
    ensures number { (P.theory.facts port.new).number ≡ (P.theory.facts port.old).number }
    ensures beginning { (P.theory.facts port.new).beginning ≡ (P.theory.facts port.old).beginning }
{
    match have_room(&mut body.trace) {
        Ok(()) => {}
        Err(Memory) => return Outlook::Memory,
    }
    if !body.machine.is_open() {
        return rules_from_closed(port, body, code, shared, most);
    }
    look_out(port, body, code, shared, 0, most)
}

/// Makes the rules between two steps at queues, from a closed place on, at most so many, of which there is one.
fn rules_from_closed<P: Port>(
    port: &mut P,
    body: &mut Body,
    code: &Code,
    shared: &mut P::Shared,
    most: u32,
) -> Outlook
    ghost outset: { Outset P P.Shared }
    requires begins { outset ≡ outset_at port.old shared.old body.old }
    requires code { code.now.nodes ≡ P.theory.code }
    requires some { 0 < most }
    requires kept { IsKept P.theory port.old
        body.old.trace.items body.old.clock body.old.machine }
    requires room { vec_len body.old.trace < vec_capacity body.old.trace }
    ensures looked { LooksOut P.theory most
        (fiber_at port.old body.old.trace.items body.old.machine body.old.source) shared.old result
        (fiber_at port.new body.new.trace.items body.new.machine body.new.source) shared.new }
    ensures free { IsFreeAfter P.theory most result body.new port.new shared.new }
    ensures kept { IsKept P.theory port.new
        body.new.trace.items body.new.clock body.new.machine }
    ensures id { body.new.id ≡ body.old.id }
    ensures source { body.new.source ≡ body.old.source }
    ensures number { (P.theory.facts port.new).number ≡ (P.theory.facts port.old).number }
    ensures beginning { (P.theory.facts port.new).beginning ≡ (P.theory.facts port.old).beginning }
{
    match closed_rules::<P>(body, code, most) {
        Ok(Reached::Looks(made)) => look_out(port, body, code, shared, made, most),
        Ok(Reached::Stops(made)) => {
            if body.machine.is_open() {
                Outlook::Stops(made)
            } else {
                Outlook::Rule(made)
            }
        }
        Err(Memory) => Outlook::Memory,
    }
}

/// The same where so many rules were made and a look comes next.
#[inline(always)]
fn look_out<P: Port>(
    port: &mut P,
    body: &mut Body,
    code: &Code,
    shared: &mut P::Shared,
    made: u32,
    most: u32,
) -> Outlook
    ghost outset: { Outset P P.Shared }
    requires port { outset.port ≡ port.old }
    requires shared { outset.shared ≡ shared.old }
    requires source { outset.source ≡ body.old.source }
    requires code { code.now.nodes ≡ P.theory.code }
    requires few { made < most }
    requires to { LeadsTo P.theory outset made
        body.old.machine body.old.trace.items body.old.clock }
    requires next { LooksNext P.theory.code body.old.machine }
    requires room { vec_len body.old.trace < vec_capacity body.old.trace }
    ensures looked { LooksOut P.theory most
        (fiber_at outset.port outset.trace outset.machine outset.source) outset.shared result
        (fiber_at port.new body.new.trace.items body.new.machine body.new.source) shared.new }
    ensures free { IsFreeAfter P.theory most result body.new port.new shared.new }
    ensures kept { IsKept P.theory port.new
        body.new.trace.items body.new.clock body.new.machine }
    ensures id { body.new.id ≡ body.old.id }
    ensures source { body.new.source ≡ body.old.source }
    ensures number { (P.theory.facts port.new).number ≡ (P.theory.facts port.old).number }
    ensures beginning { (P.theory.facts port.new).beginning ≡ (P.theory.facts port.old).beginning }
{
    if sees_request(port, body, shared) {
        return Outlook::Stops(made + 1);
    }
    match after_look(port, body, code, shared, made, most) {
        Some(made) => Outlook::Rule(made),
        None => Outlook::Memory,
    }
}

/// Makes the rules after a look in vain, from so many to at most so many. Most work at queues is done in loops, so the
/// end of a loop's turn is not left to the rules in general.
#[inline(always)]
fn after_look<P: Port>(
    port: &P,
    body: &mut Body,
    code: &Code,
    shared: &P::Shared,
    from: u32,
    most: u32,
) -> Option<u32>
    ghost outset: { Outset P P.Shared }
    requires port { outset.port ≡ port.now }
    requires shared { outset.shared ≡ shared.now }
    requires code { code.now.nodes ≡ P.theory.code }
    requires few { from < most }
    requires to { LeadsTo P.theory outset from
        body.old.machine body.old.trace.items body.old.clock }
    requires looked { HasLooked P.theory.calls InVain body.old.machine.known outset.port outset.shared }
    requires room { vec_len body.old.trace < vec_capacity body.old.trace }
    ensures reaches { MatchOption result (ReachesShort P.theory outset most body.new)
        (λ n. ReachesRule P.theory outset most n body.new) }
    ensures id { body.new.id ≡ body.old.id }
    ensures source { body.new.source ≡ body.old.source }
{
    let made = match loop_turn::<P>(body, code, from, most) {
        Ok(made) => made,
        Err(Memory) => return None,
    };
    if made == most {
        return Some(made);
    }
    if is_at_queue(body, code) {
        return Some(made);
    }
    match rules_after_look::<P>(body, code, made, most) {
        Ok(Reached::Looks(made)) => Some(made),
        Ok(Reached::Stops(made)) => Some(made),
        Err(Memory) => None,
    }
}

/// Makes the end of a loop's turn with what comes next in that loop, where these are the next two rules and so many
/// are left, and answers how many steps were made with those before.
#[inline(always)]
fn loop_turn<P: Port>(body: &mut Body, code: &Code, from: u32, most: u32) -> Result<u32, Memory>
    ghost outset: { Outset P P.Shared }
    requires code { code.now.nodes ≡ P.theory.code }
    requires few { from < most }
    requires to { LeadsTo P.theory outset from
        body.old.machine body.old.trace.items body.old.clock }
    requires looked { HasLooked P.theory.calls InVain body.old.machine.known outset.port outset.shared }
    requires room { vec_len body.old.trace < vec_capacity body.old.trace }
    ensures ok { IfOk result (λ n. (n ≤ most)
        × LeadsTo P.theory outset n body.new.machine body.new.trace.items body.new.clock
        × HasLooked P.theory.calls InVain body.new.machine.known outset.port outset.shared) }
    ensures err { OnErr result (ReachesShort P.theory outset most body.new) }
    ensures room { vec_len body.new.trace < vec_capacity body.new.trace }
    ensures id { body.new.id ≡ body.old.id }
    ensures source { body.new.source ≡ body.old.source }
{
    if most - from < 2 {
        return Ok(from);
    }
    if glide_turn::<P>(&mut body.machine, code)? {
        return Ok(from + 2);
    }
    Ok(from)
}
