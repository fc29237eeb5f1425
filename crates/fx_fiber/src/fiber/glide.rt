//! One turn of a burst.
ghost use Rattle.std.specs.Prelude.{◌≡◌, ℕ, ◌<◌, ◌^◌, IfOk, OnErr, MatchBool};
ghost use Rattle.fx_fiber.specs.Sound.{IsSoundMachine};
ghost use Rattle.fx_fiber.specs.Places.{IsSame, is_open_machine};
ghost use Rattle.fx_fiber.specs.Bursts.{Outset, HasLooked, ComesAhead, MakesNext, ShowsOnce, GlidesOnce};
ghost use Rattle.fx_fiber.specs.declared.machine.focus.Focus.TheVariants.{Eval, Return};
ghost use Rattle.fx_fiber.specs.Flows.{GlidesTwice};
ghost use Rattle.fx_fiber.specs.declared.fiber.ahead.Ahead.TheVariants.{Rule};
ghost use Rattle.fx_fiber.specs.declared.fiber.ahead.Looked.TheVariants.{InVain};

use crate::fiber::ahead::{Ahead, Looked, look_ahead};
use crate::machine::Machine;
use crate::machine::entry::is_canceled;
use crate::machine::focus::Focus;
use crate::machine::node_row::NodeRow;
use crate::machine::result_row::ResultRow;
use crate::port::Port;
use fx_frames::Frame;
use fx_term::{Code, Done, Event, Memory, NodeId};

/// What one turn of a burst did.
#[derive(Clone, Copy)]
pub(crate) enum Glided {
    /// It made a silent rule.
    Went,
    /// It made two: the end of a loop's turn, and what comes next in that loop.
    WentTwice,
    /// It made none, since a result stands there that is not one of a silent rule.
    Returns,
    /// It made none, since a look comes first.
    Looks,
    /// It made none, since a burst does not make the next rule.
    Stops,
}

/// Makes the rule of the place, where it is silent and stands next, with at most so many steps left, of which
/// there is one. The end of a loop's turn is made in one go with what comes next, where that is left.
#[inline(always)]
pub(crate) fn glide<P: Port>(
    machine: &mut Machine,
    code: &Code,
    looked: Looked,
    left: u32,
) -> Result<Glided, Memory>
    ghost outset: { Outset P P.Shared }
    requires code { code.now.nodes ≡ P.theory.code }
    requires sound { IsSoundMachine P.theory.code machine.old }
    requires countable { machine.old.masks.entries < 2 ^ 63 }
    requires looked { HasLooked P.theory.calls looked machine.old.known outset.port outset.shared }
    ensures ok { IfOk result (λ glided. GlidesOnce P.theory left
        machine.old outset.port outset.shared glided machine.new) }
    ensures same { OnErr result (IsSame P.theory.code machine.old machine.new) }
{
    match machine.focus {
        Focus::Eval(from) => glide_at_node::<P>(machine, code, looked, from),
        Focus::Return(done) => match look_ahead::<P>(machine, looked) {
            Ahead::Rule => glide_result::<P>(machine, code, done, left),
            Ahead::Look => Ok(Glided::Looks),
            Ahead::Cancellation => Ok(Glided::Stops),
        },
        Focus::Turn(id, turn) => match look_ahead::<P>(machine, looked) {
            Ahead::Rule => {
                machine.turn_rule(id, turn, code.node(id))?;
                Ok(Glided::Went)
            }
            Ahead::Look => Ok(Glided::Looks),
            Ahead::Cancellation => Ok(Glided::Stops),
        },
        Focus::Await(_) | Focus::Unwinding | Focus::Ended(_) => Ok(Glided::Stops),
    }
}

/// The same of a fiber that stands at a node, down to whose leaf contexts are entered. The machine of the outset is the one
/// where this began.
#[inline(always)]
fn glide_at_node<P: Port>(
    machine: &mut Machine,
    code: &Code,
    looked: Looked,
    from: NodeId,
) -> Result<Glided, Memory>
    ghost outset: { Outset P P.Shared }
    requires code { code.now.nodes ≡ P.theory.code }
    requires same { IsSame P.theory.code outset.machine machine.old }
    requires focus { machine.old.focus ≡ Eval from }
    requires countable { machine.old.masks.entries < 2 ^ 63 }
    requires looked { HasLooked P.theory.calls looked machine.old.known outset.port outset.shared }
    ensures ok { IfOk result (λ glided. (left : ℕ) → GlidesOnce P.theory left
        outset.machine outset.port outset.shared glided machine.new) }
    ensures err { OnErr result (IsSame P.theory.code outset.machine machine.new) }
{
    let mut id = from;
    'contexts: loop {
        match look_ahead::<P>(machine, looked) {
            Ahead::Rule => match machine.node_row(id, code.node(id))? {
                NodeRow::Entered(first) => id = first,
                NodeRow::Made => return Ok(Glided::Went),
                NodeRow::Other => return Ok(Glided::Stops),
            },
            Ahead::Look | Ahead::Cancellation => {
                return glide_at_open_node::<P>(machine, code, looked, id);
            }
        }
    }
}

/// The same from an open place on, where something else comes first, unless the leaf stands in a context that closes it.
/// A burst comes there once.
#[inline(never)]
fn glide_at_open_node<P: Port>(
    machine: &mut Machine,
    code: &Code,
    looked: Looked,
    from: NodeId,
) -> Result<Glided, Memory>
    ghost outset: { Outset P P.Shared }
    requires code { code.now.nodes ≡ P.theory.code }
    requires same { IsSame P.theory.code outset.machine machine.old }
    requires focus { machine.old.focus ≡ Eval from }
    requires countable { machine.old.masks.entries < 2 ^ 63 }
    requires looked { HasLooked P.theory.calls looked machine.old.known outset.port outset.shared }
    ensures ok { IfOk result (λ glided. (left : ℕ) → GlidesOnce P.theory left
        outset.machine outset.port outset.shared glided machine.new) }
    ensures err { OnErr result (IsSame P.theory.code outset.machine machine.new) }
{
    let (id, node) = machine.enter(code, from)?;
    if is_canceled(node) {
        return Ok(Glided::Stops);
    }
    match look_ahead::<P>(machine, looked) {
        Ahead::Rule => match machine.node_row(id, node)? {
            NodeRow::Made => Ok(Glided::Went),
            NodeRow::Entered(_) | NodeRow::Other => Ok(Glided::Stops),
        },
        Ahead::Look => Ok(Glided::Looks),
        Ahead::Cancellation => Ok(Glided::Stops),
    }
}

/// The same of a fiber that stands with a result, where nothing comes first.
#[inline(always)]
fn glide_result<P: Port>(
    machine: &mut Machine,
    code: &Code,
    done: Done,
    left: u32,
) -> Result<Glided, Memory>
    ghost outset: { Outset P P.Shared }
    requires code { code.now.nodes ≡ P.theory.code }
    requires sound { IsSoundMachine P.theory.code machine.old }
    requires focus { machine.old.focus ≡ Return done }
    requires first { ComesAhead P.theory.calls (is_open_machine machine.old) machine.old.known
        Rule outset.port outset.shared }
    ensures ok { IfOk result (λ glided. GlidesOnce P.theory left
        machine.old outset.port outset.shared glided machine.new) }
    ensures err { OnErr result (IsSame P.theory.code machine.old machine.new) }
{
    match machine.result_row(done)? {
        ResultRow::Made => Ok(Glided::Went),
        ResultRow::Turned(id, turn) => {
            if left < 2 {
                machine.turn_value(id, turn);
                return Ok(Glided::Went);
            }
            machine.turn_goes_on(id, turn, code.node(id))?;
            Ok(Glided::WentTwice)
        }
        ResultRow::Other => Ok(Glided::Returns),
    }
}

/// Makes the end of a loop's turn and what comes next in that loop, where these are the next two rules, and answers
/// whether it did. It is after a look in vain.
#[inline(always)]
pub(crate) fn glide_turn<P: Port>(machine: &mut Machine, code: &Code) -> Result<bool, Memory>
    ghost outset: { Outset P P.Shared }
    requires code { code.now.nodes ≡ P.theory.code }
    requires sound { IsSoundMachine P.theory.code machine.old }
    requires looked { HasLooked P.theory.calls InVain machine.old.known outset.port outset.shared }
    ensures ok { IfOk result (λ made. GlidesTwice P.theory
        machine.old outset.port outset.shared made machine.new) }
    ensures err { OnErr result (IsSame P.theory.code machine.old machine.new) }
{
    let Focus::Return(Done::Val(_)) = machine.focus else {
        return Ok(false);
    };
    let Some(&Frame::Loop(id, turn)) = machine.frames.last() else {
        return Ok(false);
    };
    machine.turn_goes_on(id, turn, code.node(id))?;
    Ok(true)
}

/// Makes the rule of a bracket with the result that stands there, and answers what it shows, yet to be told. It is
/// seldom: laid into the loop of a burst, what it answers would be zeroed before each rule.
#[inline(never)]
pub(crate) fn bracket_rule<P: Port>(
    machine: &mut Machine,
    code: &Code,
    looked: Looked,
) -> Result<Option<Event>, Memory>
    ghost outset: { Outset P P.Shared }
    requires code { code.now.nodes ≡ P.theory.code }
    requires sound { IsSoundMachine P.theory.code machine.old }
    requires countable { machine.old.acquired < 2 ^ 63 }
    requires looked { HasLooked P.theory.calls looked machine.old.known outset.port outset.shared }
    ensures ok { IfOk result (λ shown. ShowsOnce P.theory
        machine.old outset.port outset.shared shown machine.new) }
    ensures same { OnErr result (IsSame P.theory.code machine.old machine.new) }
{
    let Focus::Return(done) = machine.focus else {
        return Ok(None);
    };
    match look_ahead::<P>(machine, looked) {
        Ahead::Rule => machine.bracket_result(code, done),
        Ahead::Look | Ahead::Cancellation => Ok(None),
    }
}
