//! The rules of a burst between two looks.
ghost use Rattle.std.specs.Prelude.{◌≡◌, ◌≤◌, ◌<◌, IfOk, OnErr};
ghost use Rattle.std.specs.Vec.{vec_len, vec_capacity};
ghost use Rattle.fx_fiber.specs.Bursts.{Outset, HasLooked, LeadsTo, Reaches, ReachesShort, HasRoomAfter};

use crate::fiber::ahead::{Ahead, Looked, look_ahead};
use crate::fiber::body::Body;
use crate::fiber::glide::{Glided, bracket_rule, glide};
use crate::fiber::trace_room::have_room;
use crate::port::Port;
use fx_term::{Code, Memory};

/// How far a burst came with no look.
#[derive(Clone, Copy)]
pub(crate) enum Reached {
    /// So many steps, and a look comes next.
    Looks(u32),
    /// So many steps, and it makes no more.
    Stops(u32),
}

/// Makes silent rules and those of brackets, from so many steps of a burst to at most so many, until a look
/// comes first. It asks the port nothing, so its loop is the same one over ports of all kinds, and no call
/// in it can wait: with calls that can, LLVM joins fewer jumps. It is laid in where it is known whether a look
/// serves, so that no rule asks that again.
#[inline(always)]
fn rules<P: Port>(
    body: &mut Body,
    code: &Code,
    from: u32,
    most: u32,
    looked: Looked,
) -> Result<Reached, Memory>
    ghost outset: { Outset P P.Shared }
    requires code { code.now.nodes ≡ P.theory.code }
    requires few { from ≤ most }
    requires to { LeadsTo P.theory outset from
        body.old.machine body.old.trace.items body.old.clock }
    requires room { from < most → vec_len body.old.trace < vec_capacity body.old.trace }
    requires looked { HasLooked P.theory.calls looked body.old.machine.known outset.port outset.shared }
    ensures ok { IfOk result (λ reached. Reaches P.theory outset most
        reached body.new) }
    ensures room { IfOk result (λ reached. HasRoomAfter most reached body.new) }
    ensures err { OnErr result (ReachesShort P.theory outset most body.new) }
    ensures id { body.new.id ≡ body.old.id }
    ensures source { body.new.source ≡ body.old.source }
{
    // what is left is counted, since a test against 0 is cheaper than one against what is given
    let mut left = most - from;
    while left > 0 {
        match glide::<P>(&mut body.machine, code, looked, left)? {
            Glided::Went => left -= 1,
            Glided::WentTwice => left -= 2,
            Glided::Returns => match bracket_rule::<P>(&mut body.machine, code, looked)? {
                Some(event) => {
                    body.show(event);
                    left -= 1;
                    if left > 0 {
                        have_room(&mut body.trace)?;
                    }
                }
                None => return Ok(Reached::Stops(most - left)),
            },
            Glided::Looks => return Ok(Reached::Looks(most - left)),
            Glided::Stops => return Ok(Reached::Stops(most - left)),
        }
    }
    Ok(Reached::Stops(most))
}

/// The rules after a look in vain.
#[inline(never)]
pub(crate) fn rules_after_look<P: Port>(
    body: &mut Body,
    code: &Code,
    from: u32,
    most: u32,
) -> Result<Reached, Memory>
    ghost outset: { Outset P P.Shared }
    requires code { code.now.nodes ≡ P.theory.code }
    requires few { from ≤ most }
    requires to { LeadsTo P.theory outset from
        body.old.machine body.old.trace.items body.old.clock }
    requires room { from < most → vec_len body.old.trace < vec_capacity body.old.trace }
    requires looked { HasLooked P.theory.calls Looked.InVain body.old.machine.known outset.port outset.shared }
    ensures ok { IfOk result (λ reached. Reaches P.theory outset most
        reached body.new) }
    ensures room { IfOk result (λ reached. HasRoomAfter most reached body.new) }
    ensures err { OnErr result (ReachesShort P.theory outset most body.new) }
    ensures id { body.new.id ≡ body.old.id }
    ensures source { body.new.source ≡ body.old.source }
{
    rules::<P>(body, code, from, most, Looked::InVain)
}

/// The rules from a closed place on.
#[inline(never)]
pub(crate) fn closed_rules<P: Port>(
    body: &mut Body,
    code: &Code,
    most: u32,
) -> Result<Reached, Memory>
    ghost outset: { Outset P P.Shared }
    requires code { code.now.nodes ≡ P.theory.code }
    requires to { LeadsTo P.theory outset 0
        body.old.machine body.old.trace.items body.old.clock }
    requires room { vec_len body.old.trace < vec_capacity body.old.trace }
    ensures ok { IfOk result (λ reached. Reaches P.theory outset most
        reached body.new) }
    ensures room { IfOk result (λ reached. HasRoomAfter most reached body.new) }
    ensures err { OnErr result (ReachesShort P.theory outset most body.new) }
    ensures id { body.new.id ≡ body.old.id }
    ensures source { body.new.source ≡ body.old.source }
{
    rules::<P>(body, code, 0, most, Looked::NotYet)
}

/// Makes the rules of a burst before its first look. Most begin where that look comes first, and are spared
/// a call.
pub(crate) fn rules_before_look<P: Port>(
    body: &mut Body,
    code: &Code,
    most: u32,
) -> Result<Reached, Memory>
    ghost outset: { Outset P P.Shared }
    requires code { code.now.nodes ≡ P.theory.code }
    requires some { 0 < most }
    requires to { LeadsTo P.theory outset 0
        body.old.machine body.old.trace.items body.old.clock }
    requires room { vec_len body.old.trace < vec_capacity body.old.trace }
    ensures ok { IfOk result (λ reached. Reaches P.theory outset most
        reached body.new) }
    ensures err { OnErr result (ReachesShort P.theory outset most body.new) }
    ensures id { body.new.id ≡ body.old.id }
    ensures source { body.new.source ≡ body.old.source }
{
    if !body.machine.comes_inside(code)? {
        return Ok(Reached::Stops(0));
    }
    match look_ahead::<P>(&body.machine, Looked::NotYet) {
        Ahead::Rule => closed_rules::<P>(body, code, most),
        Ahead::Look => Ok(Reached::Looks(0)),
        Ahead::Cancellation => Ok(Reached::Stops(0)),
    }
}
