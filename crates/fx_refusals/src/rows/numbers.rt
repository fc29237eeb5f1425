//! The numbers of the names in scope, and what a fiber begins with.

use crate::harness::{Answer, OTHER, whole_where};
use crate::refuser::Refuser;
use fx_term::{Arg, Begin, Memory, NodeId, Registers};
use std::alloc::Global;

/// Which call is refused memory.
#[derive(Clone, Copy)]
pub enum NumberCall {
    Bind,
    Copied,
    Begin,
}

/// Gives the first name the number 7, and again where that was refused memory.
fn bound(alloc: Global, refuser: &Refuser) -> Answer {
    let mut numbers = Registers::new(alloc);
    refuser.go_on();
    let made = numbers.bind(Some(0), 7);
    refuser.hold();
    if made.is_ok() {
        return whole_where(numbers.number_of(Arg::Slot(0)) == 7);
    }
    match numbers.bind(Some(0), 7) {
        Ok(()) if numbers.number_of(Arg::Slot(0)) == 7 => Answer::Memory,
        _ => OTHER,
    }
}

/// Whether a copy of the number 7 is as it is to be.
fn copied(alloc: Global, refuser: &Refuser) -> Result<bool, Memory> {
    let mut numbers = Registers::new(alloc);
    numbers.bind(Some(0), 7)?;
    refuser.go_on();
    let copy = numbers.copied(alloc)?;
    Ok(copy.number_of(Arg::Slot(0)) == 7)
}

/// Whether a copy of what a fiber begins with is, the number 7 in it.
fn begun(alloc: Global, refuser: &Refuser) -> Result<bool, Memory> {
    let mut slots = Registers::new(alloc);
    slots.bind(Some(0), 7)?;
    let begin = Begin {
        node: NodeId(3),
        slots,
        next: 1,
        end: 2,
        stamp: 1,
    };
    refuser.go_on();
    let copy = begin.copied(alloc)?;
    Ok(copy.end == 2 && copy.stamp == 1 && copy.slots.number_of(Arg::Slot(0)) == 7)
}

/// What the call answers. What is made of it is looked at and let go without a request.
pub fn made(alloc: Global, of: NumberCall, refuser: &Refuser) -> Answer {
    let is_whole = match of {
        NumberCall::Bind => return bound(alloc, refuser),
        NumberCall::Copied => copied(alloc, refuser),
        NumberCall::Begin => begun(alloc, refuser),
    };
    refuser.hold();
    match is_whole {
        Ok(is_whole) => whole_where(is_whole),
        Err(Memory) => Answer::Memory,
    }
}
