//! Queues as they are closed.

use crate::harness::{Answer, OTHER, UNSET, whole_where};
use crate::refuser::Refuser;
use fx_port::{close_queues, open_queues};
use fx_queue::FiberQueue;
use fx_term::{Item, Memory};
use std::alloc::Global;
use std::sync::Wait;

/// What is closed.
#[derive(Clone, Copy)]
pub enum ClosingCall {
    Queue,
    Queues,
}

const FIRST: Item = Item {
    fiber: 0,
    nth: 0,
    value: 5,
    stamp: 0,
};

/// What a queue with one element answers as it is closed.
fn queue_closed<R: Wait>(rt: &R, alloc: Global, refuser: &Refuser) -> Answer {
    let Ok((queue, mut pass)) = FiberQueue::new(alloc, 8, 3) else {
        return UNSET;
    };
    if queue.offer_as(rt, &mut pass, FIRST).is_err() {
        return OTHER;
    }
    refuser.go_on();
    let rest = queue.close(rt, pass);
    refuser.hold();
    match rest {
        Ok(rest) => whole_where(rest.as_slice() == [FIRST].as_slice()),
        Err(Memory) => Answer::Memory,
    }
}

/// What 2 queues answer as they are closed.
fn queues_closed<R: Wait>(rt: &R, alloc: Global, refuser: &Refuser) -> Result<Answer, Memory> {
    let (queues, passes) = open_queues(alloc, &[1, 8], 3)?;
    refuser.go_on();
    let left = close_queues(rt, alloc, queues, passes);
    refuser.hold();
    match left {
        Ok(left) => Ok(whole_where(left.len() == 2)),
        Err(Memory) => Ok(Answer::Memory),
    }
}

/// What the call answers.
pub fn made<R: Wait>(rt: &R, alloc: Global, of: ClosingCall, refuser: &Refuser) -> Answer {
    match of {
        ClosingCall::Queue => queue_closed(rt, alloc, refuser),
        ClosingCall::Queues => queues_closed(rt, alloc, refuser).unwrap_or(UNSET),
    }
}
