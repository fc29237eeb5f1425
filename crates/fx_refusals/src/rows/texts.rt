//! The texts of scripts and of schedules, and the code of a script.

use crate::harness::{Answer, OTHER, UNSET, whole_where};
use crate::refuser::Refuser;
use crate::scripts::Worked;
use crate::shown::{is_replayed, room};
use fx_plain::{ENDED, PlainFault, replay_text};
use fx_term::{Arg, Code, CodeFault, Node, NodeId};
use fx_text::{Pick, TextFault, TextKind, parse, schedule};
use std::alloc::Global;

/// Which call is refused memory.
#[derive(Clone, Copy)]
pub enum TextCall {
    Parse,
    ReplayText,
    Schedule,
    Build,
}

/// Want of memory is the fault 14 at byte 0.
fn answer_of(fault: TextFault) -> Answer {
    match fault.kind {
        TextKind::Memory if fault.number() == 14 && fault.at == 0 => Answer::Memory,
        _ => OTHER,
    }
}

/// What the reader of this script answers.
fn parsed(alloc: Global, worked: &Worked, refuser: &Refuser) -> Answer {
    refuser.go_on();
    let read = parse(alloc, worked.text.as_bytes());
    refuser.hold();
    match read {
        Ok(script) => whole_where(is_replayed(alloc, &script, worked.report)),
        Err(fault) => answer_of(fault),
    }
}

static PICKS: [Pick; 7] = [
    Pick::Step(0),
    Pick::Step(0),
    Pick::Step(1),
    Pick::Cancel(1),
    Pick::Step(0),
    Pick::Step(1),
    Pick::Cancel(0),
];

/// What the reader of a schedule answers.
fn scheduled(alloc: Global, refuser: &Refuser) -> Answer {
    refuser.go_on();
    let read = schedule(alloc, b"0 0 1 c1 0 1 c0");
    refuser.hold();
    match read {
        Ok(picks) => whole_where(picks.as_slice() == PICKS.as_slice()),
        Err(fault) => answer_of(fault),
    }
}

/// `start h (pure 1) (join h (x (pure x)) (e (raise e)) (pure 2))`.
static NODES: [Node; 6] = [
    Node::Pure(Arg::Number(1)),
    Node::Pure(Arg::Slot(1)),
    Node::Raise(Arg::Slot(1)),
    Node::Pure(Arg::Number(2)),
    Node::Join(0, 1, NodeId(1), 1, NodeId(2), NodeId(3)),
    Node::Start(0, NodeId(0), NodeId(4)),
];

/// What a code answers as it is built.
fn built(alloc: Global, refuser: &Refuser) -> Answer {
    let Ok(nodes) = Vec::from_slice(alloc, &NODES) else {
        return UNSET;
    };
    refuser.go_on();
    let built = Code::build(alloc, nodes, 0);
    refuser.hold();
    match built {
        Ok(code) => whole_where(code.len() == 6),
        Err(CodeFault::Memory) => Answer::Memory,
        Err(_) => OTHER,
    }
}

/// What a replay from text to text answers.
fn replays(alloc: Global, worked: &Worked, refuser: &Refuser) -> Answer {
    let mut reader = worked.text.as_bytes();
    let Ok(mut written) = room(alloc) else {
        return UNSET;
    };
    refuser.go_on();
    let status = replay_text(alloc, &mut reader, &[], &mut written);
    refuser.hold();
    match status {
        Err(PlainFault::Memory) if written.is_empty() => Answer::Memory,
        Ok(ENDED) => whole_where(written.as_slice() == worked.report.as_bytes()),
        _ => OTHER,
    }
}

/// What the call answers.
pub fn made(alloc: Global, worked: &Worked, of: TextCall, refuser: &Refuser) -> Answer {
    match of {
        TextCall::Parse => parsed(alloc, worked, refuser),
        TextCall::ReplayText => replays(alloc, worked, refuser),
        TextCall::Schedule => scheduled(alloc, refuser),
        TextCall::Build => built(alloc, refuser),
    }
}
