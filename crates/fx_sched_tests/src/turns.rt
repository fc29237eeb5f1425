//! Turns of one fiber, by a gate.
ghost use Rattle.std.specs.Prelude.{◌≡◌, ℕ, true};

use crate::play::{Plan, Seen, play};
use crate::steps::events_of;
use fx_fiber::{Fiber, Port};
use fx_sched::{Gate, gated_turn, leave, solo};
use fx_term::{Arg, Code, Event, Memory, Node, NodeId, Outcome};
use std::alloc::AllocGlobal;
use std::random::RandomSource;
use std::test::Fail;

/// Before each turn it names this fiber, or none.
#[derive(Clone, Copy)]
struct Names {
    id: Option<u32>,
}

impl Gate for Names {
    ghost may = { λ gate id. true };

    ghost answers = { λ gate worker fiber named. named ≡ gate.id };

    fn turn(&self, _worker: u32, _fiber: u32) -> Option<u32> {
        self.id
    }
}

/// A script, the gate, how many turns of its fiber go on before that in which it ends, and its
/// events.
struct Row {
    what: &'static str,
    nodes: &'static [Node],
    gate: Names,
    pending: u32,
    events: &'static [Event],
}

static ROWS: [Row; 3] = [
    // `for i 100 (pure i)`, which is 303 steps
    Row {
        what: "a turn has 64 steps",
        nodes: &[Node::Pure(Arg::Slot(0)), Node::For(0, 100, NodeId(0))],
        gate: Names { id: None },
        pending: 4,
        events: &[Event::Ended(Outcome::Succeeded(0))],
    },
    // `seq (cede) (seq (cede) (pure 1))`
    Row {
        what: "a turn ends where the fiber gives way",
        nodes: &[
            Node::Cede,
            Node::Cede,
            Node::Pure(Arg::Number(1)),
            Node::Let(None, NodeId(1), NodeId(2)),
            Node::Let(None, NodeId(0), NodeId(3)),
        ],
        gate: Names { id: None },
        pending: 2,
        events: &[Event::Ended(Outcome::Succeeded(1))],
    },
    Row {
        what: "what the gate names is requested before the first step",
        nodes: &[Node::Never],
        gate: Names { id: Some(0) },
        pending: 0,
        events: &[
            Event::Seen,
            Event::Cancelled,
            Event::Ended(Outcome::Canceled),
        ],
    },
];

/// How many turns of a fiber go on before that in which it ends, if that is soon, and its events.
pub fn turns<P: Port + Drop, R: RandomSource + AllocGlobal, G: Gate>(
    rt: &R,
    mut fiber: Fiber<P>,
    code: &Code,
    shared: &mut P::Shared,
    gate: &G,
) -> Result<Seen, Memory>
    requires code { code.now.nodes ≡ P.theory.code }
    requires gate { (id : ℕ) → G.may gate.now id ≡ true → P.theory.may id ≡ true }
{
    let solo = solo(rt)?;
    let mut cx = solo.begin();
    let mut pending = 0u32;
    for turn in 1..9u32 {
        if gated_turn(&mut cx, gate, 0, &mut fiber, code, shared).is_ready() {
            break;
        }
        pending = turn;
    }
    leave(cx);
    Ok(Seen {
        pending,
        events: events_of(rt.alloc(), fiber.trace())?,
    })
}

fn is_told(seen: &Seen, row: &Row) -> bool {
    seen.pending == row.pending && seen.events.as_slice() == row.events
}

#[test]
fn a_turn_begins_with_its_request_and_ends_in_time(rt: HostRuntime) -> Result<(), Fail> {
    for row in &ROWS {
        let seen = play(&rt, row.nodes, 1, Plan::Turns, &row.gate)?;
        assert!(rt; is_told(&seen, row), "{}", row.what);
    }
    Ok(())
}
