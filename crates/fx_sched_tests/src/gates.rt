//! When gates are asked, and when the gate of one turn names its fiber.
ghost use Rattle.std.specs.Prelude.{false};

use crate::play::{Plan, play};
use fx_sched::{At, Gate};
use fx_term::{Arg, Node, NodeId};
use std::sync::atomic::{AtomicU64, Ordering};
use std::test::Fail;

/// It counts the turns of each fiber that it is asked before.
#[derive(Drop)]
struct Counted {
    turns: [AtomicU64; 2],
}

impl Gate for Counted {
    ghost may = { λ gate id. false };

    ghost answers = { λ gate worker fiber named. Unit {0} };

    fn turn(&self, _worker: u32, fiber: u32) -> Option<u32> {
        if let Some(turns) = self.turns.get(fiber as usize) {
            turns.fetch_add(1, Ordering::SeqCst);
        }
        None
    }
}

/// `start g (seq (cede) (pure 1)) (seq (cede) (seq (cede) (pure 2)))`.
const CEDES: &[Node] = &[
    Node::Cede,
    Node::Pure(Arg::Number(1)),
    Node::Let(None, NodeId(0), NodeId(1)),
    Node::Cede,
    Node::Cede,
    Node::Pure(Arg::Number(2)),
    Node::Let(None, NodeId(4), NodeId(5)),
    Node::Let(None, NodeId(3), NodeId(6)),
    Node::Start(0, NodeId(2), NodeId(7)),
];

/// Main has a turn that starts the other, one up to each of its yields, and the one in which it ends.
#[test]
fn workers_ask_the_gate_once_before_each_turn(rt: HostRuntime) -> Result<(), Fail> {
    let gate = Counted {
        turns: [AtomicU64::new(0), AtomicU64::new(0)],
    };
    let seen = play(&rt, CEDES, 1, Plan::Round(0), &gate)?;
    let Counted {
        turns: [main, other],
    } = gate;
    assert_eq!(rt; seen.events.len(), 2);
    assert_eq!(rt; (main.into_inner(), other.into_inner()), (4, 2));
    Ok(())
}

/// What the gate of this turn and fiber answers to the first calls, which two workers make.
fn named(turn: u64, id: u32) -> [Option<u32>; 4] {
    let gate = At::new(turn, id);
    [
        gate.turn(0, 0),
        gate.turn(1, 3),
        gate.turn(0, 3),
        gate.turn(1, 0),
    ]
}

#[test]
fn a_fiber_is_named_once_at_its_turn_among_those_of_all_workers(
    rt: HostRuntime,
) -> Result<(), Fail> {
    assert_eq!(rt; named(0, 5), [Some(5), None, None, None]);
    assert_eq!(rt; named(2, 1), [None, None, Some(1), None]);
    Ok(())
}
