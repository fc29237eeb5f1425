//! Two fibers, each on a thread of its own.
use super::play::{Plan, play};
use fx_term::{Arg, Event, Node, NodeId, Stamped};
use std::test::Fail;

/// `start h (for i 100 (offer q i)) (for i 100 (take q))`.
static SENDS_MANY: [Node; 5] = [
    Node::Offer(0, Arg::Slot(0)),
    Node::For(0, 100, NodeId(0)),
    Node::Take(0),
    Node::For(1, 100, NodeId(2)),
    Node::Start(0, NodeId(1), NodeId(3)),
];

/// The same loop in both fibers, of a put and a take: so neither waits for good while the queue has room for
/// two.
static BOTH_WAYS: [Node; 9] = [
    Node::Offer(0, Arg::Slot(0)),
    Node::Take(0),
    Node::Let(None, NodeId(0), NodeId(1)),
    Node::For(0, 100, NodeId(2)),
    Node::Offer(0, Arg::Slot(1)),
    Node::Take(0),
    Node::Let(None, NodeId(4), NodeId(5)),
    Node::For(1, 100, NodeId(6)),
    Node::Start(0, NodeId(3), NodeId(7)),
];

/// How many elements a fiber got out of queue 0, where these are 0, 1 and so on.
fn got_in_order(trace: &[Stamped]) -> Option<u64> {
    let mut next = 0u64;
    for one in trace {
        if let Event::Got(0, value) = one.event {
            if value != next {
                return None;
            }
            next = next.wrapping_add(1);
        }
    }
    Some(next)
}

/// How many elements a fiber got out of queue 0, and their sum.
fn got(trace: &[Stamped]) -> (u64, u64) {
    let mut count = 0u64;
    let mut sum = 0u64;
    for one in trace {
        if let Event::Got(0, value) = one.event {
            count = count.wrapping_add(1);
            sum = sum.wrapping_add(value);
        }
    }
    (count, sum)
}

/// Whether each element that was got out of queue 0 has a greater stamp than its put, where the one that is
/// put as the nth event is n.
fn are_got_later(puts: &[Stamped], gots: &[Stamped]) -> bool {
    for one in gots {
        if let Event::Got(0, value) = one.event {
            let Some(put) = puts.get(value as usize) else {
                return false;
            };
            if put.event != Event::Put(0, value) || one.stamp <= put.stamp {
                return false;
            }
        }
    }
    true
}

#[test]
fn elements_go_from_one_thread_to_another_in_order(rt: HostRuntime) -> Result<(), Fail> {
    let seen = play(&rt, rt.alloc(), &SENDS_MANY, 3, Plan::TwoThreads)?;
    let main = seen.traces.first();
    assert!(rt; main.map(|trace| got_in_order(trace)) == Some(Some(100)));
    assert!(rt; matches!(seen.traces.as_slice(), [main, other] if are_got_later(other, main)));
    Ok(())
}

/// The numbers below 100 are put twice, and come to 9,900.
#[test]
fn each_of_two_threads_takes_what_either_put(rt: HostRuntime) -> Result<(), Fail> {
    let seen = play(&rt, rt.alloc(), &BOTH_WAYS, 2, Plan::TwoThreads)?;
    let mut all = 0u64;
    for trace in &seen.traces {
        let (count, sum) = got(trace);
        assert!(rt; count == 100);
        all = all.wrapping_add(sum);
    }
    assert!(rt; seen.traces.len() == 2 && all == 9900);
    Ok(())
}
