//! The order in which tasks come out of the deques.
use fx_sched::{Owner, Tasks};
use std::sync::Wait;
use std::test::Fail;

/// Puts these into the deque of one hand and 9 into that of another: whether there was room.
fn are_put(hand: &mut Owner<u32>, other: &mut Owner<u32>, tasks: &[u32]) -> bool {
    tasks.iter().all(|task| hand.push(*task).is_ok()) && other.push(9).is_ok()
}

/// What that hand takes then, and what the other takes after it.
fn taken<R: Wait>(
    rt: &R,
    work: &Tasks<u32>,
    hand: &mut Owner<u32>,
    other: &mut Owner<u32>,
) -> [Option<u32>; 4] {
    [
        hand.next(rt, work),
        other.next(rt, work),
        other.next(rt, work),
        other.next(rt, work),
    ]
}

/// What is in the deque of one hand, and what is taken then: first by it, and then by the other, which has 9.
static ROWS: [(&[u32], [Option<u32>; 4]); 2] = [
    // (up to half of more than three are for others)
    (&[1, 2, 3, 4, 5], [Some(1), Some(9), Some(2), Some(3)]),
    // (three are left to their worker)
    (&[1, 2, 3, 4], [Some(1), Some(9), None, None]),
];

#[test]
fn its_own_come_first_and_then_those_that_others_can_spare(rt: HostRuntime) -> Result<(), Fail> {
    for (tasks, wanted) in &ROWS {
        let (work, mut hands) = Tasks::new(rt.alloc(), 2)?;
        let [hand, other] = hands.as_mut_slice() else {
            panic!(rt; "two workers have two hands")
        };
        assert!(rt; are_put(hand, other, tasks));
        assert_eq!(rt; taken(&rt, &work, hand, other), *wanted);
    }
    Ok(())
}
