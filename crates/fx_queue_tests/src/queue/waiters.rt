//! Who waits at a side of a queue, and who is next.
ghost use Rattle.std.specs.Prelude.{◌≡◌, ◌<◌};

use fx_queue::{FiberQueue, Side};
use std::sync::Wait;
use std::test::Fail;

/// The next three of those who wait for an element.
fn next_three<R: Wait>(rt: &R, queue: &FiberQueue) -> [Option<u32>; 3] {
    [
        queue.next_waiter(rt, Side::Element),
        queue.next_waiter(rt, Side::Element),
        queue.next_waiter(rt, Side::Element),
    ]
}

/// Whether fiber 2 was still listed with those who wait for an element: before it waits there, and then
/// at the other side and there.
fn still_listed<R: Wait>(rt: &R, queue: &FiberQueue) -> [bool; 3]
    requires { 2 < queue.now.fibers }
{
    let gone = queue.unwait(rt, 2, Side::Element);
    queue.wait(rt, 2, Side::Element);
    let elsewhere = queue.unwait(rt, 2, Side::Room);
    let listed = queue.unwait(rt, 2, Side::Element);
    [gone, elsewhere, listed]
}

#[test]
fn the_one_listed_longest_is_next_and_listed_no_more(rt: HostRuntime) -> Result<(), Fail> {
    let (queue, _pass) = FiberQueue::new(rt.alloc(), 2, 3)?;
    // the second wait of a fiber that is listed changes nothing
    queue.wait(&rt, 1, Side::Element);
    queue.wait(&rt, 2, Side::Element);
    queue.wait(&rt, 1, Side::Element);
    assert_eq!(rt;
        (next_three(&rt, &queue), still_listed(&rt, &queue)),
        ([Some(1), Some(2), None], [false, false, true])
    );
    Ok(())
}

/// All 4,096 fibers wait for room, the highest number first.
fn all_wait<R: Wait>(rt: &R, queue: &FiberQueue)
    requires { queue.now.fibers ≡ 4096 }
{
    for fiber in 0..4096u32 {
        queue.wait(rt, 4095 - fiber, Side::Room);
    }
}

/// Whether all fibers of an even number were listed, which leave.
fn even_leave<R: Wait>(rt: &R, queue: &FiberQueue) -> bool
    requires { queue.now.fibers ≡ 4096 }
{
    let mut left = true;
    for fiber in 0..2048u32 {
        left = left && queue.unwait(rt, 2 * fiber, Side::Room);
    }
    left
}

/// Whether the fibers of odd numbers come next, the highest number first, and then none.
fn odd_come<R: Wait>(rt: &R, queue: &FiberQueue) -> bool {
    let mut ordered = true;
    for turn in 0..2048u32 {
        ordered = ordered && queue.next_waiter(rt, Side::Room) == Some(4095 - 2 * turn);
    }
    ordered && queue.next_waiter(rt, Side::Room).is_none()
}

#[test]
fn who_left_in_the_middle_is_passed_over(rt: HostRuntime) -> Result<(), Fail> {
    let (queue, _pass) = FiberQueue::new(rt.alloc(), 1, 4096)?;
    all_wait(&rt, &queue);
    assert!(rt; even_leave(&rt, &queue) && odd_come(&rt, &queue));
    Ok(())
}
