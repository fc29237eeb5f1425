//! Two fibers put and two take, each on a thread of its own.
ghost use Rattle.std.specs.Prelude.{◌≡◌, []};
ghost use Rattle.fx_queue.specs.Queues.{IsOf, IsSameFiber, joined_pass};

use super::putting::{Tally, put};
use fx_queue::{FiberQueue, QueuePass};
use fx_term::Item;
use std::sync::Wait;
use std::test::Fail;
use std::thread;
use std::thread::Threads;

const CALLS: u64 = 4000;

/// Takes in so many calls, and counts on.
fn take<R: Wait>(rt: &R, queue: &FiberQueue, mut tally: Tally, calls: u64) -> Tally
    requires queue { IsOf tally.pass queue.now }
    ensures { IsSameFiber tally.pass result.pass }
{
    'taking: for _call in 0..calls {
        match queue.take_as(rt, &mut tally.pass) {
            Some(item) => {
                tally.sum = tally.sum.wrapping_add(item.value);
                tally.count = tally.count.wrapping_add(1);
            }
            None => {}
        }
    }
    tally
}

/// All calls of a fiber that takes.
fn take_all<R: Wait>(rt: &R, queue: &FiberQueue, pass: QueuePass) -> Tally
    requires queue { IsOf pass queue.now }
    ensures { IsSameFiber pass result.pass }
{
    let tally = Tally {
        pass,
        count: 0,
        sum: 0,
    };
    take(rt, queue, tally, CALLS)
}

/// Both takers have three of the eight that are in a full queue, one after the other.
fn take_three_each<R: Wait>(rt: &R, queue: &FiberQueue, takers: (Tally, Tally)) -> (Tally, Tally)
    requires { IsOf takers.0.pass queue.now × IsOf takers.1.pass queue.now }
    ensures { IsSameFiber takers.0.pass result.0.pass × IsSameFiber takers.1.pass result.1.pass }
{
    let (one, two) = takers;
    (take(rt, queue, one, 3), take(rt, queue, two, 3))
}

fn put_both<R: Threads + Wait + Sync>(
    rt: &R,
    queue: &FiberQueue,
    one: QueuePass,
    two: QueuePass,
) -> (Tally, Tally)
    requires queue { IsOf one queue.now × IsOf two queue.now }
    requires one { (one.view.own.id ≡ 1) × (one.view.own.acts ≡ []) }
    requires two { (two.view.own.id ≡ 2) × (two.view.own.acts ≡ []) }
    ensures { IsSameFiber one result.0.pass × IsSameFiber two result.1.pass }
{
    thread::join(
        rt,
        move || -> Tally
            requires { IsOf one queue.now × (one.view.own.id ≡ 1) × (one.view.own.acts ≡ []) }
            ensures { IsSameFiber one result.pass }
        { put(rt, queue, one, 1, 0..CALLS) },
        move || -> Tally
            requires { IsOf two queue.now × (two.view.own.id ≡ 2) × (two.view.own.acts ≡ []) }
            ensures { IsSameFiber two result.pass }
        { put(rt, queue, two, 2, 0..CALLS) },
    )
}

fn take_both<R: Threads + Wait + Sync>(
    rt: &R,
    queue: &FiberQueue,
    three: QueuePass,
    four: QueuePass,
) -> (Tally, Tally)
    requires { IsOf three queue.now × IsOf four queue.now }
    ensures { IsSameFiber three result.0.pass × IsSameFiber four result.1.pass }
{
    thread::join(
        rt,
        move || -> Tally
            requires { IsOf three queue.now }
            ensures { IsSameFiber three result.pass }
        { take_all(rt, queue, three) },
        move || -> Tally
            requires { IsOf four queue.now }
            ensures { IsSameFiber four result.pass }
        { take_all(rt, queue, four) },
    )
}

fn exchange<R: Threads + Wait + Sync>(
    rt: &R,
    queue: &FiberQueue,
    putters: (QueuePass, QueuePass),
    takers: (QueuePass, QueuePass),
) -> ((Tally, Tally), (Tally, Tally))
    requires queue { IsOf putters.0 queue.now × IsOf putters.1 queue.now
        × IsOf takers.0 queue.now × IsOf takers.1 queue.now }
    requires one { (putters.0.view.own.id ≡ 1) × (putters.0.view.own.acts ≡ []) }
    requires two { (putters.1.view.own.id ≡ 2) × (putters.1.view.own.acts ≡ []) }
    ensures { IsSameFiber putters.0 result.0.0.pass × IsSameFiber putters.1 result.0.1.pass
        × IsSameFiber takers.0 result.1.0.pass × IsSameFiber takers.1 result.1.1.pass }
{
    let (one, two) = putters;
    let (three, four) = takers;
    thread::join(
        rt,
        move || -> (Tally, Tally)
            requires { IsOf one queue.now × IsOf two queue.now
                × (one.view.own.id ≡ 1) × (one.view.own.acts ≡ [])
                × (two.view.own.id ≡ 2) × (two.view.own.acts ≡ []) }
            ensures { IsSameFiber one result.0.pass × IsSameFiber two result.1.pass }
        { put_both(rt, queue, one, two) },
        move || -> (Tally, Tally)
            requires { IsOf three queue.now × IsOf four queue.now }
            ensures { IsSameFiber three result.0.pass × IsSameFiber four result.1.pass }
        { take_both(rt, queue, three, four) },
    )
}

fn sum_of(items: &[Item]) -> u64 {
    let mut sum = 0u64;
    'adding: for item in items {
        sum = sum.wrapping_add(item.value);
    }
    sum
}

/// How many elements two passes put or took, and their sum. Their taker takes both in.
fn gathered(queue: &FiberQueue, main: &mut QueuePass, two: (Tally, Tally)) -> (u64, u64)
    requires queue { IsOf main.old queue.now × IsOf two.0.pass queue.now
        × IsOf two.1.pass queue.now }
    ensures { main.new ≡ joined_pass (joined_pass main.old two.0.pass) two.1.pass }
{
    let (one, other) = two;
    queue.gather(main, one.pass);
    queue.gather(main, other.pass);
    (
        one.count.wrapping_add(other.count),
        one.sum.wrapping_add(other.sum),
    )
}

/// What was put was taken, or is left. The first eight offers find room, whoever runs when; and since
/// the main fiber then fills the queue, each taker has at least three of it, and two are left.
#[test]
fn nothing_is_lost_and_nothing_comes_twice(rt: HostRuntime) -> Result<(), Fail> {
    let (queue, mut main) = FiberQueue::new(rt.alloc(), 8, 5)?;
    let one = queue.pass(&mut main, 1, 2);
    let two = queue.pass(&mut main, 2, 3);
    let three = queue.pass(&mut main, 3, 4);
    let four = queue.pass(&mut main, 4, 5);
    let (putters, takers) = exchange(&rt, &queue, (one, two), (three, four));
    let mut main = put(&rt, &queue, main, 0, 0..8);
    let takers = take_three_each(&rt, &queue, takers);
    assert!(rt; 3 <= takers.0.count && 3 <= takers.1.count);
    let put = gathered(&queue, &mut main.pass, putters);
    let taken = gathered(&queue, &mut main.pass, takers);
    let rest = queue.close(&rt, main.pass)?;
    assert!(rt; 8 <= put.0 && rest.len() == 2);
    assert_eq!(rt;
        (put.0.wrapping_add(main.count), put.1.wrapping_add(main.sum)),
        (
            taken.0.wrapping_add(rest.len() as u64),
            taken.1.wrapping_add(sum_of(&rest))
        )
    );
    Ok(())
}
