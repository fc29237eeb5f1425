//! Puts and takes so often, on so many threads: `bench/rings` times and counts it.

ghost use Rattle.std.specs.Prelude.{◌≡◌, []};
ghost use Rattle.fx_queue.specs.Queues.{IsOf};

use crate::number;
use crossbeam_queue::ArrayQueue;
use fx_queue::{FiberQueue, QueuePass};
use fx_term::{Item, Memory};
use std::alloc::Global;
use std::env::Args;
use std::process::ExitCode;
use std::sync::Wait;
use std::thread::{self, Threads};

const CAPACITY: u32 = 64;

/// Main, two fibers that put and two that take.
const FIBERS: u32 = 5;

/// Puts an element and takes one, so often.
fn exchange_alone<R: Wait>(rt: &R, queue: &FiberQueue, mut pass: QueuePass, fiber: u32, count: u32)
    requires queue { IsOf pass queue.now }
    requires fresh { (fiber ≡ pass.view.own.id) × (pass.view.own.acts ≡ []) }
{
    let mut nth = 0u64;
    'exchanging: for _ in 0..count {
        let item = Item {
            fiber,
            nth,
            value: nth,
            stamp: 0,
        };
        match queue.offer_as(rt, &mut pass, item) {
            Ok(()) => {
                let Some(next) = nth.checked_add(1) else {
                    break;
                };
                nth = next;
            }
            Err(_full) => {}
        }
        let _ = queue.take_as(rt, &mut pass);
    }
}

/// The same on the kit's ring, which has no rule.
fn exchange_unruled<R: Wait>(rt: &R, ring: &ArrayQueue<Item>, count: u32) {
    let mut nth = 0u64;
    'exchanging: for _ in 0..count {
        let item = Item {
            fiber: 0,
            nth,
            value: nth,
            stamp: 0,
        };
        match ring.push(rt, item) {
            Ok(()) => {
                let Some(next) = nth.checked_add(1) else {
                    break;
                };
                nth = next;
            }
            Err(_full) => {}
        }
        let _ = ring.pop(rt);
    }
}

/// Puts so many elements, each once it gets room.
fn put<R: Wait>(rt: &R, queue: &FiberQueue, mut pass: QueuePass, fiber: u32, count: u64)
    requires queue { IsOf pass queue.now }
    requires fresh { (fiber ≡ pass.view.own.id) × (pass.view.own.acts ≡ []) }
{
    let mut nth = 0u64;
    'putting: for _ in rt.forever() {
        if count <= nth {
            break;
        }
        let item = Item {
            fiber,
            nth,
            value: nth,
            stamp: 0,
        };
        match queue.offer_as(rt, &mut pass, item) {
            Ok(()) => {
                let Some(next) = nth.checked_add(1) else {
                    break;
                };
                nth = next;
            }
            Err(_full) => thread::yield_now(),
        }
    }
}

/// Takes so many elements.
fn take<R: Wait>(rt: &R, queue: &FiberQueue, mut pass: QueuePass, count: u64)
    requires queue { IsOf pass queue.now }
{
    let mut taken = 0u64;
    'taking: for _ in rt.forever() {
        if count <= taken {
            break;
        }
        match queue.take_as(rt, &mut pass) {
            Some(_item) => {
                let Some(next) = taken.checked_add(1) else {
                    break;
                };
                taken = next;
            }
            None => thread::yield_now(),
        }
    }
}

/// One fiber puts and one takes, each on a thread of its own.
fn exchange<R: Threads + Wait + Sync>(
    rt: &R,
    queue: &FiberQueue,
    giver: QueuePass,
    taker: QueuePass,
    fiber: u32,
    count: u64,
)
    requires queue { IsOf giver queue.now × IsOf taker queue.now }
    requires fresh { (fiber ≡ giver.view.own.id) × (giver.view.own.acts ≡ []) }
{
    let _ = thread::join(
        rt,
        move || -> u8
            requires { IsOf giver queue.now × (fiber ≡ giver.view.own.id)
                × (giver.view.own.acts ≡ []) }
        {
            put(rt, queue, giver, fiber, count);
            0
        },
        move || -> u8
            requires { IsOf taker queue.now }
        {
            take(rt, queue, taker, count);
            0
        },
    );
}

/// Two fibers put and two take.
fn exchange_twice<R: Threads + Wait + Sync>(
    rt: &R,
    queue: &FiberQueue,
    givers: (QueuePass, QueuePass),
    takers: (QueuePass, QueuePass),
    count: u64,
)
    requires queue { IsOf givers.0 queue.now × IsOf givers.1 queue.now
        × IsOf takers.0 queue.now × IsOf takers.1 queue.now }
    requires one { (givers.0.view.own.id ≡ 1) × (givers.0.view.own.acts ≡ []) }
    requires two { (givers.1.view.own.id ≡ 2) × (givers.1.view.own.acts ≡ []) }
{
    let (one, two) = givers;
    let (three, four) = takers;
    let _ = thread::join(
        rt,
        move || -> u8
            requires { IsOf one queue.now × IsOf three queue.now × (one.view.own.id ≡ 1)
                × (one.view.own.acts ≡ []) }
        {
            exchange(rt, queue, one, three, 1, count);
            0
        },
        move || -> u8
            requires { IsOf two queue.now × IsOf four queue.now × (two.view.own.id ≡ 2)
                × (two.view.own.acts ≡ []) }
        {
            exchange(rt, queue, two, four, 2, count);
            0
        },
    );
}

/// What the words after `queues` ask for: how often, and on which ring by how many threads, where 0 stands for the
/// kit's own ring, on one thread.
#[derive(Clone, Copy)]
pub(crate) struct Asked {
    count: u32,
    threads: u32,
}

pub(crate) fn wanted(given: &mut Args) -> Option<Asked> {
    let count = number(given)?;
    let threads = number(given)?;
    Some(Asked { count, threads })
}

fn run<R: Threads + Wait + Sync>(rt: &R, alloc: Global, asked: Asked) -> Result<(), Memory> {
    let Asked { count, threads } = asked;
    let ring = ArrayQueue::new(alloc, CAPACITY as usize)?;
    let (queue, mut main) = FiberQueue::new(alloc, CAPACITY, FIBERS)?;
    let one = queue.pass(&mut main, 1, 2);
    let two = queue.pass(&mut main, 2, 3);
    let three = queue.pass(&mut main, 3, 4);
    let four = queue.pass(&mut main, 4, 5);
    match threads {
        0 => exchange_unruled(rt, &ring, count),
        1 => exchange_alone(rt, &queue, one, 1, count),
        2 => exchange(rt, &queue, one, three, 1, u64::from(count)),
        _ => exchange_twice(rt, &queue, (one, two), (three, four), u64::from(count)),
    }
    Ok(())
}

/// Puts and takes, and gives the status of the program.
pub(crate) fn measure<R: Threads + Wait + Sync>(rt: &R, alloc: Global, asked: Asked) -> ExitCode {
    match run(rt, alloc, asked) {
        Ok(()) => ExitCode::from(0),
        Err(_) => ExitCode::from(5),
    }
}
