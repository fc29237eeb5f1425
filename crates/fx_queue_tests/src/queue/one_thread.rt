//! One fiber and its queue.
ghost use Rattle.std.specs.Prelude.{◌<◌, ◌≤◌};

use super::putting::put;
use fx_queue::FiberQueue;
use fx_term::{Item, Memory};
use std::alloc::Global;
use std::sync::Wait;
use std::test::Fail;

/// How many of three offers a queue with so much room takes, what is taken of it then, and what is left;
/// of one that gives an element while it is empty, nothing.
fn offered_three<R: Wait>(
    rt: &R,
    alloc: Global,
    room: u32,
) -> Result<(u64, Option<Item>, Vec<Item>), Memory>
    requires { (0 < room) × (room ≤ 1024) }
{
    let (queue, mut pass) = FiberQueue::new(alloc, room, 3)?;
    let None = queue.take_as(rt, &mut pass) else {
        return Ok((0, None, Vec::new(alloc)));
    };
    let mut tally = put(rt, &queue, pass, 0, 5..8);
    let front = queue.take_as(rt, &mut tally.pass);
    let rest = queue.close(rt, tally.pass)?;
    Ok((tally.count, front, rest))
}

static FRONT: Option<Item> = Some(Item {
    fiber: 0,
    nth: 0,
    value: 5,
    stamp: 1,
});

static REST: [Item; 2] = [
    Item {
        fiber: 0,
        nth: 1,
        value: 6,
        stamp: 2,
    },
    Item {
        fiber: 0,
        nth: 2,
        value: 7,
        stamp: 3,
    },
];

#[test]
fn first_comes_first_and_what_is_left_is_told(rt: HostRuntime) -> Result<(), Fail> {
    let (count, front, rest) = offered_three(&rt, rt.alloc(), 2)?;
    assert_eq!(rt; (count, front, rest.as_slice()), (2, FRONT, &REST[..1]));
    Ok(())
}

#[test]
fn three_come_out_with_the_stamps_of_their_puts(rt: HostRuntime) -> Result<(), Fail> {
    let (count, front, rest) = offered_three(&rt, rt.alloc(), 3)?;
    assert_eq!(rt;
        (count, front, rest.as_slice()),
        (3, FRONT, REST.as_slice())
    );
    Ok(())
}
