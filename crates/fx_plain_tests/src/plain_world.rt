//! The world of one thread: after each change of it the least fiber that may step.
ghost use Rattle.std.specs.Prelude.{◌≡◌};

use Step::{Does, Knows, Stamps, Takes};
use fx_fiber::Source;
use fx_plain::PlainWorld;
use fx_term::{CodeBrand, Item, Memory, Outcome};
use fx_text::{Script, parse};
use std::alloc::Global;
use std::marker::Brand;
use std::process::Abort;
use std::test::Fail;

/// A script of three fibers, and one that has a queue of one place too.
const THREE: &[u8] = b"(main (start h (cede) (start k (cede) (cede))))";

const THREE_AND_A_QUEUE: &[u8] = b"(queue q 1) (main (start h (cede) (start k (cede) (cede))))";

/// A script of as many fibers as a script can have.
const MOST: &[u8] = b"(main (for i 4095 (start h (cede) (cede))))";

/// What is done to a world. An element is put into queue 0, if that has room, or taken out of it.
#[derive(Clone, Copy)]
enum Deed {
    Starts(u32),
    Waits(u32, Source),
    Request(u32),
    /// A request with this stamp; all others have 4.
    RequestAt(u64, u32),
    RequestFromOutside(u32),
    /// An end, which has the stamp 6.
    Ends(u32),
    Put,
    Take,
}

fn does(world: &mut PlainWorld, deed: Deed) -> Result<(), Memory> {
    match deed {
        Deed::Starts(fiber) => world.start(fiber),
        Deed::Waits(fiber, source) => {
            if fiber < world.total() {
                world.wait(fiber, source);
            }
        }
        Deed::Request(fiber) => world.request(fiber, 4),
        Deed::RequestAt(stamp, fiber) => world.request(fiber, stamp),
        Deed::RequestFromOutside(fiber) => world.request_from_outside(fiber),
        Deed::Ends(fiber) => world.finish(fiber, Outcome::Canceled, 6),
        Deed::Put => put(world)?,
        Deed::Take => {
            let _ = world.take(0);
        }
    }
    Ok(())
}

fn put(world: &mut PlainWorld) -> Result<(), Memory> {
    if world.has_room(0) {
        world.put(
            0,
            Item {
                fiber: 0,
                nth: 0,
                value: 7,
                stamp: 3,
            },
        )?;
    }
    Ok(())
}

/// What is done to a world, or asked of it, and what it answers.
#[derive(Clone, Copy)]
enum Step {
    /// This is done, and then this fiber is the least that may step.
    Does(Deed, Option<u32>),
    /// Whether this fiber is requested, and how it has ended.
    Knows(u32, bool, Option<Outcome>),
    /// The greatest stamp of the requests for this fiber, and that of its end.
    Stamps(u32, u64, u64),
    /// What is taken out of this queue, and the stamp of its put.
    Takes(u8, Option<(u64, u64)>),
}

/// The value and the stamp of what is taken out of the queue.
fn taken(world: &mut PlainWorld, queue: u8) -> Option<(u64, u64)> {
    let item = world.take(queue)?;
    Some((item.value, item.stamp))
}

/// Makes the step: whether the world answers so.
fn answers(world: &mut PlainWorld, step: Step) -> Result<bool, Memory> {
    match step {
        Does(deed, least) => {
            does(world, deed)?;
            Ok(world.least() == least)
        }
        Knows(fiber, is_requested, outcome) => Ok(
            world.is_requested(fiber) == is_requested && world.outcome(fiber) == outcome,
        ),
        Stamps(fiber, asked, ended) => Ok(
            world.asked(fiber) == asked && world.ended(fiber) == ended,
        ),
        Takes(queue, element) => Ok(taken(world, queue) == element),
    }
}

fn assert_answers(rt: &impl Abort, world: &mut PlainWorld, steps: &[Step]) -> Result<(), Memory> {
    for (i, &step) in steps.iter().enumerate() {
        assert!(rt; answers(world, step)?, "step {i}");
    }
    Ok(())
}

/// Makes the world of a script, whose main fiber alone may step at first, and one step after the other in
/// it. No other function here owns a world.
fn assert_steps_as<J: CodeBrand>(
    rt: &impl Abort,
    alloc: Global,
    script: &Script,
    steps: &[Step],
) -> Result<(), Memory>
    requires { script.now.code.nodes ≡ J.nodes }
{
    let (mut world, _) = PlainWorld::new::<J>(alloc, script)?;
    assert_answers(rt, &mut world, steps)
}

/// The same in the world of the script of a text.
fn assert_steps(rt: &impl Abort, alloc: Global, text: &[u8], steps: &[Step]) -> Result<(), Fail> {
    let script = parse(alloc, text)?;
    Ok(assert_steps_as::<Brand>(rt, alloc, &script, steps)?)
}

static STARTS_AND_ENDS: [Step; 6] = [
    Does(Deed::Starts(2), Some(0)),
    Does(Deed::Waits(0, Source::Outcome(2)), Some(2)),
    Does(Deed::Ends(2), Some(0)),
    Does(Deed::Waits(0, Source::Nothing), None),
    Does(Deed::RequestFromOutside(0), Some(0)),
    Does(Deed::Ends(0), None),
];

#[test]
fn the_least_is_one_that_may_step(rt: HostRuntime) -> Result<(), Fail> {
    assert_steps(&rt, rt.alloc(), THREE, &STARTS_AND_ENDS)
}

/// Fiber 0 waits for an element, fiber 1 for room, and fiber 2 for room in a queue that there is not. A
/// request makes a fiber able whatever it waits for.
static AT_A_QUEUE: [Step; 13] = [
    Does(Deed::Starts(1), Some(0)),
    Does(Deed::Starts(2), Some(0)),
    Does(Deed::Waits(0, Source::Element(0)), Some(1)),
    Does(Deed::Waits(1, Source::Room(0)), Some(1)),
    Does(Deed::Put, Some(0)),
    Does(Deed::Waits(0, Source::Nothing), Some(2)),
    Does(Deed::Waits(2, Source::Room(1)), None),
    Does(Deed::Take, Some(1)),
    Does(Deed::Put, None),
    Does(Deed::Request(1), Some(1)),
    Does(Deed::Waits(1, Source::Element(0)), Some(1)),
    Does(Deed::Take, None),
    Does(Deed::Take, None),
];

#[test]
fn who_waits_at_a_queue_is_ready_by_the_queue(rt: HostRuntime) -> Result<(), Fail> {
    assert_steps(&rt, rt.alloc(), THREE_AND_A_QUEUE, &AT_A_QUEUE)
}

/// An end wakes those that wait for it, whatever their numbers are, and nobody else.
static WAKEN: [Step; 16] = [
    Does(Deed::Starts(5), Some(0)),
    Does(Deed::Waits(2, Source::Outcome(5)), Some(0)),
    Does(Deed::Waits(3, Source::Outcome(6)), Some(0)),
    Does(Deed::Waits(4, Source::Nothing), Some(0)),
    Does(Deed::Waits(63, Source::Outcome(5)), Some(0)),
    Does(Deed::Waits(69, Source::Either(6, 5)), Some(0)),
    Does(Deed::Waits(4095, Source::Either(5, 6)), Some(0)),
    Does(Deed::Ends(0), Some(5)),
    Does(Deed::Ends(5), Some(2)),
    Does(Deed::Ends(2), Some(63)),
    Does(Deed::Ends(63), Some(69)),
    Does(Deed::Waits(69, Source::Either(6, 7)), Some(4095)),
    Does(Deed::Ends(4095), None),
    Does(Deed::Ends(6), Some(3)),
    Does(Deed::Ends(3), Some(69)),
    Does(Deed::Ends(69), None),
];

#[test]
fn an_end_wakes_those_that_wait_for_it(rt: HostRuntime) -> Result<(), Fail> {
    assert_steps(&rt, rt.alloc(), MOST, &WAKEN)
}

/// Fiber 1 waits. Fiber 0 has ended, fiber 2 has not started, and 3 is a number of no fiber.
static REQUESTED: [Step; 6] = [
    Does(Deed::Waits(1, Source::Nothing), Some(0)),
    Does(Deed::Ends(0), None),
    Does(Deed::Request(0), None),
    Does(Deed::Request(2), None),
    Does(Deed::Request(3), None),
    Does(Deed::Request(1), Some(1)),
];

#[test]
fn a_request_moves_a_fiber_that_waits(rt: HostRuntime) -> Result<(), Fail> {
    assert_steps(&rt, rt.alloc(), THREE, &REQUESTED)
}

/// Fibers become able from the last one to the first one, in words of 64 numbers each.
static ABLE: [Step; 6] = [
    Does(Deed::Ends(0), None),
    Does(Deed::Starts(4095), Some(4095)),
    Does(Deed::Starts(64), Some(64)),
    Does(Deed::Starts(63), Some(63)),
    Does(Deed::Starts(0), Some(0)),
    Does(Deed::Starts(65), Some(0)),
];

/// Fibers end from the first one on; the last one, alone in its word, has not started.
static OVER: [Step; 7] = [
    Does(Deed::Starts(63), Some(0)),
    Does(Deed::Starts(64), Some(0)),
    Does(Deed::Ends(0), Some(63)),
    Does(Deed::Ends(63), Some(64)),
    Does(Deed::Ends(4095), Some(64)),
    Does(Deed::Ends(64), None),
    Does(Deed::Starts(64), Some(64)),
];

#[test]
fn the_least_is_found_over_all_words(rt: HostRuntime) -> Result<(), Fail> {
    assert_steps(&rt, rt.alloc(), MOST, &ABLE)?;
    assert_steps(&rt, rt.alloc(), MOST, &OVER)
}

/// What was done of fiber 2 is known of it alone, also where there is no fiber of the number.
static OF_THE_THIRD: [Step; 8] = [
    Does(Deed::Request(2), Some(0)),
    Does(Deed::Request(3), Some(0)),
    Does(Deed::Ends(2), Some(0)),
    Does(Deed::Ends(3), Some(0)),
    Knows(0, false, None),
    Knows(1, false, None),
    Knows(2, true, Some(Outcome::Canceled)),
    Knows(3, false, None),
];

#[test]
fn requests_and_outcomes_are_by_number(rt: HostRuntime) -> Result<(), Fail> {
    assert_steps(&rt, rt.alloc(), THREE, &OF_THE_THIRD)
}

/// Of the stamps of several requests the greatest counts, in whatever order they come, and none of a
/// request from outside, which has none.
static ASKED: [Step; 8] = [
    Does(Deed::RequestAt(5, 2), Some(0)),
    Does(Deed::RequestAt(7, 2), Some(0)),
    Does(Deed::RequestAt(6, 2), Some(0)),
    Does(Deed::RequestFromOutside(2), Some(0)),
    Stamps(2, 7, 0),
    Does(Deed::RequestFromOutside(1), Some(0)),
    Stamps(1, 0, 0),
    Stamps(3, 0, 0),
];

/// An end has its own stamp, whatever its fiber was requested with.
static ENDED: [Step; 4] = [
    Does(Deed::RequestAt(9, 2), Some(0)),
    Does(Deed::Ends(2), Some(0)),
    Stamps(2, 9, 6),
    Stamps(1, 0, 0),
];

#[test]
fn the_greatest_stamp_of_requests_counts_and_an_end_has_its_own(
    rt: HostRuntime,
) -> Result<(), Fail> {
    assert_steps(&rt, rt.alloc(), THREE, &ASKED)?;
    assert_steps(&rt, rt.alloc(), THREE, &ENDED)
}

/// Queue 0 has the element, and there is no queue 1.
static TAKEN: [Step; 4] = [
    Does(Deed::Put, Some(0)),
    Takes(1, None),
    Takes(0, Some((7, 3))),
    Takes(0, None),
];

#[test]
fn a_taken_element_is_the_one_that_was_put(rt: HostRuntime) -> Result<(), Fail> {
    assert_steps(&rt, rt.alloc(), THREE_AND_A_QUEUE, &TAKEN)
}
