//! Two pairs of fibers, each at a queue of its own.

use crate::searched::{searched, set_of};
use fx_search::Ending;
use fx_space::Choices;
use fx_text::parse;
use std::test::Fail;

/// The main fiber and the third one put something into the one queue, the two others into the other one. Each pair can do so
/// in two orders, and whoever comes second makes its step at once, since nobody else is left at that queue.
const PAIRS: &[u8] = b"(queue p 2) (queue q 2) (main
    (start a (offer q 1) (start b (offer q 2) (start c (offer p 1) (offer p 2)))))";

/// By state, in the order in which they are met, which fibers are asleep there: of those whose put is still to come the ones
/// that are at the other queue, and have a lesser number than the fiber that has just put something.
const ASLEEP: [&[u32]; 10] = [
    // before any step, and as each is about to put
    &[],
    &[],
    // after the put of the main fiber, of the first one, the second one and the third one
    &[],
    &[0],
    &[0],
    &[1, 2],
    // and at rest: after the main fiber's the first one's or the second one's, and after each of these the third one's
    &[],
    &[],
    &[],
    &[],
];

/// The states in which nobody is known to make a step as they are expanded: the first one, since the main fiber's first step
/// was never made before, and those at rest.
const NOTED: &[usize] = &[0, 6, 7, 8, 9];

#[test]
fn fibers_sleep_after_steps_that_can_be_made_before_theirs(rt: HostRuntime) -> Result<(), Fail> {
    let script = parse(rt.alloc(), PAIRS)?;
    let (met, _) = searched(rt.alloc(), &script, Choices::Scheduled)?;
    assert!(rt; met.ending == Ending::Exhausted && met.states.len() == ASLEEP.len());
    for index in 0..ASLEEP.len() {
        assert!(rt; met.asleep.get(index) == Some(&set_of(ASLEEP[index])));
    }
    Ok(())
}

#[test]
fn states_are_noted_in_which_nobody_is_known_to_step(rt: HostRuntime) -> Result<(), Fail> {
    let script = parse(rt.alloc(), PAIRS)?;
    let (_, noted) = searched(rt.alloc(), &script, Choices::Scheduled)?;
    assert!(rt; noted.as_slice() == NOTED);
    Ok(())
}
