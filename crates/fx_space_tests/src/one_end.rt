//! A fiber that waits for the first of two ends, of which one comes, and two others at a queue.

use crate::searched::{searched, set_of};
use fx_search::Ending;
use fx_space::Choices;
use fx_text::parse;
use std::test::Fail;

/// The first fiber ends at once, the second one never does, and the third one waits for either. The main fiber and the fourth
/// one put something into the queue, in two orders: whoever comes second makes its step at once.
const ONE_END: &[u8] = b"(queue p 2) (main
    (start a (pure 1) (start b (never) (start r (first a b) (start c (offer p 2) (offer p 1))))))";

/// By state, in the order in which they are met, which fibers are asleep there. Who learns of the one end can make no other
/// step, so the main fiber, which has a lesser number and can make its step before that, sleeps after it.
const ASLEEP: [&[u32]; 5] = [
    // before any step, and as three can make one
    &[],
    &[],
    // at rest, since after the main fiber's put one fiber alone can step; and after the third one has learnt of the end
    &[],
    &[0],
    // at rest, after the fourth one's put
    &[],
];

#[test]
fn fibers_sleep_after_a_step_that_learns_of_the_one_end_that_has_come(
    rt: HostRuntime,
) -> Result<(), Fail> {
    let script = parse(rt.alloc(), ONE_END)?;
    let (met, _) = searched(rt.alloc(), &script, Choices::All)?;
    assert!(rt; met.ending == Ending::Exhausted && met.states.len() == ASLEEP.len());
    for index in 0..ASLEEP.len() {
        assert!(rt; met.asleep.get(index) == Some(&set_of(ASLEEP[index])));
    }
    Ok(())
}

/// The same in a search by the steps of a schedule, in which each end but the main fiber's is left to its turn.
const ASLEEP_BY_SCHEDULES: [&[u32]; 13] = [
    // before any step; and as the first one can end, and two can put
    &[],
    &[],
    // after both puts, the main fiber's first; after the end of the first one, before which the main fiber can put; after both
    // puts, the fourth one's first, before which the first one can end
    &[],
    &[0],
    &[1],
    // after both puts and then the end of the first one; and at rest
    &[],
    &[],
    // after the end of the first one of which the third one has learnt, before which the main fiber can put; and after both
    // puts, before which the third one can learn of that end
    &[0],
    &[3],
    // at rest, where the fourth one put first
    &[],
    // after both puts, as the third one has learnt of the end
    &[],
    // after the end of the third one, before which the main fiber can put; and after both puts, before which it can end
    &[0],
    &[3],
];

#[test]
fn who_learns_of_the_one_end_that_has_come_sleeps_after_steps_of_others(
    rt: HostRuntime,
) -> Result<(), Fail> {
    let script = parse(rt.alloc(), ONE_END)?;
    let (met, _) = searched(rt.alloc(), &script, Choices::Scheduled)?;
    assert!(rt; met.ending == Ending::Exhausted && met.states.len() == ASLEEP_BY_SCHEDULES.len());
    for index in 0..ASLEEP_BY_SCHEDULES.len() {
        assert!(rt; met.asleep.get(index) == Some(&set_of(ASLEEP_BY_SCHEDULES[index])));
    }
    Ok(())
}

/// Two fibers end, and the third one takes the first of these ends, that of the second one before that of the first one.
const BOTH_END: &[u8] =
    b"(main (start a (pure 1) (start b (pure 2) (start r (first b a) (pure 0)))))";

/// By state, in a search by the steps of a schedule, which fibers are asleep there. Where the third one has learnt of the first
/// one's end, the second one, which has a lesser number, is awake: if it ends before, a schedule learns of its end.
const AWAKE_TO_END: [&[u32]; 9] = [
    // before any step, and as two can end
    &[],
    &[],
    // after the first one's end; and after the second one's, before which the first one can end
    &[],
    &[1],
    // after both ends; after the first one's, of which the third one has learnt; and after the second one's, of which it has
    &[],
    &[],
    &[],
    // at rest, as it learnt of the second one's end; and of the first one's
    &[],
    &[],
];

#[test]
fn no_end_sleeps_by_schedules_after_a_step_that_learns_of_another_one(
    rt: HostRuntime,
) -> Result<(), Fail> {
    let script = parse(rt.alloc(), BOTH_END)?;
    let (met, _) = searched(rt.alloc(), &script, Choices::Scheduled)?;
    assert!(rt; met.ending == Ending::Exhausted && met.states.len() == AWAKE_TO_END.len());
    for index in 0..AWAKE_TO_END.len() {
        assert!(rt; met.asleep.get(index) == Some(&set_of(AWAKE_TO_END[index])));
    }
    Ok(())
}
