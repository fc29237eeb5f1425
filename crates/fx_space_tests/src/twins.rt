//! Three fibers at one queue, from which each takes something, or into which each puts something.

use crate::searched::sleep_so;
use std::test::Fail;

#[test]
fn fibers_sleep_after_a_take_of_the_value_that_they_would_take(
    rt: HostRuntime,
) -> Result<(), Fail> {
    // A value below 16 is told by the number of its queue, where two numbers tell a large one.
    let texts: [&[u8]; 2] = [
        b"(queue p 3) (main (seq (offer p 7) (offer p 7) (offer p 7)
        (start a (take p) (start b (take p) (start c (take p) (pure 0))))))",
        b"(queue p 3) (main (seq (offer p 5000000070) (offer p 5000000070) (offer p 5000000070)
        (start a (take p) (start b (take p) (start c (take p) (pure 0))))))",
    ];
    // before any step, and as three can take; after the take of the first one, the second one and the third one; and at rest,
    // since who is the last to take does so at once
    let asleep: [&[u32]; 6] = [&[], &[], &[], &[1], &[1, 2], &[]];
    for text in texts {
        assert!(rt; sleep_so(&rt, text, &asleep)?);
    }
    Ok(())
}

#[test]
fn nobody_sleeps_after_a_take_that_leaves_another_value(rt: HostRuntime) -> Result<(), Fail> {
    let text = b"(queue p 3) (main (seq (offer p 7) (offer p 8) (offer p 7)
        (start a (take p) (start b (take p) (start c (take p) (pure 0))))))";
    // before any step, and as three can take; after the take of each; and at rest, as each may have taken the 8
    let asleep: [&[u32]; 8] = [&[]; 8];
    assert!(rt; sleep_so(&rt, text, &asleep)?);
    Ok(())
}

#[test]
fn fibers_sleep_after_a_put_of_their_value_where_there_is_room_for_both(
    rt: HostRuntime,
) -> Result<(), Fail> {
    let text = b"(queue p 2) (main
        (start a (offer p 5) (start b (offer p 5) (start c (offer p 5) (pure 0)))))";
    // before any step, and as three can put; after the put of the first one, the second one and the third one, where one more
    // can put; and at rest, as the third one waits, the second one, and the first one
    let asleep: [&[u32]; 8] = [&[], &[], &[], &[1], &[1, 2], &[], &[], &[]];
    assert!(rt; sleep_so(&rt, text, &asleep)?);
    Ok(())
}
