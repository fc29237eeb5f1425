//! A fiber that is requested where it looks for no request.

use crate::searched::sleep_so;
use std::test::Fail;

#[test]
fn who_cancels_sleeps_after_a_take_that_looks_for_no_request(rt: HostRuntime) -> Result<(), Fail> {
    let text = b"(queue p 1) (main (seq (offer p 7)
        (start a (mask m (take p)) (start b (take p) (cancel a)))))";
    let asleep: [&[u32]; 10] = [
        // before any step, and as `main` can cancel `a`, `a` enter its mask, and `b` take the 7
        &[],
        &[],
        // after the request: `a` is canceled at once, and `b` takes the 7
        &[],
        // after `a` has entered its mask: it saw no request before that, and would have seen one
        &[],
        // after the take of `b`: both others come to the same before it
        &[0, 1],
        // in the mask: after the request, which `a` does not look for
        &[],
        // after the take of `a`, before which the request can be made as well
        &[0],
        // after the take of `b`, with the request before it or after it
        &[],
        // after the request and the take of `a`, which is canceled after it
        &[],
        // after the take and the end of `a`
        &[],
    ];
    assert!(rt; sleep_so(&rt, text, &asleep)?);
    Ok(())
}
