//! Masks, polls and finalizers.

use super::*;

static MASKED: [Row; 3] = [
    (
        "mask p (pure 5), requested",
        &[pure!(5), mask!(0, 0)],
        Some(1),
        SEEN,
        1,
    ),
    (
        "mask p (pure 5), requested once it is masked",
        &[pure!(5), mask!(0, 0)],
        Some(2),
        SEEN,
        2,
    ),
    (
        "let _ (mask p (let _ canceled (pure 1))) (pure 5)",
        &[
            CANCELED,
            pure!(1),
            seq!(0, 1),
            mask!(0, 2),
            pure!(5),
            seq!(3, 4),
        ],
        None,
        CANCELED_LATER,
        1,
    ),
];

#[test]
fn masked_ends(rt: HostRuntime) -> Result<(), Fail> {
    assert_runs(&rt, rt.alloc(), &MASKED)
}

static OPENED: [Row; 5] = [
    (
        "mask p (let _ (poll p (pure 1)) canceled)",
        &[pure!(1), poll!(0, 0), CANCELED, seq!(1, 2), mask!(0, 3)],
        None,
        CANCELED_LATER,
        3,
    ),
    (
        "mask p (let _ (poll p (pure 1)) (pure 2)), requested inside the poll",
        &[pure!(1), poll!(0, 0), pure!(2), seq!(1, 2), mask!(0, 3)],
        Some(2),
        SEEN,
        2,
    ),
    (
        "mask a (mask b (poll b (poll a canceled)))",
        &[CANCELED, poll!(0, 0), poll!(1, 1), mask!(1, 2), mask!(0, 3)],
        None,
        CANCELED_HERE,
        1,
    ),
    (
        "mask a (mask b (poll a (poll b canceled)))",
        &[CANCELED, poll!(1, 0), poll!(0, 1), mask!(1, 2), mask!(0, 3)],
        None,
        CANCELED_LATER,
        1,
    ),
    (
        "mask p (poll p (mask r (poll p canceled)))",
        &[CANCELED, poll!(0, 0), mask!(1, 1), poll!(0, 2), mask!(0, 3)],
        None,
        CANCELED_LATER,
        2,
    ),
];

#[test]
fn opened_ends(rt: HostRuntime) -> Result<(), Fail> {
    assert_runs(&rt, rt.alloc(), &OPENED)
}

static ON_CANCEL: [Row; 2] = [
    (
        "oncancel (pure 1) (raise 2), requested at its result",
        &[pure!(1), raise!(2), on_cancel!(0, 1)],
        Some(2),
        SEEN,
        2,
    ),
    (
        "oncancel (pure 3) (raise 9)",
        &[pure!(3), raise!(9), on_cancel!(0, 1)],
        None,
        &[Event::Ended(Outcome::Succeeded(3))],
        3,
    ),
];

#[test]
fn oncancel_ends(rt: HostRuntime) -> Result<(), Fail> {
    assert_runs(&rt, rt.alloc(), &ON_CANCEL)
}
