//! Cancellation and clean-ups.

use super::*;

const RELEASED_AFTER_CANCELLATION: &[Event] = &[
    Event::Acquired(0),
    Event::Cancelled,
    Event::Begin(0),
    Event::End(0),
    Event::Ended(Outcome::Canceled),
];

static FINALIZERS: [Row; 1] = [(
    "oncancel (oncancel canceled (raise 9)) canceled",
    &[
        CANCELED,
        raise!(9),
        on_cancel!(0, 1),
        CANCELED,
        on_cancel!(2, 3),
    ],
    None,
    &[
        Event::Cancelled,
        Event::SelfRequest,
        Event::Ended(Outcome::Canceled),
    ],
    0,
)];

#[test]
fn finalizer_ends(rt: HostRuntime) -> Result<(), Fail> {
    assert_runs(&rt, rt.alloc(), &FINALIZERS)
}

static RELEASES: [Row; 7] = [
    (
        "bracket x (pure 4) canceled (pure 0)",
        &[pure!(4), CANCELED, pure!(0), bracket!(Some(0), 0, 1, 2)],
        None,
        RELEASED_AFTER_CANCELLATION,
        0,
    ),
    (
        "bracket x (pure 4) canceled (raise x)",
        &[
            pure!(4),
            CANCELED,
            Node::Raise(Arg::Slot(0)),
            bracket!(Some(0), 0, 1, 2),
        ],
        None,
        RELEASED_AFTER_CANCELLATION,
        0,
    ),
    (
        "mask p (bracket x (pure 4) (poll p canceled) (pure 0))",
        &[
            pure!(4),
            CANCELED,
            poll!(0, 1),
            pure!(0),
            bracket!(Some(1), 0, 2, 3),
            mask!(0, 4),
        ],
        None,
        RELEASED_AFTER_CANCELLATION,
        1,
    ),
    (
        "bracket x (pure 4) (pure 5) (pure 0), requested as it acquires",
        &[pure!(4), pure!(5), pure!(0), bracket!(Some(0), 0, 1, 2)],
        Some(1),
        &[
            Event::Acquired(0),
            Event::Seen,
            Event::Cancelled,
            Event::Begin(0),
            Event::End(0),
            Event::Ended(Outcome::Canceled),
        ],
        1,
    ),
    (
        "bracket x (pure 4) (pure 5) (pure 0), requested at the result of its use",
        &[pure!(4), pure!(5), pure!(0), bracket!(Some(0), 0, 1, 2)],
        Some(2),
        &[
            Event::Acquired(0),
            Event::Seen,
            Event::Cancelled,
            Event::Begin(0),
            Event::End(0),
            Event::Ended(Outcome::Canceled),
        ],
        2,
    ),
    (
        "bracket x (pure 4) (pure 5) (pure 0), requested as it releases",
        &[pure!(4), pure!(5), pure!(0), bracket!(Some(0), 0, 1, 2)],
        Some(3),
        &[
            Event::Acquired(0),
            Event::Begin(0),
            Event::End(0),
            Event::Seen,
            Event::Cancelled,
            Event::Ended(Outcome::Canceled),
        ],
        3,
    ),
    (
        "bracket a (pure 1) (bracket b (pure 2) canceled (pure 3)) (pure 4)",
        &[
            pure!(1),
            pure!(2),
            CANCELED,
            pure!(3),
            bracket!(Some(1), 1, 2, 3),
            pure!(4),
            bracket!(Some(0), 0, 4, 5),
        ],
        None,
        &[
            Event::Acquired(0),
            Event::Acquired(1),
            Event::Cancelled,
            Event::Begin(1),
            Event::End(1),
            Event::Begin(0),
            Event::End(0),
            Event::Ended(Outcome::Canceled),
        ],
        0,
    ),
];

#[test]
fn release_ends(rt: HostRuntime) -> Result<(), Fail> {
    assert_runs(&rt, rt.alloc(), &RELEASES)
}
