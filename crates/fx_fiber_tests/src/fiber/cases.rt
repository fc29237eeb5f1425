//! Brackets whose release goes by how the use ended.

use super::*;

static CASES: [Row; 6] = [
    (
        "bracketcase x (pure 4) (pure 5) (y (pure y)) (z (raise z)) (raise x)",
        &[
            pure!(4),
            pure!(5),
            Node::Pure(Arg::Slot(1)),
            Node::Raise(Arg::Slot(1)),
            Node::Raise(Arg::Slot(0)),
            case!(0, 0, 1, 1, 2, 1, 3, 4),
        ],
        None,
        &[
            Event::Acquired(0),
            Event::Begin(0),
            Event::End(0),
            Event::Ended(Outcome::Succeeded(5)),
        ],
        3,
    ),
    (
        "bracketcase x (pure 4) (pure 5) (y (raise y)) (z (pure z)) (pure x)",
        &[
            pure!(4),
            pure!(5),
            Node::Raise(Arg::Slot(1)),
            Node::Pure(Arg::Slot(1)),
            Node::Pure(Arg::Slot(0)),
            case!(0, 0, 1, 1, 2, 1, 3, 4),
        ],
        None,
        &[
            Event::Acquired(0),
            Event::Begin(0),
            Event::End(0),
            Event::Ended(Outcome::Errored(5)),
        ],
        3,
    ),
    (
        "bracketcase x (pure 4) (raise 6) (y canceled) (z (raise x)) canceled",
        &[
            pure!(4),
            raise!(6),
            CANCELED,
            Node::Raise(Arg::Slot(0)),
            CANCELED,
            case!(0, 0, 1, 1, 2, 1, 3, 4),
        ],
        None,
        &[
            Event::Acquired(0),
            Event::Begin(0),
            Event::End(0),
            Event::Ended(Outcome::Errored(6)),
        ],
        3,
    ),
    (
        "bracketcase x (pure 4) canceled (y canceled) (z canceled) (raise x)",
        &[
            pure!(4),
            CANCELED,
            CANCELED,
            CANCELED,
            Node::Raise(Arg::Slot(0)),
            case!(0, 0, 1, 1, 2, 1, 3, 4),
        ],
        None,
        &[
            Event::Acquired(0),
            Event::Cancelled,
            Event::Begin(0),
            Event::End(0),
            Event::Ended(Outcome::Canceled),
        ],
        0,
    ),
    (
        "bracketcase x (raise 8) (pure 1) (y canceled) (z canceled) canceled",
        &[
            raise!(8),
            pure!(1),
            CANCELED,
            CANCELED,
            CANCELED,
            case!(0, 0, 1, 1, 2, 1, 3, 4),
        ],
        None,
        &[Event::Ended(Outcome::Errored(8))],
        1,
    ),
    (
        "bracketcase x (pure 4) (pure 5) (y canceled) (z (pure z)) (pure x), a sealed release",
        &[
            pure!(4),
            pure!(5),
            CANCELED,
            Node::Pure(Arg::Slot(1)),
            Node::Pure(Arg::Slot(0)),
            case!(0, 0, 1, 1, 2, 1, 3, 4),
        ],
        None,
        &[
            Event::Acquired(0),
            Event::Begin(0),
            Event::SelfRequest,
            Event::End(0),
            Event::Cancelled,
            Event::Ended(Outcome::Canceled),
        ],
        2,
    ),
];

#[test]
fn released_by_how_the_use_ended(rt: HostRuntime) -> Result<(), Fail> {
    assert_runs(&rt, rt.alloc(), &CASES)
}
