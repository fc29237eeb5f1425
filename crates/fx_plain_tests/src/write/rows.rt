//! Reports of worked scripts, with their texts.
use super::*;

/// The end of a trace whose fiber was canceled.
const CANCELED: Event = Event::Ended(Outcome::Canceled);

static NUMBERS_AND_STATES: [Row; 3] = [
    Row {
        fibers: &[(
            0,
            State::Ended,
            &[Event::Ended(Outcome::Succeeded(5))],
            &[1],
        )],
        left: &[],
        report: "fiber 0 succeeded 5\n",
        traces: "0 1 ended succeeded 5\n",
    },
    Row {
        fibers: &[(0, State::Blocked, &[], &[])],
        left: &[],
        report: "fiber 0 blocked\n",
        traces: "",
    },
    // a race whose sides both canceled themselves, under a mask
    Row {
        fibers: &[
            (
                0,
                State::Blocked,
                &[Event::Start(1), Event::Start(2)],
                &[1, 2],
            ),
            (1, State::Ended, &[Event::Cancelled, CANCELED], &[2, 3]),
            (2, State::Ended, &[Event::Cancelled, CANCELED], &[3, 4]),
        ],
        left: &[],
        report: "fiber 0 blocked\nfiber 1 canceled\nfiber 2 canceled\n",
        traces: "0 1 start 1\n0 2 start 2\n1 2 cancelled\n1 3 ended canceled\n2 3 cancelled\n2 4 ended canceled\n",
    },
];

#[test]
fn fibers_are_told_by_number_and_state(rt: HostRuntime) -> Result<(), Fail> {
    assert_writes(&rt, rt.alloc(), &[], &NUMBERS_AND_STATES)
}

/// A main fiber that was canceled, and its traces.
const ALONE: &[Told] = &[(0, State::Ended, &[Event::Cancelled, CANCELED], &[1, 2])];

const ALONE_TRACES: &str = "0 1 cancelled\n0 2 ended canceled\n";

static ONE_QUEUE: [Row; 3] = [
    Row {
        fibers: ALONE,
        left: &[&[]],
        report: "fiber 0 canceled\nqueue q left\n",
        traces: ALONE_TRACES,
    },
    Row {
        fibers: ALONE,
        left: &[&[1]],
        report: "fiber 0 canceled\nqueue q left 1\n",
        traces: ALONE_TRACES,
    },
    Row {
        fibers: ALONE,
        left: &[&[2, 1]],
        report: "fiber 0 canceled\nqueue q left 2 1\n",
        traces: ALONE_TRACES,
    },
];

static THREE_QUEUES: [Row; 1] = [Row {
    fibers: ALONE,
    left: &[&[18446744073709551615], &[], &[0, 10, 3]],
    report: "fiber 0 canceled\nqueue b left 18446744073709551615\nqueue a7 left\nqueue c left 0 10 3\n",
    traces: ALONE_TRACES,
}];

#[test]
fn queues_are_told_from_front_to_back(rt: HostRuntime) -> Result<(), Fail> {
    assert_writes(&rt, rt.alloc(), &["q"], &ONE_QUEUE)?;
    assert_writes(&rt, rt.alloc(), &["b", "a7", "c"], &THREE_QUEUES)
}

static WORKED: [Row; 2] = [
    // (queue q 1) (main (bracket x (pure 7) (raise 3) (offer q x)))
    Row {
        fibers: &[(
            0,
            State::Ended,
            &[
                Event::Acquired(0),
                Event::Begin(0),
                Event::Put(0, 7),
                Event::End(0),
                Event::Ended(Outcome::Errored(3)),
            ],
            &[1, 2, 3, 4, 5],
        )],
        left: &[&[7]],
        report: "fiber 0 errored 3\nqueue q left 7\n",
        traces: "0 1 acquired 0\n0 2 begin 0\n0 3 put q 7\n0 4 end 0\n0 5 ended errored 3\n",
    },
    // a queue of capacity 1 that is tried once too often at each side
    Row {
        fibers: &[(
            0,
            State::Ended,
            &[
                Event::Put(0, 1),
                Event::Refused(0),
                Event::Got(0, 1),
                Event::Empty(0),
                Event::Ended(Outcome::Succeeded(0)),
            ],
            &[1, 2, 3, 4, 5],
        )],
        left: &[&[]],
        report: "fiber 0 succeeded 0\nqueue q left\n",
        traces: "0 1 put q 1\n0 2 refused q\n0 3 got q 1\n0 4 empty q\n0 5 ended succeeded 0\n",
    },
];

#[test]
fn traces_of_worked_scripts(rt: HostRuntime) -> Result<(), Fail> {
    assert_writes(&rt, rt.alloc(), &["q"], &WORKED)
}

/// Each event, and for a join each outcome.
const EACH: &[Event] = &[
    Event::Start(11),
    Event::Request(12),
    Event::Awaited(13),
    Event::Joined(14, Outcome::Succeeded(1)),
    Event::Joined(15, Outcome::Errored(2)),
    Event::Joined(16, Outcome::Canceled),
    Event::First(1),
    Event::Put(0, 3),
    Event::Got(1, 4),
    Event::Refused(0),
    Event::Empty(1),
    Event::Acquired(5),
    Event::Begin(6),
    Event::End(7),
    Event::Seen,
    Event::SelfRequest,
    Event::Cancelled,
    CANCELED,
];

/// A stamp for each of these; at the greatest one it stays.
const STAMPS: &[u64] = &[
    11,
    12,
    20,
    21,
    22,
    23,
    24,
    25,
    100,
    101,
    102,
    103,
    104,
    105,
    106,
    107,
    18446744073709551615,
    18446744073709551615,
];

static EVENTS: [Row; 1] = [Row {
    fibers: &[(10, State::Ended, EACH, STAMPS)],
    left: &[&[], &[]],
    report: "fiber 10 canceled\nqueue q left\nqueue r left\n",
    traces: "10 11 start 11\n10 12 request 12\n10 20 awaited 13\n10 21 joined 14 succeeded 1\n\
                10 22 joined 15 errored 2\n10 23 joined 16 canceled\n10 24 first 1\n10 25 put q 3\n\
                10 100 got r 4\n10 101 refused q\n10 102 empty r\n10 103 acquired 5\n10 104 begin 6\n\
                10 105 end 7\n10 106 seen\n10 107 selfrequest\n10 18446744073709551615 cancelled\n\
                10 18446744073709551615 ended canceled\n",
}];

#[test]
fn each_event_has_its_words(rt: HostRuntime) -> Result<(), Fail> {
    assert_writes(&rt, rt.alloc(), &["q", "r"], &EVENTS)
}
