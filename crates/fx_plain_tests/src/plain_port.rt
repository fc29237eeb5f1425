//! Ports over one world: what fibers see of one another, by their traces and by what is left.
use Outcome::{Canceled, Succeeded};
use Pick::Step;
use fx_fiber::Report;
use fx_plain::replay;
use fx_term::{Event, Item, Outcome, Stamped};
use fx_text::{Pick, Script, parse};
use std::alloc::Global;
use std::process::Abort;
use std::test::Fail;

/// The events of a trace, and the stamp of each.
type Told<'a> = (&'a [Event], &'a [u64]);

/// A script's text, a schedule, the trace of each fiber, and what is left in each queue.
struct Row<'a> {
    script: &'a [u8],
    picks: &'a [Pick],
    traces: &'a [Told<'a>],
    left: &'a [&'a [Item]],
}

/// Whether the trace has these events with these stamps.
fn is_told(trace: &[Stamped], told: Told) -> bool {
    let (events, stamps) = told;
    trace.len() == events.len()
        && trace.len() == stamps.len()
        && trace.iter().zip(events).all(|(x, &event)| x.event == event)
        && trace.iter().zip(stamps).all(|(x, &stamp)| x.stamp == stamp)
}

/// Whether each fiber of the report has its trace, and each queue what is left in it.
fn tells(report: &Report, row: &Row) -> bool {
    report.fibers.len() == row.traces.len()
        && report.left.len() == row.left.len()
        && report
            .fibers
            .iter()
            .zip(row.traces)
            .all(|(fiber, &told)| is_told(&fiber.trace, told))
        && report
            .left
            .iter()
            .zip(row.left)
            .all(|(items, &left)| items.as_slice() == left)
}

/// Sees that the replay of this script by the row's schedule tells what the row does.
fn assert_told(rt: &impl Abort, alloc: Global, script: &Script, row: &Row) -> Result<(), Fail> {
    let report = replay(alloc, script, row.picks)?;
    assert!(rt; tells(&report, row));
    Ok(())
}

/// The same, where the script is that of the row's text.
fn assert_row(rt: &impl Abort, alloc: Global, row: &Row) -> Result<(), Fail> {
    let script = parse(alloc, row.script)?;
    assert_told(rt, alloc, &script, row)
}

/// Fiber 1 looks before it is requested, where it steps first, and else after it. Whoever awaits its end
/// sees that.
static REQUESTS: [Row; 2] = [
    Row {
        script: b"(queue q 1) (main (start h (seq (offer q 4) (never)) (seq (cancel h) (take q))))",
        picks: &[Step(0), Step(1)],
        traces: &[
            (
                &[
                    Event::Start(1),
                    Event::Request(1),
                    Event::Awaited(1),
                    Event::Got(0, 4),
                    Event::Ended(Succeeded(4)),
                ],
                &[1, 2, 6, 7, 8],
            ),
            (
                &[
                    Event::Put(0, 4),
                    Event::Seen,
                    Event::Cancelled,
                    Event::Ended(Canceled),
                ],
                &[2, 3, 4, 5],
            ),
        ],
        left: &[&[]],
    },
    Row {
        script: b"(queue q 1) (main (start h (seq (offer q 4) (never)) (seq (cancel h) (take q))))",
        picks: &[],
        traces: &[
            (
                &[Event::Start(1), Event::Request(1), Event::Awaited(1)],
                &[1, 2, 6],
            ),
            (
                &[Event::Seen, Event::Cancelled, Event::Ended(Canceled)],
                &[3, 4, 5],
            ),
        ],
        left: &[&[]],
    },
];

#[test]
fn a_port_sees_what_another_one_did(rt: HostRuntime) -> Result<(), Fail> {
    for row in &REQUESTS {
        assert_row(&rt, rt.alloc(), row)?;
    }
    Ok(())
}

/// Main puts 5, fiber 1 puts 6, and main finds no room; fiber 1 takes, and main takes until there is nothing.
static IN_ORDER: Row = Row {
    script: b"(queue q 2) (main (start h (seq (offer q 6) (take q)) \
        (seq (offer q 5) (tryoffer q 7) (take q) (trytake q x (pure x) (pure 9)))))",
    picks: &[
        Step(0),
        Step(0),
        Step(1),
        Step(0),
        Step(0),
        Step(1),
        Step(1),
    ],
    traces: &[
        (
            &[
                Event::Start(1),
                Event::Put(0, 5),
                Event::Refused(0),
                Event::Got(0, 6),
                Event::Empty(0),
                Event::Ended(Succeeded(9)),
            ],
            &[1, 2, 3, 4, 5, 6],
        ),
        (
            &[
                Event::Put(0, 6),
                Event::Got(0, 5),
                Event::Ended(Succeeded(5)),
            ],
            &[2, 3, 4],
        ),
    ],
    left: &[&[]],
};

#[test]
fn elements_are_taken_in_the_order_in_which_they_were_put(rt: HostRuntime) -> Result<(), Fail> {
    assert_row(&rt, rt.alloc(), &IN_ORDER)
}

/// What is left in the queues 0 and 1. Queue 0 has one place, and there is no queue 2.
static LEFT: Row = Row {
    script: b"(queue p 1) (queue q 2) (queue r 1) (main (start h (offer q 6) (seq (offer q 5) (take q) \
        (offer q 7) (offer p 3) (tryoffer p 8) (tryoffer r 9) (trytake r x (pure x) (pure 4)))))",
    picks: &[Step(0), Step(0), Step(1)],
    traces: &[
        (
            &[
                Event::Start(1),
                Event::Put(1, 5),
                Event::Got(1, 5),
                Event::Put(1, 7),
                Event::Put(0, 3),
                Event::Refused(0),
                Event::Refused(2),
                Event::Empty(2),
                Event::Ended(Succeeded(4)),
            ],
            &[1, 2, 3, 4, 5, 6, 7, 8, 9],
        ),
        (&[Event::Put(1, 6), Event::Ended(Succeeded(0))], &[2, 3]),
    ],
    left: &[
        &[Item {
            fiber: 0,
            nth: 0,
            value: 3,
            stamp: 5,
        }],
        &[
            Item {
                fiber: 1,
                nth: 0,
                value: 6,
                stamp: 2,
            },
            Item {
                fiber: 0,
                nth: 1,
                value: 7,
                stamp: 4,
            },
        ],
    ],
};

/// The script of a text, but that its last queue is not there.
fn without_last_queue(alloc: Global, text: &[u8]) -> Result<Script, Fail> {
    let mut script = parse(alloc, text)?;
    let _ = script.queues.pop();
    Ok(script)
}

#[test]
fn what_is_left_has_its_fiber_and_its_number_there(rt: HostRuntime) -> Result<(), Fail> {
    let script = without_last_queue(rt.alloc(), LEFT.script)?;
    assert_told(&rt, rt.alloc(), &script, &LEFT)
}
