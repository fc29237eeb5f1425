//! The causes that are found of the events of a replay's report, and where its fibers stood last.

use fx_picture::EventAt;
use fx_plain::replay;
use fx_run_events::{RanEvent, counts_told, ran_events, stands_told};
use fx_term::NodeId;
use fx_text::{parse, schedule};
use std::alloc::Global;
use std::test::Fail;

/// What is found of the event in that place of the trace of this fiber, in a replay.
fn found(
    alloc: Global,
    text: &str,
    picks: &str,
    fiber: u32,
    place: usize,
) -> Result<Option<RanEvent>, Fail> {
    let script = parse(alloc, text.as_bytes())?;
    let picks = schedule(alloc, picks.as_bytes())?;
    let report = replay(alloc, &script, &picks)?;
    let told = stands_told(alloc, &script, &report)?;
    let counted = counts_told(alloc, &script, &report)?;
    let events = ran_events(alloc, &told, &counted, &report)?;
    let mut own = events.iter().filter(|event| event.fiber == fiber);
    Ok(own.nth(place).copied())
}

/// The cause that is found of it.
fn cause_of(
    alloc: Global,
    text: &str,
    picks: &str,
    fiber: u32,
    place: usize,
) -> Result<Option<EventAt>, Fail> {
    Ok(match found(alloc, text, picks, fiber, place)? {
        Some(event) => event.cause,
        None => None,
    })
}

/// A script, a schedule, an event as its fiber and its place there, and the event that caused it.
type Line = (
    &'static str,
    &'static str,
    &'static str,
    (u32, usize),
    Option<(u32, usize)>,
);

/// Two fibers that put 7 into a queue of one, where by stamps the second one puts it before there is room. What is taken is 7, 8
/// and 7, so that the 7 of the one that puts 8, too, is the first.
const OUT_OF_ORDER: &str = "(queue q 1) (main (start a (seq (offer q 7) (offer q 8)) \
    (start b (offer q 7) (seq (take q) (seq (take q) (take q))))))";

static LINES: [Line; 11] = [
    (
        "the left one of two",
        "(main (start a (pure 1) (start b (never) (first a b))))",
        "0 0 1",
        (0, 2),
        Some((1, 0)),
    ),
    (
        "the right one of two",
        "(main (start a (never) (start b (pure 2) (first a b))))",
        "0 0 2",
        (0, 2),
        Some((2, 0)),
    ),
    (
        "the right one of two that have ended in the end",
        "(main (start a (seq (cede) (pure 1)) (start b (pure 2) (first a b))))",
        "0 0 2 2 0 0",
        (0, 2),
        Some((2, 0)),
    ),
    (
        "the only put of a value",
        "(queue q 1) (main (start h (offer q 7) (take q)))",
        "",
        (0, 1),
        Some((1, 0)),
    ),
    (
        "the second put of a value",
        "(queue q 2) (main (start h (seq (offer q 7) (offer q 7)) (seq (take q) (take q))))",
        "",
        (0, 2),
        Some((1, 1)),
    ),
    (
        "the first put of a value by its stamp",
        "(queue q 2) (main (start g (offer q 7) (start h (offer q 7) (seq (take q) (take q)))))",
        "0 0 2 2 0",
        (0, 2),
        Some((1, 0)),
    ),
    (
        "the later put of that value by its stamp",
        "(queue q 2) (main (start g (offer q 7) (start h (offer q 7) (seq (take q) (take q)))))",
        "0 0 2 2 0",
        (0, 3),
        Some((2, 0)),
    ),
    (
        "the first of two puts of a value, where the order of stamps is no history and another one is",
        OUT_OF_ORDER,
        "",
        (0, 2),
        Some((1, 0)),
    ),
    (
        "the other one of them",
        OUT_OF_ORDER,
        "",
        (0, 4),
        Some((2, 0)),
    ),
    (
        "the only put of a value, where the order of stamps is no history",
        "(queue q 1) (queue r 1) (main (start a (seq (seq (offer r 1) (take r)) (seq (offer r 1) (seq (take r) (offer q 8)))) \
            (start b (offer q 7) (seq (take q) (take q)))))",
        "0 0 1 1 1 1 1 1 1 1 1 1 0 0 2",
        (0, 2),
        Some((1, 4)),
    ),
    (
        "a put",
        "(queue q 1) (main (start h (offer q 7) (take q)))",
        "",
        (1, 0),
        None,
    ),
];

#[test]
fn causes_are_found(rt: HostRuntime) -> Result<(), Fail> {
    for (line, text, picks, (fiber, place), cause) in &LINES {
        let found = cause_of(rt.alloc(), text, picks, *fiber, *place)?;
        let told = found.map(|event| (event.fiber, event.place));
        assert!(rt; told == *cause, "{line}");
    }
    Ok(())
}

/// The number of the node where the fiber stood last when it showed that event.
fn last_node_of(alloc: Global, text: &str, fiber: u32, place: usize) -> Result<Option<u32>, Fail> {
    let event = found(alloc, text, "", fiber, place)?;
    Ok(match event {
        Some(event) => event.last_node().map(|NodeId(node)| node),
        None => None,
    })
}

#[test]
fn end_is_told_at_the_last_node(rt: HostRuntime) -> Result<(), Fail> {
    // the end of a fiber is at no node of its own: the last one was that of its value
    let own = last_node_of(rt.alloc(), "(queue q 1) (main (offer q 7))", 0, 0)?;
    let end = last_node_of(rt.alloc(), "(queue q 1) (main (offer q 7))", 0, 1)?;
    assert!(rt; own.is_some());
    assert!(rt; end == own);
    Ok(())
}
