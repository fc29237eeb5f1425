//! What is told of the fibers of a replay's report: where its steps stood that showed their events, and of whose ends they
//! learned.

use fx_follow::{Stand, follow};
use fx_plain::{Told, replay, tell_run};
use fx_text::{parse, schedule};
use std::alloc::Global;
use std::test::Fail;

/// Where this fiber stood by the steps of a replay that showed its events, and of whose ends it learned. Its last node is also
/// that of a step that showed none.
fn stands_of_steps(alloc: Global, fiber: u32, told: &[Told]) -> Result<Vec<Stand>, Fail> {
    let mut stands = Vec::new(alloc);
    let mut last_node = None;
    for next in told {
        if let Told::Step(made) = next {
            if made.fiber == fiber {
                last_node = made.node.or(last_node);
            }
            if made.fiber == fiber && made.event.is_some() {
                stands.push(Stand {
                    node: made.node,
                    last_node,
                    is_open: made.is_open,
                    learned: made.learned,
                })?;
            }
        }
    }
    Ok(stands)
}

/// Whether the same is told of a step.
fn is_same(one: Stand, other: Stand) -> bool {
    one.node == other.node
        && one.last_node == other.last_node
        && one.is_open == other.is_open
        && one.learned == other.learned
}

fn are_same(one: &[Stand], other: &[Stand]) -> bool {
    one.len() == other.len() && one.iter().zip(other.iter()).all(|(a, b)| is_same(*a, *b))
}

/// What is told of the fibers of a replay.
#[derive(Clone, Copy, PartialEq, Eq, Debug)]
enum Found {
    /// Nothing.
    Nothing,
    /// That this one stood elsewhere than it did, or learned of another end.
    Elsewhere(u32),
    /// Where they stood and of whose ends they learned, of so many.
    Rightly(usize),
}

fn told_of(alloc: Global, text: &str, picks: &str) -> Result<Found, Fail> {
    let script = parse(alloc, text.as_bytes())?;
    let picks = schedule(alloc, picks.as_bytes())?;
    let report = replay(alloc, &script, &picks)?;
    let told = tell_run(alloc, &script, &picks)?;
    let Some(followed) = follow(alloc, &script, &report)? else {
        return Ok(Found::Nothing);
    };
    for (reported, stands) in report.fibers.iter().zip(followed.iter()) {
        if !are_same(stands, &stands_of_steps(alloc, reported.id, &told)?) {
            return Ok(Found::Elsewhere(reported.id));
        }
    }
    Ok(Found::Rightly(followed.len()))
}

/// Scripts, schedules, and how many fibers they have.
static ROWS: [(&str, &str, &str, usize); 16] = [
    ("a fiber alone", "(main (raise 5))", "", 1),
    (
        "a worker that is canceled where it waits, with its release",
        "(queue permits 1) (main (start worker (bracket p (pure 7) (seq (cede) (never)) (offer permits p)) (cancel worker)))",
        "0 1 1 1 1 1 1 1 1",
        2,
    ),
    (
        "a request that is seen before a finalizer stands there",
        "(queue q 1) (main (start w (seq (cede) (seq (cede) (oncancel (for i 3 (cede)) (offer q 1)))) (cancel w)))",
        "0 0 1 1",
        2,
    ),
    (
        "a request that is seen in a loop with a finalizer",
        "(queue q 1) (main (start w (seq (cede) (seq (cede) (for i 9 (oncancel (cede) (offer q i))))) (cancel w)))",
        "0 1 1 1 1 1 1 1 1 1 1 0",
        2,
    ),
    (
        "the right one of two fibers that have ended in the end",
        "(main (start a (seq (cede) (pure 1)) (start b (pure 2) (first a b))))",
        "0 0 2 2 0 0",
        3,
    ),
    (
        "the right one of two fibers, of which the left one does not end",
        "(main (start a (never) (start b (pure 2) (first a b))))",
        "0 0 2 2 0",
        3,
    ),
    (
        "a join of a fiber that raises",
        "(main (start h (raise 4) (join h (x (pure x)) (e (pure e)) (canceled))))",
        "0 1 1 0",
        2,
    ),
    (
        "a mask that its poll opens",
        "(main (start w (mask p (seq (cede) (poll p (never)))) (cancel w)))",
        "0 1 1 1 1 1 1 1 1",
        2,
    ),
    (
        "a request that is seen inside a poll at the result of what came before",
        "(queue q 1) (main (start w (mask p (poll p (seq (offer q 1) (pure 2)))) (cancel w)))",
        "0 1 1 1 0 1",
        2,
    ),
    (
        "an end behind a finalizer whose last steps show nothing",
        "(queue q 1) (main (start w (oncancel (never) (seq (offer q 1) (pure 2))) (cancel w)))",
        "0 1 0 1 1 1 1 1 1 1",
        2,
    ),
    (
        "a request that a mask keeps from being seen",
        "(queue q 1) (main (start w (mask p (offer q 1)) (cancel w)))",
        "0 0",
        2,
    ),
    (
        "who waits for good",
        "(queue q 1) (main (seq (offer q 1) (offer q 2)))",
        "",
        1,
    ),
    (
        "a loop that starts fibers",
        "(main (for i 3 (start h (pure i) (join h (x (pure x)) (e (raise e)) (canceled)))))",
        "",
        4,
    ),
    (
        "a release for each outcome",
        "(queue q 4) (main (bracketcase x (pure 7) (raise 3) (y (offer q 1)) (z (offer q z)) (offer q x)))",
        "",
        1,
    ),
    (
        "what does not wait",
        "(queue q 1) (main (seq (trytake q v (pure v) (pure 0)) (seq (tryoffer q 1) (seq (tryoffer q 2) (trytake q v (pure v) (pure 0))))))",
        "",
        1,
    ),
    (
        "a race whose loser is canceled",
        "(queue closed 1) (main (race (bracket c (pure 7) (never) (offer closed c)) (pure 2)))",
        "",
        3,
    ),
];

#[test]
fn fibers_stood_where_the_steps_of_a_replay_did(rt: HostRuntime) -> Result<(), Fail> {
    for (row, text, picks, fibers) in &ROWS {
        let found = told_of(rt.alloc(), text, picks)?;
        assert!(rt; found == Found::Rightly(*fibers), "{row}");
    }
    Ok(())
}
