//! The values in the queues of a state, which one number tells where they are few and small.

use fx_explore::{NumberedStep, State};
use fx_term::Event;
use std::alloc::Global;
use std::test::Fail;

/// What a step does at the second of three queues.
#[derive(Clone, Copy)]
enum Done {
    Puts(u64),
    Takes,
}

use Done::{Puts, Takes};

/// The second queue's number in a state.
const QUEUE: u8 = 1;

/// A step of a fiber that stays where it is.
fn step_that_shows(event: Event) -> NumberedStep {
    NumberedStep {
        place: 0,
        child: None,
        shown: Some(event),
    }
}

/// The state after these steps, where a queue on each side holds a large value.
fn state_after(alloc: Global, done: &[Done]) -> Result<State, Fail> {
    let mut state = State::opening(alloc, 1, 3, 0)?;
    state.go_on(0, &step_that_shows(Event::Put(0, 300)))?;
    state.go_on(0, &step_that_shows(Event::Put(2, 400)))?;
    for &it in done {
        let shown = match it {
            Puts(value) => Event::Put(QUEUE, value),
            Takes => Event::Got(QUEUE, 0),
        };
        state.go_on(0, &step_that_shows(shown))?;
    }
    Ok(state)
}

/// The state in which these values were put, and nothing was taken.
fn state_with(alloc: Global, values: &[u64]) -> Result<State, Fail> {
    let mut done = Vec::new(alloc);
    for &value in values {
        done.push(Puts(value))?;
    }
    state_after(alloc, &done)
}

const LARGE: u64 = 5_000_000_000;

/// Puts and takes, one after the other, and the values that are left.
static DONE: [(&str, &[Done], &[u64]); 11] = [
    ("a value is put", &[Puts(0)], &[0]),
    (
        "the first to be put is taken",
        &[Puts(3), Puts(15), Takes],
        &[15],
    ),
    ("a take of nothing leaves nothing", &[Takes], &[]),
    (
        "seven small values",
        &[
            Puts(1),
            Puts(2),
            Puts(3),
            Puts(4),
            Puts(5),
            Puts(6),
            Puts(7),
        ],
        &[1, 2, 3, 4, 5, 6, 7],
    ),
    (
        "an eighth one, and a ninth",
        &[
            Puts(1),
            Puts(2),
            Puts(3),
            Puts(4),
            Puts(5),
            Puts(6),
            Puts(7),
            Puts(8),
            Puts(9),
        ],
        &[1, 2, 3, 4, 5, 6, 7, 8, 9],
    ),
    (
        "and seven of them again",
        &[
            Puts(1),
            Puts(2),
            Puts(3),
            Puts(4),
            Puts(5),
            Puts(6),
            Puts(7),
            Puts(8),
            Puts(9),
            Takes,
            Takes,
        ],
        &[3, 4, 5, 6, 7, 8, 9],
    ),
    ("a large value", &[Puts(LARGE)], &[LARGE]),
    ("a large value comes and goes", &[Puts(16), Takes], &[]),
    (
        "a large value behind small ones",
        &[Puts(1), Puts(2), Puts(LARGE)],
        &[1, 2, LARGE],
    ),
    (
        "a large value before small ones goes",
        &[Puts(LARGE), Puts(1), Puts(2), Takes],
        &[1, 2],
    ),
    (
        "one large value of two goes",
        &[Puts(16), Puts(17), Puts(2), Takes],
        &[17, 2],
    ),
];

/// Whether these are the values.
fn holds(values: &[u64], wanted: &[u64]) -> bool {
    values == wanted
}

#[test]
fn queues_hold_what_was_put_and_not_taken(rt: HostRuntime) -> Result<(), Fail> {
    for (row, done, left) in &DONE {
        let values = state_after(rt.alloc(), done)?.values(rt.alloc())?;
        assert!(rt; values.len() == 3, "{row}");
        let [before, queue, after] = [&values[0], &values[1], &values[2]];
        assert!(rt;
            holds(before, &[300]) && holds(queue, left) && holds(after, &[400]),
            "{row}"
        );
    }
    Ok(())
}

#[test]
fn states_with_the_same_values_are_one(rt: HostRuntime) -> Result<(), Fail> {
    for (row, done, left) in &DONE {
        let other = state_with(rt.alloc(), left)?;
        assert!(rt; state_after(rt.alloc(), done)?.is_same(&other), "{row}");
    }
    Ok(())
}
