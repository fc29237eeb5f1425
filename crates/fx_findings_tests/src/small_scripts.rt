//! Small scripts, and what can be told of their runs, by the rules.
use fx_findings::{Finding, HaltedFiber, Nobody, explore};
use fx_search::Ending;
use fx_term::Outcome;
use fx_text::parse;
use std::test::Fail;

/// What is told of a report: by fiber its outcome, none where it waits for good; what is left in each queue;
/// and whether a replay can have it.
struct Row {
    outcomes: &'static [Option<Outcome>],
    left: &'static [&'static [u64]],
    is_replayed: bool,
}

const ZERO: Option<Outcome> = Some(Outcome::Succeeded(0));

const ONE: Option<Outcome> = Some(Outcome::Succeeded(1));

/// Of two takers one goes without.
const TAKERS: &[Row] = &[
    Row {
        outcomes: &[ZERO, Some(Outcome::Succeeded(7)), None],
        left: &[&[]],
        is_replayed: true,
    },
    Row {
        outcomes: &[ZERO, None, Some(Outcome::Succeeded(7))],
        left: &[&[]],
        is_replayed: true,
    },
];

/// A fiber that does not wait comes before the offer, or after it.
const TRIED: &[Row] = &[
    Row {
        outcomes: &[ZERO, Some(Outcome::Succeeded(9))],
        left: &[&[3]],
        is_replayed: true,
    },
    Row {
        outcomes: &[ZERO, Some(Outcome::Succeeded(3))],
        left: &[&[]],
        is_replayed: true,
    },
];

/// A request comes before the end, or after it.
const CANCELED: &[Row] = &[
    Row {
        outcomes: &[ZERO, Some(Outcome::Succeeded(1))],
        left: &[],
        is_replayed: true,
    },
    Row {
        outcomes: &[ZERO, Some(Outcome::Canceled)],
        left: &[],
        is_replayed: true,
    },
];

/// The left one of two that have ended is the one that a replay learns of.
const FIRST: &[Row] = &[
    Row {
        outcomes: &[ZERO, Some(Outcome::Succeeded(1))],
        left: &[],
        is_replayed: true,
    },
    Row {
        outcomes: &[Some(Outcome::Succeeded(1)), Some(Outcome::Succeeded(1))],
        left: &[],
        is_replayed: false,
    },
];

/// Whichever of two ends first is the one that a `first` learns of, and each of the two has a schedule.
const EITHER: &[Row] = &[
    Row {
        outcomes: &[ZERO, ONE, Some(Outcome::Succeeded(2))],
        left: &[],
        is_replayed: true,
    },
    Row {
        outcomes: &[ONE, ONE, Some(Outcome::Succeeded(2))],
        left: &[],
        is_replayed: true,
    },
];

static SCRIPTS: [(&[u8], &[Row]); 4] = [
    (
        b"(queue q 1) (main (start a (take q) (start b (take q) (offer q 7))))",
        TAKERS,
    ),
    (
        b"(queue q 1) (main (start a (trytake q x (pure x) (pure 9)) (offer q 3)))",
        TRIED,
    ),
    (b"(main (start a (pure 1) (cancel a)))", CANCELED),
    (b"(main (start h (pure 1) (first h h)))", FIRST),
];

/// Whether these values are left.
fn are_left(left: &[Vec<u64>], row: &[&[u64]]) -> bool {
    for (values, expected) in left.iter().zip(row) {
        if values.as_slice() != *expected {
            return false;
        }
    }
    left.len() == row.len()
}

/// Whether the fibers, from 0 on, halted with these outcomes.
fn have_halted(halts: &[HaltedFiber], outcomes: &[Option<Outcome>]) -> bool {
    for ((id, outcome), halt) in (0..4096).zip(outcomes).zip(halts) {
        if halt.id != id || halt.outcome != *outcome {
            return false;
        }
    }
    halts.len() == outcomes.len()
}

/// Whether the finding is this row.
fn is_row(finding: &Finding, row: &Row) -> bool {
    have_halted(&finding.told.halts, row.outcomes)
        && are_left(&finding.told.left, row.left)
        && finding.schedule.is_some() == row.is_replayed
}

/// Whether each row is found.
fn are_found(findings: &[Finding], rows: &[Row]) -> bool {
    for row in rows {
        if !findings.iter().any(|finding| is_row(finding, row)) {
            return false;
        }
    }
    true
}

#[test]
fn reports_of_small_scripts_are_found(rt: HostRuntime) -> Result<(), Fail> {
    for &(text, rows) in &SCRIPTS {
        let script = parse(rt.alloc(), text)?;
        let explored = explore(rt.alloc(), &script, None, 1000, &mut Nobody)?;
        assert_eq!(rt; explored.ending, Ending::Exhausted);
        assert_eq!(rt; explored.findings.len(), rows.len());
        assert!(rt; are_found(&explored.findings, rows));
    }
    Ok(())
}

#[test]
fn each_of_two_may_end_first_by_a_schedule(rt: HostRuntime) -> Result<(), Fail> {
    let text = b"(main (start a (pure 1) (start b (pure 2) (first a b))))";
    let script = parse(rt.alloc(), text)?;
    let explored = explore(rt.alloc(), &script, None, 1000, &mut Nobody)?;
    assert_eq!(rt; explored.findings.len(), EITHER.len());
    assert!(rt; are_found(&explored.findings, EITHER));
    Ok(())
}

/// Whether a schedule of no picks is among these.
fn have_plain_run(findings: &[Finding]) -> bool {
    findings.iter().any(|finding| finding
        .schedule
        .as_ref()
        .is_some_and(|picks| picks.is_empty()))
}

#[test]
fn run_without_a_schedule_wants_no_picks(rt: HostRuntime) -> Result<(), Fail> {
    for &(text, _rows) in &SCRIPTS {
        let script = parse(rt.alloc(), text)?;
        let explored = explore(rt.alloc(), &script, None, 1000, &mut Nobody)?;
        assert!(rt; have_plain_run(&explored.findings));
    }
    Ok(())
}

#[test]
fn search_that_is_cut_short_says_so(rt: HostRuntime) -> Result<(), Fail> {
    for &(text, _rows) in &SCRIPTS {
        let script = parse(rt.alloc(), text)?;
        let explored = explore(rt.alloc(), &script, None, 1, &mut Nobody)?;
        assert_eq!(rt; (explored.states, explored.ending), (1, Ending::Limit));
    }
    Ok(())
}
