//! What is printed of findings that are made by hand, and their statuses.
use fx_findings::{
    Compared, Explored, Finding, HaltedFiber, INCOMPLETE, Told, UNEXPECTED, compare,
    explored_status, format_explored,
};
use fx_report::{BLOCKED, ENDED};
use fx_search::Ending;
use fx_term::Outcome;
use fx_text::{Pick, parse};
use std::alloc::Global;
use std::test::Fail;

/// A finding: how each fiber halted, what is left in each queue, and the schedule.
#[derive(Clone, Copy)]
struct Row<'a> {
    halts: &'a [HaltedFiber],
    left: &'a [&'a [u64]],
    schedule: Option<&'a [Pick]>,
}

/// A report in which fiber 1 waits for good.
const WAITS: Row<'static> = Row {
    halts: &[
        HaltedFiber {
            id: 0,
            outcome: Some(Outcome::Succeeded(99)),
        },
        HaltedFiber {
            id: 1,
            outcome: None,
        },
    ],
    left: &[&[], &[7, 18446744073709551615]],
    schedule: Some(&[Pick::Step(0), Pick::Cancel(2), Pick::Step(4294967295)]),
};

/// One in which all fibers ended, of which no schedule is known.
const ENDS: Row<'static> = Row {
    halts: &[
        HaltedFiber {
            id: 0,
            outcome: Some(Outcome::Errored(3)),
        },
        HaltedFiber {
            id: 12,
            outcome: Some(Outcome::Canceled),
        },
    ],
    left: &[&[0], &[]],
    schedule: None,
};

/// One that the run without a schedule has.
const UNCHOSEN: Row<'static> = Row {
    halts: &[HaltedFiber {
        id: 0,
        outcome: Some(Outcome::Succeeded(0)),
    }],
    left: &[&[], &[]],
    schedule: Some(&[]),
};

fn finding_of(alloc: Global, row: &Row) -> Result<Finding, Fail> {
    let mut left = Vec::new(alloc);
    for values in row.left {
        left.push(Vec::from_slice(alloc, values)?)?;
    }
    let halts = Vec::from_slice(alloc, row.halts)?;
    let schedule = match row.schedule {
        Some(picks) => Some(Vec::from_slice(alloc, picks)?),
        None => None,
    };
    Ok(Finding {
        told: Told { halts, left },
        schedule,
    })
}

fn explored_of(alloc: Global, rows: &[Row], ending: Ending) -> Result<Explored, Fail> {
    let mut findings = Vec::new(alloc);
    for row in rows {
        findings.push(finding_of(alloc, row)?)?;
    }
    Ok(Explored {
        findings,
        states: 39,
        ending,
    })
}

/// What is printed of these findings of a script with two queues.
fn printed(alloc: Global, rows: &[Row], ending: Ending) -> Result<String, Fail> {
    let script = parse(alloc, b"(queue l1 1) (queue l2 2) (main (pure 5))")?;
    let explored = explored_of(alloc, rows, ending)?;
    Ok(format_explored(alloc, &script, &explored)?)
}

fn status(alloc: Global, rows: &[Row], ending: Ending) -> Result<u8, Fail> {
    Ok(explored_status(&explored_of(alloc, rows, ending)?))
}

#[test]
fn findings_are_printed_one_after_another(rt: HostRuntime) -> Result<(), Fail> {
    let text = printed(rt.alloc(), &[WAITS, ENDS, UNCHOSEN], Ending::Exhausted)?;
    assert_eq!(rt;
        text.as_str(),
        "schedule 0 c2 4294967295
fiber 0 succeeded 99
fiber 1 blocked
queue l1 left
queue l2 left 7 18446744073709551615

no schedule
fiber 0 errored 3
fiber 12 canceled
queue l1 left 0
queue l2 left

schedule
fiber 0 succeeded 0
queue l1 left
queue l2 left

explored: 3 reports, 39 states, complete
"
    );
    Ok(())
}

#[test]
fn a_search_that_is_cut_short_is_incomplete(rt: HostRuntime) -> Result<(), Fail> {
    let line = "explored: 0 reports, 39 states, incomplete\n";
    assert_eq!(rt; printed(rt.alloc(), &[], Ending::Limit)?.as_str(), line);
    assert_eq!(rt; printed(rt.alloc(), &[], Ending::Memory)?.as_str(), line);
    Ok(())
}

#[test]
fn status_is_that_of_the_worst_that_was_found(rt: HostRuntime) -> Result<(), Fail> {
    let alloc = rt.alloc();
    assert_eq!(rt; status(alloc, &[UNCHOSEN, ENDS], Ending::Exhausted)?, ENDED);
    assert_eq!(rt;
        status(alloc, &[UNCHOSEN, ENDS], Ending::Limit)?,
        INCOMPLETE
    );
    assert_eq!(rt; status(alloc, &[ENDS], Ending::Memory)?, INCOMPLETE);
    assert_eq!(rt;
        status(alloc, &[UNCHOSEN, WAITS], Ending::Exhausted)?,
        BLOCKED
    );
    assert_eq!(rt; status(alloc, &[UNCHOSEN, WAITS], Ending::Limit)?, BLOCKED);
    Ok(())
}

/// What is printed of these findings of a script with two queues where such reports are expected, and the status.
fn compared(alloc: Global, rows: &[Row], ending: Ending, expected: &str) -> Result<Compared, Fail> {
    let script = parse(alloc, b"(queue l1 1) (queue l2 2) (main (pure 5))")?;
    let explored = explored_of(alloc, rows, ending)?;
    Ok(compare(alloc, &script, &explored, expected.as_bytes())?)
}

/// The reports of the three rows, as they are printed.
const ALL: &str = "schedule 0 c2 4294967295
fiber 0 succeeded 99
fiber 1 blocked
queue l1 left
queue l2 left 7 18446744073709551615

no schedule
fiber 0 errored 3
fiber 12 canceled
queue l1 left 0
queue l2 left

schedule
fiber 0 succeeded 0
queue l1 left
queue l2 left

explored: 3 reports, 39 states, complete
";

/// The same but for the second one.
const TWO: &str = "fiber 0 succeeded 0
queue l1 left
queue l2 left

fiber 0 succeeded 99
fiber 1 blocked
queue l1 left
queue l2 left 7 18446744073709551615";

#[test]
fn findings_are_all_expected(rt: HostRuntime) -> Result<(), Fail> {
    let whole = compared(rt.alloc(), &[WAITS, ENDS, UNCHOSEN], Ending::Exhausted, ALL)?;
    assert_eq!(rt;
        whole.text.as_str(),
        "explored: 3 reports, 39 states, all expected\n"
    );
    assert_eq!(rt; whole.status, ENDED);
    let cut = compared(rt.alloc(), &[WAITS], Ending::Limit, TWO)?;
    assert_eq!(rt;
        cut.text.as_str(),
        "explored: 1 reports, 39 states, incomplete, all expected\n"
    );
    assert_eq!(rt; cut.status, INCOMPLETE);
    let refused = compared(rt.alloc(), &[], Ending::Memory, TWO)?;
    assert_eq!(rt;
        refused.text.as_str(),
        "explored: 0 reports, 39 states, incomplete, all expected\n"
    );
    assert_eq!(rt; refused.status, INCOMPLETE);
    Ok(())
}

#[test]
fn first_finding_that_is_not_expected_is_printed(rt: HostRuntime) -> Result<(), Fail> {
    let second = compared(rt.alloc(), &[WAITS, ENDS, UNCHOSEN], Ending::Exhausted, TWO)?;
    assert_eq!(rt;
        second.text.as_str(),
        "no schedule
fiber 0 errored 3
fiber 12 canceled
queue l1 left 0
queue l2 left

explored: 3 reports, 39 states, not all expected
"
    );
    assert_eq!(rt; second.status, UNEXPECTED);
    let first = compared(rt.alloc(), &[WAITS, ENDS], Ending::Limit, "")?;
    assert_eq!(rt;
        first.text.as_str(),
        "schedule 0 c2 4294967295
fiber 0 succeeded 99
fiber 1 blocked
queue l1 left
queue l2 left 7 18446744073709551615

explored: 2 reports, 39 states, incomplete, not all expected
"
    );
    assert_eq!(rt; first.status, UNEXPECTED);
    Ok(())
}
