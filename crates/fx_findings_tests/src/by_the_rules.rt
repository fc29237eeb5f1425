//! Scripts with all reports that their runs have, each worked out from the rules.
use fx_findings::{Nobody, compare, explore};
use fx_report::ENDED;
use fx_search::Ending;
use fx_text::{Pick, parse};
use std::test::Fail;

/// A script, how many reports its runs have, and these, parted by empty lines.
#[derive(Clone, Copy)]
struct Row {
    script: &'static [u8],
    count: usize,
    reports: &'static [u8],
}

/// Each waits for the lock that the other one has; or one of them has had both before the other begins.
const TWO_LOCKS: Row = Row {
    script: b"(queue a 1) (queue b 1) (main (seq (offer a 1) (offer b 1)
        (start h (seq (take a) (take b) (offer b 1) (offer a 1))
          (seq (take b) (take a) (offer a 1) (offer b 1)))))",
    count: 2,
    reports: b"fiber 0 blocked\nfiber 1 blocked\nqueue a left\nqueue b left\n
fiber 0 succeeded 0\nfiber 1 succeeded 0\nqueue a left 1\nqueue b left 1\n",
};

/// All have taken their left fork; or one has eaten, and then the others can.
const PHILOSOPHERS: Row = Row {
    script: b"(queue a 1) (queue b 1) (queue c 1) (main (seq (offer a 1) (offer b 1) (offer c 1)
        (start x (seq (take a) (take b) (offer b 1) (offer a 1))
          (start y (seq (take b) (take c) (offer c 1) (offer b 1))
            (seq (take c) (take a) (offer a 1) (offer c 1))))))",
    count: 2,
    reports: b"fiber 0 blocked\nfiber 1 blocked\nfiber 2 blocked\nqueue a left\nqueue b left\nqueue c left\n
fiber 0 succeeded 0\nfiber 1 succeeded 0\nfiber 2 succeeded 0\nqueue a left 1\nqueue b left 1\nqueue c left 1\n",
};

/// Nothing comes, so the right side wins.
const TIMEOUT: Row = Row {
    script: b"(queue q 1) (main (race (take q) (pure 9)))",
    count: 1,
    reports: b"fiber 0 succeeded 9\nfiber 1 canceled\nfiber 2 succeeded 9\nqueue q left\n",
};

/// The left side wins, and the right one has come to its end, or is canceled before; or the right side wins, and the left one
/// has come to its end, or is canceled once it has taken, or before.
const RACE: Row = Row {
    script: b"(queue q 1) (main (seq (offer q 3) (race (take q) (pure 9))))",
    count: 5,
    reports: b"fiber 0 succeeded 3\nfiber 1 succeeded 3\nfiber 2 succeeded 9\nqueue q left\n
fiber 0 succeeded 3\nfiber 1 succeeded 3\nfiber 2 canceled\nqueue q left\n
fiber 0 succeeded 9\nfiber 1 succeeded 3\nfiber 2 succeeded 9\nqueue q left\n
fiber 0 succeeded 9\nfiber 1 canceled\nfiber 2 succeeded 9\nqueue q left\n
fiber 0 succeeded 9\nfiber 1 canceled\nfiber 2 succeeded 9\nqueue q left 3\n",
};

/// There is room for one.
const TRIED_OFFERS: Row = Row {
    script: b"(queue q 1) (main (start h (tryoffer q 1) (tryoffer q 2)))",
    count: 2,
    reports: b"fiber 0 succeeded 1\nfiber 1 succeeded 0\nqueue q left 2\n
fiber 0 succeeded 0\nfiber 1 succeeded 1\nqueue q left 1\n",
};

/// There is an element for one.
const TRIED_TAKES: Row = Row {
    script: b"(queue q 1) (main (seq (offer q 7)
        (start h (trytake q x (pure x) (pure 0)) (trytake q y (pure y) (pure 0)))))",
    count: 2,
    reports: b"fiber 0 succeeded 7\nfiber 1 succeeded 0\nqueue q left\n
fiber 0 succeeded 0\nfiber 1 succeeded 7\nqueue q left\n",
};

/// What is acquired cannot be left out: the fiber is canceled in the use, or after the release, or it has ended before.
const CASES: Row = Row {
    script: b"(queue q 2) (main (start h
        (bracketcase x (pure 7) (pure 5) (y (offer q y)) (z (offer q 1)) (offer q x)) (cancel h)))",
    count: 3,
    reports: b"fiber 0 succeeded 0\nfiber 1 canceled\nqueue q left 7\n
fiber 0 succeeded 0\nfiber 1 canceled\nqueue q left 5\n
fiber 0 succeeded 0\nfiber 1 succeeded 5\nqueue q left 5\n",
};

/// The cancellation acts where the mask is opened, whatever the other fiber does.
const SELF: Row = Row {
    script: b"(main (start h (mask p (seq (canceled) (poll p (pure 3))))
        (join h (x (pure x)) (e (pure 8)) (pure 9))))",
    count: 1,
    reports: b"fiber 0 succeeded 9\nfiber 1 canceled\n",
};

/// The mask is opened nowhere inside, so the cancellation acts after it.
const SELF_AFTER: Row = Row {
    script: b"(queue q 1) (main (mask p (seq (canceled) (offer q 2) (pure 5))))",
    count: 1,
    reports: b"fiber 0 canceled\nqueue q left 2\n",
};

/// Either of two that end may be found first.
const FIRST: Row = Row {
    script: b"(main (start a (pure 1) (start b (raise 2) (first a b))))",
    count: 2,
    reports: b"fiber 0 succeeded 0\nfiber 1 succeeded 1\nfiber 2 errored 2\n
fiber 0 succeeded 1\nfiber 1 succeeded 1\nfiber 2 errored 2\n",
};

/// The user that is canceled has the connection first or last, and gives it back either time.
const POOL: Row = Row {
    script: b"(queue pool 1) (main (seq (offer pool 7)
        (start u (bracket c (take pool) (never) (offer pool c))
          (start w (bracket d (take pool) (pure d) (offer pool d)) (cancel u)))))",
    count: 1,
    reports: b"fiber 0 succeeded 0\nfiber 1 canceled\nfiber 2 succeeded 7\nqueue pool left 7\n",
};

/// What was put first is taken first.
const PRODUCERS: Row = Row {
    script: b"(queue q 2) (main (start a (offer q 1) (start b (offer q 2) (seq (take q) (take q)))))",
    count: 2,
    reports: b"fiber 0 succeeded 2\nfiber 1 succeeded 0\nfiber 2 succeeded 0\nqueue q left\n
fiber 0 succeeded 1\nfiber 1 succeeded 0\nfiber 2 succeeded 0\nqueue q left\n",
};

/// The second part runs once, whether the fiber is canceled or not.
const GUARANTEED: Row = Row {
    script: b"(queue q 2) (main (start h (guarantee (pure 5) (offer q 3)) (cancel h)))",
    count: 2,
    reports: b"fiber 0 succeeded 0\nfiber 1 canceled\nqueue q left 3\n
fiber 0 succeeded 0\nfiber 1 succeeded 5\nqueue q left 3\n",
};

/// A fiber is requested before it has entered its mask, or it is in it and who cancels it waits with it.
const KEPT: Row = Row {
    script: b"(main (start h (mask p (never)) (cancel h)))",
    count: 2,
    reports: b"fiber 0 blocked\nfiber 1 blocked\n
fiber 0 succeeded 0\nfiber 1 canceled\n",
};

static ROWS: [Row; 14] = [
    TWO_LOCKS,
    PHILOSOPHERS,
    TIMEOUT,
    RACE,
    TRIED_OFFERS,
    TRIED_TAKES,
    CASES,
    SELF,
    SELF_AFTER,
    FIRST,
    POOL,
    PRODUCERS,
    GUARANTEED,
    KEPT,
];

/// A script, the fiber that is requested from outside at any moment or not at all, and the reports.
#[derive(Clone, Copy)]
struct Asked {
    target: u32,
    row: Row,
}

/// The permit is lost where its holder is canceled between its take and its offer.
const LOST_PERMIT: Asked = Asked {
    target: 1,
    row: Row {
        script: b"(queue p 1) (main (seq (offer p 7) (start h (seq (take p) (offer p 7)) (pure 0))))",
        count: 3,
        reports: b"fiber 0 succeeded 0\nfiber 1 canceled\nqueue p left 7\n
fiber 0 succeeded 0\nfiber 1 canceled\nqueue p left\n
fiber 0 succeeded 0\nfiber 1 succeeded 0\nqueue p left 7\n",
    },
};

/// With a bracket it is always back.
const BRACKETED_PERMIT: Asked = Asked {
    target: 1,
    row: Row {
        script: b"(queue p 1) (main (seq (offer p 7)
            (start h (bracket x (take p) (pure 1) (offer p x)) (pure 0))))",
        count: 2,
        reports: b"fiber 0 succeeded 0\nfiber 1 canceled\nqueue p left 7\n
fiber 0 succeeded 0\nfiber 1 succeeded 1\nqueue p left 7\n",
    },
};

/// Who waits for a permit that is lost waits for good.
const WAITED_PERMIT: Asked = Asked {
    target: 1,
    row: Row {
        script: b"(queue p 1) (main (seq (offer p 7) (start h (seq (take p) (offer p 7)) (take p))))",
        count: 4,
        reports: b"fiber 0 blocked\nfiber 1 canceled\nqueue p left\n
fiber 0 succeeded 7\nfiber 1 blocked\nqueue p left\n
fiber 0 succeeded 7\nfiber 1 succeeded 0\nqueue p left\n
fiber 0 succeeded 7\nfiber 1 canceled\nqueue p left\n",
    },
};

/// The request is seen before the mask or after it, and never between its two offers.
const MASKED: Asked = Asked {
    target: 1,
    row: Row {
        script: b"(queue q 2) (main (start h (mask p (seq (offer q 1) (offer q 2))) (pure 0)))",
        count: 3,
        reports: b"fiber 0 succeeded 0\nfiber 1 canceled\nqueue q left\n
fiber 0 succeeded 0\nfiber 1 canceled\nqueue q left 1 2\n
fiber 0 succeeded 0\nfiber 1 succeeded 0\nqueue q left 1 2\n",
    },
};

/// The main fiber, which no other one can name, is requested before its offer or after it.
const MAIN: Asked = Asked {
    target: 0,
    row: Row {
        script: b"(queue q 1) (main (seq (offer q 2) (pure 3)))",
        count: 3,
        reports: b"fiber 0 canceled\nqueue q left\n
fiber 0 canceled\nqueue q left 2\n
fiber 0 succeeded 3\nqueue q left 2\n",
    },
};

/// Who never starts is requested in vain.
const UNSTARTED: Asked = Asked {
    target: 1,
    row: Row {
        script: b"(main (if 0 (start h (pure 1) (pure 2)) (pure 3)))",
        count: 1,
        reports: b"fiber 0 succeeded 3\n",
    },
};

/// So is a fiber of which the script has no number.
const NO_FIBER: Asked = Asked {
    target: 9,
    row: Row {
        script: b"(queue p 1) (main (seq (offer p 7) (start h (seq (take p) (offer p 7)) (pure 0))))",
        count: 1,
        reports: b"fiber 0 succeeded 0\nfiber 1 succeeded 0\nqueue p left 7\n",
    },
};

/// Who waits for good is woken by a request, and another fiber is requested by nobody.
const WOKEN: Asked = Asked {
    target: 2,
    row: Row {
        script: b"(main (start a (never) (start b (never) (pure 0))))",
        count: 2,
        reports: b"fiber 0 succeeded 0\nfiber 1 blocked\nfiber 2 blocked\n
fiber 0 succeeded 0\nfiber 1 blocked\nfiber 2 canceled\n",
    },
};

static ASKED: [Asked; 8] = [
    LOST_PERMIT,
    BRACKETED_PERMIT,
    WAITED_PERMIT,
    MASKED,
    MAIN,
    UNSTARTED,
    NO_FIBER,
    WOKEN,
];

/// How many of the picks are requests, for any fiber.
fn requests(picks: &[Pick]) -> usize {
    picks
        .iter()
        .filter(|pick| matches!(pick, Pick::Cancel(_)))
        .count()
}

/// How many of them are for this one.
fn requests_for(picks: &[Pick], target: u32) -> usize {
    picks
        .iter()
        .filter(|pick| **pick == Pick::Cancel(target))
        .count()
}

#[test]
fn reports_are_those_of_the_rules(rt: HostRuntime) -> Result<(), Fail> {
    for row in &ROWS {
        let script = parse(rt.alloc(), row.script)?;
        let explored = explore(rt.alloc(), &script, None, 100_000, &mut Nobody)?;
        assert_eq!(rt; explored.ending, Ending::Exhausted);
        assert_eq!(rt; explored.findings.len(), row.count);
        let compared = compare(rt.alloc(), &script, &explored, row.reports)?;
        assert_eq!(rt; compared.status, ENDED);
    }
    Ok(())
}

#[test]
fn a_fiber_is_requested_at_any_moment(rt: HostRuntime) -> Result<(), Fail> {
    for asked in &ASKED {
        let script = parse(rt.alloc(), asked.row.script)?;
        let explored = explore(
            rt.alloc(),
            &script,
            Some(asked.target),
            100_000,
            &mut Nobody,
        )?;
        assert_eq!(rt; explored.ending, Ending::Exhausted);
        assert_eq!(rt; explored.findings.len(), asked.row.count);
        let compared = compare(rt.alloc(), &script, &explored, asked.row.reports)?;
        assert_eq!(rt; compared.status, ENDED);
    }
    Ok(())
}

#[test]
fn a_fiber_is_requested_at_most_once(rt: HostRuntime) -> Result<(), Fail> {
    for asked in &ASKED {
        let script = parse(rt.alloc(), asked.row.script)?;
        let explored = explore(
            rt.alloc(),
            &script,
            Some(asked.target),
            100_000,
            &mut Nobody,
        )?;
        for finding in &explored.findings {
            assert!(rt; finding.schedule.is_some());
            if let Some(picks) = &finding.schedule {
                let own = requests_for(picks, asked.target);
                assert!(rt; own <= 1);
                assert_eq!(rt; requests(picks), own);
            }
        }
    }
    Ok(())
}
