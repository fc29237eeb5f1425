//! Scripts whose report is the same however their fibers interleave.
use fx_report::write_report;
use fx_run::{RunFault, run};
use fx_sched::{Free, Gate};
use fx_text::parse;
use std::alloc::AllocGlobal;
use std::process::Abort;
use std::random::RandomSource;
use std::sync::Wait;
use std::test::Fail;
use std::thread::Threads;

/// What a run takes of the machine, and what an assertion that fails does.
pub trait Machine: Wait + Threads + Sync + RandomSource + AllocGlobal + Abort {}

impl<R: Wait + Threads + Sync + RandomSource + AllocGlobal + Abort> Machine for R {}

/// What a run of a script came to: the text of its report, the fibers that were requested from outside, and
/// how many fibers only a sweep put back.
#[derive(Drop)]
pub struct Written {
    pub text: Vec<u8>,
    pub outside: Vec<u32>,
    pub late: u64,
}

/// Runs a script by so many workers, and writes its report.
pub fn run_text<G: Gate + Sync>(
    rt: &impl Machine,
    script: &str,
    workers: u32,
    gate: &G,
) -> Result<Written, Fail> {
    let alloc = rt.alloc();
    let script = parse(alloc, script.as_bytes())?;
    let report = run(rt, alloc, &script, workers, gate)?;
    let mut text = Vec::new(alloc);
    write_report(alloc, &script, &report, &mut text)?;
    Ok(Written {
        text,
        outside: report.outside,
        late: report.late,
    })
}

/// Runs a script by so many workers, and fails where it comes to another report, or only a sweep put a fiber back.
pub fn assert_comes_to<G: Gate + Sync>(
    rt: &impl Machine,
    script: &str,
    workers: u32,
    gate: &G,
    report: &str,
) -> Result<(), Fail> {
    let written = run_text(rt, script, workers, gate)?;
    assert_eq!(rt; written.text.as_slice(), report.as_bytes());
    assert_eq!(rt; written.late, 0);
    Ok(())
}

/// A producer and a consumer of each of two kinds, for one queue of two.
pub const PAIRS: &str =
    "(queue q 2) (main (start a (for i 100 (offer q i)) (start b (for i 100 (offer q i)) \
    (start c (for i 100 (take q)) (start d (for i 100 (take q)) (pure 9))))))";

static ROWS: [(&str, &str); 19] = [
    ("(main (pure 5))", "fiber 0 succeeded 5\n"),
    ("(main (seq (canceled) (pure 5)))", "fiber 0 canceled\n"),
    (
        "(main (seq (mask p (seq (canceled) (pure 1))) (pure 5)))",
        "fiber 0 canceled\n",
    ),
    (
        "(queue q 4) (main (mask a (mask b (poll a (poll b (seq (canceled) (offer q 1)))))))",
        "fiber 0 canceled\nqueue q left 1\n",
    ),
    (
        "(queue q 4) (main (mask a (mask b (poll b (poll a (seq (canceled) (offer q 1)))))))",
        "fiber 0 canceled\nqueue q left\n",
    ),
    (
        "(queue q 4) (main (mask p (poll p (mask r (poll p (seq (canceled) (offer q 1)))))))",
        "fiber 0 canceled\nqueue q left 1\n",
    ),
    (
        "(queue q 4) (main (oncancel (oncancel (canceled) (offer q 1)) (offer q 2)))",
        "fiber 0 canceled\nqueue q left 1 2\n",
    ),
    (
        "(queue q 4) (main (oncancel (oncancel (canceled) (raise 9)) (offer q 2)))",
        "fiber 0 canceled\nqueue q left 2\n",
    ),
    (
        "(queue q 4) (main (bracket x (pure 7) (raise 3) (offer q x)))",
        "fiber 0 errored 3\nqueue q left 7\n",
    ),
    (
        "(main (bracket x (pure 7) (pure 1) (raise 4)))",
        "fiber 0 errored 4\n",
    ),
    (
        "(main (mask p (start h (never) (seq (cancel h) (pure 6)))))",
        "fiber 0 succeeded 6\nfiber 1 canceled\n",
    ),
    (
        "(main (start h (never) (seq (cancel h) (join h (x (pure 1)) (e (pure 2)) (pure 3)))))",
        "fiber 0 succeeded 3\nfiber 1 canceled\n",
    ),
    (
        "(main (race (never) (pure 8)))",
        "fiber 0 succeeded 8\nfiber 1 canceled\nfiber 2 succeeded 8\n",
    ),
    (
        "(main (mask p (race (canceled) (canceled))))",
        "fiber 0 blocked\nfiber 1 canceled\nfiber 2 canceled\n",
    ),
    (
        "(queue q 1) (main (start h (never) (let r (tryoffer q 1) (seq (cancel h) (pure r)))))",
        "fiber 0 succeeded 1\nfiber 1 canceled\nqueue q left 1\n",
    ),
    (
        PAIRS,
        "fiber 0 succeeded 9\nfiber 1 succeeded 0\nfiber 2 succeeded 0\nfiber 3 succeeded 0\n\
        fiber 4 succeeded 0\nqueue q left\n",
    ),
    ("(main (never))", "fiber 0 blocked\n"),
    (
        "(queue q 1) (main (start h (take q) (start g (take q) (pure 1))))",
        "fiber 0 succeeded 1\nfiber 1 blocked\nfiber 2 blocked\nqueue q left\n",
    ),
    (
        "(queue q 1) (main (start a (take q) (start b (take q) \
        (seq (cancel a) (offer q 3) (join b (x (pure x)) (e (pure 0)) (pure 1))))))",
        "fiber 0 succeeded 3\nfiber 1 canceled\nfiber 2 succeeded 3\nqueue q left\n",
    ),
];

static RELEASED_BY_CASE: [(&str, &str); 3] = [
    (
        "(queue q 4) (main (bracketcase x (pure 7) (pure 5) (y (offer q y)) (z (offer q z)) (offer q x)))",
        "fiber 0 succeeded 5\nqueue q left 5\n",
    ),
    (
        "(queue q 4) (main (bracketcase x (pure 7) (raise 3) (y (offer q 1)) (z (offer q z)) (offer q x)))",
        "fiber 0 errored 3\nqueue q left 3\n",
    ),
    (
        "(queue q 4) (main (bracketcase x (pure 7) (canceled) (y (offer q 1)) (z (offer q z)) (offer q x)))",
        "fiber 0 canceled\nqueue q left 7\n",
    ),
];

#[test]
fn a_resource_is_released_by_how_its_use_ended(rt: HostRuntime) -> Result<(), Fail> {
    for (script, report) in &RELEASED_BY_CASE {
        for workers in [1u32, 4] {
            assert_comes_to(&rt, script, workers, &Free, report)?;
        }
    }
    Ok(())
}

#[test]
fn reports_do_not_depend_on_how_fibers_interleave(rt: HostRuntime) -> Result<(), Fail> {
    for (script, report) in &ROWS {
        for workers in [1u32, 2, 4, 64] {
            assert_comes_to(&rt, script, workers, &Free, report)?;
        }
    }
    Ok(())
}

#[test]
fn there_are_from_1_to_64_workers(rt: HostRuntime) -> Result<(), Fail> {
    let script = parse(rt.alloc(), b"(main (pure 5))")?;
    for workers in [0u32, 65, u32::MAX] {
        let answer = run(&rt, rt.alloc(), &script, workers, &Free);
        assert!(rt; matches!(answer, Err(RunFault::Workers)));
    }
    Ok(())
}
