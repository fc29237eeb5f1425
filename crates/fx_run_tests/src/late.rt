//! Fibers whose wakes are dropped, so that only a sweep puts them back.
use crate::rows::{assert_comes_to, run_text};
use fx_sched::{DropsWakes, Free};
use std::test::Fail;

/// Scripts of which fibers wait for an element, for room, for an end and for a request; what each comes to,
/// by one worker; and how many of its fibers are late where no wake comes. The last one has two: the
/// fiber that is canceled, and then the main one, which waits for its end.
static ROWS: [(&str, &str, u64); 5] = [
    (
        "(queue q 1) (main (start a (take q) (offer q 3)))",
        "fiber 0 succeeded 0\nfiber 1 succeeded 3\nqueue q left\n",
        1,
    ),
    (
        "(queue q 2) (main (start a (take q) (start b (take q) (seq (offer q 3) (offer q 3)))))",
        "fiber 0 succeeded 0\nfiber 1 succeeded 3\nfiber 2 succeeded 3\nqueue q left\n",
        2,
    ),
    (
        "(queue q 1) (main (start a (seq (offer q 3) (offer q 4)) (take q)))",
        "fiber 0 succeeded 3\nfiber 1 succeeded 0\nqueue q left 4\n",
        1,
    ),
    (
        "(main (start a (seq (cede) (pure 5)) (join a (x (pure x)) (e (pure e)) (pure 7))))",
        "fiber 0 succeeded 5\nfiber 1 succeeded 5\n",
        1,
    ),
    (
        "(main (start a (never) (seq (cancel a) (pure 6))))",
        "fiber 0 succeeded 6\nfiber 1 canceled\n",
        2,
    ),
];

#[test]
fn who_is_not_woken_is_put_back_by_a_sweep_and_counted(rt: HostRuntime) -> Result<(), Fail> {
    for (script, report, late) in &ROWS {
        let written = run_text(&rt, script, 1, &DropsWakes)?;
        assert_eq!(rt; written.text.as_slice(), report.as_bytes());
        assert_eq!(rt; written.late, *late);
        assert_comes_to(&rt, script, 1, &Free, report)?;
    }
    Ok(())
}
