//! Scripts whose fibers race, so that a run may come to one of several reports.
use crate::accounts::assert_adds_up;
use fx_sched::Free;
use fx_text::parse;
use std::test::Fail;

/// How often each script is run by each number of workers.
const RUNS: u32 = 50;

/// Races, cancellations that meet waits, masks and brackets, and queues that several fibers share.
pub static SCRIPTS: [&str; 12] = [
    "(main (race (for i 20 (cede)) (for i 20 (cede))))",
    "(main (race (race (pure 1) (never)) (seq (cede) (pure 2))))",
    "(queue q 1) (main (start a (for i 20 (offer q i)) (start b (for i 20 (take q)) (seq (cede) (cancel a) (cancel b)))))",
    "(queue q 2) (main (start a (for i 9 (offer q i)) (start b (take q) (start c (take q) (seq (cancel b) (cancel a) (cancel c))))))",
    "(queue q 1) (main (start a (bracket x (take q) (never) (offer q x)) (seq (offer q 3) (cancel a) (take q))))",
    "(queue q 3) (main (start a (mask p (seq (offer q 1) (poll p (never)) (offer q 2))) (seq (cede) (cancel a) (trytake q x (pure x) (pure 9)))))",
    "(queue q 1) (main (start a (offer q 1) (start b (offer q 2) (start c (offer q 3) (seq (cancel a) (cancel b) (cancel c) (take q))))))",
    "(queue q 4) (main (start a (oncancel (never) (offer q 1)) (start b (cancel a) (start c (cancel a) (seq (cancel a) (take q))))))",
    "(queue p 1) (queue q 1) (main (start a (for i 20 (seq (offer p i) (take q))) (start b (for i 20 (seq (take p) (offer q i))) (pure 1))))",
    "(queue q 2) (main (start a (for i 30 (tryoffer q i)) (start b (for i 30 (trytake q x (pure x) (cede))) (pure 1))))",
    "(queue q 1) (main (start a (take q) (start b (take q) (start c (take q) (seq (offer q 1) (cancel b) (offer q 2))))))",
    "(main (start a (start b (start c (never) (cede)) (cede)) (seq (cancel a) (join a (x (pure x)) (e (pure e)) (pure 7)))))",
];

#[test]
fn each_report_adds_up_by_any_number_of_workers(rt: HostRuntime) -> Result<(), Fail> {
    for text in &SCRIPTS {
        let script = parse(rt.alloc(), text.as_bytes())?;
        for workers in [1u32, 2, 4, 16] {
            for _ in 0..RUNS {
                assert_adds_up(&rt, &script, workers, &Free)?;
            }
        }
    }
    Ok(())
}
