//! A script that has a `first` is searched once where each report has a schedule by that.
use fx_findings::explore;
use fx_search::{Progress, SoFar};
use fx_text::parse;
use std::test::Fail;

/// Counts searches, each of which tells at first that it has gone on from no state.
#[derive(Drop)]
struct Beginnings {
    count: usize,
}

impl Progress for Beginnings {
    ghost hears = { λ old so_far new. Unit {0} };

    fn tell(&mut self, so_far: SoFar) {
        if so_far.expanded == 0 {
            self.count = self.count.saturating_add(1);
        }
    }
}

/// Scripts, and whether each report has a schedule: then one search is enough.
static ROWS: [(&[u8], bool); 5] = [
    (b"(main (race (pure 1) (pure 2)))", true),
    // the right one is a race itself
    (b"(main (race (pure 1) (race (pure 2) (raise 3))))", true),
    (
        b"(queue q 3) (main (race (bracket x (pure 1) (cede) (offer q 1)) (race (bracket y (pure 2) (cede) (offer q 2))
            (bracket z (pure 3) (cede) (offer q 3)))))",
        true,
    ),
    // others can learn that the left one has ended, and do not
    (
        b"(main (start a (pure 1) (start b (pure 2) (seq (first a b) (join a (x (pure x)) (e (raise e)) (pure 8))))))",
        true,
    ),
    // the right one is the left one
    (b"(main (start h (pure 1) (first h h)))", false),
];

#[test]
fn a_race_is_searched_once(rt: HostRuntime) -> Result<(), Fail> {
    for (text, is_scheduled) in &ROWS {
        let script = parse(rt.alloc(), text)?;
        let mut beginnings = Beginnings { count: 0 };
        let explored = explore(rt.alloc(), &script, None, 100_000, &mut beginnings)?;
        let all = explored
            .findings
            .iter()
            .all(|finding| finding.schedule.is_some());
        assert_eq!(rt; all, *is_scheduled);
        let expected = if all { 1 } else { 2 };
        assert_eq!(rt; beginnings.count, expected);
    }
    Ok(())
}
