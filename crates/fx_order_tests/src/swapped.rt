//! A report whose stamps put causes first, and the same with two stamps in each other's place.
use crate::causes::first_before_cause;
use crate::reports::{Trace, report_of, trace};
use fx_order::order_by_stamp;
use fx_term::Event::{Awaited, Cancelled, Ended, First, Got, Joined, Put, Request, Seen, Start};
use fx_term::Outcome::{Canceled, Succeeded};
use std::test::Fail;

struct Row {
    shows: &'static str,
    traces: &'static [Trace],
    outside: &'static [u32],
    /// The fiber and the place of the first event that comes before its cause.
    early: Option<(u32, usize)>,
}

static ROWS: [Row; 10] = [
    Row {
        shows: "a race, whose loser is canceled",
        traces: &[
            (
                0,
                trace![
                    1 => Start(1), 2 => Start(2), 4 => First(1), 5 => Joined(2, Succeeded(8)), 6 => Request(1),
                    10 => Awaited(1), 11 => Ended(Succeeded(8)),
                ],
            ),
            (1, trace![7 => Seen, 8 => Cancelled, 9 => Ended(Canceled)]),
            (2, trace![3 => Ended(Succeeded(8))]),
        ],
        outside: &[],
        early: None,
    },
    Row {
        shows: "a request is seen before it is made",
        traces: &[
            (0, trace![1 => Start(1), 3 => Request(1), 6 => Awaited(1)]),
            (1, trace![2 => Seen, 4 => Cancelled, 5 => Ended(Canceled)]),
        ],
        outside: &[],
        early: Some((1, 0)),
    },
    Row {
        shows: "the end of a canceled fiber is awaited, and then comes",
        traces: &[
            (0, trace![1 => Start(1), 2 => Request(1), 5 => Awaited(1)]),
            (1, trace![3 => Seen, 4 => Cancelled, 6 => Ended(Canceled)]),
        ],
        outside: &[],
        early: Some((0, 2)),
    },
    Row {
        shows: "one of two is found to have ended, and neither has",
        traces: &[
            (0, trace![1 => Start(1), 2 => Start(2), 3 => First(1)]),
            (2, trace![4 => Ended(Succeeded(8))]),
        ],
        outside: &[],
        early: Some((0, 2)),
    },
    Row {
        shows: "an end is learnt before it comes",
        traces: &[
            (0, trace![1 => Start(1), 2 => Joined(1, Succeeded(5))]),
            (1, trace![3 => Ended(Succeeded(5))]),
        ],
        outside: &[],
        early: Some((0, 1)),
    },
    Row {
        shows: "another end is learnt than the one that came",
        traces: &[
            (0, trace![1 => Start(1), 3 => Joined(1, Succeeded(5))]),
            (1, trace![2 => Ended(Canceled)]),
        ],
        outside: &[],
        early: Some((0, 1)),
    },
    Row {
        shows: "a value is got twice and put once before",
        traces: &[
            (0, trace![1 => Start(1), 2 => Put(0, 5), 5 => Put(0, 5)]),
            (1, trace![3 => Got(0, 5), 4 => Got(0, 5)]),
        ],
        outside: &[],
        early: Some((1, 1)),
    },
    Row {
        shows: "a fiber goes on before its start",
        traces: &[
            (0, trace![2 => Start(1)]),
            (1, trace![1 => Ended(Succeeded(5))]),
        ],
        outside: &[],
        early: Some((1, 0)),
    },
    Row {
        shows: "a fiber's own events change places",
        traces: &[(0, trace![2 => Put(0, 5), 1 => Ended(Succeeded(0))])],
        outside: &[],
        early: Some((0, 1)),
    },
    Row {
        shows: "a request from outside has no event",
        traces: &[(0, trace![1 => Seen, 2 => Cancelled, 3 => Ended(Canceled)])],
        outside: &[0],
        early: None,
    },
];

#[test]
fn swapped_stamps_put_an_event_before_its_cause(rt: HostRuntime) -> Result<(), Fail> {
    for row in &ROWS {
        let report = report_of(rt.alloc(), row.traces)?;
        let list = order_by_stamp(rt.alloc(), &report)?;
        let early = first_before_cause(&list, row.outside).map(|it| (it.fiber, it.place));
        assert!(rt; early == row.early, "{}", row.shows);
    }
    Ok(())
}
