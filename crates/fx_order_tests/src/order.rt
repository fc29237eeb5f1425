//! In which order the events of a report are listed.
use crate::reports::{Trace, report_of, trace};
use fx_order::order_by_stamp;
use fx_term::Event::{Awaited, Cancelled, Ended, Request, Seen, Start};
use fx_term::Outcome::{Canceled, Succeeded};
use std::test::Fail;

struct Row {
    shows: &'static str,
    traces: &'static [Trace],
    /// The fiber of each event of the list, and its place in the trace.
    listed: &'static [(u32, usize)],
}

static ROWS: [Row; 3] = [
    Row {
        shows: "nothing of nothing",
        traces: &[],
        listed: &[],
    },
    Row {
        shows: "a fiber is canceled while the main fiber waits",
        traces: &[
            (
                0,
                trace![1 => Start(1), 2 => Request(1), 6 => Awaited(1), 7 => Ended(Succeeded(6))],
            ),
            (1, trace![3 => Seen, 4 => Cancelled, 5 => Ended(Canceled)]),
        ],
        listed: &[(0, 0), (0, 1), (1, 0), (1, 1), (1, 2), (0, 2), (0, 3)],
    },
    Row {
        shows: "a tie goes to the lower number, wherever that stands in the report",
        traces: &[
            (2, trace![3 => Ended(Succeeded(2))]),
            (1, trace![2 => Ended(Succeeded(1))]),
            (
                0,
                trace![1 => Start(1), 2 => Start(2), 3 => Ended(Succeeded(0))],
            ),
        ],
        listed: &[(0, 0), (0, 1), (1, 0), (0, 2), (2, 0)],
    },
];

#[test]
fn events_are_listed_by_stamp_and_then_by_fiber(rt: HostRuntime) -> Result<(), Fail> {
    for row in &ROWS {
        let report = report_of(rt.alloc(), row.traces)?;
        let list = order_by_stamp(rt.alloc(), &report)?;
        assert_eq!(rt; list.len(), row.listed.len(), "{}", row.shows);
        for (it, place) in list.iter().zip(row.listed) {
            assert!(rt; (it.fiber, it.place) == *place, "{}", row.shows);
        }
    }
    Ok(())
}
