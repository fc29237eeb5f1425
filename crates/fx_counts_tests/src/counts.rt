//! What is told along the events of a report in the order of stamps.
use crate::reports::{Left, Trace, report_of, trace};
use fx_counts::{AtQueue, counts};
use fx_order::order_by_stamp;
use fx_term::Event::{Got, Put, Refused, Start};
use std::test::Fail;

/// What is told of a put after which its queue holds so many.
macro_rules! put {
    ($held:literal) => {
        Some(AtQueue {
            held: $held,
            took: None,
        })
    };
}

/// What is told of a get after which its queue holds so many, and which took what was put at that place of the list.
macro_rules! got {
    ($held:literal, $took:literal) => {
        Some(AtQueue {
            held: $held,
            took: Some($took),
        })
    };
}

struct Row {
    shows: &'static str,
    capacities: &'static [u32],
    traces: &'static [Trace],
    left: &'static [Left],
    /// What is told of each event of the list.
    told: &'static [Option<AtQueue>],
}

static ROWS: [Row; 13] = [
    Row {
        shows: "nothing of nothing",
        capacities: &[1],
        traces: &[],
        left: &[&[]],
        told: &[],
    },
    Row {
        shows: "one more after a put, one less after a get, and no count of another event",
        capacities: &[2],
        traces: &[
            (
                0,
                trace![1 => Start(1), 2 => Put(0, 5), 3 => Put(0, 6), 4 => Refused(0)],
            ),
            (1, trace![3 => Got(0, 5)]),
        ],
        left: &[&[(0, 1, 6)]],
        told: &[None, put!(1), put!(2), got!(1, 1), None],
    },
    Row {
        shows: "two gets before the put of what the second took",
        capacities: &[2],
        traces: &[
            (0, trace![1 => Put(0, 5), 4 => Put(0, 6)]),
            (1, trace![2 => Got(0, 5), 3 => Got(0, 6)]),
        ],
        left: &[&[]],
        told: &[None, None, None, None],
    },
    Row {
        shows: "the later put has the lower stamp",
        capacities: &[2],
        traces: &[
            (0, trace![1 => Start(1), 2 => Start(2), 3 => Put(0, 5)]),
            (1, trace![2 => Put(0, 6)]),
            (2, trace![4 => Got(0, 5)]),
        ],
        left: &[&[(1, 0, 6)]],
        told: &[None, None, None, None, None],
    },
    Row {
        shows: "of two legal histories, with the get before or after the second put, that of the stamps",
        capacities: &[2],
        traces: &[
            (0, trace![1 => Start(1), 2 => Start(2), 3 => Put(0, 5)]),
            (1, trace![2 => Start(3), 3 => Put(0, 6)]),
            (2, trace![4 => Got(0, 5)]),
        ],
        left: &[&[(1, 0, 6)]],
        told: &[None, None, None, put!(1), put!(2), got!(1, 3)],
    },
    Row {
        shows: "more than the capacity in the order of stamps",
        capacities: &[1],
        traces: &[
            (0, trace![1 => Start(1), 2 => Put(0, 5)]),
            (1, trace![2 => Put(0, 6), 3 => Got(0, 5)]),
        ],
        left: &[&[(1, 0, 6)]],
        told: &[None, None, None, None],
    },
    Row {
        shows: "another rest: another fiber's, a later one, another value, one more and one less",
        capacities: &[1, 1, 1, 1, 1],
        traces: &[(
            0,
            trace![1 => Put(0, 5), 2 => Put(1, 5), 3 => Put(2, 5), 4 => Put(3, 5), 5 => Put(4, 5)],
        )],
        left: &[
            &[(1, 0, 5)],
            &[(0, 1, 5)],
            &[(0, 0, 6)],
            &[(0, 0, 5), (0, 1, 5)],
            &[],
        ],
        told: &[None, None, None, None, None],
    },
    Row {
        shows: "of two queues one has a history",
        capacities: &[1, 1],
        traces: &[(
            0,
            trace![1 => Put(0, 5), 2 => Put(1, 6), 3 => Got(1, 6), 4 => Put(1, 7), 5 => Got(0, 9)],
        )],
        left: &[&[], &[(0, 1, 7)]],
        told: &[None, put!(1), got!(0, 1), put!(1), None],
    },
    Row {
        shows: "the nth of each fiber counts alone",
        capacities: &[3],
        traces: &[
            (0, trace![1 => Start(1), 2 => Put(0, 5), 4 => Put(0, 7)]),
            (1, trace![3 => Put(0, 6)]),
        ],
        left: &[&[(0, 0, 5), (1, 0, 6), (0, 1, 7)]],
        told: &[None, put!(1), put!(2), put!(3)],
    },
    Row {
        shows: "a queue that is not declared",
        capacities: &[],
        traces: &[(0, trace![1 => Put(0, 5)])],
        left: &[&[(0, 0, 5)]],
        told: &[None],
    },
    Row {
        shows: "of two puts of one value by two fibers the first get took the earlier one, which the later fiber made",
        capacities: &[2],
        traces: &[
            (0, trace![1 => Start(1), 2 => Start(2), 3 => Put(0, 5)]),
            (1, trace![2 => Put(0, 5), 5 => Got(0, 5)]),
            (2, trace![4 => Got(0, 5)]),
        ],
        left: &[&[]],
        told: &[None, None, put!(1), put!(2), got!(1, 2), got!(0, 3)],
    },
    Row {
        shows: "puts and gets of two queues between one another, and of each get the place of its put in the list of all",
        capacities: &[2, 2],
        traces: &[(
            0,
            trace![1 => Put(0, 5), 2 => Put(1, 5), 3 => Put(1, 5), 4 => Got(1, 5), 5 => Got(0, 5), 6 => Got(1, 5)],
        )],
        left: &[&[], &[]],
        told: &[
            put!(1),
            put!(1),
            put!(2),
            got!(1, 1),
            got!(0, 0),
            got!(0, 2),
        ],
    },
    Row {
        shows: "each get from a queue of one takes the put before it",
        capacities: &[1],
        traces: &[
            (0, trace![1 => Put(0, 5), 3 => Put(0, 5), 5 => Put(0, 6)]),
            (1, trace![2 => Got(0, 5), 4 => Got(0, 5)]),
        ],
        left: &[&[(0, 2, 6)]],
        told: &[put!(1), got!(0, 0), put!(1), got!(0, 2), put!(1)],
    },
];

#[test]
fn counts_are_told_where_the_order_has_a_history(rt: HostRuntime) -> Result<(), Fail> {
    for row in &ROWS {
        let report = report_of(rt.alloc(), row.traces, row.left)?;
        let list = order_by_stamp(rt.alloc(), &report)?;
        let told = counts(rt.alloc(), row.capacities, &report, &list)?;
        assert!(rt; told.as_slice() == row.told, "{}", row.shows);
    }
    Ok(())
}
