//! The orders in which queues have histories.
use crate::reports::{Left, Trace, report_of, trace};
use fx_counts::order_by_queues;
use fx_order::{Occurrence, order_by_stamp};
use fx_term::Event::{Got, Put, Refused, Start};
use fx_term::Memory;
use std::alloc::Global;
use std::test::Fail;

/// An event, by its fiber and its place in the fiber's trace.
type Stand = (u32, usize);

struct Row {
    shows: &'static str,
    capacities: &'static [u32],
    traces: &'static [Trace],
    left: &'static [Left],
    /// The events as they stand in the order that is found.
    order: &'static [Stand],
}

static ROWS: [Row; 8] = [
    Row {
        shows: "nothing of nothing",
        capacities: &[1],
        traces: &[],
        left: &[&[]],
        order: &[],
    },
    Row {
        shows: "two fibers put and two take, and by stamp three puts come first at a queue of two",
        capacities: &[2],
        traces: &[
            (0, trace![1 => Put(0, 1), 2 => Put(0, 2)]),
            (1, trace![1 => Put(0, 7), 2 => Put(0, 8)]),
            (2, trace![2 => Got(0, 1), 3 => Got(0, 8)]),
            (3, trace![2 => Got(0, 7), 3 => Got(0, 2)]),
        ],
        left: &[&[]],
        order: &[
            (0, 0),
            (2, 0),
            (1, 0),
            (3, 0),
            (0, 1),
            (3, 1),
            (1, 1),
            (2, 1),
        ],
    },
    Row {
        shows: "of two queues the first has to hold two elements, and not the one that is put first by stamp",
        capacities: &[2, 1],
        traces: &[
            (0, trace![1 => Put(0, 5), 2 => Put(0, 6), 3 => Put(1, 1)]),
            (
                1,
                trace![4 => Got(1, 1), 5 => Got(0, 5), 6 => Got(0, 6), 7 => Got(0, 9)],
            ),
            (2, trace![1 => Put(0, 9)]),
        ],
        left: &[&[], &[]],
        order: &[
            (0, 0),
            (0, 1),
            (0, 2),
            (1, 0),
            (1, 1),
            (1, 2),
            (2, 0),
            (1, 3),
        ],
    },
    Row {
        shows: "what is left is put last, in its order",
        capacities: &[3],
        traces: &[
            (0, trace![1 => Put(0, 5)]),
            (1, trace![1 => Put(0, 6)]),
            (2, trace![1 => Put(0, 7)]),
            (3, trace![2 => Got(0, 7)]),
        ],
        left: &[&[(1, 0, 6), (0, 0, 5)]],
        order: &[(2, 0), (3, 0), (1, 0), (0, 0)],
    },
    Row {
        shows: "events at no queue stay between those of their fiber",
        capacities: &[1],
        traces: &[
            (0, trace![1 => Start(1), 2 => Start(2), 3 => Put(0, 5)]),
            (1, trace![2 => Put(0, 6), 3 => Refused(0)]),
            (2, trace![4 => Got(0, 5)]),
        ],
        left: &[&[(1, 0, 6)]],
        order: &[(0, 0), (0, 1), (0, 2), (2, 0), (1, 0), (1, 1)],
    },
    Row {
        shows: "what was put before a fiber was started is put before that takes",
        capacities: &[2],
        traces: &[
            (
                0,
                trace![1 => Put(0, 1), 2 => Put(0, 2), 3 => Start(1), 4 => Start(2)],
            ),
            (
                1,
                trace![4 => Refused(0), 5 => Refused(0), 6 => Refused(0), 7 => Got(0, 1)],
            ),
            (2, trace![5 => Put(0, 3)]),
        ],
        left: &[&[(0, 1, 2), (2, 0, 3)]],
        order: &[
            (0, 0),
            (0, 1),
            (0, 2),
            (0, 3),
            (1, 0),
            (1, 1),
            (1, 2),
            (1, 3),
            (2, 0),
        ],
    },
    Row {
        shows: "no queue gives what was put later first: the list is given back",
        capacities: &[2],
        traces: &[
            (0, trace![1 => Put(0, 5), 2 => Put(0, 6)]),
            (1, trace![3 => Got(0, 6), 4 => Got(0, 5)]),
        ],
        left: &[&[]],
        order: &[(0, 0), (0, 1), (1, 0), (1, 1)],
    },
    Row {
        shows: "the order of stamps stays where it has a history, though a queue of one would do",
        capacities: &[2],
        traces: &[
            (0, trace![1 => Put(0, 5), 2 => Put(0, 6)]),
            (1, trace![3 => Got(0, 5), 4 => Got(0, 6)]),
        ],
        left: &[&[]],
        order: &[(0, 0), (0, 1), (1, 0), (1, 1)],
    },
];

/// Where the events of a list stand in their traces.
fn stands(alloc: Global, list: &[Occurrence]) -> Result<Vec<Stand>, Memory> {
    let mut stands = Vec::new(alloc);
    for it in list {
        stands.push((it.fiber, it.place))?;
    }
    Ok(stands)
}

#[test]
fn orders_are_found_in_which_queues_have_histories(rt: HostRuntime) -> Result<(), Fail> {
    for row in &ROWS {
        let report = report_of(rt.alloc(), row.traces, row.left)?;
        let list = order_by_stamp(rt.alloc(), &report)?;
        let better = order_by_queues(rt.alloc(), row.capacities, &report, list)?;
        let order = stands(rt.alloc(), &better)?;
        assert!(rt; order.as_slice() == row.order, "{}", row.shows);
    }
    Ok(())
}
