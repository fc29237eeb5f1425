//! Small graphs, searched.

use crate::numbered::{Numbered, rows_are, state_of};
use fx_search::{Ending, MoveSet, Nobody, Progress, SoFar, Space, Successor, search};
use fx_term::Memory;
use std::alloc::Global;
use std::test::Fail;

/// A graph: which numbers follow each. For one that has no list there is no memory.
#[derive(Drop)]
struct Graph {
    lists: &'static [&'static [u32]],
}

impl Space<Numbered> for Graph {
    ghost has = { λ graph state. Unit {0} };

    ghost leads = { λ graph from asleep to. Unit {0} };

    ghost covers = { λ graph from asleep next. Unit {0} };

    fn successors(
        &mut self,
        alloc: Global,
        state: &Numbered,
        _asleep: MoveSet,
        _spares: &mut Vec<Numbered>,
    ) -> Result<Vec<Successor<Numbered>>, Memory> {
        let Some(list) = self.lists.get(state.first() as usize) else {
            return Err(Memory);
        };
        let mut next = Vec::new(alloc);
        for &number in *list {
            next.push(Successor {
                state: state_of(alloc, &[number])?,
                asleep: MoveSet::none(),
            })?;
        }
        Ok(next)
    }

    ghost has_rows = { λ graph from to same has. tt };
}

const CYCLE: &[&[u32]] = &[&[1], &[2], &[0]];

const WIDE: &[&[u32]] = &[&[2, 1], &[3, 4], &[4, 0], &[], &[5], &[3]];

const SHORT: &[&[u32]] = &[&[1, 7], &[2], &[]];

/// Graphs, how many states may be expanded, which are met, in order, how many are expanded, and the end.
static SEARCHES: [(&str, &[&[u32]], usize, &[u32], usize, Ending); 7] = [
    ("a cycle", CYCLE, 9, &[0, 1, 2], 3, Ending::Exhausted),
    ("just enough", CYCLE, 3, &[0, 1, 2], 3, Ending::Exhausted),
    (
        "nearest first",
        WIDE,
        9,
        &[0, 2, 1, 4, 3, 5],
        6,
        Ending::Exhausted,
    ),
    ("cut short", WIDE, 2, &[0, 2, 1, 4], 2, Ending::Limit),
    ("one too few", CYCLE, 2, &[0, 1, 2], 2, Ending::Limit),
    ("none allowed", CYCLE, 0, &[0], 0, Ending::Limit),
    (
        "no memory for 7",
        SHORT,
        9,
        &[0, 1, 7, 2],
        2,
        Ending::Memory,
    ),
];

#[test]
fn graphs_are_searched_breadth_first(rt: HostRuntime) -> Result<(), Fail> {
    for &(row, lists, most, states, expanded, ending) in &SEARCHES {
        let start = state_of(rt.alloc(), &[0])?;
        let met = search(rt.alloc(), &mut Graph { lists }, start, most, &mut Nobody)?;
        assert!(rt; rows_are(rt.alloc(), &met.states, states)?, "{row}");
        assert_eq!(rt; (met.expanded, met.ending), (expanded, ending), "{row}");
    }
    Ok(())
}

#[test]
fn parents_lead_back_to_the_start(rt: HostRuntime) -> Result<(), Fail> {
    let start = state_of(rt.alloc(), &[0])?;
    let met = search(
        rt.alloc(),
        &mut Graph { lists: WIDE },
        start,
        9,
        &mut Nobody,
    )?;
    assert!(rt; met.parents.as_slice() == [0, 0, 0, 1, 2, 3].as_slice());
    Ok(())
}

/// Keeps the last four things that it hears.
#[derive(Drop)]
struct Listener {
    heard: [(usize, usize); 4],
}

impl Progress for Listener {
    ghost hears = { λ old so_far new. Unit {0} };

    fn tell(&mut self, so_far: SoFar) {
        self.heard[so_far.expanded % 4] = (so_far.expanded, so_far.met);
    }
}

#[test]
fn each_state_is_told_before_it_is_expanded(rt: HostRuntime) -> Result<(), Fail> {
    let mut listener = Listener { heard: [(9, 9); 4] };
    let start = state_of(rt.alloc(), &[0])?;
    search(
        rt.alloc(),
        &mut Graph { lists: WIDE },
        start,
        3,
        &mut listener,
    )?;
    assert!(rt; listener.heard == [(0, 1), (1, 3), (2, 4), (9, 9)]);
    Ok(())
}
