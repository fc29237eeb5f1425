//! Small graphs of which moves are asleep, searched.

use crate::numbered::{Numbered, rows_are, state_of};
use fx_search::{Ending, Met, MoveSet, Nobody, Space, Successor, search};
use fx_term::Memory;
use std::alloc::Global;
use std::test::Fail;

/// A move: its number, where it leads, and which moves are asleep there.
#[derive(Clone, Copy)]
struct Move {
    number: u32,
    to: u32,
    asleep: &'static [u32],
}

/// A graph: the moves of each state. It counts those that it makes.
#[derive(Drop)]
struct Moves {
    lists: &'static [&'static [Move]],
    made: u32,
}

/// The set of these numbers.
fn set_of(numbers: &[u32]) -> MoveSet {
    let mut set = MoveSet::none();
    for &number in numbers {
        set = set.with(number);
    }
    set
}

impl Space<Numbered> for Moves {
    ghost has = { λ graph state. Unit {0} };

    ghost leads = { λ graph from asleep to. Unit {0} };

    ghost covers = { λ graph from asleep next. Unit {0} };

    fn successors(
        &mut self,
        alloc: Global,
        state: &Numbered,
        asleep: MoveSet,
        _spares: &mut Vec<Numbered>,
    ) -> Result<Vec<Successor<Numbered>>, Memory> {
        let Some(list) = self.lists.get(state.first() as usize) else {
            return Err(Memory);
        };
        let mut next = Vec::new(alloc);
        for one in *list {
            if asleep.has(one.number) {
                continue;
            }
            self.made = self.made.saturating_add(1);
            next.push(Successor {
                state: state_of(alloc, &[one.to])?,
                asleep: set_of(one.asleep),
            })?;
        }
        Ok(next)
    }

    ghost has_rows = { λ graph from to same has. tt };
}

/// Two moves lead to 3 in either order. What is made first in the one way is asleep in the other.
const DIAMOND: &[&[Move]] = &[
    &[
        Move {
            number: 0,
            to: 1,
            asleep: &[],
        },
        Move {
            number: 63,
            to: 2,
            asleep: &[0],
        },
    ],
    &[Move {
        number: 63,
        to: 3,
        asleep: &[],
    }],
    &[Move {
        number: 0,
        to: 3,
        asleep: &[],
    }],
    &[],
];

/// The move from 1 to 3 is asleep at first, and not where 1 is met from 2.
const WOKEN: &[&[Move]] = &[
    &[
        Move {
            number: 0,
            to: 1,
            asleep: &[5, 7],
        },
        Move {
            number: 1,
            to: 2,
            asleep: &[],
        },
    ],
    &[Move {
        number: 5,
        to: 3,
        asleep: &[],
    }],
    &[Move {
        number: 0,
        to: 1,
        asleep: &[7, 9],
    }],
    &[],
];

fn searched(alloc: Global, graph: &mut Moves) -> Result<Met, Memory> {
    let start = state_of(alloc, &[0])?;
    search(alloc, graph, start, 9, &mut Nobody)
}

#[test]
fn moves_that_are_asleep_are_not_made(rt: HostRuntime) -> Result<(), Fail> {
    let mut graph = Moves {
        lists: DIAMOND,
        made: 0,
    };
    let met = searched(rt.alloc(), &mut graph)?;
    assert!(rt; rows_are(rt.alloc(), &met.states, &[0, 1, 2, 3])?);
    assert!(rt; met.parents.as_slice() == [0, 0, 0, 1].as_slice());
    assert!(rt;
        met.asleep.as_slice() == [set_of(&[]), set_of(&[]), set_of(&[0]), set_of(&[])].as_slice()
    );
    assert_eq!(rt;
        (graph.made, met.expanded, met.ending),
        (3, 4, Ending::Exhausted)
    );
    Ok(())
}

#[test]
fn state_is_expanded_again_where_a_move_of_it_wakes(rt: HostRuntime) -> Result<(), Fail> {
    let mut graph = Moves {
        lists: WOKEN,
        made: 0,
    };
    let met = searched(rt.alloc(), &mut graph)?;
    assert!(rt; rows_are(rt.alloc(), &met.states, &[0, 1, 2, 3])?);
    assert!(rt; met.parents.as_slice() == [0, 0, 0, 1].as_slice());
    assert!(rt;
        met.asleep.as_slice() == [set_of(&[]), set_of(&[7]), set_of(&[]), set_of(&[])].as_slice()
    );
    assert_eq!(rt;
        (graph.made, met.expanded, met.ending),
        (4, 4, Ending::Exhausted)
    );
    Ok(())
}

#[test]
fn moves_from_64_on_are_left_out(rt: HostRuntime) -> Result<(), Fail> {
    assert!(rt; set_of(&[64]) == MoveSet::none() && set_of(&[63]) != MoveSet::none());
    assert!(rt; set_of(&[0, 63]).has(63) && !set_of(&[0, 63]).has(62) && !set_of(&[0]).has(64));
    Ok(())
}
