//! The deques of workers.

use crate::harness::{Answer, Call, OTHER, Trial, UNSET, whole_where};
use crate::refuser::Refuser;
use fx_sched::{Owner, Tasks};
use std::alloc::Global;
use std::sync::Wait;

/// More tasks than a deque begins with.
const MANY: u64 = 100;

#[derive(Drop)]
struct Putting<'a, R> {
    rt: &'a R,
    tasks: Tasks<u64>,
    hand: Owner<u64>,
    put: u64,
}

/// Has the calls tried that put tasks into a deque.
pub fn put<R: Wait + Drop>(rt: &R, alloc: Global, trial: &Trial) -> Answer {
    let Ok((tasks, mut hands)) = Tasks::new(alloc, 1) else {
        return UNSET;
    };
    let Some(hand) = hands.pop() else {
        return UNSET;
    };
    trial.of(&mut Putting {
        rt,
        tasks,
        hand,
        put: 0,
    })
}

/// Up to which number the tasks from this one on come out as they went in. None where another one comes.
fn come_out<R: Wait>(rt: &R, hand: &mut Owner<u64>, tasks: &Tasks<u64>, first: u64) -> Option<u64> {
    for number in first..MANY {
        match hand.next(rt, tasks) {
            Some(task) if task == number => {}
            Some(_) => return None,
            None => return Some(number),
        }
    }
    if hand.next(rt, tasks).is_none() {
        Some(MANY)
    } else {
        None
    }
}

impl<'a, R: Wait> Call for Putting<'a, R> {
    fn make(&mut self, refuser: &Refuser) -> Answer {
        refuser.go_on();
        let put = self.hand.push(self.put);
        refuser.hold();
        match put {
            Err(back) if back == self.put => return Answer::Memory,
            Err(_) => return OTHER,
            Ok(()) => {}
        }
        self.put = self.put.saturating_add(1);
        if self.put < MANY {
            return Answer::Goes;
        }
        whole_where(come_out(self.rt, &mut self.hand, &self.tasks, 0) == Some(MANY))
    }
}

/// What a worker comes to that steals from another one, with more tasks than its own deque has room for. Where that
/// is refused more, it steals fewer. The few that are left to the other one come out there.
pub fn stolen<R: Wait>(rt: &R, alloc: Global, refuser: &Refuser) -> Answer {
    let Ok((tasks, mut hands)) = Tasks::new(alloc, 2) else {
        return UNSET;
    };
    let [other, hand] = hands.as_mut_slice() else {
        return UNSET;
    };
    for number in 0..MANY {
        if other.push(number).is_err() {
            return UNSET;
        }
    }
    refuser.go_on();
    let first = hand.next(rt, &tasks);
    refuser.hold();
    let Some(rest) = come_out(rt, hand, &tasks, 1) else {
        return OTHER;
    };
    whole_where(first == Some(0) && come_out(rt, other, &tasks, rest) == Some(MANY))
}
