//! The deques of the workers, and what they share.
ghost use Rattle.std.specs.Prelude.{◌≡◌, vec_len, IfOk, IfErr};

use crossbeam_deque::{Steal, Stealer, Worker};
use fx_fiber::Fiber;
use fx_term::Memory;
use std::alloc::Global;
use std::sync::Wait;
use std::sync::atomic::{AtomicU64, Ordering};
use std::thread;
use std::time::Duration;

/// How often a worker that finds nothing looks again before it sleeps.
const LOOKS: u32 = 64;

/// The most tasks that lie in the deque of a worker and are left to it, since it comes to each of them soon.
const KEPT: usize = 3;

/// After so many turns in a row that showed nothing, and at whose end no task of a worker waited, others may
/// take what lies in its deque: these tasks talk to nobody.
const LONE_TURNS: u32 = 8;

/// The same of turns that showed something. Their tasks may talk to those that lie there, and go on faster
/// beside them than on other threads.
const TALKING_TURNS: u32 = 2048;

/// The longest sleep in milliseconds. Nobody needs it to end: who falls asleep counts as a sleeper before
/// it looks for the last time, and a call since then lets it not sleep.
const NAP: u64 = 100;

/// The longest sleep in milliseconds where tasks lie in some deque that are left to its worker. After two of
/// them a sleeper takes what lies with a worker that has made no turn in between.
const SHORT_NAP: u64 = 5;

/// What a turn has shown.
#[derive(Clone, Copy)]
pub(crate) enum Shown {
    Nothing,
    Events,
}

/// Of which tasks of another's deque a worker takes some.
#[derive(Clone, Copy)]
enum Reach {
    /// Of those that it can spare.
    Spare,
    /// Also of those that it was asked for and has not come to since.
    Asked,
}

/// The deque of a worker as the others see it: the end at which they take from it, 1 where its worker gives all
/// that lies there, and 1 where it was asked for that and has made no turn since.
#[derive(Drop)]
struct Shelf<T> {
    end: Stealer<T>,
    gives: AtomicU64,
    asked: AtomicU64,
}

impl<T> Shelf<T> {
    /// Whether it has a task to be taken, as far as can be seen.
    fn has_task(&self, reach: Reach) -> bool {
        match reach {
            Reach::Asked if self.asked.load(Ordering::SeqCst) > 0 => !self.end.is_empty(),
            _ if self.gives.load(Ordering::SeqCst) > 0 => !self.end.is_empty(),
            _ => self.end.len() > KEPT,
        }
    }

    /// Its worker has made a turn.
    fn is_served(&self) {
        if self.asked.load(Ordering::SeqCst) > 0 {
            self.asked.store(0, Ordering::SeqCst);
        }
    }
}

/// What the workers of a round share: their deques, how many of them may have a task in hand, how many
/// sleep, and how often one was called.
#[derive(Drop)]
pub struct Tasks<T> {
    shelves: Vec<Shelf<T>>,
    busy: AtomicU64,
    sleepers: AtomicU64,
    calls: AtomicU64,
}

/// The deque of one worker, first in, first out, its place among those of all, and how long no task of it has
/// waited: as many turns that showed something, where one that showed nothing stands for many.
#[derive(Drop)]
pub struct Owner<T> {
    local: Worker<T>,
    place: usize,
    turns: u32,
}

/// What the workers share where the tasks are fibers.
pub type Work<P> = Tasks<Fiber<P>>;

/// A worker's deque of fibers.
pub type Hand<P> = Owner<Fiber<P>>;

impl<T: Drop> Tasks<T> {
    /// A deque for each worker, and what they share. A worker counts as one that may have a task once it
    /// has begun: where memory is refused, one may begin after another has ended, or never.
    pub fn new(alloc: Global, workers: usize) -> Result<(Tasks<T>, Vec<Owner<T>>), Memory>
        ensures { IfOk result (λ made. vec_len made.1 ≡ workers) }
    {
        let mut shelves = Vec::new(alloc);
        let mut hands = Vec::new(alloc);
        for place in 0..workers {
            let local = Worker::new_fifo(alloc, 16)?;
            shelves.push(Shelf {
                end: local.stealer()?,
                gives: AtomicU64::new(0),
                asked: AtomicU64::new(0),
            })?;
            hands.push(Owner {
                local,
                place,
                turns: 0,
            })?;
        }
        Ok((
            Tasks {
                shelves,
                busy: AtomicU64::new(0),
                sleepers: AtomicU64::new(0),
                calls: AtomicU64::new(0),
            },
            hands,
        ))
    }
}

impl<T> Tasks<T> {
    /// Counts a worker less that may have a task. The last one calls all that sleep.
    pub(crate) fn goes_idle(&self) {
        if self.busy.fetch_sub(1, Ordering::SeqCst) == 1 {
            self.calls.fetch_add(1, Ordering::SeqCst);
            self.calls.wake_all();
        }
    }

    /// Counts a worker more.
    pub(crate) fn resumes(&self) {
        self.busy.fetch_add(1, Ordering::SeqCst);
    }

    /// Whether no worker may have a task in hand.
    fn is_over(&self) -> bool {
        self.busy.load(Ordering::SeqCst) == 0
    }

    /// Whether there is a task to be taken, as far as can be seen.
    fn has_task(&self, reach: Reach) -> bool {
        self.shelves.iter().any(|other| other.has_task(reach))
    }

    /// Asks each worker for what lies in its deque.
    fn ask(&self) {
        for other in self.shelves.iter() {
            other.asked.store(1, Ordering::SeqCst);
        }
    }

    /// Whether a worker sleeps.
    fn has_sleeper(&self) -> bool {
        self.sleepers.load(Ordering::SeqCst) > 0
    }

    /// Calls one of the workers that sleep.
    fn call_one(&self) {
        self.calls.fetch_add(1, Ordering::SeqCst);
        self.calls.wake_one();
    }

    /// The longest sleep of one who finds nothing that can be spared.
    fn nap(&self) -> Duration {
        if self.shelves.iter().any(|other| !other.end.is_empty()) {
            Duration::from_millis(SHORT_NAP)
        } else {
            Duration::from_millis(NAP)
        }
    }

    /// Sleeps until a worker is called, if nothing has come before: of which tasks it takes some then.
    fn sleep<R: Wait>(&self, rt: &R) -> Reach {
        let calls = self.calls.load(Ordering::SeqCst);
        self.sleepers.fetch_add(1, Ordering::SeqCst);
        if !self.is_over() && !self.has_task(Reach::Spare) {
            let seen = (calls & u64::from(u32::MAX)) as u32;
            self.calls.park_timeout(rt, seen, self.nap());
        }
        self.sleepers.fetch_sub(1, Ordering::SeqCst);
        if self.calls.load(Ordering::SeqCst) == calls {
            Reach::Asked
        } else {
            Reach::Spare
        }
    }

    /// Waits until there is a task to be taken, or no worker may have one: of which tasks it is.
    fn wait_task<R: Wait>(&self, rt: &R) -> Option<Reach> {
        let mut looks = 0u32;
        let mut reach = Reach::Spare;
        for _ in rt.forever() {
            if self.is_over() {
                return None;
            }
            if self.has_task(reach) {
                return Some(reach);
            }
            if looks < LOOKS {
                looks += 1;
                thread::yield_now();
            } else {
                if let Reach::Asked = reach {
                    self.ask();
                }
                reach = self.sleep(rt);
            }
        }
        unreachable!()
    }
}

impl<T> Owner<T> {
    /// Puts a task at the back. For want of memory it comes back.
    pub fn push(&mut self, task: T) -> Result<(), T>
        ensures { IfErr result (λ back. back ≡ task) }
    {
        self.local.push(task)
    }

    /// A task from its own deque, else one that another can spare.
    pub fn next<R: Wait>(&mut self, rt: &R, work: &Tasks<T>) -> Option<T> {
        match self.local.pop() {
            Some(task) => Some(task),
            None => self.taken(rt, work, Reach::Spare),
        }
    }

    /// A task from another's deque, if there is one in reach.
    fn taken<R: Wait>(&mut self, rt: &R, work: &Tasks<T>, reach: Reach) -> Option<T> {
        for other in work.shelves.iter() {
            if let Some(task) = self.taken_from(rt, other, reach) {
                return Some(task);
            }
        }
        None
    }

    /// A task from this deque, and up to half of the others there.
    fn taken_from<R: Wait>(&mut self, rt: &R, other: &Shelf<T>, reach: Reach) -> Option<T> {
        for _ in rt.forever() {
            if !other.has_task(reach) {
                return None;
            }
            match other.end.steal_batch_and_pop(&mut self.local) {
                Steal::Success(task) => return Some(task),
                Steal::Retry => {}
                Steal::Empty => return None,
            }
        }
        unreachable!()
    }

    /// The next task, of its own or of another's. It waits until there is one, or no worker may have one.
    pub(crate) fn wait_next<R: Wait>(&mut self, rt: &R, work: &Tasks<T>) -> Option<T> {
        if let Some(task) = self.next(rt, work) {
            return Some(task);
        }
        for _ in rt.forever() {
            work.goes_idle();
            let reach = work.wait_task(rt)?;
            work.resumes();
            if let Some(task) = self.taken(rt, work, reach) {
                return Some(task);
            }
        }
        unreachable!()
    }

    /// A task of it is to go on after a turn. Where that was so for long, others may take what lies here.
    pub(crate) fn goes_on(&mut self, work: &Tasks<T>, shown: Shown) {
        let Some(own) = work.shelves.get(self.place) else {
            return;
        };
        own.is_served();
        if self.turns < TALKING_TURNS {
            self.turns += match shown {
                Shown::Nothing => TALKING_TURNS / LONE_TURNS,
                Shown::Events => 1,
            };
            if self.is_busy() {
                own.gives.store(1, Ordering::SeqCst);
            }
        }
    }

    /// A task of it waits or has ended after its turn: what lies here comes soon.
    pub(crate) fn pauses(&mut self, work: &Tasks<T>) {
        let Some(own) = work.shelves.get(self.place) else {
            return;
        };
        own.is_served();
        if self.is_busy() {
            own.gives.store(0, Ordering::SeqCst);
        }
        self.turns = 0;
    }

    /// Whether it has no task.
    pub(crate) fn is_empty(&self) -> bool {
        self.local.is_empty()
    }

    /// Calls a worker that sleeps, where there is a task that can be spared.
    pub(crate) fn share(&self, work: &Tasks<T>) {
        if work.has_sleeper() && (self.local.len() > KEPT || self.is_busy() && !self.is_empty()) {
            work.call_one();
        }
    }

    /// Whether no task of it has waited for long.
    fn is_busy(&self) -> bool {
        self.turns >= TALKING_TURNS
    }
}
