//! The port of a fiber on threads.
ghost use Rattle.std.specs.Prelude.{◌≡◌, ◌<◌, ℕ, true, [], IfOk, length};
ghost use Rattle.fx_word.specs.SeatView.{first_view};
ghost use Rattle.fx_word.specs.Words.{IsOf};
ghost use Rattle.fx_port.specs.Rows.{AreFirst, IsRowOf, puts_in};
ghost use Rattle.fx_port.specs.PortView.{first_port, IsOfRun};
ghost use Rattle.fx_port.specs.ThreadCalls.{ThreadAgrees};

use crate::noted::Noted;
use crate::notes::Notes;
use crate::own::Own;
use crate::passes::Passes;
use crate::run_brand::RunBrand;
use crate::sources::Sources;
use crate::waiting::{is_waited_at, leave, leave_at, wait, wake_at};
use fx_fiber::{Port, Source};
use fx_queue::{FiberQueue, Side};
use fx_term::{Begin, Memory, Offered, Outcome};
use fx_word::{WordSeat, Words};
use std::alloc::Global;
use std::marker::{Model, PhantomData};
use std::sync::Wait;

/// The port of a fiber on threads: its seat of the words, its pass of each queue, and the numbers that
/// were requested from outside through it. By its type it is one of a run over these words and queues,
/// and has noted no number but such as may be named from outside.
#[derive(Drop)]
pub struct ThreadPort<'a, R: Wait, N: RunBrand> {
    seat: WordSeat,
    own: Box<Own<'a, R, N>>,
    of: PhantomData<(&'a R, N)>,
}

impl<'a, R: Wait, N: RunBrand> Model for ThreadPort<'a, R, N> {
    ghost use Rattle.std.specs.Prelude.{◌≡◌};
    ghost use Rattle.fx_port.specs.PortView.{PortView, IsOfRun};

    ghost Value = { PortView };

    ghost view = { λ p. record { words = p.seat.view; passes = p.own.value.passes; noted = p.own.value.noted } };

    ghost invariant = { λ p. (p.own.value.words.now ≡ N.words) × (p.own.value.queues.now ≡ N.queues)
        × (p.seat.table ≡ N.words.table) × IsOfRun N.words N.queues N.may
        (record { words = p.seat.view; passes = p.own.value.passes; noted = p.own.value.noted }) };
}

impl<'a, R: Wait, N: RunBrand> ThreadPort<'a, R, N> {
    /// The port of the main fiber, where all that may be requested from outside are below this number.
    pub fn new(
        rt: &'a R,
        alloc: Global,
        words: &'a Words,
        queues: &'a [FiberQueue],
        sources: &'a Sources,
        seat: WordSeat,
        passes: Passes,
        named: u32,
    ) -> Result<ThreadPort<'a, R, N>, Memory>
        requires words { (words.now ≡ N.words) × (0 < N.words.fibers) }
        requires queues { queues.now ≡ N.queues }
        requires seat { IsOf seat N.words × (seat.view ≡ first_view N.words.fibers) }
        requires passes { AreFirst N.words.fibers N.queues passes }
        requires named { (f : ℕ) → N.may f ≡ true → f < N.words.fibers → f < named }
        ensures is { IfOk result (λ port. port ≡ first_port N.words.fibers passes) }
        ensures puts { IfOk result (λ port. puts_in port.passes ≡ 0) }
        ensures fresh { IfOk result (λ port. ThreadAgrees port []) }
    {
        let noted = Noted::new(alloc, words.fibers(), named)?;
        let own = Box::new(
            alloc,
            Own {
                rt,
                alloc,
                words,
                queues,
                sources,
                passes,
                noted,
                waited: None,
            },
        )?;
        Ok(ThreadPort {
            seat,
            own,
            of: PhantomData,
        })
    }

    /// The numbers that were requested from outside through it.
    pub fn noted(&self) -> &Noted<N>
        ensures { result.now ≡ self.now.noted }
    {
        &self.own.noted
    }

    /// The seat, the passes, and the numbers that were requested from outside.
    pub fn into_parts(self) -> (WordSeat, Passes, Noted<N>)
        ensures seat { IsOf result.0 N.words × (result.0.view ≡ self.entry.words) }
        ensures passes { (result.1 ≡ self.entry.passes) × IsRowOf N.queues result.1 }
        ensures noted { result.2 ≡ self.entry.noted }
        ensures of_run { IsOfRun N.words N.queues N.may self.entry }
    {
        let own = Box::into_inner(self.own);
        (self.seat, own.passes, own.noted)
    }
}

impl<'a, R: Wait, N: RunBrand> Port for ThreadPort<'a, R, N> {
    ghost use Rattle.fx_port.specs.ThreadCalls.{thread_theory};

    type Shared = Notes<N>;

    ghost theory = { thread_theory N.nodes N.words.fibers N.may };

    // (laid into each step and each burst, which ask it first)
    #[inline(always)]
    fn look(&mut self, notes: &mut Notes<N>) -> Option<u64> {
        match self.own.words.look(&mut self.seat) {
            Some(stamp) => {
                let fiber = self.seat.id();
                leave(
                    self.own.rt,
                    self.own.queues,
                    self.own.sources,
                    fiber,
                    &mut self.own.waited,
                    None,
                    notes,
                );
                Some(stamp)
            }
            None => None,
        }
    }

    fn request(&mut self, notes: &mut Notes<N>, id: u32, stamp: u64) {
        if id < self.own.words.fibers() {
            self.own.words.request(&mut self.seat, id, stamp);
            notes.wake(id);
        }
    }

    fn peek(&mut self, notes: &mut Notes<N>, id: u32) -> Option<(Outcome, u64)> {
        if id >= self.own.words.fibers() {
            return None;
        }
        match self.own.words.peek(&mut self.seat, id) {
            Some(end) => {
                let fiber = self.seat.id();
                leave(
                    self.own.rt,
                    self.own.queues,
                    self.own.sources,
                    fiber,
                    &mut self.own.waited,
                    None,
                    notes,
                );
                Some(end)
            }
            None => None,
        }
    }

    fn offer(
        &mut self,
        notes: &mut Notes<N>,
        queue: u8,
        value: u64,
        stamp: u64,
    ) -> Result<Offered, Memory> {
        let (rt, queues, fiber) = (self.own.rt, self.own.queues, self.seat.id());
        match self
            .own
            .passes
            .offer(rt, queues, queue, fiber, value, stamp)
        {
            Offered::Done => {
                leave_at(
                    rt,
                    queues,
                    self.own.sources,
                    fiber,
                    &mut self.own.waited,
                    queue,
                    Side::Room,
                    notes,
                );
                if is_waited_at(queues, queue, Side::Element) {
                    wake_at(rt, queues, queue, Side::Element, notes);
                }
                Ok(Offered::Done)
            }
            Offered::Full => Ok(Offered::Full),
        }
    }

    fn take(&mut self, notes: &mut Notes<N>, queue: u8) -> Option<(u64, u64)> {
        let (rt, queues, fiber) = (self.own.rt, self.own.queues, self.seat.id());
        match self.own.passes.take(rt, queues, queue) {
            Some(element) => {
                leave_at(
                    rt,
                    queues,
                    self.own.sources,
                    fiber,
                    &mut self.own.waited,
                    queue,
                    Side::Element,
                    notes,
                );
                if is_waited_at(queues, queue, Side::Room) {
                    wake_at(rt, queues, queue, Side::Room, notes);
                }
                Some(element)
            }
            None => None,
        }
    }

    fn start(
        &mut self,
        _notes: &mut Notes<N>,
        id: u32,
        begin: &Begin,
    ) -> Result<ThreadPort<'a, R, N>, Memory> {
        let alloc = self.own.alloc;
        let noted = self.own.noted.as_new(alloc)?;
        let mut own = Box::new(
            alloc,
            Own {
                rt: self.own.rt,
                alloc,
                words: self.own.words,
                queues: self.own.queues,
                sources: self.own.sources,
                passes: Passes::none(alloc),
                noted,
                waited: None,
            },
        )?;
        let queues = self.own.queues;
        let passes = self.own.passes.split(alloc, queues, id, begin.end)?;
        own.passes = passes;
        let seat = self.own.words.split(&mut self.seat, id, begin);
        Ok(ThreadPort {
            seat,
            own,
            of: PhantomData,
        })
    }

    fn finish(&mut self, notes: &mut Notes<N>, outcome: Outcome, stamp: u64) {
        self.own.words.finish(&mut self.seat, outcome, stamp);
        self.own.sources.wake(self.own.rt, self.seat.id(), notes);
    }

    fn outside(&mut self, notes: &mut Notes<N>, id: u32) {
        if id < self.own.words.fibers() {
            self.own.noted.mark(id);
            self.own.words.request(&mut self.seat, id, 0);
            notes.wake(id);
        }
    }

    #[inline(always)]
    fn wait_on(&mut self, _notes: &mut Notes<N>, source: Source) {
        wait(
            self.own.rt,
            self.own.queues,
            self.own.sources,
            self.seat.id(),
            source,
        );
        self.own.waited = Some(source);
    }

    #[inline(always)]
    fn goes_on(&self, _notes: &Notes<N>) -> bool {
        true
    }

    fn woken(notes: &mut Notes<N>) -> Option<u32> {
        notes.take()
    }
}
