//! The port of a fiber on several threads, over a board behind one lock.
ghost use Rattle.std.specs.Prelude.{◌≡◌, true, is_some, Some, None};
ghost use Rattle.fx_model.specs.Origin.{main_begin_of};

use crate::board::Board;
use crate::notes::Notes;
use fx_fiber::{Fiber, Port, Source, main_begin};
use fx_term::{Begin, Code, CodeBrand, Memory, Offered, Outcome};
use std::alloc::Global;
use std::marker::PhantomData;
use std::sync::{Mutex, Wait};

/// The port of a fiber, over a board behind one lock.
#[derive(Drop)]
pub struct LockedPort<'a, R: Wait, J: CodeBrand> {
    rt: &'a R,
    board: &'a Mutex<Board>,
    alloc: Global,
    id: u32,
    begin: Begin,
    next: u32,
    told: Option<Outcome>,
    puts: u64,
    of: PhantomData<J>,
}

impl<'a, R: Wait, J: CodeBrand> LockedPort<'a, R, J> {
    /// The port of a fiber of this number that begins so.
    pub fn new(
        rt: &'a R,
        board: &'a Mutex<Board>,
        alloc: Global,
        id: u32,
        begin: Begin,
    ) -> LockedPort<'a, R, J>
        ensures id { result.id ≡ id }
        ensures begin { result.begin ≡ begin }
        ensures next { result.next ≡ begin.next }
        ensures going { result.told ≡ None }
        ensures puts { result.puts ≡ 0 }
    {
        LockedPort {
            rt,
            board,
            alloc,
            id,
            next: begin.next,
            begin,
            told: None,
            puts: 0,
            of: PhantomData,
        }
    }
}

/// Notes the fibers that wait for this.
fn wake<J: CodeBrand>(board: &mut Board, notes: &mut Notes<J>, come: Source) {
    for id in 0..board.total() {
        if board.takes_off(id, come) {
            notes.note(id);
        }
    }
}

impl<'a, R: Wait, J: CodeBrand> Port for LockedPort<'a, R, J> {
    type Shared = Notes<J>;

    // nothing is known of what stands behind a lock
    ghost theory = { record {
      code = J.nodes;
      total = (main_begin_of J.nodes).end;
      may = λ id. true;
      calls = record {
        looks = λ p s found p' s'. Unit {0};
        requests = λ p s id stamp p' s'. Unit {0};
        peeks = λ p s id end p' s'. Unit {0};
        offers = λ p s queue n stamp answer p' s'. Unit {0};
        takes = λ p s queue element p' s'. Unit {0};
        starts = λ p s id begin child p' s'. Unit {0};
        finishes = λ p s outcome stamp p' s'. Unit {0};
        outsides = λ p s id p' s'. Unit {0};
        waits = λ p s source p' s'. Unit {0};
        goes_on = λ p s. Unit {0};
        wakes = λ s woken s'. Unit {0};
      };
      facts = λ p. record {
        number = p.id;
        beginning = p.begin;
        range = record { next = p.next; end = p.begin.end };
        has_finished = is_some p.told;
        puts = p.puts;
      };
      agrees = λ p deeds. Unit {0};
    } };

    fn look(&mut self, _notes: &mut Notes<J>) -> Option<u64> {
        self.board.lock(self.rt).requested(self.id)
    }

    fn request(&mut self, notes: &mut Notes<J>, id: u32, stamp: u64) {
        self.board.lock(self.rt).request(id, stamp);
        notes.note(id);
    }

    fn peek(&mut self, _notes: &mut Notes<J>, id: u32) -> Option<(Outcome, u64)> {
        self.board.lock(self.rt).end(id)
    }

    fn offer(
        &mut self,
        notes: &mut Notes<J>,
        queue: u8,
        value: u64,
        stamp: u64,
    ) -> Result<Offered, Memory> {
        let mut guard = self.board.lock(self.rt);
        let board = &mut *guard;
        let answer = board.put(value, stamp)?;
        if answer == Offered::Done {
            wake(board, notes, Source::Element(queue));
            self.puts += 1;
        }
        Ok(answer)
    }

    fn take(&mut self, notes: &mut Notes<J>, queue: u8) -> Option<(u64, u64)> {
        let mut guard = self.board.lock(self.rt);
        let board = &mut *guard;
        let front = board.take()?;
        wake(board, notes, Source::Room(queue));
        Some(front)
    }

    fn start(&mut self, _notes: &mut Notes<J>, id: u32, begin: &Begin) -> Result<Self, Memory> {
        let child = LockedPort::new(
            self.rt,
            self.board,
            self.alloc,
            id,
            begin.copied(self.alloc)?,
        );
        self.next = begin.end;
        Ok(child)
    }

    fn finish(&mut self, notes: &mut Notes<J>, outcome: Outcome, stamp: u64) {
        self.told = Some(outcome);
        let mut guard = self.board.lock(self.rt);
        let board = &mut *guard;
        board.finish(self.id, outcome, stamp);
        wake(board, notes, Source::Outcome(self.id));
    }

    fn outside(&mut self, notes: &mut Notes<J>, id: u32) {
        self.board.lock(self.rt).request(id, 0);
        notes.note(id);
    }

    fn wait_on(&mut self, _notes: &mut Notes<J>, source: Source) {
        self.board.lock(self.rt).wait_on(self.id, source);
    }

    fn goes_on(&self, _notes: &Notes<J>) -> bool {
        true
    }

    fn woken(notes: &mut Notes<J>) -> Option<u32> {
        notes.next()
    }
}

/// The main fiber of a code over this board.
pub fn main_fiber<'a, R: Wait, J: CodeBrand>(
    rt: &'a R,
    board: &'a Mutex<Board>,
    alloc: Global,
    code: &Code,
) -> Result<Fiber<LockedPort<'a, R, J>>, Memory>
    requires { code.now.nodes ≡ J.nodes }
{
    let port: LockedPort<'a, R, J> = LockedPort::new(rt, board, alloc, 0, main_begin(alloc, code));
    Fiber::new(alloc, code, port)
}
