//! The fibers that are to be woken.
ghost use Rattle.std.specs.Prelude.{◌≡◌, ◌<◌, true, false, replicate, slice_set, IfOk, IfSome};
ghost use Rattle.fx_port.specs.Marks.{KeepsMarks, TakesMark};

use crate::run_brand::RunBrand;
use fx_term::Memory;
use std::alloc::Global;
use std::marker::{Model, PhantomData};

/// What a worker lends to the ports of its fibers: the numbers of the fibers that are to be woken, each
/// once. Contracts see a mark for each number. Its room is had when it is made.
#[derive(Drop)]
pub struct Notes<N: RunBrand> {
    /// By number.
    marks: Vec<bool>,
    /// Those that are marked.
    numbers: Vec<u32>,
    fibers: u32,
    of: PhantomData<N>,
}

impl<N: RunBrand> Model for Notes<N> {
    ghost use Rattle.std.specs.Prelude.{◌≡◌, ◌≤◌, List, Bool, length, vec_capacity};
    ghost use Rattle.fx_port.specs.Marks.{AreListed};

    ghost Value = { List Bool };

    ghost view = { λ n. n.marks.items };

    ghost invariant = { λ n. AreListed n.marks.items n.numbers.items
        × (length n.marks.items ≡ n.fibers) × (n.fibers ≤ vec_capacity n.numbers)
        × (n.fibers ≡ N.words.fibers) };
}

impl<N: RunBrand> Notes<N> {
    /// Nobody is to be woken, of so many fibers.
    pub fn new(alloc: Global, fibers: u32) -> Result<Notes<N>, Memory>
        requires { fibers ≡ N.words.fibers }
        ensures { IfOk result (λ notes. notes ≡ replicate fibers false) }
    {
        let marks = vec![in alloc; false; fibers as usize]?;
        let mut numbers = Vec::new(alloc);
        numbers.reserve(fibers as usize)?;
        Ok(Notes {
            marks,
            numbers,
            fibers,
            of: PhantomData,
        })
    }

    /// That fiber is to be woken, where there is one of that number.
    pub fn wake(&mut self, id: u32)
        ensures same { self.new ≡ slice_set self.old id true }
        ensures kept { KeepsMarks self.old self.new }
    {
        if id < self.fibers && !self.marks[id as usize] {
            self.marks[id as usize] = true;
            self.numbers.push_reserved(id);
        }
    }

    /// Takes out a number that is to be woken, if there is one.
    pub fn take(&mut self) -> Option<u32>
        ensures told { TakesMark self.old result self.new }
        ensures below { IfSome result (λ id. id < N.words.fibers) }
    {
        match self.numbers.pop() {
            Some(id) => {
                self.marks[id as usize] = false;
                Some(id)
            }
            None => None,
        }
    }
}
