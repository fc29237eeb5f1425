//! Whom a port requested from outside.
ghost use Rattle.std.specs.Prelude.{◌≡◌, ◌<◌, ℕ, true, false, replicate, slice_set, IfOk};
ghost use Rattle.fx_port.specs.Marks.{is_marked, IsEndOf};

use crate::marks::Marks;
use crate::run_brand::RunBrand;
use fx_term::Memory;
use std::alloc::Global;
use std::marker::{Model, PhantomData};

/// The numbers that were requested from outside through a port, seen as a mark for each number of the run.
/// It has room for those that may be named, so that no mark can fail: none, where nobody may be.
#[derive(Drop)]
pub struct Noted<N: RunBrand> {
    /// Those of the first numbers, beyond which nobody may be named.
    row: Marks,
    of: PhantomData<N>,
}

impl<N: RunBrand> Model for Noted<N> {
    ghost use Rattle.std.specs.Prelude.{◌≡◌, ◌<◌, ◌≤◌, ℕ, List, Bool, true, length};
    ghost use Rattle.fx_port.specs.Marks.{lengthened};

    ghost Value = { List Bool };

    ghost view = { λ n. lengthened N.words.fibers n.row };

    ghost invariant = { λ n. (length n.row ≤ N.words.fibers)
        × ((f : ℕ) → N.may f ≡ true → f < N.words.fibers → f < length n.row) };
}

impl<N: RunBrand> Noted<N> {
    /// Nobody of so many fibers was requested, and below this number are all that may be.
    pub(crate) fn new(alloc: Global, fibers: u32, named: u32) -> Result<Noted<N>, Memory>
        requires fibers { fibers ≡ N.words.fibers }
        requires named { (f : ℕ) → N.may f ≡ true → f < N.words.fibers → f < named }
        ensures { IfOk result (λ noted. noted ≡ replicate N.words.fibers false) }
    {
        let row = Marks::new(alloc, fibers.min(named))?;
        Ok(Noted {
            row,
            of: PhantomData,
        })
    }

    /// One of the same room, in which nobody was requested.
    pub(crate) fn as_new(&self, alloc: Global) -> Result<Noted<N>, Memory>
        ensures { IfOk result (λ noted. noted ≡ replicate N.words.fibers false) }
    {
        let row = Marks::new(alloc, self.row.numbers())?;
        Ok(Noted {
            row,
            of: PhantomData,
        })
    }

    /// Whether the number was requested.
    pub fn is_marked(&self, id: u32) -> bool
        ensures { result ≡ is_marked self.now id }
    {
        self.row.is_marked(id)
    }

    /// The number after the greatest that was requested; 0, where none was.
    pub fn end(&self) -> u32
        ensures { IsEndOf result self.now }
    {
        self.row.end()
    }

    /// Notes the number, where it is one of the run.
    pub(crate) fn mark(&mut self, id: u32)
        requires { N.may id ≡ true }
        ensures { self.new ≡ slice_set self.old id true }
    {
        self.row.mark(id);
    }
}
