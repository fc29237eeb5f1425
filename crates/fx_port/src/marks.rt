//! A row of marks.
ghost use Rattle.std.specs.Prelude.{◌≡◌, false, true, replicate, slice_set, length, IfOk};
ghost use Rattle.fx_port.specs.Marks.{is_marked, joined_marks, IsEndOf};

use crate::noted::Noted;
use crate::run_brand::RunBrand;
use fx_term::Memory;
use std::alloc::Global;
use std::marker::Model;

/// The bits of a word.
const BITS: u32 = 64;

/// A mark for each fiber number below a bound, in a bit. Its room is had when it is made, so that no mark
/// can fail.
#[derive(Drop)]
pub struct Marks {
    /// By number, from the lowest bit of the first word on.
    words: Vec<u64>,
    numbers: u32,
    /// After the greatest number that is marked.
    end: u32,
}

impl Model for Marks {
    ghost use Rattle.std.specs.Prelude.{◌≤◌, ◌*◌, List, Bool, length};
    ghost use Rattle.fx_port.specs.Marks.{marks_of, IsEndOf};

    ghost Value = { List Bool };

    ghost view = { λ m. marks_of m.numbers m.words.items };

    ghost invariant = { λ m. (m.numbers ≤ 64 * length m.words.items)
        × IsEndOf m.end (marks_of m.numbers m.words.items) };
}

impl Marks {
    /// A row in which none of so many numbers is marked.
    pub fn new(alloc: Global, numbers: u32) -> Result<Marks, Memory>
        ensures { IfOk result (λ marks. marks ≡ replicate numbers false) }
    {
        let words = vec![in alloc; 0; numbers.div_ceil(BITS) as usize]?;
        Ok(Marks {
            words,
            numbers,
            end: 0,
        })
    }

    /// How many numbers it has marks for.
    pub(crate) fn numbers(&self) -> u32
        ensures { result ≡ length self.now }
    {
        self.numbers
    }

    /// Whether the number is marked.
    pub fn is_marked(&self, id: u32) -> bool
        ensures { result ≡ is_marked self.now id }
    {
        id < self.numbers && (self.words[(id / BITS) as usize] >> (id % BITS)) & 1 == 1
    }

    /// The number after the greatest that is marked; 0, where none is.
    pub fn end(&self) -> u32
        ensures { IsEndOf result self.now }
    {
        self.end
    }

    /// Marks the number, where it is below the bound.
    pub fn mark(&mut self, id: u32)
        ensures { self.new ≡ slice_set self.old id true }
    {
        if id < self.numbers {
            self.words[(id / BITS) as usize] |= 1u64 << (id % BITS);
            self.end = self.end.max(id + 1);
        }
    }

    /// Marks whom a port requested from outside, where it is below the bound.
    pub fn join<N: RunBrand>(&mut self, other: &Noted<N>)
        ensures { self.new ≡ joined_marks self.old other.now }
    {
        for id in 0..other.end() {
            if other.is_marked(id) {
                self.mark(id);
            }
        }
    }
}
