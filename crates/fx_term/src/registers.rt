//! The numbers of the names in scope.
ghost use Rattle.std.specs.Prelude.{◌≡◌, ◌<◌, ◌≤◌, Some, [], length, slice_get, IfOk, OnOk, OnErr};
ghost use Rattle.fx_term.specs.declared.node.Arg.TheVariants.{Number};
ghost use Rattle.fx_term.specs.Fill.{fill_arg};
ghost use Rattle.fx_term.specs.Scope.{IsArgBelow};
ghost use Rattle.fx_term.specs.Registers.{with_number, ReachUpTo};

use crate::memory::Memory;
use crate::node::Arg;
use std::alloc::Global;
use std::marker::Model;

/// The numbers of the names in scope by their slots, seen as the list of them. Above them may stand
/// numbers of names whose scope was left.
#[derive(Drop)]
pub struct Registers {
    // the numbers, and above them what was gone once, so that a name is mostly bound by writing over it
    numbers: Vec<u64>,
    // how many there are
    live: usize,
}

impl Model for Registers {
    ghost use Rattle.std.specs.Prelude.{List, ℕ, ◌≤◌, length, take};

    ghost Value = { List ℕ };

    ghost view = { λ r. take r.live r.numbers.items };

    ghost invariant = { λ r. r.live ≤ length r.numbers.items };
}

impl Registers {
    /// Registers where no name is in scope. They take memory only as names are bound.
    pub fn new(alloc: Global) -> Registers
        ensures { result ≡ [] }
    {
        Registers {
            numbers: Vec::new(alloc),
            live: 0,
        }
    }

    /// The same numbers in memory of their own.
    pub fn copied(&self, alloc: Global) -> Result<Registers, Memory>
        ensures { IfOk result (λ copy. copy ≡ self.now) }
    {
        Ok(Registers {
            numbers: Vec::from_slice(alloc, &self.numbers[..self.live])?,
            live: self.live,
        })
    }

    /// Gives the binder's name the number. The numbers of names above it are gone.
    #[inline(always)]
    pub fn bind(&mut self, name: Option<u32>, number: u64) -> Result<(), Memory>
        requires { ReachUpTo name (length self.old) }
        ensures ok { OnOk result (self.new ≡ with_number name number self.old) }
        ensures err { OnErr result (self.new ≡ self.old) }
    {
        match name {
            Some(slot) => self.put(slot, number),
            None => Ok(()),
        }
    }

    /// Gives the name of this slot the number, over what stood there.
    #[inline(always)]
    fn put(&mut self, slot: u32, number: u64) -> Result<(), Memory>
        requires { slot ≤ length self.old }
        ensures ok { OnOk result (self.new ≡ with_number (Some slot) number self.old) }
        ensures err { OnErr result (self.new ≡ self.old) }
    {
        let place = slot as usize;
        if place < self.numbers.len() {
            self.numbers[place] = number;
        } else {
            self.numbers.push(number)?;
        }
        self.live = place + 1;
        Ok(())
    }

    /// Gives a name that has a number another one, which needs no memory. The numbers of names above it
    /// are gone.
    pub fn rebind(&mut self, slot: u32, number: u64)
        requires { slot < length self.old }
        ensures { self.new ≡ with_number (Some slot) number self.old }
    {
        self.numbers[slot as usize] = number;
        self.live = slot as usize + 1;
    }

    /// The number in this slot, if there is one.
    pub fn get(&self, slot: u32) -> Option<u64>
        ensures { result ≡ slice_get self.now slot }
    {
        match self.numbers[..self.live].get(slot as usize) {
            Some(number) => Some(*number),
            None => None,
        }
    }

    /// The number that an argument stands for.
    pub fn number_of(&self, arg: Arg) -> u64
        requires { IsArgBelow (length self.now) arg }
        ensures { fill_arg (length self.now) self.now arg ≡ Number result }
    {
        match arg {
            Arg::Number(n) => n,
            Arg::Slot(x) => self.numbers[x as usize],
        }
    }
}
