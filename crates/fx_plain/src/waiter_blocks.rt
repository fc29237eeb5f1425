//! Where those are that wait for the end of a fiber.
ghost use Rattle.std.specs.Prelude.{◌≡◌, ◌<◌, ◌==◌, IfOk, IfSome, replicate};
ghost use Rattle.std.specs.Int.{bit_at};
ghost use Rattle.fx_plain.specs.NumberSet.{IsLeastFrom};
ghost use Rattle.fx_plain.specs.WaiterBlocks.{is_in, nowhere, blocks_of, is_marked, with_waiter_for, with_waiter};

use crate::class::Class;
use crate::number_set::{BITS, NUMBERS};
use fx_fiber::Source;
use fx_term::Memory;
use std::alloc::Global;
use std::marker::Model;

/// The least bit of the word from this one on that is set.
fn next_bit(word: u64, from: u32) -> Option<u32>
    ensures next { IsLeastFrom from (λ bit. bit_at word bit == 1) result }
    ensures few { IfSome result (λ bit. bit < BITS) }
{
    if from >= BITS {
        return None;
    }
    let rest = word >> from;
    if rest == 0 {
        return None;
    }
    Some(from + rest.trailing_zeros())
}

/// Blocks of 64 numbers, those of one word of a set, and places in a block: a bit for each. A number is in
/// them if its block is marked and its place is.
#[derive(Clone, Copy)]
pub(crate) struct Blocks {
    pub blocks: u64,
    pub places: u64,
}

impl Blocks {
    /// The least number from this one on that is in them.
    fn next_from(self, from: u32) -> Option<u32>
        ensures next { IsLeastFrom from (is_in self) result }
        ensures few { IfSome result (λ n. n < NUMBERS) }
    {
        let block = next_bit(self.blocks, from / BITS)?;
        let start = from.max(BITS * block);
        if let Some(place) = next_bit(self.places, start % BITS) {
            return Some(BITS * block + place);
        }
        let later = next_bit(self.blocks, block + 1)?;
        let place = next_bit(self.places, 0)?;
        Some(BITS * later + place)
    }
}

/// By the number of a fiber, blocks in which all are that wait for its end: with one, that one alone. A bit
/// stays once it is set: they are only a bound, and who waits no more, as one that was canceled, leaves
/// them as they were. No call but the first takes memory.
#[derive(Drop)]
pub(crate) struct WaiterBlocks {
    of: Vec<Blocks>,
}

impl Model for WaiterBlocks {
    ghost use Rattle.std.specs.Prelude.{List};
    ghost use Rattle.fx_plain.specs.declared.waiter_blocks.Blocks.{Blocks};

    ghost Value = { List Blocks };

    ghost view = { λ s. s.of.items };
}

impl WaiterBlocks {
    /// The blocks for so many fibers, with no number.
    pub fn new(alloc: Global, total: u32) -> Result<WaiterBlocks, Memory>
        ensures { IfOk result (λ blocks. blocks ≡ replicate total nowhere) }
    {
        let nowhere = Blocks {
            blocks: 0,
            places: 0,
        };
        Ok(WaiterBlocks {
            of: vec![in alloc; nowhere; total as usize]?,
        })
    }

    /// The blocks of those that wait for the end of the fiber. Those of a number of no fiber have all numbers.
    fn blocks(&self, fiber: u32) -> Blocks
        ensures { result ≡ blocks_of self.now fiber }
    {
        self.of.get(fiber as usize).copied().unwrap_or(Blocks {
            blocks: u64::MAX,
            places: u64::MAX,
        })
    }

    /// The least number from this one on of one that may wait for the end of the fiber. It is found in a few
    /// steps, whatever the number of fibers.
    pub fn next_marked(&self, fiber: u32, from: u32) -> Option<u32>
        ensures next { IsLeastFrom from (is_marked self.now fiber) result }
        ensures few { IfSome result (λ n. n < NUMBERS) }
    {
        self.blocks(fiber).next_from(from)
    }

    /// One more waits for the end of the fiber.
    fn mark(&mut self, fiber: u32, waiter: u32)
        requires { waiter < NUMBERS }
        ensures { self.new ≡ with_waiter_for fiber waiter self.old }
    {
        if let Some(own) = self.of.get_mut(fiber as usize) {
            own.blocks |= 1u64 << (waiter / BITS);
            own.places |= 1u64 << (waiter % BITS);
        }
    }

    /// A fiber is of that class. If it waits for ends, it is put into the blocks of each.
    pub fn insert(&mut self, waiter: u32, class: Class)
        requires { waiter < NUMBERS }
        ensures { self.new ≡ with_waiter waiter class self.old }
    {
        match class {
            Class::Waits(Source::Outcome(fiber)) => self.mark(fiber, waiter),
            Class::Waits(Source::Either(left, right)) => {
                self.mark(left, waiter);
                self.mark(right, waiter);
            }
            _ => {}
        }
    }
}
