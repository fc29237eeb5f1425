//! Sets of numbers, each at an index.
ghost use Rattle.std.specs.Prelude.{◌≡◌, ℕ, ◌<◌, true, false, IfOk, length};
ghost use Rattle.fx_plain.specs.NumberSet.{is_member_of, IsLeastOf};
ghost use Rattle.fx_term.specs.Maps.{with_at};

use crate::number_set::{NUMBERS, NumberSet};
use fx_term::Memory;
use std::alloc::Global;
use std::marker::Model;

/// Sets of numbers below [`NUMBERS`], each at an index. No call but the first takes memory, and one with
/// an index past them changes nothing.
#[derive(Drop)]
pub(crate) struct NumberSets {
    sets: Vec<NumberSet>,
}

impl Model for NumberSets {
    ghost use Rattle.std.specs.Prelude.{ℕ, List};

    ghost Value = { List (List ℕ) };

    ghost view = { λ s. s.sets.items };
}

impl NumberSets {
    /// So many sets, of no number.
    pub fn new(alloc: Global, count: usize) -> Result<NumberSets, Memory>
        ensures count { IfOk result (λ sets. length sets ≡ count) }
        ensures empty { IfOk result (λ sets. (i n : ℕ) → is_member_of sets i n ≡ false) }
    {
        let mut sets = Vec::with_capacity(alloc, count)?;
        for _set in 0..count {
            sets.push(NumberSet::new())?;
        }
        Ok(NumberSets { sets })
    }

    /// Puts the number into the set at this index.
    pub fn insert(&mut self, index: u8, n: u32)
        requires { n < NUMBERS }
        ensures count { length self.new ≡ length self.old }
        ensures members { (i k : ℕ) → i < length self.old → is_member_of self.new i k
            ≡ with_at index (with_at n true (is_member_of self.old index))
            (is_member_of self.old) i k }
    {
        if let Some(set) = self.sets.get_mut(index as usize) {
            set.insert(n);
        }
    }

    /// Takes the number out of the set at this index.
    pub fn remove(&mut self, index: u8, n: u32)
        requires { n < NUMBERS }
        ensures count { length self.new ≡ length self.old }
        ensures members { (i k : ℕ) → i < length self.old → is_member_of self.new i k
            ≡ with_at index (with_at n false (is_member_of self.old index))
            (is_member_of self.old) i k }
    {
        if let Some(set) = self.sets.get_mut(index as usize) {
            set.remove(n);
        }
    }

    /// The least number of the set at this index.
    pub fn least(&self, index: usize) -> Option<u32>
        ensures { IsLeastOf (is_member_of self.now index) result }
    {
        self.sets.get(index)?.least()
    }
}
