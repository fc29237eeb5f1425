//! A set of numbers whose least is found in two steps.
ghost use Rattle.std.specs.Prelude.{◌≡◌, ℕ, ◌<◌, false, IfSome};
ghost use Rattle.fx_plain.specs.NumberSet.{is_member, IsLeastOf, IsLeastFrom};
ghost use Rattle.fx_term.specs.Maps.{with_at};

use std::marker::Model;

/// The bits of a word.
pub(crate) const BITS: u32 = 64;

/// The words of a set: as many as a word has bits, so that one word above them has a bit for each.
const WORDS: usize = 64;

/// The numbers below this one can be in a set.
pub const NUMBERS: u32 = 4096;

/// A set of numbers below [`NUMBERS`]: a bit for each number, and above them a bit for each word that
/// is not 0. It takes no memory of its own, so a change of it cannot fail.
#[derive(Drop)]
pub struct NumberSet {
    // the level above
    marks: u64,
    words: [u64; WORDS],
}

impl Model for NumberSet {
    ghost use Rattle.std.specs.Prelude.{ℕ, List};
    ghost use Rattle.fx_plain.specs.NumberSet.{AreMarked};

    ghost Value = { List ℕ };

    ghost view = { λ s. s.words };

    ghost invariant = { λ s. AreMarked s.marks s.words };
}

impl NumberSet {
    ghost use Rattle.std.specs.Prelude.{true};

    /// The set of no number.
    pub fn new() -> NumberSet
        ensures { (n : ℕ) → is_member result n ≡ false }
    {
        NumberSet {
            marks: 0,
            words: [0; WORDS],
        }
    }

    /// Puts the number into the set.
    pub fn insert(&mut self, n: u32)
        requires { n < NUMBERS }
        ensures { (k : ℕ) → is_member self.new k ≡ with_at n true (is_member self.old) k }
    {
        let word = (n / BITS) as usize;
        self.words[word] |= 1u64 << (n % BITS);
        self.marks |= 1u64 << word;
    }

    /// Takes the number out of the set.
    pub fn remove(&mut self, n: u32)
        requires { n < NUMBERS }
        ensures { (k : ℕ) → is_member self.new k ≡ with_at n false (is_member self.old) k }
    {
        let word = (n / BITS) as usize;
        let rest = self.words[word] & !(1u64 << (n % BITS));
        self.words[word] = rest;
        if rest == 0 {
            self.marks &= !(1u64 << word);
        }
    }

    /// The least number of the set.
    pub fn least(&self) -> Option<u32>
        ensures { IsLeastOf (is_member self.now) result }
    {
        if self.marks == 0 {
            return None;
        }
        let place = self.marks.trailing_zeros();
        let word = self.words[place as usize];
        Some(BITS * place + word.trailing_zeros())
    }

    /// The least number of the set from this one on.
    pub fn least_from(&self, from: u32) -> Option<u32>
        ensures next { IsLeastFrom from (is_member self.now) result }
        ensures few { IfSome result (λ n. n < NUMBERS) }
    {
        let place = from / BITS;
        let Some(word) = self.words.get(place as usize) else {
            return None;
        };
        let rest = *word >> (from % BITS);
        if rest != 0 {
            return Some(from + rest.trailing_zeros());
        }
        let later = (self.marks >> place) >> 1;
        if later == 0 {
            return None;
        }
        let next = place + 1 + later.trailing_zeros();
        Some(BITS * next + self.words[next as usize].trailing_zeros())
    }
}
