//! From how many states a word lets a search go on.
ghost use Rattle.std.specs.Prelude.{◌≡◌, ◌↔◌, ◌≤◌, ℕ, Some, decimal};
ghost use Rattle.fx_text.specs.Limits.{most_number};
ghost use Rattle.fx_command.specs.States.{states_in};

use crate::workers::workers_in;

/// The most states from which a search goes on where no word says it.
pub(crate) const MOST_STATES: u32 = 1_000_000;

/// The number that the word writes: one that is not 0, with no sign and no zero before it.
pub(crate) fn states_in(word: &str) -> Option<u32>
    ensures value { result ≡ states_in word.now }
    ensures number { (n : ℕ) → ((1 ≤ n) × (n ≤ most_number) × (word.now ≡ decimal n))
        ↔ (result ≡ Some n) }
{
    match word.as_bytes() {
        [b'0', ..] => None,
        _ => workers_in(word),
    }
}
