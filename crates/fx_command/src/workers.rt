//! How many workers a word asks for.
ghost use Rattle.std.specs.Prelude.{◌≡◌, ◌↔◌, ℕ, Some};
ghost use Rattle.std.specs.List.{list_all};
ghost use Rattle.fx_text.specs.Token.{is_digit};
ghost use Rattle.fx_text.specs.Schedule.{IsNumber};
ghost use Rattle.fx_command.specs.Workers.{workers_in};

fn are_digits(bytes: &[u8]) -> bool
    ensures { result ≡ list_all is_digit bytes.now }
{
    bytes.iter().all(|b| b.is_ascii_digit())
}

/// The number that the word writes: digits, one or more, and no sign.
pub(crate) fn workers_in(word: &str) -> Option<u32>
    ensures value { result ≡ workers_in word.now }
    ensures number { (n : ℕ) → IsNumber word.now n ↔ (result ≡ Some n) }
{
    if !are_digits(word.as_bytes()) {
        return None;
    }
    word.parse().ok()
}
