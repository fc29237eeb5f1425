//! The word that comes next in a text.
ghost use Rattle.std.specs.Prelude.{◌≡◌, ◌≤◌, IfSome, length};
ghost use Rattle.std.specs.List.{prefix_len};
ghost use Rattle.fx_text.specs.Token.{Name, is_space, is_digit, is_letter_or_digit, after_spaces, next};

fn is_space(b: u8) -> bool
    ensures { result ≡ is_space b }
{
    b == b' ' || b == b'\t' || b == b'\n' || b == b'\r'
}

fn is_digit(b: u8) -> bool
    ensures { result ≡ is_digit b }
{
    b'0' <= b && b <= b'9'
}

fn is_letter_or_digit(b: u8) -> bool
    ensures { result ≡ is_letter_or_digit b }
{
    (b'a' <= b && b <= b'z') || is_digit(b)
}

pub(crate) fn after_spaces(bytes: &[u8]) -> &[u8]
    ensures { result.now ≡ after_spaces bytes.now }
{
    let mut rest = bytes;
    while let [b, more @ ..] = rest {
        if !is_space(*b) {
            break;
        }
        rest = more;
    }
    rest
}

pub(crate) fn word_len(bytes: &[u8]) -> usize
    ensures len { result ≡ prefix_len is_letter_or_digit bytes.now }
    ensures within { result ≤ length bytes.now }
{
    bytes.iter().take_while(|b| is_letter_or_digit(**b)).count()
}

/// The next token, if that is a word which begins with a letter.
#[tactic(auto, unfolding(fx_text::specs::Token::next))]
pub(crate) fn next_word(bytes: &[u8]) -> Option<&[u8]>
    ensures { IfSome result (λ word. (next bytes.now).token ≡ Name word.now) }
{
    let bytes = after_spaces(bytes);
    let first = *bytes.first()?;
    if is_digit(first) || !is_letter_or_digit(first) {
        return None;
    }
    let (word, _) = bytes.split_at(word_len(bytes));
    Some(word)
}
