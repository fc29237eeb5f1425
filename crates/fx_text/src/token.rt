//! The tokens of a text.

ghost use Rattle.std.specs.Prelude.{◌≡◌, ◌&&◌, nat_lt, IsTrue, slice_index, ◌≤◌, ◌<◌, length, Some, None, MatchOption};
ghost use Rattle.std.specs.List.{prefix_len};
ghost use Rattle.fx_text.specs.Token.{is_space, is_digit, is_letter_or_digit, number, after_spaces, next};
ghost use Rattle.fx_text.specs.TokenView.{view_token, view_lexeme, IfToken};

/// A token, or what is none.
#[derive(Clone, Copy)]
pub(crate) enum Token<'a> {
    Open,
    Close,
    Number(u64),
    Name(&'a [u8]),
    Stray,
    Misnumber,
    End,
}

/// A token, how many bytes stand from it to the end of the text, and what is left after it.
#[derive(Clone, Copy)]
pub(crate) struct Lexeme<'a> {
    pub(crate) token: Token<'a>,
    pub(crate) from: usize,
    pub(crate) rest: &'a [u8],
}

pub(crate) fn is_space(b: u8) -> bool
    ensures { result ≡ is_space b }
{
    b == b' ' || b == b'\t' || b == b'\n' || b == b'\r'
}

pub(crate) fn is_digit(b: u8) -> bool
    ensures { result ≡ is_digit b }
{
    b'0' <= b && b <= b'9'
}

pub(crate) fn is_letter_or_digit(b: u8) -> bool
    ensures { result ≡ is_letter_or_digit b }
{
    (b'a' <= b && b <= b'z') || is_digit(b)
}

pub(crate) fn after_spaces(bytes: &[u8]) -> &[u8]
    ensures rest { result.now ≡ after_spaces bytes.now }
    ensures within { length result.now ≤ length bytes.now }
{
    let mut rest = bytes;
    while let [b, more @ ..] = rest {
        if !is_space(*b) {
            break;
        }
        rest = more;
    }
    rest
}

fn word_len(bytes: &[u8]) -> usize
    ensures len { result ≡ prefix_len is_letter_or_digit bytes.now }
    ensures within { result ≤ length bytes.now }
    ensures some { IsTrue
        (nat_lt 0 (length bytes.now) && is_letter_or_digit (slice_index bytes.now 0)) → 0 < result }
{
    bytes.iter().take_while(|b| is_letter_or_digit(**b)).count()
}

pub(crate) fn number(word: &[u8]) -> Token<'_>
    ensures { view_token result ≡ number word.now }
{
    let mut value: u64 = 0;
    for b in word {
        if !is_digit(*b) {
            return Token::Misnumber;
        }
        match value.checked_mul(10) {
            None => return Token::Misnumber,
            Some(tens) => match tens.checked_add(u64::from(*b - b'0')) {
                None => return Token::Misnumber,
                Some(sum) => value = sum,
            },
        }
    }
    Token::Number(value)
}

/// The next token.
#[tactic(auto, unfolding(crate::specs::Token::next))]
pub(crate) fn next(bytes: &[u8]) -> Lexeme<'_>
    ensures lexeme { view_lexeme result ≡ next bytes.now }
    ensures within { length result.rest.now ≤ length bytes.now }
    ensures shorter { IfToken result.token (length result.rest.now < length bytes.now) }
{
    let bytes = after_spaces(bytes);
    let from = bytes.len();
    match bytes {
        [] => Lexeme {
            token: Token::End,
            from,
            rest: bytes,
        },
        [b, rest @ ..] => {
            if *b == b'(' {
                return Lexeme {
                    token: Token::Open,
                    from,
                    rest,
                };
            }
            if *b == b')' {
                return Lexeme {
                    token: Token::Close,
                    from,
                    rest,
                };
            }
            if !is_letter_or_digit(*b) {
                return Lexeme {
                    token: Token::Stray,
                    from,
                    rest,
                };
            }
            let (word, rest) = bytes.split_at(word_len(bytes));
            let token = if is_digit(*b) {
                number(word)
            } else {
                Token::Name(word)
            };
            Lexeme { token, from, rest }
        }
    }
}
