//! Reads schedules.
ghost use Rattle.std.specs.Prelude.{◌≡◌, ◌≤◌, ◌<◌, Ok, List, length, IfOk};
ghost use Rattle.std.specs.List.{list_all, prefix_len};
ghost use Rattle.fx_text.specs.declared.pick.Pick.{Pick as PickView};
ghost use Rattle.fx_text.specs.Limits.{most_schedule_bytes, most_picks};
ghost use Rattle.fx_text.specs.Token.{is_digit, is_letter_or_digit, after_spaces};
ghost use Rattle.fx_text.specs.Schedule.{is_inside, number_of, small_number, pick_of, pick_at, picks_at, schedule_reading, IsSchedule};
ghost use Rattle.fx_text.specs.TokenView.{view_token};
ghost use Rattle.fx_text.specs.Given.{Gives};
ghost use Rattle.fx_text.specs.View.{Answers};

use crate::fault::{Fault, ReadError, TextFault, TextKind};
use crate::pick::Pick;
use crate::token::{Token, after_spaces, is_digit, is_letter_or_digit, is_space, number};
use std::alloc::Global;

/// The most bytes of a schedule.
pub const MOST_SCHEDULE_BYTES: usize = 2_097_152;

/// The most words of a schedule.
const MOST_PICKS: usize = 100_000;

/// The picks that the text spells, or the text's first fault. Both time and memory are in proportion
/// to the length of the text.
pub fn schedule(alloc: Global, text: &[u8]) -> Result<Vec<Pick>, TextFault>
    // What is read is in the grammar.
    ensures found { IfOk result (λ picks. IsSchedule text.now picks.items) }
    // What is in the grammar is read, unless memory runs out.
    ensures only { (ps : List PickView) → IsSchedule text.now ps
        → Answers (λ picks. picks.items) result (Ok ps) }
    // Which fault it is, and where.
    ensures exact { Answers (λ picks. picks.items) result (schedule_reading text.now) }
{
    read_all(alloc, text)
}

fn read_all(alloc: Global, text: &[u8]) -> Result<Vec<Pick>, TextFault>
    ensures { Answers (λ picks. picks.items) result (schedule_reading text.now) }
{
    if text.len() > MOST_SCHEDULE_BYTES {
        return Err(TextFault {
            kind: TextKind::Length,
            at: MOST_SCHEDULE_BYTES as u32,
        });
    }
    match picks(alloc, text) {
        Ok(picks) => Ok(picks),
        Err(error) => Err(error.answered(text)),
    }
}

/// The picks of a text, word by word.
fn picks(alloc: Global, text: &[u8]) -> Result<Vec<Pick>, ReadError>
    ensures { Gives (λ picks. picks.items) result (picks_at most_picks (after_spaces text.now)) }
{
    let mut picks = Vec::new(alloc);
    let mut rest = after_spaces(text);
    while !rest.is_empty() {
        if picks.len() == MOST_PICKS {
            return Err(fault(TextKind::Size, rest.len()));
        }
        let (pick, after) = pick(rest)?;
        picks.push(pick)?;
        rest = after_spaces(after);
    }
    Ok(picks)
}

/// The pick of the word at the front, and what is left after it.
#[tactic(auto, unfolding(crate::specs::Schedule::pick_at))]
fn pick(bytes: &[u8]) -> Result<(Pick, &[u8]), ReadError>
    ensures { Gives (λ x. (x.0, x.1.now)) result (pick_at bytes.now) }
{
    let (word, rest) = bytes.split_at(word_len(bytes));
    let fine = letters_and_digits(word);
    if fine < word.len() {
        return Err(fault(TextKind::Byte, bytes.len() - fine));
    }
    match pick_of(word) {
        Ok(pick) => Ok((pick, rest)),
        Err(kind) => Err(fault(kind, bytes.len())),
    }
}

/// The fault from which on there are so many bytes.
fn fault(kind: TextKind, left: usize) -> ReadError
    ensures { result ≡ ReadError.Fault (record { kind = kind; left = left }) }
{
    ReadError::Fault(Fault { kind, left })
}

/// How many bytes stand before a space.
fn word_len(bytes: &[u8]) -> usize
    ensures len { result ≡ prefix_len is_inside bytes.now }
    ensures within { result ≤ length bytes.now }
{
    bytes.iter().take_while(|b| !is_space(**b)).count()
}

/// How many bytes stand before the first one that no word has.
fn letters_and_digits(word: &[u8]) -> usize
    ensures len { result ≡ prefix_len is_letter_or_digit word.now }
    ensures within { result ≤ length word.now }
{
    word.iter().take_while(|b| is_letter_or_digit(**b)).count()
}

/// The pick of a word of letters and digits.
fn pick_of(word: &[u8]) -> Result<Pick, TextKind>
    ensures { result ≡ pick_of word.now }
{
    match word {
        [] => Err(TextKind::Unwanted),
        [b, digits @ ..] => {
            if *b == b'c' {
                return Ok(Pick::Cancel(fiber_number(digits)?));
            }
            Ok(Pick::Step(fiber_number(word)?))
        }
    }
}

/// The number that the digits write.
#[tactic(auto, using(crate::proofs::PicksLaws::number_of_digits))]
fn fiber_number(digits: &[u8]) -> Result<u32, TextKind>
    ensures { result ≡ number_of digits.now }
{
    if digits.is_empty() || !are_digits(digits) {
        return Err(TextKind::Unwanted);
    }
    small_number(number(digits))
}

fn are_digits(word: &[u8]) -> bool
    ensures { result ≡ list_all is_digit word.now }
{
    word.iter().all(|b| is_digit(*b))
}

/// The number, unless it is too large.
fn small_number(token: Token<'_>) -> Result<u32, TextKind>
    ensures { result ≡ small_number (view_token token.entry) }
{
    match token {
        Token::Number(n) if n <= u64::from(u32::MAX) => Ok(n as u32),
        _ => Err(TextKind::Number),
    }
}
