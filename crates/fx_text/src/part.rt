//! The parts of a form that are one token.
ghost use Rattle.std.specs.Prelude.{ℕ, ◌≡◌, ◌+◌, ◌<◌, ◌≤◌, ◌^◌, List, length, nat_le, IfOk};
ghost use Rattle.fx_term.specs.Turns.{most_turns, turns_of_loop};
ghost use Rattle.fx_text.specs.Reading.{kind_of, opening_at, closing_at, value_at, count_at, name_at};
ghost use Rattle.fx_text.specs.Reading.{queue_at, binder_at, form_at, too_deep};
ghost use Rattle.fx_text.specs.Limits.{most_queues};
ghost use Rattle.fx_text.specs.Part.{is_closing};
ghost use Rattle.fx_text.specs.Token.{next};
ghost use Rattle.fx_text.specs.TokenView.{view_token};
ghost use Rattle.fx_text.specs.ScopeView.{scope};
ghost use Rattle.fx_text.specs.Given.{Gives};

use crate::fault::{Fault, ReadError, TextKind};
use crate::form::Form;
use crate::place::Place;
use crate::scope::{Bound, is_taken, queue_of, slot_of};
use crate::token::{Lexeme, Token, next};
use fx_term::{Arg, NameKind, turns_of_loop};

fn kind_of(kind: TextKind, token: Token<'_>) -> TextKind
    ensures { result ≡ kind_of kind (view_token token.entry) }
{
    match token {
        Token::Stray => TextKind::Byte,
        Token::Misnumber => TextKind::Number,
        Token::End => TextKind::Ended,
        Token::Open | Token::Close | Token::Number(_) | Token::Name(_) => kind,
    }
}

/// The fault of a token that its place refuses for this reason.
pub(crate) fn refused(kind: TextKind, lexeme: Lexeme<'_>) -> ReadError
    ensures { result ≡ ReadError.Fault
        (record { kind = kind_of kind (view_token lexeme.entry.token); left = lexeme.entry.from }) }
{
    ReadError::Fault(Fault {
        kind: kind_of(kind, lexeme.token),
        left: lexeme.from,
    })
}

/// `(`.
#[tactic(auto, unfolding(crate::specs::Reading::opening_at))]
pub(crate) fn opening(bytes: &[u8]) -> Result<&[u8], ReadError>
    ensures read { Gives (λ x. (tt, x.now)) result (opening_at bytes.now) }
    ensures shorter { IfOk result (λ x. length x.now < length bytes.now) }
    ensures from { IfOk result (λ x. length x.now + 1 ≡ (next bytes.now).from) }
{
    let lexeme = next(bytes);
    match lexeme.token {
        Token::Open => Ok(lexeme.rest),
        _ => Err(refused(TextKind::Unwanted, lexeme)),
    }
}

/// `)`.
#[tactic(auto, unfolding(crate::specs::Reading::closing_at))]
pub(crate) fn closing(bytes: &[u8]) -> Result<&[u8], ReadError>
    ensures read { Gives (λ x. (tt, x.now)) result (closing_at bytes.now) }
    ensures shorter { IfOk result (λ x. length x.now < length bytes.now) }
{
    let lexeme = next(bytes);
    match lexeme.token {
        Token::Close => Ok(lexeme.rest),
        _ => Err(refused(TextKind::Unwanted, lexeme)),
    }
}

/// Whether `)` is next.
pub(crate) fn is_closing(bytes: &[u8]) -> bool
    ensures { result ≡ is_closing (next bytes.now).token }
{
    matches!(next(bytes).token, Token::Close)
}

/// A number, or the name of a value.
#[tactic(auto, unfolding(crate::specs::Reading::value_at))]
pub(crate) fn value<'a>(
    names: &[Bound<'a>],
    place: Place<'a>,
    bytes: &'a [u8],
) -> Result<(Arg, &'a [u8]), ReadError>
    requires small { length names.now < 2 ^ 32 }
    requires outside { place.foreign ≤ length names.now }
    ensures read { Gives (λ x. (x.0, x.1.now)) result
        (value_at (scope names.now place.entry) bytes.now) }
    ensures shorter { IfOk result (λ x. length x.1.now < length bytes.now) }
{
    let lexeme = next(bytes);
    match lexeme.token {
        Token::Number(n) => Ok((Arg::Number(n), lexeme.rest)),
        Token::Name(name) => match slot_of(names, place.foreign, NameKind::Value, name) {
            None => Err(refused(TextKind::Unknown, lexeme)),
            Some(slot) => Ok((Arg::Slot(slot as u32), lexeme.rest)),
        },
        _ => Err(refused(TextKind::Unwanted, lexeme)),
    }
}

/// Whether a loop of that count takes its turns to no more than 1,000,000, where the loop itself is
/// run so many times. A count of 0 is taken as 1.
fn has_few_turns(turns: u32, count: u64) -> bool
    ensures { result ≡ nat_le (turns_of_loop turns count) most_turns }
{
    turns_of_loop(turns, count).is_some()
}

/// The count of a loop that is run so many times.
#[tactic(auto, unfolding(crate::specs::Reading::count_at))]
pub(crate) fn count<'a>(place: Place<'_>, bytes: &'a [u8]) -> Result<(u32, &'a [u8]), ReadError>
    requires { 0 < place.turns }
    ensures read { (names : List Bound)
        → Gives (λ x. (x.0, x.1.now)) result (count_at (scope names place.entry) bytes.now) }
    ensures few { IfOk result (λ x. turns_of_loop place.entry.turns x.0 ≤ most_turns) }
    ensures shorter { IfOk result (λ x. length x.1.now < length bytes.now) }
{
    let lexeme = next(bytes);
    match lexeme.token {
        Token::Number(count) => {
            if !has_few_turns(place.turns, count) {
                return Err(refused(TextKind::Size, lexeme));
            }
            Ok((count as u32, lexeme.rest))
        }
        _ => Err(refused(TextKind::Unwanted, lexeme)),
    }
}

/// The name of one of that kind, by its slot.
#[tactic(auto, unfolding(crate::specs::Reading::name_at))]
pub(crate) fn name<'a>(
    names: &[Bound<'a>],
    place: Place<'a>,
    kind: NameKind,
    bytes: &'a [u8],
) -> Result<(u32, &'a [u8]), ReadError>
    requires small { length names.now < 2 ^ 32 }
    requires outside { place.foreign ≤ length names.now }
    ensures read { Gives (λ x. (x.0, x.1.now)) result
        (name_at kind (scope names.now place.entry) bytes.now) }
    ensures shorter { IfOk result (λ x. length x.1.now < length bytes.now) }
{
    let lexeme = next(bytes);
    match lexeme.token {
        Token::Name(name) => match slot_of(names, place.foreign, kind, name) {
            None => Err(refused(TextKind::Unknown, lexeme)),
            Some(slot) => Ok((slot as u32, lexeme.rest)),
        },
        _ => Err(refused(TextKind::Unwanted, lexeme)),
    }
}

/// The name of a queue, by its number.
#[tactic(auto, using(crate::proofs::ScopeLaws::queue_among), unfolding(crate::specs::Reading::queue_at))]
pub(crate) fn queue<'a>(place: Place<'_>, bytes: &'a [u8]) -> Result<(u8, &'a [u8]), ReadError>
    requires { length place.queues.now ≤ most_queues }
    ensures read { (names : List Bound)
        → Gives (λ x. (x.0, x.1.now)) result (queue_at (scope names place.entry) bytes.now) }
    ensures shorter { IfOk result (λ x. length x.1.now < length bytes.now) }
{
    let lexeme = next(bytes);
    match lexeme.token {
        Token::Name(name) => match queue_of(place.queues, name) {
            None => Err(refused(TextKind::Unknown, lexeme)),
            Some(queue) => Ok((queue as u8, lexeme.rest)),
        },
        _ => Err(refused(TextKind::Unwanted, lexeme)),
    }
}

/// A name that is not in scope.
#[tactic(auto, unfolding(crate::specs::Reading::binder_at))]
pub(crate) fn binder<'a>(
    names: &[Bound<'_>],
    place: Place<'_>,
    bytes: &'a [u8],
) -> Result<(&'a [u8], &'a [u8]), ReadError>
    ensures read { Gives (λ x. (x.0.now, x.1.now)) result
        (binder_at (scope names.now place.entry) bytes.now) }
    ensures shorter { IfOk result (λ x. length x.1.now < length bytes.now) }
{
    let lexeme = next(bytes);
    match lexeme.token {
        Token::Name(name) => {
            if is_taken(names, place, name) {
                return Err(refused(TextKind::Taken, lexeme));
            }
            Ok((name, lexeme.rest))
        }
        _ => Err(refused(TextKind::Unwanted, lexeme)),
    }
}

/// The word of a form.
pub(crate) fn form(bytes: &[u8]) -> Result<(Form, &[u8]), ReadError>
    ensures read { Gives (λ x. (x.0, x.1.now)) result (form_at bytes.now) }
    ensures shorter { IfOk result (λ x. length x.1.now < length bytes.now) }
{
    let lexeme = next(bytes);
    match lexeme.token {
        Token::Name(name) => match Form::of_word(name) {
            None => Err(refused(TextKind::Form, lexeme)),
            Some(form) => Ok((form, lexeme.rest)),
        },
        _ => Err(refused(TextKind::Form, lexeme)),
    }
}

/// The fault where a group has to begin and no more `(` may be open.
pub(crate) fn too_deep(bytes: &[u8]) -> ReadError
    ensures { let l = next bytes.now in
        ReadError.Fault (record { kind = kind_of (too_deep l.token) l.token; left = l.from })
        ≡ result }
{
    let lexeme = next(bytes);
    let kind = match lexeme.token {
        Token::Open => TextKind::Depth,
        _ => TextKind::Unwanted,
    };
    refused(kind, lexeme)
}

/// The fault of a form that can start too many fibers, by the bytes after its `(`.
pub(crate) fn too_many_fibers(inside: &[u8]) -> ReadError
    requires { length inside.now < 2 ^ 32 }
    ensures { result ≡ ReadError.Fault
        (record { kind = TextKind.Need; left = length inside.now + 1 }) }
{
    ReadError::Fault(Fault {
        kind: TextKind::Need,
        left: inside.len() + 1,
    })
}
