//! The forms at the top of a script.
ghost use Rattle.std.specs.Prelude.{◌≡◌, ◌<◌, ◌≤◌, length, IfOk};
ghost use Rattle.fx_text.specs.Token.{next};
ghost use Rattle.fx_text.specs.Part.{top_form_of, no_top_form};
ghost use Rattle.fx_text.specs.Reading.{top_opening_at, top_form_at, top_at};
ghost use Rattle.fx_text.specs.TokenView.{view_token};
ghost use Rattle.fx_text.specs.Given.{Gives};

use crate::fault::{Fault, ReadError, TextKind};
use crate::part::refused;
use crate::token::{Token, next};

/// A form at the top.
#[derive(Clone, Copy)]
pub(crate) enum TopForm {
    Queue,
    Main,
}

/// The `(` of a form at the top.
#[tactic(auto, unfolding(crate::specs::Reading::top_opening_at))]
fn top_opening(bytes: &[u8]) -> Result<&[u8], ReadError>
    ensures read { Gives (λ x. (tt, x.now)) result (top_opening_at bytes.now) }
    ensures within { IfOk result (λ x. length x.now ≤ length bytes.now) }
{
    let lexeme = next(bytes);
    match lexeme.token {
        Token::Open => Ok(lexeme.rest),
        Token::End => Err(ReadError::Fault(Fault {
            kind: TextKind::Main,
            left: lexeme.from,
        })),
        _ => Err(refused(TextKind::Form, lexeme)),
    }
}

/// The word of a form at the top, where so many more queues may be declared.
#[tactic(auto, unfolding(crate::specs::Reading::top_form_at))]
fn top_form(room: usize, bytes: &[u8]) -> Result<(TopForm, &[u8]), ReadError>
    ensures read { Gives (λ x. (x.0, x.1.now)) result (top_form_at room bytes.now) }
    ensures shorter { IfOk result (λ x. length x.1.now < length bytes.now) }
{
    let lexeme = next(bytes);
    match lexeme.token {
        Token::Name(name) => {
            if name == b"main".as_slice() {
                return Ok((TopForm::Main, lexeme.rest));
            }
            if name != b"queue".as_slice() {
                return Err(refused(TextKind::Form, lexeme));
            }
            if room == 0 {
                return Err(refused(TextKind::Queues, lexeme));
            }
            Ok((TopForm::Queue, lexeme.rest))
        }
        _ => Err(refused(TextKind::Form, lexeme)),
    }
}

/// A form at the top, up to its word, where so many more queues may be declared.
pub(crate) fn top(room: usize, bytes: &[u8]) -> Result<(TopForm, &[u8]), ReadError>
    ensures read { Gives (λ x. (x.0, x.1.now)) result (top_at room bytes.now) }
    ensures shorter { IfOk result (λ x. length x.1.now < length bytes.now) }
{
    let inside = top_opening(bytes)?;
    top_form(room, inside)
}
