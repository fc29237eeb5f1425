//! The queues that a script declares.
ghost use Rattle.std.specs.Prelude.{◌≡◌, ◌<◌, ◌≤◌, [], length, map, string_bytes, IfOk};
ghost use Rattle.std.specs.Str.{IsUtf8};
ghost use Rattle.fx_text.specs.Limits.{most_queues, most_capacity};
ghost use Rattle.fx_text.specs.Reading.{capacity_at, declaration_at, queues_at};
ghost use Rattle.fx_text.specs.QueuesView.{view_queue, view_queues};
ghost use Rattle.fx_text.specs.Given.{Gives};

use crate::fault::{ReadError, TextKind};
use crate::part::{binder, closing, refused};
use crate::place::Place;
use crate::queue_decl::QueueDecl;
use crate::token::{Token, next};
use crate::top::{TopForm, top};
use std::alloc::{AllocError, Global};
use std::str;

/// The most queues of a script.
const MOST_QUEUES: usize = 16;

/// The most elements that a queue may hold.
const MOST_CAPACITY: u64 = 1024;

/// How many elements a queue may hold.
#[tactic(auto, unfolding(crate::specs::Reading::capacity_at))]
fn capacity(bytes: &[u8]) -> Result<(u32, &[u8]), ReadError>
    ensures read { Gives (λ x. (x.0, x.1.now)) result (capacity_at bytes.now) }
    ensures sized { IfOk result (λ x. (0 < x.0) × (x.0 ≤ most_capacity)) }
    ensures shorter { IfOk result (λ x. length x.1.now < length bytes.now) }
{
    let lexeme = next(bytes);
    match lexeme.token {
        Token::Number(n) => {
            if n < 1 || n > MOST_CAPACITY {
                return Err(refused(TextKind::Size, lexeme));
            }
            Ok((n as u32, lexeme.rest))
        }
        _ => Err(refused(TextKind::Unwanted, lexeme)),
    }
}

/// A word as text, which it is, as it has letters and digits alone.
fn text_of(alloc: Global, word: &[u8]) -> Result<String, AllocError>
    requires { IsUtf8 word.now }
    ensures { IfOk result (λ text. string_bytes text ≡ word.now) }
{
    match str::from_utf8(word) {
        Ok(text) => String::from_str(alloc, text),
        Err(_) => unreachable!(),
    }
}

/// A declaration after its word, where these queues are declared before it.
#[tactic(auto, unfolding(crate::specs::Reading::declaration_at))]
fn declaration<'a>(
    alloc: Global,
    before: &[QueueDecl],
    bytes: &'a [u8],
) -> Result<(QueueDecl, &'a [u8]), ReadError>
    ensures read { Gives (λ x. (view_queue x.0, x.1.now)) result
        (declaration_at (view_queues before.now) bytes.now) }
    ensures shorter { IfOk result (λ x. length x.1.now < length bytes.now) }
{
    let place = Place {
        turns: 1,
        foreign: 0,
        queues: before,
    };
    let (name, rest) = binder(&[], place, bytes)?;
    let (cap, rest) = capacity(rest)?;
    let rest = closing(rest)?;
    let name = text_of(alloc, name)?;
    Ok((QueueDecl { name, cap }, rest))
}

/// The queues that a text declares, and what comes after the word `main`.
pub(crate) fn queues(alloc: Global, text: &[u8]) -> Result<(Vec<QueueDecl>, &[u8]), ReadError>
    ensures read { Gives (λ x. (view_queues x.0.items, x.1.now)) result (queues_at text.now) }
    ensures few { IfOk result (λ x. length x.0.items ≤ most_queues) }
    ensures shorter { IfOk result (λ x. length x.1.now < length text.now) }
{
    let mut queues = Vec::new(alloc);
    let (mut form, mut rest) = top(MOST_QUEUES, text)?;
    while let TopForm::Queue = form {
        let (queue, after) = declaration(alloc, &queues, rest)?;
        queues.push(queue)?;
        (form, rest) = top(MOST_QUEUES - queues.len(), after)?;
    }
    Ok((queues, rest))
}
