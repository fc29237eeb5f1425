//! Says in words what is wrong in a script.

use crate::advice::{instead_of, near_form};
use crate::explain::{name_round, token_at, word_len};
use crate::open_groups::OpenGroups;
use crate::parts::Wanted;
use crate::position::Position;
use crate::printable::{quoted, quoted_byte};
use fx_text::{TextFault, TextKind};
use std::alloc::{AllocError, Global};

/// Whether the word stands somewhere in these tokens.
fn has_word(tokens: &[u8], word: &[u8]) -> bool {
    let mut rest = tokens;
    while !rest.is_empty() {
        let len = word_len(rest);
        if len > 0 && &rest[..len] == word {
            return true;
        }
        rest = &rest[len.max(1)..];
    }
    false
}

/// What is wrong with a byte that no token has.
fn strange_byte(alloc: Global, text: &[u8], at: usize) -> Result<String, AllocError> {
    let byte = quoted_byte(alloc, &text[at.min(text.len())..])?;
    let name = name_round(text, at);
    if name.len() < 2 {
        return format!(in alloc; "no token has the byte {byte}");
    }
    let shown = quoted(alloc, name)?;
    match instead_of(name) {
        Some(said) => format!(in alloc; "no token has the byte {byte} of {shown}: {said}"),
        None => format!(in alloc;
            "no token has the byte {byte} of {shown}: a word has small letters and digits"
        ),
    }
}

/// What is wrong with the name of a poll where it is used.
fn unknown_poll(
    open: &OpenGroups<'_>,
    alloc: Global,
    token: &[u8],
    shown: &str,
) -> Result<String, AllocError> {
    if open.is_poll_of_another_fiber(token) {
        return format!(in alloc;
            "the poll {shown} is another fiber's, since this part runs in a new fiber"
        );
    }
    format!(in alloc; "no mask round this place has a poll {shown}")
}

/// What is wrong with a name where it is used.
fn unknown(alloc: Global, before: &[u8], token: &[u8], shown: &str) -> Result<String, AllocError> {
    let open = OpenGroups::after(alloc, before)?;
    let wanted = open.wanted();
    if wanted == Wanted::Poll {
        return unknown_poll(&open, alloc, token, shown);
    }
    if !has_word(before, token) {
        return format!(in alloc; "the name {shown} is not in scope here");
    }
    let kind = wanted.kind();
    format!(in alloc; "a {kind} is wanted here, and no {kind} {shown} is in scope")
}

/// What is wrong with a name that is bound again.
fn taken(alloc: Global, before: &[u8], token: &[u8], shown: &str) -> Result<String, AllocError> {
    let open = OpenGroups::after(alloc, before)?;
    let Some(at) = open.where_bound(token) else {
        return format!(in alloc; "the name {shown} is in scope here already");
    };
    let Position { line, column } = Position::after(&before[..at.min(before.len())]);
    format!(in alloc;
        "the name {shown} is in scope here already; it is bound in line {line}, column {column}"
    )
}

/// What is wrong with a token that its place does not want.
fn unwanted(alloc: Global, before: &[u8], shown: &str) -> Result<String, AllocError> {
    let open = OpenGroups::after(alloc, before)?;
    let wanted = open.wanted().words();
    let Some(role) = open.role() else {
        return format!(in alloc; "{wanted} is wanted here, and {shown} stands here");
    };
    let owner = open.owner(alloc)?;
    format!(in alloc; "{wanted} is wanted here, {role} of {owner}, and {shown} stands here")
}

/// What is wrong with a name where the word of a form is wanted.
fn no_word(alloc: Global, name: &[u8]) -> Result<String, AllocError> {
    let shown = quoted(alloc, name)?;
    if let Some(said) = instead_of(name) {
        return format!(in alloc; "{shown} is no word of a form: {said}");
    }
    match near_form(name) {
        Some(form) => format!(in alloc; "{shown} is no word of a form: did you mean `{form}`?"),
        None => format!(in alloc; "{shown} is no word of a form"),
    }
}

/// What is wrong with a token where the word of a form is wanted.
fn no_form(alloc: Global, text: &[u8], at: usize, shown: &str) -> Result<String, AllocError> {
    match OpenGroups::after(alloc, &text[..at.min(text.len())])?.count() {
        0 => format!(in alloc; "a form of a script begins with `(`, and {shown} stands here"),
        1 => format!(in alloc; "`queue` or `main` is wanted here, and {shown} stands here"),
        _ => {
            let name = name_round(text, at);
            no_word(
                alloc,
                if name.is_empty() {
                    token_at(text, at)
                } else {
                    name
                },
            )
        }
    }
}

/// What is wrong with a number that its place does not take.
fn size(alloc: Global, before: &[u8], shown: &str) -> Result<String, AllocError> {
    if OpenGroups::after(alloc, before)?.is_in_declaration() {
        return format!(in alloc; "the capacity {shown} is not from 1 to 1024");
    }
    format!(in alloc; "the count {shown} takes the turns of this loop above 1000000")
}

/// What is wrong where the text ends in a form.
fn ended(alloc: Global, before: &[u8]) -> Result<String, AllocError> {
    let open = OpenGroups::after(alloc, before)?;
    let count = open.count();
    let owner = open.owner(alloc)?;
    let line = Position::after(&before[..open.begin().min(before.len())]).line;
    format!(in alloc;
        "the text ends here, in {owner}, which begins in line {line}; parentheses that are open: {count}"
    )
}

/// What is wrong, in a sentence without its end.
pub(crate) fn wrong_in_script(
    alloc: Global,
    text: &[u8],
    fault: TextFault,
) -> Result<String, AllocError> {
    let at = (fault.at as usize).min(text.len());
    let before = &text[..at];
    let token = token_at(text, at);
    let shown = quoted(alloc, token)?;
    match fault.kind {
        TextKind::Length => format!(in alloc;
            "the text goes on here; at most 65536 bytes are read"
        ),
        TextKind::Byte => strange_byte(alloc, text, at),
        TextKind::Number => format!(in alloc;
            "{shown} begins with a digit and is no number up to 18446744073709551615"
        ),
        TextKind::Ended => ended(alloc, before),
        TextKind::Form => no_form(alloc, text, at, &shown),
        TextKind::Unwanted => unwanted(alloc, before, &shown),
        TextKind::Unknown => unknown(alloc, before, token, &shown),
        TextKind::Taken => taken(alloc, before, token, &shown),
        TextKind::Size => size(alloc, before, &shown),
        TextKind::Queues => format!(in alloc; "this is queue 17; a script has at most 16"),
        TextKind::Depth => format!(in alloc;
            "this is parenthesis 101; at most 100 are open at once"
        ),
        TextKind::Need => format!(in alloc;
            "the form that begins here can start more than 4095 fibers"
        ),
        TextKind::Main if token.is_empty() => format!(in alloc;
            "the text ends here, and has no `main`"
        ),
        TextKind::Main => format!(in alloc;
            "nothing may stand after `main`, and {shown} stands here"
        ),
        TextKind::Memory => format!(in alloc; "out of memory"),
    }
}
