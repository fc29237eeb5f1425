//! What is wrong with a text.
ghost use Rattle.std.specs.Prelude.{◌≡◌, ◌<◌, ◌^◌, length};
ghost use Rattle.fx_text.specs.declared.fault.ReadError.TheVariants as errors;
ghost use Rattle.fx_text.specs.Fault.{kind_number, answered};

use std::alloc::{AllocError, AllocFailed};
use std::fmt;
use thiserror::Error;

/// The kind of a fault.
#[derive(Clone, Copy, PartialEq, Eq, Debug)]
pub enum TextKind {
    /// A script has more than 65,536 bytes, or a schedule more than 2,097,152.
    Length,
    /// A byte that no token or space has.
    Byte,
    /// In a script a word that begins with a digit and is no number, in a schedule a number above
    /// 4,294,967,295.
    Number,
    /// The text ends inside a form.
    Ended,
    /// A token after `(` that is no word of a form, or at the top before `main` another token than `(`.
    Form,
    /// Another token than its place wants, or a word of a schedule that is no pick.
    Unwanted,
    /// A name that is not in scope, or is of another kind, or is the poll of another fiber.
    Unknown,
    /// A binder or a queue whose name is in scope.
    Taken,
    /// A capacity outside 1 to 1,024, a count that takes the turns of its loop above 1,000,000, or the
    /// 100,001st word of a schedule.
    Size,
    /// A 17th queue.
    Queues,
    /// A `(` where 100 are open.
    Depth,
    /// A form that can start more than 4,095 fibers.
    Need,
    /// The text ends before `main`, or goes on after it.
    Main,
    /// Want of memory.
    Memory,
}

impl TextKind {
    /// The number of the kind.
    pub fn number(&self) -> u8
        ensures { result ≡ kind_number self.now }
    {
        match self {
            TextKind::Length => 1,
            TextKind::Byte => 2,
            TextKind::Number => 3,
            TextKind::Ended => 4,
            TextKind::Form => 5,
            TextKind::Unwanted => 6,
            TextKind::Unknown => 7,
            TextKind::Taken => 8,
            TextKind::Size => 9,
            TextKind::Queues => 10,
            TextKind::Depth => 11,
            TextKind::Need => 12,
            TextKind::Main => 13,
            TextKind::Memory => 14,
        }
    }

    /// What is said of it.
    fn words(self) -> &'static str {
        match self {
            TextKind::Length => "the text is too long",
            TextKind::Byte => "no text has this byte",
            TextKind::Number => "no number, or one that is too large",
            TextKind::Ended => "the text ends inside a form",
            TextKind::Form => "no word of a form",
            TextKind::Unwanted => "not what is wanted here",
            TextKind::Unknown => "no such name of this kind is in scope",
            TextKind::Taken => "this name is in scope already",
            TextKind::Size =>
                "a capacity, turns of a loop or words of a schedule outside of their limits",
            TextKind::Queues => "16 queues are declared already",
            TextKind::Depth => "100 parentheses are open already",
            TextKind::Need => "a form that can start more than 4,095 fibers",
            TextKind::Main => "a script has one main, and nothing after it",
            TextKind::Memory => "out of memory",
        }
    }
}

impl fmt::Display for TextKind {
    fn fmt<W: fmt::Write>(&self, f: &mut fmt::Formatter<W>) -> fmt::Result {
        f.write_str(self.words())
    }
}

impl std::error::Error for TextKind {}

/// The first fault of a text, and the byte that it is at, from 0. For want of memory that is 0.
#[derive(Clone, Copy, PartialEq, Eq, Debug, Error)]
#[error("at byte {at}: {kind}")]
pub struct TextFault {
    pub kind: TextKind,
    pub at: u32,
}

impl TextFault {
    /// The number of the fault's kind.
    pub fn number(&self) -> u8
        ensures { result ≡ kind_number self.now.kind }
    {
        self.kind.number()
    }
}

/// A fault, by how many bytes of the text stand from it to the end.
#[derive(Clone, Copy)]
pub(crate) struct Fault {
    pub(crate) kind: TextKind,
    pub(crate) left: usize,
}

/// Why a text could not be read.
#[derive(Clone, Copy)]
pub(crate) enum ReadError {
    Memory,
    Fault(Fault),
}

impl ReadError {
    /// What is answered for it, by its place in the text.
    pub(crate) fn answered(self, text: &[u8]) -> TextFault
        requires { length text.now < 2 ^ 32 }
        ensures { result ≡ answered (length text.now) self }
    {
        match self {
            ReadError::Memory => TextFault {
                kind: TextKind::Memory,
                at: 0,
            },
            ReadError::Fault(fault) => TextFault {
                kind: fault.kind,
                at: text.len().saturating_sub(fault.left) as u32,
            },
        }
    }
}

impl From<AllocError> for ReadError {
    ghost from_gives = { λ _ e. e ≡ errors.Memory };

    fn from(_refused: AllocError) -> ReadError {
        ReadError::Memory
    }
}

impl<T: Drop> From<AllocFailed<T>> for ReadError {
    ghost from_gives = { λ _ e. e ≡ errors.Memory };

    fn from(_refused: AllocFailed<T>) -> ReadError {
        ReadError::Memory
    }
}
