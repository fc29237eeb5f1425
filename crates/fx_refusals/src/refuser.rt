//! What is said to the library that refuses requests for memory.

use std::alloc::Global;

/// Requests of more bytes than there can be, each of which is a word for that library (`bench/refusing.c`).
const ALONE: usize = 0x4000_0000_0000_0000;

const ALL_AFTER: usize = 0x4000_0100_0000_0000;

const HOLD: usize = 0x4000_0200_0000_0000;

const GO_ON: usize = 0x4000_0300_0000_0000;

const END: usize = 0x4000_0400_0000_0000;

/// How far a refusal reaches.
#[derive(Clone, Copy)]
pub enum Reach {
    /// One request is refused.
    Alone,
    /// All after it are refused too.
    AllAfter,
}

/// Has requests refused. Where the library is not loaded, each word is refused as any machine would.
#[derive(Clone, Copy)]
pub struct Refuser {
    alloc: Global,
}

impl Refuser {
    /// What speaks through this allocator.
    pub fn new(alloc: Global) -> Refuser {
        Refuser { alloc }
    }

    /// Whether somebody refuses memory at all.
    pub fn is_there(&self) -> bool {
        self.is_granted(HOLD)
    }

    /// From now on the request of this number is refused, counted from 1 while requests are not held.
    pub fn refuse(&self, reach: Reach, number: u32) {
        let word = match reach {
            Reach::Alone => ALONE,
            Reach::AllAfter => ALL_AFTER,
        };
        self.is_granted(word.saturating_add(number as usize));
    }

    /// Requests are granted until they go on.
    pub fn hold(&self) {
        self.is_granted(HOLD);
    }

    /// Requests count, and may be refused.
    pub fn go_on(&self) {
        self.is_granted(GO_ON);
    }

    /// No request is refused any more: whether one was.
    pub fn end(&self) -> bool {
        self.is_granted(END)
    }

    /// Whether there was an answer. What is answered is never written to.
    fn is_granted(&self, word: usize) -> bool {
        Vec::<u8>::with_capacity(self.alloc, word).is_ok()
    }
}
