//! Judges what comes of calls of which a request for memory is refused.

use crate::refuser::{Reach, Refuser};
use std::alloc::{AllocFailed, Global};

/// No row makes as many calls one after the other.
const MOST_CALLS: u32 = 4000;

/// What a call answered, or several.
#[derive(Clone, Copy)]
pub enum Answer {
    /// Memory ran out.
    Memory,
    /// What it answers with ample memory, and another call comes.
    Goes,
    /// What it answers with ample memory, and it was the last call.
    Whole,
    /// The same, and before it memory ran out. No call answers so, but who makes calls again.
    Told,
    /// Anything else.
    Wrong(Wrong),
}

/// Something else than a call is to answer.
pub const OTHER: Answer = Answer::Wrong(Wrong::Other);

/// What a call cannot be made on.
pub const UNSET: Answer = Answer::Wrong(Wrong::SetUp);

/// What a call answered whose answer is as it is to be, or is not.
pub fn whole_where(is_whole: bool) -> Answer {
    if is_whole { Answer::Whole } else { OTHER }
}

/// What is wrong with a row: `words` says it.
#[derive(Clone, Copy)]
pub enum Wrong {
    SetUp,
    Hidden,
    Untrue,
    Changed,
    Again,
    Other,
    NoRequest,
    NoEnd,
}

impl Wrong {
    /// In words.
    pub fn words(self) -> &'static str {
        match self {
            Wrong::SetUp => "it cannot be set up",
            Wrong::Hidden => "a request was refused, and no call said so",
            Wrong::Untrue => "a call said that memory was refused, and none was",
            Wrong::Changed => "where memory was refused something has changed",
            Wrong::Again => "with ample memory a call said that memory was refused",
            Wrong::Other => "a call answered something else than it is to answer",
            Wrong::NoRequest => "it makes no request",
            Wrong::NoEnd => "it comes to no end",
        }
    }
}

impl<T: Drop> From<AllocFailed<T>> for Wrong {
    fn from(_refused: AllocFailed<T>) -> Wrong {
        Wrong::SetUp
    }
}

/// A call, or several one after the other, on what they were set up with.
pub trait Call {
    /// Makes the next call, and tells what it answered. Only what stands between `go_on` and `hold` is refused
    /// memory.
    fn make(&mut self, refuser: &Refuser) -> Answer;

    /// Whether the call that was refused memory left what it promises to leave.
    fn is_kept(&self) -> bool {
        true
    }
}

/// Calls of which one request is refused.
#[derive(Clone, Copy)]
pub struct Trial {
    /// What the calls are made with.
    pub refuser: Refuser,
    reach: Reach,
}

impl Trial {
    /// From now on the request of this number is refused, and with that reach all after it.
    pub fn begin(alloc: Global, reach: Reach, number: u32) -> Trial {
        let refuser = Refuser::new(alloc);
        refuser.refuse(reach, number);
        Trial { refuser, reach }
    }

    /// The calls are through, and came to this: to what the trial came.
    pub fn end(&self, answer: Answer) -> Answer {
        let has_refused = self.refuser.end();
        match answer {
            Answer::Wrong(_) => answer,
            _ if has_refused => Answer::Wrong(Wrong::Hidden),
            _ => answer,
        }
    }

    /// Makes the calls one after the other, until the last one: what they came to.
    pub fn of<C: Call>(&self, call: &mut C) -> Answer {
        let mut whole = Answer::Whole;
        for _ in 0..MOST_CALLS {
            let mut answer = call.make(&self.refuser);
            if let Answer::Memory = answer {
                whole = Answer::Told;
                answer = self.again(call);
            }
            match answer {
                Answer::Goes => {}
                Answer::Whole => return whole,
                _ => return answer,
            }
        }
        Answer::Wrong(Wrong::NoEnd)
    }

    /// Makes the call that was refused memory once more, with ample memory.
    fn again<C: Call>(&self, call: &mut C) -> Answer {
        if !self.refuser.end() {
            return Answer::Wrong(Wrong::Untrue);
        }
        if !call.is_kept() {
            return Answer::Wrong(Wrong::Changed);
        }
        let answer = call.make(&self.refuser);
        if let Reach::AllAfter = self.reach {
            self.refuser.refuse(Reach::AllAfter, 1);
        }
        match answer {
            Answer::Memory => Answer::Wrong(Wrong::Again),
            _ => answer,
        }
    }
}
