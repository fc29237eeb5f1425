//! The masks and the contexts of a fiber.

use crate::harness::{Answer, Call, OTHER, Trial, whole_where};
use crate::refuser::Refuser;
use fx_frames::{Frame, Frames};
use fx_mask::{Masks, Region};
use fx_term::{Memory, NodeId};
use std::alloc::Global;

/// Many enough that what they stand in grows more than once.
const MANY: u32 = 12;

/// Which call is refused memory.
#[derive(Clone, Copy)]
pub enum PlaceCall {
    Enter,
    Seal,
    Push,
}

/// Has the calls tried.
pub fn tried(alloc: Global, of: PlaceCall, trial: &Trial) -> Answer {
    match of {
        PlaceCall::Enter => trial.of(&mut Entering {
            masks: Masks::new(alloc),
            entered: 0,
        }),
        PlaceCall::Seal => trial.of(&mut Sealing {
            masks: Masks::new(alloc),
            seals: 0,
        }),
        PlaceCall::Push => trial.of(&mut Pushing {
            frames: Frames::new(alloc),
            pushed: 0,
        }),
    }
}

#[derive(Drop)]
struct Entering {
    masks: Masks,
    entered: u64,
}

impl Call for Entering {
    fn make(&mut self, refuser: &Refuser) -> Answer {
        self.entered = self.masks.entries();
        if self.entered > u64::from(MANY) {
            return OTHER;
        }
        refuser.go_on();
        let region = self.masks.enter();
        refuser.hold();
        match region {
            Err(Memory) => Answer::Memory,
            Ok(Region(number)) if number != self.entered => OTHER,
            Ok(_) if self.entered == u64::from(MANY) => Answer::Whole,
            Ok(_) => Answer::Goes,
        }
    }

    fn is_kept(&self) -> bool {
        self.masks.entries() == self.entered && self.masks.is_open() == (self.entered == 0)
    }
}

#[derive(Drop)]
struct Sealing {
    masks: Masks,
    seals: u32,
}

impl Call for Sealing {
    fn make(&mut self, refuser: &Refuser) -> Answer {
        refuser.go_on();
        let sealed = self.masks.seal();
        refuser.hold();
        if sealed.is_err() {
            return Answer::Memory;
        }
        self.seals = self.seals.saturating_add(1);
        if self.masks.is_open() {
            return OTHER;
        }
        if self.seals == MANY {
            return Answer::Whole;
        }
        Answer::Goes
    }

    fn is_kept(&self) -> bool {
        self.masks.entries() == 0 && self.masks.is_open() == (self.seals == 0)
    }
}

#[derive(Drop)]
struct Pushing {
    frames: Frames,
    pushed: u32,
}

/// The context of that number.
fn frame(number: u32) -> Frame {
    Frame::Loop(NodeId(number), number)
}

/// Whether the contexts come out as they went in.
fn come_out(frames: &mut Frames) -> bool {
    for number in (0..MANY).rev() {
        if frames.pop() != Some(frame(number)) {
            return false;
        }
    }
    frames.pop().is_none()
}

impl Call for Pushing {
    fn make(&mut self, refuser: &Refuser) -> Answer {
        refuser.go_on();
        let pushed = self.frames.push(frame(self.pushed));
        refuser.hold();
        if pushed.is_err() {
            return Answer::Memory;
        }
        self.pushed = self.pushed.saturating_add(1);
        if self.pushed < MANY {
            return Answer::Goes;
        }
        whole_where(come_out(&mut self.frames))
    }

    fn is_kept(&self) -> bool {
        match self.frames.last() {
            Some(last) => self.pushed > 0 && *last == frame(self.pushed.saturating_sub(1)),
            None => self.pushed == 0,
        }
    }
}
