//! The clean-ups of contexts that were given up.
ghost use Rattle.std.specs.Prelude.{◌≡◌, [], ◌∷◌, reverse, option_to_list, IfOk, MatchOption};
ghost use Rattle.fx_frames.specs.Frames.{cleanups_of};

use crate::cleanup::Cleanup;
use crate::frame::Frame;
use fx_term::Memory;
use std::alloc::Global;
use std::marker::Model;

/// The clean-ups that are left of contexts that were given up, seen as the list of them, the
/// innermost first.
#[derive(Drop)]
pub struct Unwinding {
    items: Vec<Frame>,
}

impl Model for Unwinding {
    ghost use Rattle.std.specs.Prelude.{List, reverse};
    ghost use Rattle.fx_frames.specs.declared.cleanup.Cleanup.{Cleanup};
    ghost use Rattle.fx_frames.specs.Frames.{cleanups_of};

    ghost Value = { List Cleanup };

    ghost view = { λ u. cleanups_of (reverse u.items.items) };
}

/// The clean-up of a context, if it has one.
fn cleanup_of(frame: Frame) -> Option<Cleanup>
    ensures { cleanups_of (frame ∷ []) ≡ option_to_list result }
{
    match frame {
        Frame::OnCancel(finalizer) => Some(Cleanup::Finalizer(finalizer)),
        Frame::Using(resource, release) => Some(Cleanup::Release(resource, release)),
        Frame::UsingCase(resource, _, canceled) => Some(Cleanup::Release(resource, canceled)),
        Frame::Let(..)
        | Frame::Handle(..)
        | Frame::Acquire(_)
        | Frame::AcquireCase(_)
        | Frame::Releasing(..)
        | Frame::Masked
        | Frame::Opened(..)
        | Frame::Loop(..) => None,
    }
}

impl Unwinding {
    /// The clean-ups of these contexts, of which the innermost is the last.
    pub(crate) fn of(items: Vec<Frame>) -> Unwinding
        ensures { result ≡ cleanups_of (reverse items.items) }
    {
        Unwinding { items }
    }

    /// The same clean-ups in memory of their own.
    pub fn copied(&self, alloc: Global) -> Result<Unwinding, Memory>
        ensures { IfOk result (λ copy. copy ≡ self.now) }
    {
        Ok(Unwinding {
            items: Vec::from_slice(alloc, &self.items)?,
        })
    }

    /// Takes the next clean-up.
    pub fn next(&mut self) -> Option<Cleanup>
        ensures { MatchOption result ((self.old ≡ []) × (self.new ≡ []))
            (λ cleanup. self.old ≡ cleanup ∷ self.new) }
    {
        while let Some(frame) = self.items.pop() {
            if let Some(cleanup) = cleanup_of(frame) {
                return Some(cleanup);
            }
        }
        None
    }
}
