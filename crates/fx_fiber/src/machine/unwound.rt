//! The clean-ups of a fiber that was canceled.
ghost use Rattle.std.specs.Prelude.{◌≡◌, ◌∷◌, [], IfOk, MatchOption};
ghost use Rattle.fx_fiber.specs.Machine.{resource_of};

use fx_frames::{Cleanup, Unwinding};
use fx_term::Memory;
use std::alloc::Global;

/// The clean-ups of a fiber that was canceled, and which it is in.
#[derive(Drop)]
pub struct Unwound {
    /// The number of the resource that is released, where the clean-up is a release.
    pub resource: Option<u64>,
    /// The clean-ups that are left.
    pub left: Unwinding,
}

impl Unwound {
    /// The same in memory of its own.
    pub fn copied(&self, alloc: Global) -> Result<Unwound, Memory>
        ensures { IfOk result (λ copy. copy ≡ self.now) }
    {
        Ok(Unwound {
            resource: self.resource,
            left: self.left.copied(alloc)?,
        })
    }

    /// Takes the next clean-up, which is the one that the fiber is in from now on.
    pub fn next(&mut self) -> Option<Cleanup>
        ensures { MatchOption result ((self.old.left ≡ []) × (self.new.left ≡ []))
            (λ cleanup. (self.old.left ≡ cleanup ∷ self.new.left)
            × (self.new.resource ≡ resource_of cleanup)) }
    {
        let next = self.left.next();
        self.resource = match next {
            Some(Cleanup::Release(number, _)) => Some(number),
            Some(Cleanup::Finalizer(_)) | None => None,
        };
        next
    }
}
