//! Why there is no picture.

use fx_term::Memory;
use std::alloc::AllocError;
use thiserror::Error;

/// Why a report has no picture.
#[derive(Clone, Copy, PartialEq, Eq, Debug, Error)]
pub enum PictureFault {
    /// It has more than [`MOST_EVENTS`](crate::MOST_EVENTS) events or as many fibers.
    #[error("too many events for a picture")]
    TooLarge,
    /// Memory ran out.
    #[error("out of memory")]
    Memory,
}

impl From<Memory> for PictureFault {
    ghost use Rattle.std.specs.Prelude.{◌≡◌};
    ghost use Rattle.fx_picture.specs.declared.fault.PictureFault.TheVariants.{Memory};

    ghost from_gives = { λ _ fault. fault ≡ Memory };

    fn from(_refused: Memory) -> PictureFault {
        PictureFault::Memory
    }
}

impl From<AllocError> for PictureFault {
    ghost use Rattle.std.specs.Prelude.{◌≡◌};
    ghost use Rattle.fx_picture.specs.declared.fault.PictureFault.TheVariants.{Memory};

    ghost from_gives = { λ _ fault. fault ≡ Memory };

    fn from(_refused: AllocError) -> PictureFault {
        PictureFault::Memory
    }
}
