//! Why a text was not written whole.
ghost use Rattle.std.specs.Prelude.{◌≡◌};

use fx_term::Memory;
use std::alloc::AllocError;
use thiserror::Error;

/// Why a text was not written, or not whole.
#[derive(Clone, Copy, PartialEq, Eq, Debug, Error)]
pub enum OutFault {
    /// The writer answered an error, or took no byte. A prefix of the text was written.
    #[error("the text cannot be written")]
    Write,
    /// Memory ran out. Nothing was written.
    #[error("out of memory")]
    Memory,
}

impl OutFault {
    ghost use Rattle.fx_report.specs.Output.{out_fault_number};

    /// Its number, which never changes.
    pub fn number(&self) -> u8
        ensures { result ≡ out_fault_number self.now }
    {
        match self {
            OutFault::Write => 1,
            OutFault::Memory => 2,
        }
    }
}

impl From<AllocError> for OutFault {
    ghost use Rattle.fx_report.specs.declared.out_fault.OutFault.TheVariants.{Memory};

    ghost from_gives = { λ _ fault. fault ≡ Memory };

    fn from(_refused: AllocError) -> OutFault {
        OutFault::Memory
    }
}

impl From<Memory> for OutFault {
    ghost use Rattle.fx_report.specs.declared.out_fault.OutFault.TheVariants.{Memory};

    ghost from_gives = { λ _ fault. fault ≡ Memory };

    fn from(_refused: Memory) -> OutFault {
        OutFault::Memory
    }
}
