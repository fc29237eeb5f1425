//! Why a run has no report.
ghost use Rattle.std.specs.Prelude.{◌≡◌};

use fx_term::Memory;
use std::alloc::AllocError;
use thiserror::Error;

/// Why a run has no report.
#[derive(Clone, Copy, PartialEq, Eq, Debug, Error)]
pub enum RunFault {
    /// The number of workers is not from 1 to 64.
    #[error("the number of workers is not from 1 to 64")]
    Workers,
    /// Memory ran out, or the thread of a worker could not be started.
    #[error("out of memory")]
    Memory,
    /// This fiber is missing: it is the main one, or another one started it.
    #[error("fiber {0} is lost")]
    Lost(u32),
    /// This fiber could still step.
    #[error("fiber {0} is unsettled")]
    Unsettled(u32),
}

impl RunFault {
    ghost use Rattle.fx_run.specs.RunFault.{run_fault_number};

    /// Its number, which never changes.
    pub fn number(&self) -> u8
        ensures { result ≡ run_fault_number self.now }
    {
        match self {
            RunFault::Workers => 1,
            RunFault::Memory => 2,
            RunFault::Lost(_) => 3,
            RunFault::Unsettled(_) => 4,
        }
    }
}

impl From<Memory> for RunFault {
    ghost use Rattle.fx_run.specs.declared.run_fault.RunFault.TheVariants.{Memory};

    ghost from_gives = { λ _ fault. fault ≡ Memory };

    fn from(_refused: Memory) -> RunFault {
        RunFault::Memory
    }
}
