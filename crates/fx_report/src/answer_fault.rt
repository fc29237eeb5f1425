//! Why a text was not answered, or not whole.
ghost use Rattle.std.specs.Prelude.{◌≡◌};

use crate::out_fault::OutFault;
use fx_term::Memory;
use std::alloc::AllocError;
use thiserror::Error;

/// Why a text was not answered, or its answer not written whole.
#[derive(Clone, Copy, PartialEq, Eq, Debug, Error)]
pub enum AnswerFault {
    /// The reader answered an error. Nothing was written.
    #[error("the text cannot be read")]
    Read,
    /// The writer answered an error, or took no byte. A prefix of the text was written.
    #[error("the report cannot be written")]
    Write,
    /// Memory ran out. Nothing was written.
    #[error("out of memory")]
    Memory,
}

impl AnswerFault {
    ghost use Rattle.fx_report.specs.AnswerFault.{answer_fault_number};

    /// Its number, which never changes.
    pub fn number(&self) -> u8
        ensures { result ≡ answer_fault_number self.now }
    {
        match self {
            AnswerFault::Read => 1,
            AnswerFault::Write => 2,
            AnswerFault::Memory => 3,
        }
    }
}

impl From<Memory> for AnswerFault {
    ghost use Rattle.fx_report.specs.declared.answer_fault.AnswerFault.TheVariants.{Memory};

    ghost from_gives = { λ _ fault. fault ≡ Memory };

    fn from(_refused: Memory) -> AnswerFault {
        AnswerFault::Memory
    }
}

impl From<OutFault> for AnswerFault {
    ghost use Rattle.fx_report.specs.declared.answer_fault.AnswerFault.TheVariants.{Write, Memory};
    ghost use Rattle.fx_report.specs.Output.{fault_of_writing};

    ghost from_gives = { λ fault made. made ≡ fault_of_writing Write Memory fault };

    fn from(fault: OutFault) -> AnswerFault {
        match fault {
            OutFault::Write => AnswerFault::Write,
            OutFault::Memory => AnswerFault::Memory,
        }
    }
}

impl From<AllocError> for AnswerFault {
    ghost use Rattle.fx_report.specs.declared.answer_fault.AnswerFault.TheVariants.{Memory};

    ghost from_gives = { λ _ fault. fault ≡ Memory };

    fn from(_refused: AllocError) -> AnswerFault {
        AnswerFault::Memory
    }
}
