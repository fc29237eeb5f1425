//! Why a command does not print what it was asked for.
ghost use Rattle.std.specs.Prelude.{◌≡◌};

use crate::stream::CutShort;
use fx_run::RunFault;
use fx_term::Memory;
use std::alloc::AllocError;

/// What is said of a text that is refused: the line of the refusal, and words for people.
#[derive(Drop)]
pub(crate) struct Refusal {
    pub(crate) line: String,
    pub(crate) words: String,
}

/// Why a command does not print what it was asked for.
#[derive(Drop)]
pub(crate) enum CommandFault<'a> {
    /// The script or the schedule is refused.
    Refused(Refusal),
    /// The text of this name cannot be read.
    Unreadable(&'a str),
    /// Memory ran out. Nothing was printed.
    Memory,
    /// There is no report of the run. Nothing was printed.
    Run(RunFault),
    /// What is printed was not taken whole: a write was refused.
    Write,
}

impl From<AllocError> for CommandFault<'_> {
    ghost use Rattle.fx_command.specs.declared.command_fault.CommandFault.TheVariants.{Memory};

    ghost from_gives = { λ _ fault. fault ≡ Memory };

    fn from(_refused: AllocError) -> Self {
        CommandFault::Memory
    }
}

impl From<Memory> for CommandFault<'_> {
    ghost use Rattle.fx_command.specs.declared.command_fault.CommandFault.TheVariants.{Memory};

    ghost from_gives = { λ _ fault. fault ≡ Memory };

    fn from(_refused: Memory) -> Self {
        CommandFault::Memory
    }
}

impl From<CutShort> for CommandFault<'_> {
    ghost use Rattle.fx_command.specs.declared.command_fault.CommandFault.TheVariants.{Write};

    ghost from_gives = { λ _ fault. fault ≡ Write };

    fn from(_refused: CutShort) -> Self {
        CommandFault::Write
    }
}

impl From<RunFault> for CommandFault<'_> {
    ghost use Rattle.fx_command.specs.declared.command_fault.CommandFault.TheVariants.{Run};

    ghost from_gives = { λ fault made. made ≡ Run fault };

    fn from(fault: RunFault) -> Self {
        CommandFault::Run(fault)
    }
}
