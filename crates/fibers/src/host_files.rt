//! The files of the machine.

use fx_command::files::{FetchFault, Files, STANDARD_INPUT};
use std::fs::{self, File};
use std::io::{self, ErrorKind, Read, StdinLock};

/// The files of the machine, with standard input.
#[derive(Drop)]
pub(crate) struct HostFiles<'a> {
    pub(crate) rt: &'a HostRuntime,
}

/// A file of the machine, or standard input.
#[derive(Drop)]
pub(crate) enum HostInput {
    Standard(StdinLock<'static>),
    File(File),
}

impl Read for HostInput {
    fn read(&mut self, buf: &mut [u8]) -> io::Result<usize> {
        match self {
            HostInput::Standard(input) => input.read(buf),
            HostInput::File(file) => file.read(buf),
        }
    }
}

impl Files for HostFiles<'_> {
    ghost use Rattle.std.specs.Prelude.{None};

    type Input = HostInput;

    ghost holds = { λ files name. None };

    fn fetch(&mut self, name: &str) -> Result<HostInput, FetchFault> {
        if name == STANDARD_INPUT {
            return Ok(HostInput::Standard(self.rt.reader()));
        }
        match fs::open(self.rt, name) {
            Ok(file) => Ok(HostInput::File(file)),
            Err(error) => Err(match error.kind() {
                ErrorKind::OutOfMemory => FetchFault::Memory,
                _ => FetchFault::Unreadable,
            }),
        }
    }
}
