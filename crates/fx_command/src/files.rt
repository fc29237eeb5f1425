//! The texts that the program reads, by name.
ghost use Rattle.std.specs.Prelude.{◌≡◌, ◌≢◌, Option, List, ℕ, IfOk, codes};

use std::io::Read;
use thiserror::Error;

/// Why there is no reader of a text.
#[derive(Clone, Copy, PartialEq, Eq, Debug, Error)]
pub enum FetchFault {
    /// There is no text of that name, or it may not be read.
    #[error("the text cannot be read")]
    Unreadable,
    /// Memory ran out.
    #[error("out of memory")]
    Memory,
}

impl FetchFault {
    ghost use Rattle.fx_command.specs.FetchFault.{fetch_fault_number};

    /// Its number, which never changes.
    pub fn number(&self) -> u8
        ensures { result ≡ fetch_fault_number self.now }
    {
        match self {
            FetchFault::Unreadable => 1,
            FetchFault::Memory => 2,
        }
    }
}

/// The name of standard input, where a text is named.
pub const STANDARD_INPUT: &str = "-";

/// Where texts are fetched from by name.
pub trait Files {
    /// What a text is read from.
    type Input: Read + Drop;

    // the text of that name, where it is known
    ghost holds: { Self → List ℕ → Option (List ℕ) };

    /// A reader at the beginning of the text of that name. `-` is standard input, which is read once:
    /// no other text changes by a fetch.
    fn fetch(&mut self, name: &str) -> Result<Self::Input, FetchFault>
        ensures input { IfOk result
            (λ input. Self.Input.remaining input ≡ holds self.old name.now) }
        ensures kept { (other : List ℕ) → other ≢ codes "-"
            → holds self.new other ≡ holds self.old other };
}
