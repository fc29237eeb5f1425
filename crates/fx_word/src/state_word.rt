//! Two words of a fiber as numbers: its state, and the number that it ended with.
ghost use Rattle.std.specs.Prelude.{◌≡◌, Bool, Option, Some};
ghost use Rattle.fx_term.specs.declared.outcome.Outcome as outcome;
ghost use Rattle.fx_word.specs.StateWord.{state_word, kind_in, end_kind, value_of};
ghost use Rattle.fx_word.specs.StateWord as word;

use fx_term::Outcome;

/// The bit of a state word that is set by a request. The two above it are the done bits.
pub(crate) const REQUESTED: u64 = 1;

/// How a fiber ended, without its number: what the done bits tell.
#[derive(Clone, Copy)]
pub enum EndKind {
    Succeeded,
    Errored,
    Canceled,
}

/// A state word as it was found.
#[derive(Clone, Copy)]
pub(crate) struct StateWord(pub u64);

impl StateWord {
    /// Whether the fiber is requested.
    pub fn is_requested(self) -> bool
        ensures { (b : Bool) (o : Option outcome.Outcome) → self.0 ≡ state_word b o → result ≡ b }
    {
        self.0 % 2 == REQUESTED
    }

    /// Of what kind the fiber's end is, if it has ended.
    pub fn end(self) -> Option<EndKind>
        ensures { (b : Bool) (o : Option outcome.Outcome) → self.0 ≡ state_word b o → result ≡ kind_in o }
    {
        match self.0 / 2 {
            0 => None,
            1 => Some(EndKind::Succeeded),
            2 => Some(EndKind::Errored),
            _ => Some(EndKind::Canceled),
        }
    }
}

/// The done bits of a fiber that ended so.
pub(crate) fn done_bits(outcome: Outcome) -> u64
    ensures { result ≡ word.done_bits (Some outcome) }
{
    match outcome {
        Outcome::Succeeded(_) => 2,
        Outcome::Errored(_) => 4,
        Outcome::Canceled => 6,
    }
}

/// The number that a fiber ends with, 0 where it was canceled.
pub(crate) fn value_word(outcome: Outcome) -> u64
    ensures { result ≡ value_of outcome }
{
    match outcome {
        Outcome::Succeeded(value) | Outcome::Errored(value) => value,
        Outcome::Canceled => 0,
    }
}

/// The outcome of this kind, with this number.
pub(crate) fn outcome_of(kind: EndKind, value: u64) -> Outcome
    ensures { (o : outcome.Outcome) → end_kind o ≡ kind → value_of o ≡ value → result ≡ o }
{
    match kind {
        EndKind::Succeeded => Outcome::Succeeded(value),
        EndKind::Errored => Outcome::Errored(value),
        EndKind::Canceled => Outcome::Canceled,
    }
}
