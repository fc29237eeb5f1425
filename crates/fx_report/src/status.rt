//! The statuses of answers, each number once.
ghost use Rattle.std.specs.Prelude.{◌≡◌};
ghost use Rattle.fx_report.specs.Status.{status_of};

use fx_model::Report;

/// All fibers of the run have ended, or what was asked for needed no run.
pub const ENDED: u8 = 0;

/// A fiber of the run waits for good.
pub const BLOCKED: u8 = 1;

/// A program was called by words that it does not know.
pub const OTHER_WORDS: u8 = 2;

/// A text is refused.
pub const REFUSED: u8 = 3;

/// A text cannot be read.
pub const UNREADABLE: u8 = 4;

/// There was any other fault.
pub const FAULT: u8 = 5;

/// The status after a run with this report.
pub fn status_after(report: &Report) -> u8
    ensures { result ≡ status_of report.now }
{
    if report.all_ended() { ENDED } else { BLOCKED }
}
