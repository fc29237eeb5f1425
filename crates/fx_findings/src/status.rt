//! The status after a search of a script's runs.
ghost use Rattle.std.specs.Prelude.{◌≡◌};
ghost use Rattle.fx_findings.specs.Status.{has_blocked, ending_status, explored_status};

use crate::explored::{Explored, Finding};
use fx_report::{BLOCKED, ENDED};
use fx_search::Ending;

/// A search did not go on from each state that it met, and found no report in which a fiber waits for good.
pub const INCOMPLETE: u8 = 6;

/// Whether a fiber is blocked in one of them.
fn has_blocked(findings: &[Finding]) -> bool
    ensures { result ≡ has_blocked findings.now }
{
    findings.iter().any(|finding| finding.told.is_blocked())
}

/// The status where no report has a blocked fiber.
pub(crate) fn ending_status(ending: Ending) -> u8
    ensures { result ≡ ending_status ending }
{
    match ending {
        Ending::Exhausted => ENDED,
        Ending::Limit | Ending::Memory => INCOMPLETE,
    }
}

/// The status of what was found: that of a run in which a fiber waits for good where there is such a report, however far
/// the search came.
pub fn explored_status(explored: &Explored) -> u8
    ensures { result ≡ explored_status explored.now }
{
    if has_blocked(&explored.findings) {
        BLOCKED
    } else {
        ending_status(explored.ending)
    }
}
