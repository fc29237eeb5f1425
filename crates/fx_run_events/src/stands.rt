//! Where the fibers of a run stood, as it is found again.
ghost use Rattle.std.specs.Prelude.{IfOk};
ghost use Rattle.fx_text.specs.View.{meaning};
ghost use Rattle.fx_report.specs.Script.{script_of};
ghost use Rattle.fx_follow.specs.Followed.{stands_of};
ghost use Rattle.fx_run_events.specs.Found.{AreFollowedOrNone};

use fx_follow::{Stand, follow};
use fx_model::{FiberReport, Report};
use fx_picture::MOST_EVENTS;
use fx_term::Memory;
use fx_text::Script;
use std::alloc::Global;

/// Whether a picture can have so many events as these fibers showed.
pub(crate) fn are_few(fibers: &[FiberReport]) -> bool {
    let mut left = MOST_EVENTS;
    for fiber in fibers {
        match left.checked_sub(fiber.trace.len()) {
            Some(fewer) => left = fewer,
            None => return false,
        }
    }
    true
}

/// Where the fibers of a report stood before each step that showed an event, if that is found: fiber by fiber, and else nothing.
/// It is not looked for in a report with more events than a picture can have.
pub fn stands_told(
    alloc: Global,
    script: &Script,
    report: &Report,
) -> Result<Vec<Vec<Stand>>, Memory>
    ensures { IfOk result (λ told. AreFollowedOrNone script.now.code.nodes (script_of (meaning script.now))
        report.now (stands_of told.items)) }
{
    if !are_few(&report.fibers) {
        return Ok(Vec::new(alloc));
    }
    match follow(alloc, script, report)? {
        Some(told) => Ok(told),
        None => Ok(Vec::new(alloc)),
    }
}
