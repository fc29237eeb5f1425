//! What a script comes to.
ghost use Rattle.std.specs.Prelude.{◌≤◌, length};
ghost use Rattle.fx_text.specs.View.{meaning};
ghost use Rattle.fx_report.specs.Text.{queue_names, IsWritable};

use fx_fiber::Report;
use fx_plain::replay;
use fx_report::write_report;
use fx_text::Script;
use std::alloc::{AllocError, Global};

/// Room for all that a row has written, so that no writer requests memory.
pub fn room(alloc: Global) -> Result<Vec<u8>, AllocError> {
    Vec::with_capacity(alloc, 4096)
}

/// Whether the report of the script is written so.
pub fn is_written(alloc: Global, script: &Script, report: &Report, text: &str) -> bool
    requires { IsWritable (queue_names (meaning script.now)) report.now }
{
    let mut written = Vec::new(alloc);
    match write_report(alloc, script, report, &mut written) {
        Ok(()) => written.as_slice() == text.as_bytes(),
        Err(_) => false,
    }
}

/// Whether a replay of the script has this report.
pub fn is_replayed(alloc: Global, script: &Script, text: &str) -> bool
    requires { script.now.code.queues ≤ length script.now.queues.items }
{
    match replay(alloc, script, &[]) {
        Ok(report) => is_written(alloc, script, &report, text),
        Err(_) => false,
    }
}
