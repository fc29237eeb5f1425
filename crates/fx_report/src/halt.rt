//! What there is once a run has halted.

use crate::blocked::Blocked;
use fx_model::Report;

/// What there is once no fiber of a run can step any more: the report, and what each fiber waits for that
/// is blocked and where it stands, in the report's order.
#[derive(Drop)]
pub struct Halt {
    pub report: Report,
    pub blocked: Vec<Blocked>,
}
