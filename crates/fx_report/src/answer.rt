//! What a text is answered with.
ghost use Rattle.std.specs.Prelude.{◌≡◌, IfOk, string_bytes};
ghost use Rattle.fx_text.specs.View.{meaning};
ghost use Rattle.fx_report.specs.Text.{queue_names, report_text, IsWritable};
ghost use Rattle.fx_report.specs.Status.{status_of};
ghost use Rattle.fx_report.specs.Refusal.{refusal_text};

use crate::refusal::format_refusal;
use crate::status::{REFUSED, status_after};
use crate::write::format_report;
use fx_model::Report;
use fx_text::{Script, TextFault};
use std::alloc::{AllocError, Global};

/// What a text is answered with: the status, and what is printed.
#[derive(Drop)]
pub struct Answer {
    pub status: u8,
    pub text: String,
}

impl Answer {
    /// The text is a script, whose run has this report.
    pub fn reported(alloc: Global, script: &Script, report: &Report) -> Result<Answer, AllocError>
        requires { IsWritable (queue_names (meaning script.now)) report.now }
        ensures status { IfOk result (λ answer. answer.status ≡ status_of report.now) }
        ensures text { IfOk result (λ answer. string_bytes answer.text
            ≡ report_text (queue_names (meaning script.now)) report.now) }
    {
        let text = format_report(alloc, script, report)?;
        Ok(Answer {
            status: status_after(report),
            text,
        })
    }

    /// The text is refused with this fault.
    pub fn refused(alloc: Global, fault: TextFault) -> Result<Answer, AllocError>
        ensures status { IfOk result (λ answer. answer.status ≡ REFUSED) }
        ensures text { IfOk result (λ answer. string_bytes answer.text ≡ refusal_text fault) }
    {
        let text = format_refusal(alloc, fault)?;
        Ok(Answer {
            status: REFUSED,
            text,
        })
    }
}
