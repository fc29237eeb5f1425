//! Laws of lawful reports. A function here does nothing: its contract is the law.
ghost use Rattle.std.specs.Prelude.{ℕ, Bool};
ghost use Rattle.fx_term.specs.Forms.{IsCore};
ghost use Rattle.fx_term.specs.Script.{ScriptView};
ghost use Rattle.fx_model.specs.Report.{ReportView};
ghost use Rattle.fx_model.specs.LawfulReport.{IsLawfulReport};
ghost use Rattle.fx_model.specs.Headline.{HoldsWhatIsPromised};
ghost use Rattle.fx_model.specs.Causes.{FindsItsCauses};

/// A lawful report accounts for each element of each queue; the trace of each fiber that has ended
/// stops at its outcome, and released each resource that it acquired once, inner before outer; and
/// cancellation acted only where each mask round it was opened by its own poll. All this is so whether
/// the other fibers have ended or wait for good.
pub fn lawful_report_holds()
    ensures { (s : ScriptView) (may : ℕ → Bool) (r : ReportView) → IsCore s.term
        → (lawful : IsLawfulReport s may r) → HoldsWhatIsPromised s r lawful.runs }
{}

/// In each lawful report what an event stands on is there: what was taken out of a queue was put into
/// it, with the same value, what was learnt is told as an end by the fiber that ended, and each fiber
/// but the main one was started by its parent.
pub fn causes_are_found()
    ensures { (s : ScriptView) (may : ℕ → Bool) (r : ReportView)
        → (lawful : IsLawfulReport s may r) → FindsItsCauses s may r lawful }
{}
