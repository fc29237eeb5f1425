//! Laws of the reports of runs that have ended.
ghost use Rattle.std.specs.Prelude.{ℕ, Bool, false, List};
ghost use Rattle.fx_term.specs.Forms.{IsCore};
ghost use Rattle.fx_term.specs.Script.{ScriptView};
ghost use Rattle.fx_model.specs.Report.{ReportView, AllEnded};
ghost use Rattle.fx_model.specs.LawfulReport.{IsLawfulReport};
ghost use Rattle.fx_model.specs.Headline.{KeepsWhatIsPromised};
ghost use Rattle.fx_fiber.specs.Bare.{BareView};
ghost use Rattle.fx_run.specs.Reported.{IsLost, NoneIsLost};
ghost use Rattle.fx_run.specs.EndOfRun.{EndsWithReport};
ghost use Rattle.fx_run.specs.Refusals.{IsLawfulWithRefusals};
ghost use Rattle.fx_run.specs.Example.{example_script, example_report};
ghost use Rattle.fx_run.specs.FalseRefusal.{false_script, false_report};

/// The report is lawful with which a run ends that parted all its fibers from their ports, gathered
/// what these had, and closed the words and the queues with that.
pub fn end_of_run_is_lawful()
    ensures { (s : ScriptView) (may : ℕ → Bool) (r : ReportView) → EndsWithReport s may r
        → IsLawfulReport s may r }
{}

/// Such a report accounts for each element of each queue; the trace of each fiber that has ended stops
/// at its outcome, and released each resource that it acquired once, inner before outer; and
/// cancellation acted only where each mask round it was opened by its own poll.
pub fn end_of_run_keeps_what_is_promised()
    ensures { (s : ScriptView) (may : ℕ → Bool) (r : ReportView) → IsCore s.term
        → EndsWithReport s may r → KeepsWhatIsPromised s may r }
{}

/// That no fiber is lost says just that none is: the main one is given, and each that a trace starts.
pub fn lost_or_whole()
    ensures whole { (bares : List BareView) → ((f : ℕ) → IsLost bares f → ⊥) → NoneIsLost bares }
    ensures none { (bares : List BareView) → NoneIsLost bares → (f : ℕ) → IsLost bares f → ⊥ }
{}

/// The premises of these laws can be met, also where all fibers have ended: by a run of two fibers of
/// which the first puts an element into a queue, starts the second and cancels it, and the second
/// takes the element, sees the request and is canceled.
pub fn premises_can_be_met()
    ensures ends { EndsWithReport example_script (λ f. false) example_report }
    ensures core { IsCore example_script.term }
    ensures ended { AllEnded example_report }
{}

/// A refusal that cannot have been is told by a report that the rules of each fiber let through: of a
/// fiber that is alone, offers an element to an empty queue with room for four, and is refused. No
/// histories by which that report is lawful make its refusal true.
pub fn false_refusals_are_not_true()
    ensures lawful { (may : ℕ → Bool) → IsLawfulReport false_script may false_report }
    ensures refused { (may : ℕ → Bool) → IsLawfulWithRefusals false_script may false_report → ⊥ }
{}
