//! Laws of what is found, and of what is printed. A function here does nothing: its contract is the law.
ghost use Rattle.std.specs.Prelude.{◌≡◌, ◌≤◌, ◌==◌, ℕ, false, List, ◌∷◌, ◌++◌, All, IfSome, length};
ghost use Rattle.std.specs.List.{flat_map};
ghost use Rattle.fx_term.specs.Lists.{Among};
ghost use Rattle.fx_term.specs.Script.{ScriptView};
ghost use Rattle.fx_model.specs.Report.{ReportView};
ghost use Rattle.fx_text.specs.declared.pick.Pick.{Pick};
ghost use Rattle.fx_text.specs.Limits.{most_picks};
ghost use Rattle.fx_text.specs.Schedule.{IsSchedule};
ghost use Rattle.fx_report.specs.Status.{status_of};
ghost use Rattle.fx_report.specs.Text.{line_end, report_text};
ghost use Rattle.fx_report.specs.declared.status.TheConstants.{ENDED};
ghost use Rattle.fx_plain.specs.Chosen.{IsReplay};
ghost use Rattle.fx_plain.specs.SettledRun.{HasSettledRun};
ghost use Rattle.fx_explore.specs.Setting.{Setting};
ghost use Rattle.fx_explore.specs.Told.{told_of};
ghost use Rattle.fx_findings.specs.declared.explored.Finding.{Finding};
ghost use Rattle.fx_findings.specs.declared.explored.Explored.{Explored};
ghost use Rattle.fx_findings.specs.declared.compared.TheConstants.{UNEXPECTED};
ghost use Rattle.fx_findings.specs.declared.status.TheConstants.{INCOMPLETE};
ghost use Rattle.fx_findings.specs.Expected.{report_of, reports_of};
ghost use Rattle.fx_findings.specs.Compared.{compared_status, TellsUnexpected};
ghost use Rattle.fx_findings.specs.Answer.{IsExplored};
ghost use Rattle.fx_findings.specs.Explored.{view_told, schedule_of, IsFinding, IsReportWithin};
ghost use Rattle.fx_findings.specs.Printed.{TellsSo, HasSmallNumber};
ghost use Rattle.fx_findings.specs.PrintedReports.{SaysComplete, IsPrinted};
ghost use Rattle.fx_findings.specs.Status.{explored_status};
ghost use Rattle.fx_findings.specs.Text.{picks_text, explored_text};

/// What is printed of a report is what is told of it, and its status is that of a fiber that waits for good
/// exactly where one is told as blocked.
pub fn report_is_told_as_it_is_printed()
    ensures { (s : ScriptView) (r : ReportView) (names : List (List ℕ)) → HasSettledRun s r
        → TellsSo names (told_of r) (report_text names r) (status_of r) }
{}

/// So is what a replay prints under the schedule of a finding what is told of the finding.
pub fn finding_is_replayed()
    ensures { (s : Setting) (x : Finding) (names : List (List ℕ)) → IsFinding s x
        → IfSome (schedule_of x) (λ ps. (r : ReportView) → IsReplay s.script ps r
        → TellsSo names (view_told x.told) (report_text names r) (status_of r)) }
{}

/// What stands in the line of a schedule after its first word is the text of a schedule, of just its picks,
/// if these are no more than a schedule may have.
pub fn printed_schedule_is_read()
    ensures { (ps : List Pick) → All HasSmallNumber ps → length ps ≤ most_picks
        → IsSchedule (picks_text ps) ps }
{}

/// Where all findings of a complete search are expected, the text says the report of each run in which nobody but
/// the target is requested from outside.
pub fn each_report_is_expected()
    ensures { (s : Setting) (most : ℕ) (e : Explored) (names : List (List ℕ)) (expected : List ℕ)
        → IsExplored s most e → compared_status names expected e ≡ ENDED
        → (r : ReportView) → IsReportWithin s r
        → Among (report_text names r) (reports_of expected) }
{}

/// Where one is not, what is printed is the report of such a run, which the text does not say, and that not all are.
pub fn unexpected_report_is_told()
    ensures { (s : Setting) (most : ℕ) (e : Explored) (names : List (List ℕ)) (expected : List ℕ)
        → IsExplored s most e → compared_status names expected e ≡ UNEXPECTED
        → TellsUnexpected s names expected e }
{}

/// A text that begins with lines, none of them empty, and an empty line, says first the report that these are without
/// the lines of schedules and searches, if any is left, and then what the rest says.
pub fn report_is_read()
    ensures { (lines : List (List ℕ)) (rest : List ℕ)
        → All (λ (line : List ℕ). All (λ b. (b == 10) ≡ false) line) lines
        → All (λ (line : List ℕ). (length line == 0) ≡ false) lines
        → (length (report_of lines) == 0) ≡ false
        → reports_of (flat_map (λ (line : List ℕ). line ++ line_end) lines ++ line_end ++ rest)
        ≡ report_of lines ∷ reports_of rest }
{}

/// Where the last line that is printed of a search says that it is complete, the report of each run in which nobody but the
/// target is requested from outside stands there, byte for byte, behind the line of a schedule by which a replay prints it, or the line that
/// none is known.
pub fn complete_search_prints_each_report()
    ensures { (s : Setting) (most : ℕ) (e : Explored) (names : List (List ℕ))
        → IsExplored s most e → SaysComplete (explored_text names e)
        → (r : ReportView) → IsReportWithin s r → IsPrinted s.script names r (explored_text names e) }
{}

/// Status 0 after a search says that its last line says so, and that in no such run a fiber is blocked.
pub fn passed_search_is_complete()
    ensures complete { (s : Setting) (most : ℕ) (e : Explored) (names : List (List ℕ))
        → IsExplored s most e → explored_status e ≡ ENDED → SaysComplete (explored_text names e) }
    ensures ended { (s : Setting) (most : ℕ) (e : Explored)
        → IsExplored s most e → explored_status e ≡ ENDED
        → (r : ReportView) → IsReportWithin s r → status_of r ≡ ENDED }
{}

/// The numbers of the statuses, which never change.
pub fn statuses_have_their_numbers()
    ensures incomplete { INCOMPLETE ≡ 6 }
    ensures unexpected { UNEXPECTED ≡ 1 }
{}
