//! What is told of a lawful report is so by runs that make it lawful. A function here does nothing: its contract is the
//! law.
ghost use Rattle.std.specs.Prelude.{◌≡◌, ℕ, Bool, List};
ghost use Rattle.fx_term.specs.declared.node.Node.{Node};
ghost use Rattle.fx_term.specs.Script.{ScriptView};
ghost use Rattle.fx_model.specs.LawfulReport.{IsLawfulReport};
ghost use Rattle.fx_model.specs.Report.{ReportView};
ghost use Rattle.fx_follow.specs.declared.stand.Stand.{Stand};
ghost use Rattle.fx_follow.specs.Followed.{AreFollowed, AreToldBy};

/// A lawful report of which something is told is lawful by runs of which that is told.
pub fn told_runs_make_the_report_lawful()
    ensures { (nodes : List Node) (s : ScriptView) (may : ℕ → Bool) (r : ReportView) (told : List (List Stand))
        → IsLawfulReport s may r → AreFollowed nodes s r told
        → (lawful : IsLawfulReport s may r) × AreToldBy nodes s r lawful.runs told }
{}
