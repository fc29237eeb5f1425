//! Laws of reports and their texts.
ghost use Rattle.std.specs.Prelude.{ℕ, Bool, length};
ghost use Rattle.fx_term.specs.QueuesNamed.{NamesQueuesBelow};
ghost use Rattle.fx_model.specs.Report.{ReportView};
ghost use Rattle.fx_model.specs.LawfulReport.{IsLawfulReport};
ghost use Rattle.fx_text.specs.Meaning.{Meaning};
ghost use Rattle.fx_report.specs.Script.{script_of};
ghost use Rattle.fx_report.specs.Text.{queue_names, IsWritable};

/// A lawful report of a script is writable, so who proves a report lawful may print it. The script's
/// term names no queue but the script's, as each that is read from a text does.
pub fn lawful_report_is_writable()
    ensures { (m : Meaning) (may : ℕ → Bool) (r : ReportView)
        → NamesQueuesBelow (length m.queues) m.term → IsLawfulReport (script_of m) may r
        → IsWritable (queue_names m) r }
{}
