//! What is told of the events of a run is so. A function here does nothing: its contract is the law.
ghost use Rattle.std.specs.Prelude.{◌≡◌, ℕ, Bool, List, Option, Some, slice_get};
ghost use Rattle.fx_term.specs.declared.event.Event.{Event};
ghost use Rattle.fx_term.specs.declared.node.Node.{Node};
ghost use Rattle.fx_term.specs.Script.{ScriptView};
ghost use Rattle.fx_model.specs.LawfulReport.{IsLawfulReport};
ghost use Rattle.fx_model.specs.Report.{ReportView, trace_in};
ghost use Rattle.fx_model.specs.ReportStamps.{IsStampedReport, stamp_in};
ghost use Rattle.fx_model.specs.Stamps.{IsBelowTop};
ghost use Rattle.fx_order.specs.declared.occurrence.Occurrence.{Occurrence};
ghost use Rattle.fx_counts.specs.declared.at_queue.AtQueue.{AtQueue};
ghost use Rattle.fx_follow.specs.declared.stand.Stand.{Stand};
ghost use Rattle.fx_run_events.specs.CausesTold.{TellsCausesOfRun};
ghost use Rattle.fx_run_events.specs.Found.{AreFollowedOrNone, AreCountedOrNone};
ghost use Rattle.fx_run_events.specs.RanEvents.{ran_events};

/// What is told as the causes of the events of a run is what these stand on, by runs and histories that make the report lawful:
/// those by which it is told where the fibers stood and what the queues went through. And it is told of each get of which the
/// put is known, and, where the fibers were followed, of each first of two. The report has the stamps of the definition, of
/// which none is the greatest number.
pub fn told_causes_are_needed()
    ensures { (nodes : List Node) (s : ScriptView) (may : ℕ → Bool) (r : ReportView) (told : List (List Stand)) (list : List Occurrence)
        (counts : List (Option AtQueue)) → IsStampedReport s may r → IsBelowTop (trace_in r) (stamp_in r)
        → AreFollowedOrNone nodes s r told → AreCountedOrNone s.capacities r list counts
        → TellsCausesOfRun nodes s may r told list (ran_events told list counts r.fibers) }
{}
