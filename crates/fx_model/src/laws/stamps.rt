//! Laws of stamps. A function here does nothing: its contract is the law.
ghost use Rattle.std.specs.Prelude.{◌≡◌, ◌≢◌, ℕ, suc, ◌<◌, Bool, Some, List, [], ◌∷◌, ◌++◌, slice_get, Contains};
ghost use Rattle.fx_term.specs.declared.event.Event.{Event};
ghost use Rattle.fx_term.specs.declared.stamped.Stamped.{Stamped};
ghost use Rattle.fx_term.specs.Stamped.{events_in, stamps_in};
ghost use Rattle.fx_term.specs.Script.{ScriptView};
ghost use Rattle.fx_model.specs.Report.{ReportView, trace_in};
ghost use Rattle.fx_model.specs.LawfulReport.{IsLawfulReport};
ghost use Rattle.fx_model.specs.Causes.{TakesWhatWasPut, IsEvent, LeavesQueue, IsLawfulInOneOrder};
ghost use Rattle.fx_model.specs.Stamps.{top, HasNoCause, IsStamped, StampsOf, IsBelowTop, IsOrderedByStamps, HasItsCauses};
ghost use Rattle.fx_model.specs.StampedQueue.{AreStampedHistories};
ghost use Rattle.fx_model.specs.KeptStamps.{last_stamp, IsNext, AreKept, number_in};
ghost use Rattle.fx_model.specs.ToldStamps.{OwnStamps, StampsEntry, AreTold};
ghost use Rattle.fx_model.specs.CountedStamps.{AreRowsOfACancel, AreRowsOfARace};

/// The events of all fibers of a lawful report, ordered by stamp and then by fiber, stand in one order in
/// which causes come first, where no stamp has come to the greatest number.
pub fn stamps_give_one_order()
    ensures { (s : ScriptView) (may : ℕ → Bool) (r : ReportView) (lawful : IsLawfulReport s may r)
        (stamps : StampsOf s may r lawful) → IsBelowTop (trace_in r) stamps.stamp
        → IsOrderedByStamps s may r lawful stamps.stamp }
{}

/// Each event that stands on another one finds it in the report with the stamp that counted.
pub fn stamped_causes_are_found()
    ensures { (s : ScriptView) (may : ℕ → Bool) (r : ReportView) (lawful : IsLawfulReport s may r)
        (stamps : StampsOf s may r lawful) → HasItsCauses s may r lawful stamps }
{}

/// The first event of the main fiber has the stamp 1, if it has no cause; and each stamp is above the one
/// before it in its fiber and that of its cause, unless it is the greatest number. So neither the greatest
/// number everywhere nor the stamps of two events of one fiber in each other's place are stamps.
pub fn stamps_count_up()
    ensures first { (s : ScriptView) (may : ℕ → Bool) (r : ReportView) (lawful : IsLawfulReport s may r)
        (stamps : StampsOf s may r lawful) (e : Event) → slice_get (trace_in r 0) 0 ≡ Some e
        → HasNoCause e → stamps.stamp 0 0 ≡ 1 }
    ensures rising { (s : ScriptView) (may : ℕ → Bool) (r : ReportView) (lawful : IsLawfulReport s may r)
        (stamps : StampsOf s may r lawful) (f i : ℕ) → IsEvent (trace_in r) f (suc i)
        → stamps.stamp f (suc i) ≢ top → stamps.stamp f i < stamps.stamp f (suc i) }
    ensures cause { (s : ScriptView) (may : ℕ → Bool) (r : ReportView) (lawful : IsLawfulReport s may r)
        (stamps : StampsOf s may r lawful) (f i : ℕ) → IsEvent (trace_in r) f i
        → stamps.stamp f i ≢ top → stamps.cause f i < stamps.stamp f i }
{}

/// Where stamps go through a queue with its elements, the stamp that a get takes is that of the put of
/// what it takes.
pub fn queues_tell_the_stamp_of_the_put()
    ensures { (s : ScriptView) (may : ℕ → Bool) (r : ReportView) (lawful : IsLawfulReport s may r)
        (stamp cause : ℕ → ℕ → ℕ) → AreStampedHistories s may r lawful stamp cause
        → (f i g j : ℕ) → TakesWhatWasPut (trace_in r) (LeavesQueue s may r lawful) f i g j
        → cause f i ≡ stamp g j }
{}

/// What each fiber keeps, and what the words and the queues tell when they are closed, makes the stamps
/// of a lawful report those of the definition.
pub fn told_stamps_are_stamps()
    ensures { (s : ScriptView) (may : ℕ → Bool) (r : ReportView) (lawful : IsLawfulReport s may r)
        (entry : ℕ → StampsEntry) (stamp cause : ℕ → ℕ → ℕ)
        → AreTold s may r lawful entry stamp cause
        → IsStamped (trace_in r) lawful.runs.labels (LeavesQueue s may r lawful) (Contains r.outside)
        (λ f. (entry f).began) stamp cause }
{}

/// So the events of all fibers of such a report stand in one order in which causes come first.
pub fn told_reports_are_in_one_order()
    ensures { (s : ScriptView) (may : ℕ → Bool) (r : ReportView) (lawful : IsLawfulReport s may r)
        (entry : ℕ → StampsEntry) (stamp cause : ℕ → ℕ → ℕ)
        → AreTold s may r lawful entry stamp cause → IsBelowTop (trace_in r) stamp
        → IsLawfulInOneOrder s may r }
{}

/// A fiber that adds one event at a time, each with the next stamp, keeps what is told of it alone.
pub fn steps_keep_the_stamps()
    ensures opening { (began : ℕ) → AreKept began [] [] }
    ensures step { (began : ℕ) (xs : List Stamped) (causes : List ℕ) (x : Stamped) (cause : ℕ)
        → AreKept began xs causes → IsNext (last_stamp began xs) x cause
        → AreKept began (xs ++ x ∷ []) (causes ++ cause ∷ []) }
    ensures told { (began : ℕ) (xs : List Stamped) (causes : List ℕ) → AreKept began xs causes
        → OwnStamps (events_in xs) began (number_in (stamps_in xs)) (number_in causes) }
{}

/// Stamps that were counted by hand are those of the definition.
pub fn counted_stamps_are_stamps()
    ensures cancel { AreRowsOfACancel }
    ensures race { AreRowsOfARace }
{}
