//! What is counted is so by a history that a lawful report has, and so is what each get took. A function here does nothing: its
//! contract is the law.
ghost use Rattle.std.specs.Prelude.{◌≡◌, ℕ, Bool, Some, List, slice_get};
ghost use Rattle.std.specs.List.Sorted.{IsPermutation};
ghost use Rattle.fx_term.specs.Script.{ScriptView};
ghost use Rattle.fx_model.specs.Causes.{TakesWhatWasPut};
ghost use Rattle.fx_model.specs.LawfulReport.{HasHistory, IsLawfulReport};
ghost use Rattle.fx_model.specs.Report.{ReportView, trace_in, capacity_of};
ghost use Rattle.fx_order.specs.CausalOrder.{IsCausalOrder};
ghost use Rattle.fx_order.specs.Occurrences.{occurrences};
ghost use Rattle.fx_order.specs.declared.occurrence.Occurrence.{Occurrence};
ghost use Rattle.fx_counts.specs.Counted.{IsHistory, IsTakenPut, history_in};
ghost use Rattle.fx_counts.specs.KeepsOrder.{KeepsOrder};

/// A list of each event of a lawful report once in which causes come first, as that of `order_by_stamp`, keeps the order of each
/// fiber's events.
pub fn causes_first_keeps_order()
    ensures { (s : ScriptView) (may : ℕ → Bool) (r : ReportView) (lawful : IsLawfulReport s may r) (list : List Occurrence)
        → IsPermutation (occurrences r) list → IsCausalOrder s may r lawful list → KeepsOrder r list }
{}

/// Where the list has a history of a queue, that is one by which the report is lawful: each fiber did there, in that order, what its
/// trace says. All that is asked of the list is that it has each event of the report once, and each fiber's in their own order, and
/// of the report, that it is lawful: causes need not come first there, and stamps may be any.
pub fn counted_histories_are_those_of_the_report()
    ensures { (s : ScriptView) (may : ℕ → Bool) (r : ReportView) (list : List Occurrence) (q : ℕ) → IsLawfulReport s may r
        → KeepsOrder r list → IsHistory s.capacities r list q
        → (h : HasHistory r q (capacity_of s q)) × (h.history ≡ history_in q list) }
{}

/// The put that a get is told to have taken is the cause on which that get stands, by each history that makes the report lawful and
/// is the list's, whatever other queues went through. Of the list and the report no more is asked than above.
pub fn taken_puts_are_those_of_the_report()
    ensures { (s : ScriptView) (may : ℕ → Bool) (r : ReportView) (list : List Occurrence) (q : ℕ) → IsLawfulReport s may r
        → KeepsOrder r list → (h : HasHistory r q (capacity_of s q)) → h.history ≡ history_in q list
        → (k j : ℕ) (x y : Occurrence) → slice_get list k ≡ Some x → slice_get list j ≡ Some y → IsTakenPut q list k j
        → TakesWhatWasPut (trace_in r) (λ p state. (p ≡ q) × (state ≡ h.leaves.last)) x.fiber x.place y.fiber y.place }
{}
