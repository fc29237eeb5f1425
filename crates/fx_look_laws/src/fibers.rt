//! What holds of what others see of whole fibers holds in every script, wherever a fiber begins.
ghost use Rattle.std.specs.Prelude.{◌≡◌, ℕ, Bool, true, List, Some};
ghost use Rattle.fx_term.specs.declared.event.Event.{Event};
ghost use Rattle.fx_term.specs.Script.{ScriptView};
ghost use Rattle.fx_term.specs.Term.{Term};
ghost use Rattle.fx_model.specs.LawfulReport.{IsLawfulReport};
ghost use Rattle.fx_model.specs.Report.{FiberReportView, ReportView, fiber_in};
ghost use Rattle.fx_look_laws.specs.LookAlike.{visible_events};
ghost use Rattle.fx_look_laws.specs.FibersLookAlike.{LooksLikeAllWithNumbers, BeginsWith, HasReportWithFibersLike};
ghost use Rattle.fx_look_laws.specs.OtherFibers.{IsWithOtherFibers};

/// Where a fiber with the second term can end, or wait, so that others see of it what they see of one with the first,
/// each lawful report of a script has one of another one that looks the same, which has the second term for the first
/// as the whole term of fibers: of main, and of what is started anywhere, in loops, finalizers and what such fibers
/// start in turn. Each fiber that begins with the first term, with numbers for its names, comes to the same outcome,
/// or is blocked as it was, and others see the same of it; each other fiber has the same trace. Of each of the former
/// it must be so what the first term is said of, and it may be requested from outside.
pub fn scripts_look_the_same_in_fibers()
    ensures { (is_so : Bool → List Event → Bool) (own : ℕ → Bool) (t u : Term) (s z : ScriptView) (may : ℕ → Bool) (r : ReportView)
        → LooksLikeAllWithNumbers is_so own t u → IsWithOtherFibers own t u s.term z.term → s.capacities ≡ z.capacities
        → (lawful : IsLawfulReport s may r)
        → ((f : ℕ) (x : FiberReportView) → fiber_in r f ≡ Some x → BeginsWith own t s may r lawful f
        → (is_so x.has_ended (visible_events x.trace) ≡ true) × (may f ≡ true))
        → HasReportWithFibersLike z may (BeginsWith own t s may r lawful) r }
{}
