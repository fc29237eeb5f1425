//! Laws of races. A function here does nothing: its contract is the law.
//!
//! Those of a side that never wins are told of reports whose events stand in one order, causes first, as those
//! of a replay and of a run on threads do: a lawful report that has no such order may tell that a side was
//! canceled by a request that the race made only since that side had been canceled.
ghost use Rattle.std.specs.Prelude.{◌≡◌, ℕ, Bool, None, []};
ghost use Rattle.fx_term.specs.declared.name_kind.NameKind.TheVariants as kind;
ghost use Rattle.fx_term.specs.Scope.{with_name, IsScoped};
ghost use Rattle.fx_term.specs.Script.{ScriptView};
ghost use Rattle.fx_term.specs.Term.{Term, Mask, Never, Canceled};
ghost use Rattle.fx_text.specs.Race.{race, race_slots};
ghost use Rattle.fx_model.specs.Causes.{IsLawfulInOneOrder};
ghost use Rattle.fx_model.specs.LawfulReport.{IsLawfulReport};
ghost use Rattle.fx_model.specs.MaskLaws.{IsScopedWithout};
ghost use Rattle.fx_model.specs.Origin.{child_origin};
ghost use Rattle.fx_model.specs.Report.{ReportView};
ghost use Rattle.fx_model.specs.Scopes.{IsScopedOver};
ghost use Rattle.fx_spawn_laws.specs.MainFiber.{MainEnds, MainIsBlocked};
ghost use Rattle.fx_spawn_laws.specs.Races.{MainFollows, MainEndsUnlessCanceled};

/// A race of which no side wins cancels itself, and a mask round it holds that back: `(mask p (race (never)
/// (canceled)))` waits for good.
pub fn uncancelable_race_inheritance()
    ensures { (s : ScriptView) (may : ℕ → Bool) (r : ReportView)
        → s.term ≡ Mask 0 (race (race_slots 1) Never Canceled)
        → IsLawfulReport s may r → r.outside ≡ [] → MainIsBlocked r }
{}

/// `(race (canceled) A)` is `A`, fiber numbers aside, where `A` uses no name from outside: fiber 2 ran `A` as
/// one that nobody requests does, and the main fiber ends as that did, or waits where that has not ended.
pub fn race_canceled_identity_left()
    ensures { (s : ScriptView) (may : ℕ → Bool) (r : ReportView) (t : Term)
        → s.term ≡ race (race_slots 0) Canceled t
        → ((is_given : ℕ → Bool) → IsScopedOver is_given s.term) → IsScopedWithout (λ x. None) 0 1 t
        → IsLawfulInOneOrder s may r → r.outside ≡ [] → MainFollows r 2 (child_origin 2 t) (MainEnds r) }
{}

/// `(race A (canceled))` is `A` in the same way: fiber 1 ran it.
pub fn race_canceled_identity_right()
    ensures { (s : ScriptView) (may : ℕ → Bool) (r : ReportView) (t : Term)
        → s.term ≡ race (race_slots 0) t Canceled
        → ((is_given : ℕ → Bool) → IsScopedOver is_given s.term) → IsScoped (with_name 0 kind.OtherPoll (λ x. None)) t
        → IsLawfulInOneOrder s may r → r.outside ≡ [] → MainFollows r 1 (child_origin 1 t) (MainEnds r) }
{}

/// `(race (never) A)` is `(oncancel A (never))`, fiber numbers aside: fiber 2 ran `A` as one that nobody
/// requests does, and the main fiber ends as that did if it succeeded or erred, and waits for good if it was
/// canceled or has not ended.
pub fn race_never_noncanceled_identity_left()
    ensures { (s : ScriptView) (may : ℕ → Bool) (r : ReportView) (t : Term)
        → s.term ≡ race (race_slots 0) Never t
        → ((is_given : ℕ → Bool) → IsScopedOver is_given s.term) → IsScopedWithout (λ x. None) 0 1 t
        → IsLawfulInOneOrder s may r → r.outside ≡ [] → MainFollows r 2 (child_origin 2 t) (MainEndsUnlessCanceled r) }
{}

/// `(race A (never))` is `(oncancel A (never))` in the same way: fiber 1 ran it.
pub fn race_never_noncanceled_identity_right()
    ensures { (s : ScriptView) (may : ℕ → Bool) (r : ReportView) (t : Term)
        → s.term ≡ race (race_slots 0) t Never
        → ((is_given : ℕ → Bool) → IsScopedOver is_given s.term) → IsScoped (with_name 0 kind.OtherPoll (λ x. None)) t
        → IsLawfulInOneOrder s may r → r.outside ≡ [] → MainFollows r 1 (child_origin 1 t) (MainEndsUnlessCanceled r) }
{}
