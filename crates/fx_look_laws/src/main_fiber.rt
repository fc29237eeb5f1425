//! Laws of what others see, for a main fiber: each lawful report of the one script has one of the other that looks the
//! same (`LookAlike`). The other fibers, their traces and what is left in the queues are the same in both, and main
//! came to the same outcome, or is blocked in both, and showed the same, but for what it noted of its own cancellation
//! and of its own resources. Where it notes that it saw a request, in the one report and not in the other, it was
//! requested from outside.
ghost use Rattle.std.specs.Prelude.{◌≡◌, ◌≢◌, ℕ, Bool, true, List, Option, Some, None};
ghost use Rattle.fx_term.specs.declared.node.Arg.TheVariants.{Number, Slot};
ghost use Rattle.fx_term.specs.declared.name_kind.NameKind.{NameKind};
ghost use Rattle.fx_term.specs.declared.name_kind.NameKind.TheVariants as kind;
ghost use Rattle.fx_term.specs.Need.{need};
ghost use Rattle.fx_term.specs.Scope.{with_name, with_named, IsNew, IsScoped};
ghost use Rattle.fx_term.specs.Term.{Term, Pure, Raise, Canceled, Let, Handle, Mask, Poll, OnCancel, Bracket};
ghost use Rattle.fx_model.specs.LawfulReport.{IsLawfulReport};
ghost use Rattle.fx_model.specs.MaskLaws.{IsPlain, forced_after};
ghost use Rattle.fx_model.specs.Report.{ReportView};
ghost use Rattle.fx_laws.specs.Names.{without_names};
ghost use Rattle.fx_laws.specs.Others.{LookTheSame, LooksLikeAllOf, LookTheSameUnlessCanceledAlone};
ghost use Rattle.fx_look_laws.specs.LookAlike.{HasMainEnded, HasReportLike, IsMainCanceledAlone};

/// Where two main fibers look the same, and use as many fiber numbers, each lawful report of the one script in which
/// main has ended has one of the other that looks the same, where main may be requested from outside. It is enough
/// that the other looks like all of the first; and of two that look the same unless they are canceled alone, that main
/// was not.
pub fn scripts_look_the_same()
    ensures same { (t u : Term) (capacities : List ℕ) (may : ℕ → Bool) (r : ReportView) → need t ≡ need u → may 0 ≡ true → HasMainEnded r
        → IsLawfulReport (record { term = t; capacities = capacities }) may r → LookTheSame t u
        → HasReportLike (record { term = u; capacities = capacities }) may r }
    ensures all { (t u : Term) (capacities : List ℕ) (may : ℕ → Bool) (r : ReportView) → need t ≡ need u → may 0 ≡ true → HasMainEnded r
        → IsLawfulReport (record { term = t; capacities = capacities }) may r → LooksLikeAllOf u t
        → HasReportLike (record { term = u; capacities = capacities }) may r }
    ensures unless { (t u : Term) (capacities : List ℕ) (may : ℕ → Bool) (r : ReportView) → need t ≡ need u → may 0 ≡ true → HasMainEnded r
        → IsLawfulReport (record { term = t; capacities = capacities }) may r → LookTheSameUnlessCanceledAlone t u
        → (IsMainCanceledAlone r → ⊥) → HasReportLike (record { term = u; capacities = capacities }) may r }
{}

/// `uncancelableCanceledAssociatesRightOverFlatMap`: `(main (mask p (seq (canceled) A)))` and
/// `(main (forcer (mask p A) (canceled)))`, where `A` does not use the poll, whether main has ended or is blocked.
pub fn scripts_may_cancel_after_a_mask()
    ensures after { (scope : ℕ → Option NameKind) (p : ℕ) (a : Term) (capacities : List ℕ) (may : ℕ → Bool) (r : ReportView)
        → IsPlain a → IsScoped (with_name p kind.OtherPoll scope) a → may 0 ≡ true
        → IsLawfulReport (record { term = Mask p (Let None Canceled a); capacities = capacities }) may r
        → HasReportLike (record { term = forced_after (Mask p a) Canceled; capacities = capacities }) may r }
    ensures before { (scope : ℕ → Option NameKind) (p : ℕ) (a : Term) (capacities : List ℕ) (may : ℕ → Bool) (r : ReportView)
        → IsPlain a → IsScoped (with_name p kind.OtherPoll scope) a → may 0 ≡ true
        → IsLawfulReport (record { term = forced_after (Mask p a) Canceled; capacities = capacities }) may r
        → HasReportLike (record { term = Mask p (Let None Canceled a); capacities = capacities }) may r }
{}

/// `canceledSequencesOnCancelInOrder`: `(main (oncancel (oncancel (canceled) F) G))` and
/// `(main (forcer (mask p (forcer F G)) (canceled)))`, where neither uses the poll, whether main has ended or is
/// blocked. The latter can be canceled before its mask, which looks as if it was canceled alone.
pub fn scripts_may_finalize_in_order()
    ensures masked { (scope : ℕ → Option NameKind) (p : ℕ) (f g : Term) (capacities : List ℕ) (may : ℕ → Bool) (r : ReportView)
        → IsPlain f → IsPlain g → IsScoped (with_name p kind.OtherPoll scope) f → IsScoped (with_name p kind.OtherPoll scope) g
        → may 0 ≡ true
        → IsLawfulReport (record { term = OnCancel (OnCancel Canceled f) g; capacities = capacities }) may r
        → HasReportLike (record { term = forced_after (Mask p (forced_after f g)) Canceled; capacities = capacities }) may r }
    ensures finalized { (scope : ℕ → Option NameKind) (p : ℕ) (f g : Term) (capacities : List ℕ) (may : ℕ → Bool) (r : ReportView)
        → IsPlain f → IsPlain g → IsScoped (with_name p kind.OtherPoll scope) f → IsScoped (with_name p kind.OtherPoll scope) g
        → may 0 ≡ true → (IsMainCanceledAlone r → ⊥)
        → IsLawfulReport (record { term = forced_after (Mask p (forced_after f g)) Canceled; capacities = capacities }) may r
        → HasReportLike (record { term = OnCancel (OnCancel Canceled f) g; capacities = capacities }) may r }
{}

/// What a bracket is: `(main (bracket x A U R))` and the mask that acquires, polls the use and releases after it
/// (`fx_laws`, `bracket_is_a_mask_with_a_polled_use`), where `R` starts no fiber, since it stands thrice there,
/// whether main has ended or is blocked. The mask can be canceled before it is entered.
pub fn scripts_may_bracket_by_a_mask()
    ensures masked { (scope : ℕ → Option NameKind) (p y e : ℕ) (x : Option ℕ) (a u d : Term) (capacities : List ℕ) (may : ℕ → Bool)
        (r : ReportView)
        → p ≢ y → p ≢ e → IsNew (without_names scope p y e) x
        → IsPlain a → IsPlain u → IsPlain d
        → IsScoped (without_names scope p y e) a
        → IsScoped (with_named x kind.Value (without_names scope p y e)) u
        → IsScoped (with_named x kind.Value (without_names scope p y e)) d
        → need d ≡ 0 → may 0 ≡ true
        → IsLawfulReport (record { term = Bracket x a u d; capacities = capacities }) may r
        → HasReportLike (record {
          term = Mask p (Let x a
              (Let (Some y)
              (Handle (OnCancel (Poll (Slot p) u) d) (Some e) (Let None (Handle d None (Pure (Number 0))) (Raise (Slot e))))
              (Let None d (Pure (Slot y)))));
          capacities = capacities;
        }) may r }
    ensures bracketed { (scope : ℕ → Option NameKind) (p y e : ℕ) (x : Option ℕ) (a u d : Term) (capacities : List ℕ) (may : ℕ → Bool)
        (r : ReportView)
        → p ≢ y → p ≢ e → IsNew (without_names scope p y e) x
        → IsPlain a → IsPlain u → IsPlain d
        → IsScoped (without_names scope p y e) a
        → IsScoped (with_named x kind.Value (without_names scope p y e)) u
        → IsScoped (with_named x kind.Value (without_names scope p y e)) d
        → need d ≡ 0 → may 0 ≡ true → (IsMainCanceledAlone r → ⊥)
        → IsLawfulReport (record {
          term = Mask p (Let x a
              (Let (Some y)
              (Handle (OnCancel (Poll (Slot p) u) d) (Some e) (Let None (Handle d None (Pure (Number 0))) (Raise (Slot e))))
              (Let None d (Pure (Slot y)))));
          capacities = capacities;
        }) may r
        → HasReportLike (record { term = Bracket x a u d; capacities = capacities }) may r }
{}
