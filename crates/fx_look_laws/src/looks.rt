//! Laws of what others see, for whole fibers anywhere in a script: with [`crate::fibers`] each is one of scripts in
//! which such a fiber is started at any places, or is main. No name is put a number for but those in scope, so that a
//! term binds none of those that are bound round it, as in a script.
ghost use Rattle.std.specs.Prelude.{◌≡◌, ◌≢◌, ℕ, Bool, true, List, Option, Some, None};
ghost use Rattle.fx_term.specs.declared.node.Arg.TheVariants.{Number, Slot};
ghost use Rattle.fx_term.specs.declared.name_kind.NameKind.{NameKind};
ghost use Rattle.fx_term.specs.declared.name_kind.NameKind.TheVariants as kind;
ghost use Rattle.fx_term.specs.Need.{need};
ghost use Rattle.fx_term.specs.Scope.{with_name, with_named, elsewhere, IsNew, IsScoped};
ghost use Rattle.fx_term.specs.Term.{Term, Pure, Raise, Canceled, Let, Handle, For, Mask, Poll, OnCancel, Bracket, Start};
ghost use Rattle.fx_model.specs.LawfulReport.{IsLawfulReport};
ghost use Rattle.fx_model.specs.MaskLaws.{IsPlain, forced_after};
ghost use Rattle.fx_model.specs.Report.{ReportView};
ghost use Rattle.fx_laws.specs.Names.{without_names};
ghost use Rattle.fx_laws.specs.Others.{LooksLikeAllOf, LookTheSameUnlessCanceledAlone};
ghost use Rattle.fx_look_laws.specs.FibersLookAlike.{EndsLikeAllOf, LooksLikeAllWithNumbers, BeginsWith, HasReportWithFibersLike};
ghost use Rattle.fx_look_laws.specs.FibersLookAlike.{of_any, of_any_but_alone, of_ended, of_ended_but_alone};
ghost use Rattle.fx_look_laws.specs.OtherFibers.{not_in};

/// Of two terms of which the second looks like all of the first, a fiber with the second ends so that others see what
/// they see of one with the first that has ended; and so the other way round, of two that look the same unless they
/// are canceled alone.
pub fn what_looks_the_same_ends_the_same()
    ensures all { (t u : Term) → LooksLikeAllOf u t → EndsLikeAllOf of_ended u t }
    ensures unless { (t u : Term) → LookTheSameUnlessCanceledAlone t u → EndsLikeAllOf of_ended_but_alone u t }
{}

/// `uncancelableCanceledAssociatesRightOverFlatMap`: `(mask p (seq (canceled) A))` and
/// `(forcer (mask p A) (canceled))`, where `A` does not use the poll, whether the fiber has ended or is blocked.
pub fn fibers_may_cancel_after_a_mask()
    ensures after { (scope : ℕ → Option NameKind) (p : ℕ) (a : Term) → IsPlain a → IsScoped (with_name p kind.OtherPoll (elsewhere scope)) a
        → LooksLikeAllWithNumbers of_any (not_in scope) (Mask p (Let None Canceled a)) (forced_after (Mask p a) Canceled) }
    ensures before { (scope : ℕ → Option NameKind) (p : ℕ) (a : Term) → IsPlain a → IsScoped (with_name p kind.OtherPoll (elsewhere scope)) a
        → LooksLikeAllWithNumbers of_any (not_in scope) (forced_after (Mask p a) Canceled) (Mask p (Let None Canceled a)) }
{}

/// `canceledSequencesOnCancelInOrder`: `(oncancel (oncancel (canceled) F) G)` and
/// `(forcer (mask p (forcer F G)) (canceled))`, where neither uses the poll, whether the fiber has ended or is blocked.
/// The latter can be canceled before its mask, which looks as if it was canceled alone.
pub fn fibers_may_finalize_in_order()
    ensures masked { (scope : ℕ → Option NameKind) (p : ℕ) (f g : Term) → IsPlain f → IsPlain g
        → IsScoped (with_name p kind.OtherPoll (elsewhere scope)) f → IsScoped (with_name p kind.OtherPoll (elsewhere scope)) g
        → LooksLikeAllWithNumbers of_any (not_in scope) (OnCancel (OnCancel Canceled f) g)
        (forced_after (Mask p (forced_after f g)) Canceled) }
    ensures finalized { (scope : ℕ → Option NameKind) (p : ℕ) (f g : Term) → IsPlain f → IsPlain g
        → IsScoped (with_name p kind.OtherPoll (elsewhere scope)) f → IsScoped (with_name p kind.OtherPoll (elsewhere scope)) g
        → LooksLikeAllWithNumbers of_any_but_alone (not_in scope) (forced_after (Mask p (forced_after f g)) Canceled)
        (OnCancel (OnCancel Canceled f) g) }
{}

/// What a bracket is: `(bracket x A U R)` and the mask that acquires, polls the use and releases after it (`fx_laws`,
/// `bracket_is_a_mask_with_a_polled_use`), where `R` starts no fiber, whether the fiber has ended or is blocked. The names
/// of the mask are new ones. It can be canceled before it is entered.
pub fn fibers_may_bracket_by_a_mask()
    ensures masked { (scope : ℕ → Option NameKind) (p y e : ℕ) (x : Option ℕ) (a u d : Term)
        → IsNew scope (Some p) → IsNew scope (Some y) → IsNew scope (Some e) → p ≢ y → p ≢ e
        → IsNew (without_names (elsewhere scope) p y e) x → IsPlain a → IsPlain u → IsPlain d
        → IsScoped (without_names (elsewhere scope) p y e) a
        → IsScoped (with_named x kind.Value (without_names (elsewhere scope) p y e)) u
        → IsScoped (with_named x kind.Value (without_names (elsewhere scope) p y e)) d → need d ≡ 0
        → LooksLikeAllWithNumbers of_any (not_in scope) (Bracket x a u d)
        (Mask p (Let x a
        (Let (Some y)
        (Handle (OnCancel (Poll (Slot p) u) d) (Some e) (Let None (Handle d None (Pure (Number 0))) (Raise (Slot e))))
        (Let None d (Pure (Slot y)))))) }
    ensures bracketed { (scope : ℕ → Option NameKind) (p y e : ℕ) (x : Option ℕ) (a u d : Term)
        → IsNew scope (Some p) → IsNew scope (Some y) → IsNew scope (Some e) → p ≢ y → p ≢ e
        → IsNew (without_names (elsewhere scope) p y e) x → IsPlain a → IsPlain u → IsPlain d
        → IsScoped (without_names (elsewhere scope) p y e) a
        → IsScoped (with_named x kind.Value (without_names (elsewhere scope) p y e)) u
        → IsScoped (with_named x kind.Value (without_names (elsewhere scope) p y e)) d → need d ≡ 0
        → LooksLikeAllWithNumbers of_any_but_alone (not_in scope) (Mask p (Let x a
        (Let (Some y)
        (Handle (OnCancel (Poll (Slot p) u) d) (Some e) (Let None (Handle d None (Pure (Number 0))) (Raise (Slot e))))
        (Let None d (Pure (Slot y))))))
        (Bracket x a u d) }
{}

/// Written out for the first law, in a loop of which each turn starts such a fiber:
/// `(for i n (start h (mask p (seq (canceled) A)) B))`, where `A` may use the name of the loop.
pub fn scripts_may_cancel_after_a_mask_in_each_turn()
    ensures { (scope : ℕ → Option NameKind) (i n h p : ℕ) (a b : Term) (capacities : List ℕ) (may : ℕ → Bool) (r : ReportView)
        → IsPlain a → IsScoped (with_name p kind.OtherPoll (elsewhere (with_name i kind.Value scope))) a
        → ((f : ℕ) → may f ≡ true)
        → (lawful : IsLawfulReport (record {
          term = For i n (Start h (Mask p (Let None Canceled a)) b);
          capacities = capacities;
        }) may r)
        → HasReportWithFibersLike (record {
          term = For i n (Start h (forced_after (Mask p a) Canceled) b);
          capacities = capacities;
        }) may
        (BeginsWith (not_in (with_name i kind.Value scope)) (Mask p (Let None Canceled a))
        (record { term = For i n (Start h (Mask p (Let None Canceled a)) b); capacities = capacities }) may r lawful) r }
{}
