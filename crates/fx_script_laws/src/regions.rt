//! Laws of terms of which the one enters a mask more than the other, so that the two number the masks that come
//! after them otherwise. In a script no term tells the number of a mask, so that two scripts which differ at such
//! places have the same lawful reports (`AreAlikeInScripts`).
ghost use Rattle.std.specs.Prelude.{◌≡◌, ◌≢◌, ℕ, Bool, List, Option, None};
ghost use Rattle.fx_term.specs.declared.node.Arg.TheVariants.{Slot};
ghost use Rattle.fx_term.specs.declared.name_kind.NameKind.{NameKind};
ghost use Rattle.fx_term.specs.declared.name_kind.NameKind.TheVariants as kind;
ghost use Rattle.fx_term.specs.Term.{Term, Canceled, Let, Mask, Poll, OnCancel};
ghost use Rattle.fx_term.specs.Need.{need};
ghost use Rattle.fx_term.specs.Scope.{with_name, IsScoped};
ghost use Rattle.fx_model.specs.MaskLaws.{IsScopedWithout};
ghost use Rattle.fx_model.specs.Report.{ReportView};
ghost use Rattle.fx_script_laws.specs.BeginsOpenly.{BeginsOpenly};
ghost use Rattle.fx_script_laws.specs.Cover.{is_any, is_closed, is_sealed};
ghost use Rattle.fx_script_laws.specs.Filled.{none_bound, and_bound};
ghost use Rattle.fx_script_laws.specs.InScripts.{IsScriptTerm, HaveSameReports, AreAlikeInScripts};

/// `uncancelablePollIsIdentity`: `(mask p (poll p A))` for `A` at closed places, where `A` does not use `p`. The
/// name is the first term's own. At an open place a request is seen before the mask ([`crate::refused`]).
pub fn uncancelable_poll_is_identity_where_closed()
    ensures { (scope : ℕ → Option NameKind) (p : ℕ) (a : Term) → IsScoped (with_name p kind.OtherPoll scope) a
        → AreAlikeInScripts is_closed (and_bound p none_bound) (Mask p (Poll (Slot p) a)) a }
{}

/// And `(mask p (poll p A))` for `A` at each place, where `A` begins openly too, so that a request which could be seen
/// before the mask can be seen where `A` begins.
pub fn uncancelable_poll_is_identity_in_scripts()
    ensures { (scope : ℕ → Option NameKind) (p : ℕ) (a : Term) → IsScoped (with_name p kind.OtherPoll scope) a → BeginsOpenly a
        → AreAlikeInScripts is_any (and_bound p none_bound) (Mask p (Poll (Slot p) a)) a }
{}

/// `(mask p A)` for `A` at sealed places, where `A` does not use `p`: no poll of `A` opens such a place, with the
/// mask or without it.
pub fn mask_is_nothing_where_sealed()
    ensures { (scope : ℕ → Option NameKind) (p : ℕ) (a : Term) → IsScoped (with_name p kind.OtherPoll scope) a
        → AreAlikeInScripts is_sealed none_bound (Mask p a) a }
{}

/// `uncancelableIgnoredPollEliminatesNesting`: `(mask p (mask q A))` for `(mask p A)`, at each place, where `A` uses
/// neither poll.
pub fn uncancelable_ignored_poll_eliminates_nesting_in_scripts()
    ensures { (scope : ℕ → Option NameKind) (p q : ℕ) (a : Term) → p ≢ q → IsScopedWithout scope p q a
        → AreAlikeInScripts is_any none_bound (Mask p (Mask q a)) (Mask p a) }
{}

/// `uncancelablePollInverseNestIsUncancelable`: `(mask p (mask q (poll p (poll q A))))` for `(mask p A)`, likewise.
/// Both names are the first term's own.
pub fn uncancelable_poll_inverse_nest_is_uncancelable_in_scripts()
    ensures { (scope : ℕ → Option NameKind) (p q : ℕ) (a : Term) → p ≢ q → IsScopedWithout scope p q a
        → AreAlikeInScripts is_any (and_bound p (and_bound q none_bound)) (Mask p (Mask q (Poll (Slot p) (Poll (Slot q) a)))) (Mask p a) }
{}

/// `uncancelableEliminatesOnCancel`: `(mask p (oncancel A F))` for `(mask p A)`, at each place, where `A` does not use
/// `p` and `F` starts no fiber: nothing opens the mask, so that `F` never runs.
pub fn uncancelable_eliminates_on_cancel_in_scripts()
    ensures { (scope : ℕ → Option NameKind) (p : ℕ) (a f : Term) → IsScoped (with_name p kind.OtherPoll scope) a → need f ≡ 0
        → AreAlikeInScripts is_any none_bound (Mask p (OnCancel a f)) (Mask p a) }
{}

/// `onCancelImpliesUncancelable`: `(oncancel A (mask p F))` for `(oncancel A F)`, at each place, where `F` does not
/// use `p`.
pub fn on_cancel_implies_uncancelable_in_scripts()
    ensures { (scope : ℕ → Option NameKind) (p : ℕ) (a f : Term) → IsScoped (with_name p kind.OtherPoll scope) f
        → AreAlikeInScripts is_any none_bound (OnCancel a (Mask p f)) (OnCancel a f) }
{}

/// `uncancelableFinalizers`: `(oncancel (canceled) (mask p F))` for `(oncancel (canceled) F)`, in the same way.
pub fn uncancelable_finalizers_in_scripts()
    ensures { (scope : ℕ → Option NameKind) (p : ℕ) (f : Term) → IsScoped (with_name p kind.OtherPoll scope) f
        → AreAlikeInScripts is_any none_bound (OnCancel Canceled (Mask p f)) (OnCancel Canceled f) }
{}

/// Written out for a mask that is opened at once, in a mask with other parts before and behind:
/// `(mask p (seq B (seq (mask q (poll q A)) C)))`, where the names are new ones.
pub fn scripts_may_mask_and_poll_in_a_mask()
    ensures { (scope : ℕ → Option NameKind) (p q : ℕ) (a b c : Term) (capacities : List ℕ) (may : ℕ → Bool) (r : ReportView)
        → IsScoped (with_name q kind.OtherPoll scope) a
        → IsScriptTerm (Mask p (Let None b (Let None (Mask q (Poll (Slot q) a)) c)))
        → IsScriptTerm (Mask p (Let None b (Let None a c)))
        → HaveSameReports
        (record { term = Mask p (Let None b (Let None (Mask q (Poll (Slot q) a)) c)); capacities = capacities })
        (record { term = Mask p (Let None b (Let None a c)); capacities = capacities }) may r }
{}
