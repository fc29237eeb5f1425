//! Finalizers.
ghost use Rattle.std.specs.Prelude.{ℕ, Option, List, All};
ghost use Rattle.fx_term.specs.declared.name_kind.NameKind.{NameKind};
ghost use Rattle.fx_term.specs.declared.name_kind.NameKind.TheVariants as kind;
ghost use Rattle.fx_term.specs.Term.{Term, Canceled, Mask, OnCancel};
ghost use Rattle.fx_term.specs.Scope.{with_name, IsScoped};
ghost use Rattle.fx_model.specs.MaskLaws.{IsPlain, ShowTheSame, forced_after};
ghost use Rattle.fx_laws.specs.ScopedPlaces.{IsWellScoped, ShowTheSameWhereScoped, with_finalizers};
ghost use Rattle.fx_laws.specs.Others.{LookTheSameUnlessCanceledAlone, LooksLikeAllOf};

/// `(oncancel A (mask p F))` shows what `(oncancel A F)` does, where `F` does not use the poll: a finalizer
/// is masked as it is. It does so wherever a fiber comes to it, in a clean-up too, where the clean-ups
/// round it use each name as what it is: one that gave out the number of a region as a value would tell
/// how many were entered. So it does at any depth of finalizers: with those of `A`, and with any outside.
pub fn on_cancel_implies_uncancelable()
    ensures everywhere { (scope : ℕ → Option NameKind) (p : ℕ) (a f : Term)
        → IsScoped (with_name p kind.OtherPoll scope) f
        → ShowTheSameWhereScoped (OnCancel a (Mask p f)) (OnCancel a f) }
    ensures depth { (scope : ℕ → Option NameKind) (p : ℕ) (a f : Term) (gs : List Term)
        → IsScoped (with_name p kind.OtherPoll scope) f → All IsWellScoped gs
        → ShowTheSame (with_finalizers gs (OnCancel a (Mask p f))) (with_finalizers gs (OnCancel a f)) }
{}

/// So `(oncancel (canceled) (mask p F))` shows what `(oncancel (canceled) F)` does, at the same places.
pub fn uncancelable_finalizers()
    ensures { (scope : ℕ → Option NameKind) (p : ℕ) (f : Term)
        → IsScoped (with_name p kind.OtherPoll scope) f
        → ShowTheSameWhereScoped (OnCancel Canceled (Mask p f)) (OnCancel Canceled f) }
{}

/// `(oncancel (oncancel (canceled) F) G)` looks to others as `(forcer (mask p (forcer F G)) (canceled))`
/// does, where neither uses the poll: finalizers run from the inside out. The latter can also be
/// canceled before it comes to its mask, and then others see of it that it was canceled, and no more.
pub fn canceled_sequences_on_cancel_in_order()
    ensures same { (scope : ℕ → Option NameKind) (p : ℕ) (f g : Term)
        → IsPlain f → IsPlain g → IsScoped (with_name p kind.OtherPoll scope) f → IsScoped (with_name p kind.OtherPoll scope) g
        → LookTheSameUnlessCanceledAlone (OnCancel (OnCancel Canceled f) g) (forced_after (Mask p (forced_after f g)) Canceled) }
    ensures all { (scope : ℕ → Option NameKind) (p : ℕ) (f g : Term)
        → IsPlain f → IsPlain g → IsScoped (with_name p kind.OtherPoll scope) f → IsScoped (with_name p kind.OtherPoll scope) g
        → LooksLikeAllOf (forced_after (Mask p (forced_after f g)) Canceled) (OnCancel (OnCancel Canceled f) g) }
{}
