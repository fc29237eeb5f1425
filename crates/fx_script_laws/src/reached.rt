//! Laws of masks where a fiber of a script comes to them, inside any contexts and in clean-ups: it shows from there on
//! what it shows with the other term, and waits where it does with that (`AreAlikeWhereReached`). Of a fiber that began
//! otherwise they do not speak, since a term that has the number of a mask by itself could tell how many were entered.
//! That two scripts with such terms have the same reports is said in [`crate::regions`].
ghost use Rattle.std.specs.Prelude.{◌≡◌, ◌≢◌, ℕ, Option};
ghost use Rattle.fx_term.specs.declared.node.Arg.TheVariants.{Slot};
ghost use Rattle.fx_term.specs.declared.name_kind.NameKind.{NameKind};
ghost use Rattle.fx_term.specs.declared.name_kind.NameKind.TheVariants as kind;
ghost use Rattle.fx_term.specs.Need.{need};
ghost use Rattle.fx_term.specs.Scope.{with_name, IsScoped};
ghost use Rattle.fx_term.specs.Term.{Mask, OnCancel, Poll, Term};
ghost use Rattle.fx_model.specs.MaskLaws.{IsScopedWithout};
ghost use Rattle.fx_script_laws.specs.BeginsOpenly.{BeginsOpenly};
ghost use Rattle.fx_script_laws.specs.Cover.{is_any, is_closed, is_sealed};
ghost use Rattle.fx_script_laws.specs.Reached.{AreAlikeWhereReached};

/// `uncancelablePollIsIdentity`: `(mask p (poll p A))` and `A`, where `A` does not use `p`: at closed places, and at each
/// place where `A` begins openly.
pub fn uncancelable_poll_is_identity_where_reached()
    ensures closed { (scope : ℕ → Option NameKind) (p : ℕ) (a : Term) → IsScoped (with_name p kind.OtherPoll scope) a
        → AreAlikeWhereReached is_closed (Mask p (Poll (Slot p) a)) a }
    ensures openly { (scope : ℕ → Option NameKind) (p : ℕ) (a : Term) → IsScoped (with_name p kind.OtherPoll scope) a → BeginsOpenly a
        → AreAlikeWhereReached is_any (Mask p (Poll (Slot p) a)) a }
{}

/// `(mask p A)` and `A` at sealed places, where `A` does not use `p`.
pub fn mask_is_nothing_where_reached()
    ensures { (scope : ℕ → Option NameKind) (p : ℕ) (a : Term) → IsScoped (with_name p kind.OtherPoll scope) a
        → AreAlikeWhereReached is_sealed (Mask p a) a }
{}

/// `uncancelableIgnoredPollEliminatesNesting`: `(mask p (mask q A))` and `(mask p A)`, where `A` uses neither poll.
pub fn uncancelable_ignored_poll_eliminates_nesting_where_reached()
    ensures { (scope : ℕ → Option NameKind) (p q : ℕ) (a : Term) → p ≢ q → IsScopedWithout scope p q a
        → AreAlikeWhereReached is_any (Mask p (Mask q a)) (Mask p a) }
{}

/// `uncancelablePollInverseNestIsUncancelable`: `(mask p (mask q (poll p (poll q A))))` and `(mask p A)`, likewise.
pub fn uncancelable_poll_inverse_nest_is_uncancelable_where_reached()
    ensures { (scope : ℕ → Option NameKind) (p q : ℕ) (a : Term) → p ≢ q → IsScopedWithout scope p q a
        → AreAlikeWhereReached is_any (Mask p (Mask q (Poll (Slot p) (Poll (Slot q) a)))) (Mask p a) }
{}

/// `uncancelableEliminatesOnCancel`: `(mask p (oncancel A F))` and `(mask p A)`, where `A` does not use `p` and `F`
/// starts no fiber.
pub fn uncancelable_eliminates_on_cancel_where_reached()
    ensures { (scope : ℕ → Option NameKind) (p : ℕ) (a f : Term) → IsScoped (with_name p kind.OtherPoll scope) a → need f ≡ 0
        → AreAlikeWhereReached is_any (Mask p (OnCancel a f)) (Mask p a) }
{}
