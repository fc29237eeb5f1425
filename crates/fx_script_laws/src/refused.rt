//! Terms that cannot be put for one another, so that the laws say something.
ghost use Rattle.std.specs.Prelude.{◌≡◌, ℕ, Bool, true, None, [], ◌∷◌};
ghost use Rattle.fx_term.specs.declared.node.Arg.TheVariants.{Number, Slot};
ghost use Rattle.fx_term.specs.Term.{Pure, Canceled, Never, Cede, Let, Mask, Poll, OnCancel, Bracket, Offer};
ghost use Rattle.fx_term.specs.declared.event.Event.TheVariants as event;
ghost use Rattle.fx_model.specs.LawfulReport.{IsLawfulReport};
ghost use Rattle.fx_model.specs.MaskLaws.{forced_after};
ghost use Rattle.fx_script_laws.specs.BlockedAlone.{blocked_alone};
ghost use Rattle.fx_script_laws.specs.Cover.{Cover, Sealed, is_closed};
ghost use Rattle.fx_script_laws.specs.Interchange.{AreInterchangeable, AreInterchangeableWhere};

/// Not `(never)` for `(canceled)`.
pub fn never_is_not_put_for_canceled()
    ensures { (own : ℕ → Bool) → AreInterchangeable own Never Canceled → ⊥ }
{}

/// So scripts with the one have reports that those with the other have not: `(main (never))` can be blocked with
/// nothing shown, and `(main (canceled))` cannot.
pub fn reports_tell_never_from_canceled()
    ensures never { (may : ℕ → Bool) → IsLawfulReport (record { term = Never; capacities = [] }) may (blocked_alone [] []) }
    ensures canceled { (may : ℕ → Bool) → IsLawfulReport (record { term = Canceled; capacities = [] }) may (blocked_alone [] []) → ⊥ }
{}

/// Not `(mask p T)` for `T`, where that is `(seq (canceled) (offer q 1))`.
pub fn mask_is_not_put_for_its_inside()
    ensures { (own : ℕ → Bool) → AreInterchangeable own (Mask 0 (Let None Canceled (Offer 0 (Number 1))))
        (Let None Canceled (Offer 0 (Number 1))) → ⊥ }
{}

/// So `(main (mask p (seq (canceled) (never))))` can be blocked after it requested itself, and
/// `(main (seq (canceled) (never)))` cannot.
pub fn reports_tell_a_mask_from_its_inside()
    ensures mask { (may : ℕ → Bool) → IsLawfulReport (record {
      term = Mask 0 (Let None Canceled Never);
      capacities = [];
    }) may (blocked_alone (event.SelfRequest ∷ []) (1 ∷ [])) }
    ensures inside { (may : ℕ → Bool)
        → IsLawfulReport (record { term = Let None Canceled Never; capacities = [] }) may (blocked_alone (event.SelfRequest ∷ []) (1 ∷ [])) → ⊥ }
{}

/// Not `(forcer (pure 0) A)` for `A`, where that is `(oncancel (canceled) (offer q 1))`: a request can be
/// seen between the two. For the same reason neither `(seq (cede) A)` nor `(mask p (poll p A))`: so
/// `uncancelablePollIsIdentity` does not hold in every script.
pub fn step_is_not_put_before_a_term()
    ensures forced { (own : ℕ → Bool)
        → AreInterchangeable own (forced_after (Pure (Number 0)) (OnCancel Canceled (Offer 0 (Number 1))))
        (OnCancel Canceled (Offer 0 (Number 1))) → ⊥ }
    ensures ceded { (own : ℕ → Bool)
        → AreInterchangeable own (Let None Cede (OnCancel Canceled (Offer 0 (Number 1))))
        (OnCancel Canceled (Offer 0 (Number 1))) → ⊥ }
    ensures polled { (own : ℕ → Bool)
        → AreInterchangeable own (Mask 0 (Poll (Slot 0) (OnCancel Canceled (Offer 0 (Number 1)))))
        (OnCancel Canceled (Offer 0 (Number 1))) → ⊥ }
{}

/// Where the first leaf of `A` is `(canceled)`, or a clean-up or an acquire part stands round it, so that `A` does
/// not begin openly, a step before it is told. Not `(seq (cede) (canceled))` for `(canceled)`, which is canceled
/// before it sees a request; not `(seq (cede) A)` for `A` where that is `(oncancel (never) (offer q 1))`, which runs
/// the finalizer after each request, or `(bracket _ (never) ..)`, which sees none.
pub fn first_leaf_tells_a_step_before_it()
    ensures canceled { (own : ℕ → Bool) → AreInterchangeable own (Let None Cede Canceled) Canceled → ⊥ }
    ensures finalizer { (own : ℕ → Bool)
        → AreInterchangeable own (Let None Cede (OnCancel Never (Offer 0 (Number 1)))) (OnCancel Never (Offer 0 (Number 1))) → ⊥ }
    ensures acquire { (own : ℕ → Bool)
        → AreInterchangeable own (Let None Cede (Bracket None Never (Pure (Number 0)) (Pure (Number 0))))
        (Bracket None Never (Pure (Number 0)) (Pure (Number 0))) → ⊥ }
{}

/// Not `(seq (canceled) A)` for `(canceled)`, which are the same at open places alone, nor `(mask p (oncancel A
/// F))` for `(oncancel (mask p A) F)`: a request that is seen before the mask runs the finalizer of the latter
/// alone.
pub fn what_is_told_at_some_places_is_not_put()
    ensures canceled { (own : ℕ → Bool)
        → AreInterchangeable own (Let None Canceled (Offer 0 (Number 1))) Canceled → ⊥ }
    ensures boundary { (own : ℕ → Bool)
        → AreInterchangeable own (Mask 0 (OnCancel (Pure (Number 1)) (Offer 0 (Number 1))))
        (OnCancel (Mask 0 (Pure (Number 1))) (Offer 0 (Number 1))) → ⊥ }
{}

/// Nor at closed places: not `(oncancel A F)` for `A` where a mask alone closes them, which `A` may poll, nor
/// `(mask q A)`, whose inside `A` does not poll. `A` is `(poll p (canceled))`.
pub fn what_a_poll_tells_is_not_put_where_closed()
    ensures finalizer { (own : ℕ → Bool)
        → AreInterchangeableWhere is_closed own (OnCancel (Poll (Number 0) Canceled) (Offer 0 (Number 1))) (Poll (Number 0) Canceled) → ⊥ }
    ensures mask { (own : ℕ → Bool)
        → AreInterchangeableWhere is_closed own (Mask 1 (Poll (Number 0) Canceled)) (Poll (Number 0) Canceled) → ⊥ }
{}

/// Nor at sealed ones `(seq (canceled) A)` for `(canceled)`, or `(never)`: there a fiber that cancels itself goes on.
pub fn canceled_goes_on_where_sealed()
    ensures bound { (there : Cover → Bool) (own : ℕ → Bool) → there Sealed ≡ true
        → AreInterchangeableWhere there own (Let None Canceled (Offer 0 (Number 1))) Canceled → ⊥ }
    ensures never { (there : Cover → Bool) (own : ℕ → Bool) → there Sealed ≡ true
        → AreInterchangeableWhere there own Never Canceled → ⊥ }
{}
