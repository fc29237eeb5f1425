//! What can be told apart, so that the laws say something, and one pair that cannot.
ghost use Rattle.std.specs.Prelude.{◌↔◌, Bool, None, []};
ghost use Rattle.fx_term.specs.declared.node.Arg.TheVariants.{Number, Slot};
ghost use Rattle.fx_term.specs.Term.{Term, Pure, Raise, Canceled, Never, Cede, Let, Handle, Mask, Poll, OnCancel, Offer};
ghost use Rattle.fx_model.specs.Row.{Counts, Label, Row};
ghost use Rattle.fx_model.specs.Step.{Progress, Step};
ghost use Rattle.fx_model.specs.MaskLaws.{ShowTheSame, forced_after};
ghost use Rattle.fx_laws.specs.Everywhere.{InCleanup, ShowTheSameAt, ShowTheSameEverywhere};
ghost use Rattle.fx_laws.specs.Others.{LookTheSame};
ghost use Rattle.fx_laws.specs.WithoutTurns.{progress_without_turns, label_without_turns};

/// Others see what a finalizer does: `(oncancel (canceled) (offer q 1))` does not look to them as
/// `(canceled)` does.
pub fn others_see_what_a_finalizer_does()
    ensures { LookTheSame (OnCancel Canceled (Offer 0 (Number 1))) Canceled → ⊥ }
{}

/// `(seq (canceled) (offer q 1))` is `(canceled)` at open places alone: in a mask the element is put.
pub fn canceled_goes_on_at_closed_places()
    ensures { ShowTheSameEverywhere (Let None Canceled (Offer 0 (Number 1))) Canceled → ⊥ }
{}

/// And in a clean-up, where no place is open: a finalizer that requests its own fiber goes on.
pub fn canceled_goes_on_in_clean_ups()
    ensures { ShowTheSameAt (InCleanup None [] []) (Let None Canceled (Offer 0 (Number 1))) Canceled → ⊥ }
{}

/// A finalizer in a mask is told from itself by a clean-up that gives out the number of its region as a
/// value, as no script's does: the mask has taken a number.
pub fn numbers_of_regions_tell_a_masked_finalizer()
    ensures { ShowTheSameEverywhere (OnCancel Canceled (Mask 0 (Pure (Number 0))))
        (OnCancel Canceled (Pure (Number 0))) → ⊥ }
{}

/// `(mask p (oncancel A F))` is not `(oncancel (mask p A) F)`: a request that is seen before the mask is
/// entered runs the finalizer of the latter alone.
pub fn finalizer_stands_inside_a_mask_or_outside()
    ensures { LookTheSame (Mask 0 (OnCancel (Pure (Number 1)) (Offer 0 (Number 1))))
        (OnCancel (Mask 0 (Pure (Number 1))) (Offer 0 (Number 1))) → ⊥ }
{}

/// A term with a step before it is not that term: a request that is seen before the step leaves out a
/// finalizer which, with nothing before it, always runs. So `(forcer (pure n) A)`, `(forcer (raise n) A)`,
/// `(let _ (pure n) A)`, `(seq (cede) A)`, `(handle (raise n) _ A)` and `(mask p (poll p A))` are not `A` at
/// the place of a whole term, not even as others see it, where `A` is `(oncancel (canceled) (offer q 1))`.
pub fn request_is_seen_before_the_first_step()
    ensures forced { LookTheSame (forced_after (Pure (Number 0)) (OnCancel Canceled (Offer 0 (Number 1))))
        (OnCancel Canceled (Offer 0 (Number 1))) → ⊥ }
    ensures forced_error { LookTheSame (forced_after (Raise (Number 0)) (OnCancel Canceled (Offer 0 (Number 1))))
        (OnCancel Canceled (Offer 0 (Number 1))) → ⊥ }
    ensures bound { LookTheSame (Let None (Pure (Number 0)) (OnCancel Canceled (Offer 0 (Number 1))))
        (OnCancel Canceled (Offer 0 (Number 1))) → ⊥ }
    ensures ceded { LookTheSame (Let None Cede (OnCancel Canceled (Offer 0 (Number 1))))
        (OnCancel Canceled (Offer 0 (Number 1))) → ⊥ }
    ensures polled { LookTheSame (Mask 0 (Poll (Slot 0) (OnCancel Canceled (Offer 0 (Number 1)))))
        (OnCancel Canceled (Offer 0 (Number 1))) → ⊥ }
    ensures handled { LookTheSame (Handle (Raise (Number 0)) None (OnCancel Canceled (Offer 0 (Number 1))))
        (OnCancel Canceled (Offer 0 (Number 1))) → ⊥ }
{}

/// For the same reason `(oncancel (oncancel (canceled) F) G)` is not
/// `(forcer (mask p (forcer F G)) (canceled))` without exception: the latter can be canceled before its
/// mask, and then neither `F` nor `G` runs.
pub fn request_is_seen_before_the_mask_of_finalizers()
    ensures { LookTheSame (OnCancel (OnCancel Canceled (Offer 0 (Number 1))) (Pure (Number 0)))
        (forced_after (Mask 0 (forced_after (Offer 0 (Number 1)) (Pure (Number 0)))) Canceled) → ⊥ }
{}

/// `(mask p T)` is not `T`: in the mask a fiber that requests itself goes on.
pub fn mask_is_not_its_inside()
    ensures { LookTheSame (Mask 0 (Let None Canceled (Offer 0 (Number 1))))
        (Let None Canceled (Offer 0 (Number 1))) → ⊥ }
{}

/// `(never)` is not `(canceled)`: it is canceled once it has seen a request, and not before.
pub fn never_is_not_canceled()
    ensures { ShowTheSame Never Canceled → ⊥ }
{}

/// `(cede)` cannot be told from `(pure 0)`: that a fiber gives up its turn is no event, so no report tells
/// it. Nor does a schedule: each step of the one is a step of the other, silent ones counted, so that they
/// make their steps at the same picks. What it does is said of turns alone, and there the two are told apart
/// (`fx_spawn_laws`, `ceding`).
pub fn cede_is_pure_of_zero()
    ensures same { ShowTheSameEverywhere Cede (Pure (Number 0)) }
    ensures steps { (closed : Bool) (c d : Counts) (l : Label) (t : Term)
        → Row closed c Cede l d t ↔ Row closed c (Pure (Number 0)) l d t }
{}

/// Nor from there on, wherever they stand in a term: with `(pure 0)` for each `(cede)` in it, in what runs and in
/// what does not run yet, a fiber makes the same steps, and what it starts begins with such a term.
pub fn fibers_step_alike_without_turns()
    ensures { (c d : Counts) (p q : Progress) (l : Label) → Step c p l d q
        → Step c (progress_without_turns p) (label_without_turns l) d (progress_without_turns q) }
{}
