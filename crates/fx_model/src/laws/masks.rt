//! Laws of masks, polls and what is forced. A function here does nothing: its contract is the law.
//!
//! They speak of all runs of a fiber, finished or not, requested or not, and of what these show:
//! each label but the silent ones, so of a fiber that is started all that it begins with.
ghost use Rattle.std.specs.Prelude.{◌≢◌, ℕ, Option, List};
ghost use Rattle.fx_term.specs.declared.node.Arg.TheVariants.{Number, Slot};
ghost use Rattle.fx_term.specs.declared.node.Node.{Node};
ghost use Rattle.fx_term.specs.Term.{Term, Pure, Mask, Poll, OnCancel};
ghost use Rattle.fx_term.specs.declared.name_kind.NameKind.{NameKind};
ghost use Rattle.fx_term.specs.declared.name_kind.NameKind.TheVariants as kind;
ghost use Rattle.fx_term.specs.Scope.{with_name, IsScoped};
ghost use Rattle.fx_term.specs.Meaning.{root_term};
ghost use Rattle.fx_term.specs.Code.{IsCode};
ghost use Rattle.fx_model.specs.MaskLaws.{forced_after, IsPlain, IsScopedWithout, ShowTheSame, ShowTheSameUnlessSeenFirst, ShowsAllOf};

/// A mask that its own poll opens at once shows all that the term inside shows, and nothing else but
/// what begins with a request that is seen: seen before the mask is entered, it leaves out the
/// finalizers that stand round the first leaf of the term.
pub fn uncancelable_poll_is_identity()
    ensures same { (scope : ℕ → Option NameKind) (p : ℕ) (t : Term)
        → IsPlain t → IsScoped (with_name p kind.OtherPoll scope) t
        → ShowTheSameUnlessSeenFirst (Mask p (Poll (Slot p) t)) t }
    ensures all { (scope : ℕ → Option NameKind) (p : ℕ) (t : Term)
        → IsPlain t → IsScoped (with_name p kind.OtherPoll scope) t
        → ShowsAllOf (Mask p (Poll (Slot p) t)) t }
{}

/// A mask directly inside another, where the poll of neither is used, shows what the outer one alone
/// shows.
pub fn uncancelable_ignored_poll_eliminates_nesting()
    ensures { (scope : ℕ → Option NameKind) (p r : ℕ) (t : Term)
        → p ≢ r → IsPlain t → IsScopedWithout scope p r t
        → ShowTheSame (Mask p (Mask r t)) (Mask p t) }
{}

/// Polls of two masks in the inverse order open the inner mask alone, so the term inside is masked as
/// if the outer mask stood there alone.
pub fn uncancelable_poll_inverse_nest_is_uncancelable()
    ensures { (scope : ℕ → Option NameKind) (p r : ℕ) (t : Term)
        → p ≢ r → IsPlain t → IsScopedWithout scope p r t
        → ShowTheSame (Mask p (Mask r (Poll (Slot p) (Poll (Slot r) t)))) (Mask p t) }
{}

/// A finalizer directly inside a mask whose poll is not used shows nothing, since the place that it
/// stands at is never canceled.
pub fn uncancelable_cancels_associated_finalizer()
    ensures { (scope : ℕ → Option NameKind) (p : ℕ) (t f : Term)
        → IsPlain t → IsScoped (with_name p kind.OtherPoll scope) t
        → ShowTheSame (Mask p (OnCancel t f)) (Mask p t) }
{}

/// A term that is forced after a value shows what it shows alone, but for what begins with a request
/// that is seen: seen before the term is entered, it leaves out the finalizers that stand round the
/// first leaf of the term.
pub fn force_after_pure_is_identity()
    ensures same { (n : ℕ) (t : Term)
        → ShowTheSameUnlessSeenFirst (forced_after (Pure (Number n)) t) t }
    ensures all { (n : ℕ) (t : Term) → ShowsAllOf (forced_after (Pure (Number n)) t) t }
{}

/// The term of a code is plain, as is each part of it, so the other laws speak of what scripts have.
pub fn code_is_plain()
    ensures { (queues : ℕ) (nodes : List Node) → IsCode queues nodes → IsPlain (root_term nodes) }
{}
