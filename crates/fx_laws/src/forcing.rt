//! What is forced after a term: it comes once that has succeeded or erred.
ghost use Rattle.std.specs.Prelude.{ℕ, None};
ghost use Rattle.fx_term.specs.declared.node.Arg.TheVariants.{Number};
ghost use Rattle.fx_term.specs.Term.{Term, Pure, Raise, Canceled, Let};
ghost use Rattle.fx_model.specs.MaskLaws.{forced_after};
ghost use Rattle.fx_laws.specs.Everywhere.{ShowTheSameEverywhere, ShowTheSameEverywhereUnlessSeenFirst};
ghost use Rattle.fx_laws.specs.Everywhere.{ShowsItOrIsCanceledBefore};

/// `(forcer (pure n) A)` is `A` where the fiber is not canceled at once, but for what begins with a request
/// that is seen there. Exactly, it shows what `A` does if it is not canceled at once, and what `(never)`
/// does: a cancellation before the fiber comes to `A` leaves out the finalizers that stand round the first
/// leaf of `A`. At a closed place and in a clean-up, where no request is seen, it is `A` without exception.
pub fn force_r_discards_pure()
    ensures same { (n : ℕ) (a : Term)
        → ShowTheSameEverywhereUnlessSeenFirst (forced_after (Pure (Number n)) a) a }
    ensures exactly { (n : ℕ) (a : Term) → ShowsItOrIsCanceledBefore (forced_after (Pure (Number n)) a) a }
{}

/// `(forcer (raise n) A)` is `A`, with the same exceptions.
pub fn force_r_discards_error()
    ensures same { (n : ℕ) (a : Term)
        → ShowTheSameEverywhereUnlessSeenFirst (forced_after (Raise (Number n)) a) a }
    ensures exactly { (n : ℕ) (a : Term) → ShowsItOrIsCanceledBefore (forced_after (Raise (Number n)) a) a }
{}

/// `(forcer (canceled) A)` is `(seq (canceled) A)`: at a closed place and in a clean-up, where the fiber
/// goes on, too.
pub fn force_r_canceled_short_circuits()
    ensures { (a : Term) → ShowTheSameEverywhere (forced_after Canceled a) (Let None Canceled a) }
{}

/// `(forcer A (forcer B F))` is `(forcer (forcer A B) F)`.
pub fn force_r_associativity()
    ensures { (a b f : Term)
        → ShowTheSameEverywhere (forced_after a (forced_after b f)) (forced_after (forced_after a b) f) }
{}
