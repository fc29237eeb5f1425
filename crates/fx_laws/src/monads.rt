//! The laws of a monad with errors: what a value or an error that comes at once is, with a part after it or
//! a handler round it.
ghost use Rattle.std.specs.Prelude.{ℕ, Option, Some};
ghost use Rattle.fx_term.specs.declared.node.Arg.TheVariants.{Number, Slot};
ghost use Rattle.fx_term.specs.Term.{Term, Pure, Raise, Let, Handle, put_named};
ghost use Rattle.fx_laws.specs.Everywhere.{ShowTheSameEverywhere, ShowTheSameEverywhereUnlessSeenFirst};
ghost use Rattle.fx_laws.specs.Everywhere.{ShowsItOrIsCanceledBefore};

/// `(let x (pure n) B)` is B with n for x where the fiber is not canceled at once, but for what begins with
/// a request that is seen there. Exactly, it shows what that does if it is not canceled at once, and what
/// `(never)` does.
pub fn flat_map_left_identity()
    ensures same { (x : Option ℕ) (n : ℕ) (b : Term)
        → ShowTheSameEverywhereUnlessSeenFirst (Let x (Pure (Number n)) b) (put_named x n b) }
    ensures exactly { (x : Option ℕ) (n : ℕ) (b : Term)
        → ShowsItOrIsCanceledBefore (Let x (Pure (Number n)) b) (put_named x n b) }
{}

/// `(let x A (pure x))` is `A`.
pub fn flat_map_right_identity()
    ensures { (x : ℕ) (a : Term) → ShowTheSameEverywhere (Let (Some x) a (Pure (Slot x))) a }
{}

/// `(let x (raise n) B)` is `(raise n)`.
pub fn raise_is_left_zero_of_flat_map()
    ensures { (x : Option ℕ) (n : ℕ) (b : Term)
        → ShowTheSameEverywhere (Let x (Raise (Number n)) b) (Raise (Number n)) }
{}

/// `(handle (pure n) x B)` is `(pure n)`.
pub fn handle_of_pure_is_pure()
    ensures { (x : Option ℕ) (n : ℕ) (b : Term)
        → ShowTheSameEverywhere (Handle (Pure (Number n)) x b) (Pure (Number n)) }
{}

/// `(handle (raise n) x B)` is B with n for x, with the exceptions of [`flat_map_left_identity`].
pub fn handle_of_raise_is_its_handler()
    ensures same { (x : Option ℕ) (n : ℕ) (b : Term)
        → ShowTheSameEverywhereUnlessSeenFirst (Handle (Raise (Number n)) x b) (put_named x n b) }
    ensures exactly { (x : Option ℕ) (n : ℕ) (b : Term)
        → ShowsItOrIsCanceledBefore (Handle (Raise (Number n)) x b) (put_named x n b) }
{}

/// An error that is handled by raising it again is as it was: `(handle A x (raise x))` is `A`.
pub fn handle_by_raise_is_nothing()
    ensures { (x : ℕ) (a : Term) → ShowTheSameEverywhere (Handle a (Some x) (Raise (Slot x))) a }
{}
