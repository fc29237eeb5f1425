//! Laws of terms that can be put for one another in every script, at any places: in any part of any form,
//! in started fibers, clean-ups and loops too. What follows of each is told by [`crate::scripts`] and
//! [`crate::contexts`].
//!
//! Where one term has a part that never runs, the law asks that this starts no fiber: fibers are numbered
//! by the numbers that terms before them can use, so that the numbers of later fibers would differ.
//!
//! Where one term has a step of its own before the other, the law asks that the first leaf of this stands at
//! the very place of the term (`BeginsOpenly`): else a request can be seen before that step which is not seen at
//! the leaf, or is seen there with more clean-ups ([`crate::refused`]). The leaf may wait.
ghost use Rattle.std.specs.Prelude.{◌≡◌, ℕ, Option, Some, None};
ghost use Rattle.fx_term.specs.declared.node.Arg.{Arg};
ghost use Rattle.fx_term.specs.declared.node.Arg.TheVariants.{Number, Slot};
ghost use Rattle.fx_term.specs.declared.name_kind.NameKind.{NameKind};
ghost use Rattle.fx_term.specs.declared.name_kind.NameKind.TheVariants as kind;
ghost use Rattle.fx_term.specs.Term.{Term, Pure, Raise, Canceled, Never, Cede, Let, Handle, Bracket, BracketCase, put_named};
ghost use Rattle.fx_term.specs.Need.{need};
ghost use Rattle.fx_term.specs.Scope.{with_name, with_named, IsScoped};
ghost use Rattle.fx_model.specs.MaskLaws.{forced_after};
ghost use Rattle.fx_laws.specs.Names.{without_names};
ghost use Rattle.fx_script_laws.specs.Filled.{none_bound, and_bound, and_named};
ghost use Rattle.fx_script_laws.specs.BeginsOpenly.{BeginsOpenly};
ghost use Rattle.fx_script_laws.specs.Interchange.{AreInterchangeable};

/// `(forcer A (forcer B F))` for `(forcer (forcer A B) F)`.
pub fn force_r_associates_in_scripts()
    ensures { (a b f : Term)
        → AreInterchangeable none_bound (forced_after a (forced_after b f)) (forced_after (forced_after a b) f) }
{}

/// `(forcer (canceled) A)` for `(seq (canceled) A)`.
pub fn force_r_canceled_in_scripts()
    ensures { (a : Term) → AreInterchangeable none_bound (forced_after Canceled a) (Let None Canceled a) }
{}

/// `(let x A (let y B F))` for `(let y (let x A B) F)`, where `F` stands under a binder of `x`, so that none
/// in it binds that name, and does not use it.
pub fn flat_map_associates_in_scripts()
    ensures { (scope : ℕ → Option NameKind) (x y : Option ℕ) (a b f : Term)
        → IsScoped (with_named x kind.OtherPoll scope) f
        → AreInterchangeable none_bound (Let x a (Let y b f)) (Let y (Let x a b) f) }
{}

/// `(bracket x A U R)` for `(bracketcase x A U (y R) (z R) R)`, where `R` uses neither `y` nor `z`.
pub fn bracket_is_a_bracket_case_in_scripts()
    ensures { (scope : ℕ → Option NameKind) (x y z : ℕ) (a u r : Term)
        → IsScoped (with_name y kind.OtherPoll (with_name z kind.OtherPoll scope)) r
        → AreInterchangeable none_bound (Bracket (Some x) a u r) (BracketCase x a u y r z r r) }
{}

/// `(guarantee A F)` for `(bracketcase x (pure 0) A (y F) (z F) F)`, where `A` and `F` do not use `x`, and
/// `F` uses neither `y` nor `z`.
pub fn guarantee_is_a_bracket_case_in_scripts()
    ensures { (scope : ℕ → Option NameKind) (x y z : ℕ) (a f : Term)
        → IsScoped (with_name x kind.OtherPoll scope) a
        → IsScoped (without_names scope x y z) f
        → AreInterchangeable none_bound (Bracket None (Pure (Number 0)) a f)
        (BracketCase x (Pure (Number 0)) a y f z f f) }
{}

/// `(cede)` for `(pure 0)`: no report tells turns.
pub fn cede_is_pure_in_scripts()
    ensures { AreInterchangeable none_bound Cede (Pure (Number 0)) }
{}

/// `(seq (never) A)` for `(never)`, and `(forcer (never) A)`.
pub fn never_dominates_in_scripts()
    ensures bound { (a : Term) → need a ≡ 0 → AreInterchangeable none_bound (Let None Never a) Never }
    ensures forced { (a : Term) → need a ≡ 0 → AreInterchangeable none_bound (forced_after Never a) Never }
{}

/// `(let x (raise v) B)` for `(raise v)`.
pub fn raise_is_left_zero_in_scripts()
    ensures { (x : Option ℕ) (v : Arg) (b : Term) → need b ≡ 0 → AreInterchangeable none_bound (Let x (Raise v) b) (Raise v) }
{}

/// `(handle (pure v) x B)` for `(pure v)`.
pub fn handle_of_pure_in_scripts()
    ensures { (v : Arg) (x : Option ℕ) (b : Term) → need b ≡ 0 → AreInterchangeable none_bound (Handle (Pure v) x b) (Pure v) }
{}

/// `(let x A (pure x))` for `A`. The name is the first term's own: nothing round it may bind `x`, as in a
/// script nothing does.
pub fn flat_map_right_identity_in_scripts()
    ensures { (x : ℕ) (a : Term) → AreInterchangeable (and_bound x none_bound) (Let (Some x) a (Pure (Slot x))) a }
{}

/// `(handle A x (raise x))` for `A`, in the same way.
pub fn handle_by_raise_in_scripts()
    ensures { (x : ℕ) (a : Term) → AreInterchangeable (and_bound x none_bound) (Handle a (Some x) (Raise (Slot x))) a }
{}

/// `(bracketcase x A U (y (seq S (pure y))) (z E) C)` for `(bracketcase x A U (y S) (z E) C)`, where nothing
/// round them binds `y`.
pub fn value_of_a_release_in_scripts()
    ensures { (x y z : ℕ) (a u s e d : Term) → AreInterchangeable (and_bound y none_bound)
        (BracketCase x a u y (Let None s (Pure (Slot y))) z e d) (BracketCase x a u y s z e d) }
{}

/// `(forcer (pure n) A)` for `A`, where the first leaf of that stands at the very place, and is not `(canceled)`.
pub fn force_r_discards_pure_in_scripts()
    ensures { (n : ℕ) (a : Term) → BeginsOpenly a → AreInterchangeable none_bound (forced_after (Pure (Number n)) a) a }
{}

/// `(forcer (raise n) A)` for `A`, in the same way.
pub fn force_r_discards_error_in_scripts()
    ensures { (n : ℕ) (a : Term) → BeginsOpenly a → AreInterchangeable none_bound (forced_after (Raise (Number n)) a) a }
{}

/// `(seq (cede) A)` for `A`, in the same way.
pub fn cede_before_a_term_in_scripts()
    ensures { (a : Term) → BeginsOpenly a → AreInterchangeable none_bound (Let None Cede a) a }
{}

/// `(let x (pure n) B)` for B with n for x, where B begins so. The name is the first term's own.
pub fn flat_map_left_identity_in_scripts()
    ensures { (x : Option ℕ) (n : ℕ) (b : Term) → BeginsOpenly b
        → AreInterchangeable (and_named x none_bound) (Let x (Pure (Number n)) b) (put_named x n b) }
{}

/// `(handle (raise n) x B)` for B with n for x, in the same way.
pub fn handle_of_raise_in_scripts()
    ensures { (x : Option ℕ) (n : ℕ) (b : Term) → BeginsOpenly b
        → AreInterchangeable (and_named x none_bound) (Handle (Raise (Number n)) x b) (put_named x n b) }
{}
