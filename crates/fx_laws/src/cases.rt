//! What a bracket with a release for each outcome is, Cats Effect's `bracketCase`.
ghost use Rattle.std.specs.Prelude.{ℕ, Option, Some, None};
ghost use Rattle.fx_term.specs.declared.node.Arg.TheVariants.{Number, Slot};
ghost use Rattle.fx_term.specs.declared.name_kind.NameKind.{NameKind};
ghost use Rattle.fx_term.specs.declared.name_kind.NameKind.TheVariants as kind;
ghost use Rattle.fx_term.specs.Term.{Term, Pure, Let, Bracket, BracketCase};
ghost use Rattle.fx_term.specs.Scope.{with_name, IsScoped};
ghost use Rattle.fx_laws.specs.Names.{without_names};
ghost use Rattle.fx_laws.specs.Everywhere.{ShowTheSameEverywhere};

/// `bracket` is `bracketCase` with one release for all outcomes: `(bracket x A U R)` is
/// `(bracketcase x A U (y R) (z R) R)`, where `R` stands under binders of `y` and `z`, so that none in it
/// binds these names, and uses neither.
pub fn bracket_is_a_bracket_case_of_one_release()
    ensures { (scope : ℕ → Option NameKind) (x y z : ℕ) (a u r : Term)
        → IsScoped (with_name y kind.OtherPoll (with_name z kind.OtherPoll scope)) r
        → ShowTheSameEverywhere (Bracket (Some x) a u r) (BracketCase x a u y r z r r) }
{}

/// `guarantee` is `bracketCase` with nothing to acquire and one release: `(guarantee A F)`, which is
/// `(bracket _ (pure 0) A F)`, is `(bracketcase x (pure 0) A (y F) (z F) F)`, where `A` and `F` do not use
/// `x`, and `F` uses neither `y` nor `z`.
pub fn guarantee_is_a_bracket_case_of_one_release()
    ensures { (scope : ℕ → Option NameKind) (x y z : ℕ) (a f : Term)
        → IsScoped (with_name x kind.OtherPoll scope) a
        → IsScoped (without_names scope x y z) f
        → ShowTheSameEverywhere (Bracket None (Pure (Number 0)) a f)
        (BracketCase x (Pure (Number 0)) a y f z f f) }
{}

/// What the release of `bracketCase` after success comes to is dropped, unless it is an error:
/// `(bracketcase x A U (y (seq S (pure y))) (z E) C)` is `(bracketcase x A U (y S) (z E) C)`.
pub fn value_of_a_release_after_success_is_dropped()
    ensures { (x y z : ℕ) (a u s e d : Term)
        → ShowTheSameEverywhere (BracketCase x a u y (Let None s (Pure (Slot y))) z e d)
        (BracketCase x a u y s z e d) }
{}
