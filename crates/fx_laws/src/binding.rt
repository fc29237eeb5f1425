//! What takes the value of a term.
ghost use Rattle.std.specs.Prelude.{ℕ, Option};
ghost use Rattle.fx_term.specs.Term.{Term, Let};
ghost use Rattle.fx_term.specs.declared.name_kind.NameKind.{NameKind};
ghost use Rattle.fx_term.specs.declared.name_kind.NameKind.TheVariants as kind;
ghost use Rattle.fx_term.specs.Scope.{with_named, IsScoped};
ghost use Rattle.fx_laws.specs.Everywhere.{ShowTheSameEverywhere};

/// `(let x A (let y B F))` is `(let y (let x A B) F)`, where `F` stands under a binder of `x`, so that none
/// in it binds that name, and does not use it.
pub fn flat_map_associativity()
    ensures { (scope : ℕ → Option NameKind) (x y : Option ℕ) (a b f : Term)
        → IsScoped (with_named x kind.OtherPoll scope) f
        → ShowTheSameEverywhere (Let x a (Let y b f)) (Let y (Let x a b) f) }
{}
