//! What comes after `never`: nothing.
ghost use Rattle.fx_term.specs.Term.{Term, Let, Never};
ghost use Rattle.fx_model.specs.MaskLaws.{forced_after};
ghost use Rattle.std.specs.Prelude.{None};
ghost use Rattle.fx_laws.specs.Everywhere.{ShowTheSameEverywhere};

/// `(seq (never) A)` is `(never)`.
pub fn never_dominates_over_flat_map()
    ensures { (a : Term) → ShowTheSameEverywhere (Let None Never a) Never }
{}

/// `(forcer (never) A)` is `(never)`.
pub fn force_r_never_is_never()
    ensures { (a : Term) → ShowTheSameEverywhere (forced_after Never a) Never }
{}
