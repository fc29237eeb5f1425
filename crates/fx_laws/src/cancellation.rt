//! What comes after `canceled`.
ghost use Rattle.std.specs.Prelude.{ℕ, Option, None};
ghost use Rattle.fx_term.specs.declared.name_kind.NameKind.{NameKind};
ghost use Rattle.fx_term.specs.declared.name_kind.NameKind.TheVariants as kind;
ghost use Rattle.fx_term.specs.Term.{Term, Canceled, Let, Mask};
ghost use Rattle.fx_term.specs.Scope.{with_name, IsScoped};
ghost use Rattle.fx_model.specs.MaskLaws.{IsPlain, forced_after};
ghost use Rattle.fx_laws.specs.Others.{LookTheSame};
ghost use Rattle.fx_laws.specs.Everywhere.{ShowTheSameWhereOpen};

/// `(seq (canceled) A)` is `(canceled)` at each open place. At a closed one, and in a clean-up, the fiber
/// goes on with `A`.
pub fn canceled_short_circuits_flat_map()
    ensures { (a : Term) → ShowTheSameWhereOpen (Let None Canceled a) Canceled }
{}

/// `(mask p (seq (canceled) A))` looks to others as `(forcer (mask p A) (canceled))` does, where `A` does
/// not use the poll: the fiber is canceled once it leaves the mask, whatever `A` came to.
pub fn uncancelable_canceled_associates_right_over_flat_map()
    ensures { (scope : ℕ → Option NameKind) (p : ℕ) (a : Term)
        → IsPlain a → IsScoped (with_name p kind.OtherPoll scope) a
        → LookTheSame (Mask p (Let None Canceled a)) (forced_after (Mask p a) Canceled) }
{}
