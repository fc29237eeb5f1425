//! Laws of terms that can be put for one another in every script where they stand at closed places: in a mask
//! that no poll opened, or at a sealed place. Nothing is canceled there, and no request is seen, before the first
//! step of either. Elsewhere these laws fail, or ask for more ([`crate::refused`], [`crate::laws`]).
ghost use Rattle.std.specs.Prelude.{◌≡◌, ℕ, Bool, Option, None};
ghost use Rattle.fx_term.specs.declared.node.Arg.TheVariants.{Number};
ghost use Rattle.fx_term.specs.declared.name_kind.NameKind.{NameKind};
ghost use Rattle.fx_term.specs.declared.name_kind.NameKind.TheVariants as kind;
ghost use Rattle.fx_term.specs.Term.{Term, Pure, Raise, Cede, Let, Handle, Mask, OnCancel, put_named};
ghost use Rattle.fx_term.specs.Need.{need};
ghost use Rattle.fx_term.specs.Scope.{with_name, IsScoped};
ghost use Rattle.fx_model.specs.MaskLaws.{forced_after};
ghost use Rattle.fx_script_laws.specs.Cover.{Cover, is_closed, is_sealed};
ghost use Rattle.fx_script_laws.specs.Filled.{none_bound, and_named};
ghost use Rattle.fx_script_laws.specs.Interchange.{AreInterchangeable, AreInterchangeableWhere};

/// What can be put for one another at each place can be so at those that are closed.
pub fn at_each_place_is_where_closed_too()
    ensures { (there : Cover → Bool) (own : ℕ → Bool) (t u : Term) → AreInterchangeable own t u → AreInterchangeableWhere there own t u }
{}

/// `(forcer (pure n) A)` for `A`, whatever that begins with.
pub fn force_r_discards_pure_where_closed()
    ensures { (n : ℕ) (a : Term) → AreInterchangeableWhere is_closed none_bound (forced_after (Pure (Number n)) a) a }
{}

/// `(forcer (raise n) A)` for `A`, in the same way.
pub fn force_r_discards_error_where_closed()
    ensures { (n : ℕ) (a : Term) → AreInterchangeableWhere is_closed none_bound (forced_after (Raise (Number n)) a) a }
{}

/// `(seq (cede) A)` for `A`, in the same way.
pub fn cede_before_a_term_where_closed()
    ensures { (a : Term) → AreInterchangeableWhere is_closed none_bound (Let None Cede a) a }
{}

/// `(let x (pure n) B)` for B with n for x. The name is the first term's own.
pub fn flat_map_left_identity_where_closed()
    ensures { (x : Option ℕ) (n : ℕ) (b : Term)
        → AreInterchangeableWhere is_closed (and_named x none_bound) (Let x (Pure (Number n)) b) (put_named x n b) }
{}

/// `(handle (raise n) x B)` for B with n for x, in the same way.
pub fn handle_of_raise_where_closed()
    ensures { (x : Option ℕ) (n : ℕ) (b : Term)
        → AreInterchangeableWhere is_closed (and_named x none_bound) (Handle (Raise (Number n)) x b) (put_named x n b) }
{}

/// `onCancelAssociatesOverUncancelableBoundary`: `(mask p (oncancel A F))` for `(oncancel (mask p A) F)`, where
/// `F` does not use `p`. What a request that is seen before the mask would run is not seen there.
pub fn finalizer_over_a_boundary_where_closed()
    ensures { (scope : ℕ → Option NameKind) (p : ℕ) (a f : Term) → IsScoped (with_name p kind.OtherPoll scope) f
        → AreInterchangeableWhere is_closed none_bound (Mask p (OnCancel a f)) (OnCancel (Mask p a) f) }
{}

/// `(oncancel A F)` for `A` at a sealed place, where `F` starts no fiber: no poll of `A` opens it, so `F` never
/// runs. In masks alone a poll may ([`crate::refused`]).
pub fn finalizer_is_nothing_where_sealed()
    ensures { (a f : Term) → need f ≡ 0 → AreInterchangeableWhere is_sealed none_bound (OnCancel a f) a }
{}
