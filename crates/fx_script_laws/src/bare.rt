//! Laws of terms that can be put for one another in every script where they stand at bare places: round which stands
//! nothing of their fiber that closes a place, no mask, acquire part, finalizer or release. A fiber that cancels itself
//! there is canceled. At closed places it goes on ([`crate::refused`]).
ghost use Rattle.std.specs.Prelude.{◌≡◌, ℕ, Option};
ghost use Rattle.fx_term.specs.Term.{Term, Canceled, Let};
ghost use Rattle.fx_term.specs.Need.{need};
ghost use Rattle.fx_model.specs.MaskLaws.{forced_after};
ghost use Rattle.fx_script_laws.specs.Cover.{is_bare};
ghost use Rattle.fx_script_laws.specs.Filled.{none_bound};
ghost use Rattle.fx_script_laws.specs.Interchange.{AreInterchangeableWhere};

/// `canceledAssociatesLeftOverFlatMap`: `(let x (canceled) A)` for `(canceled)`, and `(forcer (canceled) A)`, where `A`
/// starts no fiber.
pub fn canceled_dominates_where_bare()
    ensures bound { (x : Option ℕ) (a : Term) → need a ≡ 0 → AreInterchangeableWhere is_bare none_bound (Let x Canceled a) Canceled }
    ensures forced { (a : Term) → need a ≡ 0 → AreInterchangeableWhere is_bare none_bound (forced_after Canceled a) Canceled }
{}
