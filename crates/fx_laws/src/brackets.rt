//! What a bracket is.
ghost use Rattle.std.specs.Prelude.{◌≢◌, ℕ, Option, Some, None};
ghost use Rattle.fx_term.specs.declared.node.Arg.TheVariants.{Number, Slot};
ghost use Rattle.fx_term.specs.declared.name_kind.NameKind.{NameKind};
ghost use Rattle.fx_term.specs.declared.name_kind.NameKind.TheVariants as kind;
ghost use Rattle.fx_term.specs.Term.{Term, Pure, Raise, Let, Handle, Mask, Poll, OnCancel, Bracket};
ghost use Rattle.fx_term.specs.Scope.{with_named, IsNew, IsScoped};
ghost use Rattle.fx_model.specs.MaskLaws.{IsPlain};
ghost use Rattle.fx_laws.specs.Names.{without_names};
ghost use Rattle.fx_laws.specs.Others.{LookTheSameUnlessCanceledAlone, LooksLikeAllOf};

/// `(bracket x A U R)` looks to others as a mask does that acquires, polls the use, and releases after
/// it, by a finalizer or by the value or error of the use:
/// `(mask p (let x A (let y (handle (oncancel (poll p U) R) e (seq (handle R _ (pure 0)) (raise e))) (seq R (pure y)))))`.
/// The names p, y and e are new ones, of which y and e may be one. The mask can also be canceled before
/// it is entered, and then others see of it that it was canceled, and no more.
pub fn bracket_is_a_mask_with_a_polled_use()
    ensures same { (scope : ℕ → Option NameKind) (p y e : ℕ) (x : Option ℕ) (a u r : Term)
        → p ≢ y → p ≢ e → IsNew (without_names scope p y e) x
        → IsPlain a → IsPlain u → IsPlain r
        → IsScoped (without_names scope p y e) a
        → IsScoped (with_named x kind.Value (without_names scope p y e)) u
        → IsScoped (with_named x kind.Value (without_names scope p y e)) r
        → LookTheSameUnlessCanceledAlone (Bracket x a u r)
        (Mask p (Let x a
        (Let (Some y)
        (Handle (OnCancel (Poll (Slot p) u) r) (Some e) (Let None (Handle r None (Pure (Number 0))) (Raise (Slot e))))
        (Let None r (Pure (Slot y)))))) }
    ensures all { (scope : ℕ → Option NameKind) (p y e : ℕ) (x : Option ℕ) (a u r : Term)
        → p ≢ y → p ≢ e → IsNew (without_names scope p y e) x
        → IsPlain a → IsPlain u → IsPlain r
        → IsScoped (without_names scope p y e) a
        → IsScoped (with_named x kind.Value (without_names scope p y e)) u
        → IsScoped (with_named x kind.Value (without_names scope p y e)) r
        → LooksLikeAllOf
        (Mask p (Let x a
        (Let (Some y)
        (Handle (OnCancel (Poll (Slot p) u) r) (Some e) (Let None (Handle r None (Pure (Number 0))) (Raise (Slot e))))
        (Let None r (Pure (Slot y))))))
        (Bracket x a u r) }
{}
