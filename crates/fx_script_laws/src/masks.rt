//! Laws of a mask that is a whole script, where main is not requested. A mask that is entered in the one
//! script and not in the other numbers the masks after it otherwise, so these are no terms that can be put for
//! one another at each place; the reports are the same all the same, in one order of all events and in one
//! list, too, as those of a replay are.
ghost use Rattle.std.specs.Prelude.{◌≡◌, ◌≢◌, ◌↔◌, ℕ, Bool, false, List, Option};
ghost use Rattle.fx_term.specs.declared.node.Arg.TheVariants.{Slot};
ghost use Rattle.fx_term.specs.declared.name_kind.NameKind.{NameKind};
ghost use Rattle.fx_term.specs.declared.name_kind.NameKind.TheVariants as kind;
ghost use Rattle.fx_term.specs.Need.{need};
ghost use Rattle.fx_term.specs.Scope.{with_name, IsScoped};
ghost use Rattle.fx_term.specs.Term.{Term, Mask, Poll, OnCancel};
ghost use Rattle.fx_model.specs.Causes.{IsLawfulInOneOrder};
ghost use Rattle.fx_model.specs.Happenings.{IsLawfulInOneList};
ghost use Rattle.fx_model.specs.LawfulReport.{IsLawfulReport};
ghost use Rattle.fx_model.specs.MaskLaws.{IsPlain, IsScopedWithout};
ghost use Rattle.fx_model.specs.Report.{ReportView, is_requested_in};

/// `uncancelablePollIsIdentity` of whole scripts: `(main (mask p (poll p A)))` has the lawful reports of
/// `(main A)`. A request that main sees before its mask would leave out the finalizers round the first leaf of
/// `A`, so in these reports nobody requests it.
pub fn scripts_may_mask_and_poll_at_once()
    ensures reports { (scope : ℕ → Option NameKind) (p : ℕ) (a : Term) (capacities : List ℕ) (may : ℕ → Bool) (r : ReportView)
        → IsPlain a → IsScoped (with_name p kind.OtherPoll scope) a → is_requested_in r 0 ≡ false
        → IsLawfulReport (record { term = Mask p (Poll (Slot p) a); capacities = capacities }) may r
        ↔ IsLawfulReport (record { term = a; capacities = capacities }) may r }
    ensures orders { (scope : ℕ → Option NameKind) (p : ℕ) (a : Term) (capacities : List ℕ) (may : ℕ → Bool) (r : ReportView)
        → IsPlain a → IsScoped (with_name p kind.OtherPoll scope) a → is_requested_in r 0 ≡ false
        → IsLawfulInOneOrder (record { term = Mask p (Poll (Slot p) a); capacities = capacities }) may r
        ↔ IsLawfulInOneOrder (record { term = a; capacities = capacities }) may r }
    ensures lists { (scope : ℕ → Option NameKind) (p : ℕ) (a : Term) (capacities : List ℕ) (may : ℕ → Bool) (r : ReportView)
        → IsPlain a → IsScoped (with_name p kind.OtherPoll scope) a → is_requested_in r 0 ≡ false
        → IsLawfulInOneList (record { term = Mask p (Poll (Slot p) a); capacities = capacities }) may r
        ↔ IsLawfulInOneList (record { term = a; capacities = capacities }) may r }
{}

/// `(main (mask p (mask q A)))` has the lawful reports of `(main (mask p A))`, where `A` uses neither poll.
pub fn scripts_may_mask_once()
    ensures reports { (scope : ℕ → Option NameKind) (p q : ℕ) (a : Term) (capacities : List ℕ) (may : ℕ → Bool) (r : ReportView)
        → IsPlain a → p ≢ q → IsScopedWithout scope p q a → is_requested_in r 0 ≡ false
        → IsLawfulReport (record { term = Mask p (Mask q a); capacities = capacities }) may r
        ↔ IsLawfulReport (record { term = Mask p a; capacities = capacities }) may r }
    ensures orders { (scope : ℕ → Option NameKind) (p q : ℕ) (a : Term) (capacities : List ℕ) (may : ℕ → Bool) (r : ReportView)
        → IsPlain a → p ≢ q → IsScopedWithout scope p q a → is_requested_in r 0 ≡ false
        → IsLawfulInOneOrder (record { term = Mask p (Mask q a); capacities = capacities }) may r
        ↔ IsLawfulInOneOrder (record { term = Mask p a; capacities = capacities }) may r }
    ensures lists { (scope : ℕ → Option NameKind) (p q : ℕ) (a : Term) (capacities : List ℕ) (may : ℕ → Bool) (r : ReportView)
        → IsPlain a → p ≢ q → IsScopedWithout scope p q a → is_requested_in r 0 ≡ false
        → IsLawfulInOneList (record { term = Mask p (Mask q a); capacities = capacities }) may r
        ↔ IsLawfulInOneList (record { term = Mask p a; capacities = capacities }) may r }
{}

/// `(main (mask p (mask q (poll p (poll q A)))))` has those of `(main (mask p A))`, too: the polls come in the
/// inverse order.
pub fn scripts_may_poll_in_the_inverse_order()
    ensures reports { (scope : ℕ → Option NameKind) (p q : ℕ) (a : Term) (capacities : List ℕ) (may : ℕ → Bool) (r : ReportView)
        → IsPlain a → p ≢ q → IsScopedWithout scope p q a → is_requested_in r 0 ≡ false
        → IsLawfulReport (record { term = Mask p (Mask q (Poll (Slot p) (Poll (Slot q) a))); capacities = capacities }) may r
        ↔ IsLawfulReport (record { term = Mask p a; capacities = capacities }) may r }
    ensures orders { (scope : ℕ → Option NameKind) (p q : ℕ) (a : Term) (capacities : List ℕ) (may : ℕ → Bool) (r : ReportView)
        → IsPlain a → p ≢ q → IsScopedWithout scope p q a → is_requested_in r 0 ≡ false
        → IsLawfulInOneOrder (record { term = Mask p (Mask q (Poll (Slot p) (Poll (Slot q) a))); capacities = capacities }) may r
        ↔ IsLawfulInOneOrder (record { term = Mask p a; capacities = capacities }) may r }
    ensures lists { (scope : ℕ → Option NameKind) (p q : ℕ) (a : Term) (capacities : List ℕ) (may : ℕ → Bool) (r : ReportView)
        → IsPlain a → p ≢ q → IsScopedWithout scope p q a → is_requested_in r 0 ≡ false
        → IsLawfulInOneList (record { term = Mask p (Mask q (Poll (Slot p) (Poll (Slot q) a))); capacities = capacities }) may r
        ↔ IsLawfulInOneList (record { term = Mask p a; capacities = capacities }) may r }
{}

/// `(main (mask p (oncancel A F)))` has those of `(main (mask p A))`, where `F` starts no fiber, so that the
/// numbers of fibers are the same.
pub fn scripts_may_leave_out_a_masked_finalizer()
    ensures reports { (scope : ℕ → Option NameKind) (p : ℕ) (a f : Term) (capacities : List ℕ) (may : ℕ → Bool) (r : ReportView)
        → IsPlain a → IsScoped (with_name p kind.OtherPoll scope) a → need f ≡ 0 → is_requested_in r 0 ≡ false
        → IsLawfulReport (record { term = Mask p (OnCancel a f); capacities = capacities }) may r
        ↔ IsLawfulReport (record { term = Mask p a; capacities = capacities }) may r }
    ensures orders { (scope : ℕ → Option NameKind) (p : ℕ) (a f : Term) (capacities : List ℕ) (may : ℕ → Bool) (r : ReportView)
        → IsPlain a → IsScoped (with_name p kind.OtherPoll scope) a → need f ≡ 0 → is_requested_in r 0 ≡ false
        → IsLawfulInOneOrder (record { term = Mask p (OnCancel a f); capacities = capacities }) may r
        ↔ IsLawfulInOneOrder (record { term = Mask p a; capacities = capacities }) may r }
    ensures lists { (scope : ℕ → Option NameKind) (p : ℕ) (a f : Term) (capacities : List ℕ) (may : ℕ → Bool) (r : ReportView)
        → IsPlain a → IsScoped (with_name p kind.OtherPoll scope) a → need f ≡ 0 → is_requested_in r 0 ≡ false
        → IsLawfulInOneList (record { term = Mask p (OnCancel a f); capacities = capacities }) may r
        ↔ IsLawfulInOneList (record { term = Mask p a; capacities = capacities }) may r }
{}
