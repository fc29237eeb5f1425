//! Laws of a fiber that is canceled or not: of one that waits for good, and then of any one. A function here
//! does nothing: its contract is the law.
ghost use Rattle.std.specs.Prelude.{◌≡◌, ℕ, Bool, []};
ghost use Rattle.fx_term.specs.declared.node.Arg.TheVariants.{Number};
ghost use Rattle.fx_term.specs.declared.outcome.Outcome.TheVariants.{Succeeded, Canceled};
ghost use Rattle.fx_term.specs.Script.{ScriptView};
ghost use Rattle.fx_term.specs.Term.{Term, Pure, Never, Start};
ghost use Rattle.fx_model.specs.LawfulReport.{IsLawfulReport};
ghost use Rattle.fx_model.specs.Origin.{child_origin};
ghost use Rattle.fx_model.specs.Report.{ReportView};
ghost use Rattle.fx_model.specs.Scopes.{IsScopedOver};
ghost use Rattle.fx_spawn_laws.specs.MainFiber.{FiberEnds, MainEnds, MainAwaits, handed, start_cancel_and_join, masked_start, masked_cancel};
ghost use Rattle.fx_spawn_laws.specs.MainFiber.{start_cancel_and_join_of, masked_start_of, masked_cancel_of};

/// `start(never).flatMap(f => f.cancel *> f.join)` comes to the third part of the join.
pub fn fiber_cancelation_is_outcome_canceled()
    ensures { (s : ScriptView) (may : ℕ → Bool) (r : ReportView) (m : ℕ)
        → s.term ≡ start_cancel_and_join m
        → IsLawfulReport s may r → r.outside ≡ [] → MainEnds r (Succeeded m) }
{}

/// A fiber that is started and not joined holds nobody up: `start(never) *> pure(n)` comes to n.
pub fn fiber_start_of_never_is_unit()
    ensures { (s : ScriptView) (may : ℕ → Bool) (r : ReportView) (n : ℕ)
        → s.term ≡ Start 0 Never (Pure (Number n))
        → IsLawfulReport s may r → r.outside ≡ [] → MainEnds r (Succeeded n) }
{}

/// A fiber that is started inside a mask can be canceled: `(mask p (start h (never) (cancel h)))` comes to
/// its end, and the fiber has ended as canceled.
pub fn uncancelable_start_is_cancelable()
    ensures main { (s : ScriptView) (may : ℕ → Bool) (r : ReportView)
        → s.term ≡ masked_start
        → IsLawfulReport s may r → r.outside ≡ [] → MainEnds r (Succeeded 0) }
    ensures child { (s : ScriptView) (may : ℕ → Bool) (r : ReportView)
        → s.term ≡ masked_start
        → IsLawfulReport s may r → r.outside ≡ [] → FiberEnds r 1 Canceled }
{}

/// A mask round `cancel` does not hold it up: `(start h (never) (mask p (cancel h)))` comes to its end, and
/// the fiber has ended as canceled.
pub fn uncancelable_cancel_cancels()
    ensures main { (s : ScriptView) (may : ℕ → Bool) (r : ReportView)
        → s.term ≡ masked_cancel
        → IsLawfulReport s may r → r.outside ≡ [] → MainEnds r (Succeeded 0) }
    ensures child { (s : ScriptView) (may : ℕ → Bool) (r : ReportView)
        → s.term ≡ masked_cancel
        → IsLawfulReport s may r → r.outside ≡ [] → FiberEnds r 1 Canceled }
{}

/// Whatever it is that is started, canceled and joined, as `(start h A (seq (cancel h) (join h (x (pure x)) (e
/// (raise e)) (pure m))))`: fiber 1 ran `A`, and its starter comes to what that came to, the number m for a
/// cancellation; or it waits, where that has not ended.
pub fn canceled_fiber_is_handed_back()
    ensures { (s : ScriptView) (may : ℕ → Bool) (r : ReportView) (t : Term) (m : ℕ)
        → s.term ≡ start_cancel_and_join_of t m
        → ((is_given : ℕ → Bool) → IsScopedOver is_given s.term)
        → IsLawfulReport s may r → r.outside ≡ [] → MainAwaits r (child_origin 1 t) (λ o. MainEnds r (handed m o)) }
{}

/// Whatever it is that is started and not joined holds nobody up: `(start h A (pure n))` comes to n.
pub fn started_fiber_holds_nobody_up()
    ensures { (s : ScriptView) (may : ℕ → Bool) (r : ReportView) (t : Term) (n : ℕ)
        → s.term ≡ Start 0 t (Pure (Number n))
        → ((is_given : ℕ → Bool) → IsScopedOver is_given s.term)
        → IsLawfulReport s may r → r.outside ≡ []
        → MainEnds r (Succeeded n) }
{}

/// Whatever it is that is started inside a mask, `cancel` waits there for its end: `(mask p (start h A (cancel
/// h)))` comes to 0 once that has ended, in whatever way, and waits where it has not.
pub fn start_in_a_mask_is_awaited()
    ensures { (s : ScriptView) (may : ℕ → Bool) (r : ReportView) (t : Term)
        → s.term ≡ masked_start_of t
        → ((is_given : ℕ → Bool) → IsScopedOver is_given s.term)
        → IsLawfulReport s may r → r.outside ≡ [] → MainAwaits r (child_origin 1 t) (λ o. MainEnds r (Succeeded 0)) }
{}

/// So it does in a mask of its own: `(start h A (mask p (cancel h)))`.
pub fn cancel_in_a_mask_is_awaited()
    ensures { (s : ScriptView) (may : ℕ → Bool) (r : ReportView) (t : Term)
        → s.term ≡ masked_cancel_of t
        → ((is_given : ℕ → Bool) → IsScopedOver is_given s.term)
        → IsLawfulReport s may r → r.outside ≡ [] → MainAwaits r (child_origin 1 t) (λ o. MainEnds r (Succeeded 0)) }
{}
