//! Laws of a fiber that is joined. A function here does nothing: its contract is the law.
//!
//! The main fiber of the script starts another one and joins it, as `(start h t (join h (x (pure x)) (e
//! (raise e)) (pure m)))`, so it hands back what it learns, and the number m for a fiber that was canceled.
ghost use Rattle.std.specs.Prelude.{◌≡◌, ℕ, Bool, []};
ghost use Rattle.fx_term.specs.declared.node.Arg.TheVariants.{Number};
ghost use Rattle.fx_term.specs.declared.outcome.Outcome.TheVariants.{Succeeded, Errored};
ghost use Rattle.fx_term.specs.Script.{ScriptView};
ghost use Rattle.fx_term.specs.Term.{Term, Pure, Raise, Canceled, Never};
ghost use Rattle.fx_model.specs.LawfulReport.{IsLawfulReport};
ghost use Rattle.fx_model.specs.Report.{ReportView};
ghost use Rattle.fx_model.specs.Scopes.{IsScopedOver};
ghost use Rattle.fx_spawn_laws.specs.MainFiber.{MainEnds, MainIsBlocked, HandsBackItsChild, start_and_join};

/// Whatever it is that is started, so long as it uses no name from outside: the fiber runs it as one that
/// nobody requests does, and its starter comes to what it came to, or waits where it waits.
pub fn joined_fiber_is_handed_back()
    ensures { (s : ScriptView) (may : ℕ → Bool) (r : ReportView) (t : Term) (m : ℕ)
        → s.term ≡ start_and_join t m
        → ((is_given : ℕ → Bool) → IsScopedOver is_given t)
        → IsLawfulReport s may r → r.outside ≡ [] → HandsBackItsChild r t m }
{}

/// `start(pure(n)).flatMap(_.join)` comes to the value of the fiber.
pub fn fiber_pure_is_outcome_completed_pure()
    ensures { (s : ScriptView) (may : ℕ → Bool) (r : ReportView) (n m : ℕ)
        → s.term ≡ start_and_join (Pure (Number n)) m
        → IsLawfulReport s may r → r.outside ≡ [] → MainEnds r (Succeeded n) }
{}

/// `start(raiseError(n)).flatMap(_.join)` comes to the error of the fiber.
pub fn fiber_error_is_outcome_errored()
    ensures { (s : ScriptView) (may : ℕ → Bool) (r : ReportView) (n m : ℕ)
        → s.term ≡ start_and_join (Raise (Number n)) m
        → IsLawfulReport s may r → r.outside ≡ [] → MainEnds r (Errored n) }
{}

/// `start(canceled).flatMap(_.join)` comes to the third part of the join.
pub fn fiber_canceled_is_outcome_canceled()
    ensures { (s : ScriptView) (may : ℕ → Bool) (r : ReportView) (m : ℕ)
        → s.term ≡ start_and_join Canceled m
        → IsLawfulReport s may r → r.outside ≡ [] → MainEnds r (Succeeded m) }
{}

/// `start(never).flatMap(_.join)` waits for good.
pub fn fiber_never_is_never()
    ensures { (s : ScriptView) (may : ℕ → Bool) (r : ReportView) (m : ℕ)
        → s.term ≡ start_and_join Never m
        → IsLawfulReport s may r → r.outside ≡ [] → MainIsBlocked r }
{}
