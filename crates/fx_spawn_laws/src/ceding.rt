//! What a fiber does that gives way. A function here does nothing: its contract is the law.
ghost use Rattle.std.specs.Prelude.{◌≡◌, Some, None};
ghost use Rattle.fx_term.specs.declared.outcome.Outcome.TheVariants.{Canceled};
ghost use Rattle.fx_term.specs.declared.node.Arg.TheVariants.{Number};
ghost use Rattle.fx_term.specs.Term.{Pure, Cede};
ghost use Rattle.fx_model.specs.Row.{Silent};
ghost use Rattle.fx_model.specs.Step.{Runs, HasEnded, leaf_at};
ghost use Rattle.fx_fiber.specs.Fiber.{FiberView, progress};
ghost use Rattle.fx_fiber.specs.MakesStep.{MakesStep};
ghost use Rattle.fx_fiber.specs.Turns.{Turns};
ghost use Rattle.fx_fiber.specs.declared.turned.Turned.TheVariants as turned;
ghost use Rattle.fx_fiber.specs.declared.stepped.Stepped.{Stepped};
ghost use Rattle.fx_fiber.specs.declared.stepped.Stepped.TheVariants.{Went, Gave};

use fx_fiber::Port;

/// Neither a report nor a schedule tells `(cede)` from `(pure 0)`, since each makes the step of the other
/// (`fx_laws`, `cede_is_pure_of_zero`); but its turn does. The step of a `cede` gives way, which ends the
/// turn, and that of a `pure` goes on. So the one is not the other for who counts turns, or waits for one.
pub fn cede_gives_way<P: Port>()
    ensures ceded { (old new : FiberView P) (shared shared' : P.Shared) (answer : Stepped P P.Shared)
        → leaf_at (progress P.theory.code old) ≡ Some Cede
        → (step : MakesStep P.theory old shared answer new shared') → step.label ≡ Silent → answer ≡ Gave }
    ensures valued { (old new : FiberView P) (shared shared' : P.Shared) (answer : Stepped P P.Shared)
        → leaf_at (progress P.theory.code old) ≡ Some (Pure (Number 0))
        → (step : MakesStep P.theory old shared answer new shared') → step.label ≡ Silent → answer ≡ Went }
{}

/// So a turn tells two whole terms apart, too. A poll of a fiber that stands at `(pure 0)` is never pending: its turn
/// comes to its end, by want of memory at worst. One of a fiber that stands at `(cede)` does not come to success: where
/// it ends the fiber, that was canceled, and else the fiber takes another turn. Between the two it can be requested.
pub fn cede_takes_another_turn<P: Port>()
    ensures valued { (old new : FiberView P) (shared shared' : P.Shared) → progress P.theory.code old ≡ Runs (Pure (Number 0))
        → Turns P.theory old shared None new shared' → ⊥ }
    ensures ceded { (old new : FiberView P) (shared shared' : P.Shared) → progress P.theory.code old ≡ Runs Cede
        → Turns P.theory old shared (Some turned.Ended) new shared' → progress P.theory.code new ≡ HasEnded Canceled }
{}
