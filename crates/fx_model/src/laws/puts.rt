//! Laws of the elements that a fiber puts. A function here does nothing: its contract is the law.
ghost use Rattle.std.specs.Prelude.{ℕ, ◌+◌, ◌≤◌, List};
ghost use Rattle.fx_model.specs.Row.{Counts, Label};
ghost use Rattle.fx_model.specs.Origin.{Origin};
ghost use Rattle.fx_model.specs.Step.{Progress};
ghost use Rattle.fx_model.specs.Run.{IsRun};
ghost use Rattle.fx_model.specs.PutsLeft.{puts, puts_left, puts_made};

/// What a fiber has put into queues and what it can still put are together no more than its term has.
pub fn puts_are_bounded()
    ensures { (b : Origin) (ls : List Label) (c : Counts) (p : Progress)
        → IsRun b ls c p → puts_made ls + puts_left p ≤ puts b.term }
{}
