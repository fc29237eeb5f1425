//! Laws of fibers that wait. A function here does nothing: its contract is the law.
ghost use Rattle.std.specs.Prelude.{◌≡◌, ℕ};
ghost use Rattle.fx_model.specs.Row.{Counts};
ghost use Rattle.fx_model.specs.Step.{Progress};
ghost use Rattle.fx_model.specs.Outside.{Outside, can_step};
ghost use Rattle.fx_model.specs.declared.source.Source.{Source};
ghost use Rattle.fx_model.specs.WaitsFor.{has_come, IsWaiting};

/// A fiber that waits can step exactly where what it waits for has come.
pub fn waits_until_it_has_come()
    ensures { (o : Outside) (f : ℕ) (c : Counts) (p : Progress) (w : Source)
        → IsWaiting (o.is_requested f) c p w → can_step o f c p ≡ has_come o w }
{}
