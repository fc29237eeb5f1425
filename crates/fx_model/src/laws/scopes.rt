//! Laws of names and of the numbers of fibers. A function here does nothing: its contract is the law.
ghost use Rattle.std.specs.Prelude.{◌≡◌, ◌<◌, ◌≤◌, ℕ, Bool, true, List, All};
ghost use Rattle.fx_model.specs.Origin.{Origin};
ghost use Rattle.fx_model.specs.Row.{Counts, Label};
ghost use Rattle.fx_model.specs.Step.{Progress};
ghost use Rattle.fx_model.specs.Run.{IsRun};
ghost use Rattle.fx_model.specs.Scopes.{IsScopedOver, IsProgressScopedOver, StartsScopedOver};

/// A fiber that began at a term in which each name is bound, and used as what it is, keeps to such
/// terms. It joins, cancels and awaits only fibers whose numbers were given to it: in the term that it
/// began with, or as the numbers of its range that it has taken since. So do the fibers that it starts.
pub fn running_terms_stay_scoped()
    ensures term { (is_given : ℕ → Bool) (b : Origin) (labels : List Label) (d : Counts)
        (q : Progress) → IsScopedOver is_given b.term
        → ((f : ℕ) → b.next ≤ f → f < d.next → is_given f ≡ true)
        → IsRun b labels d q → IsProgressScopedOver is_given q }
    ensures children { (is_given : ℕ → Bool) (b : Origin) (labels : List Label) (d : Counts)
        (q : Progress) → IsScopedOver is_given b.term
        → ((f : ℕ) → b.next ≤ f → f < d.next → is_given f ≡ true)
        → IsRun b labels d q → All (StartsScopedOver is_given) labels }
{}
