//! What holds wherever a fiber comes to a term.
ghost use Rattle.std.specs.Prelude.{List};
ghost use Rattle.fx_term.specs.Term.{Term};
ghost use Rattle.fx_model.specs.Path.{Context};
ghost use Rattle.fx_model.specs.Origin.{Origin};
ghost use Rattle.fx_model.specs.Row.{Counts, Label};
ghost use Rattle.fx_model.specs.Run.{IsRun};
ghost use Rattle.fx_model.specs.MaskLaws.{ShowTheSame};
ghost use Rattle.fx_model.specs.Scopes.{IsClosedTerm};
ghost use Rattle.fx_laws.specs.Everywhere.{placed, Place, come_to, ShowTheSameEverywhere};
ghost use Rattle.fx_laws.specs.ScopedPlaces.{HasScopedCleanups};

/// Terms that show the same wherever a fiber comes to them show the same as whole fibers, alone or inside
/// any contexts.
pub fn everywhere_is_at_the_beginning_too()
    ensures { (fs : List Context) (t u : Term) → ShowTheSameEverywhere t u
        → ShowTheSame (placed fs t) (placed fs u) }
{}

/// A fiber that began at a term in which each name is bound, and used as what it is, as each fiber of a
/// script does, comes only to places whose clean-ups use each name as what it is.
pub fn fibers_come_to_scoped_places()
    ensures { (b : Origin) (labels : List Label) (d : Counts) (place : Place) (t : Term)
        → IsClosedTerm b.term → IsRun b labels d (come_to place t) → HasScopedCleanups place }
{}
