//! Laws of where cancellation acts. A function here does nothing: its contract is the law.
ghost use Rattle.std.specs.Prelude.{◌≡◌, ◌↔◌, ℕ, true, List, ◌∷◌, ◌++◌};
ghost use Rattle.fx_term.specs.Term.{Term};
ghost use Rattle.fx_model.specs.Path.{is_open};
ghost use Rattle.fx_model.specs.Origin.{Origin};
ghost use Rattle.fx_model.specs.Row.{Counts, Label};
ghost use Rattle.fx_model.specs.Step.{Progress, Runs};
ghost use Rattle.fx_model.specs.Run.{first_counts, IsRun};
ghost use Rattle.fx_model.specs.PairedMasks.{Mark, Closes, Seals, marks, IsPaired, HasItsPoll, CancelsWhereOpened};

/// A fiber is canceled only where each mask round it is opened by its own poll, and nothing else
/// closes the place. The masks of a path are opened so exactly where the place is open.
pub fn cancellation_acts_where_masks_are_opened()
    ensures run { (b : Origin) (labels : List Label) (d : Counts) (q : Progress)
        → (run : IsRun b labels d q)
        → CancelsWhereOpened (first_counts b) (Runs b.term) labels d q run }
    ensures place { (t : Term) → (is_open t ≡ true) ↔ IsPaired (marks t) }
{}

/// What the law above says of a path: each mask of it has its own poll further in, these pairs are
/// nested, and there is no seal.
pub fn each_mask_has_its_poll()
    ensures mask { (u v : List Mark) (r : ℕ) → IsPaired (u ++ Closes r ∷ v) → HasItsPoll u r v }
    ensures seal { (u v : List Mark) → IsPaired (u ++ Seals ∷ v) → ⊥ }
{}
