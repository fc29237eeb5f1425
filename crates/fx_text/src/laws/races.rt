//! Laws of what a race is. A function here does nothing: its contract is the law.
ghost use Rattle.std.specs.Prelude.{◌≡◌, ◌+◌, ℕ};
ghost use Rattle.fx_term.specs.Term.{Term};
ghost use Rattle.fx_term.specs.Need.{need};
ghost use Rattle.fx_text.specs.declared.reader.races.RaceSlots.{RaceSlots};
ghost use Rattle.fx_text.specs.Race.{race};

/// A race starts two fibers, and its parts start theirs.
pub fn race_starts_two_fibers()
    ensures { (s : RaceSlots) (a b : Term) → need (race s a b) ≡ 2 + need a + need b }
{}
