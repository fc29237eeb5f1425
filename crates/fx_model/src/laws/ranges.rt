//! Laws of the fiber numbers that a fiber uses. A function here does nothing: its contract is the law.
ghost use Rattle.std.specs.Prelude.{ℕ, ◌+◌, ◌≤◌, List};
ghost use Rattle.fx_term.specs.Need.{need};
ghost use Rattle.fx_model.specs.Row.{Counts, Label};
ghost use Rattle.fx_model.specs.Origin.{Origin};
ghost use Rattle.fx_model.specs.Step.{Progress};
ghost use Rattle.fx_model.specs.Run.{IsRun};
ghost use Rattle.fx_model.specs.NeedLeft.{need_left, HasRoom, StartsInItsRange};

/// Where the range that a fiber begins with has room for its term, what is left of it has room for
/// what is left of the term, wherever the fiber is.
pub fn range_has_room()
    ensures { (b : Origin) (ls : List Label) (c : Counts) (p : Progress)
        → HasRoom b → IsRun b ls c p → c.next + need_left p ≤ c.end }
{}

/// So each start of the fiber takes its numbers in that range, whatever the outside answered.
pub fn start_takes_its_range()
    ensures { (b : Origin) (ls : List Label) (c : Counts) (p : Progress)
        → HasRoom b → IsRun b ls c p → StartsInItsRange c p }
{}
