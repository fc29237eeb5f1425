//! Laws of the grammar. A function here does nothing: its contract is the law.
ghost use Rattle.std.specs.Prelude.{◌≡◌, ◌↔◌, ℕ, List, Ok};
ghost use Rattle.fx_text.specs.declared.pick.Pick.{Pick};
ghost use Rattle.fx_text.specs.Reading.{Meaning, reading};
ghost use Rattle.fx_text.specs.Grammar.{IsScript};
ghost use Rattle.fx_text.specs.Schedule.{IsSchedule, schedule_reading};

/// Reading gives exactly what the grammar has, so a script has one meaning.
pub fn reading_is_the_grammar()
    ensures { (text : List ℕ) (m : Meaning) → IsScript text m ↔ (reading text ≡ Ok m) }
{}

/// Reading a schedule gives exactly what its grammar has, so a schedule has one list of picks.
pub fn schedule_reading_is_the_grammar()
    ensures { (text : List ℕ) (ps : List Pick)
        → IsSchedule text ps ↔ (schedule_reading text ≡ Ok ps) }
{}
