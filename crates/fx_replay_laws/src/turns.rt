//! What no schedule tells.
ghost use Rattle.std.specs.Prelude.{◌≡◌, List};
ghost use Rattle.fx_term.specs.Script.{ScriptView};
ghost use Rattle.fx_model.specs.Report.{ReportView};
ghost use Rattle.fx_text.specs.declared.pick.Pick.{Pick};
ghost use Rattle.fx_laws.specs.WithoutTurns.{without_turns};
ghost use Rattle.fx_plain.specs.Chosen.{IsReplay};
ghost use Rattle.fx_replay_laws.specs.Scripts.{script_without_turns};

/// A replay has the same report with `(pure 0)` for each `(cede)`, under each schedule: a `cede` makes one step
/// that shows nothing, as a `pure` does, and picks count steps. So two scripts that differ in nothing else have the
/// same report. What a `cede` does is said of turns, which no schedule has (`fx_spawn_laws`, `ceding`).
pub fn schedules_do_not_tell_turns()
    ensures kept { (s : ScriptView) (ps : List Pick) (r : ReportView) → IsReplay s ps r → IsReplay (script_without_turns s) ps r }
    ensures same { (s z : ScriptView) (ps : List Pick) (r r' : ReportView) → without_turns s.term ≡ without_turns z.term
        → s.capacities ≡ z.capacities → IsReplay s ps r → IsReplay z ps r' → r ≡ r' }
{}
