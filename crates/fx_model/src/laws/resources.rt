//! Laws of what a fiber acquires and releases. A function here does nothing: its contract is the law.
ghost use Rattle.std.specs.Prelude.{◌≡◌, ℕ, List};
ghost use Rattle.std.specs.List.{range_with_len};
ghost use Rattle.fx_term.specs.declared.node.Node.{Node};
ghost use Rattle.fx_term.specs.declared.outcome.Outcome.{Outcome};
ghost use Rattle.fx_term.specs.Forms.{IsCore};
ghost use Rattle.fx_term.specs.Meaning.{root_term};
ghost use Rattle.fx_term.specs.Code.{IsCode};
ghost use Rattle.fx_model.specs.Origin.{Origin};
ghost use Rattle.fx_model.specs.Row.{Counts, Label};
ghost use Rattle.fx_model.specs.Step.{Progress, HasEnded};
ghost use Rattle.fx_model.specs.Run.{IsRun, events};
ghost use Rattle.fx_model.specs.Balanced.{acquired_numbers, IsBalanced, IsBalancedSoFar};

/// The term of a code is core, so the law below holds of the main fiber of each code.
pub fn code_is_core()
    ensures { (queues : ℕ) (nodes : List Node) → IsCode queues nodes → IsCore (root_term nodes) }
{}

/// A fiber that began at a core term and has ended has released what it acquired, each once and
/// inner before outer. One that has not ended has done nothing that cannot go on so. Its resources
/// are numbered 0, 1, 2 and so on, in the order in which it acquires them.
pub fn ended_run_is_balanced()
    ensures ended { (b : Origin) (labels : List Label) (d : Counts) (o : Outcome)
        → IsCore b.term → IsRun b labels d (HasEnded o) → IsBalanced (events labels) }
    ensures so_far { (b : Origin) (labels : List Label) (d : Counts) (q : Progress)
        → IsCore b.term → IsRun b labels d q → IsBalancedSoFar (events labels) }
    ensures in_order { (b : Origin) (labels : List Label) (d : Counts) (q : Progress)
        → IsRun b labels d q → acquired_numbers (events labels) ≡ range_with_len 0 d.acquired }
{}
