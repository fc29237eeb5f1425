//! What a schedule tells.
ghost use Rattle.std.specs.Prelude.{List, [], ◌∷◌, None};
ghost use Rattle.fx_term.specs.declared.node.Arg.TheVariants.{Number};
ghost use Rattle.fx_term.specs.declared.event.Event.TheVariants as event;
ghost use Rattle.fx_term.specs.Term.{Pure, Canceled, Never, Cede, Let, Mask};
ghost use Rattle.fx_text.specs.declared.pick.Pick.{Pick};
ghost use Rattle.fx_script_laws.specs.BlockedAlone.{blocked_alone};
ghost use Rattle.fx_plain.specs.Chosen.{IsReplay};
ghost use Rattle.fx_replay_laws.specs.RequestedLate.{two_steps_and_a_request, succeeded_before};

/// A step more: `(seq (cede) (pure 0))` can be put for `(pure 0)` in every script, with the same reports; but by two
/// picks of its steps and a request after them the latter has succeeded, and the former has not. So that two terms
/// have the same reports does not say that they have the same one under each schedule.
pub fn schedule_tells_a_step_more()
    ensures without { IsReplay (record { term = Pure (Number 0); capacities = [] }) two_steps_and_a_request succeeded_before }
    ensures with_it { IsReplay (record { term = Let None Cede (Pure (Number 0)); capacities = [] }) two_steps_and_a_request succeeded_before → ⊥ }
{}

/// `(main (never))` is blocked by no picks, with nothing shown, and `(main (canceled))` by none whatever.
pub fn schedules_tell_never_from_canceled()
    ensures never { IsReplay (record { term = Never; capacities = [] }) [] (blocked_alone [] []) }
    ensures canceled { (ps : List Pick) → IsReplay (record { term = Canceled; capacities = [] }) ps (blocked_alone [] []) → ⊥ }
{}

/// `(main (mask p (seq (canceled) (never))))` is blocked by no picks, after it requested itself, and
/// `(main (seq (canceled) (never)))` by none whatever.
pub fn schedules_tell_a_mask_from_its_inside()
    ensures mask { IsReplay (record { term = Mask 0 (Let None Canceled Never); capacities = [] }) []
        (blocked_alone (event.SelfRequest ∷ []) (1 ∷ [])) }
    ensures inside { (ps : List Pick) → IsReplay (record { term = Let None Canceled Never; capacities = [] }) ps
        (blocked_alone (event.SelfRequest ∷ []) (1 ∷ [])) → ⊥ }
{}
