//! Laws of the runs of the whole machine and of their reports.
ghost use Rattle.std.specs.Prelude.{◌≡◌, ℕ, ◌+◌, ◌≤◌, ◌∷◌, ◌++◌, Bool, true, Option, Some, None, List};
ghost use Rattle.fx_term.specs.Forms.{IsCore};
ghost use Rattle.fx_term.specs.Script.{ScriptView};
ghost use Rattle.fx_model.specs.Row.{Label, Starts};
ghost use Rattle.fx_model.specs.Origin.{Origin};
ghost use Rattle.fx_model.specs.Work.{work};
ghost use Rattle.fx_model.specs.Report.{ReportView, trace_in};
ghost use Rattle.fx_model.specs.LawfulReport.{IsLawfulReport};
ghost use Rattle.fx_model.specs.Happenings.{IsLawfulInOneList};
ghost use Rattle.fx_model.specs.Headline.{KeepsWhatIsPromised};
ghost use Rattle.fx_model.specs.Stamps.{IsLawfulWithStamps};
ghost use Rattle.fx_text.specs.declared.pick.Pick.{Pick};
ghost use Rattle.fx_plain.specs.WholeMachine.{WholeMachine, Move, opening, can_step_in, FiberSteps, IsWholeMachineRun, steps_in, FindsItsNumber};
ghost use Rattle.fx_plain.specs.SettledRun.{HasSettledRun};
ghost use Rattle.fx_model.specs.ReportStamps.{stamp_in, IsStampedReport};
ghost use Rattle.fx_plain.specs.StampedList.{IsStampedInOneList};
ghost use Rattle.fx_plain.specs.Chosen.{IsChosen, IsReplay};
ghost use Rattle.fx_plain.specs.declared.passed.PassedOver.{PassedOver};
ghost use Rattle.fx_plain.specs.PassedPicks.{TellsPassed};
ghost use Rattle.fx_plain.specs.MovePicks.{picks_of};
ghost use Rattle.fx_plain.specs.declared.told.MadeStep.{MadeStep};
ghost use Rattle.fx_plain.specs.declared.told.Told.{Told};
ghost use Rattle.fx_plain.specs.declared.told.Told.TheVariants.{Step};
ghost use Rattle.fx_plain.specs.ToldRun.{TellsRun, picks_told, events_told};
ghost use Rattle.fx_plain.specs.ToldCauses.{LearnsLastEnd};
ghost use Rattle.fx_plain.specs.ToldQueues.{queue_told};
ghost use Rattle.fx_term.specs.declared.node.Node.{Node};

/// The report of a run of the whole machine is lawful, whoever chose its steps, where at its end no fiber
/// can step. Every number may be requested from outside.
pub fn settled_run_is_lawful()
    ensures { (s : ScriptView) (r : ReportView) → HasSettledRun s r
        → IsLawfulReport s (λ f. true) r }
{}

/// In that report each element of each queue is accounted for; the trace of each fiber that has ended
/// stops at its outcome and released each resource that it acquired once, inner before outer; and
/// cancellation acted only where each mask round it was opened by its own poll. The script's term is
/// core, as that of each code is.
pub fn settled_run_keeps_what_is_promised()
    ensures { (s : ScriptView) (r : ReportView) → IsCore s.term → HasSettledRun s r
        → KeepsWhatIsPromised s (λ f. true) r }
{}

/// The events of all fibers of that report stand in one list, by runs and histories that make it
/// lawful. Cut to a fiber it is the fiber's trace, and cut to a queue the queue's history; each take
/// stands after the put of what was taken, each join, await and first of two after the outcome that was
/// learnt, each request seen after some request, unless that came from outside, and each fiber's first
/// event after its start.
pub fn settled_run_has_one_order()
    ensures { (s : ScriptView) (r : ReportView) → HasSettledRun s r
        → IsLawfulInOneList s (λ f. true) r }
{}

/// The stamps of that report, one for each event, are those of the definition, by the runs and histories
/// of such a list: each is one more than the greater of the stamp before it in its fiber and that of its
/// cause, the put of what was taken, the end that was learnt, or, where a request is seen, the greatest
/// of those before it in the list. So they put the events in an order in which causes come first, unless
/// one has come to the greatest number.
pub fn stamps_of_a_run_are_stamps()
    ensures in_list { (s : ScriptView) (r : ReportView) → HasSettledRun s r
        → IsStampedInOneList s (λ f. true) r }
    ensures in_order { (s : ScriptView) (r : ReportView) → HasSettledRun s r
        → IsLawfulWithStamps s (λ f. true) r (stamp_in r) }
{}

/// The run that picks choose is such a run: at its end no fiber can step.
pub fn replay_is_settled()
    ensures { (s : ScriptView) (ps : List Pick) (r : ReportView) → IsReplay s ps r
        → HasSettledRun s r }
{}

/// So its report is lawful.
pub fn replay_is_lawful()
    ensures { (s : ScriptView) (ps : List Pick) (r : ReportView) → IsReplay s ps r
        → IsLawfulReport s (λ f. true) r }
{}

/// It has what is promised.
pub fn replay_keeps_what_is_promised()
    ensures { (s : ScriptView) (ps : List Pick) (r : ReportView) → IsCore s.term → IsReplay s ps r
        → KeepsWhatIsPromised s (λ f. true) r }
{}

/// Its events stand in one list.
pub fn replay_has_one_order()
    ensures { (s : ScriptView) (ps : List Pick) (r : ReportView) → IsReplay s ps r
        → IsLawfulInOneList s (λ f. true) r }
{}

/// Its stamps are those of the definition.
pub fn stamps_of_a_replay_are_stamps()
    ensures in_list { (s : ScriptView) (ps : List Pick) (r : ReportView) → IsReplay s ps r
        → IsStampedInOneList s (λ f. true) r }
    ensures in_order { (s : ScriptView) (ps : List Pick) (r : ReportView) → IsReplay s ps r
        → IsLawfulWithStamps s (λ f. true) r (stamp_in r) }
{}

/// A run that picks choose is a run of the whole machine.
pub fn chosen_run_is_a_run()
    ensures { (s : ScriptView) (ps : List Pick) (moves : List Move) (last : WholeMachine)
        → IsChosen s ps (opening s) moves last → IsWholeMachineRun s moves last }
{}

/// In each run of the whole machine a start takes the next number of its fiber, finds it free, and finds
/// room for the child in the range of its fiber.
pub fn start_finds_its_number()
    ensures { (s : ScriptView) (moves : List Move) (m m' : WholeMachine) (f g : ℕ) (b : Origin)
        → IsWholeMachineRun s moves m → (step : FiberSteps s m f (Starts g b) m')
        → FindsItsNumber s m step.fiber.counts g b }
{}

/// A fiber that makes a step of the whole machine can step.
pub fn what_steps_can_step()
    ensures { (s : ScriptView) (m m' : WholeMachine) (f : ℕ) (l : Label) → FiberSteps s m f l m'
        → can_step_in s m f ≡ true }
{}

/// The picks choose one run.
pub fn picks_choose_one_run()
    ensures { (s : ScriptView) (ps : List Pick) (moves moves' : List Move)
        (last last' : WholeMachine)
        → IsChosen s ps (opening s) moves last → IsChosen s ps (opening s) moves' last'
        → (moves ≡ moves') × (last ≡ last') }
{}

/// The picks have one replay: one report.
pub fn replay_is_one()
    ensures { (s : ScriptView) (ps : List Pick) (r r' : ReportView) → IsReplay s ps r
        → IsReplay s ps r' → r ≡ r' }
{}

/// What is told of the picks that it passes over is one: one number of them, and one first with one reason.
pub fn what_is_told_of_passed_picks_is_one()
    ensures { (s : ScriptView) (ps : List Pick) (told told' : Option PassedOver)
        → TellsPassed s ps told → TellsPassed s ps told' → told ≡ told' }
{}

/// The moves of that run, taken as picks, choose this very run, and none of them is passed over.
pub fn moves_choose_their_run()
    ensures run { (s : ScriptView) (ps : List Pick) (moves : List Move) (last : WholeMachine)
        → IsChosen s ps (opening s) moves last
        → IsChosen s (picks_of moves) (opening s) moves last }
    ensures fit { (s : ScriptView) (ps : List Pick) (moves : List Move) (last : WholeMachine)
        → IsChosen s ps (opening s) moves last → TellsPassed s (picks_of moves) None }
{}

/// What is told of that run step by step, taken as picks, has the same report: it is told of no other run, and in the
/// order in which it is made.
pub fn told_steps_choose_their_run()
    ensures { (nodes : List Node) (s : ScriptView) (ps : List Pick) (told : List Told) (r : ReportView)
        → TellsRun nodes s ps told → IsReplay s ps r → IsReplay s (picks_told told) r }
{}

/// Cut to a fiber it is that fiber's trace.
pub fn told_steps_of_a_fiber_are_its_trace()
    ensures { (nodes : List Node) (s : ScriptView) (ps : List Pick) (told : List Told) (r : ReportView)
        → TellsRun nodes s ps told → IsReplay s ps r → (f : ℕ) → events_told f told ≡ trace_in r f }
{}

/// Of whose end a step is told to have learned, that is the fiber on whose end the event of the step stands, by runs that make
/// the report lawful with its stamps; and the end is the last event that is told of it before the step.
pub fn told_steps_learn_of_ends()
    ensures { (nodes : List Node) (s : ScriptView) (ps : List Pick) (told : List Told) (r : ReportView)
        → TellsRun nodes s ps told → IsReplay s ps r
        → (report : IsStampedReport s (λ f. true) r)
        × ((before after : List Told) (made : MadeStep) (g : ℕ) → told ≡ before ++ Step made ∷ after → made.learned ≡ Some g
        → LearnsLastEnd (trace_in r) report.stamped.lawful.runs.labels before made g) }
{}

/// What is told of the puts into a queue and of the gets from there is the history of that queue, by histories that make the
/// report lawful with its stamps.
pub fn told_steps_are_histories()
    ensures { (nodes : List Node) (s : ScriptView) (ps : List Pick) (told : List Told) (r : ReportView)
        → TellsRun nodes s ps told → IsReplay s ps r
        → (report : IsStampedReport s (λ f. true) r)
        × ((q : ℕ) → (report.stamped.lawful.histories q).history ≡ queue_told q told) }
{}

/// A run of the whole machine has no more steps of fibers than the work of the script's term and two.
/// So the fibers of a script never go on for ever.
pub fn runs_come_to_an_end()
    ensures { (s : ScriptView) (moves : List Move) (last : WholeMachine)
        → IsWholeMachineRun s moves last → steps_in moves ≤ 2 + work s.term }
{}
