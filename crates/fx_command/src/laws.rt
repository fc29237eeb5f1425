//! Laws that tie the words of the program to one another, and to runs. A function here does nothing: its contract is the
//! law.
ghost use Rattle.std.specs.Prelude.{◌≡◌, ◌≤◌, ◌<◌, ◌∷◌, ◌++◌, ℕ, Bool, true, List, Option, Some, All, is_some, length, slice_get};
ghost use Rattle.fx_term.specs.declared.event.Event.{Event};
ghost use Rattle.fx_term.specs.declared.event.Event.TheVariants as event;
ghost use Rattle.fx_term.specs.declared.node.Node.{Node};
ghost use Rattle.fx_term.specs.Script.{ScriptView, total};
ghost use Rattle.fx_term.specs.Lists.{Among};
ghost use Rattle.fx_text.specs.declared.pick.Pick.{Pick};
ghost use Rattle.fx_text.specs.Limits.{most_picks};
ghost use Rattle.fx_text.specs.Meaning.{Meaning};
ghost use Rattle.fx_text.specs.Grammar.{IsScript};
ghost use Rattle.fx_report.specs.Script.{script_of};
ghost use Rattle.fx_report.specs.Text.{queue_names, report_text};
ghost use Rattle.fx_report.specs.Status.{status_of};
ghost use Rattle.fx_report.specs.declared.status.TheConstants.{ENDED, REFUSED};
ghost use Rattle.fx_explore.specs.Setting.{setting};
ghost use Rattle.fx_findings.specs.declared.explored.Finding.{Finding};
ghost use Rattle.fx_findings.specs.Explored.{view_told, schedule_of, IsFinding, IsReportWithin};
ghost use Rattle.fx_findings.specs.Expected.{reports_of};
ghost use Rattle.fx_findings.specs.Printed.{TellsSo, HasSmallNumber};
ghost use Rattle.fx_findings.specs.PrintedReports.{SaysComplete, IsPrinted};
ghost use Rattle.fx_findings.specs.Text.{picks_text};
ghost use Rattle.fx_command.specs.declared.call.Command.TheVariants as command;
ghost use Rattle.fx_command.specs.declared.call.Search.{Search};
ghost use Rattle.fx_plain.specs.declared.told.MadeStep.{MadeStep};
ghost use Rattle.fx_plain.specs.declared.told.Told.{Told};
ghost use Rattle.fx_plain.specs.declared.told.Told.TheVariants.{Step};
ghost use Rattle.fx_plain.specs.Chosen.{IsReplay};
ghost use Rattle.fx_plain.specs.ToldRun.{TellsRun};
ghost use Rattle.fx_places.specs.declared.form.Form.TheVariants as form;
ghost use Rattle.fx_places.specs.declared.place.FormPlace.{FormPlace};
ghost use Rattle.fx_model.specs.Causes.{Needs, LeavesQueue};
ghost use Rattle.fx_model.specs.Report.{FiberReportView, ReportView, trace_in};
ghost use Rattle.fx_model.specs.LawfulReport.{IsLawfulReport};
ghost use Rattle.fx_model.specs.ReportStamps.{IsStampedReport, stamp_in};
ghost use Rattle.fx_model.specs.Stamps.{IsBelowTop};
ghost use Rattle.fx_order.specs.declared.occurrence.Occurrence.{Occurrence};
ghost use Rattle.fx_follow.specs.declared.stand.Stand.{Stand};
ghost use Rattle.fx_follow.specs.Followed.{AreFollowed};
ghost use Rattle.fx_counts.specs.declared.at_queue.AtQueue.{AtQueue};
ghost use Rattle.fx_run_events.specs.declared.ran_event.RanEvent.{RanEvent};
ghost use Rattle.fx_run_events.specs.Found.{IsInOwnOrder, AreFollowedOrNone, AreCountedOrNone};
ghost use Rattle.fx_run_events.specs.RanEvents.{ran_events, node_stood};
ghost use Rattle.fx_command.specs.HandlesTold.{named_told, named_of_run, IsNamedBy};
ghost use Rattle.fx_command.specs.IsHeldSo.{IsHeldSo};
ghost use Rattle.fx_command.specs.IsStoodOf.{IsStoodOf, IsNamedIn};
ghost use Rattle.fx_command.specs.StoodEvents.{stood_events};
ghost use Rattle.fx_command.specs.ToldText.{place_of};
ghost use Rattle.fx_command.specs.IsToldOf.{IsToldOf};
ghost use Rattle.fx_picture.specs.declared.stood.EventAt.{EventAt};
ghost use Rattle.fx_picture.specs.Handles.{name_of};
ghost use Rattle.fx_picture.specs.DrawsEach.{DrawsEach};
ghost use Rattle.fx_picture.specs.DrawsOnly.{DrawsOnly};
ghost use Rattle.fx_picture.specs.IsDrawn.{Tells};
ghost use Rattle.fx_command.specs.SoFar.{nothing_shown, cause_by};
ghost use Rattle.fx_command.specs.CausesOfRun.{DrawsCausesOfRun};
ghost use Rattle.fx_command.specs.StoodOfRun.{stood_of_run};
ghost use Rattle.fx_command.specs.CausesTold.{TellsCauses};
ghost use Rattle.fx_command.specs.TakesInOrder.{puts_told, causes_told, shown_by_all, TakesInOrder};
ghost use Rattle.fx_command.specs.CommandAnswer.{IsCommandAnswer};

/// What `explore` prints of a finding with a schedule, `replay` answers by that schedule: where what stands in
/// its line after the first word is the text of a file, the report is the same, byte for byte, and the status is that of
/// a fiber that waits for good exactly where one is blocked in the finding.
pub fn finding_is_what_its_schedule_replays()
    ensures { (script expected words text : List ℕ) (m : Meaning) (target : Option ℕ) (x : Finding) (ps : List Pick) (status : ℕ)
        → IsScript script m → IsFinding (setting (script_of m) target) x → schedule_of x ≡ Some ps
        → All HasSmallNumber ps → length ps ≤ most_picks
        → IsCommandAnswer command.Replay script (picks_text ps) expected words status text
        → TellsSo (queue_names m) (view_told x.told) text status }
{}

/// Where a search that is compared is answered with status 0, what is expected says the report of each run of the script in
/// which nobody but its target is requested from outside.
pub fn passed_expectation_says_each_report()
    ensures { (search : Search) (script schedule expected words text : List ℕ) (m : Meaning)
        → IsScript script m
        → IsCommandAnswer (command.Expect search) script schedule expected words ENDED text
        → (r : ReportView) → IsReportWithin (setting (script_of m) search.target) r
        → Among (report_text (queue_names m) r) (reports_of expected) }
{}

/// Where a search is not refused, and the last line of its answer says that it is complete, the report of each run of the script
/// in which nobody but its target is requested from outside stands there, byte for byte, behind the line of a schedule by which a
/// replay prints it, or the line that none is known.
pub fn complete_answer_prints_each_report()
    ensures { (search : Search) (script schedule expected words text : List ℕ) (m : Meaning) (status : ℕ)
        → IsScript script m
        → IsCommandAnswer (command.Explore search) script schedule expected words status text
        → (status ≡ REFUSED → ⊥) → SaysComplete text
        → (r : ReportView) → IsReportWithin (setting (script_of m) search.target) r
        → IsPrinted (script_of m) (queue_names m) r text }
{}

/// Where a search is answered with status 0, its last line says so, and in no such run a fiber is blocked.
pub fn passed_answer_is_complete()
    ensures complete { (search : Search) (script schedule expected words text : List ℕ) (m : Meaning)
        → IsScript script m
        → IsCommandAnswer (command.Explore search) script schedule expected words ENDED text
        → SaysComplete text }
    ensures ended { (search : Search) (script schedule expected words text : List ℕ) (m : Meaning)
        → IsScript script m
        → IsCommandAnswer (command.Explore search) script schedule expected words ENDED text
        → (r : ReportView) → IsReportWithin (setting (script_of m) search.target) r → status_of r ≡ ENDED }
{}

/// What a replay tells of each get as its cause is the put of the element that it took: each get has one, the causes of the
/// gets from a queue are the first puts into it, in their order, and what these put are the values that those took. So no put
/// causes two gets. And it comes before the get: it is the next one of those that were told until then.
pub fn told_gets_take_puts_in_order()
    ensures order { (nodes : List Node) (s : ScriptView) (ps : List Pick) (told : List Told) (fibers queues q : ℕ)
        → TellsRun nodes s ps told → q < queues → TakesInOrder fibers queues q told }
    ensures before { (fibers queues q v : ℕ) (before : List Told) (x : EventAt) → q < queues
        → cause_by (shown_by_all (nothing_shown fibers queues) before).queues (event.Got q v) ≡ Some x
        → slice_get (puts_told q (nothing_shown fibers queues) before)
        (length (causes_told q (nothing_shown fibers queues) before)) ≡ Some x }
{}

/// What a replay tells of each `first` as its cause is the end on which that stands, by runs and histories that make the report
/// lawful with its stamps: that of the fiber of which its step has learned. So its arrow is in the picture, as
/// `causes_are_drawn` of `fx_picture` says.
pub fn told_firsts_stand_on_ends()
    ensures { (nodes : List Node) (s : ScriptView) (ps : List Pick) (told : List Told) (r : ReportView) → TellsRun nodes s ps told
        → IsReplay s ps r → (report : IsStampedReport s (λ f. true) r)
        × ((places : List FormPlace) (fibers queues f i side : ℕ) → total s ≤ fibers
        → slice_get (trace_in r f) i ≡ Some (event.First side)
        → (g : ℕ) × (j : ℕ) × Needs (trace_in r) report.stamped.lawful.runs.labels
        (LeavesQueue s (λ f. true) r report.stamped.lawful) f i g j
        × Tells (stood_events places fibers queues told) f i g j) }
{}

/// What a replay tells of each get as its cause is the put on which that stands, by runs and histories that make the report
/// lawful with its stamps: that of the element that it took. So its arrow is in the picture, as `causes_are_drawn` of
/// `fx_picture` says.
pub fn told_gets_stand_on_puts()
    ensures { (nodes : List Node) (s : ScriptView) (ps : List Pick) (told : List Told) (r : ReportView) → TellsRun nodes s ps told
        → IsReplay s ps r → (report : IsStampedReport s (λ f. true) r)
        × ((places : List FormPlace) (fibers queues f i q v : ℕ) → total s ≤ fibers → length s.capacities ≤ queues
        → slice_get (trace_in r f) i ≡ Some (event.Got q v)
        → (g : ℕ) × (j : ℕ) × Needs (trace_in r) report.stamped.lawful.runs.labels
        (LeavesQueue s (λ f. true) r report.stamped.lawful) f i g j
        × Tells (stood_events places fibers queues told) f i g j) }
{}

/// All causes that a replay tells are so by the same runs and histories: an event stands on each that is told of it, and to each
/// get the put of what it took is told, and to each `first` the end that it learnt of; there is one of each.
pub fn told_causes_are_needed()
    ensures { (nodes : List Node) (s : ScriptView) (ps : List Pick) (told : List Told) (r : ReportView) → TellsRun nodes s ps told
        → IsReplay s ps r → (report : IsStampedReport s (λ f. true) r)
        × ((places : List FormPlace) (fibers queues : ℕ) → total s ≤ fibers → length s.capacities ≤ queues
        → TellsCauses s r report (stood_events places fibers queues told)) }
{}

/// So the picture of a replay leaves out no cause and has no other arrows: by runs and histories that make the report lawful with
/// its stamps, there is an arrow to each event from each on which that stands, where the list is an order in which causes come
/// first, as that by stamps is if none is the greatest number; and to none from another one, but for requests.
pub fn replays_are_drawn_with_their_causes()
    ensures { (nodes : List Node) (s : ScriptView) (ps : List Pick) (told : List Told) (r : ReportView) → TellsRun nodes s ps told
        → IsReplay s ps r → (report : IsStampedReport s (λ f. true) r)
        × ((places : List FormPlace) (fibers queues : ℕ) → total s ≤ fibers → length s.capacities ≤ queues
        → DrawsEach s (λ f. true) r report.stamped.lawful (stood_events places fibers queues told)
        × DrawsOnly s (λ f. true) r report.stamped.lawful (stood_events places fibers queues told)) }
{}

/// What is told as the causes of the events of a run on threads is what these stand on, by runs and histories that make the
/// report lawful; it is told of each get of which the put is known, and of each first of two where the fibers were followed.
/// So the picture of the run has no other arrows than from causes and from requests, and where all that is known, each of
/// these. The report has the stamps of the definition, of which none is the greatest number.
pub fn runs_are_drawn_with_their_causes()
    ensures { (nodes : List Node) (s : ScriptView) (may : ℕ → Bool) (r : ReportView) (told : List (List Stand)) (list : List Occurrence)
        (counts : List (Option AtQueue)) → IsStampedReport s may r → IsBelowTop (trace_in r) (stamp_in r)
        → AreFollowedOrNone nodes s r told → AreCountedOrNone s.capacities r list counts
        → (lawful : IsLawfulReport s may r) × ((places : List FormPlace)
        → DrawsCausesOfRun nodes s may r lawful told list (stood_of_run places told list counts r.fibers)) }
{}

/// What is told of event i of a fiber in a run on threads, for its picture, is where the fiber stood before the step that showed
/// the event, by the runs of which that is told.
pub fn told_stands_are_those_of_events()
    ensures { (nodes : List Node) (s : ScriptView) (may : ℕ → Bool) (r : ReportView) (told : List (List Stand))
        → IsLawfulReport s may r → (followed : AreFollowed nodes s r told)
        → (places : List FormPlace) (list : List Occurrence) (counts : List (Option AtQueue)) (f i : ℕ) (e : Event)
        → slice_get (trace_in r f) i ≡ Some e
        → IsStoodOf nodes places followed.runs (stood_of_run places told list counts r.fibers) f i e }
{}

/// How many elements its queue held after event i of a fiber in a run on threads, as it is told for its picture, is what is told
/// of that event in the list of all events. The report has the stamps of the definition, of which none is the greatest number.
pub fn told_counts_are_those_of_events()
    ensures { (s : ScriptView) (may : ℕ → Bool) (r : ReportView) (list : List Occurrence) (counts : List (Option AtQueue))
        → IsStampedReport s may r → IsBelowTop (trace_in r) (stamp_in r) → IsInOwnOrder r list
        → (places : List FormPlace) (told : List (List Stand)) (f i : ℕ) (e : Event)
        → slice_get (trace_in r f) i ≡ Some e
        → IsHeldSo (stood_of_run places told list counts r.fibers) list counts f i e }
{}

/// A name that a fiber has in the picture of a run on threads is the one that the text has where another fiber is told to have
/// stood before it started the fiber. And each fiber that is started where a `start` stands has one.
pub fn names_of_a_run_are_those_of_starts()
    ensures found { (source : List ℕ) (places : List FormPlace) (told : List (List Stand)) (list : List Occurrence)
        (counts : List (Option AtQueue)) (fibers : List FiberReportView) (g : ℕ) (name : List ℕ)
        → name_of (named_of_run source places told list counts fibers) g ≡ Some name
        → IsNamedIn source places (ran_events told list counts fibers) g name }
    ensures each { (source : List ℕ) (places : List FormPlace) (told : List (List Stand)) (list : List Occurrence)
        (counts : List (Option AtQueue)) (fibers : List FiberReportView) (started : RanEvent) (place : FormPlace) (g : ℕ)
        → Among started (ran_events told list counts fibers)
        → started.event ≡ event.Start g → place_of places (node_stood started.stand) ≡ Some place → place.form ≡ form.Start
        → is_some (name_of (named_of_run source places told list counts fibers) g) ≡ true }
{}

/// A name that a fiber has in the picture of a replay is the one that the text has at the place of a step that starts the fiber:
/// so a name of a `start`, as `handle_of` of `fx_places` says. And each fiber that is started at such a place has one.
pub fn names_are_those_of_starts()
    ensures found { (source : List ℕ) (places : List FormPlace) (told : List Told) (g : ℕ) (name : List ℕ)
        → name_of (named_told source places told) g ≡ Some name → IsNamedBy source places told g name }
    ensures each { (source : List ℕ) (places : List FormPlace) (before after : List Told) (made : MadeStep)
        (place : FormPlace) (g : ℕ)
        → made.event ≡ Some (event.Start g) → place_of places made.node ≡ Some place → place.form ≡ form.Start
        → is_some (name_of (named_told source places (before ++ Step made ∷ after)) g) ≡ true }
{}

/// What is told of event i of a fiber in a replay, for its picture, is where the fiber stood at the step that showed the
/// event, which is step i of those of the fiber that show one.
pub fn told_places_are_those_of_events()
    ensures { (nodes : List Node) (s : ScriptView) (ps : List Pick) (told : List Told) (r : ReportView) → TellsRun nodes s ps told
        → IsReplay s ps r → (places : List FormPlace) (fibers queues f i : ℕ) (e : Event)
        → slice_get (trace_in r f) i ≡ Some e
        → IsToldOf places told (stood_events places fibers queues told) f i e }
{}
