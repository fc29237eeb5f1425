//! Laws of pictures. A function here does nothing: its contract is the law.
ghost use Rattle.std.specs.Prelude.{◌≡◌, ℕ, ◌<◌, Bool, true, Some, None, List, map, slice_get, Contains};
ghost use Rattle.std.specs.List.Sorted.{IsPermutation};
ghost use Rattle.fx_term.specs.declared.event.Event.{Event};
ghost use Rattle.fx_term.specs.declared.event.Event.TheVariants.{Seen};
ghost use Rattle.fx_term.specs.Script.{ScriptView};
ghost use Rattle.fx_model.specs.Report.{FiberReportView, ReportView, fiber_in, trace_in};
ghost use Rattle.fx_model.specs.Headline.{HoldsWhatIsPromised};
ghost use Rattle.fx_model.specs.LawfulReport.{IsLawfulReport};
ghost use Rattle.fx_model.specs.Causes.{Needs, LeavesQueue};
ghost use Rattle.fx_order.specs.declared.occurrence.Occurrence.{Occurrence};
ghost use Rattle.fx_order.specs.CausalOrder.{IsCausalOrder};
ghost use Rattle.fx_report.specs.declared.blocked.Blocked.{Blocked};
ghost use Rattle.fx_svg.specs.Content.{Content};
ghost use Rattle.fx_svg.specs.WellFormed.{is_well_formed};
ghost use Rattle.fx_picture.specs.declared.cause.Cause.{Cause};
ghost use Rattle.fx_picture.specs.declared.bar.Bar.{Bar};
ghost use Rattle.fx_picture.specs.declared.drawn.Drawn.{Drawn};
ghost use Rattle.fx_picture.specs.Handles.{Named};
ghost use Rattle.fx_picture.specs.declared.stood.Stood.{Stood};
ghost use Rattle.fx_picture.specs.Causes.{cause_in};
ghost use Rattle.fx_picture.specs.DrawsEach.{TellsEach, DrawsEach};
ghost use Rattle.fx_picture.specs.DrawsOnly.{TellsOnly, DrawsOnly};
ghost use Rattle.fx_picture.specs.Folds.{event_of, is_quiet, in_row, sheet_of};
ghost use Rattle.fx_picture.specs.IsClosed.{Begins, IsClosed, IsMasked};
ghost use Rattle.fx_picture.specs.Stood.{stood_at, is_told_closed};
ghost use Rattle.fx_picture.specs.Has.{Has, IsArrow};
ghost use Rattle.fx_picture.specs.IsFolded.{SharesRow, IsRun, events_in};
ghost use Rattle.fx_picture.specs.IsDrawn.{SaysItsCause, Tells, IsDrawn, HasArrow};
ghost use Rattle.fx_picture.specs.Picture.{arrow, arrows_from, mark_of, picture, picture_text};

/// The text of a picture is a well-formed document.
pub fn picture_is_well_formed()
    ensures { (names : List (List ℕ)) (stood : List Stood) (handles : List Named) (blocked : List Blocked)
        (fibers : List FiberReportView) (list : List Occurrence) → is_well_formed (picture_text names stood handles blocked fibers list) ≡ true }
{}

/// What stands among the arrows of a picture is an arrow from an event to one below it that stands on it, and goes down.
pub fn arrows_join_causes()
    ensures down { (stood : List Stood) (list : List Occurrence) (above below : ℕ) (first second : Drawn) (cause : Cause) → above < below
        → slice_get (sheet_of stood list).drawn above ≡ Some first → slice_get (sheet_of stood list).drawn below ≡ Some second
        → cause_in stood first.event second.event ≡ Some cause → first.row < second.row }
    ensures joins { (stood : List Stood) (fibers : List FiberReportView) (list : List Occurrence) (e : Content)
        → Has (arrows_from stood fibers (sheet_of stood list).drawn 0 (sheet_of stood list).drawn) e
        → IsArrow stood fibers (sheet_of stood list).drawn e }
{}

/// Where each cause that is told is one on which its event stands, an event stands by the model on each from which an arrow
/// comes to it, but for one that sees a request: to that come arrows from requests for its fiber.
pub fn arrows_come_from_causes()
    ensures { (s : ScriptView) (may : ℕ → Bool) (r : ReportView) (lawful : IsLawfulReport s may r) (stood : List Stood)
        → TellsOnly s may r lawful stood → DrawsOnly s may r lawful stood }
{}

/// From each event to each one below it that stands on it there is an arrow.
pub fn no_arrow_is_missing()
    ensures { (names : List (List ℕ)) (stood : List Stood) (handles : List Named) (blocked : List Blocked)
        (fibers : List FiberReportView) (list : List Occurrence) (above below : ℕ) (first second : Drawn) (cause : Cause) → above < below
        → slice_get (sheet_of stood list).drawn above ≡ Some first → slice_get (sheet_of stood list).drawn below ≡ Some second
        → cause_in stood first.event second.event ≡ Some cause
        → Has (picture names stood handles blocked fibers list) (arrow fibers first second cause) }
{}

/// Each event of the list has its place in one row, and each row has its mark.
pub fn each_event_is_drawn_once()
    ensures same { (stood : List Stood) (list : List Occurrence) → map event_of (sheet_of stood list).drawn ≡ list }
    ensures once { (stood : List Stood) (list : List Occurrence)
        → IsPermutation list (events_in (sheet_of stood list).rows (sheet_of stood list).drawn) }
    ensures marked { (names : List (List ℕ)) (stood : List Stood) (handles : List Named) (blocked : List Blocked)
        (fibers : List FiberReportView) (list : List Occurrence) (place : ℕ) (x : Drawn) → slice_get (sheet_of stood list).drawn place ≡ Some x
        → Contains (in_row x.row (sheet_of stood list).drawn) x.event × Has (picture names stood handles blocked fibers list)
        (mark_of names stood fibers x.row (in_row x.row (sheet_of stood list).drawn)) }
{}

/// What shares a row is a run of one lane in which no arrow begins or ends, and nothing of that lane between them stands
/// elsewhere.
pub fn folds_are_runs()
    ensures run { (stood : List Stood) (list : List Occurrence) (i j : ℕ) (x y : Drawn)
        → SharesRow (sheet_of stood list).drawn i j x y → IsRun stood (sheet_of stood list).drawn i j x y }
    ensures from { (stood : List Stood) (x y : Occurrence) → is_quiet stood x ≡ true → cause_in stood x y ≡ None }
    ensures to { (stood : List Stood) (x y : Occurrence) → is_quiet stood y ≡ true → cause_in stood x y ≡ None }
{}

/// Where the list is an order in which causes come first, there is an arrow to each event that says what it
/// stands on from each event that it stands on by the model, and to each that sees a request from some
/// request, unless one came from outside. So there is to any event from one that is told to have caused it, if it stands on
/// that by the model. So where each put that was taken and each end that a `first` learnt of is told, no arrow is missing.
pub fn causes_are_drawn()
    ensures needed { (s : ScriptView) (may : ℕ → Bool) (r : ReportView)
        (lawful : IsLawfulReport s may r) (list : List Occurrence)
        → IsCausalOrder s may r lawful list → (names : List (List ℕ)) (stood : List Stood)
        (handles : List Named) (blocked : List Blocked) (f i g j : ℕ) (e : Event) → slice_get (trace_in r f) i ≡ Some e → SaysItsCause e
        → Needs (trace_in r) lawful.runs.labels (LeavesQueue s may r lawful) f i g j
        → IsDrawn names stood handles blocked r list f i g j }
    ensures told { (s : ScriptView) (may : ℕ → Bool) (r : ReportView)
        (lawful : IsLawfulReport s may r) (list : List Occurrence)
        → IsCausalOrder s may r lawful list → (names : List (List ℕ)) (stood : List Stood)
        (handles : List Named) (blocked : List Blocked) (f i g j : ℕ) (e : Event) → slice_get (trace_in r f) i ≡ Some e → Tells stood f i g j
        → Needs (trace_in r) lawful.runs.labels (LeavesQueue s may r lawful) f i g j
        → IsDrawn names stood handles blocked r list f i g j }
    ensures requested { (s : ScriptView) (may : ℕ → Bool) (r : ReportView)
        (lawful : IsLawfulReport s may r) (list : List Occurrence)
        → IsCausalOrder s may r lawful list → (names : List (List ℕ)) (stood : List Stood)
        (handles : List Named) (blocked : List Blocked) (f i : ℕ) → slice_get (trace_in r f) i ≡ Some Seen → (Contains r.outside f → ⊥)
        → HasArrow names stood handles blocked r list f i }
    ensures each { (s : ScriptView) (may : ℕ → Bool) (r : ReportView) (lawful : IsLawfulReport s may r) (stood : List Stood)
        → TellsEach s may r lawful stood → DrawsEach s may r lawful stood }
{}

/// Where the list is an order in which causes come first, each bar of a fiber that has ended is closed: its life,
/// its clean-ups, each resource that it acquired, and each closed place.
pub fn bars_of_ended_fibers_are_closed()
    ensures { (s : ScriptView) (may : ℕ → Bool) (r : ReportView) (lawful : IsLawfulReport s may r)
        (list : List Occurrence) (order : IsCausalOrder s may r lawful list) (stood : List Stood)
        → HoldsWhatIsPromised s r lawful.runs → (f : ℕ) (x : FiberReportView)
        → fiber_in r f ≡ Some x → x.has_ended ≡ true → (i : ℕ) (e : Event) (bar : Bar)
        → slice_get x.trace i ≡ Some e → Begins stood f i e bar
        → IsClosed stood list f (order.moment f i) bar }
{}

/// At each event that is told to be at a closed place the bar of such a place has begun and not ended, but by the end of the
/// fiber.
pub fn closed_places_have_bars()
    ensures { (stood : List Stood) (f i : ℕ) → is_told_closed (stood_at stood f i) ≡ true
        → IsMasked stood f i }
{}
