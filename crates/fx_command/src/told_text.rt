//! Tells a run step by step, a line each.
ghost use Rattle.std.specs.Prelude.{◌≡◌, ◌<◌, ◌^◌, ◌++◌, All, IfOk, IfSome, OnOk, length, string_bytes};
ghost use Rattle.fx_term.specs.QueuesNamed.{NamesQueueBelow};
ghost use Rattle.fx_text.specs.View.{meaning};
ghost use Rattle.fx_term.specs.Script.{total};
ghost use Rattle.fx_report.specs.Script.{script_of};
ghost use Rattle.fx_report.specs.Text.{queue_names};
ghost use Rattle.fx_plain.specs.PassedPicks.{IsWhyAtQueueBelow};
ghost use Rattle.fx_plain.specs.ToldRun.{IsToldAtQueueBelow};
ghost use Rattle.fx_command.specs.ToldText.{form_text, open_text, shown_text, step_line, request_line, passed_line, told_line};
ghost use Rattle.fx_command.specs.ToldText.{number_after, place_of, told_text, steps_text};

use crate::passed::format_why;
use crate::stood::{node_of, note};
use fx_places::FormPlace;
use fx_plain::{MadeStep, PassedPick, Told};
use fx_report::push_event;
use fx_term::{Event, NodeId};
use fx_text::Script;
use std::alloc::{AllocError, Global};

/// Appends where a form stands, and its word.
fn push_form(text: &mut String, place: Option<FormPlace>) -> Result<(), AllocError>
    ensures { OnOk result (string_bytes text.new ≡ string_bytes text.old ++ form_text place) }
{
    let Some(place) = place else {
        return text.push_str("-");
    };
    let line = place.position.line;
    let column = place.position.column;
    write!(text, "{line}:{column} ")?;
    text.push_str(place.form.word())
}

/// Whether a request would be seen there.
fn open_word(is_open: bool) -> &'static str
    ensures { result.now ≡ open_text is_open }
{
    if is_open { "open" } else { "closed" }
}

/// Appends a space and what a step shows, if it does.
fn push_shown(text: &mut String, script: &Script, event: Option<Event>) -> Result<(), AllocError>
    requires { IfSome event (NamesQueueBelow (length (queue_names (meaning script.now)))) }
    ensures { OnOk result (string_bytes text.new
        ≡ string_bytes text.old ++ shown_text (queue_names (meaning script.now)) event) }
{
    let Some(event) = event else {
        return Ok(());
    };
    text.push_str(" ")?;
    push_event(text, &script.queues, event)
}

/// Appends the line of a step of this number.
fn push_step(
    text: &mut String,
    script: &Script,
    number: usize,
    place: Option<FormPlace>,
    made: MadeStep,
) -> Result<(), AllocError>
    requires { IfSome made.event (NamesQueueBelow (length (queue_names (meaning script.now)))) }
    ensures { OnOk result (string_bytes text.new
        ≡ string_bytes text.old ++ step_line (queue_names (meaning script.now)) number place made) }
{
    let fiber = made.fiber;
    write!(text, "{number} {fiber} ")?;
    push_form(text, place)?;
    text.push(' ')?;
    text.push_str(open_word(made.is_open))?;
    push_shown(text, script, made.event)?;
    text.push('\n')
}

/// Appends the line of a pick that is passed over.
fn push_passed(
    alloc: Global,
    text: &mut String,
    script: &Script,
    passed: PassedPick,
) -> Result<(), AllocError>
    requires { IsWhyAtQueueBelow (length (queue_names (meaning script.now))) passed.why }
    ensures { OnOk result (string_bytes text.new
        ≡ string_bytes text.old ++ passed_line (queue_names (meaning script.now)) passed) }
{
    let place = passed.place;
    let why = format_why(alloc, script, passed.fiber(), passed.why)?;
    write!(text, "pick {place} is passed over: ")?;
    text.push_str(&why)
}

/// Appends the line of what comes next, which has this number if it is a step or a request, and this place if it is a step.
fn push_told(
    alloc: Global,
    text: &mut String,
    script: &Script,
    number: usize,
    place: Option<FormPlace>,
    told: Told,
) -> Result<(), AllocError>
    requires { IsToldAtQueueBelow (length (queue_names (meaning script.now))) told }
    ensures { OnOk result (string_bytes text.new
        ≡ string_bytes text.old ++ told_line (queue_names (meaning script.now)) number place told) }
{
    match told {
        Told::Step(made) => push_step(text, script, number, place, made),
        Told::Request(fiber) => write!(text, "{number} c{fiber}\n"),
        Told::Passed(passed) => push_passed(alloc, text, script, passed),
    }
}

/// The number of the next step or request, after this with that number.
fn number_after(number: usize, told: Told) -> usize
    requires { number < 2 ^ 63 }
    ensures { result ≡ number_after number told }
{
    match told {
        Told::Step(_) | Told::Request(_) => number + 1,
        Told::Passed(_) => number,
    }
}

/// The place of this node among those of all, if there is a node that has one.
pub(crate) fn place_at(places: &[FormPlace], node: Option<NodeId>) -> Option<FormPlace>
    ensures { result ≡ place_of places.now node }
{
    let NodeId(place) = node?;
    places.get(place as usize).copied()
}

/// A line for each step and each request, numbered from 1, and between them for each pick that is passed over. A step has the
/// place of its node, or, if it has none, that of the last node at which its fiber stood.
pub(crate) fn format_told(
    alloc: Global,
    script: &Script,
    places: &[FormPlace],
    told: &[Told],
) -> Result<String, AllocError>
    requires { All (IsToldAtQueueBelow (length (queue_names (meaning script.now)))) told.now }
    ensures { let m = meaning script.now in IfOk result (λ text.
        string_bytes text ≡ steps_text (queue_names m) places.now (total (script_of m)) told.now) }
{
    let mut stood = vec![in alloc; None; script.total() as usize]?;
    let mut text = String::new(alloc);
    let mut number = 1;
    let mut rest = told;
    while let Some((next, more)) = rest.split_first() {
        let place = place_at(places, node_of(&stood, *next));
        push_told(alloc, &mut text, script, number, place, *next)?;
        note(&mut stood, *next);
        number = number_after(number, *next);
        rest = more;
    }
    Ok(text)
}
