//! The texts of reports that are made by hand.
ghost use Rattle.std.specs.Prelude.{◌≡◌, All};
ghost use Rattle.std.specs.Bool.{OnTrue};
ghost use Rattle.fx_text.specs.View.{meaning};
ghost use Rattle.fx_report.specs.Text.{queue_names, ends};
ghost use Rattle.fx_report.specs.Text.{IsWritableFiber, IsWritable};
ghost use Rattle.fx_term.specs.QueuesNamed.{NamesQueueBelow};
ghost use Rattle.fx_term.specs.Stamped.{events_in};

use crate::full::Full;
use fx_fiber::{FiberReport, Report, State};
use fx_plain::{OutFault, write_report, write_trace};
use fx_term::{Event, Item, Outcome, Stamped};
use fx_text::{QueueDecl, Script, parse};
use std::alloc::Global;
use std::process::Abort;
use std::test::Fail;

mod rows;

/// A fiber: its number, how it is at the end, its trace, and the stamps of that.
type Told<'a> = (u32, State, &'a [Event], &'a [u64]);

/// The fibers of a report, what is left in each queue, and the two texts.
#[derive(Clone, Copy)]
struct Row<'a> {
    fibers: &'a [Told<'a>],
    left: &'a [&'a [u64]],
    report: &'a str,
    traces: &'a str,
}

/// A script whose queues have these names.
fn script_with(alloc: Global, names: &[&str]) -> Result<Script, Fail> {
    let mut script = parse(alloc, b"(main (pure 5))")?;
    for name in names {
        script.queues.push(QueueDecl {
            name: String::from_str(alloc, name)?,
            cap: 4,
        })?;
    }
    Ok(script)
}

/// Elements with these values.
fn items(alloc: Global, values: &[u64]) -> Result<Vec<Item>, Fail> {
    let mut items = Vec::new(alloc);
    for value in values {
        items.push(Item {
            fiber: 0,
            nth: 0,
            value: *value,
            stamp: 1,
        })?;
    }
    Ok(items)
}

/// These events, each with its stamp.
fn stamped(alloc: Global, events: &[Event], stamps: &[u64]) -> Result<Vec<Stamped>, Fail> {
    let mut trace = Vec::new(alloc);
    for (event, stamp) in events.iter().zip(stamps) {
        trace.push(Stamped {
            event: *event,
            stamp: *stamp,
        })?;
    }
    Ok(trace)
}

/// The fibers of a report of which this is told.
fn fibers_of(alloc: Global, told: &[Told]) -> Result<Vec<FiberReport>, Fail> {
    let mut fibers = Vec::new(alloc);
    for (id, state, events, stamps) in told {
        fibers.push(FiberReport {
            id: *id,
            parent: None,
            state: *state,
            trace: stamped(alloc, events, stamps)?,
        })?;
    }
    Ok(fibers)
}

/// What is left in its queues, where these are the values.
fn left_of(alloc: Global, queues: &[&[u64]]) -> Result<Vec<Vec<Item>>, Fail> {
    let mut left = Vec::new(alloc);
    for values in queues {
        left.push(items(alloc, values)?)?;
    }
    Ok(left)
}

fn report_of(alloc: Global, row: &Row) -> Result<Report, Fail> {
    Ok(Report {
        fibers: fibers_of(alloc, row.fibers)?,
        left: left_of(alloc, row.left)?,
        outside: Vec::new(alloc),
        late: 0,
    })
}

fn names_queue_below(queues: usize, event: Event) -> bool
    ensures { OnTrue result (NamesQueueBelow queues event) }
{
    match event {
        Event::Put(queue, _) | Event::Got(queue, _) | Event::Refused(queue) | Event::Empty(queue) =>
            (queue as usize) < queues,
        _ => true,
    }
}

fn trace_names_below(queues: usize, trace: &[Stamped]) -> bool
    ensures { OnTrue result (All (NamesQueueBelow queues) (events_in trace.now)) }
{
    for stamped in trace {
        if !names_queue_below(queues, stamped.event) {
            return false;
        }
    }
    true
}

fn tells_its_end(fiber: &FiberReport) -> bool
    ensures { OnTrue result (ends fiber.now.trace ≡ fiber.now.has_ended) }
{
    let ends = match fiber.trace.last() {
        Some(stamped) => matches!(stamped.event, Event::Ended(_)),
        None => false,
    };
    match fiber.state {
        State::Ended => ends,
        State::Blocked => !ends,
    }
}

fn is_writable_fiber(queues: usize, fiber: &FiberReport) -> bool
    ensures { OnTrue result (IsWritableFiber queues fiber.now) }
{
    trace_names_below(queues, &fiber.trace) && tells_its_end(fiber)
}

fn are_writable(queues: usize, fibers: &[FiberReport]) -> bool
    ensures { OnTrue result (All (IsWritableFiber queues) fibers.now) }
{
    for fiber in fibers {
        if !is_writable_fiber(queues, fiber) {
            return false;
        }
    }
    true
}

fn is_writable(script: &Script, report: &Report) -> bool
    ensures { OnTrue result (IsWritable (queue_names (meaning script.now)) report.now) }
{
    report.left.len() == script.queues.len() && are_writable(script.queues.len(), &report.fibers)
}

/// Sees that the report is written so.
fn assert_report(
    rt: &impl Abort,
    alloc: Global,
    script: &Script,
    report: &Report,
    text: &str,
) -> Result<(), Fail>
    requires { IsWritable (queue_names (meaning script.now)) report.now }
{
    let mut written = Vec::new(alloc);
    write_report(alloc, script, report, &mut written)?;
    assert_eq!(rt; written.as_slice(), text.as_bytes());
    Ok(())
}

/// Sees that its traces are.
fn assert_traces(
    rt: &impl Abort,
    alloc: Global,
    script: &Script,
    report: &Report,
    text: &str,
) -> Result<(), Fail>
    requires { IsWritable (queue_names (meaning script.now)) report.now }
{
    let mut written = Vec::new(alloc);
    write_trace(alloc, script, report, &mut written)?;
    assert_eq!(rt; written.as_slice(), text.as_bytes());
    Ok(())
}

/// Sees that both texts of the row's report are these.
fn assert_texts(rt: &impl Abort, alloc: Global, script: &Script, row: &Row) -> Result<(), Fail> {
    let report = report_of(alloc, row)?;
    assert!(rt; is_writable(script, &report));
    assert_report(rt, alloc, script, &report, row.report)?;
    assert_traces(rt, alloc, script, &report, row.traces)
}

/// Sees that both texts of each report are these, where the script's queues have these names.
fn assert_writes(rt: &impl Abort, alloc: Global, names: &[&str], rows: &[Row]) -> Result<(), Fail> {
    let script = script_with(alloc, names)?;
    for row in rows {
        assert_texts(rt, alloc, &script, row)?;
    }
    Ok(())
}

/// Sees that a writer with so much room has that much of the text, and that this is told.
fn assert_prefix(
    rt: &impl Abort,
    alloc: Global,
    script: &Script,
    report: &Report,
    room: usize,
    whole: &[u8],
)
    requires { IsWritable (queue_names (meaning script.now)) report.now }
{
    let mut writer = Full::new(alloc, room);
    let written = write_report(alloc, script, report, &mut writer);
    let wanted = if room < whole.len() {
        Err(OutFault::Write)
    } else {
        Ok(())
    };
    assert_eq!(rt; written, wanted, "room for {room}");
    writer.assert_has(rt, whole);
}

static BLOCKED: Row<'static> = Row {
    fibers: &[(0, State::Blocked, &[], &[])],
    left: &[&[6]],
    report: "fiber 0 blocked\nqueue q left 6\n",
    traces: "",
};

/// Sees that of the report of `BLOCKED`.
fn assert_prefixes(rt: &impl Abort, alloc: Global, script: &Script, report: &Report) {
    assert!(rt; is_writable(script, report));
    for room in 0..=31 {
        assert_prefix(rt, alloc, script, report, room, BLOCKED.report.as_bytes());
    }
}

#[test]
fn writer_that_fails_has_a_prefix_of_the_text(rt: HostRuntime) -> Result<(), Fail> {
    let script = script_with(rt.alloc(), &["q"])?;
    let report = report_of(rt.alloc(), &BLOCKED)?;
    assert_prefixes(&rt, rt.alloc(), &script, &report);
    Ok(())
}

#[test]
fn faults_have_their_numbers(rt: HostRuntime) {
    assert_eq!(rt; OutFault::Write.number(), 1);
    assert_eq!(rt; OutFault::Memory.number(), 2);
}
