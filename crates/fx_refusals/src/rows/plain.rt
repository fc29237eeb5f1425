//! The calls of one thread that go from a script that was read to a text, or to what is told of its runs.
ghost use Rattle.fx_text.specs.View.{meaning};
ghost use Rattle.fx_report.specs.Text.{queue_names, IsWritable};

use crate::given::Given;
use crate::harness::{Answer, OTHER, UNSET, whole_where};
use crate::refuser::Refuser;
use crate::scripts::{Printed, Worked};
use crate::shown::{is_written, room};
use fx_fiber::Report;
use fx_findings::{Compared, Nobody, compare, explore};
use fx_picture::{PictureFault, format_picture};
use fx_plain::{ENDED, OutFault, Told, replay, tell_run, write_report, write_trace};
use fx_run_events::{RanEvent, counts_told, ran_events, stands_told};
use fx_term::Memory;
use fx_text::Script;
use std::alloc::Global;

/// Which call is refused memory.
#[derive(Clone, Copy)]
pub enum ScriptCall {
    Replay,
    /// The run of a replay is told step by step.
    Tell,
    /// What a search of all runs has found is compared with the report.
    Compare,
    /// The report is drawn.
    Draw,
    /// What its events are is found again.
    Find,
    /// The writer of this.
    Write(Printed),
}

/// What a replay answers.
fn replays(alloc: Global, given: &Given, text: &str, refuser: &Refuser) -> Answer {
    refuser.go_on();
    let replayed = replay(alloc, &given.script, &[]);
    refuser.hold();
    match replayed {
        Ok(report) => whole_where(is_written(alloc, &given.script, &report, text)),
        Err(Memory) => Answer::Memory,
    }
}

/// How many events these steps have shown.
fn events_told(told: &[Told]) -> usize {
    let mut count = 0usize;
    for it in told {
        if let Told::Step(made) = it
            && made.event.is_some()
        {
            count = count.saturating_add(1);
        }
    }
    count
}

/// How many events the report has.
fn events_reported(report: &Report) -> usize {
    let mut count = 0usize;
    for fiber in &report.fibers {
        count = count.saturating_add(fiber.trace.len());
    }
    count
}

/// What the telling of a replay answers.
fn tells(alloc: Global, given: &Given, refuser: &Refuser) -> Answer {
    refuser.go_on();
    let told = tell_run(alloc, &given.script, &[]);
    refuser.hold();
    match told {
        Ok(told) => whole_where(events_told(&told) == events_reported(&given.report)),
        Err(Memory) => Answer::Memory,
    }
}

/// What the comparison with this text answers, which has the one report that a search finds.
fn compares(alloc: Global, given: &Given, text: &str, refuser: &Refuser) -> Answer {
    let Ok(explored) = explore(alloc, &given.script, None, 10_000, &mut Nobody) else {
        return UNSET;
    };
    refuser.go_on();
    let compared = compare(alloc, &given.script, &explored, text.as_bytes());
    refuser.hold();
    match compared {
        Ok(Compared { status, .. }) => whole_where(status == ENDED),
        Err(_) => Answer::Memory,
    }
}

/// What the picture of the report answers, which is to be the one that ample memory gives.
fn draws(alloc: Global, given: &Given, refuser: &Refuser) -> Answer {
    let Ok(whole) = format_picture(alloc, &given.script, &given.report, &[], &[], &[]) else {
        return UNSET;
    };
    refuser.go_on();
    let drawn = format_picture(alloc, &given.script, &given.report, &[], &[], &[]);
    refuser.hold();
    match drawn {
        Ok(text) => whole_where(text.as_bytes() == whole.as_bytes()),
        Err(PictureFault::Memory) => Answer::Memory,
        Err(PictureFault::TooLarge) => OTHER,
    }
}

/// What is found of the events of the report.
fn found_of(alloc: Global, script: &Script, report: &Report) -> Result<Vec<RanEvent>, Memory> {
    let told = stands_told(alloc, script, report)?;
    let counted = counts_told(alloc, script, report)?;
    Ok(ran_events(alloc, &told, &counted, report)?)
}

/// What the finding answers, which is to be all events, and where each fiber stood.
fn finds(alloc: Global, given: &Given, refuser: &Refuser) -> Answer {
    refuser.go_on();
    let found = found_of(alloc, &given.script, &given.report);
    refuser.hold();
    match found {
        Ok(events) => whole_where(
            events.len() == events_reported(&given.report)
                && events.iter().all(|event| event.stand.is_some()),
        ),
        Err(Memory) => Answer::Memory,
    }
}

/// What a writer answered that has written this, and was to write that.
fn came_to(answer: Result<(), OutFault>, written: &[u8], text: &str) -> Answer {
    match answer {
        Err(OutFault::Memory) if written.is_empty() => Answer::Memory,
        Ok(()) => whole_where(written == text.as_bytes()),
        Err(_) => OTHER,
    }
}

/// What the writer of the report answers, or that of the traces.
fn writes(
    alloc: Global,
    script: &Script,
    report: &Report,
    of: Printed,
    written: &mut Vec<u8>,
    refuser: &Refuser,
) -> Result<(), OutFault>
    requires { IsWritable (queue_names (meaning script.now)) report.now }
{
    refuser.go_on();
    let answer = match of {
        Printed::Traces => write_trace(alloc, script, report, written),
        _ => write_report(alloc, script, report, written),
    };
    refuser.hold();
    answer
}

/// What a writer answers that is given the report of the replay.
fn written(
    alloc: Global,
    given: &Given,
    on: &Worked,
    printed: Printed,
    refuser: &Refuser,
) -> Answer {
    let (Ok(report), Ok(mut written)) = (replay(alloc, &given.script, &[]), room(alloc)) else {
        return UNSET;
    };
    let answer = writes(
        alloc,
        &given.script,
        &report,
        printed,
        &mut written,
        refuser,
    );
    came_to(answer, &written, on.printed(printed))
}

/// What the call answers.
pub fn made(
    alloc: Global,
    given: &Given,
    on: &Worked,
    of: ScriptCall,
    refuser: &Refuser,
) -> Answer {
    match of {
        ScriptCall::Replay => replays(alloc, given, on.report, refuser),
        ScriptCall::Tell => tells(alloc, given, refuser),
        ScriptCall::Compare => compares(alloc, given, on.report, refuser),
        ScriptCall::Draw => draws(alloc, given, refuser),
        ScriptCall::Find => finds(alloc, given, refuser),
        ScriptCall::Write(printed) => written(alloc, given, on, printed, refuser),
    }
}
