//! The rows, a line each.

mod alone;
mod closed;
mod commands;
mod fibers;
mod numbers;
mod opened;
mod parts;
mod places;
mod plain;
mod reports;
mod runs;
mod tasks;
mod texts;
mod tried;
mod worlds;

use crate::scripts::{NONE, ONE, Printed, TWO, WORKED, Worked};
use crate::steps::Part;
use crate::tally::Tally;
use closed::ClosingCall;
use commands::{FAULTS, WORDS};
use fibers::FiberCall;
use numbers::NumberCall;
use parts::PartCall;
use places::PlaceCall;
use plain::ScriptCall;
use reports::ReportCall;
use std::alloc::AllocGlobal;
use std::random::RandomSource;
use std::sync::Wait;
use std::thread::Threads;
use texts::TextCall;
use tried::{OnScript, Row, requests};

/// A row in a table: the call, on what, which is left out where it is the script, and the row.
type Line = (&'static str, &'static str, Row);

/// Those that are made on no script: of one thread; of what threads share, of what the ports of fibers have, and of what
/// workers have; and of a call of the kit that does without the memory that it is refused.
static OF_NONE: [Line; 19] = [
    ("Masks::enter", "13 regions", Row::Places(PlaceCall::Enter)),
    ("Masks::seal", "12 seals", Row::Places(PlaceCall::Seal)),
    ("Frames::push", "12 contexts", Row::Places(PlaceCall::Push)),
    (
        "Registers::bind",
        "a number",
        Row::Numbers(NumberCall::Bind),
    ),
    (
        "Registers::copied",
        "a number",
        Row::Numbers(NumberCall::Copied),
    ),
    ("Begin::copied", "a number", Row::Numbers(NumberCall::Begin)),
    ("Code::build", "a join", Row::Text(TextCall::Build)),
    ("schedule", "7 picks", Row::Text(TextCall::Schedule)),
    ("Words::new", "100 fibers", Row::Part(PartCall::Words)),
    ("FiberQueue::new", "3 fibers", Row::Part(PartCall::Queue)),
    (
        "FiberQueue::close",
        "an element",
        Row::Closed(ClosingCall::Queue),
    ),
    ("open_queues", "2 queues", Row::Part(PartCall::Queues)),
    ("close_queues", "2 queues", Row::Closed(ClosingCall::Queues)),
    ("Sources::new", "3 fibers", Row::Part(PartCall::Sources)),
    ("Notes::new", "3 fibers", Row::Part(PartCall::Notes)),
    ("Tasks::new", "4 workers", Row::Part(PartCall::Tasks)),
    ("Owner::push", "100 tasks", Row::Put),
    ("solo", "a worker", Row::Part(PartCall::Solo)),
    ("Owner::next", "a steal, which does without", Row::Steal),
];

/// Those of a main fiber, and of its report.
static OF_ONE: [Line; 3] = [
    (
        "Fiber::new",
        "a main fiber",
        Row::OnScript(OnScript::Plain(FiberCall::New)),
    ),
    (
        "ThreadPort::new",
        "a main fiber",
        Row::OnScript(OnScript::Threads(FiberCall::Port)),
    ),
    (
        "compare",
        "a report, which does without",
        Row::OnScript(OnScript::Text(ScriptCall::Compare)),
    ),
];

/// Those of the places of fibers that wait or have ended.
static OF_TWO: [Line; 2] = [
    (
        "Lot::new",
        "2 fibers",
        Row::OnScript(OnScript::Plain(FiberCall::NewLot)),
    ),
    (
        "Lot::empty",
        "a fiber",
        Row::OnScript(OnScript::Plain(FiberCall::EmptyLot)),
    ),
];

/// Those of each worked script.
static OF_WORKED: [Line; 19] = [
    ("parse", "", Row::Text(TextCall::Parse)),
    (
        "PlainWorld::new",
        "",
        Row::OnScript(OnScript::Plain(FiberCall::World)),
    ),
    (
        "replay",
        "",
        Row::OnScript(OnScript::Text(ScriptCall::Replay)),
    ),
    (
        "tell_run",
        "",
        Row::OnScript(OnScript::Text(ScriptCall::Tell)),
    ),
    (
        "format_picture",
        "",
        Row::OnScript(OnScript::Text(ScriptCall::Draw)),
    ),
    (
        "ran_events",
        "",
        Row::OnScript(OnScript::Text(ScriptCall::Find)),
    ),
    (
        "write_report",
        "",
        Row::OnScript(OnScript::Text(ScriptCall::Write(Printed::Report))),
    ),
    (
        "write_trace",
        "",
        Row::OnScript(OnScript::Text(ScriptCall::Write(Printed::Traces))),
    ),
    ("replay_text", "", Row::Text(TextCall::ReplayText)),
    (
        "Fiber::step over PlainPort",
        "",
        Row::OnScript(OnScript::Plain(FiberCall::Steps(Part::Step))),
    ),
    (
        "Fiber::burst over PlainPort",
        "",
        Row::OnScript(OnScript::Plain(FiberCall::Steps(Part::Burst))),
    ),
    (
        "gated_turn over PlainPort",
        "",
        Row::OnScript(OnScript::Plain(FiberCall::Steps(Part::Turn))),
    ),
    (
        "Fiber::step over ThreadPort",
        "",
        Row::OnScript(OnScript::Threads(FiberCall::Steps(Part::Step))),
    ),
    (
        "gated_turn over ThreadPort",
        "",
        Row::OnScript(OnScript::Threads(FiberCall::Steps(Part::Turn))),
    ),
    (
        "work",
        "",
        Row::OnScript(OnScript::Threads(FiberCall::Work)),
    ),
    (
        "report",
        "",
        Row::OnScript(OnScript::Plain(FiberCall::Report(ReportCall::Report))),
    ),
    (
        "test_for_lost",
        "",
        Row::OnScript(OnScript::Plain(FiberCall::Report(ReportCall::Lost))),
    ),
    ("run by 1", "", Row::OnScript(OnScript::Run(1))),
    ("run by 4", "", Row::OnScript(OnScript::Run(4))),
];

/// Tries all rows.
pub fn all<R: Print + Wait + Threads + Sync + RandomSource + AllocGlobal + Drop>(
    tally: &mut Tally<R>,
) {
    listed(tally, &OF_NONE, &NONE);
    listed(tally, &OF_ONE, &ONE);
    listed(tally, &OF_TWO, &TWO);
    for worked in &WORKED {
        of_worked(tally, worked);
    }
    for (said, on) in &FAULTS {
        row(tally, said.words, on.name, Row::Command(said), on);
    }
}

/// Tries those of a worked script.
fn of_worked<R: Print + Wait + Threads + Sync + RandomSource + AllocGlobal + Drop>(
    tally: &mut Tally<R>,
    worked: &Worked,
) {
    listed(tally, &OF_WORKED, worked);
    for said in &WORDS {
        row(tally, said.words, worked.name, Row::Command(said), worked);
    }
}

/// Tries these rows on this script.
fn listed<R: Print + Wait + Threads + Sync + RandomSource + AllocGlobal + Drop>(
    tally: &mut Tally<R>,
    rows: &[Line],
    on: &Worked,
) {
    for (call, of, it) in rows {
        let of = if of.is_empty() { on.name } else { *of };
        row(tally, call, of, *it, on);
    }
}

/// Tries the row of this call on that, and prints a line on it.
fn row<R: Print + Wait + Threads + Sync + RandomSource + AllocGlobal + Drop>(
    tally: &mut Tally<R>,
    call: &str,
    of: &str,
    row: Row,
    on: &Worked,
) {
    let count = requests(tally.rt, row, on);
    tally.tell(call, of, count);
}
