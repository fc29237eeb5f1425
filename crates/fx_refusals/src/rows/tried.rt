//! What a row is, and how it is tried.

use crate::given::{Given, given_of};
use crate::harness::{Answer, OTHER, Trial, UNSET, Wrong};
use crate::refuser::Reach;
use crate::rows::commands::{Said, commands};
use crate::rows::runs::runs;
use crate::rows::{closed, fibers, numbers, opened, parts, places, plain, tasks, texts, worlds};
use crate::scripts::Worked;
use std::alloc::{AllocGlobal, Global};
use std::random::RandomSource;
use std::sync::Wait;
use std::thread::Threads;

/// No row makes as many requests.
const MOST_REQUESTS: u32 = 4000;

/// A row: one call or several.
#[derive(Clone, Copy)]
pub enum Row {
    Places(places::PlaceCall),
    /// Tasks are put into a deque.
    Put,
    /// A task is stolen, with as many others as there is room for.
    Steal,
    Numbers(numbers::NumberCall),
    Part(parts::PartCall),
    Closed(closed::ClosingCall),
    Text(texts::TextCall),
    OnScript(OnScript),
    /// The program, called by words.
    Command(&'static Said),
}

/// A row that is made on a script which was read.
#[derive(Clone, Copy)]
pub enum OnScript {
    /// A call that goes from the script to a text.
    Text(plain::ScriptCall),
    /// What fibers of one thread do.
    Plain(fibers::FiberCall),
    /// What fibers of several threads do, on one.
    Threads(fibers::FiberCall),
    /// A run by so many workers.
    Run(u32),
}

impl Row {
    /// Whether it is a call of the kit that does without the memory that it is refused, and so cannot tell; or makes one:
    /// what is collected has as much room as it is likely to take, or else what it takes.
    fn does_without(self) -> bool {
        matches!(
            self,
            Row::Steal | Row::OnScript(OnScript::Text(plain::ScriptCall::Compare))
        )
    }
}

/// What a call answers, and what several come to. A method of a trait cannot hand a handle to threads, so this is none.
fn made<R: Wait + Threads + Sync + RandomSource + AllocGlobal + Drop>(
    rt: &R,
    alloc: Global,
    row: Row,
    on: &Worked,
    trial: &Trial,
) -> Answer {
    match row {
        Row::Places(of) => places::tried(alloc, of, trial),
        Row::Put => tasks::put(rt, alloc, trial),
        Row::Steal => tasks::stolen(rt, alloc, &trial.refuser),
        Row::Numbers(of) => numbers::made(alloc, of, &trial.refuser),
        Row::Part(of) => parts::made(rt, alloc, of, &trial.refuser),
        Row::Closed(of) => closed::made(rt, alloc, of, &trial.refuser),
        Row::Text(of) => texts::made(alloc, on, of, &trial.refuser),
        Row::OnScript(of) => on_script(rt, alloc, of, on, trial),
        Row::Command(said) => commands(rt, alloc, said, on, &trial.refuser),
    }
}

/// The same on a script, which is read first.
fn on_script<R: Wait + Threads + Sync + RandomSource + AllocGlobal>(
    rt: &R,
    alloc: Global,
    of: OnScript,
    on: &Worked,
    trial: &Trial,
) -> Answer {
    match given_of(rt, alloc, on.text) {
        Some(given) => on_given(rt, alloc, of, on, &given, trial),
        None => UNSET,
    }
}

/// The same, where it has been read.
fn on_given<R: Wait + Threads + Sync + RandomSource + AllocGlobal>(
    rt: &R,
    alloc: Global,
    of: OnScript,
    on: &Worked,
    given: &Given,
    trial: &Trial,
) -> Answer {
    match of {
        OnScript::Text(of) => plain::made(alloc, given, on, of, &trial.refuser),
        OnScript::Plain(of) => worlds::made(rt, alloc, given, of, trial),
        OnScript::Threads(of) => opened::made(rt, alloc, given, of, trial),
        OnScript::Run(workers) => runs(rt, alloc, given, on.report, workers, &trial.refuser),
    }
}

/// What the row comes to. A call that sets up all that it is made on, and was refused memory, is made again with ample
/// memory.
fn tried<R: Wait + Threads + Sync + RandomSource + AllocGlobal + Drop>(
    rt: &R,
    alloc: Global,
    row: Row,
    on: &Worked,
    trial: &Trial,
) -> Answer {
    let first = made(rt, alloc, row, on, trial);
    if !matches!(first, Answer::Memory) {
        return first;
    }
    if !trial.refuser.end() {
        return Answer::Wrong(Wrong::Untrue);
    }
    match made(rt, alloc, row, on, trial) {
        Answer::Whole => Answer::Told,
        Answer::Memory => Answer::Wrong(Wrong::Again),
        Answer::Goes | Answer::Told => OTHER,
        wrong => wrong,
    }
}

/// Refuses the first request, the second and so on, and with that reach all after it, until none is met: how many were,
/// and there must be some.
fn requests_at<R: Wait + Threads + Sync + RandomSource + AllocGlobal + Drop>(
    rt: &R,
    row: Row,
    on: &Worked,
    reach: Reach,
) -> Result<u32, Wrong> {
    for count in 0..MOST_REQUESTS {
        let trial = Trial::begin(rt.alloc(), reach, count + 1);
        match trial.end(tried(rt, rt.alloc(), row, on, &trial)) {
            Answer::Whole if count == 0 => return Err(Wrong::NoRequest),
            Answer::Whole => return Ok(count),
            Answer::Told => {}
            Answer::Wrong(Wrong::Hidden) if row.does_without() => {}
            Answer::Wrong(wrong) => return Err(wrong),
            Answer::Memory | Answer::Goes => return Err(Wrong::Other),
        }
    }
    Err(Wrong::NoEnd)
}

/// How many requests the row makes, where each was refused in turn and all came as it is to come.
pub fn requests<R: Wait + Threads + Sync + RandomSource + AllocGlobal + Drop>(
    rt: &R,
    row: Row,
    on: &Worked,
) -> Result<u32, Wrong> {
    let alone = requests_at(rt, row, on, Reach::Alone);
    if alone.is_ok() {
        if let Err(wrong) = requests_at(rt, row, on, Reach::AllAfter) {
            return Err(wrong);
        }
    }
    alone
}
