//! Makes one call of words so often, on each of so many threads: `bench/words` times and counts it.

ghost use Rattle.std.specs.Prelude.{◌≡◌, ◌+◌, ◌<◌};
ghost use Rattle.fx_word.specs.Words.{IsOf};

use crate::number;
use fx_term::{Begin, Memory, NodeId, Outcome, Registers};
use fx_word::{WordSeat, Words};
use std::alloc::Global;
use std::env::Args;
use std::process::ExitCode;
use std::thread::{self, Threads};

/// Main, one fiber for each other thread, and one that is peeked at.
const FIBERS: u32 = 5;

/// Which call is made.
#[derive(Clone, Copy)]
enum Call {
    Nothing,
    Request,
    Look,
    Peek,
}

/// Makes the call so often.
fn make(words: &Words, mut seat: WordSeat, call: Call, count: u32) -> WordSeat
    requires words { IsOf seat words.now }
    requires fibers { words.now.fibers ≡ 5 }
    ensures { IsOf result words.now }
{
    match call {
        Call::Nothing => {}
        Call::Request => {
            'requesting: for _ in 0..count {
                words.request(&mut seat, 4, 1);
            }
        }
        Call::Look => {
            'looking: for _ in 0..count {
                let _ = words.look(&mut seat);
            }
        }
        Call::Peek => {
            'peeking: for _ in 0..count {
                let _ = words.peek(&mut seat, 4);
            }
        }
    }
    seat
}

fn make_two<R: Threads + Sync>(
    rt: &R,
    words: &Words,
    one: WordSeat,
    two: WordSeat,
    call: Call,
    count: u32,
)
    requires words { IsOf one words.now × IsOf two words.now }
    requires fibers { words.now.fibers ≡ 5 }
{
    let _ = thread::join(
        rt,
        move || -> u8
            requires { IsOf one words.now × (words.now.fibers ≡ 5) }
        {
            let _ = make(words, one, call, count);
            0
        },
        move || -> u8
            requires { IsOf two words.now × (words.now.fibers ≡ 5) }
        {
            let _ = make(words, two, call, count);
            0
        },
    );
}

fn make_four<R: Threads + Sync>(
    rt: &R,
    words: &Words,
    first: (WordSeat, WordSeat),
    second: (WordSeat, WordSeat),
    call: Call,
    count: u32,
)
    requires words { IsOf first.0 words.now × IsOf first.1 words.now
        × IsOf second.0 words.now × IsOf second.1 words.now }
    requires fibers { words.now.fibers ≡ 5 }
{
    let (main, one) = first;
    let (two, three) = second;
    let _ = thread::join(
        rt,
        move || -> u8
            requires { IsOf main words.now × IsOf one words.now × (words.now.fibers ≡ 5) }
        {
            make_two(rt, words, main, one, call, count);
            0
        },
        move || -> u8
            requires { IsOf two words.now × IsOf three words.now × (words.now.fibers ≡ 5) }
        {
            make_two(rt, words, two, three, call, count);
            0
        },
    );
}

/// What a fiber of this number begins with that starts none.
fn begin_of(alloc: Global, id: u32) -> Begin
    requires { id < 5 }
    ensures next { result.next ≡ id + 1 }
    ensures end { result.end ≡ id + 1 }
{
    Begin {
        node: NodeId(0),
        slots: Registers::new(alloc),
        next: id + 1,
        end: id + 1,
        stamp: 1,
    }
}

/// What the words after `words` ask for: a call, how often, on how many threads, and whether the fiber that is
/// peeked at has ended.
#[derive(Clone, Copy)]
pub(crate) struct Asked {
    call: Call,
    is_ended: bool,
    count: u32,
    threads: u32,
}

pub(crate) fn wanted(given: &mut Args) -> Option<Asked> {
    let (call, is_ended) = match given.next()?.as_str() {
        "nothing" => (Call::Nothing, false),
        "request" => (Call::Request, false),
        "look" => (Call::Look, false),
        "peek" => (Call::Peek, false),
        "peek-ended" => (Call::Peek, true),
        _ => return None,
    };
    let count = number(given)?;
    let threads = number(given)?;
    Some(Asked {
        call,
        is_ended,
        count,
        threads,
    })
}

fn run<R: Threads + Sync>(rt: &R, alloc: Global, asked: Asked) -> Result<(), Memory> {
    let (words, mut main) = Words::new(alloc, FIBERS)?;
    let one = words.split(&mut main, 1, &begin_of(alloc, 1));
    let two = words.split(&mut main, 2, &begin_of(alloc, 2));
    let three = words.split(&mut main, 3, &begin_of(alloc, 3));
    let mut four = words.split(&mut main, 4, &begin_of(alloc, 4));
    if asked.is_ended {
        words.finish(&mut four, Outcome::Succeeded(7), 1);
    }
    match asked.threads {
        1 => {
            let _ = make(&words, main, asked.call, asked.count);
        }
        2 => make_two(rt, &words, main, one, asked.call, asked.count),
        _ => make_four(
            rt,
            &words,
            (main, one),
            (two, three),
            asked.call,
            asked.count,
        ),
    }
    Ok(())
}

/// Makes the calls, and gives the status of the program.
pub(crate) fn measure<R: Threads + Sync>(rt: &R, alloc: Global, asked: Asked) -> ExitCode {
    match run(rt, alloc, asked) {
        Ok(()) => ExitCode::from(0),
        Err(_) => ExitCode::from(5),
    }
}
