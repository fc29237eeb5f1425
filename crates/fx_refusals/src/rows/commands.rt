//! Calls of the program, over texts in memory.

use crate::harness::{Answer, UNSET, whole_where};
use crate::refuser::Refuser;
use crate::scripts::{Printed, Worked};
use crate::shown::room;
use fx_command::command::{FAULT, command};
use fx_command::files::{FetchFault, Files};
use fx_command::stream::Stream;
use fx_findings::{INCOMPLETE, Nobody};
use fx_report::BLOCKED as OF_BLOCKED;
use std::alloc::{AllocGlobal, Global};
use std::io;
use std::io::Read;
use std::random::RandomSource;
use std::sync::Wait;
use std::thread::Threads;

/// The words after the program's name, and what is answered: the status, which text of the script is printed on
/// standard output, and what is printed on standard error. The words name a script F, and a schedule S that picks
/// fiber 0, which can step at first whatever the script is.
#[derive(Clone, Copy)]
pub struct Said {
    pub words: &'static str,
    status: u8,
    out: Printed,
    err: &'static str,
}

/// Calls that print a text of a worked script, and nothing else.
pub static WORDS: [Said; 5] = [
    Said {
        words: "check F",
        status: 0,
        out: Printed::Counts,
        err: "",
    },
    Said {
        words: "replay F S",
        status: 0,
        out: Printed::Report,
        err: "",
    },
    Said {
        words: "trace F",
        status: 0,
        out: Printed::Traces,
        err: "",
    },
    Said {
        words: "run F 1",
        status: 0,
        out: Printed::Report,
        err: "",
    },
    Said {
        words: "run F 4",
        status: 0,
        out: Printed::Report,
        err: "",
    },
];

/// A script of which two fibers wait for good.
const BLOCKED: Worked = Worked {
    name: "blocked",
    text: "(queue q 1) (main (start h (take q) (start g (bracket p (pure 7) \
            (join h (x (pure x)) (e (pure e)) (pure 1)) (offer q p)) (pure 3))))",
    counts: "",
    report: "fiber 0 succeeded 3\nfiber 1 blocked\nfiber 2 blocked\nqueue q left\n",
    traces: "",
};

/// What is said of it.
const WAITS: &str = "fiber 1 (line 1, column 28) waits for an element of queue q\n\
    fiber 2 (line 1, column 66) waits for fiber 1 to end\n";

/// Calls that have words for people, a fault to tell, or a text that no other call prints.
pub static FAULTS: [(Said, Worked); 7] = [
    (
        Said {
            words: "replay F",
            status: 1,
            out: Printed::Report,
            err: WAITS,
        },
        BLOCKED,
    ),
    (
        Said {
            words: "run F 4",
            status: 1,
            out: Printed::Report,
            err: WAITS,
        },
        BLOCKED,
    ),
    (
        Said {
            words: "check F",
            status: 3,
            out: Printed::Counts,
            err: "F:1:8: `foo` is no word of a form: did you mean `for`?\n(main (foo))\n       ^\n",
        },
        Worked {
            name: "no form",
            text: "(main (foo))",
            counts: "refused 5 at 7\n",
            report: "",
            traces: "",
        },
    ),
    (
        Said {
            words: "check G",
            status: 4,
            out: Printed::Counts,
            err: "cannot read G\n",
        },
        Worked {
            name: "no text",
            text: "",
            counts: "",
            report: "",
            traces: "",
        },
    ),
    (
        Said {
            words: "explore F",
            status: 1,
            out: Printed::Report,
            err: "",
        },
        SEARCHED,
    ),
    (
        Said {
            words: "steps F",
            status: 0,
            out: Printed::Report,
            err: "",
        },
        TOLD,
    ),
    (
        Said {
            words: "run F 0",
            status: 5,
            out: Printed::Report,
            err: "fault workers: from 1 to 64\n",
        },
        Worked {
            name: "no worker",
            text: "(main (pure 5))",
            counts: "",
            report: "",
            traces: "",
        },
    ),
];

/// A script of which each run leaves a fiber blocked, with what a search of all runs prints.
const SEARCHED: Worked = Worked {
    name: "searched",
    text: "(queue q 1) (main (start h (offer q 1) (offer q 2)))",
    counts: "",
    report: "schedule\nfiber 0 succeeded 0\nfiber 1 blocked\nqueue q left 2\n\n\
            schedule 0 1\nfiber 0 blocked\nfiber 1 succeeded 0\nqueue q left 1\n\n\
            explored: 2 reports, 4 states, complete\n",
    traces: "",
};

/// A script with each step of its replay.
const TOLD: Worked = Worked {
    name: "told",
    text: "(main (start h (pure 1) (cancel h)))",
    counts: "",
    report: "1 0 1:7 start open start 1\n2 0 1:25 cancel open request 1\n3 1 1:16 pure open seen\n\
            4 1 1:16 pure open cancelled\n5 1 1:16 pure closed ended canceled\n6 0 1:25 cancel closed awaited 1\n\
            7 0 1:25 cancel open ended succeeded 0\n",
    traces: "",
};

/// A text in memory. Contracts know none of its bytes.
#[derive(Drop)]
struct Text {
    left: &'static [u8],
}

impl Read for Text {
    fn read(&mut self, buf: &mut [u8]) -> io::Result<usize> {
        self.left.read(buf)
    }
}

/// The texts of these names.
#[derive(Clone, Copy, Drop)]
struct Texts {
    script: &'static str,
}

impl Files for Texts {
    ghost use Rattle.std.specs.Prelude.{None};

    type Input = Text;

    ghost holds = { λ texts name. None };

    fn fetch(&mut self, name: &str) -> Result<Text, FetchFault> {
        match name {
            "F" => Ok(Text {
                left: self.script.as_bytes(),
            }),
            "S" => Ok(Text { left: b"0" }),
            _ => Err(FetchFault::Unreadable),
        }
    }
}

/// The words of a line.
fn words_of(alloc: Global, line: &str) -> Option<Vec<String>> {
    let mut words = Vec::new(alloc);
    for word in line.split_whitespace() {
        let Ok(word) = String::from_str(alloc, word) else {
            return None;
        };
        if words.push(word).is_err() {
            return None;
        }
    }
    Some(words)
}

/// Whether a search was cut short, with a status that such a search has, and says so.
fn is_cut_short(status: u8, out: &[u8], err: &[u8]) -> bool {
    (status == OF_BLOCKED || status == INCOMPLETE)
        && out.ends_with(b", incomplete\n")
        && err.is_empty()
}

/// What such an answer is. At want of memory nothing is printed on standard output, or what a search has found by then.
fn answer_of(said: &Said, on: &Worked, status: u8, out: &[u8], err: &[u8]) -> Answer {
    if status == FAULT && out.is_empty() && err == b"fault memory\n".as_slice() {
        return Answer::Memory;
    }
    if is_cut_short(status, out, err) {
        return Answer::Memory;
    }
    let is_out = out == on.printed(said.out).as_bytes();
    whole_where(status == said.status && is_out && err == said.err.as_bytes())
}

/// What the program answers.
pub fn commands<R: Wait + Threads + Sync + RandomSource + AllocGlobal>(
    rt: &R,
    alloc: Global,
    said: &Said,
    on: &Worked,
    refuser: &Refuser,
) -> Answer {
    let Some(words) = words_of(alloc, said.words) else {
        return UNSET;
    };
    let (Ok(out), Ok(err)) = (room(alloc), room(alloc)) else {
        return UNSET;
    };
    let (mut out, mut err) = (Stream::new(out), Stream::new(err));
    let mut texts = Texts { script: on.text };
    refuser.go_on();
    let status = command(
        rt,
        alloc,
        &words,
        &mut texts,
        &mut out,
        &mut err,
        &mut Nobody,
    );
    refuser.hold();
    answer_of(said, on, status, &out.into_writer(), &err.into_writer())
}
