//! Runs of the program over texts in memory.
use fx_command::command::{FAULT, Nobody, Progress, SoFar, UNREADABLE, command};
use fx_command::files::{FetchFault, Files};
use fx_command::stream::Stream;
use fx_plain::{ENDED, REFUSED};
use std::alloc::{AllocError, AllocGlobal, Global};
use std::io::{self, Read, Write};
use std::process::Abort;
use std::random::RandomSource;
use std::sync::Wait;
use std::test::Fail;
use std::thread::Threads;

mod heard;
mod inputs;
mod limits;
mod pictures;
mod streams;

/// What a test has of the machine: all that a run of the program needs, and the end at a failure.
trait Machine: Wait + Threads + Sync + RandomSource + AllocGlobal + Abort {}

impl<R: Wait + Threads + Sync + RandomSource + AllocGlobal + Abort> Machine for R {}

/// A text in memory. One that is broken answers an error at its end.
#[derive(Clone, Copy, Drop)]
struct Text<'a> {
    left: &'a [u8],
    is_broken: bool,
}

impl Read for Text<'_> {
    fn read(&mut self, buf: &mut [u8]) -> io::Result<usize> {
        if self.left.is_empty() && self.is_broken {
            return Err(io::Error::from(io::ErrorKind::Other));
        }
        self.left.read(buf)
    }
}

/// Texts in memory, by name.
#[derive(Drop)]
struct Texts<'a> {
    texts: &'a [(&'a str, Text<'a>)],
}

impl<'a> Files for Texts<'a> {
    ghost use Rattle.std.specs.Prelude.{None};

    type Input = Text<'a>;

    ghost holds = { λ texts name. None };

    fn fetch(&mut self, name: &str) -> Result<Text<'a>, FetchFault> {
        match self.texts.iter().find(|entry| entry.0 == name) {
            Some(entry) => Ok(entry.1),
            None => Err(FetchFault::Unreadable),
        }
    }
}

/// What a run of the program answered: its status, and what it printed.
#[derive(Drop)]
struct Ran {
    status: u8,
    out: Vec<u8>,
    err: Vec<u8>,
}

impl Ran {
    /// Did it end with this status, and print this on standard output and on standard error?
    fn has(&self, status: u8, out: &[u8], err: &[u8]) -> bool {
        self.status == status && self.out.as_slice() == out && self.err.as_slice() == err
    }
}

/// A text that is read to its end.
fn whole(left: &[u8]) -> Text<'_> {
    Text {
        left,
        is_broken: false,
    }
}

/// The words of a line.
fn words_of(alloc: Global, line: &str) -> Result<Vec<String>, AllocError> {
    let mut words = Vec::new(alloc);
    for word in line.split_whitespace() {
        words.push(String::from_str(alloc, word)?)?;
    }
    Ok(words)
}

/// The run of the program with these words, over these texts, where nobody listens.
fn run_of(rt: &impl Machine, line: &str, texts: &[(&str, Text<'_>)]) -> Result<Ran, AllocError> {
    run_heard(rt, line, texts, &mut Nobody)
}

/// The run of the program with these words, over these texts, where this one listens.
fn run_heard(
    rt: &impl Machine,
    line: &str,
    texts: &[(&str, Text<'_>)],
    progress: &mut impl Progress,
) -> Result<Ran, AllocError> {
    let alloc = rt.alloc();
    let words = words_of(alloc, line)?;
    let mut out = Stream::new(Vec::new(alloc));
    let mut err = Stream::new(Vec::new(alloc));
    let mut texts = Texts { texts };
    let status = command(rt, alloc, &words, &mut texts, &mut out, &mut err, progress);
    Ok(Ran {
        status,
        out: out.into_writer(),
        err: err.into_writer(),
    })
}
