//! `fibers`: replays a script of cancellable fibers, or runs it on threads, and prints how each one halted.
//!
//! What its words ask for is done by `fx_command`; `main` joins that to the machine: its standard streams,
//! the words, which `words` reads, its files, which `host_files` has, and its clock, by which `ticker` says how far
//! a search has come.
#![tactic(auto)]

mod host_files;
mod ticker;
mod words;

use fx_command::command::{FAULT, command};
use fx_command::stream::Stream;
use host_files::HostFiles;
use std::io;
use std::process::ExitCode;
use ticker::Ticker;
use words::words;

fn main(rt: HostRuntime) -> ExitCode {
    let Ok(words) = words(&rt) else {
        let _ = eprintln!(rt; "fault memory");
        return ExitCode::from(FAULT);
    };
    let mut files = HostFiles { rt: &rt };
    let status = command(
        &rt,
        rt.alloc(),
        &words,
        &mut files,
        &mut Stream::new(io::writer(&rt)),
        &mut Stream::new(rt.stderr()),
        &mut Ticker::new(&rt),
    );
    ExitCode::from(status)
}
