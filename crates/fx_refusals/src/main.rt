//! Refuses each request for memory or for a thread in turn, of public calls of the libraries, and of the program,
//! that can answer want of memory.
//!
//! 1. `refuser` says to a library that stands before that of C which request of a call it is to refuse.
//! 2. `harness` judges what calls answer of which one request is refused, alone or with all after it. A call that
//!    was refused answers want of memory, has left what it promises, and is made again with ample memory; then it
//!    answers what it is to answer.
//! 3. `rows` has the calls, a line each, and has each request of theirs refused, until none is met. For those of a
//!    script there are `scripts` that come to one report, `shown` that tells whether they came to it, `steps` that
//!    goes through the steps of their fibers, and `halting` that parts them from their ports.
//! 4. `tally` prints a line on each row, and counts them.
//!
//! Where nobody refuses memory the program says so, and makes no call.
#![tactic(auto)]

mod given;
mod halting;
mod harness;
mod refuser;
mod rows;
mod scripts;
mod shown;
mod steps;
mod tally;

use std::process::ExitCode;
use tally::Tally;

fn main(rt: HostRuntime) -> ExitCode {
    let Some(mut tally) = Tally::new(&rt) else {
        return ExitCode::from(0);
    };
    rows::all(&mut tally);
    tally.end()
}
