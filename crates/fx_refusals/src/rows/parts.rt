//! What the fibers of several threads share, and what their ports and their workers have.
ghost use Rattle.std.specs.Prelude.{◌≡◌};

use crate::harness::{Answer, whole_where};
use crate::refuser::Refuser;
use fx_port::{Notes, RunBrand, Sources, open_queues};
use fx_queue::FiberQueue;
use fx_sched::{Owner, Tasks, solo};
use fx_term::Memory;
use fx_word::Words;
use std::alloc::{AllocGlobal, Global};
use std::marker::Brand;
use std::random::RandomSource;

/// Which call is refused memory.
#[derive(Clone, Copy)]
pub enum PartCall {
    Words,
    Queue,
    Queues,
    Sources,
    Notes,
    Tasks,
    Solo,
}

/// Whether the words of 100 fibers are as they are to be.
fn words(alloc: Global) -> Result<bool, Memory> {
    let (words, _seat) = Words::new(alloc, 100)?;
    Ok(words.fibers() == 100)
}

/// Whether there is a queue of 3 fibers.
fn queue(alloc: Global) -> Result<bool, Memory> {
    match FiberQueue::new(alloc, 8, 3) {
        Ok(_) => Ok(true),
        Err(Memory) => Err(Memory),
    }
}

/// Whether two queues are as they are to be.
fn queues(alloc: Global) -> Result<bool, Memory> {
    let (queues, _passes) = open_queues(alloc, &[1, 8], 3)?;
    Ok(queues.len() == 2)
}

/// Whether there are the sources of 3 fibers.
fn sources(alloc: Global) -> Result<bool, Memory> {
    match Sources::new(alloc, 3) {
        Ok(_) => Ok(true),
        Err(Memory) => Err(Memory),
    }
}

/// Whether the notes of 3 fibers are as they are to be.
fn notes(alloc: Global) -> Result<bool, Memory> {
    notes_as::<Brand>(alloc)
}

fn notes_as<N: RunBrand>(alloc: Global) -> Result<bool, Memory>
    requires { N.words.fibers ≡ 3 }
{
    match Notes::<N>::new(alloc, 3) {
        Ok(notes) => Ok(are_whole(notes)),
        Err(Memory) => Err(Memory),
    }
}

/// Whether the notes have room for the last of 3 fibers, and tell it once.
fn are_whole<N: RunBrand>(mut notes: Notes<N>) -> bool {
    notes.wake(2);
    notes.take() == Some(2) && notes.take().is_none()
}

/// Whether the deques of 4 workers are as they are to be.
fn tasks(alloc: Global) -> Result<bool, Memory> {
    let (_tasks, hands): (Tasks<u64>, Vec<Owner<u64>>) = Tasks::new(alloc, 4)?;
    Ok(hands.len() == 4)
}

/// Whether a worker has what it wakes by.
fn bell<R: RandomSource + AllocGlobal>(rt: &R) -> Result<bool, Memory> {
    match solo(rt) {
        Ok(_) => Ok(true),
        Err(Memory) => Err(Memory),
    }
}

/// What the call answers. What is made of it is looked at and let go without a request.
pub fn made<R: RandomSource + AllocGlobal>(
    rt: &R,
    alloc: Global,
    of: PartCall,
    refuser: &Refuser,
) -> Answer {
    refuser.go_on();
    let is_whole = match of {
        PartCall::Words => words(alloc),
        PartCall::Queue => queue(alloc),
        PartCall::Queues => queues(alloc),
        PartCall::Sources => sources(alloc),
        PartCall::Notes => notes(alloc),
        PartCall::Tasks => tasks(alloc),
        PartCall::Solo => bell(rt),
    };
    refuser.hold();
    match is_whole {
        Ok(is_whole) => whole_where(is_whole),
        Err(Memory) => Answer::Memory,
    }
}
