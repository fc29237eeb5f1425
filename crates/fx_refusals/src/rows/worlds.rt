//! What is made over the world of one thread.
ghost use Rattle.std.specs.Prelude.{◌≡◌};

use crate::given::Given;
use crate::harness::{Answer, OTHER, Trial};
use crate::rows::fibers::{FiberCall, come_of};
use fx_plain::PlainWorld;
use fx_term::{CodeBrand, Memory};
use std::alloc::{AllocGlobal, Global};
use std::marker::Brand;
use std::random::RandomSource;
use std::sync::Wait;

/// What a script comes to on one thread, with which this is done.
pub fn made<R: Wait + RandomSource + AllocGlobal>(
    rt: &R,
    alloc: Global,
    given: &Given,
    of: FiberCall,
    trial: &Trial,
) -> Answer {
    made_as::<Brand, R>(rt, alloc, given, of, trial)
}

/// The same, where a type names the script's code. The world has a place for each fiber of the script.
fn made_as<J: CodeBrand, R: Wait + RandomSource + AllocGlobal>(
    rt: &R,
    alloc: Global,
    given: &Given,
    of: FiberCall,
    trial: &Trial,
) -> Answer
    requires { given.now.script.code.nodes ≡ J.nodes }
{
    if let FiberCall::World = of {
        trial.refuser.go_on();
    }
    let world = PlainWorld::new::<J>(alloc, &given.script);
    trial.refuser.hold();
    match world {
        Ok((mut world, port)) => {
            let is_whole = world.total() == given.script.total();
            let answer = come_of(rt, alloc, given, port, &mut world, of, trial);
            if is_whole { answer } else { OTHER }
        }
        Err(Memory) => Answer::Memory,
    }
}
