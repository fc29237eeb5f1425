//! What the main fiber begins with.
ghost use Rattle.std.specs.Prelude.{◌≡◌, ◌+◌, ◌<◌, ◌≤◌, ◌^◌};
ghost use Rattle.fx_term.specs.Code.{IsCode};
ghost use Rattle.fx_term.specs.Need.{most_need};
ghost use Rattle.fx_model.specs.Origin.{main_begin_of};

use fx_term::{Begin, Code, Registers};
use std::alloc::Global;

/// What the main fiber of a code begins with: the root, no name in scope, and the numbers from 1 on
/// that its term can use.
pub fn main_begin(alloc: Global, code: &Code) -> Begin
    ensures begin { result ≡ main_begin_of code.now.nodes }
    ensures code { IsCode code.now.queues code.now.nodes }
    ensures few { result.end ≤ 1 + most_need }
    ensures word { result.end < 2 ^ 32 }
{
    let root = code.root();
    Begin {
        node: root,
        slots: Registers::new(alloc),
        next: 1,
        end: 1 + code.need(root),
        stamp: 0,
    }
}
