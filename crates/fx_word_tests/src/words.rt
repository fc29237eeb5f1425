//! Requests, ends and what is learnt of them.
mod four_threads;
mod one_thread;

ghost use Rattle.std.specs.Prelude.{◌≡◌, ◌+◌, ◌<◌};

use fx_term::{Begin, NodeId, Registers};
use std::alloc::Global;

/// What a fiber of this number begins with that starts none.
fn begin_of(alloc: Global, id: u32) -> Begin
    requires { id < 4 }
    ensures next { result.next ≡ id + 1 }
    ensures end { result.end ≡ id + 1 }
{
    Begin {
        node: NodeId(0),
        slots: Registers::new(alloc),
        next: id + 1,
        end: id + 1,
        stamp: 0,
    }
}
