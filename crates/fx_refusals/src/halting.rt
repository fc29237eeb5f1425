//! The fibers of a script without their ports.
ghost use Rattle.std.specs.Prelude.{◌≡◌, ◌<◌, All, IfOk, map};
ghost use Rattle.std.specs.List.Sorted.{IsStrictlyIncreasing};
ghost use Rattle.fx_fiber.specs.Bare.{BareView};

use crate::harness::Wrong;
use fx_fiber::{Bare, Fiber, Port};
use fx_term::Code;
use std::alloc::Global;

/// The fibers without their ports, where they have the numbers from 0 on, one after the other.
pub fn parted<P: Port + Drop>(
    alloc: Global,
    code: &Code,
    total: u32,
    fibers: Vec<Fiber<P>>,
) -> Result<Vec<Bare>, Wrong>
    requires { code.now.nodes ≡ P.theory.code }
    ensures code { IfOk result
        (λ bares. All (λ (x : BareView). x.nodes ≡ code.now.nodes) bares.items) }
    ensures ascending { IfOk result
        (λ bares. IsStrictlyIncreasing (map (λ (x : BareView). x.id) bares.items)) }
    ensures below { IfOk result (λ bares. All (λ (x : BareView). x.id < total) bares.items) }
{
    let mut bares = Vec::new(alloc);
    let mut next = 0u32;
    for fiber in fibers {
        if total <= next {
            return Err(Wrong::SetUp);
        }
        let (bare, _port) = fiber.part(code);
        if bare.id() != next {
            return Err(Wrong::SetUp);
        }
        next += 1;
        bares.push(bare)?;
    }
    Ok(bares)
}
