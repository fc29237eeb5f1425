//! The gate that drops each wake.
ghost use Rattle.std.specs.Prelude.{◌≡◌, false, None};

use crate::gate::Gate;

/// It lets no fiber be woken, holds no turn and names nobody. So who waited and can go on is put back by a
/// sweep alone: by this gate it is seen that such fibers are counted.
#[derive(Clone, Copy)]
pub struct DropsWakes;

impl Gate for DropsWakes {
    ghost may = { λ gate id. false };

    ghost answers = { λ gate worker fiber named. named ≡ None };

    fn turn(&self, _worker: u32, _fiber: u32) -> Option<u32> {
        None
    }

    fn names_below(&self) -> u64 {
        0
    }

    fn lets_wake(&self, _fiber: u32) -> bool {
        false
    }
}
