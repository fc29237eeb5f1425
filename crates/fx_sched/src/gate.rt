//! What may hold a turn, ask for a cancellation from outside, and drop a wake.
ghost use Rattle.std.specs.Prelude.{◌≡◌, ◌<◌, ◌^◌, ℕ, Bool, true, false, Option, None, IfSome};

/// It is asked before each turn of a fiber, and may hold the turn, or name a fiber that is to be canceled
/// from outside; and before each wake, which it may drop.
pub trait Gate {
    // the numbers that it may name
    ghost may: { Self → ℕ → Bool };

    // the answers that it may give before a turn of this fiber at this worker
    ghost answers: { Self → ℕ → ℕ → Option ℕ → Type 0 };

    /// Before a turn of this fiber at this worker.
    fn turn(&self, worker: u32, fiber: u32) -> Option<u32>
        ensures may { IfSome result (λ id. may self.now id ≡ true) }
        ensures answers { answers self.now worker fiber result };

    /// A number above each that it may name; 0, where it names nobody. It is asked once, before the fibers run.
    fn names_below(&self) -> u64
        ensures { (id : ℕ) → may self.now id ≡ true → id < 2 ^ 32 → id < result }
    {
        1 << 32
    }

    /// Whether this fiber is woken, which was noted to be. Else it waits on, where it waits, until another
    /// wake or a sweep.
    fn lets_wake(&self, _fiber: u32) -> bool {
        true
    }
}

/// The gate that holds no turn, names nobody, and lets everybody be woken.
#[derive(Clone, Copy)]
pub struct Free;

impl Gate for Free {
    ghost may = { λ gate id. false };

    ghost answers = { λ gate worker fiber named. named ≡ None };

    fn turn(&self, _worker: u32, _fiber: u32) -> Option<u32> {
        None
    }

    fn names_below(&self) -> u64 {
        0
    }
}
