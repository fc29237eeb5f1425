//! The gate that names one fiber before one turn.
ghost use Rattle.std.specs.Prelude.{◌≡◌, ◌⊎◌, ◌==◌, None, Some};

use crate::gate::Gate;
use std::marker::Model;
use std::sync::atomic::{AtomicU64, Ordering};

/// It counts the turns that begin, over all workers, and names its fiber before one of them.
#[derive(Drop)]
pub struct At {
    turn: u64,
    id: u32,
    begun: AtomicU64,
}

impl Model for At {
    ghost use Rattle.fx_sched.specs.At.{AtView};

    ghost Value = { AtView };

    ghost view = { λ at. record { turn = at.turn; id = at.id } };
}

impl At {
    /// Names this fiber before the turn of this number, of which the first is 0. After 2^64 turns the
    /// count begins again.
    pub fn new(turn: u64, id: u32) -> At
        ensures { result ≡ record { turn = turn; id = id } }
    {
        At {
            turn,
            id,
            begun: AtomicU64::new(0),
        }
    }
}

impl Gate for At {
    ghost may = { λ at id. id == at.id };

    ghost answers = { λ at worker fiber named. (named ≡ None) ⊎ (named ≡ Some at.id) };

    fn turn(&self, _worker: u32, _fiber: u32) -> Option<u32> {
        if self.begun.fetch_add(1, Ordering::SeqCst) == self.turn {
            Some(self.id)
        } else {
            None
        }
    }

    fn names_below(&self) -> u64 {
        u64::from(self.id) + 1
    }
}
