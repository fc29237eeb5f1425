//! The puts of the elements that a queue holds.
ghost use Rattle.std.specs.Prelude.{◌≡◌, ◌∷◌, ◌++◌, [], OnOk, drop, length};
ghost use Rattle.fx_command.specs.SoFar.{front_of};

use fx_picture::EventAt;
use std::alloc::{AllocError, Global};
use std::collections::VecDeque;
use std::marker::Model;

/// The puts of the elements that a queue holds, from front to back.
#[derive(Drop)]
pub(crate) struct HeldPuts {
    puts: VecDeque<EventAt>,
}

impl Model for HeldPuts {
    ghost use Rattle.std.specs.Prelude.{List};
    ghost use Rattle.fx_picture.specs.declared.stood.EventAt.{EventAt};

    ghost Value = { List EventAt };

    ghost view = { λ h. h.puts.items };
}

impl HeldPuts {
    /// Of a queue with no element.
    pub fn new(alloc: Global) -> HeldPuts
        ensures { result ≡ [] }
    {
        HeldPuts {
            puts: VecDeque::new(alloc),
        }
    }

    /// How many they are.
    pub fn len(&self) -> usize
        ensures { result ≡ length self.now }
    {
        self.puts.len()
    }

    /// The first of them.
    pub fn front(&self) -> Option<EventAt>
        ensures { result ≡ front_of self.now }
    {
        self.puts.front().copied()
    }

    /// One more is held, behind the others.
    pub fn push(&mut self, put: EventAt) -> Result<(), AllocError>
        ensures { OnOk result (self.new ≡ self.old ++ put ∷ []) }
    {
        self.puts.push_back(put)?;
        Ok(())
    }

    /// The first of them is not held any more.
    pub fn pop(&mut self)
        ensures { self.new ≡ drop 1 self.old }
    {
        let _ = self.puts.pop_front();
    }
}
