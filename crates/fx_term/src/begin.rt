//! What a fiber begins with.
ghost use Rattle.std.specs.Prelude.{◌≡◌, IfOk};

use crate::memory::Memory;
use crate::node::NodeId;
use crate::registers::Registers;
use std::alloc::Global;

/// What a fiber begins with: its node, the numbers in place of the names in scope there, its range of
/// fiber numbers, from `next` to below `end`, and the stamp of its start, which is 0 for the main fiber.
#[derive(Drop)]
pub struct Begin {
    pub node: NodeId,
    pub slots: Registers,
    pub next: u32,
    pub end: u32,
    pub stamp: u64,
}

impl Begin {
    /// The same with numbers of its own.
    pub fn copied(&self, alloc: Global) -> Result<Begin, Memory>
        ensures { IfOk result (λ copy. copy ≡ self.now) }
    {
        Ok(Begin {
            node: self.node,
            slots: self.slots.copied(alloc)?,
            next: self.next,
            end: self.end,
            stamp: self.stamp,
        })
    }
}
