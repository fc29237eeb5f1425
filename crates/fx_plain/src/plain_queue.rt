//! A bounded queue of one thread.
ghost use Rattle.std.specs.Prelude.{◌≡◌, true, IfOk, OnOk, OnErr};
ghost use Rattle.fx_plain.specs.PlainQueue.{empty_queue, has_room_in, has_element_in, front_of};
ghost use Rattle.fx_plain.specs.PlainQueue.{with_item, without_front};

use fx_term::{Item, Memory};
use std::alloc::Global;
use std::collections::VecDeque;
use std::marker::Model;

/// A bounded queue of one thread. It takes memory for the elements that it has, and none for its
/// capacity. A put and a take cost the same however many elements it has.
#[derive(Drop)]
pub(crate) struct PlainQueue {
    capacity: u32,
    // from front to back
    items: VecDeque<Item>,
}

impl Model for PlainQueue {
    ghost use Rattle.fx_plain.specs.PlainQueue.{QueueView};

    ghost Value = { QueueView };

    ghost view = { λ q. record { capacity = q.capacity; items = q.items.items } };
}

impl PlainQueue {
    /// A queue with no element.
    pub fn new(alloc: Global, capacity: u32) -> PlainQueue
        ensures { result ≡ empty_queue capacity }
    {
        PlainQueue {
            capacity,
            items: VecDeque::new(alloc),
        }
    }

    /// Whether one more element may be put.
    pub fn has_room(&self) -> bool
        ensures { result ≡ has_room_in self.now }
    {
        self.items.len() < self.capacity as usize
    }

    /// Whether an element may be taken.
    pub fn has_element(&self) -> bool
        ensures { result ≡ has_element_in self.now }
    {
        !self.items.is_empty()
    }

    /// Puts an element at the back.
    pub fn put(&mut self, item: Item) -> Result<(), Memory>
        requires { has_room_in self.old ≡ true }
        ensures ok { OnOk result (self.new ≡ with_item item self.old) }
        ensures err { OnErr result (self.new ≡ self.old) }
    {
        self.items.push_back(item)?;
        Ok(())
    }

    /// Takes the front, if there is one.
    pub fn take(&mut self) -> Option<Item>
        ensures front { result ≡ front_of self.old }
        ensures rest { self.new ≡ without_front self.old }
    {
        self.items.pop_front()
    }

    /// Its elements, from front to back.
    pub fn into_items(self) -> Vec<Item>
        ensures { result.items ≡ self.items }
    {
        Vec::from(self.items)
    }
}
