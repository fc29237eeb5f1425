//! A queue as its puts and gets leave it.
ghost use Rattle.std.specs.Prelude.{◌≡◌, ℕ, Some, length, IfOk, OnOk, IsTrue, ◌↔◌, ◌∷◌, [], ◌++◌};
ghost use Rattle.std.specs.List.{list_all, zip};
ghost use Rattle.fx_term.specs.Element.{elements_of};
ghost use Rattle.fx_term.specs.Queue.{QueueState, empty_queue, next_item, with_put, after_got, replayed_from};
ghost use Rattle.fx_counts.specs.Counted.{history_in};
ghost use Rattle.fx_counts.specs.SoFar.{IsAs, IsQueue, IsAfter, is_same, place_put, place_taken};

use fx_order::Occurrence;
use fx_term::{Event, Item, Memory};
use std::alloc::Global;
use std::collections::HashMap;

/// A queue after some of its puts and gets.
#[derive(Drop)]
pub(crate) struct QueueSoFar {
    /// All that was put, in order.
    put: Vec<Item>,
    /// How many of these were taken, from the first one on.
    taken: usize,
    /// Where the put of each stands in the list.
    places: Vec<usize>,
    /// How many each fiber has put.
    puts: HashMap<u32, u64>,
}

impl QueueSoFar {
    /// A queue into which nothing was put.
    pub(crate) fn new(alloc: Global) -> QueueSoFar
        ensures is { IsAs result empty_queue }
        ensures places { result.places.items ≡ [] }
    {
        QueueSoFar {
            put: Vec::new(alloc),
            taken: 0,
            places: Vec::new(alloc),
            puts: HashMap::new(alloc),
        }
    }

    /// How many elements it holds.
    pub(crate) fn held(&self) -> usize
        requires { IsQueue self.now }
        ensures { (s : QueueState) → IsAs self.now s → result ≡ length s.items }
    {
        self.put.len() - self.taken
    }

    /// Adds what is that fiber's next at the back, by the put at that place of the list.
    fn add(&mut self, fiber: u32, value: u64, stamp: u64, place: usize) -> Result<(), Memory>
        requires { IsQueue self.old }
        ensures is { OnOk result ((s : QueueState) → IsAs self.old s
            → IsAs self.new (with_put s (next_item s fiber value))) }
        ensures places { OnOk result (self.new.places.items ≡ self.old.places.items ++ place ∷ []) }
    {
        let nth = self.puts.get(&fiber).copied().unwrap_or(0);
        self.puts.insert(fiber, nth + 1)?;
        self.put.push(Item {
            fiber,
            nth,
            value,
            stamp,
        })?;
        self.places.push(place)?;
        Ok(())
    }

    /// Takes the front, if it has that value.
    fn take(&mut self, value: u64) -> bool
        requires { IsQueue self.old }
        ensures is { (s : QueueState) (f : ℕ) → IsAs self.old s
            → IsAfter result (after_got s f value s.items) self.new }
        ensures places { self.new.places.items ≡ self.old.places.items }
    {
        let Some(front) = self.put.get(self.taken) else {
            return false;
        };
        if front.value != value {
            return false;
        }
        self.taken += 1;
        true
    }

    /// Where the list has the put of what this event takes, if that is a legal get from the queue of that number.
    pub(crate) fn taken_by(&self, queue: usize, it: &Occurrence) -> Option<usize>
        ensures { result ≡ place_taken queue it.now.event self.now }
    {
        match it.event {
            Event::Got(it_queue, _) if usize::from(it_queue) == queue => {
                self.places.get(self.taken).copied()
            }
            _ => None,
        }
    }

    /// Goes on by this event, which stands at that place of the list, if that is one of the queue of that number, and says
    /// whether it is legal.
    pub(crate) fn after(
        &mut self,
        capacity: u32,
        queue: usize,
        place: usize,
        it: &Occurrence,
    ) -> Result<bool, Memory>
        requires { IsQueue self.old }
        ensures is { IfOk result (λ legal. (s : QueueState) → IsAs self.old s
            → IsAfter legal (replayed_from capacity (Some s) (history_in queue (it.now ∷ []))) self.new) }
        ensures places { IfOk result (λ legal. IsTrue legal
            → self.new.places.items ≡ self.old.places.items ++ place_put queue it.now.event place) }
    {
        match it.event {
            Event::Put(it_queue, value) if usize::from(it_queue) == queue => {
                if self.held() >= capacity as usize {
                    return Ok(false);
                }
                self.add(it.fiber, value, it.stamp, place)?;
                Ok(true)
            }
            Event::Got(it_queue, value) if usize::from(it_queue) == queue => Ok(self.take(value)),
            _ => Ok(true),
        }
    }

    /// Whether this is what it holds, from front to back.
    pub(crate) fn holds(&self, left: &[Item]) -> bool
        requires { IsQueue self.now }
        ensures { (s : QueueState) → IsAs self.now s → IsTrue result ↔ (s.items ≡ elements_of left.now) }
    {
        let rest = &self.put[self.taken..];
        rest.len() == left.len() && are_same(rest, left)
    }
}

/// Whether these are the same elements, as far as both lists go.
fn are_same(these: &[Item], those: &[Item]) -> bool
    ensures { result ≡ list_all is_same (zip these.now those.now) }
{
    these.iter().zip(those).all(|(a, b)| a.fiber == b.fiber && a.nth == b.nth && a.value == b.value)
}
