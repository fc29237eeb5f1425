//! What a run left, by queue and by fiber.
ghost use Rattle.std.specs.Prelude.{◌≡◌, is_some, slice_index};

use crate::source::Source;
use fx_term::Outcome;

/// What a run left, by which it is told whether a fiber could have gone on: of each queue, by its
/// number, how many elements it may have and how many it has; and of each fiber, by its number, how it
/// ended, if it has, and whether it is requested. A fiber beyond these lists has not ended, and nobody
/// requests it; a queue beyond them has neither room nor an element.
#[derive(Drop)]
pub struct Closed {
    pub caps: Vec<u32>,
    pub rests: Vec<u32>,
    pub outcomes: Vec<Option<Outcome>>,
    pub requested: Vec<bool>,
}

impl Closed {
    ghost use Rattle.fx_model.specs.Closed.{outside_of};
    ghost use Rattle.fx_model.specs.WaitsFor.{has_come};

    /// Whether the fiber of this number is requested.
    pub fn is_requested(&self, id: u32) -> bool
        ensures { result ≡ (outside_of self.now).is_requested id }
    {
        match self.requested.get(id as usize) {
            Some(&is_requested) => is_requested,
            None => false,
        }
    }

    /// Whether the fiber of this number has ended.
    pub fn has_ended(&self, id: u32) -> bool
        ensures { result ≡ is_some ((outside_of self.now).outcome id) }
    {
        match self.outcomes.get(id as usize) {
            Some(outcome) => outcome.is_some(),
            None => false,
        }
    }

    /// Whether the queue of this number has room.
    fn has_room(&self, queue: u8) -> bool
        ensures { result ≡ (outside_of self.now).has_room queue }
    {
        number_at(&self.rests, queue) < number_at(&self.caps, queue)
    }

    /// Whether the queue of this number has an element.
    fn has_element(&self, queue: u8) -> bool
        ensures { result ≡ (outside_of self.now).has_element queue }
    {
        number_at(&self.rests, queue) > 0
    }

    /// Whether that has come for which a fiber waits.
    pub fn has_come(&self, source: Source) -> bool
        ensures { result ≡ has_come (outside_of self.now) source }
    {
        match source {
            Source::Nothing => false,
            Source::Outcome(fiber) => self.has_ended(fiber),
            Source::Either(left, right) => self.has_ended(left) || self.has_ended(right),
            Source::Room(queue) => self.has_room(queue),
            Source::Element(queue) => self.has_element(queue),
        }
    }
}

/// The number of this queue, and 0 past the list.
fn number_at(numbers: &[u32], queue: u8) -> u32
    ensures { result ≡ slice_index numbers.now queue }
{
    numbers.get(queue as usize).copied().unwrap_or(0)
}
