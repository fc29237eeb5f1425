//! A fiber's passes of all queues.
ghost use Rattle.std.specs.Prelude.{◌≡◌, ◌<◌, ◌≤◌, ◌^◌, ℕ, Some, length, slice_get, map, IfOk, OnErr, [], vec_capacity};
ghost use Rattle.fx_queue.specs.Queues.{HeldPass, kept_pass, given_pass};
ghost use Rattle.fx_port.specs.Rows.{IsRowOf, CanSplit, RowOffers, RowTakes, joined_row, puts_in};

use crate::counted_pass::CountedPass;
use fx_queue::FiberQueue;
use fx_term::{Memory, Offered};
use std::alloc::Global;
use std::marker::Model;
use std::sync::Wait;

/// A fiber's passes of all queues, by the numbers of the queues. Who has them has the queues too.
#[derive(Drop)]
pub struct Passes {
    row: Vec<CountedPass>,
}

impl Model for Passes {
    ghost use Rattle.std.specs.Prelude.{List};
    ghost use Rattle.fx_queue.specs.Queues.{HeldPass};

    ghost Value = { List HeldPass };

    ghost view = { λ p. p.row.items };
}

impl Passes {
    pub(crate) fn of(row: Vec<CountedPass>) -> Passes
        ensures { result ≡ row.items }
    {
        Passes { row }
    }

    /// Those of no queue.
    pub(crate) fn none(alloc: Global) -> Passes
        ensures { result ≡ [] }
    {
        Passes {
            row: Vec::new(alloc),
        }
    }

    pub(crate) fn into_row(self) -> Vec<CountedPass>
        ensures { result.items ≡ self }
    {
        self.row
    }

    /// Puts the value at the back of that queue with this stamp, for the fiber of these passes. A queue
    /// that there is not is full.
    #[inline(always)]
    pub(crate) fn offer<R: Wait>(
        &mut self,
        rt: &R,
        queues: &[FiberQueue],
        queue: u8,
        fiber: u32,
        value: u64,
        stamp: u64,
    ) -> Offered
        requires queues { IsRowOf queues.now self.old }
        requires fiber { (q : ℕ) (s : HeldPass) → slice_get self.old q ≡ Some s → s.view.own.id ≡ fiber }
        requires few { puts_in self.old < 2 ^ 63 }
        ensures { RowOffers self.old queue value stamp result self.new }
    {
        let place = queue as usize;
        if place >= self.row.len() {
            return Offered::Full;
        }
        let pass = &mut self.row[place];
        pass.offer(rt, &queues[place], fiber, value, stamp)
    }

    /// Takes the front of that queue, for the fiber of these passes: its value and its stamp. A queue that
    /// there is not is empty.
    #[inline(always)]
    pub(crate) fn take<R: Wait>(
        &mut self,
        rt: &R,
        queues: &[FiberQueue],
        queue: u8,
    ) -> Option<(u64, u64)>
        requires queues { IsRowOf queues.now self.old }
        ensures { RowTakes self.old queue result self.new }
    {
        let place = queue as usize;
        if place >= self.row.len() {
            return None;
        }
        let pass = &mut self.row[place];
        let item = pass.take(rt, &queues[place])?;
        Some((item.value, item.stamp))
    }

    /// The passes of the first number of the range, with those after it up to `end` as their range. Want
    /// of memory leaves these as they were.
    pub(crate) fn split(
        &mut self,
        alloc: Global,
        queues: &[FiberQueue],
        id: u32,
        end: u32,
    ) -> Result<Passes, Memory>
        requires queues { IsRowOf queues.now self.old }
        requires range { CanSplit id end self.old }
        ensures kept { IfOk result (λ child. self.new ≡ map (kept_pass end) self.old) }
        ensures given { IfOk result (λ child. child ≡ map (given_pass end) self.old) }
        ensures unchanged { OnErr result (self.new ≡ self.old) }
    {
        let mut row = Vec::new(alloc);
        row.reserve(self.row.len())?;
        split_row(queues, &mut self.row, &mut row, id, end);
        Ok(Passes { row })
    }

    /// Each pass takes in the other one of its queue.
    pub fn gather(&mut self, queues: &[FiberQueue], other: Passes)
        requires queues { IsRowOf queues.now self.old × IsRowOf queues.now other }
        ensures { self.new ≡ joined_row self.old other }
    {
        gather_row(queues, &mut self.row, other.row);
    }
}

/// Splits each pass of the row. The new ones are laid into the other row, which has the room.
fn split_row(
    queues: &[FiberQueue],
    row: &mut Vec<CountedPass>,
    others: &mut Vec<CountedPass>,
    id: u32,
    end: u32,
)
    requires queues { IsRowOf queues.now row.old.items }
    requires range { CanSplit id end row.old.items }
    requires room { (others.old.items ≡ []) × (length row.old.items ≤ vec_capacity others.old) }
    ensures kept { row.new.items ≡ map (kept_pass end) row.old.items }
    ensures given { others.new.items ≡ map (given_pass end) row.old.items }
{
    for place in 0..queues.len() {
        let pass = &mut row[place];
        let other = pass.split(&queues[place], id, end);
        others.push_reserved(other);
    }
}

/// Each pass of the row takes in the one at its place in the other row.
fn gather_row(queues: &[FiberQueue], row: &mut Vec<CountedPass>, mut others: Vec<CountedPass>)
    requires queues { IsRowOf queues.now row.old.items × IsRowOf queues.now others.items }
    ensures { row.new.items ≡ joined_row row.old.items others.items }
{
    'gathering: for _taken in 0..queues.len() {
        match others.pop() {
            Some(other) => {
                let place = others.len();
                let pass = &mut row[place];
                pass.gather(&queues[place], other);
            }
            None => return,
        }
    }
}
