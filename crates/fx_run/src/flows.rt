//! How many elements fibers put into each queue, and got from it.
ghost use Rattle.std.specs.Prelude.{◌≡◌, length, IfOk};
ghost use Rattle.fx_run.specs.Flows.{no_flows, with_one, with_move, rest_in, rests_in};

use crate::queue_lengths::saturating_u32;
use fx_term::{Event, Memory};
use std::alloc::Global;
use std::marker::Model;

/// How many elements were put into each queue, and how many were got from it, whatever came first.
#[derive(Drop)]
pub(crate) struct Flows {
    puts: Vec<u64>,
    gots: Vec<u64>,
}

impl Model for Flows {
    ghost use Rattle.fx_run.specs.Flows.{FlowsView};

    ghost Value = { FlowsView };

    ghost view = { λ f. record { puts = f.puts.items; gots = f.gots.items } };
}

impl Flows {
    /// Of so many queues nothing is counted.
    pub fn new(alloc: Global, queues: usize) -> Result<Flows, Memory>
        ensures { IfOk result (λ flows. flows ≡ no_flows queues) }
    {
        Ok(Flows {
            puts: vec![in alloc; 0; queues]?,
            gots: vec![in alloc; 0; queues]?,
        })
    }

    /// Counts what was put or got by this.
    #[inline(always)]
    pub fn event(&mut self, event: Event)
        ensures { self.new ≡ with_move event self.old }
    {
        match event {
            Event::Put(queue, _) => count(&mut self.puts, queue),
            Event::Got(queue, _) => count(&mut self.gots, queue),
            _ => {}
        }
    }

    /// How many elements are left in the queue of this number.
    fn rest(&self, queue: usize) -> u32
        ensures { result ≡ rest_in self.now queue }
    {
        let puts = self.puts.get(queue).copied().unwrap_or(0);
        let gots = self.gots.get(queue).copied().unwrap_or(0);
        saturating_u32(puts.saturating_sub(gots))
    }

    /// How many elements are left in each queue.
    pub fn rests(&self, alloc: Global) -> Result<Vec<u32>, Memory>
        ensures { IfOk result (λ rests. rests.items ≡ rests_in self.now) }
    {
        let mut rests = Vec::new(alloc);
        for queue in 0..self.puts.len() {
            rests.push(self.rest(queue))?;
        }
        Ok(rests)
    }
}

/// Counts one more of this queue.
fn count(counts: &mut [u64], queue: u8)
    ensures { counts.new ≡ with_one queue counts.old }
{
    let place = queue as usize;
    if place < counts.len() {
        counts[place] = counts[place].saturating_add(1);
    }
}
