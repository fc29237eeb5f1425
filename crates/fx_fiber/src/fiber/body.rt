//! What a fiber has beside its port.
ghost use Rattle.std.specs.Prelude.{◌≡◌, ◌<◌, ◌++◌, ◌∷◌, [], IfOk};
ghost use Rattle.std.specs.Vec.{vec_len, vec_capacity};

use crate::clock::after;
use crate::machine::Machine;
use fx_model::Source;
use fx_term::{Begin, Event, Memory, Registers, Stamped};
use std::alloc::Global;

/// What a fiber has beside its port. No port is named here, so a child's is made before its port is.
#[derive(Drop)]
pub(crate) struct Body {
    /// The fiber's number.
    pub id: u32,
    /// The events so far, the first one first.
    pub trace: Vec<Stamped>,
    /// The stamp of the last event, or of the fiber's start before the first one. A call of the port
    /// raises it to the stamp of what it found.
    pub clock: u64,
    /// Where the fiber stands.
    pub machine: Machine,
    /// What it last registered for, where it has not yielded since.
    pub source: Option<Source>,
}

impl Body {
    ghost use Rattle.std.specs.Prelude.{List};
    ghost use Rattle.fx_term.specs.declared.node.Node.{Node};
    ghost use Rattle.fx_fiber.specs.Sound.{IsSoundBegin};
    ghost use Rattle.fx_fiber.specs.Body.{IsFirstBody, with_slots};
    ghost use Rattle.fx_model.specs.Stamps.{one_more};

    /// That of a fiber with this number, which begins so, before its first step, but for the numbers of the
    /// names in scope: `have` moves them there once the port has seen what the fiber begins with.
    pub fn beginning(alloc: Global, id: u32, begin: &Begin) -> Result<Box<Body>, Memory>
        ghost nodes: { List Node }
        requires { IsSoundBegin nodes begin.now }
        ensures { IfOk result
            (λ body. IsFirstBody nodes id begin.now (with_slots begin.now.slots body.value)) }
    {
        let mut trace = Vec::new(alloc);
        // A fiber has at least one event, its end. Few have more than three, and a block of four is past
        // the sizes that an allocator hands out again at once.
        trace.reserve_exact(3)?;
        let machine = Machine::beginning(alloc, begin);
        let source = None;
        Ok(Box::new(
            alloc,
            Body {
                id,
                trace,
                clock: begin.stamp,
                machine,
                source,
            },
        )?)
    }

    /// Has these numbers of the names in scope.
    pub fn have(&mut self, slots: Registers)
        ensures { self.new ≡ with_slots slots self.old }
    {
        self.machine.registers = slots;
    }

    /// Shows an event, with a stamp that is one more than the clock. It has its room in the trace.
    #[inline(always)]
    pub fn show(&mut self, event: Event)
        requires { vec_len self.old.trace < vec_capacity self.old.trace }
        ensures trace { self.new.trace.items ≡ self.old.trace.items
            ++ record { event = event; stamp = one_more self.old.clock } ∷ [] }
        ensures clock { self.new.clock ≡ one_more self.old.clock }
        ensures machine { self.new.machine ≡ self.old.machine }
        ensures id { self.new.id ≡ self.old.id }
        ensures source { self.new.source ≡ self.old.source }
    {
        self.clock = after(self.clock);
        self.trace.push_reserved(Stamped {
            event,
            stamp: self.clock,
        });
    }
}
