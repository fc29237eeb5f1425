//! Which put a get took an element of, where a value was put into its queue once.
ghost use Rattle.std.specs.Prelude.{◌≡◌, ◌++◌, IfOk, OnOk};
ghost use Rattle.fx_term.specs.Stamped.{events_in};
ghost use Rattle.fx_run_events.specs.SolePuts.{put_by, puts_from, puts_in, puts_so, sole_put, known_puts};

use fx_model::FiberReport;
use fx_picture::{EventAt, MOST_EVENTS};
use fx_term::{Event, Stamped};
use std::alloc::{AllocError, Global};

/// A put of a report: into which queue, of what, and which event that is.
#[derive(Clone, Copy, PartialEq, Eq, Debug)]
pub(crate) struct PutAt {
    queue: u8,
    value: u64,
    at: EventAt,
}

/// Appends this event of the fiber, if it is a put.
fn push_put(puts: &mut Vec<PutAt>, fiber: u32, place: usize, event: Event) -> Result<(), AllocError>
    ensures { OnOk result (puts.new.items ≡ puts.old.items ++ put_by fiber place event) }
{
    if let Event::Put(queue, value) = event {
        puts.push(PutAt {
            queue,
            value,
            at: EventAt { fiber, place },
        })?;
    }
    Ok(())
}

/// Appends the puts of the fiber, whose trace this is.
fn push_puts(puts: &mut Vec<PutAt>, fiber: u32, trace: &[Stamped]) -> Result<(), AllocError>
    ensures { OnOk result
        (puts.new.items ≡ puts.old.items ++ puts_from fiber 0 (events_in trace.now)) }
{
    let mut place = 0;
    let mut rest = trace;
    while let Some((stamped, more)) = rest.split_first() {
        push_put(puts, fiber, place, stamped.event)?;
        place += 1;
        rest = more;
    }
    Ok(())
}

/// All puts of these fibers.
fn puts_of(alloc: Global, fibers: &[FiberReport]) -> Result<Vec<PutAt>, AllocError>
    ensures { IfOk result (λ puts. puts.items ≡ puts_in fibers.now) }
{
    let mut puts = Vec::new(alloc);
    for fiber in fibers {
        push_puts(&mut puts, fiber.id, &fiber.trace)?;
    }
    Ok(puts)
}

/// All puts of these fibers; none where there are more than a picture can have events: to look through them would take long.
pub(crate) fn known_puts(alloc: Global, fibers: &[FiberReport]) -> Result<Vec<PutAt>, AllocError>
    ensures { IfOk result (λ puts. puts.items ≡ known_puts fibers.now) }
{
    let puts = puts_of(alloc, fibers)?;
    if puts.len() > MOST_EVENTS {
        return Ok(Vec::new(alloc));
    }
    Ok(puts)
}

impl PutAt {
    /// Whether it puts that value into that queue.
    fn puts_so(&self, queue: u8, value: u64) -> bool
        ensures { result ≡ puts_so queue value self.now }
    {
        self.queue == queue && self.value == value
    }
}

/// The only one of these puts that puts that value into that queue.
pub(crate) fn sole_put(puts: &[PutAt], queue: u8, value: u64) -> Option<EventAt>
    ensures { result ≡ sole_put queue value puts.now }
{
    let mut found = None;
    let mut rest = puts;
    while let Some((put, more)) = rest.split_first() {
        if put.puts_so(queue, value) {
            if found.is_some() {
                return None;
            }
            found = Some(put.at);
        }
        rest = more;
    }
    found
}
