//! The answers by which a fiber shows the event that comes next in its trace.
ghost use Rattle.std.specs.Prelude.{◌≡◌, IfOk};

use fx_explore::Answers;
use fx_term::{Event, Memory, Outcome};
use std::alloc::Global;

/// Answers that tell these outcomes, and of so many queues that none has room or an element.
pub(crate) fn answers_with(
    alloc: Global,
    outcomes: Vec<Option<Outcome>>,
    queues: usize,
) -> Result<Answers, Memory>
    ensures { IfOk result (λ answers. answers.outcomes ≡ outcomes) }
{
    Ok(Answers {
        is_requested: false,
        outcomes,
        keeps_back: false,
        rooms: vec![in alloc; false; queues]?,
        fronts: vec![in alloc; None; queues]?,
        note: None,
    })
}

/// Tells a fiber that shows this event next, if it shows one, what it needs of queues, and which of two outcomes it learns;
/// and that it is requested, or not.
pub(crate) fn expect(answers: &mut Answers, next: Option<Event>, is_requested: bool)
    ensures requested { answers.new.is_requested ≡ is_requested }
    ensures outcomes { answers.new.outcomes ≡ answers.old.outcomes }
{
    answers.is_requested = is_requested;
    answers.keeps_back = next == Some(Event::First(1));
    for (queue, has_room) in answers.rooms.iter_mut().enumerate() {
        *has_room = matches!(next, Some(Event::Put(put, _)) if put as usize == queue);
    }
    for (queue, front) in answers.fronts.iter_mut().enumerate() {
        *front = match next {
            Some(Event::Got(got, value)) if got as usize == queue => Some(value),
            _ => None,
        };
    }
}
