//! What a fiber of a state does by what it is answered.
ghost use Rattle.std.specs.Prelude.{◌≡◌};

use fx_explore::{AnswerPort, Answers, Note, Place, Places};
use fx_fiber::{Fiber, main_begin};
use fx_term::{Arg, Code, CodeBrand, Node};
use std::alloc::Global;
use std::marker::Brand;
use std::test::Fail;

/// What is seen of a step.
#[derive(Clone, Copy, PartialEq, Eq)]
enum Seen {
    /// There is none.
    Waits,
    /// This is said in it, and the same step once more comes to a place of the same number, or not.
    Steps(Option<Note>, bool),
}

/// What is answered: whether the fiber is requested, and whether the one queue has room, and its front.
struct Told {
    is_requested: bool,
    has_room: bool,
    front: Option<u64>,
}

fn answers(alloc: Global, told: &Told) -> Result<Answers, Fail> {
    Ok(Answers {
        is_requested: told.is_requested,
        outcomes: Vec::from_slice(alloc, &[None])?,
        keeps_back: false,
        rooms: Vec::from_slice(alloc, &[told.has_room])?,
        fronts: Vec::from_slice(alloc, &[told.front])?,
        note: None,
    })
}

/// The number of the place to which a fiber comes from this one by these answers, if it makes a step.
fn number_after<J: CodeBrand>(
    place: &Place<J>,
    code: &Code,
    places: &mut Places<J>,
    answers: &mut Answers,
) -> Result<Option<u32>, Fail>
    requires { code.now.nodes ≡ J.nodes }
{
    if place.has_ended() {
        return Ok(None);
    }
    let Some(made) = place.step(code, answers)? else {
        return Ok(None);
    };
    Ok(Some(places.number_of(made.place, code)?))
}

/// The first step of the main fiber of a code, made twice.
fn first_step<J: CodeBrand>(alloc: Global, code: &Code, told: &Told) -> Result<Seen, Fail>
    requires { code.now.nodes ≡ J.nodes }
{
    let port: AnswerPort<J> = AnswerPort::new(alloc, 0, &main_begin(alloc, code))?;
    let place = Place::of(Fiber::new(alloc, code, port)?);
    let mut places = Places::new(alloc);
    let mut once = answers(alloc, told)?;
    let first = number_after(&place, code, &mut places, &mut once)?;
    let mut twice = answers(alloc, told)?;
    let second = number_after(&place, code, &mut places, &mut twice)?;
    match first {
        Some(number) => Ok(Seen::Steps(once.note, second == Some(number))),
        None => Ok(Seen::Waits),
    }
}

fn first_step_of(alloc: Global, nodes: &[Node], told: &Told) -> Result<Seen, Fail> {
    let code = Code::build(alloc, Vec::from_slice(alloc, nodes)?, 1)?;
    first_step::<Brand>(alloc, &code, told)
}

const NOTHING: Told = Told {
    is_requested: false,
    has_room: false,
    front: None,
};

const ROOM: Told = Told {
    is_requested: false,
    has_room: true,
    front: None,
};

const FRONT: Told = Told {
    is_requested: false,
    has_room: false,
    front: Some(5),
};

const REQUEST: Told = Told {
    is_requested: true,
    has_room: true,
    front: Some(5),
};

const TAKE: &[Node] = &[Node::Take(0)];

const OFFER: &[Node] = &[Node::Offer(0, Arg::Number(7))];

const TRY_OFFER: &[Node] = &[Node::TryOffer(0, Arg::Number(7))];

/// Codes, what their main fibers are answered, and what is seen of their first steps.
static STEPS: [(&str, &[Node], Told, Seen); 8] = [
    ("a take of nothing waits", TAKE, ROOM, Seen::Waits),
    (
        "a take has the front",
        TAKE,
        FRONT,
        Seen::Steps(Some(Note::Got(0, 5)), true),
    ),
    (
        "a request is seen before a take",
        TAKE,
        REQUEST,
        Seen::Steps(None, true),
    ),
    ("an offer waits for room", OFFER, NOTHING, Seen::Waits),
    (
        "an offer is put where there is room",
        OFFER,
        ROOM,
        Seen::Steps(Some(Note::Put(0, 7)), true),
    ),
    (
        "a request is seen before an offer",
        OFFER,
        REQUEST,
        Seen::Steps(None, true),
    ),
    (
        "what does not wait is refused",
        TRY_OFFER,
        NOTHING,
        Seen::Steps(None, true),
    ),
    (
        "or put",
        TRY_OFFER,
        ROOM,
        Seen::Steps(Some(Note::Put(0, 7)), true),
    ),
];

#[test]
fn fibers_of_a_state_step_by_what_they_are_answered(rt: HostRuntime) -> Result<(), Fail> {
    for (row, nodes, told, seen) in &STEPS {
        let found = first_step_of(rt.alloc(), nodes, told)?;
        assert!(rt; found == *seen, "{row}");
    }
    Ok(())
}
