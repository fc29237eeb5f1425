//! Fibers that are requested from outside, and parted from their ports after so many steps; and what they
//! registered for.
ghost use Rattle.std.specs.Prelude.{◌≡◌};

use super::*;

/// A request from outside: whose, after how many steps, and how many are made after it.
type Request = (u32, u32, u32);

/// What a fiber is called, its code, the request, its events after that, whose stamps count up from 1, and the
/// end that its port was told.
type Row<'a> = (&'a str, &'a [Node], Request, &'a [Event], Option<Outcome>);

/// What was to be seen of a fiber without its port, and the end that its port was told.
#[derive(Drop)]
struct Parted {
    id: u32,
    has_ended: bool,
    trace: Vec<Stamped>,
    told: Option<Outcome>,
}

impl Parted {
    /// Whether it is the main fiber with that trace, and it and its port agree on that end.
    fn is(&self, trace: &[Stamped], end: Option<Outcome>) -> bool {
        self.id == 0
            && self.has_ended == end.is_some()
            && self.trace.as_slice() == trace
            && self.told == end
    }
}

fn part<J: CodeBrand>(alloc: Global, code: &Code, request: Request) -> Result<Parted, Fail>
    requires { code.now.nodes ≡ J.nodes }
{
    let (id, before, after) = request;
    let mut looks = Looks::new(None);
    let mut fiber = main_fiber::<J>(alloc, code)?;
    stepped(alloc, code, &mut fiber, &mut looks, before)?;
    fiber.outside(&mut looks, id);
    stepped(alloc, code, &mut fiber, &mut looks, after)?;
    let (bare, port) = fiber.part(code);
    Ok(Parted {
        id: bare.id(),
        has_ended: bare.has_ended(),
        trace: bare.into_trace(),
        told: port.told,
    })
}

fn part_after(alloc: Global, nodes: &[Node], request: Request) -> Result<Parted, Fail> {
    let code = Code::build(alloc, Vec::from_slice(alloc, nodes)?, 2)?;
    part::<Brand>(alloc, &code, request)
}

static PARTED: [Row; 4] = [
    (
        "never, requested from outside",
        &[Node::Never],
        (0, 0, 3),
        SEEN,
        Some(Outcome::Canceled),
    ),
    (
        "never, requested from outside while it waits, before it has unwound",
        &[Node::Never],
        (0, 2, 2),
        &[Event::Seen, Event::Cancelled],
        None,
    ),
    (
        "pure 5, where another is requested from outside",
        &[pure!(5)],
        (1, 0, 2),
        &[Event::Ended(Outcome::Succeeded(5))],
        Some(Outcome::Succeeded(5)),
    ),
    (
        "mask p (seq (offer q 5) (never)), requested from outside under the mask, which is not seen",
        &[
            Node::Offer(0, Arg::Number(5)),
            Node::Never,
            seq!(0, 1),
            mask!(0, 2),
        ],
        (0, 1, 5),
        &[Event::Put(0, 5)],
        None,
    ),
];

#[test]
fn parts_after_a_request_from_outside(rt: HostRuntime) -> Result<(), Fail> {
    for &(row, nodes, request, events, end) in &PARTED {
        let found = part_after(rt.alloc(), nodes, request)?;
        let trace = counted(rt.alloc(), events)?;
        assert!(rt; found.is(&trace, end), "{row}");
    }
    Ok(())
}

/// What a fiber names and its port was told: at first, once it registered for that, and after a yield.
fn registers<J: CodeBrand>(
    alloc: Global,
    code: &Code,
    source: Source,
) -> Result<[Option<Source>; 4], Fail>
    requires { code.now.nodes ≡ J.nodes }
{
    let mut looks = Looks::new(None);
    let mut fiber = main_fiber::<J>(alloc, code)?;
    let at_first = fiber.source();
    fiber.wait_on(&mut looks, source);
    let registered = fiber.source();
    fiber.yields();
    Ok([at_first, registered, fiber.source(), looks.registered.get()])
}

fn sources(alloc: Global, nodes: &[Node], source: Source) -> Result<[Option<Source>; 4], Fail> {
    let code = Code::build(alloc, Vec::from_slice(alloc, nodes)?, 2)?;
    registers::<Brand>(alloc, &code, source)
}

#[test]
fn registers_for_what_it_waits_for(rt: HostRuntime) -> Result<(), Fail> {
    let element = Some(Source::Element(1));
    let found = sources(rt.alloc(), &[Node::Take(1)], Source::Element(1))?;
    assert!(rt; found == [None, element, None, element]);
    Ok(())
}
