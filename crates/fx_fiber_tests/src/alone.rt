//! The port of a fiber that is alone, which the docs of `Port` show a part of, and a fiber over it.
ghost use Rattle.std.specs.Prelude.{◌≡◌, ◌^◌, true, false, None};
ghost use Rattle.fx_term.specs.declared.offered.Offered.TheVariants.{Full};

use fx_fiber::{Fiber, Port, Source, Stepped, main_begin};
use fx_term::{
    Arg, Begin, Code, CodeBrand, Event, Memory, Node, NodeId, Offered, Outcome, Stamped,
};
use std::alloc::Global;
use std::marker::{Brand, PhantomData};
use std::test::Fail;

/// The port of a fiber that is alone: nobody requests it, no other takes a step, and there is no queue.
#[derive(Drop)]
struct Alone<J: CodeBrand> {
    id: u32,
    begin: Begin,
    next: u32,
    has_ended: bool,
    of: PhantomData<J>,
}

impl<J: CodeBrand> Alone<J> {
    fn new(id: u32, begin: Begin) -> Alone<J>
        ensures id { result.id ≡ id }
        ensures begin { result.begin ≡ begin }
        ensures next { result.next ≡ begin.next }
        ensures going { result.has_ended ≡ false }
    {
        Alone {
            id,
            next: begin.next,
            begin,
            has_ended: false,
            of: PhantomData,
        }
    }
}

impl<J: CodeBrand> Port for Alone<J> {
    type Shared = Global;

    ghost theory = { record {
      code = J.nodes;
      total = 2 ^ 32;
      may = λ id. true;
      calls = record {
        looks = λ p s found p' s'. (found ≡ None) × (p' ≡ p) × (s' ≡ s);
        requests = λ p s id stamp p' s'. (p' ≡ p) × (s' ≡ s);
        peeks = λ p s id end p' s'. (end ≡ None) × (p' ≡ p) × (s' ≡ s);
        offers = λ p s queue value stamp answer p' s'. (answer ≡ Full) × (p' ≡ p) × (s' ≡ s);
        takes = λ p s queue element p' s'. (element ≡ None) × (p' ≡ p) × (s' ≡ s);
        starts = λ p s id begin child p' s'. (p' ≡ record p { next = begin.end }) × (s' ≡ s);
        finishes = λ p s outcome stamp p' s'. (p' ≡ record p { has_ended = true }) × (s' ≡ s);
        outsides = λ p s id p' s'. (p' ≡ p) × (s' ≡ s);
        waits = λ p s source p' s'. (p' ≡ p) × (s' ≡ s);
        goes_on = λ p s. Unit {0};
        wakes = λ s woken s'. (woken ≡ None) × (s' ≡ s);
      };
      facts = λ p. record {
        number = p.id;
        beginning = p.begin;
        range = record { next = p.next; end = p.begin.end };
        has_finished = p.has_ended;
        puts = 0;
      };
      agrees = λ p deeds. Unit {0};
    } };

    fn look(&mut self, _alloc: &mut Global) -> Option<u64> {
        None
    }

    fn request(&mut self, _alloc: &mut Global, _id: u32, _stamp: u64) {}

    fn peek(&mut self, _alloc: &mut Global, _id: u32) -> Option<(Outcome, u64)> {
        None
    }

    fn offer(
        &mut self,
        _alloc: &mut Global,
        _queue: u8,
        _value: u64,
        _stamp: u64,
    ) -> Result<Offered, Memory> {
        Ok(Offered::Full)
    }

    fn take(&mut self, _alloc: &mut Global, _queue: u8) -> Option<(u64, u64)> {
        None
    }

    fn start(&mut self, alloc: &mut Global, id: u32, begin: &Begin) -> Result<Alone<J>, Memory> {
        let child = Alone::new(id, begin.copied(*alloc)?);
        self.next = begin.end;
        Ok(child)
    }

    fn finish(&mut self, _alloc: &mut Global, _outcome: Outcome, _stamp: u64) {
        self.has_ended = true;
    }

    fn outside(&mut self, _alloc: &mut Global, _id: u32) {}

    fn wait_on(&mut self, _alloc: &mut Global, _source: Source) {}

    fn goes_on(&self, _alloc: &Global) -> bool {
        true
    }

    fn woken(_alloc: &mut Global) -> Option<u32> {
        None
    }
}

/// What a fiber that is alone shows in so many steps, if it does not wait before.
fn shows<J: CodeBrand>(alloc: Global, code: &Code, steps: u32) -> Result<Vec<Stamped>, Fail>
    requires { code.now.nodes ≡ J.nodes }
{
    let mut shared = alloc;
    let port: Alone<J> = Alone::new(0, main_begin(alloc, code));
    let mut fiber = Fiber::new(alloc, code, port)?;
    for _ in 0..steps {
        if fiber.has_ended() {
            break;
        }
        if let Stepped::Waits(_) = fiber.step(code, &mut shared)? {
            break;
        }
    }
    Ok(fiber.into_trace())
}

fn shown(alloc: Global, nodes: &[Node], steps: u32) -> Result<Vec<Stamped>, Fail> {
    let code = Code::build(alloc, Vec::from_slice(alloc, nodes)?, 1)?;
    shows::<Brand>(alloc, &code, steps)
}

/// `start h (pure 1) (seq (tryoffer q 5) (take q))`.
const START_AND_WAIT: &[Node] = &[
    Node::Pure(Arg::Number(1)),
    Node::TryOffer(0, Arg::Number(5)),
    Node::Take(0),
    Node::Let(None, NodeId(1), NodeId(2)),
    Node::Start(0, NodeId(0), NodeId(3)),
];

#[test]
fn a_fiber_that_is_alone_starts_another_and_waits(rt: HostRuntime) -> Result<(), Fail> {
    let found = shown(rt.alloc(), START_AND_WAIT, 9)?;
    let start = Stamped {
        event: Event::Start(1),
        stamp: 1,
    };
    let refused = Stamped {
        event: Event::Refused(0),
        stamp: 2,
    };
    assert!(rt; found.as_slice() == [start, refused].as_slice());
    Ok(())
}
