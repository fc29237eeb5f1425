//! Runs of one fiber over a port that is requested at some look, and their traces, counted by hand from
//! the table.
ghost use Rattle.std.specs.Prelude.{◌≡◌, ◌^◌, true, Some, None, is_some, ◌||◌, List, IfOk};
ghost use Rattle.fx_term.specs.declared.node.Node.{Node};

use fx_fiber::{Closed, Fiber, Port, Source, Stepped, main_begin};
use fx_term::{
    Arg, Begin, Code, CodeBrand, Event, Memory, Node, NodeId, Offered, Outcome, Stamped,
};
use std::alloc::{AllocError, Global};
use std::cell::Cell;
use std::marker::{Brand, PhantomData};
use std::process::Abort;
use std::test::Fail;

macro_rules! pure {
    ($n:expr) => { Node::Pure(Arg::Number($n)) };
}

macro_rules! raise {
    ($e:expr) => { Node::Raise(Arg::Number($e)) };
}

macro_rules! seq {
    ($first:expr, $then:expr) => { Node::Let(None, NodeId($first), NodeId($then)) };
}

macro_rules! mask {
    ($slot:expr, $part:expr) => { Node::Mask($slot, NodeId($part)) };
}

macro_rules! poll {
    ($slot:expr, $part:expr) => { Node::Poll($slot, NodeId($part)) };
}

macro_rules! on_cancel {
    ($part:expr, $finalizer:expr) => { Node::OnCancel(NodeId($part), NodeId($finalizer)) };
}

macro_rules! bracket {
    ($name:expr, $acquire:expr, $used:expr, $release:expr) => {
        Node::Bracket($name, NodeId($acquire), NodeId($used), NodeId($release))
    };
}

macro_rules! case {
    ($name:expr, $acquire:expr, $used:expr, $value:expr, $success:expr, $error:expr, $failure:expr, $canceled:expr) => {
        Node::BracketCase(
            $name,
            NodeId($acquire),
            NodeId($used),
            $value,
            NodeId($success),
            $error,
            NodeId($failure),
            NodeId($canceled),
        )
    };
}

macro_rules! start {
    ($slot:expr, $started:expr, $then:expr) => {
        Node::Start($slot, NodeId($started), NodeId($then))
    };
}

mod binding;
mod can_step;
mod cases;
mod fibers;
mod flows;
mod forking;
mod leaves;
mod loops;
mod masking;
mod parting;
mod queues;
mod resources;
mod standing;
mod unwinding;

/// How many looks there were, at which the fiber is requested, from 1 on, the end that was told, and what
/// was last registered for.
#[derive(Drop)]
struct Looks {
    made: Cell<u32>,
    request: Option<u32>,
    told: Cell<Option<Outcome>>,
    registered: Cell<Option<Source>>,
}

impl Looks {
    /// Before any look.
    fn new(request: Option<u32>) -> Looks {
        Looks {
            made: Cell::new(0),
            request,
            told: Cell::new(None),
            registered: Cell::new(None),
        }
    }
}

/// A port that answers one look at most with a request, which comes from outside, and keeps the end that it
/// was told. No other fiber takes a step, so none has ended, none sees what is requested of it, and none is
/// woken. Queue 0 has room for one element, which is kept with its stamp; there is no other, so each other one
/// is full, and empty.
#[derive(Drop)]
struct TestPort<J: CodeBrand> {
    alloc: Global,
    id: u32,
    begin: Begin,
    next: u32,
    saw: bool,
    told: Option<Outcome>,
    held: Option<(u64, u64)>,
    puts: u64,
    of: PhantomData<J>,
}

impl<J: CodeBrand> TestPort<J> {
    fn new(alloc: Global, id: u32, begin: Begin) -> TestPort<J>
        ensures id { result.id ≡ id }
        ensures begin { result.begin ≡ begin }
        ensures next { result.next ≡ begin.next }
        ensures going { result.told ≡ None }
        ensures puts { result.puts ≡ 0 }
    {
        TestPort {
            alloc,
            id,
            next: begin.next,
            begin,
            saw: false,
            told: None,
            held: None,
            puts: 0,
            of: PhantomData,
        }
    }

    /// One that has done the same.
    fn copied(&self) -> Result<TestPort<J>, Memory>
        ensures { IfOk result (λ port. port ≡ self.now) }
    {
        Ok(TestPort {
            alloc: self.alloc,
            id: self.id,
            begin: self.begin.copied(self.alloc)?,
            next: self.next,
            saw: self.saw,
            told: self.told,
            held: self.held,
            puts: self.puts,
            of: PhantomData,
        })
    }
}

impl<J: CodeBrand> Port for TestPort<J> {
    type Shared = Looks;

    ghost theory = { record {
      code = J.nodes;
      total = 2 ^ 32;
      may = λ id. true;
      calls = record {
        looks = λ p s found p' s'. (p' ≡ record p { saw = is_some found || p.saw }) × (s' ≡ s);
        requests = λ p s id stamp p' s'. (p' ≡ p) × (s' ≡ s);
        peeks = λ p s id end p' s'. (end ≡ None) × (p' ≡ p) × (s' ≡ s);
        offers = λ p s queue n stamp answer p' s'. Unit {0};
        takes = λ p s queue element p' s'. Unit {0};
        starts = λ p s id begin child p' s'. (child.begin ≡ begin) × (p' ≡ record p { next = begin.end }) × (s' ≡ s);
        finishes = λ p s outcome stamp p' s'. (p' ≡ record p { told = Some outcome }) × (s' ≡ s);
        outsides = λ p s id p' s'. p' ≡ p;
        waits = λ p s source p' s'. (p' ≡ p) × (s' ≡ s);
        goes_on = λ p s. Unit {0};
        wakes = λ s woken s'. (woken ≡ None) × (s' ≡ s);
      };
      facts = λ p. record {
        number = p.id;
        beginning = p.begin;
        range = record { next = p.next; end = p.begin.end };
        has_finished = is_some p.told;
        puts = p.puts;
      };
      agrees = λ p deeds. Unit {0};
    } };

    fn look(&mut self, looks: &mut Looks) -> Option<u64> {
        let number = looks.made.get().saturating_add(1);
        looks.made.set(number);
        if self.saw || self.told.is_some() || looks.request.is_none_or(|first| number < first) {
            return None;
        }
        self.saw = true;
        Some(0)
    }

    fn request(&mut self, _looks: &mut Looks, _id: u32, _stamp: u64) {}

    fn peek(&mut self, _looks: &mut Looks, _id: u32) -> Option<(Outcome, u64)> {
        None
    }

    fn offer(
        &mut self,
        _looks: &mut Looks,
        queue: u8,
        value: u64,
        stamp: u64,
    ) -> Result<Offered, Memory> {
        if queue != 0 || self.held.is_some() {
            return Ok(Offered::Full);
        }
        self.held = Some((value, stamp));
        self.puts += 1;
        Ok(Offered::Done)
    }

    fn take(&mut self, _looks: &mut Looks, queue: u8) -> Option<(u64, u64)> {
        if queue != 0 {
            return None;
        }
        let front = self.held?;
        self.held = None;
        Some(front)
    }

    fn start(&mut self, _looks: &mut Looks, id: u32, begin: &Begin) -> Result<Self, Memory> {
        let child = TestPort::new(self.alloc, id, begin.copied(self.alloc)?);
        self.next = begin.end;
        Ok(child)
    }

    fn finish(&mut self, looks: &mut Looks, outcome: Outcome, _stamp: u64) {
        self.told = Some(outcome);
        looks.told.set(Some(outcome));
    }

    fn outside(&mut self, looks: &mut Looks, id: u32) {
        if id == self.id {
            looks.request = Some(0);
        }
    }

    fn wait_on(&mut self, looks: &mut Looks, source: Source) {
        looks.registered.set(Some(source));
    }

    fn goes_on(&self, _looks: &Looks) -> bool {
        true
    }

    fn woken(_looks: &mut Looks) -> Option<u32> {
        None
    }
}

/// What a step answered, without the fiber that it started.
#[derive(Clone, Copy, PartialEq, Eq, Debug)]
enum Answer {
    Went,
    Child,
    Waits,
    Gave,
    Ended,
}

fn answer_of<P: Port>(stepped: &Stepped<P>) -> Answer {
    match stepped {
        Stepped::Went => Answer::Went,
        Stepped::Child(_) => Answer::Child,
        Stepped::Waits(_) => Answer::Waits,
        Stepped::Gave => Answer::Gave,
        Stepped::Ended => Answer::Ended,
    }
}

/// These events with the stamps of a fiber that has no cause but what it did itself: they count up from 1.
fn counted(alloc: Global, events: &[Event]) -> Result<Vec<Stamped>, AllocError> {
    let mut trace = Vec::new(alloc);
    let mut stamp = 0u64;
    for &event in events {
        stamp = stamp.saturating_add(1);
        trace.push(Stamped { event, stamp })?;
    }
    Ok(trace)
}

/// What was to be seen of a fiber that made so many steps, or as many as there were to its end.
#[derive(Drop)]
struct Ran {
    id: u32,
    answers: Vec<Answer>,
    trace: Vec<Stamped>,
    told: Option<Outcome>,
    looks: u32,
    had_ended_first: bool,
    has_ended: bool,
}

impl Ran {
    /// Whether the main fiber has this trace, with so many looks, and had not ended before.
    fn has(&self, trace: &[Stamped], looks: u32) -> bool {
        self.id == 0
            && !self.had_ended_first
            && self.looks == looks
            && self.trace.as_slice() == trace
    }

    /// Whether the fiber has ended, and told its port so as its last event says.
    fn told_its_end(&self) -> bool {
        match (self.told, self.trace.last()) {
            (Some(outcome), Some(last)) => self.has_ended && last.event == Event::Ended(outcome),
            _ => false,
        }
    }
}

/// The main fiber of a code, before its first step.
fn main_fiber<J: CodeBrand>(alloc: Global, code: &Code) -> Result<Fiber<TestPort<J>>, Memory>
    requires { code.now.nodes ≡ J.nodes }
{
    let port: TestPort<J> = TestPort::new(alloc, 0, main_begin(alloc, code));
    Fiber::new(alloc, code, port)
}

/// Lets a fiber make so many steps, or as many as there are to its end: what they answered.
fn stepped<J: CodeBrand>(
    alloc: Global,
    code: &Code,
    fiber: &mut Fiber<TestPort<J>>,
    looks: &mut Looks,
    steps: u32,
) -> Result<Vec<Answer>, Fail>
    requires { code.now.nodes ≡ J.nodes }
{
    let mut answers = Vec::new(alloc);
    for _ in 0..steps {
        if fiber.has_ended() {
            break;
        }
        answers.push(answer_of(&fiber.step(code, looks)?))?;
    }
    Ok(answers)
}

/// Runs the main fiber of a code for so many steps at most.
fn drive<J: CodeBrand>(
    alloc: Global,
    code: &Code,
    request: Option<u32>,
    steps: u32,
) -> Result<Ran, Fail>
    requires { code.now.nodes ≡ J.nodes }
{
    let mut looks = Looks::new(request);
    let mut fiber = main_fiber::<J>(alloc, code)?;
    let had_ended_first = fiber.has_ended();
    let answers = stepped(alloc, code, &mut fiber, &mut looks, steps)?;
    Ok(Ran {
        id: fiber.id(),
        answers,
        trace: Vec::from_slice(alloc, fiber.trace())?,
        told: looks.told.get(),
        looks: looks.made.get(),
        had_ended_first,
        has_ended: fiber.has_ended(),
    })
}

/// Runs the main fiber of the code of these nodes, requested from that look on, for so many steps at
/// most.
fn run(alloc: Global, nodes: &[Node], request: Option<u32>, steps: u32) -> Result<Ran, Fail> {
    let code = Code::build(alloc, Vec::from_slice(alloc, nodes)?, 2)?;
    drive::<Brand>(alloc, &code, request, steps)
}

/// A whole run: what it is called, its code, the look from which on its fiber is requested, its events,
/// whose stamps count up from 1, and how many looks there are.
type Row<'a> = (&'a str, &'a [Node], Option<u32>, &'a [Event], u32);

/// Runs the fiber of each row to its end.
fn assert_runs(rt: &impl Abort, alloc: Global, rows: &[Row]) -> Result<(), Fail> {
    for &(row, nodes, request, events, looks) in rows {
        let ran = run(alloc, nodes, request, 100)?;
        let trace = counted(alloc, events)?;
        assert!(rt; ran.has(&trace, looks) && ran.told_its_end(), "{row}");
    }
    Ok(())
}

const CANCELED: Node = Node::Canceled;

const CANCELED_HERE: &[Event] = &[Event::Cancelled, Event::Ended(Outcome::Canceled)];

const SEEN: &[Event] = &[
    Event::Seen,
    Event::Cancelled,
    Event::Ended(Outcome::Canceled),
];

const CANCELED_LATER: &[Event] = &[
    Event::SelfRequest,
    Event::Cancelled,
    Event::Ended(Outcome::Canceled),
];
