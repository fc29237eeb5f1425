//! The signature of each form: the names that a node uses; the queue that it names; and its parts in
//! the order of the text, each with what is bound in it and how it goes with the parts after it. Every
//! test of a code goes over these tables.
ghost use Rattle.std.specs.Prelude.{◌≡◌, Some, [], ◌∷◌};
ghost use Rattle.fx_term.specs.Signature.{uses, queue_named, parts, present, use_as, slot_as, plain};
ghost use Rattle.fx_term.specs.Signature.{part_under, repeated, started, or_next, case_under};

use crate::name_kind::NameKind;
use crate::node::{Arg, Node, NodeId};

/// A number or a name that a node uses.
#[derive(Clone, Copy)]
pub(crate) struct Use {
    pub arg: Arg,
    /// What a name is to stand for there.
    pub kind: NameKind,
}

/// A part of a node.
#[derive(Clone, Copy)]
pub(crate) struct Part {
    pub node: NodeId,
    /// The slot of the name that is bound in it, if one is.
    pub binder: Option<u32>,
    /// What that name stands for.
    pub kind: NameKind,
    /// The slot of the value's name that is bound in it inside of that one, if one is.
    pub inner: Option<u32>,
    /// The count of the loop that repeats it, if one does.
    pub count: Option<u32>,
    /// Does it run in another fiber than its node?
    pub elsewhere: bool,
    /// How it goes with the parts after it.
    pub running: Running,
}

/// How a part of a node goes with those after it.
#[derive(Clone, Copy)]
pub(crate) enum Running {
    /// It may be run, and those after it too.
    Beside,
    /// It is run, or one of those after it is.
    Instead,
}

/// A number, or a name that is to stand for this.
fn use_as(kind: NameKind, arg: Arg) -> Option<Use>
    ensures { result ≡ Some (use_as kind arg) }
{
    Some(Use { arg, kind })
}

/// A name, which is to stand for this.
fn slot_as(kind: NameKind, slot: u32) -> Option<Use>
    ensures { result ≡ Some (slot_as kind slot) }
{
    use_as(kind, Arg::Slot(slot))
}

/// A part in the scope of a binder.
fn part_under(binder: Option<u32>, kind: NameKind, node: NodeId) -> Part
    ensures { result ≡ part_under binder kind node }
{
    Part {
        node,
        binder,
        kind,
        inner: None,
        count: None,
        elsewhere: false,
        running: Running::Beside,
    }
}

/// A part in the scope of a value's name.
fn valued(slot: u32, node: NodeId) -> Part
    ensures { result ≡ part_under (Some slot) NameKind.Value node }
{
    part_under(Some(slot), NameKind::Value, node)
}

/// A part in which nothing is bound.
fn plain(node: NodeId) -> Part
    ensures { result ≡ plain node }
{
    part_under(None, NameKind::Value, node)
}

/// A part that is repeated in the scope of a binder of its turn's number.
fn repeated(slot: u32, count: u32, node: NodeId) -> Part
    ensures { result ≡ repeated slot count node }
{
    Part {
        count: Some(count),
        ..valued(slot, node)
    }
}

/// A part that runs in another fiber.
fn started(node: NodeId) -> Part
    ensures { result ≡ started node }
{
    Part {
        elsewhere: true,
        ..plain(node)
    }
}

/// The part, which is run, or one of those after it is.
fn or_next(part: Part) -> Part
    ensures { result ≡ or_next part }
{
    Part {
        running: Running::Instead,
        ..part
    }
}

/// A part in the scope of two values' names, which is run, or one of those after it is.
fn case_under(outer: u32, inner: u32, node: NodeId) -> Part
    ensures { result ≡ case_under outer inner node }
{
    Part {
        inner: Some(inner),
        ..or_next(valued(outer, node))
    }
}

fn one_part(part: Part) -> [Option<Part>; 5]
    ensures { present result ≡ part ∷ [] }
{
    [Some(part), None, None, None, None]
}

fn two_parts(first: Part, then: Part) -> [Option<Part>; 5]
    ensures { present result ≡ first ∷ then ∷ [] }
{
    [Some(first), Some(then), None, None, None]
}

fn three_parts(first: Part, then: Part, last: Part) -> [Option<Part>; 5]
    ensures { present result ≡ first ∷ then ∷ last ∷ [] }
{
    [Some(first), Some(then), Some(last), None, None]
}

impl Node {
    /// The names that it uses.
    pub(crate) fn uses(self) -> [Option<Use>; 2]
        ensures { present result ≡ uses self }
    {
        match self {
            Node::Pure(v)
            | Node::Raise(v)
            | Node::If(v, ..)
            | Node::Offer(_, v)
            | Node::TryOffer(_, v) => [use_as(NameKind::Value, v), None],
            Node::Poll(p, _) => [slot_as(NameKind::Poll, p), None],
            Node::Join(f, ..) | Node::Cancel(f) => [slot_as(NameKind::Fiber, f), None],
            Node::First(f, g) => [slot_as(NameKind::Fiber, f), slot_as(NameKind::Fiber, g)],
            Node::Canceled
            | Node::Never
            | Node::Cede
            | Node::Let(..)
            | Node::Handle(..)
            | Node::For(..)
            | Node::Mask(..)
            | Node::OnCancel(..)
            | Node::Bracket(..)
            | Node::BracketCase(..)
            | Node::Start(..)
            | Node::Take(_)
            | Node::TryTake(..) => [None, None],
        }
    }

    /// The number of the queue that it names, if it names one.
    pub(crate) fn queue(self) -> Option<u8>
        ensures { result ≡ queue_named self }
    {
        match self {
            Node::Offer(queue, _)
            | Node::TryOffer(queue, _)
            | Node::Take(queue)
            | Node::TryTake(queue, ..) => Some(queue),
            _ => None,
        }
    }

    /// Its parts in the order of the text.
    pub(crate) fn parts(self) -> [Option<Part>; 5]
        ensures { present result ≡ parts self }
    {
        match self {
            Node::Pure(_)
            | Node::Raise(_)
            | Node::Canceled
            | Node::Never
            | Node::Cede
            | Node::Cancel(_)
            | Node::First(..)
            | Node::Offer(..)
            | Node::TryOffer(..)
            | Node::Take(_) => [None, None, None, None, None],
            Node::For(i, count, a) => one_part(repeated(i, count, a)),
            Node::Mask(p, a) => one_part(part_under(Some(p), NameKind::Poll, a)),
            Node::Poll(_, a) => one_part(plain(a)),
            Node::Let(x, a, b) | Node::Handle(a, x, b) => {
                two_parts(plain(a), part_under(x, NameKind::Value, b))
            }
            Node::If(_, a, b) => two_parts(or_next(plain(a)), plain(b)),
            Node::OnCancel(a, b) => two_parts(plain(a), plain(b)),
            Node::Start(h, a, b) => two_parts(started(a), part_under(Some(h), NameKind::Fiber, b)),
            Node::TryTake(_, x, a, b) => two_parts(or_next(valued(x, a)), plain(b)),
            Node::Bracket(x, acquire, used, release) => three_parts(
                plain(acquire),
                part_under(x, NameKind::Value, used),
                part_under(x, NameKind::Value, release),
            ),
            Node::Join(_, x, a, e, b, c) => {
                three_parts(or_next(valued(x, a)), or_next(valued(e, b)), plain(c))
            }
            Node::BracketCase(x, acquire, used, y, success, z, failure, canceled) => [
                Some(plain(acquire)),
                Some(valued(x, used)),
                Some(case_under(x, y, success)),
                Some(case_under(x, z, failure)),
                Some(valued(x, canceled)),
            ],
        }
    }
}
