//! The kinds of step that a pass makes, and what each tells it.
ghost use Rattle.fx_queue.specs.PassView.{first_view, nobody_view, kept_part, given_part, joined};
ghost use Rattle.fx_queue.specs.Told.{DidPut, DidGet, stands};

use crate::pass_view::PassView;
use crossbeam_queue::protocol::{Join, Lesson, Outcome, Split};
use fx_term::Item;
use std::marker::{Brand, PhantomData};

/// The capacity of a queue and the number of its fibers. Each queue picks them, since a step has no
/// operand for them.
pub trait Bounded {
    ghost use Rattle.std.specs.Prelude.{ℕ};

    ghost cap: { ℕ };

    ghost fibers: { ℕ };
}

impl Bounded for Brand {
    ghost cap = { 0 };

    ghost fibers = { 0 };
}

/// The first pass is made, of a ring that has its capacity.
pub struct SetUp<B> {
    of: PhantomData<B>,
}

impl<B: Bounded> Split<PassView> for SetUp<B> {
    ghost left = { λ _. first_view B.cap B.fibers };

    ghost right = { λ _. nobody_view };
}

/// Where the range of a pass ends that is split off. Each split picks it.
pub trait Range {
    ghost use Rattle.std.specs.Prelude.{ℕ};

    ghost end: { ℕ };
}

impl Range for Brand {
    ghost end = { 0 };
}

/// A pass is split.
pub struct SplitOff<B> {
    of: PhantomData<B>,
}

impl<B: Range> Split<PassView> for SplitOff<B> {
    ghost left = { kept_part B.end };

    ghost right = { given_part B.end };
}

/// An element is put, or the queue is found full.
pub struct Put;

impl Outcome<Item, PassView> for Put {
    ghost then = { λ v x w. DidPut v x.value x.stamp w };
}

impl Lesson<Item, PassView> for Put {
    ghost fact = { stands };
}

/// An element is taken, or the queue is found empty.
pub struct Get;

impl Outcome<Item, PassView> for Get {
    ghost then = { λ v x w. DidGet v x w };
}

impl Lesson<Item, PassView> for Get {
    ghost fact = { stands };
}

/// A pass takes another one in.
pub struct TakeIn;

impl Join<PassView> for TakeIn {
    ghost both = { joined };

    ghost spent = { nobody_view };
}
