//! The kinds of step that a seat makes, and what each tells it.
ghost use Rattle.fx_word.specs.Steps.{raises_then, asks_then, outside_asks_then, looks_then, loads_stamp_then};
ghost use Rattle.fx_word.specs.Steps.{stores_then, stores_stamp_then, ends_then, tells_then, learns_then, learns_stamp_then};
ghost use Rattle.fx_word.specs.SeatView.{kept_part, given_part, joined, spent_view};

use crate::seat_view::SeatView;
use atomic_table::{Join, Play, Split};
use fx_term::Begin;
use std::marker::{Brand, PhantomData};

/// What a fiber that is split off begins with. Each split picks it, since a step has no operand for it.
pub trait Given {
    ghost use Rattle.fx_term.specs.declared.begin.Begin.{Begin};

    ghost begin: { Begin };
}

impl Given for Brand {
    ghost use Rattle.std.specs.Prelude.{[]};

    ghost begin = { record { node = record { 0 = 0 }; slots = []; next = 0; end = 0; stamp = 0 } };
}

/// A seat is split.
pub struct SplitOff<B> {
    of: PhantomData<B>,
}

impl<B: Given> Split<SeatView> for SplitOff<B> {
    ghost left = { kept_part B.begin };

    ghost right = { given_part B.begin };
}

/// A request's stamp is raised.
pub struct Raise;

impl Play<(), SeatView> for Raise {
    ghost then = { raises_then };
}

/// The request bit is set of a fiber whose request's stamp was raised.
pub struct Ask;

impl Play<(), SeatView> for Ask {
    ghost then = { asks_then };
}

/// A request bit is set from outside.
pub struct AskFromOutside;

impl Play<(), SeatView> for AskFromOutside {
    ghost then = { outside_asks_then };
}

/// The own state word is loaded.
pub struct Look;

impl Play<(), SeatView> for Look {
    ghost then = { looks_then };
}

/// The stamp of the own requests is loaded, of which one was seen.
pub struct LoadStamp;

impl Play<(), SeatView> for LoadStamp {
    ghost then = { loads_stamp_then };
}

/// The own value word is stored.
pub struct Store;

impl Play<(), SeatView> for Store {
    ghost then = { stores_then };
}

/// The stamp of the own end is stored.
pub struct StoreStamp;

impl Play<(), SeatView> for StoreStamp {
    ghost then = { stores_stamp_then };
}

/// The own done bits are set.
pub struct End;

impl Play<(), SeatView> for End {
    ghost then = { ends_then };
}

/// The state word of any fiber is loaded.
pub struct Tell;

impl Play<(), SeatView> for Tell {
    ghost then = { tells_then };
}

/// The value word of a fiber that has ended is loaded.
pub struct Learn;

impl Play<(), SeatView> for Learn {
    ghost then = { learns_then };
}

/// The stamp of the end is loaded of a fiber that has ended.
pub struct LearnStamp;

impl Play<(), SeatView> for LearnStamp {
    ghost then = { learns_stamp_then };
}

/// A seat takes another one in.
pub struct TakeIn;

impl Join<SeatView> for TakeIn {
    ghost both = { joined };

    ghost spent = { spent_view };
}
