//! The words of all fibers.
ghost use Rattle.std.specs.Prelude.{◌≡◌, ℕ, ◌<◌, ◌≤◌, ◌+◌, IfOk, IfSome, IfNone, Some, None};
ghost use Rattle.fx_term.specs.declared.outcome.Outcome as outcome;
ghost use Rattle.fx_word.specs.Entry.{asking, looking, finished, peeked};
ghost use Rattle.fx_word.specs.SeatView.{first_view, IsAsked, Knows, KnowsRequestStamp, KnowsEndStamp};
ghost use Rattle.fx_word.specs.SeatView.{IsWhole, IsSettled, AreSplitOffOnce};
ghost use Rattle.fx_word.specs.Words.{IsOf, with_entry, kept_seat, given_seat, joined_seat};

use crate::word_seat::WordSeat;
use crate::word_table::WordTable;
use fx_term::{Begin, Memory, Outcome};
use std::alloc::Global;
use std::marker::Model;

/// Four words for each fiber number: its state, a request bit and two bits for how it ended, the value
/// of its end, and the stamps of its requests and of its end. Contracts see which words they are, and
/// of how many fibers.
#[derive(Drop)]
pub struct Words {
    table: WordTable,
}

impl Model for Words {
    ghost use Rattle.fx_word.specs.Words.{WordsId};

    ghost Value = { WordsId };

    ghost view = { λ w. record { table = w.table.table.shared.table_id; fibers = w.table.fibers } };
}

impl Words {
    /// Words of so many fibers, none of which is requested or has ended, and the seat of the fiber 0.
    pub fn new(alloc: Global, fibers: u32) -> Result<(Words, WordSeat), Memory>
        requires { (0 < fibers) × (fibers ≤ 4096) }
        ensures { IfOk result
            (λ r. (r.0.fibers ≡ fibers) × IsOf r.1 r.0 × (r.1.view ≡ first_view fibers)) }
    {
        let (table, seat) = WordTable::new(alloc, fibers)?;
        Ok((Words { table }, WordSeat { seat }))
    }

    /// The number of fibers.
    pub fn fibers(&self) -> u32
        ensures { result ≡ self.now.fibers }
    {
        self.table.fibers()
    }

    /// Requests the cancellation of a fiber, by an event with this stamp. A request from outside has the
    /// stamp 0.
    pub fn request(&self, seat: &mut WordSeat, id: u32, stamp: u64)
        requires words { IsOf seat.old self.now }
        requires below { id < self.now.fibers }
        ensures { seat.new ≡ with_entry seat.old (asking id stamp seat.old.view.own) }
    {
        self.table.request(&mut seat.seat, id, stamp);
    }

    /// Whether the seat's fiber is requested, and the greatest stamp of its requests so far: one of a
    /// request that was made, though its bit may not be set yet.
    pub fn look(&self, seat: &mut WordSeat) -> Option<u64>
        requires words { IsOf seat.old self.now }
        ensures view { seat.new ≡ with_entry seat.old (looking result seat.old.view.own) }
        ensures knows { IsAsked seat.old.view → (t : ℕ) × (result ≡ Some t) }
        ensures greatest { IfSome result (λ stamp. (t : ℕ)
            → KnowsRequestStamp seat.old.view t → t ≤ stamp) }
    {
        self.table.look(&mut seat.seat)
    }

    /// The seat of the first number of the range, whose fiber begins so. The old seat keeps the rest.
    pub fn split(&self, seat: &mut WordSeat, id: u32, begin: &Begin) -> WordSeat
        requires words { IsOf seat.old self.now }
        requires below { (id < self.now.fibers) × (id ≡ seat.old.view.own.next) }
        requires range { (begin.now.next ≡ id + 1) × (begin.now.next ≤ begin.now.end)
            × (begin.now.end ≤ seat.old.view.own.end) }
        ensures kept { seat.new ≡ kept_seat begin.now seat.old }
        ensures given { result ≡ given_seat begin.now seat.old }
    {
        let seat = self.table.split(&mut seat.seat, id, begin);
        WordSeat { seat }
    }

    /// Tells how the seat's fiber ended, by an event with this stamp.
    pub fn finish(&self, seat: &mut WordSeat, outcome: Outcome, stamp: u64)
        requires words { IsOf seat.old self.now }
        requires running { seat.old.view.own.ended ≡ None }
        ensures { seat.new ≡ with_entry seat.old (finished outcome stamp seat.old.view.own) }
    {
        self.table.finish(&mut seat.seat, outcome, stamp);
    }

    /// How a fiber ended, if it has, and the stamp of its end.
    pub fn peek(&self, seat: &mut WordSeat, id: u32) -> Option<(Outcome, u64)>
        requires words { IsOf seat.old self.now }
        requires below { id < self.now.fibers }
        ensures some { IfSome result (λ r. seat.new
            ≡ with_entry seat.old (peeked id r.0 r.1 seat.old.view.own)) }
        ensures none { IfNone result (seat.new ≡ seat.old) }
        ensures knows { (k : outcome.Outcome) → Knows seat.old.view id k
            → (t : ℕ) × (result ≡ Some (k, t)) }
        ensures stamp { IfSome result (λ r. (t : ℕ) → KnowsEndStamp seat.old.view id t → r.1 ≡ t) }
    {
        self.table.peek(&mut seat.seat, id)
    }

    /// The seat takes the other one in.
    pub fn gather(&self, seat: &mut WordSeat, other: WordSeat)
        requires words { IsOf seat.old self.now × IsOf other self.now }
        ensures { seat.new ≡ joined_seat seat.old other }
    {
        self.table.gather(&mut seat.seat, other.seat);
    }

    /// The words are given up, by the first seat, which has taken in all that were split off.
    pub fn close(self, seat: WordSeat)
        requires words { IsOf seat self }
        requires whole { IsWhole seat.view }
        ensures settled { IsSettled seat.view }
        ensures once { AreSplitOffOnce seat.view }
    {
        self.table.close(seat.seat);
    }
}
