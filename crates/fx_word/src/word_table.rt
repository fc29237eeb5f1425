//! The words as a table, and the steps on it.
ghost use Rattle.std.specs.Prelude.{◌≡◌, ℕ, ◌+◌, ◌*◌, ◌<◌, ◌≤◌, IfOk, IfSome, IfNone, None, Some, Option, IsTrue};
ghost use Rattle.fx_term.specs.Lists.{Among};
ghost use Rattle.fx_term.specs.declared.outcome.Outcome as outcome;
ghost use Rattle.fx_word.specs.StateWord.{kind_in, end_kind};
ghost use Rattle.fx_word.specs.Entry.{asking, looking, finished, telling, learning, learning_stamp, peeked};
ghost use Rattle.fx_word.specs.SeatView.{first_view, with_own, kept_part, given_part, joined};
ghost use Rattle.fx_word.specs.SeatView.{IsAsked, Knows, KnowsRequestStamp, KnowsEndStamp};
ghost use Rattle.fx_word.specs.SeatView.{IsWhole, IsSettled, AreSplitOffOnce};

use crate::seat_view::SeatView;
use crate::state_word::{EndKind, REQUESTED, StateWord, done_bits, outcome_of, value_word};
use crate::steps::{
    Ask, AskFromOutside, End, Given, Learn, LearnStamp, LoadStamp, Look, Raise, SplitOff, Store,
    StoreStamp, TakeIn, Tell,
};
use crate::table_seat::TableSeat;
use crate::word_rule::WordRule;
use atomic_table::Table;
use fx_term::{Begin, Memory, Outcome};
use std::alloc::Global;
use std::marker::Brand;

/// How many words a fiber has. The first one is its state.
const WORDS: usize = 4;

/// The number that it ended with.
const VALUE: usize = 1;

/// The greatest stamp of its requests, 0 where it has none.
const REQUEST_STAMP: usize = 2;

/// The stamp of its end.
const END_STAMP: usize = 3;

/// The words of so many fibers, of the fiber i those from 4 * i on.
#[derive(Drop)]
pub(crate) struct WordTable {
    table: Table<(), SeatView, u32, WordRule, Global>,
    fibers: u32,
    ghost sized: { (table.shared.key ≡ fibers) × (table.shared.table_id.words ≡ 4 * fibers)
        × (table.shared.table_id.slots ≡ 0) × (0 < fibers) × (fibers ≤ 4096) },
}

impl WordTable {
    pub fn new(alloc: Global, fibers: u32) -> Result<(WordTable, TableSeat), Memory>
        requires { (0 < fibers) × (fibers ≤ 4096) }
        ensures { IfOk result (λ r. (r.0.fibers ≡ fibers)
            × (r.1.seat.table_id ≡ r.0.table.shared.table_id) × (r.1.seat.me.0 ≡ first_view fibers)) }
    {
        let Ok(zeros) = vec![in alloc; 0u64; WORDS * fibers as usize] else {
            return Err(Memory);
        };
        let Ok((table, seat)) = Table::of_words(alloc, zeros.as_slice(), &fibers) else {
            return Err(Memory);
        };
        Ok((WordTable { table, fibers }, TableSeat { id: 0, seat }))
    }

    pub fn fibers(&self) -> u32
        ensures { result ≡ self.now.fibers }
    {
        self.fibers
    }

    pub fn split(&self, seat: &mut TableSeat, id: u32, begin: &Begin) -> TableSeat
        requires words { seat.old.seat.table_id ≡ self.now.table.shared.table_id }
        requires below { (id < self.now.fibers) × (id ≡ seat.old.seat.me.0.own.next) }
        requires range { (begin.now.next ≡ id + 1) × (begin.now.next ≤ begin.now.end)
            × (begin.now.end ≤ seat.old.seat.me.0.own.end) }
        ensures words { (seat.new.seat.table_id ≡ seat.old.seat.table_id)
            × (result.seat.table_id ≡ seat.old.seat.table_id) }
        ensures kept { seat.new.seat.me.0 ≡ kept_part begin.now seat.old.seat.me.0 }
        ensures given { result.seat.me.0 ≡ given_part begin.now seat.old.seat.me.0 }
    {
        self.split_as::<Brand>(seat, id, begin)
    }

    fn split_as<B: Given>(&self, seat: &mut TableSeat, id: u32, begin: &Begin) -> TableSeat
        requires given { begin.now ≡ B.begin }
        requires words { seat.old.seat.table_id ≡ self.now.table.shared.table_id }
        requires below { (id < self.now.fibers) × (id ≡ seat.old.seat.me.0.own.next) }
        requires range { (begin.now.next ≡ id + 1) × (begin.now.next ≤ begin.now.end)
            × (begin.now.end ≤ seat.old.seat.me.0.own.end) }
        ensures words { (seat.new.seat.table_id ≡ seat.old.seat.table_id)
            × (result.seat.table_id ≡ seat.old.seat.table_id) }
        ensures kept { seat.new.seat.me.0 ≡ kept_part begin.now seat.old.seat.me.0 }
        ensures given { result.seat.me.0 ≡ given_part begin.now seat.old.seat.me.0 }
    {
        let other = self.table.shared.split_seat::<SplitOff<B>>(&mut seat.seat);
        TableSeat { id, seat: other }
    }

    /// The stamp comes before the bit, so that who finds the bit finds it too. A request from outside
    /// has the stamp 0, and raises none.
    pub fn request(&self, seat: &mut TableSeat, id: u32, stamp: u64)
        requires words { seat.old.seat.table_id ≡ self.now.table.shared.table_id }
        requires below { id < self.now.fibers }
        ensures words { seat.new.seat.table_id ≡ seat.old.seat.table_id }
        ensures view { seat.new.seat.me.0
            ≡ with_own seat.old.seat.me.0 (asking id stamp seat.old.seat.me.0.own) }
    {
        let state = WORDS * id as usize;
        let shared = &self.table.shared;
        if stamp == 0 {
            shared.fetch_or::<AskFromOutside>(&mut seat.seat, state, REQUESTED);
        } else {
            shared.fetch_max::<Raise>(&mut seat.seat, state + REQUEST_STAMP, stamp);
            shared.fetch_or::<Ask>(&mut seat.seat, state, REQUESTED);
        }
    }

    pub fn look(&self, seat: &mut TableSeat) -> Option<u64>
        requires words { seat.old.seat.table_id ≡ self.now.table.shared.table_id }
        ensures words { seat.new.seat.table_id ≡ seat.old.seat.table_id }
        ensures view { seat.new.seat.me.0
            ≡ with_own seat.old.seat.me.0 (looking result seat.old.seat.me.0.own) }
        ensures knows { IsAsked seat.old.seat.me.0 → (t : ℕ) × (result ≡ Some t) }
        ensures greatest { IfSome result (λ stamp. (t : ℕ)
            → KnowsRequestStamp seat.old.seat.me.0 t → t ≤ stamp) }
    {
        let state = WORDS * seat.id as usize;
        let shared = &self.table.shared;
        if !StateWord(shared.load::<Look>(&mut seat.seat, state)).is_requested() {
            return None;
        }
        Some(shared.load::<LoadStamp>(&mut seat.seat, state + REQUEST_STAMP))
    }

    /// The value and the stamp come first, so that who finds done bits finds them too.
    pub fn finish(&self, seat: &mut TableSeat, outcome: Outcome, stamp: u64)
        requires words { seat.old.seat.table_id ≡ self.now.table.shared.table_id }
        requires running { seat.old.seat.me.0.own.ended ≡ None }
        ensures words { seat.new.seat.table_id ≡ seat.old.seat.table_id }
        ensures view { seat.new.seat.me.0
            ≡ with_own seat.old.seat.me.0 (finished outcome stamp seat.old.seat.me.0.own) }
    {
        let state = WORDS * seat.id as usize;
        let shared = &self.table.shared;
        shared.store::<Store>(&mut seat.seat, state + VALUE, value_word(outcome));
        shared.store::<StoreStamp>(&mut seat.seat, state + END_STAMP, stamp);
        shared.fetch_or::<End>(&mut seat.seat, state, done_bits(outcome));
    }

    pub fn peek(&self, seat: &mut TableSeat, id: u32) -> Option<(Outcome, u64)>
        requires words { seat.old.seat.table_id ≡ self.now.table.shared.table_id }
        requires below { id < self.now.fibers }
        ensures words { seat.new.seat.table_id ≡ seat.old.seat.table_id }
        ensures some { IfSome result (λ r. seat.new.seat.me.0
            ≡ with_own seat.old.seat.me.0 (peeked id r.0 r.1 seat.old.seat.me.0.own)) }
        ensures none { IfNone result (seat.new.seat.me.0 ≡ seat.old.seat.me.0) }
        ensures knows { (k : outcome.Outcome) → Knows seat.old.seat.me.0 id k
            → (t : ℕ) × (result ≡ Some (k, t)) }
        ensures stamp { IfSome result (λ r. (t : ℕ)
            → KnowsEndStamp seat.old.seat.me.0 id t → r.1 ≡ t) }
    {
        match self.tell(seat, id) {
            None => None,
            Some(kind) => {
                let outcome = self.learn(seat, id, kind);
                Some((outcome, self.learn_stamp(seat, id, kind)))
            }
        }
    }

    /// Of what kind a fiber's end is, if it has ended.
    fn tell(&self, seat: &mut TableSeat, id: u32) -> Option<EndKind>
        requires words { seat.old.seat.table_id ≡ self.now.table.shared.table_id }
        requires below { id < self.now.fibers }
        ensures words { seat.new.seat.table_id ≡ seat.old.seat.table_id }
        ensures told { (o : Option outcome.Outcome) × (result ≡ kind_in o)
            × (seat.new.seat.me.0 ≡ with_own seat.old.seat.me.0 (telling id o seat.old.seat.me.0.own))
            × ((k : outcome.Outcome) → Knows seat.old.seat.me.0 id k → o ≡ Some k) }
    {
        let shared = &self.table.shared;
        StateWord(shared.load::<Tell>(&mut seat.seat, WORDS * id as usize)).end()
    }

    /// How a fiber ended of which it was told that it has.
    fn learn(&self, seat: &mut TableSeat, id: u32, kind: EndKind) -> Outcome
        requires words { seat.old.seat.table_id ≡ self.now.table.shared.table_id }
        requires below { id < self.now.fibers }
        requires told { Among (id, kind) seat.old.seat.me.0.own.told }
        ensures words { seat.new.seat.table_id ≡ seat.old.seat.table_id }
        ensures kind { end_kind result ≡ kind }
        ensures view { seat.new.seat.me.0
            ≡ with_own seat.old.seat.me.0 (learning id result seat.old.seat.me.0.own) }
        ensures knows { (k : outcome.Outcome) → Knows seat.old.seat.me.0 id k → result ≡ k }
    {
        let shared = &self.table.shared;
        let value = shared.load::<Learn>(&mut seat.seat, WORDS * id as usize + VALUE);
        outcome_of(kind, value)
    }

    /// With which stamp a fiber ended of which it was told that it has.
    fn learn_stamp(&self, seat: &mut TableSeat, id: u32, kind: EndKind) -> u64
        requires words { seat.old.seat.table_id ≡ self.now.table.shared.table_id }
        requires below { id < self.now.fibers }
        requires told { Among (id, kind) seat.old.seat.me.0.own.told }
        ensures words { seat.new.seat.table_id ≡ seat.old.seat.table_id }
        ensures view { seat.new.seat.me.0
            ≡ with_own seat.old.seat.me.0 (learning_stamp id result seat.old.seat.me.0.own) }
        ensures knows { (t : ℕ) → KnowsEndStamp seat.old.seat.me.0 id t → result ≡ t }
    {
        let shared = &self.table.shared;
        shared.load::<LearnStamp>(&mut seat.seat, WORDS * id as usize + END_STAMP)
    }

    pub fn gather(&self, seat: &mut TableSeat, other: TableSeat)
        requires words { (seat.old.seat.table_id ≡ self.now.table.shared.table_id)
            × (other.seat.table_id ≡ self.now.table.shared.table_id) }
        ensures words { seat.new.seat.table_id ≡ seat.old.seat.table_id }
        ensures view { seat.new.seat.me.0 ≡ joined seat.old.seat.me.0 other.seat.me.0 }
    {
        self.table
            .shared
            .join_seat::<TakeIn>(&mut seat.seat, other.seat);
    }

    pub fn close(self, seat: TableSeat)
        requires words { seat.seat.table_id ≡ self.table.shared.table_id }
        requires whole { IsWhole seat.seat.me.0 }
        ensures settled { IsSettled seat.seat.me.0 }
        ensures once { AreSplitOffOnce seat.seat.me.0 }
    {
        let WordTable { table, fibers: _ } = self;
        let TableSeat { id: _, seat } = seat;
        table.close_with(seat).free();
    }
}
