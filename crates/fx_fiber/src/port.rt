//! What a fiber reaches of the outside.
ghost use Rattle.std.specs.Prelude.{◌≡◌, ◌<◌, ◌^◌, true, false, []};
ghost use Rattle.std.specs.Prelude.{IfSome, IfOk, IfNone, OnErr};
ghost use Rattle.std.specs.Bool.{OnTrue};
ghost use Rattle.fx_fiber.specs.Deed.{Started, Requested, Saw, Got, FoundEmpty, FoundEnded, Ended};
ghost use Rattle.fx_fiber.specs.Deed.{deed_of_offer};
ghost use Rattle.fx_fiber.specs.StampedDeed.{number_of_offer};
ghost use Rattle.fx_fiber.specs.Calls.{HasRange, range_after, puts_after, OnFull};
ghost use Rattle.fx_fiber.specs.PortFacts.{first_facts};
ghost use Rattle.fx_fiber.specs.Theory.{Theory, HasDone, HasDoneNothing};

use fx_model::Source;
use fx_term::{Begin, Memory, Offered, Outcome};

/// The port of one fiber: the calls by which the fiber reaches the outside. Its type names
/// the one code that its fibers run. Contracts know a call by its relation, and by the deed that it
/// adds to those that the port agrees with, with its number: the stamp of the event, or of what a call
/// found. The deeds are stored nowhere. A call that answers false,
/// none, full or want of memory has changed neither the port nor what is shared.
///
/// # To write a port
///
/// The ghost member `theory` says what contracts know of a port. The first four of its fields are of the port's
/// type, the others of a value:
///
/// | field | what it is |
/// |---|---|
/// | `code` | the nodes of the code, mostly `J.nodes` of a type `J` that names it |
/// | `total` | a number above that of each fiber, as the end of the main fiber's range |
/// | `may` | which numbers `outside` may be called with: some at least, since the checker takes no contract that no call can meet |
/// | `calls` | what each call does, by port and shared before it, what is given and answered, and both after it; a caller knows no more |
/// | `facts` | whose port it is, and how far its fiber has come by it: a record of the five below |
/// | `agrees` | what the port says of its fiber's deeds: of none at first, and of one more with each deed; `Unit {0}` where the calls say all |
///
/// The facts of a port, which are `first_facts` at first:
///
/// | fact | what it is |
/// |---|---|
/// | `number`, `beginning` | the fiber's number, and what it began with; no call changes them |
/// | `range` | the numbers left for the fibers that it starts: at first the range of `beginning`; a start takes a child's number and range |
/// | `has_finished` | false at first, and true from `finish` on |
/// | `puts` | 0 at first, and one more with each `offer` that is done |
///
/// Each call owes that it does what `calls` says of it, that the facts are as before but where this table
/// says otherwise, and its deed:
///
/// | call | its deed | what else it owes |
/// |---|---|---|
/// | `look` | `Saw` with the request's stamp, where there is a request | nothing has changed where there is none |
/// | `request` | `Requested` with its stamp | |
/// | `peek` | `FoundEnded` with the end's stamp, where there is an outcome | nothing has changed where there is none |
/// | `offer` | `Put` with its stamp, or `FoundFull` with 0 | `puts` is one more where done; nothing has changed where full, or where memory ran out |
/// | `take` | `Got` with the put's stamp, or `FoundEmpty` with 0 | nothing has changed where there is no element |
/// | `start` | `Started` with the child's stamp | a new port for the child; `range` begins after the child's range; nothing has changed where memory ran out |
/// | `finish` | `Ended` with its stamp | `has_finished` |
/// | `outside` | none | `agrees` holds of the deeds as before |
/// | `wait_on` | none | `agrees` holds of the deeds as before |
/// | `goes_on` | none | |
/// | `woken` | none, since it is no fiber's | its answer is below `total` |
///
/// A new port, the child's or the main fiber's, has the first facts of the number and the beginning that are
/// asked for, and agrees with no deed.
///
/// The port of a fiber that is alone: nobody requests it, no other takes a step, and there is no queue.
///
/// ```text
/// impl<J: CodeBrand> Port for Alone<J> {
///     type Shared = Global;
///
///     ghost theory = { record {
///       code = J.nodes;
///       total = 2 ^ 32;
///       may = λ id. true;
///       calls = record {
///         looks = λ p s found p' s'. (found ≡ None) × (p' ≡ p) × (s' ≡ s);
///         requests = λ p s id stamp p' s'. (p' ≡ p) × (s' ≡ s);
///         starts = λ p s id begin child p' s'. (p' ≡ record p { next = begin.end }) × (s' ≡ s);
///         ..
///       };
///       facts = λ p. record {
///         number = p.id;
///         beginning = p.begin;
///         range = record { next = p.next; end = p.begin.end };
///         has_finished = p.has_ended;
///         puts = 0;
///       };
///       agrees = λ p deeds. Unit {0};
///     } };
///
///     fn look(&mut self, _alloc: &mut Global) -> Option<u64> {
///         None
///     }
///
///     fn request(&mut self, _alloc: &mut Global, _id: u32, _stamp: u64) {}
///
///     fn start(&mut self, alloc: &mut Global, id: u32, begin: &Begin) -> Result<Alone<J>, Memory> {
///         let child = Alone::new(id, begin.copied(*alloc)?);
///         self.next = begin.end;
///         Ok(child)
///     }
///
///     ..
/// }
/// ```
pub trait Port: Sized {
    /// What the ports of one place have in common, lent to each call.
    type Shared;

    // what contracts know of a port of this type
    ghost theory: { Theory Self Self.Shared };

    /// The stamp of a request, if the fiber's cancellation is requested: that of a fiber's request, or 0
    /// where the request came from outside.
    fn look(&mut self, shared: &mut Self::Shared) -> Option<u64>
        ensures told { theory.calls.looks self.old shared.old result self.new shared.new }
        ensures facts { theory.facts self.new ≡ theory.facts self.old }
        ensures deed { IfSome result (λ stamp. HasDone theory Saw stamp self.old self.new) }
        ensures unchanged { IfNone result ((self.new ≡ self.old) × (shared.new ≡ shared.old)) };

    /// Requests the cancellation of a fiber, whatever its number is, by an event with this stamp.
    fn request(&mut self, shared: &mut Self::Shared, id: u32, stamp: u64)
        ensures told { theory.calls.requests self.old shared.old id stamp self.new shared.new }
        ensures facts { theory.facts self.new ≡ theory.facts self.old }
        ensures deed { HasDone theory (Requested id) stamp self.old self.new };

    /// The outcome of a fiber and the stamp of its end, if it has ended, whatever its number is.
    fn peek(&mut self, shared: &mut Self::Shared, id: u32) -> Option<(Outcome, u64)>
        ensures told { theory.calls.peeks self.old shared.old id result self.new shared.new }
        ensures facts { theory.facts self.new ≡ theory.facts self.old }
        ensures deed { IfSome result (λ end.
            HasDone theory (FoundEnded id end.0) end.1 self.old self.new) }
        ensures unchanged { IfNone result ((self.new ≡ self.old) × (shared.new ≡ shared.old)) };

    /// Puts this value at the back of a queue, where it has room (`tryOffer`), by an event with this stamp.
    /// A queue that there is not has none.
    fn offer(
        &mut self,
        shared: &mut Self::Shared,
        queue: u8,
        value: u64,
        stamp: u64,
    ) -> Result<Offered, Memory>
        requires countable { (theory.facts self.old).puts < 2 ^ 63 }
        ensures told { IfOk result (λ answer.
            theory.calls.offers self.old shared.old queue value stamp answer self.new shared.new) }
        ensures facts { IfOk result (λ answer. theory.facts self.new
            ≡ record (theory.facts self.old) { puts = puts_after answer (theory.facts self.old).puts }) }
        ensures deed { IfOk result (λ answer.
            HasDone theory (deed_of_offer queue value answer) (number_of_offer stamp answer)
            self.old self.new) }
        ensures full { IfOk result (λ answer. OnFull answer
            ((self.new ≡ self.old) × (shared.new ≡ shared.old))) }
        ensures unchanged { OnErr result ((self.new ≡ self.old) × (shared.new ≡ shared.old)) };

    /// Takes the front of a queue, if it has one (`tryTake`), and gives its value and the stamp of its put. A
    /// queue that there is not has none.
    fn take(&mut self, shared: &mut Self::Shared, queue: u8) -> Option<(u64, u64)>
        ensures told { theory.calls.takes self.old shared.old queue result self.new shared.new }
        ensures facts { theory.facts self.new ≡ theory.facts self.old }
        ensures deed { IfSome result (λ element.
            HasDone theory (Got queue element.0) element.1 self.old self.new) }
        ensures empty { IfNone result (HasDone theory (FoundEmpty queue) 0 self.old self.new) }
        ensures unchanged { IfNone result ((self.new ≡ self.old) × (shared.new ≡ shared.old)) };

    /// The port of a child that begins so. The child has the first number that is left, and its range
    /// follows that; what comes after its range is left for other children.
    fn start(&mut self, shared: &mut Self::Shared, id: u32, begin: &Begin) -> Result<Self, Memory>
        requires range { HasRange (theory.facts self.old).range id begin.now }
        requires going { (theory.facts self.old).has_finished ≡ false }
        ensures told { IfOk result (λ child.
            theory.calls.starts self.old shared.old id begin.now child self.new shared.new) }
        ensures child_facts { IfOk result (λ child. theory.facts child ≡ first_facts id begin.now) }
        ensures child_fresh { IfOk result (λ child. theory.agrees child []) }
        ensures facts { IfOk result (λ child. theory.facts self.new
            ≡ record (theory.facts self.old) { range = range_after begin.now (theory.facts self.old).range }) }
        ensures deed { IfOk result (λ child.
            HasDone theory (Started id begin.now) begin.now.stamp self.old self.new) }
        ensures unchanged { OnErr result ((self.new ≡ self.old) × (shared.new ≡ shared.old)) };

    /// Tells the outside how the fiber ended, by an event with this stamp.
    fn finish(&mut self, shared: &mut Self::Shared, outcome: Outcome, stamp: u64)
        requires going { (theory.facts self.old).has_finished ≡ false }
        ensures told { theory.calls.finishes self.old shared.old outcome stamp self.new shared.new }
        ensures facts { theory.facts self.new ≡ record (theory.facts self.old) { has_finished = true } }
        ensures deed { HasDone theory (Ended outcome) stamp self.old self.new };

    /// Requests the cancellation of a fiber from outside, whatever its number is. It is no deed of this
    /// port's fiber, and takes no memory: what it notes has its room since the port was made.
    fn outside(&mut self, shared: &mut Self::Shared, id: u32)
        requires may { theory.may id ≡ true }
        ensures told { theory.calls.outsides self.old shared.old id self.new shared.new }
        ensures facts { theory.facts self.new ≡ theory.facts self.old }
        ensures deed { HasDoneNothing theory self.old self.new };

    /// Registers the fiber with what it waits for, so that it is woken once that may have come. It is no
    /// deed.
    fn wait_on(&mut self, shared: &mut Self::Shared, source: Source)
        ensures told { theory.calls.waits self.old shared.old source self.new shared.new }
        ensures facts { theory.facts self.new ≡ theory.facts self.old }
        ensures deed { HasDoneNothing theory self.old self.new };

    /// Whether the fiber may make its next step at once, after one that put an element or took one.
    fn goes_on(&self, shared: &Self::Shared) -> bool
        ensures { OnTrue result (theory.calls.goes_on self.now shared.now) };

    /// Takes out the number of a fiber that is to be woken, if one is noted.
    fn woken(shared: &mut Self::Shared) -> Option<u32>
        ensures told { theory.calls.wakes shared.old result shared.new }
        ensures below { IfSome result (λ id. id < theory.total) };
}
