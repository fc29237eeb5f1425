//! What is true of fibers: the rules of a running term, the runs by them, what a fiber sees of the
//! others, and which reports the fibers of a script can have.
//!
//! All of it speaks of whole terms. How a fiber keeps its term, who lets it step, and by which calls it
//! reaches the others is for the crates above, whose contracts cite these definitions. In reading
//! order, each in the file of its name in `specs/`:
//!
//! | definitions | what they say |
//! |---|---|
//! | `Path` | where a running term stands: the contexts round its leaf, what closes the place, and its clean-ups |
//! | `Origin` | what a fiber begins with: a term, and a range of fiber numbers |
//! | `Row` | the table of rules, from a term to the next one, with a label; and what a fiber counts beside its term |
//! | `Step` | the steps of a fiber: cancellation, a request that is seen, the table, the ends, and unwinding |
//! | `Run` | the runs of a fiber, and the events that they show |
//! | `Outside`, `Closed` | what a fiber sees of the others, and whether it can step; the same by the lists that a run left ([`Closed`]) |
//! | `Waiting`, `WaitsFor` | what a fiber waits for ([`Source`]), and whether that has come |
//! | `Work`, `NeedLeft`, `PutsLeft` | how many steps, fiber numbers and puts are left to a fiber at most |
//! | `Scopes` | which names and which numbers of fibers it uses |
//! | `Balanced`, `PairedMasks`, `MaskLaws` | what the laws of resources, of cancellation and of masks say of runs |
//! | `FiberReport`, `Report` | what is reported of a script's fibers ([`Report`]) |
//! | `LawfulReport` | the reports that such fibers can have |
//! | `Headline`, `Causes` | what a lawful report says once all its fibers have ended; and what each event of it stands on |
//! | `Stamps`, `KeptStamps` | the stamps of events, above those of their causes; and what one fiber keeps of them |
//! | `StampedQueue`, `ToldStamps` | how stamps go through a queue with its elements; what fibers, words and queues tell of them |
//! | `CountedStamps` | the traces of two scripts, with stamps that were counted by hand |
//!
//! The rules, of which a step makes one:
//!
//! 1. A place is open where nothing closes it: no mask but one that its poll opened, no acquire part,
//!    no release, and no wait for the end of a fiber that this one canceled.
//! 2. At an open place a fiber that is known to be canceled, or is at `canceled`, gives its term up for
//!    its clean-ups; it makes no other step there.
//! 3. At any other open place a request may be seen, and is known from then on.
//! 4. Or the table gives the step: a row for each leaf, and for each result with the context round it.
//!    What is a row of a part is one of the whole.
//! 5. A result with no context round it is the end of its fiber.
//! 6. Clean-ups run one after the other, from the inside out, each as a term of its own in which no
//!    place is open. After the last one the fiber has ended as canceled.
//!
//! The answers of the outside are read off the labels: an event that needed another fiber's outcome has
//! that in its label, and a start what the child begins with.
//!
//! What follows from these definitions alone are the [`laws`]:
//!
//! | laws of | what they say |
//! |---|---|
//! | [`laws::origins`] | the main fiber begins with the term of its code |
//! | [`laws::resources`] | what a fiber acquired is released once it has ended, each once, inner before outer |
//! | [`laws::cancellation`] | a fiber is canceled only where each mask round it is opened by its own poll |
//! | [`laws::masks`] | which forms of masks, polls and finalizers show the same as simpler ones |
//! | [`laws::scopes`] | names stay bound, and a fiber reaches only fibers whose numbers were given to it |
//! | [`laws::ranges`], [`laws::puts`] | starts take their numbers in the fiber's range; puts are bounded by the term |
//! | [`laws::waits`] | a fiber that waits can step exactly where what it waits for has come |
//! | [`laws::reports`] | a lawful report has what is promised; what an event stands on is there |
//! | [`laws::stamps`] | stamps put the events in one order in which causes come first; what is told of them makes them so |
#![tactic(auto)]

mod closed;
mod fiber_report;
pub mod laws;
mod report;
mod source;

pub use closed::Closed;
pub use fiber_report::{FiberReport, State};
pub use report::Report;
pub use source::Source;
