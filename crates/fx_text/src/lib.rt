//! Reads scripts and schedules.
//!
//! A text is read once, from left to right, up to its first fault. Of a script:
//!
//! 1. Each form has a row in one table: its parts in the order of the text, the scope in which each
//!    stands, and the term that the form is. A resource of `using`, the list of these, and what
//!    `join` does after an outcome with a number have a row each too.
//! 2. The grammar says by this table which tokens are a script, and of which meaning: declarations
//!    of queues, and then main. It knows no faults and no order of reading.
//! 3. Reading goes through the declarations and the same table token by token, and stops at the first
//!    token that its place refuses. What it reads is exactly what the grammar has.
//! 4. A scope has the names of its place, and how often the loops round it run it. A count is
//!    refused where it takes these turns above 1,000,000. Inside another fiber all names stay taken,
//!    but no poll from outside of it is known. The names of queues are known in all of main; they
//!    have the numbers of their declarations, and no slots. So no node names a queue that the script
//!    has not, and its code knows how many there are.
//! 5. How many fibers a form can start is tested at its `)`: the need of each node is kept beside it,
//!    made from those of its parts.
//! 6. A node is made after those of its parts, so children stand before their parents, the last node
//!    is the root, and there are never more than eight nodes a byte.
//! 7. A recursion is as deep as the parentheses that are open, of which there are at most 100. The
//!    parts of a form are read in a loop. Those of a `seq` and the resources of a `using`, of which
//!    there may be any number, are then made one term in another, from the last to the first.
//! 8. Want of memory is answered only where a growth was refused.
//!
//! Of a schedule, which is read word by word, the grammar and the reading are likewise two
//! definitions that say the same.
#![tactic(auto)]

mod fault;
mod form;
pub mod laws;
mod part;
mod pick;
mod place;
mod position;
mod queue_decl;
mod queues;
mod reader;
mod schedules;
mod scope;
mod script;
mod token;
mod top;

pub use fault::{TextFault, TextKind};
pub use pick::Pick;
pub use position::Position;
pub use queue_decl::QueueDecl;
pub use schedules::{MOST_SCHEDULE_BYTES, schedule};
pub use script::{MOST_SCRIPT_BYTES, Script, parse};
