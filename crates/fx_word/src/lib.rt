//! Requests and outcomes of fibers, as words that threads share without a lock.
//!
//! Each fiber number has four words of one table, which all begin as 0. A seat is what a fiber has of
//! them: who holds it acts for that fiber, on whatever thread. A request and an end have a stamp each,
//! a number that whoever makes them gives them, up to the greatest of 64 bits: above 0 for a request,
//! and 0 for one from outside.
//!
//! | word of a fiber | what it is | who changes it |
//! |---|---|---|
//! | state, its lowest bit | whether the fiber is requested; once set it stays | any seat, by `request` |
//! | state, the two done bits above it | 0 until the fiber has ended, then how: 1 it succeeded, 2 it erred, 3 it was canceled | its own seat, by `finish` |
//! | value | the number that it succeeded or erred with, there before the done bits are; 0 where it was canceled | its own seat, by `finish` |
//! | request's stamp | the greatest of the requests so far, there before their bit is; 0 where they are from outside | any seat, by `request` |
//! | end's stamp | the stamp of its end, there before the done bits are | its own seat, by `finish` |
//!
//! | what is done | by which seat | atomic steps | what changes | what is answered |
//! |---|---|---|---|---|
//! | `new` | none | none | all words are 0 | the main fiber's seat, with all other numbers in its range |
//! | `split` of a number | the one whose range begins with it | one, no word changes | its range leaves that one's | its seat, with that range |
//! | `request` of any number | any | two; one from outside | that number's request's stamp is raised, and then its request bit is set | nothing |
//! | `look` | any | one, and a second where the bit is set | nothing | where its own request bit is set, its own request's stamp |
//! | `finish` | any, once | three | its own value word and end's stamp are stored, and then its own done bits are set | nothing |
//! | `peek` at any number | any | one, and two more where done bits are set | nothing | where they are set, that number's outcome and the stamp of its end |
//! | `gather` of a seat | any | one, which changes no word | the seat that is gathered is no more, and what it knew its taker knows | nothing |
//! | `close` | the main fiber's, once it has gathered all | one | the words are given up | nothing |
//!
//! 1. A request bit is set exactly where some seat requested that number, and the done bits are those of
//!    the outcome that the number's own seat finished with: so a seat finds no request and no end that
//!    nobody made. The same holds of stamps: a request's stamp is the greatest that some seat requested
//!    that number with, and one that is found, too, is of a request that was made.
//! 2. What a seat knows stays: it finds again what it found, its own end, a request of its own number
//!    that it made, and what a seat knew that it gathered ([`laws`]). The stamp of an end stays the same,
//!    and that of a request never sinks.
//! 3. A number is split off at most once, and a seat is moved: so no fiber has two seats.
//! 4. `close` tells what the seats know of one another (`IsSettled`): a request that was seen was made,
//!    with each stamp that was loaded of it, an outcome that was learnt is what that number's seat
//!    finished with, and so is its stamp, and each seat but the main fiber's was split off by the one
//!    that it says, with what that one gave it to begin with. It tells too that each was split off once,
//!    by all of them together, and the main fiber's never (`AreSplitOffOnce`).
//! 5. `new` alone takes memory, and no call waits.
#![tactic(auto)]

mod entry;
pub mod laws;
mod seat_view;
mod state_word;
mod steps;
mod table_seat;
mod word_rule;
mod word_seat;
mod word_table;
mod words;

pub use word_seat::WordSeat;
pub use words::Words;
