//! The masks of a fiber: which regions close the place where it stands.
//!
//! A mask closes a region, and its poll opens that region alone, while it is the innermost. A seal
//! closes a place that no poll opens. The fiber can be canceled where nothing is closed.
//!
//! | what is done | what closes the place, the innermost first | regions ever entered | regions opened |
//! |---|---|---|---|
//! | `new` | nothing | 0 | 0 |
//! | `enter` | a new region, and all that did | one more | the same |
//! | `seal` | a seal, and all that did | the same | the same |
//! | `leave` | all but the innermost | the same | the same |
//! | `open`, of the innermost | all but that region | the same | one more |
//! | `open`, of any other region | all that did | the same | the same |
//! | `reclose` | that region, and all that did | the same | one less |
//!
//! 1. The number of a region is that of the entries before it, so no two entries give the same.
//!    `reclose` closes whatever region it is given, but one of the greatest number, which none has that was
//!    opened: that it is one of these, the last one first, is for the caller to see to.
//! 2. A region is opened only while it is the innermost: a poll opens no mask inside or outside its own.
//! 3. Nothing opens a seal.
//! 4. There is room for each opened region to be closed again, so `reclose` needs no memory.
//! 5. Where memory runs out nothing has changed.
#![tactic(auto)]

mod masks;
mod member;

pub use masks::{Masks, Region};
