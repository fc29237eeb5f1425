//! Pictures as text: a tree of elements, written as SVG.
//!
//! Its rules:
//!
//! 1. What is written is exactly the rendering of a tree of elements, piece by piece: a start tag with its
//!    attributes, what stands in the element, its end tag and the end of the line.
//! 2. Words and values are escaped character by character, so that they are read as they were given. A
//!    character that no XML text may have is written as the replacement character.
//! 3. Each rendering of an element of which no element has an attribute twice is a well-formed document of
//!    XML: that is a law, in [`laws`].
//! 4. Where memory runs out the text is what it was, and so much of the piece as there was room for.
//!
//! What never happens: a stray `<`, `&` or quote; a start tag without its end tag.
#![tactic(auto)]

mod attribute;
mod escape;
mod key;
pub mod laws;
mod tag;
mod write;

pub use attribute::{Attribute, Value};
pub use escape::push_words;
pub use key::Key;
pub use tag::Tag;
pub use write::{push_element, push_empty_element, push_end_tag, push_start_tag};
