//! Attributes of elements.

use crate::key::Key;

/// What an attribute is set to.
#[derive(Clone, Copy)]
pub enum Value<'a> {
    Number(u64),
    Words(&'a str),
}

/// An attribute, and what it is set to.
#[derive(Clone, Copy)]
pub struct Attribute<'a> {
    pub key: Key,
    pub value: Value<'a>,
}
