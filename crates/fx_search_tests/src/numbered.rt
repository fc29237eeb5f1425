//! States that are lists of numbers.

use fx_search::{Row, RowSet};
use fx_term::Memory;
use std::alloc::Global;

/// A state that is just its row.
#[derive(Drop)]
pub struct Numbered {
    numbers: Vec<u32>,
}

impl Numbered {
    /// Its first number, or 0.
    pub fn first(&self) -> u32 {
        match self.numbers.first() {
            Some(&number) => number,
            None => 0,
        }
    }
}

impl Row for Numbered {
    ghost as_row = { λ state. state.numbers.items };

    fn numbers(&self) -> &[u32] {
        &self.numbers
    }

    fn into_numbers(self) -> Vec<u32> {
        self.numbers
    }

    fn from_numbers(numbers: Vec<u32>) -> Numbered {
        Numbered { numbers }
    }
}

/// The state of these numbers.
pub fn state_of(alloc: Global, row: &[u32]) -> Result<Numbered, Memory> {
    Ok(Numbered {
        numbers: Vec::from_slice(alloc, row)?,
    })
}

/// Whether the set has a row of each of these numbers alone, in that order, and no other.
pub fn rows_are(alloc: Global, rows: &RowSet, numbers: &[u32]) -> Result<bool, Memory> {
    for index in 0..numbers.len() {
        match rows.get(alloc, index)? {
            Some(row) if row.as_slice() == [numbers[index]].as_slice() => {}
            _ => return Ok(false),
        }
    }
    Ok(rows.len() == numbers.len())
}
