//! Sets of rows.
ghost use Rattle.std.specs.Prelude.{◌<◌};

use fx_search::{Inserted, RowSet};
use fx_term::Memory;
use std::alloc::Global;
use std::test::Fail;

/// Rows at the border between numbers that have one half, of 16 bits, and those that have three; among them some that would have
/// the same halves if 65,535 had one or if nothing told how many a number has; and rows of zeros, whose hashes agree.
static ROWS: [&[u32]; 20] = [
    &[],
    &[0],
    &[0, 0],
    &[0, 0, 0],
    &[65_534],
    &[65_535],
    &[65_536],
    &[65_537],
    &[131_071],
    &[u32::MAX],
    &[65_535, 0],
    &[0, 65_535],
    &[0, 1],
    &[1, 65_535, 65_535],
    &[65_538],
    &[1, 2],
    &[65_535, 1, 2],
    &[65_535, 0, 65_535],
    &[65_535, 65_535, 65_535],
    &[65_534, 65_536, 7, 4_294_901_760],
];

/// Whether that row is read from the set at its index.
fn is_read(alloc: Global, set: &RowSet, index: usize) -> Result<bool, Memory>
    requires { index < 20 }
{
    match set.get(alloc, index)? {
        Some(row) => Ok(row.as_slice() == ROWS[index]),
        None => Ok(false),
    }
}

#[test]
fn rows_are_told_apart_and_read_again(rt: HostRuntime) -> Result<(), Fail> {
    let mut set = RowSet::new(rt.alloc())?;
    for row in &ROWS {
        assert!(rt; set.insert(row)? == Inserted::New);
    }
    for index in 0..20 {
        assert!(rt; set.insert(ROWS[index])? == Inserted::There(index));
        assert!(rt; set.index_of(ROWS[index]) == Some(index));
        assert!(rt; is_read(rt.alloc(), &set, index)?);
    }
    assert!(rt; set.index_of(&[1]).is_none() && set.index_of(&[0, 0, 0, 0]).is_none());
    assert!(rt; set.len() == 20 && set.get(rt.alloc(), 20)?.is_none());
    Ok(())
}

#[test]
fn rows_are_found_once_there_are_more_slots(rt: HostRuntime) -> Result<(), Fail> {
    let mut set = RowSet::new(rt.alloc())?;
    for number in 0..1_000u32 {
        assert!(rt; set.insert(&[number, 7 * number])? == Inserted::New);
    }
    for number in 0..1_000u32 {
        assert!(rt; set.insert(&[number, 7 * number])? == Inserted::There(number as usize));
    }
    assert!(rt; set.len() == 1_000);
    Ok(())
}
