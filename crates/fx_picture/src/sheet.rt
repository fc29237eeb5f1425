//! Folds: which events stand in one row.
ghost use Rattle.std.specs.Prelude.{◌≡◌, ◌≤◌, length, IfOk};
ghost use Rattle.fx_picture.specs.Folds.{view_sheet, sheet_of, in_row};

use crate::drawn::Drawn;
use crate::layout::MOST_EVENTS;
use crate::stood::Stood;
use crate::tail::{Tail, is_quiet};
use fx_order::Occurrence;
use std::alloc::{AllocError, Global};

/// The events of a picture, each with its row, and how many rows there are.
#[derive(Drop)]
pub(crate) struct Sheet {
    pub drawn: Vec<Drawn>,
    pub rows: u32,
}

/// Gives each of these events a row of its own, or that of the one above it in its lane, where both are of one long run.
#[tactic(auto, using(crate::proofs::Sheets::tail_marked, crate::proofs::Sheets::marked_next))]
pub(crate) fn sheet_of(
    alloc: Global,
    stood: &[Stood],
    list: &[Occurrence],
) -> Result<Sheet, AllocError>
    requires { length list.now ≤ MOST_EVENTS }
    ensures is { IfOk result (λ sheet. view_sheet sheet ≡ sheet_of stood.now list.now) }
    ensures each { IfOk result (λ sheet. length sheet.drawn.items ≡ length list.now) }
{
    let mut drawn = Vec::new(alloc);
    let mut quiet = Vec::new(alloc);
    let mut rows = 0;
    let mut rest = list;
    while let Some((it, more)) = rest.split_first() {
        let tail = Tail::of(it.fiber, &drawn, &quiet);
        let joins = tail.takes(stood, *it, more);
        let row = if joins { tail.row } else { rows };
        drawn.push(Drawn { row, event: *it })?;
        quiet.push(is_quiet(stood, *it))?;
        rows = if joins { rows } else { rows + 1 };
        rest = more;
    }
    Ok(Sheet { drawn, rows })
}

/// The events in that row.
pub(crate) fn in_row(
    alloc: Global,
    row: u32,
    drawn: &[Drawn],
) -> Result<Vec<Occurrence>, AllocError>
    ensures { IfOk result (λ list. list.items ≡ in_row row drawn.now) }
{
    let mut list = Vec::new(alloc);
    let mut rest = drawn;
    while let Some((it, more)) = rest.split_first() {
        if it.row == row {
            list.push(it.event)?;
        }
        rest = more;
    }
    Ok(list)
}
