//! The places of the nodes of a code.
ghost use Rattle.std.specs.Prelude.{◌≡◌, ◌+◌, ◌<◌, ◌^◌, IfOk, length};
ghost use Rattle.fx_places.specs.declared.place.PlaceFault.TheVariants as faults;
ghost use Rattle.fx_places.specs.Places.{ArePlaces, positions_of};

use crate::form::Form;
use crate::position::{START, past};
use crate::walk::Walk;
use fx_term::Code;
use fx_text::Position;
use std::alloc::{AllocError, AllocFailed, Global};
use thiserror::Error;

/// A form of the text, and where its `(` stands.
#[derive(Clone, Copy, PartialEq, Eq, Debug)]
pub struct FormPlace {
    pub form: Form,
    pub position: Position,
}

/// Why there are no places.
#[derive(Clone, Copy, PartialEq, Eq, Debug, Error)]
pub enum PlaceFault {
    #[error("out of memory")]
    Memory,
    /// The code is not of this text.
    #[error("the code is not of this text")]
    Unfit,
}

impl From<AllocError> for PlaceFault {
    ghost from_gives = { λ _ fault. fault ≡ faults.Memory };

    fn from(_refused: AllocError) -> PlaceFault {
        PlaceFault::Memory
    }
}

impl<T: Drop> From<AllocFailed<T>> for PlaceFault {
    ghost from_gives = { λ _ fault. fault ≡ faults.Memory };

    fn from(_refused: AllocFailed<T>) -> PlaceFault {
        PlaceFault::Memory
    }
}

/// The places of the nodes of a code, in their order: that of the first node is the first. The text is the one that the
/// code was read from.
pub fn places(alloc: Global, text: &[u8], code: &Code) -> Result<Vec<FormPlace>, PlaceFault>
    requires { length text.now + 2 < 2 ^ 32 }
    ensures { IfOk result (λ places. ArePlaces text.now code.now.nodes places.items) }
{
    let mut walk = Walk::new(alloc);
    let mut position = START;
    let mut rest = text;
    while let Some((byte, inside)) = rest.split_first() {
        walk.step(code, position, *byte, inside)?;
        position = past(position, *byte);
        rest = inside;
    }
    walk.end(code)
}

/// The positions of these places.
pub fn positions(alloc: Global, places: &[FormPlace]) -> Result<Vec<Position>, AllocError>
    ensures { IfOk result (λ positions. positions.items ≡ positions_of places.now) }
{
    let mut positions = Vec::new(alloc);
    let mut rest = places;
    while let Some((place, more)) = rest.split_first() {
        positions.push(place.position)?;
        rest = more;
    }
    Ok(positions)
}
