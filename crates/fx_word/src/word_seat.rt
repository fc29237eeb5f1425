//! What a fiber knows of the words.
ghost use Rattle.std.specs.Prelude.{◌≡◌};

use crate::table_seat::TableSeat;
use std::marker::Model;

/// What the fiber of one number did to the words and learnt of them. Its only byte content is that
/// number; all else contracts alone see.
#[derive(Drop)]
pub struct WordSeat {
    pub(crate) seat: TableSeat,
}

impl Model for WordSeat {
    ghost use Rattle.fx_word.specs.Words.{Seated};

    ghost Value = { Seated };

    ghost view = { λ s. record { table = s.seat.seat.table_id; view = s.seat.seat.me.0 } };
}

impl WordSeat {
    /// The number of the seat's fiber.
    pub fn id(&self) -> u32
        ensures { result ≡ self.now.view.own.id }
    {
        self.seat.id
    }
}
