//! A seat of the table that the words are.
ghost use Rattle.std.specs.Prelude.{◌≡◌, ◌+◌, ◌*◌, ◌<◌, false, []};

use crate::seat_view::SeatView;
use atomic_table::Seat;

/// A seat of the table, with its fiber's number, whose words are in the table.
#[derive(Drop)]
pub(crate) struct TableSeat {
    pub id: u32,
    pub seat: Seat<(), SeatView>,
    ghost placed: { (id ≡ seat.me.0.own.id) × (4 * id + 3 < seat.table_id.words) },
    ghost plain: { (seat.me.1 ≡ []) × (seat.me.0.spent ≡ false) },
}
