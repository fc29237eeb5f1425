//! Where an event is drawn.
ghost use Rattle.std.specs.Prelude.{◌≡◌, ◌≤◌, length};
ghost use Rattle.fx_picture.specs.Layout.{lane_of, lane_x, row_y};

use crate::elements::Point;
use crate::layout::{MOST_EVENTS, lane_of, lane_x, row_y};
use fx_model::FiberReport;
use fx_order::Occurrence;

/// An event, and the row where it is drawn.
#[derive(Clone, Copy)]
pub(crate) struct Drawn {
    pub row: u32,
    pub event: Occurrence,
}

/// Where the mark of an event stands.
pub(crate) fn place_of(fibers: &[FiberReport], it: Drawn) -> Point
    requires { length fibers.now ≤ MOST_EVENTS }
    ensures x { result.x ≡ lane_x (lane_of fibers.now it.event.fiber) }
    ensures y { result.y ≡ row_y it.row }
{
    Point {
        x: lane_x(lane_of(fibers, it.event.fiber)),
        y: row_y(it.row),
    }
}
