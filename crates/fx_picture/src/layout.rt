//! Where what is drawn stands, in pixels.
ghost use Rattle.std.specs.Prelude.{◌≡◌, ◌≤◌, ◌<◌, length};
ghost use Rattle.fx_picture.specs.Layout.{lane_of, lane_x, row_y, band_y, height};

use fx_model::FiberReport;

/// The middle of the first lane, and from one to the next. The legend stands left of them.
pub(crate) const FIRST_LANE: u64 = 260;

pub(crate) const LANE: u64 = 112;

/// The middle of the first row, and from one to the next.
pub(crate) const FIRST_ROW: u64 = 64;

pub(crate) const ROW: u64 = 18;

/// After how many rows the names of lanes are said again, how much room they take, and how far above the middle of the
/// next row they have their base line.
pub(crate) const AGAIN: u32 = 40;

pub(crate) const BAND: u64 = 24;

pub(crate) const BACK: u64 = 17;

/// Where lanes begin, and the two lines of words above them.
pub(crate) const TOP: u64 = 44;

pub(crate) const ABOVE: u64 = 20;

pub(crate) const NEXT_ABOVE: u64 = 36;

/// How far below the last row lanes end, the two lines of words below them stand, and the picture ends.
pub(crate) const BOTTOM: u64 = 10;

pub(crate) const BELOW: u64 = 28;

pub(crate) const NEXT_BELOW: u64 = 44;

pub(crate) const FOOT: u64 = 60;

/// How far below the middle of a row its words have their base line.
pub(crate) const BASE: u64 = 4;

/// Where the legend ends.
pub(crate) const LEGEND_BOTTOM: u64 = 432;

/// How many events, fibers and queues a picture has at most, of each.
pub const MOST_EVENTS: usize = 20_000;

/// How often the names of lanes are said again at most.
pub(crate) const BANDS: u32 = 107_374_182;

/// How many lanes that can be.
pub(crate) const MOST_LANES: usize = 40_000;

/// The lane of the fiber of that number: how many fibers stand before it.
pub(crate) fn lane_of(fibers: &[FiberReport], fiber: u32) -> usize
    ensures lane { result ≡ lane_of fibers.now fiber }
    ensures within { result ≤ length fibers.now }
{
    let mut lane = 0;
    let mut rest = fibers;
    while let Some((it, more)) = rest.split_first() {
        if it.id == fiber {
            break;
        }
        lane += 1;
        rest = more;
    }
    lane
}

pub(crate) fn lane_x(lane: usize) -> u64
    requires { lane ≤ MOST_LANES }
    ensures { result ≡ lane_x lane }
{
    FIRST_LANE + lane as u64 * LANE
}

pub(crate) fn row_y(row: u32) -> u64
    ensures { result ≡ row_y row }
{
    FIRST_ROW + row as u64 * ROW + (row / AGAIN) as u64 * BAND
}

/// The base line of the names that are said again there, counted from 0.
pub(crate) fn band_y(band: u32) -> u64
    requires { band < BANDS }
    ensures { result ≡ band_y band }
{
    row_y((band + 1) * AGAIN) - BACK
}

/// How high a picture with so many rows is.
pub(crate) fn height(rows: u32) -> u64
    ensures { result ≡ height rows }
{
    (row_y(rows) + FOOT).max(LEGEND_BOTTOM)
}
