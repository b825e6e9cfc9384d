// Where things stand in a picture, in pixels.

use crate::lane::{Lane, Mark};

/// How wide a column is.
pub const COLUMN: u32 = 72;

/// How high a row is.
pub const ROW: u32 = 22;

/// How high a row of upright texts is.
pub const UPRIGHT: u32 = 104;

/// How wide the names are.
pub const NAMES: u32 = 150;

// What is free above a lane's rows and below them, together.
const FREE: u32 = 6;

/// How high a lane is.
pub fn height_of(lane: &Lane) -> u32 {
    let more = if lane.is_upright() { UPRIGHT - ROW } else { 0 };
    lane.rows()
        .saturating_mul(ROW)
        .saturating_add(more)
        .saturating_add(FREE)
}

/// Where a mark begins, from the left.
pub fn left_of(mark: &Mark) -> u32 {
    mark.from.saturating_mul(COLUMN)
}

/// Where a mark begins, from the top of its lane.
pub fn top_of(mark: &Mark) -> u32 {
    mark.row.saturating_mul(ROW).saturating_add(FREE / 2)
}

/// How wide a mark is: as its columns, but for a gap before the next one.
pub fn width_of(mark: &Mark) -> u32 {
    columns_of(mark).saturating_mul(COLUMN).saturating_sub(2)
}

/// Over how many columns a mark goes, one at least.
pub fn columns_of(mark: &Mark) -> u32 {
    mark.to.saturating_sub(mark.from).max(1)
}
