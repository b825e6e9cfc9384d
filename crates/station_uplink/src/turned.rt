// How a turn went.

use crate::uplink_line::UplinkLine;

/// How a turn went.
#[derive(Debug, Drop, PartialEq, Eq)]
pub enum Turned {
    /// Nothing is in the air that it could end, so that nothing was done.
    Wrong,
    /// It was done, and nothing is said of it.
    Quiet,
    /// It was done, and this is said of it.
    Says(UplinkLine),
}
