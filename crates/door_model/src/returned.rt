// A link that was given back.

use crate::Served;

/// A link that was given back to a door, with how its serving ended.
#[derive(Debug, Drop)]
pub struct Returned<L> {
    pub link: L,
    pub served: Served,
}
