// Where an index stood.

use crate::totals::Totals;

/// Where an index stood, to which it can go back.
#[derive(Clone, Copy, Debug)]
pub struct Mark {
    pub(crate) count: u64,
    pub(crate) totals: Totals,
}
