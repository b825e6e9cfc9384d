// The CLTU that was processed last.

use cds_time::Cds;
use fcltu_numbers::CltuStatus;

/// The CLTU that was processed last (CCSDS 912.1-B, cltu-last-processed).
#[derive(Clone, Copy, Debug, PartialEq, Eq)]
pub enum Processed {
    /// None since the START.
    None,
    /// This one.
    Some {
        /// Its identification.
        id: u32,
        /// When its radiation began, where it did.
        start: Option<Cds>,
        /// What became of it.
        status: CltuStatus,
    },
}
