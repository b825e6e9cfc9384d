// What a step of the recorder did.

use frame_archive::OfferFault;
use record_form::Entries;

/// What a step stored and dropped.
#[derive(Debug, Drop)]
pub struct Recorded {
    /// What was stored, in order: it is to be published.
    pub entries: Entries,
    /// How many entries were dropped as backward or too long.
    pub refused: u64,
    /// How many entries were dropped as full.
    pub full: u64,
    /// Why the last of these was dropped.
    pub refusal: Option<OfferFault>,
    /// How many entries the archive had behind the step's reopen, where one was made.
    pub reopened: Option<u64>,
    /// Whether the source's last answer was that no entry comes any more.
    pub last: bool,
}
