// What a line of a transcript says.

use drill_text::EndWord;
use octet_core::Octets;

/// What a line of a transcript says, as `TranscriptLine` of `drill_text` has it, with octets of its
/// own.
#[derive(Debug, Drop)]
pub enum Transcribed {
    /// `sent C HEX`: an offer was taken whole.
    Sent { c: u32, octets: Octets },
    /// `stalled C`: an offer stalled.
    Stalled { c: u32 },
    /// `discarded C N`: a timely buffer of so many items was discarded.
    Discarded { c: u32, n: u32 },
    /// `ended C W`: a connection ended.
    Ended { c: u32, word: EndWord },
    /// `backward`: an entry was refused for its time.
    Backward,
    /// `too long`: a frame was refused for its length.
    TooLong,
    /// `full NEED FREE`: an entry was refused for want of room, both in octets.
    Full { need: u64, free: u64 },
    /// `fault`: a store failed.
    Fault,
    /// `crash`: the stop happened.
    Crash,
    /// `archive N`: the entries behind a reopen or a restart.
    Archive { entries: u64 },
    /// `radiated ID HEX`: a take sent a CLTU.
    Radiated { id: u32, octets: Octets },
    /// `expired ID`: a take found a CLTU expired.
    Expired { id: u32 },
    /// `waits`: a take found one that waits for its time.
    Waits,
    /// `idle`: a take found none.
    Idle,
    /// `failed ID`: a take's send failed.
    Failed { id: u32 },
    /// `refused 3`: the desk refused a START.
    Refused,
}
