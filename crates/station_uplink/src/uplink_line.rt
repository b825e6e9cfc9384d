// What a turn says in the transcript.
ghost use Rattle.std.specs.Prelude.{◌≡◌};
ghost use Rattle.drill_text.specs.Transcript.{said};
ghost use Rattle.station_uplink.specs.Turns.{says_of};

use drill_text::TranscriptLine;
use octet_core::Octets;

/// What a turn says in the transcript.
#[derive(Debug, Drop, PartialEq, Eq)]
pub enum UplinkLine {
    /// A CLTU was taken, and its octets were sent.
    Radiated { id: u32, octets: Octets },
    /// A CLTU was taken, and its send failed.
    Failed { id: u32 },
    /// The next CLTU's latest time has passed, and all that waited was discarded.
    Expired { id: u32 },
    /// The next CLTU waits for its time.
    Waits,
    /// Nothing may radiate.
    Idle,
}

impl UplinkLine {
    /// The line of the transcript that says it.
    pub fn line(&self) -> TranscriptLine<'_>
        ensures { said result ≡ says_of self.now }
    {
        match self {
            UplinkLine::Radiated { id, octets } => TranscriptLine::Radiated {
                id: *id,
                octets: octets.as_slice(),
            },
            UplinkLine::Failed { id } => TranscriptLine::Failed { id: *id },
            UplinkLine::Expired { id } => TranscriptLine::Expired { id: *id },
            UplinkLine::Waits => TranscriptLine::Waits,
            UplinkLine::Idle => TranscriptLine::Idle,
        }
    }
}
