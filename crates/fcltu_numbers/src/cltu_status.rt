// What became of a CLTU (CCSDS 912.1-B, annex A, CltuStatus).
use sle_numbers::Numbered;
use std::fmt;

/// What became of a CLTU that was taken from the queue. 3 and 5 of the standard's list belong to
/// another service.
#[derive(Clone, Copy, Debug, PartialEq, Eq)]
pub enum CltuStatus {
    Radiated = 0,
    /// Its latest time went by before it could be radiated.
    Expired = 1,
    /// Its radiation was interrupted.
    Interrupted = 2,
    RadiationStarted = 4,
}

impl Numbered for CltuStatus {
    ghost use Rattle.fcltu_numbers.specs.CltuStatus.{number_of, word_of, all, each};

    ghost number_of = { number_of };

    ghost word_of = { word_of };

    ghost all = { all };

    ghost each = { each };

    fn values() -> &'static [CltuStatus] {
        &[
            CltuStatus::Radiated,
            CltuStatus::Expired,
            CltuStatus::Interrupted,
            CltuStatus::RadiationStarted,
        ]
    }

    fn number(self) -> u8 {
        self as u8
    }

    fn word(self) -> &'static str {
        match self {
            CltuStatus::Radiated => "radiated",
            CltuStatus::Expired => "expired",
            CltuStatus::Interrupted => "interrupted",
            CltuStatus::RadiationStarted => "radiationStarted",
        }
    }
}

impl fmt::Display for CltuStatus {
    fn fmt<W: fmt::Write>(&self, f: &mut fmt::Formatter<W>) -> fmt::Result {
        f.write_str(self.word())
    }
}
