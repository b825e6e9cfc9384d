// The status of the uplink (CCSDS 912.1-B, annex A, UplinkStatus).
use sle_numbers::Numbered;
use std::fmt;

/// The status of the uplink, as the spacecraft's command link control words tell it.
#[derive(Clone, Copy, Debug, PartialEq, Eq)]
pub enum UplinkStatus {
    /// It isn't known.
    UplinkStatusNotAvailable = 0,
    /// The spacecraft receives no carrier.
    NoRfAvailable = 1,
    /// The spacecraft's receiver has no lock on bits.
    NoBitLock = 2,
    Nominal = 3,
}

impl Numbered for UplinkStatus {
    ghost use Rattle.fcltu_numbers.specs.UplinkStatus.{number_of, word_of, all, each};

    ghost number_of = { number_of };

    ghost word_of = { word_of };

    ghost all = { all };

    ghost each = { each };

    fn values() -> &'static [UplinkStatus] {
        &[
            UplinkStatus::UplinkStatusNotAvailable,
            UplinkStatus::NoRfAvailable,
            UplinkStatus::NoBitLock,
            UplinkStatus::Nominal,
        ]
    }

    fn number(self) -> u8 {
        self as u8
    }

    fn word(self) -> &'static str {
        match self {
            UplinkStatus::UplinkStatusNotAvailable => "uplinkStatusNotAvailable",
            UplinkStatus::NoRfAvailable => "noRfAvailable",
            UplinkStatus::NoBitLock => "noBitLock",
            UplinkStatus::Nominal => "nominal",
        }
    }
}

impl fmt::Display for UplinkStatus {
    fn fmt<W: fmt::Write>(&self, f: &mut fmt::Formatter<W>) -> fmt::Result {
        f.write_str(self.word())
    }
}
