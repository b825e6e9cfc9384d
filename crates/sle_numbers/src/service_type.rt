// What kind of service a BIND asks for (CCSDS 911.1-B, annex A, ApplicationIdentifier).
use crate::numbered::Numbered;
use std::fmt;

/// The service that a BIND asks for: those of the standard's list that this product has.
#[derive(Clone, Copy, Debug, PartialEq, Eq)]
pub enum ServiceType {
    /// Return all frames (RAF).
    RtnAllFrames = 0,
    /// Return channel frames (RCF).
    RtnChFrames = 2,
    /// Forward CLTU (FCLTU).
    FwdCltu = 16,
}

impl Numbered for ServiceType {
    ghost use Rattle.sle_numbers.specs.ServiceType.{number_of, word_of, all, each};

    ghost number_of = { number_of };

    ghost word_of = { word_of };

    ghost all = { all };

    ghost each = { each };

    fn values() -> &'static [ServiceType] {
        &[
            ServiceType::RtnAllFrames,
            ServiceType::RtnChFrames,
            ServiceType::FwdCltu,
        ]
    }

    fn number(self) -> u8 {
        self as u8
    }

    fn word(self) -> &'static str {
        match self {
            ServiceType::RtnAllFrames => "rtnAllFrames",
            ServiceType::RtnChFrames => "rtnChFrames",
            ServiceType::FwdCltu => "fwdCltu",
        }
    }
}

impl fmt::Display for ServiceType {
    fn fmt<W: fmt::Write>(&self, f: &mut fmt::Formatter<W>) -> fmt::Result {
        f.write_str(self.word())
    }
}
