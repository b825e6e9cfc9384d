// How CLTUs are radiated (CCSDS 912.1-B, annex A, DeliveryMode).
use sle_numbers::Numbered;
use std::fmt;

/// How the forward service gives what it is handed: in one way.
#[derive(Clone, Copy, Debug, PartialEq, Eq)]
pub enum CltuDeliveryMode {
    /// CLTUs are radiated as they come.
    Online = 3,
}

impl Numbered for CltuDeliveryMode {
    ghost use Rattle.fcltu_numbers.specs.CltuDeliveryMode.{number_of, word_of, all, each};

    ghost number_of = { number_of };

    ghost word_of = { word_of };

    ghost all = { all };

    ghost each = { each };

    fn values() -> &'static [CltuDeliveryMode] {
        &[CltuDeliveryMode::Online]
    }

    fn number(self) -> u8 {
        self as u8
    }

    fn word(self) -> &'static str {
        match self {
            CltuDeliveryMode::Online => "fwdOnline",
        }
    }
}

impl fmt::Display for CltuDeliveryMode {
    fn fmt<W: fmt::Write>(&self, f: &mut fmt::Formatter<W>) -> fmt::Result {
        f.write_str(self.word())
    }
}
