// How a return service gives its frames (CCSDS 911.1-B, annex A, DeliveryMode).
use crate::numbered::Numbered;
use std::fmt;

/// How a return service gives its frames.
#[derive(Clone, Copy, Debug, PartialEq, Eq)]
pub enum ReturnDeliveryMode {
    /// As they come; what the user doesn't take in time is discarded.
    TimelyOnline = 0,
    /// As they come; all are kept until the user takes them.
    CompleteOnline = 1,
    /// From what is stored; all are kept until the user takes them.
    Offline = 2,
}

impl Numbered for ReturnDeliveryMode {
    ghost use Rattle.sle_numbers.specs.ReturnDeliveryMode.{number_of, word_of, all, each};

    ghost number_of = { number_of };

    ghost word_of = { word_of };

    ghost all = { all };

    ghost each = { each };

    fn values() -> &'static [ReturnDeliveryMode] {
        &[
            ReturnDeliveryMode::TimelyOnline,
            ReturnDeliveryMode::CompleteOnline,
            ReturnDeliveryMode::Offline,
        ]
    }

    fn number(self) -> u8 {
        self as u8
    }

    fn word(self) -> &'static str {
        match self {
            ReturnDeliveryMode::TimelyOnline => "rtnTimelyOnline",
            ReturnDeliveryMode::CompleteOnline => "rtnCompleteOnline",
            ReturnDeliveryMode::Offline => "rtnOffline",
        }
    }
}

impl fmt::Display for ReturnDeliveryMode {
    fn fmt<W: fmt::Write>(&self, f: &mut fmt::Formatter<W>) -> fmt::Result {
        f.write_str(self.word())
    }
}
