// Which frames a START of RAF asks for (CCSDS 911.1-B, annex A, RequestedFrameQuality).
use crate::numbered::Numbered;
use std::fmt;

/// Which frames a START of RAF asks for, by their quality.
#[derive(Clone, Copy, Debug, PartialEq, Eq)]
pub enum RequestedFrameQuality {
    GoodFramesOnly = 0,
    ErredFrameOnly = 1,
    /// Also those whose quality is undetermined.
    AllFrames = 2,
}

impl Numbered for RequestedFrameQuality {
    ghost use Rattle.sle_numbers.specs.RequestedFrameQuality.{number_of, word_of, all, each};

    ghost number_of = { number_of };

    ghost word_of = { word_of };

    ghost all = { all };

    ghost each = { each };

    fn values() -> &'static [RequestedFrameQuality] {
        &[
            RequestedFrameQuality::GoodFramesOnly,
            RequestedFrameQuality::ErredFrameOnly,
            RequestedFrameQuality::AllFrames,
        ]
    }

    fn number(self) -> u8 {
        self as u8
    }

    fn word(self) -> &'static str {
        match self {
            RequestedFrameQuality::GoodFramesOnly => "goodFramesOnly",
            RequestedFrameQuality::ErredFrameOnly => "erredFrameOnly",
            RequestedFrameQuality::AllFrames => "allFrames",
        }
    }
}

impl fmt::Display for RequestedFrameQuality {
    fn fmt<W: fmt::Write>(&self, f: &mut fmt::Formatter<W>) -> fmt::Result {
        f.write_str(self.word())
    }
}
