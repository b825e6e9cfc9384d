// The quality of a frame (CCSDS 911.1-B, annex A, FrameQuality).
use crate::numbered::Numbered;
use std::fmt;

/// The quality of a frame.
#[derive(Clone, Copy, Debug, PartialEq, Eq)]
pub enum FrameQuality {
    /// Its decoding found no error that is left.
    Good = 0,
    /// Its decoding found errors that it couldn't correct.
    Erred = 1,
    /// It wasn't told whether it has errors.
    Undetermined = 2,
}

impl Numbered for FrameQuality {
    ghost use Rattle.sle_numbers.specs.FrameQuality.{number_of, word_of, all, each};

    ghost number_of = { number_of };

    ghost word_of = { word_of };

    ghost all = { all };

    ghost each = { each };

    fn values() -> &'static [FrameQuality] {
        &[
            FrameQuality::Good,
            FrameQuality::Erred,
            FrameQuality::Undetermined,
        ]
    }

    fn number(self) -> u8 {
        self as u8
    }

    fn word(self) -> &'static str {
        match self {
            FrameQuality::Good => "good",
            FrameQuality::Erred => "erred",
            FrameQuality::Undetermined => "undetermined",
        }
    }
}

impl fmt::Display for FrameQuality {
    fn fmt<W: fmt::Write>(&self, f: &mut fmt::Formatter<W>) -> fmt::Result {
        f.write_str(self.word())
    }
}
