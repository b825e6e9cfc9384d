// The status of a lock (CCSDS 911.1-B, annex A, LockStatus).
use crate::numbered::Numbered;
use std::fmt;

/// The status of a receiver's lock on carrier, subcarrier, symbols or frames.
#[derive(Clone, Copy, Debug, PartialEq, Eq)]
pub enum LockStatus {
    InLock = 0,
    OutOfLock = 1,
    NotInUse = 2,
    Unknown = 3,
}

impl Numbered for LockStatus {
    ghost use Rattle.sle_numbers.specs.LockStatus.{number_of, word_of, all, each};

    ghost number_of = { number_of };

    ghost word_of = { word_of };

    ghost all = { all };

    ghost each = { each };

    fn values() -> &'static [LockStatus] {
        &[
            LockStatus::InLock,
            LockStatus::OutOfLock,
            LockStatus::NotInUse,
            LockStatus::Unknown,
        ]
    }

    fn number(self) -> u8 {
        self as u8
    }

    fn word(self) -> &'static str {
        match self {
            LockStatus::InLock => "inLock",
            LockStatus::OutOfLock => "outOfLock",
            LockStatus::NotInUse => "notInUse",
            LockStatus::Unknown => "unknown",
        }
    }
}

impl fmt::Display for LockStatus {
    fn fmt<W: fmt::Write>(&self, f: &mut fmt::Formatter<W>) -> fmt::Result {
        f.write_str(self.word())
    }
}
