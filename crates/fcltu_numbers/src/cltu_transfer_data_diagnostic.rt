// Why a CLTU isn't queued (CCSDS 912.1-B, annex A, DiagnosticCltuTransferData).
use sle_numbers::Numbered;
use std::fmt;

/// Why a CLTU isn't queued: a reason of TRANSFER-DATA's own.
#[derive(Clone, Copy, Debug, PartialEq, Eq)]
pub enum CltuTransferDataDiagnostic {
    /// The run is blocked.
    UnableToProcess = 0,
    /// The buffer has no room for it.
    UnableToStore = 1,
    /// Its identification isn't the next one.
    OutOfSequence = 2,
    /// Its earliest time is above its latest one.
    InconsistentTimeRange = 3,
    InvalidTime = 4,
    /// Its latest time has gone by.
    LateSldu = 5,
    InvalidDelayTime = 6,
    /// Its octets can't be radiated.
    CltuError = 7,
}

impl Numbered for CltuTransferDataDiagnostic {
    ghost use Rattle.fcltu_numbers.specs.CltuTransferDataDiagnostic.{number_of, word_of, all, each};

    ghost number_of = { number_of };

    ghost word_of = { word_of };

    ghost all = { all };

    ghost each = { each };

    fn values() -> &'static [CltuTransferDataDiagnostic] {
        &[
            CltuTransferDataDiagnostic::UnableToProcess,
            CltuTransferDataDiagnostic::UnableToStore,
            CltuTransferDataDiagnostic::OutOfSequence,
            CltuTransferDataDiagnostic::InconsistentTimeRange,
            CltuTransferDataDiagnostic::InvalidTime,
            CltuTransferDataDiagnostic::LateSldu,
            CltuTransferDataDiagnostic::InvalidDelayTime,
            CltuTransferDataDiagnostic::CltuError,
        ]
    }

    fn number(self) -> u8 {
        self as u8
    }

    fn word(self) -> &'static str {
        match self {
            CltuTransferDataDiagnostic::UnableToProcess => "unableToProcess",
            CltuTransferDataDiagnostic::UnableToStore => "unableToStore",
            CltuTransferDataDiagnostic::OutOfSequence => "outOfSequence",
            CltuTransferDataDiagnostic::InconsistentTimeRange => "inconsistentTimeRange",
            CltuTransferDataDiagnostic::InvalidTime => "invalidTime",
            CltuTransferDataDiagnostic::LateSldu => "lateSldu",
            CltuTransferDataDiagnostic::InvalidDelayTime => "invalidDelayTime",
            CltuTransferDataDiagnostic::CltuError => "cltuError",
        }
    }
}

impl fmt::Display for CltuTransferDataDiagnostic {
    fn fmt<W: fmt::Write>(&self, f: &mut fmt::Formatter<W>) -> fmt::Result {
        f.write_str(self.word())
    }
}
