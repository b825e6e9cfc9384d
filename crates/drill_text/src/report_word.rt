// What a SCHEDULE-STATUS-REPORT asks for, as a word.

use sle_common::ReportKind;
use std::alloc::{AllocError, Global};
use words::{Short, Unread, Word};

const NOW: &[u8] = b"now";

const STOP: &[u8] = b"stop";

type Seconds = Short<0, 65_535>;

/// `now`, `stop`, or seconds from report to report.
pub struct ReportWord;

impl Word for ReportWord {
    ghost use Rattle.drill_text.specs.Kinds.{report};
    ghost use Rattle.sle_common.specs.declared.report_kind.ReportKind.{ReportKind};

    type Value = ReportKind;

    ghost Seen = { ReportKind };

    ghost kind = { report };

    ghost seen = { λ value. value };

    fn read(alloc: Global, word: &[u8]) -> Result<ReportKind, Unread> {
        if word == NOW {
            Ok(ReportKind::Now)
        } else if word == STOP {
            Ok(ReportKind::Stop)
        } else {
            Ok(ReportKind::Cycle(Seconds::read(alloc, word)?))
        }
    }

    fn write(value: &ReportKind, into: &mut Vec<u8>) -> Result<(), AllocError> {
        match value {
            ReportKind::Now => into.extend_from_slice(NOW),
            ReportKind::Stop => into.extend_from_slice(STOP),
            ReportKind::Cycle(seconds) => Seconds::write(seconds, into),
        }
    }
}
