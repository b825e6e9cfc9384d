// The times of a START.
ghost use Rattle.std.specs.Prelude.{◌≡◌, if◌then◌else◌, Ok, Err, option_and_then};
ghost use Rattle.cds_time.specs.Moment.{moment_of};
ghost use Rattle.sle_numbers.specs.ReturnProductionStatus.{number_of as production_number};
ghost use Rattle.archive_terms.specs.Delivery.{is_online};
ghost use Rattle.return_core.specs.Mode.{mode_of};
ghost use Rattle.return_service.specs.Span.{moments, is_no_moment, is_reversed, is_halted};

use cds_time::Cds;
use sle_numbers::{ReturnDeliveryMode, ReturnProductionStatus, ReturnStartDiagnostic};

/// Between which moments a START asks for frames, in picoseconds since 1958-01-01.
#[derive(Clone, Copy, Debug, PartialEq, Eq)]
pub struct Span {
    /// The first moment, where it is known.
    pub start: Option<u128>,
    /// The last moment, where it is known.
    pub stop: Option<u128>,
}

impl Span {
    /// The moments of a START's times, for an instance of this mode while production has this
    /// status; or why they are refused.
    pub fn of(
        mode: ReturnDeliveryMode,
        production: ReturnProductionStatus,
        start: Option<Cds>,
        stop: Option<Cds>,
    ) -> Result<Span, ReturnStartDiagnostic>
        ensures { result ≡ moments (mode_of mode) (production_number production) start stop }
    {
        let is_online = is_online(mode);
        if is_online && is_halted(production) {
            return Err(ReturnStartDiagnostic::OutOfService);
        }
        let span = Span {
            start: known(start, ReturnStartDiagnostic::InvalidStartTime)?,
            stop: known(stop, ReturnStartDiagnostic::InvalidStopTime)?,
        };
        if !is_online && (start.is_none() || stop.is_none()) {
            return Err(ReturnStartDiagnostic::MissingTimeValue);
        }
        if span.is_reversed() {
            return Err(ReturnStartDiagnostic::InvalidStopTime);
        }
        Ok(span)
    }

    // Whether the stop is below the start.
    fn is_reversed(&self) -> bool
        ensures { result ≡ is_reversed self.now }
    {
        match (self.start, self.stop) {
            (Some(start), Some(stop)) => stop < start,
            _ => false,
        }
    }
}

// The moment of a time that is known; where it names none, it is refused for this reason.
fn known(
    time: Option<Cds>,
    why: ReturnStartDiagnostic,
) -> Result<Option<u128>, ReturnStartDiagnostic>
    ensures { result ≡ (if is_no_moment time then Err why else Ok (option_and_then moment_of time)) }
{
    let Some(time) = time else {
        return Ok(None);
    };
    match time.moment() {
        Some(moment) => Ok(Some(moment)),
        None => Err(why),
    }
}

/// Whether a mode is an online one.
pub fn is_online(mode: ReturnDeliveryMode) -> bool
    ensures { result ≡ is_online (mode_of mode) }
{
    match mode {
        ReturnDeliveryMode::TimelyOnline | ReturnDeliveryMode::CompleteOnline => true,
        ReturnDeliveryMode::Offline => false,
    }
}

fn is_halted(production: ReturnProductionStatus) -> bool
    ensures { result ≡ is_halted (production_number production) }
{
    match production {
        ReturnProductionStatus::Halted => true,
        ReturnProductionStatus::Running | ReturnProductionStatus::Interrupted => false,
    }
}
