// When reports are due.
ghost use Rattle.std.specs.Prelude.{◌≡◌, ◌<◌};
ghost use Rattle.cds_time.specs.declared.cds.TheConstants.{MOMENT_END};

use sle_common::ReportKind;
use sle_numbers::ScheduleDiagnostic;

/// The shortest cycle, in seconds (CCSDS 911.1-B, reporting-cycle).
pub const SHORTEST_CYCLE: u16 = 2;

/// The longest cycle, in seconds (CCSDS 911.1-B, reporting-cycle).
pub const LONGEST_CYCLE: u16 = 600;

/// The picoseconds of a second, in which moments are told.
pub const PICOS_A_SECOND: u128 = 1_000_000_000_000;

/// When status reports are due. Moments are in picoseconds since 1958-01-01.
#[derive(Clone, Copy, Debug, PartialEq, Eq)]
pub struct Schedule {
    /// The seconds from report to report, where a cycle runs.
    pub cycle: Option<u16>,
    /// The moment from which on the next report is due, where one is to come.
    pub due: Option<u128>,
}

impl Schedule {
    ghost use Rattle.report_cycle.specs.Schedule.{refusal, unless, after_request, with_request};
    ghost use Rattle.report_cycle.specs.Schedule.{is_due, with_report};

    /// No cycle runs, and no report is due.
    pub const NO_REPORTS: Schedule = Schedule {
        cycle: None,
        due: None,
    };

    /// Takes what a user asks for in a round, of a service whose delivery is offline or isn't; or
    /// says why it is refused, and then leaves what runs.
    pub fn request(
        &mut self,
        is_offline: bool,
        kind: ReportKind,
        now: u128,
    ) -> Result<(), ScheduleDiagnostic>
        ensures answer { result ≡ unless (refusal is_offline self.old kind) }
        ensures after { self.new ≡ after_request is_offline kind now self.old }
    {
        if let Some(why) = self.refusal(is_offline, kind) {
            return Err(why);
        }
        self.take(kind, now);
        Ok(())
    }

    // Why what is asked for is refused, if it is.
    fn refusal(&self, is_offline: bool, kind: ReportKind) -> Option<ScheduleDiagnostic>
        ensures { result ≡ refusal is_offline self.now kind }
    {
        if is_offline {
            return Some(ScheduleDiagnostic::NotSupportedInThisDeliveryMode);
        }
        match kind {
            ReportKind::Stop if self.cycle.is_none() => Some(ScheduleDiagnostic::AlreadyStopped),
            ReportKind::Cycle(seconds) if !(SHORTEST_CYCLE..=LONGEST_CYCLE).contains(&seconds) => {
                Some(ScheduleDiagnostic::InvalidReportingCycle)
            }
            _ => None,
        }
    }

    // What is asked for isn't refused.
    fn take(&mut self, kind: ReportKind, now: u128)
        ensures { self.new ≡ with_request kind now self.old }
    {
        match kind {
            ReportKind::Now => self.due = Some(now),
            ReportKind::Cycle(seconds) => {
                self.cycle = Some(seconds);
                self.due = Some(now);
            }
            ReportKind::Stop => *self = Schedule::NO_REPORTS,
        }
    }

    /// Whether a report is due in a round of this moment.
    pub fn is_due(&self, now: u128) -> bool
        ensures { result ≡ is_due self.now now }
    {
        self.due.is_some_and(|moment| moment <= now)
    }

    /// A report is given at this moment.
    pub fn give(&mut self, now: u128)
        requires { now < MOMENT_END }
        ensures { self.new ≡ with_report now self.old }
    {
        self.due = match self.cycle {
            Some(seconds) => Some(now + u128::from(seconds) * PICOS_A_SECOND),
            None => None,
        };
    }
}
