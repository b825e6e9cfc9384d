// What a user does.
ghost use Rattle.std.specs.Prelude.{◌≡◌};
ghost use Rattle.user_task.specs.Work.{service_of, is_show, cltus_of, report_of};

use crate::cltus::{CltuLine, Cltus};
use cds_time::Cds;
use sle_common::Gvcid;
use sle_numbers::{RequestedFrameQuality, ServiceType};

/// What a user does with a service instance.
#[derive(Debug, Drop)]
pub enum Work {
    /// Nothing: it reads what came of this service.
    Show {
        service: ServiceType,
    },
    /// It receives frames of return all frames (CCSDS 911.1-B).
    Raf {
        /// Frames from this earth receive time on, where one is given.
        start: Option<Cds>,
        /// Frames up to this earth receive time, where one is given.
        stop: Option<Cds>,
        quality: RequestedFrameQuality,
        /// Seconds between the status reports that it asks for, where it asks for any.
        report: Option<u16>,
    },
    /// It receives frames of return channel frames (CCSDS 911.2-B).
    Rcf {
        /// Frames from this earth receive time on, where one is given.
        start: Option<Cds>,
        /// Frames up to this earth receive time, where one is given.
        stop: Option<Cds>,
        channel: Gvcid,
        /// Seconds between the status reports that it asks for, where it asks for any.
        report: Option<u16>,
    },
    /// It sends telecommands (CCSDS 912.1-B).
    Cltu {
        /// The identification that START says.
        first: u32,
        cltus: Cltus,
        /// Seconds between the status reports that it asks for, where it asks for any.
        report: Option<u16>,
    },
}

impl Work {
    /// The service that it is done with.
    pub fn service(&self) -> ServiceType
        ensures { result ≡ service_of self.now }
    {
        match self {
            Work::Show { service } => *service,
            Work::Raf { .. } => ServiceType::RtnAllFrames,
            Work::Rcf { .. } => ServiceType::RtnChFrames,
            Work::Cltu { .. } => ServiceType::FwdCltu,
        }
    }

    /// Whether it invokes nothing.
    pub fn is_show(&self) -> bool
        ensures { result ≡ is_show self.now }
    {
        matches!(self, Work::Show { .. })
    }

    /// The CLTUs that it sends.
    pub fn cltus(&self) -> &[CltuLine]
        ensures { result.now ≡ cltus_of self.now }
    {
        match self {
            Work::Cltu { cltus, .. } => cltus.lines(),
            _ => &[],
        }
    }

    /// Seconds between the status reports that it asks for, where it asks for any.
    pub fn report(&self) -> Option<u16>
        ensures { result ≡ report_of self.now }
    {
        match self {
            Work::Show { .. } => None,
            Work::Raf { report, .. } | Work::Rcf { report, .. } | Work::Cltu { report, .. } => {
                *report
            }
        }
    }
}
