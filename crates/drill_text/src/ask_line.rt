// The messages that a peer sends.

use cds_time::Cds;
use octet_core::Octets;
use sle_common::{Gvcid, InstanceId, ReportKind};
use sle_numbers::RequestedFrameQuality;

/// A message that a peer sends, its credentials unused, its invoke id 0 and its port `PORT1`.
#[derive(Debug, Drop)]
pub enum AskLine {
    /// `context A B`: the transport's context.
    Context {
        /// The heartbeat interval in seconds.
        interval: u16,
        /// The dead factor.
        factor: u16,
    },
    /// `bind NAME SERVICE VERSION ID`: a BIND.
    Bind {
        /// The initiator, 3 to 16 characters from 21 to 7E.
        name: Octets,
        /// The service type.
        service: u16,
        /// The version, at least 1.
        version: u16,
        /// The service instance.
        id: InstanceId,
    },
    /// `unbind`: an UNBIND with the reason 0.
    Unbind,
    /// `start WHEN WHEN Q`: a START of RAF.
    StartRaf {
        /// The first time that is wanted.
        start: Option<Cds>,
        /// The last time that is wanted.
        stop: Option<Cds>,
        /// Which frames.
        quality: RequestedFrameQuality,
    },
    /// `start WHEN WHEN CHANNEL`: a START of RCF.
    StartRcf {
        /// The first time that is wanted.
        start: Option<Cds>,
        /// The last time that is wanted.
        stop: Option<Cds>,
        /// The channel.
        channel: Gvcid,
    },
    /// `start N`: a START of FCLTU.
    StartCltu {
        /// The first identification.
        first: u32,
    },
    /// `stop`: a STOP.
    Stop,
    /// `report now`, `report N`, `report stop`: a SCHEDULE-STATUS-REPORT.
    Report(ReportKind),
    /// `get N`: a GET-PARAMETER.
    Get {
        /// The parameter's name, a number.
        name: u16,
    },
    /// `cltu N WHEN WHEN DELAY NOTIFY HEX`: a TRANSFER-DATA.
    Cltu {
        /// The identification.
        id: u32,
        /// The earliest time of radiation.
        earliest: Option<Cds>,
        /// The latest time of radiation.
        latest: Option<Cds>,
        /// The delay behind it, in microseconds.
        radiation_delay: u32,
        /// Whether a notice is wanted: NOTIFY is 0.
        wanted: bool,
        /// The CLTU, 1 to 65,536 octets.
        octets: Octets,
    },
}
