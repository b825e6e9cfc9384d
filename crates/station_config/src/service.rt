// What an instance offers.
ghost use Rattle.std.specs.Prelude.{◌≡◌};
ghost use Rattle.station_config.specs.Validity.{is_forward, service_type};

use crate::channels::Channels;
use sle_numbers::{ReturnDeliveryMode, ServiceType};

/// What a service instance offers.
#[derive(Clone, Debug, Drop)]
pub enum Service {
    /// Return all frames (CCSDS 911.1-B).
    Raf {
        /// How it gives its frames.
        mode: ReturnDeliveryMode,
        /// Items of a transfer buffer, 1 to 1,000.
        size: u32,
        /// Seconds, 1 to 3,600; 0 for offline.
        latency: u32,
    },
    /// Return channel frames (CCSDS 911.2-B).
    Rcf {
        /// How it gives its frames.
        mode: ReturnDeliveryMode,
        /// Items of a transfer buffer, 1 to 1,000.
        size: u32,
        /// Seconds, 1 to 3,600; 0 for offline.
        latency: u32,
        /// The channels that a START may ask for, 1 to 8.
        channels: Channels,
    },
    /// Forward CLTU (CCSDS 912.1-B).
    Cltu {
        /// Octets of telecommands that may wait, 1 to 16,777,216.
        room: u32,
        /// Octets of the longest telecommand, 1 to 65,536.
        longest: u32,
    },
}

impl Service {
    /// Whether it is a forward service. A station has one at most.
    pub fn is_forward(&self) -> bool
        ensures { result ≡ is_forward self.now }
    {
        match self {
            Service::Cltu { .. } => true,
            _ => false,
        }
    }

    /// The type by which a BIND asks for it.
    pub fn service_type(&self) -> ServiceType
        ensures { result ≡ service_type self.now }
    {
        match self {
            Service::Raf { .. } => ServiceType::RtnAllFrames,
            Service::Rcf { .. } => ServiceType::RtnChFrames,
            Service::Cltu { .. } => ServiceType::FwdCltu,
        }
    }
}
