// What the line of a service instance says.
ghost use Rattle.std.specs.Prelude.{◌≡◌};
ghost use Rattle.station_config.specs.Drafts.{id_of, owner_of, timeout_of, service_of};
ghost use Rattle.station_config.specs.Validity.{is_forward};

use crate::channels::Channels;
use crate::instance::Instance;
use crate::service::Service;
use octet_core::Octets;
use sle_common::InstanceId;
use sle_numbers::ReturnDeliveryMode;

/// What the line of a service instance says.
#[derive(Drop)]
pub(crate) enum InstanceLine {
    /// `raf ID OWNER MODE SIZE LATENCY TIMEOUT`.
    Raf {
        id: InstanceId,
        owner: Octets,
        mode: ReturnDeliveryMode,
        size: u32,
        latency: u32,
        timeout: u16,
    },
    /// `rcf ID OWNER MODE SIZE LATENCY TIMEOUT CHANNEL..`.
    Rcf {
        id: InstanceId,
        owner: Octets,
        mode: ReturnDeliveryMode,
        size: u32,
        latency: u32,
        timeout: u16,
        channels: Channels,
    },
    /// `cltu ID OWNER ROOM LONGEST TIMEOUT`.
    Cltu {
        id: InstanceId,
        owner: Octets,
        room: u32,
        longest: u32,
        timeout: u16,
    },
}

impl InstanceLine {
    pub(crate) fn id(&self) -> &InstanceId
        ensures { result.now ≡ id_of self.now }
    {
        match self {
            InstanceLine::Raf { id, .. } => id,
            InstanceLine::Rcf { id, .. } => id,
            InstanceLine::Cltu { id, .. } => id,
        }
    }

    pub(crate) fn owner(&self) -> &[u8]
        ensures { result.now ≡ owner_of self.now }
    {
        match self {
            InstanceLine::Raf { owner, .. } => owner.as_slice(),
            InstanceLine::Rcf { owner, .. } => owner.as_slice(),
            InstanceLine::Cltu { owner, .. } => owner.as_slice(),
        }
    }

    /// Whether it is a forward instance.
    pub(crate) fn is_forward(&self) -> bool
        ensures { result ≡ is_forward (service_of self.now) }
    {
        match self {
            InstanceLine::Cltu { .. } => true,
            _ => false,
        }
    }

    /// The instance that it says, of the peer at this place.
    pub(crate) fn into_instance(self, owner: u32) -> Instance
        ensures id { result.id ≡ id_of self }
        ensures owner { result.owner ≡ owner }
        ensures timeout { result.timeout ≡ timeout_of self }
        ensures service { result.service ≡ service_of self }
    {
        match self {
            InstanceLine::Raf {
                id,
                mode,
                size,
                latency,
                timeout,
                ..
            } => Instance {
                id,
                owner,
                timeout,
                service: Service::Raf {
                    mode,
                    size,
                    latency,
                },
            },
            InstanceLine::Rcf {
                id,
                mode,
                size,
                latency,
                timeout,
                channels,
                ..
            } => Instance {
                id,
                owner,
                timeout,
                service: Service::Rcf {
                    mode,
                    size,
                    latency,
                    channels,
                },
            },
            InstanceLine::Cltu {
                id,
                room,
                longest,
                timeout,
                ..
            } => Instance {
                id,
                owner,
                timeout,
                service: Service::Cltu { room, longest },
            },
        }
    }
}
