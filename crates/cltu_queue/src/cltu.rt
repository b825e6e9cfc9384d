// A CLTU.
ghost use Rattle.std.specs.Prelude.{◌≡◌, ◌<◌, IfSome};
ghost use Rattle.cds_time.specs.declared.cds.TheConstants.{MOMENT_END};

use crate::times::moment_at;
use cds_time::Cds;
use octet_core::Octets;

/// A CLTU as CLTU-TRANSFER-DATA has it (CCSDS 912.1-B): its octets and when they are to radiate. A
/// clone shares the octets.
#[derive(Clone, Debug, Drop, PartialEq, Eq)]
pub struct Cltu {
    /// The identification, by which CLTUs are in sequence.
    pub id: u32,
    /// The earliest time at which its radiation may begin.
    pub earliest: Option<Cds>,
    /// The latest time at which its radiation may begin.
    pub latest: Option<Cds>,
    /// The least time to the next CLTU's beginning, in microseconds.
    pub radiation_delay: u32,
    /// Whether the user is to be told that it was radiated.
    pub wanted: bool,
    /// The octets to be radiated.
    pub octets: Octets,
}

impl Cltu {
    ghost use Rattle.cltu_queue.specs.Times.{earliest_of, latest_of};

    // The moment of the earliest time, where it is known and names one.
    pub(crate) fn earliest_moment(&self) -> Option<u128>
        ensures exact { result ≡ earliest_of self.now }
        ensures below { IfSome result (λ moment. moment < MOMENT_END) }
    {
        moment_at(self.earliest)
    }

    // The moment of the latest time, where it is known and names one.
    pub(crate) fn latest_moment(&self) -> Option<u128>
        ensures exact { result ≡ latest_of self.now }
        ensures below { IfSome result (λ moment. moment < MOMENT_END) }
    {
        moment_at(self.latest)
    }
}
