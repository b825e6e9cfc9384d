// Why a configuration gives no site.
ghost use Rattle.std.specs.Prelude.{◌≡◌};
ghost use Rattle.station_config.specs.declared.fault.SiteFault.TheVariants.{Memory as NoMemory};

use octet_core::Memory;
use thiserror::Error;

/// Why a configuration gives no site.
#[derive(Clone, Copy, Debug, PartialEq, Eq, Error)]
pub enum SiteFault {
    /// The line of this number, from 1, is the first bad one, for this cause.
    #[error("line {number}: cause {cause}")]
    BadLine { number: u32, cause: u8 },
    /// Memory was wanted and refused.
    #[error("out of memory")]
    Memory,
}

impl From<Memory> for SiteFault {
    ghost from_gives = { λ _ fault. fault ≡ NoMemory };

    fn from(_: Memory) -> SiteFault {
        SiteFault::Memory
    }
}
