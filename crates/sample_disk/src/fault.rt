// Why octets behind gates are refused.

ghost use Rattle.std.specs.Prelude.{◌≡◌};
ghost use Rattle.sample_disk.specs.declared.fault.GateFault.TheVariants.{Disk};

use octet_core::Failed;
use std::error::Error;
use std::fmt;

/// Why an octet isn't added, or a disk isn't recovered.
#[derive(Clone, Copy, Debug, PartialEq, Eq)]
pub enum GateFault {
    /// The file stands for no octets: it ends before a gate that isn't open.
    NoGate,
    /// The octet would go past the capacity.
    Full,
    /// The disk failed.
    Disk,
    /// Adding an octet has failed, and the disk wasn't recovered since.
    Stale,
    /// Memory was wanted and refused.
    Memory,
}

impl fmt::Display for GateFault {
    fn fmt<W: fmt::Write>(&self, f: &mut fmt::Formatter<W>) -> fmt::Result {
        f.write_str(match self {
            GateFault::NoGate => "no closed gate",
            GateFault::Full => "full",
            GateFault::Disk => "disk fault",
            GateFault::Stale => "stale",
            GateFault::Memory => "out of memory",
        })
    }
}

impl Error for GateFault {}

impl From<Failed> for GateFault {
    ghost from_gives = { λ _ fault. fault ≡ Disk };

    fn from(_: Failed) -> GateFault {
        GateFault::Disk
    }
}
