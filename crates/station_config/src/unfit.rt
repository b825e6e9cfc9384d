// Why a line isn't taken.
ghost use Rattle.std.specs.Prelude.{◌≡◌};
ghost use Rattle.station_config.specs.Answers.{unfit_of};
ghost use Rattle.station_config.specs.declared.unfit.Unfit.TheVariants.{Memory as NoMemory};

use crate::cause::Cause;
use octet_core::Memory;
use words::LineFault;

/// Why a line isn't taken.
#[derive(Clone, Copy, Debug, PartialEq, Eq)]
pub(crate) enum Unfit {
    /// It is refused.
    Line(Cause),
    /// There was no memory.
    Memory,
}

impl From<LineFault> for Unfit {
    ghost from_gives = { λ fault unfit. unfit ≡ unfit_of fault };

    fn from(fault: LineFault) -> Unfit {
        match fault {
            LineFault::Line(cause) => Unfit::Line(Cause::of_words(cause)),
            LineFault::Memory => Unfit::Memory,
        }
    }
}

impl From<Memory> for Unfit {
    ghost from_gives = { λ _ unfit. unfit ≡ NoMemory };

    fn from(_: Memory) -> Unfit {
        Unfit::Memory
    }
}
