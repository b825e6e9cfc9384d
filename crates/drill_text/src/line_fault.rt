// Why a line says nothing.

use thiserror::Error;
use words::Unread;

/// Why a line of a script says nothing.
#[derive(Clone, Copy, Debug, PartialEq, Eq, Error)]
pub enum LineFault {
    /// It is outside the grammar.
    #[error("bad line")]
    Bad,
    /// There was no memory.
    #[error("out of memory")]
    Memory,
}

impl From<Unread> for LineFault {
    ghost use Rattle.std.specs.Prelude.{◌≡◌};
    ghost use Rattle.drill_text.specs.Reading.{fault_of};

    ghost from_gives = { λ why fault. fault ≡ fault_of why };

    fn from(why: Unread) -> LineFault {
        match why {
            Unread::Bad => LineFault::Bad,
            Unread::Memory => LineFault::Memory,
        }
    }
}
