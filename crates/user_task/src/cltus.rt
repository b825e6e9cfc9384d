// Telecommands, as they are sent.
ghost use Rattle.std.specs.Prelude.{◌≡◌};

use cds_time::Cds;
use octet_core::Octets;
use std::marker::Model;

/// A CLTU and what its TRANSFER-DATA says of it (CCSDS 912.1-B).
#[derive(Debug, Drop)]
pub struct CltuLine {
    /// Its identification.
    pub id: u32,
    /// Before it radiation may not start, where one is given.
    pub earliest: Option<Cds>,
    /// After it radiation may not start, where one is given.
    pub latest: Option<Cds>,
    /// Microseconds between its radiation and the next one.
    pub radiation_delay: u32,
    /// Whether a notice of its radiation is wanted.
    pub wanted: bool,
    /// 1 to 65536 octets.
    pub octets: Octets,
}

/// CLTUs in the order in which they are sent.
#[derive(Debug, Drop)]
pub struct Cltus {
    lines: Vec<CltuLine>,
}

impl Model for Cltus {
    ghost use Rattle.std.specs.Prelude.{List};
    ghost use Rattle.user_task.specs.declared.cltus.CltuLine.{CltuLine};

    ghost Value = { List CltuLine };

    ghost view = { λ cltus. cltus.lines.items };
}

impl Cltus {
    /// These CLTUs.
    pub fn from_lines(lines: Vec<CltuLine>) -> Cltus
        ensures { result ≡ lines.items }
    {
        Cltus { lines }
    }

    /// The CLTUs, in order.
    pub fn lines(&self) -> &[CltuLine]
        ensures { result.now ≡ self.now }
    {
        self.lines.as_slice()
    }
}
