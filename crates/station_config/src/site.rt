// A station as it is configured.
ghost use Rattle.std.specs.Prelude.{IfOk};
ghost use Rattle.station_config.specs.Answers.{Answers};
ghost use Rattle.station_config.specs.Drafts.{site_told};
ghost use Rattle.station_config.specs.Validity.{IsSite};

use crate::draft::Draft;
use crate::fault::SiteFault;
use crate::instances::Instances;
use crate::peers::Peers;
use crate::unfit::Unfit;
use octet_core::Octets;
use std::alloc::Global;
use words::split_part;

/// A station as it is configured. It has no `Debug`, so that no password gets into a text.
#[derive(Drop)]
pub struct Site {
    /// The name that returns carry, 3 to 16 characters from 21 to 7E.
    pub provider: Octets,
    /// The provider's password, 6 to 16 octets.
    pub password: Octets,
    /// Octets of the greatest archive file, 64 to 268,435,456.
    pub capacity: u64,
    /// The least heartbeat interval that a context message may have, in seconds, at least 1.
    pub interval_from: u16,
    /// The greatest one, at most 3,600.
    pub interval_to: u16,
    /// The least dead factor that a context message may have, at least 2.
    pub factor_from: u16,
    /// The greatest one, at most 100.
    pub factor_to: u16,
    /// The versions that a BIND may have: 1 to 4 numbers from 4 to 9.
    pub versions: Octets,
    pub peers: Peers,
    pub instances: Instances,
}

impl Site {
    /// The site that a configuration says, or its first bad line: its number, from 1, and the first
    /// cause why it is refused.
    #[tactic(auto, using(crate::proofs::Valid::site_is_valid))]
    pub fn parse(alloc: Global, text: &[u8]) -> Result<Site, SiteFault>
        ensures exact { Answers result (site_told text.now) }
        ensures valid { IfOk result IsSite }
    {
        read(alloc, text)
    }
}

fn read(alloc: Global, text: &[u8]) -> Result<Site, SiteFault>
    ensures { Answers result (site_told text.now) }
{
    let mut draft = Draft::new(alloc);
    let mut number = 1u32;
    let mut rest = Some(text);
    while let Some(text) = rest {
        let (line, more) = split_part(b'\n', text);
        match draft.take(alloc, line) {
            Ok(()) => {}
            Err(Unfit::Line(cause)) => {
                return Err(SiteFault::BadLine {
                    number,
                    cause: cause.number(),
                });
            }
            Err(Unfit::Memory) => return Err(SiteFault::Memory),
        }
        number = number.saturating_add(1);
        rest = more;
    }
    Ok(draft.finish(alloc)?)
}
