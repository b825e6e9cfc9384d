// What a PDU can say of a task.
ghost use Rattle.std.specs.Prelude.{◌≡◌};
ghost use Rattle.std.specs.List.{list_all};
ghost use Rattle.ber_core.specs.Reading.{is_visible};
ghost use Rattle.user_task.specs.Fitting.{is_name, fits_channel, fits_gvcid, fits_start, fits_line};
ghost use Rattle.user_task.specs.Fitting.{fits_task};

use crate::cltus::CltuLine;
use crate::task::Task;
use crate::work::Work;
use sle_common::{Channel, Gvcid};

impl Task {
    /// Whether its PDUs can say all that it says: its name has 3 to 16 characters from 20 to 7E,
    /// the numbers of a channel are in their ranges, and each CLTU has 1 to 65536 octets. What only
    /// reads says nothing.
    pub fn fits(&self) -> bool
        ensures { result ≡ fits_task self.now }
    {
        self.work.is_show()
            || (is_name(self.name.as_slice())
                && fits_start(&self.work)
                && lines_fit(self.work.cltus()))
    }
}

fn lines_fit(cltus: &[CltuLine]) -> bool
    ensures { result ≡ list_all fits_line cltus.now }
{
    cltus.iter().all(|line| fits_line(line))
}

fn is_name(name: &[u8]) -> bool
    ensures { result ≡ is_name name.now }
{
    3 <= name.len() && name.len() <= 16 && are_visible(name)
}

fn are_visible(octets: &[u8]) -> bool
    ensures { result ≡ list_all is_visible octets.now }
{
    octets.iter().all(|octet| is_visible(*octet))
}

fn is_visible(octet: u8) -> bool
    ensures { result ≡ is_visible octet }
{
    0x20 <= octet && octet <= 0x7e
}

fn fits_start(work: &Work) -> bool
    ensures { result ≡ fits_start work.now }
{
    match work {
        Work::Rcf { channel, .. } => fits_gvcid(channel),
        _ => true,
    }
}

fn fits_gvcid(gvcid: &Gvcid) -> bool
    ensures { result ≡ fits_gvcid gvcid.now }
{
    gvcid.spacecraft <= 1023 && gvcid.version <= 3 && fits_channel(gvcid.channel)
}

fn fits_channel(channel: Channel) -> bool
    ensures { result ≡ fits_channel channel }
{
    match channel {
        Channel::Master => true,
        Channel::Virtual(channel) => channel <= 63,
    }
}

fn fits_line(line: &CltuLine) -> bool
    ensures { result ≡ fits_line line.now }
{
    1 <= line.octets.len() && line.octets.len() <= 65_536
}
