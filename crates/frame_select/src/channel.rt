// The channel of a frame.
ghost use Rattle.std.specs.Prelude.{◌≡◌, option_map};
ghost use Rattle.archive_terms.specs.Selection.{tm_channel, aos_channel, channel_of, is_of_channel};
ghost use Rattle.frame_select.specs.Selection.{id_of};

use sle_common::{Channel, Gvcid};

/// The channel that a frame's first two octets name: none exactly where there are fewer, or where
/// the version is 2 or 3.
pub fn channel_of(octets: &[u8]) -> Option<Gvcid>
    ensures { option_map id_of result ≡ channel_of octets.now }
{
    let [first, second, ..] = octets else {
        return None;
    };
    match *first / 64 {
        0 => Some(tm_channel(*first, *second)),
        1 => Some(aos_channel(*first, *second)),
        _ => None,
    }
}

// A TM frame begins with 2 bits of version 0, 10 of spacecraft, 3 of virtual channel (CCSDS
// 132.0-B, 4.1.2).
fn tm_channel(first: u8, second: u8) -> Gvcid
    ensures { id_of result ≡ tm_channel first second }
{
    Gvcid {
        spacecraft: u16::from(first % 64) * 16 + u16::from(second / 16),
        version: 0,
        channel: Channel::Virtual(second / 2 % 8),
    }
}

// An AOS frame begins with 2 bits of version 1, 8 of spacecraft, 6 of virtual channel (CCSDS
// 732.0-B, 4.1.2).
fn aos_channel(first: u8, second: u8) -> Gvcid
    ensures { id_of result ≡ aos_channel first second }
{
    Gvcid {
        spacecraft: u16::from(first % 64) * 4 + u16::from(second / 64),
        version: 1,
        channel: Channel::Virtual(second % 64),
    }
}

// Whether a channel is the wanted one, or any of the wanted master channel.
pub(crate) fn is_of_channel(choice: &Gvcid, frame: &Gvcid) -> bool
    ensures { result ≡ is_of_channel (id_of choice.now) (id_of frame.now) }
{
    let is_within = match (choice.channel, frame.channel) {
        (Channel::Master, _) => true,
        (Channel::Virtual(one), Channel::Virtual(other)) => one == other,
        (Channel::Virtual(_), Channel::Master) => false,
    };
    choice.spacecraft == frame.spacecraft && choice.version == frame.version && is_within
}
