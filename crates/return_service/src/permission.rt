// Which channels a START may ask for.
ghost use Rattle.std.specs.Prelude.{◌≡◌};
ghost use Rattle.archive_terms.specs.Selection.{is_of_channel};
ghost use Rattle.frame_select.specs.Selection.{id_of};
ghost use Rattle.return_service.specs.Requested as requested;

use frame_select::Filter;
use sle_common::{Channel, Gvcid};

// Whether a START may ask for these frames: of any quality, and of a channel among the permitted ones.
pub(crate) fn may_ask(channels: &[Gvcid], filter: &Filter) -> bool
    ensures { result ≡ requested.may_ask channels.now filter.now }
{
    match filter {
        Filter::Quality(_) => true,
        Filter::Channel(channel) => is_permitted(channels, channel),
    }
}

// Whether a channel is among the permitted ones.
fn is_permitted(channels: &[Gvcid], wanted: &Gvcid) -> bool
    ensures { result ≡ requested.is_permitted channels.now wanted.now }
{
    channels.iter().any(|channel| permits(channel, wanted))
}

// Whether a permitted channel is the wanted one, or its master channel.
fn permits(channel: &Gvcid, wanted: &Gvcid) -> bool
    ensures { result ≡ is_of_channel (id_of channel.now) (id_of wanted.now) }
{
    let is_within = match (channel.channel, wanted.channel) {
        (Channel::Master, _) => true,
        (Channel::Virtual(one), Channel::Virtual(other)) => one == other,
        (Channel::Virtual(_), Channel::Master) => false,
    };
    channel.spacecraft == wanted.spacecraft && channel.version == wanted.version && is_within
}
