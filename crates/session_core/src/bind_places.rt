// What a BIND is judged by.
ghost use Rattle.std.specs.Prelude.{◌≡◌};
ghost use Rattle.bind_pdu.specs.Seen.{bind_of};
ghost use Rattle.station_config.specs.Validity.{IsSite};
ghost use Rattle.session_core.specs.Seen.{said_of, places_of_bind, places_of};

use crate::user_message::UserMessage;
use assoc_core::{Step, check_bind, peer_of};
use bind_pdu::Bind;
use sle_numbers::BindDiagnostic;
use station_config::Site;

// The place of a BIND's peer, if it is one; and the place of the instance that it asks for, or why
// it is refused.
#[derive(Clone, Copy)]
pub(crate) struct BindPlaces {
    pub(crate) peer: Option<u32>,
    pub(crate) instance: Result<u32, BindDiagnostic>,
}

// What a BIND that passed is judged by. It goes over the site's peers and instances once.
fn places_of_bind(site: &Site, bind: &Bind<'_>) -> BindPlaces
    requires { IsSite site.now }
    ensures { result ≡ places_of_bind site.now (bind_of bind.now) }
{
    let peer = peer_of(site, bind.initiator);
    let instance = check_bind(site, peer, bind.service, bind.version, &bind.instance);
    BindPlaces { peer, instance }
}

// The same of any message: where it is no BIND, or didn't pass, it has no places.
pub(crate) fn places_of(site: &Site, message: &UserMessage<'_>, step: Step) -> BindPlaces
    requires { IsSite site.now }
    ensures { result ≡ places_of site.now (said_of message.now) step }
{
    match (message, step) {
        (UserMessage::Bind(bind), Step::Pass) => places_of_bind(site, bind),
        _ => BindPlaces {
            peer: None,
            instance: Err(BindDiagnostic::AccessDenied),
        },
    }
}
