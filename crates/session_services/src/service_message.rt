// The message of what a service holds.
ghost use Rattle.std.specs.Prelude.{◌≡◌, ◌<◌, option_copied};
ghost use Rattle.cds_time.specs.declared.cds.TheConstants.{MOMENT_END};
ghost use Rattle.session_services.specs.Served.{fixed_by};
ghost use Rattle.session_services.specs.Telling.{spelled};

use crate::outgoing::Outgoing;
use crate::return_returns::{put_buffer, signer_to};
use crate::service_state::ServiceState;
use isp1_auth::RandomNumbers;
use station_config::{Peer, Site};

/// Makes the message of what a service holds for a peer at a moment, where it is due.
#[tactic(auto, unfolding(crate::specs::Served::fixed_by))]
pub fn put_message(
    outgoing: &mut Outgoing,
    numbers: &mut RandomNumbers,
    service: &ServiceState,
    site: &Site,
    peer: Option<&Peer>,
    now: u128,
)
    requires { now < MOMENT_END }
    ensures outgoing { outgoing.new ≡ spelled (fixed_by service.now site.now
        (option_copied peer.entry) numbers.old now).message }
    ensures numbers { numbers.new ≡ (fixed_by service.now site.now (option_copied peer.entry)
        numbers.old now).numbers }
{
    match service {
        ServiceState::Nothing | ServiceState::Fcltu(_) => outgoing.clear(),
        ServiceState::Return(service) => {
            let signer = signer_to(site, peer, now);
            let offers = service.is_offering();
            put_buffer(
                outgoing,
                numbers,
                service.kind(),
                offers,
                service.current(),
                signer,
            );
        }
    }
}
