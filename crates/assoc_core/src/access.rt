// Who may send what.
ghost use Rattle.std.specs.Prelude.{◌≡◌, option_copied};
ghost use Rattle.sle_common.specs.Credentials.{credentials_of};
ghost use Rattle.station_config.specs.Drafts.{place_of};
ghost use Rattle.station_config.specs.Validity.{IsSite};
ghost use Rattle.assoc_core.specs.Access.{sender, IsSecretOf, is_asked, is_authentic, may_send};
ghost use Rattle.assoc_core.specs.Access.{is_admitted};
ghost use Rattle.assoc_core.specs.Kind.{kind_of, initiator_of, message_of};

use crate::pdu_kind::PduKind;
use crate::state::State;
use isp1_auth::{Hash, Secret, check};
use sle_common::Credentials;
use station_config::{Level, Peer, Site};

/// The place of the peer of this name among the site's, if one has it. It goes over the site's
/// peers once.
pub fn peer_of(site: &Site, initiator: &[u8]) -> Option<u32>
    requires { IsSite site.now }
    ensures { result ≡ place_of initiator.now site.now.peers }
{
    let place = place_of(site.peers.as_slice(), initiator)?;
    Some(place as u32)
}

// The same, of peers in any number.
fn place_of(peers: &[Peer], initiator: &[u8]) -> Option<usize>
    ensures { result ≡ place_of initiator.now peers.now }
{
    peers
        .iter()
        .position(|peer| peer.name.as_slice() == initiator)
}

// The peer that sends a message.
fn sender<'a>(site: &'a Site, state: State, kind: PduKind<'_>) -> Option<&'a Peer>
    ensures { option_copied result ≡ sender site.now.peers state (kind_of kind.entry)
        (initiator_of kind.entry) }
{
    let peers = site.peers.as_slice();
    let place = match kind {
        PduKind::Bind { initiator } => place_of(peers, initiator)?,
        _ => state.binding()?.peer as usize,
    };
    peers.get(place)
}

/// Whether a level asks for the credentials of a message, and so for those of its return: of a BIND
/// alone, of all that may have any, or of none (CCSDS 913.1-B; the levels are this provider's own).
pub fn is_asked(level: Level, kind: PduKind<'_>) -> bool
    ensures { result ≡ is_asked level (kind_of kind.entry) }
{
    match level {
        Level::Nothing => false,
        Level::Bind => matches!(kind, PduKind::Bind { .. }),
        Level::All => kind.has_credentials(),
    }
}

// What a peer's credentials are made of.
fn secret_of(peer: &Peer) -> Secret<'_>
    ensures { IsSecretOf peer.now result }
{
    let hash = if peer.sha256 {
        Hash::Sha256
    } else {
        Hash::Sha1
    };
    Secret {
        name: peer.name.as_slice(),
        pass: peer.pass.as_slice(),
        hash,
        credential_age: peer.credential_age,
    }
}

// Whether credentials are a peer's at this moment.
fn is_authentic(peer: &Peer, credentials: &Credentials<'_>, now: u128) -> bool
    ensures { result ≡ is_authentic peer.now (credentials_of credentials.now) now }
{
    check(&secret_of(peer), credentials, now).is_ok()
}

// Whether a peer may send a message that has credentials.
fn may_send(peer: &Peer, kind: PduKind<'_>, credentials: &Credentials<'_>, now: u128) -> bool
    ensures { result ≡ may_send (Some peer.now) (message_of kind.entry credentials.now now) }
{
    !is_asked(peer.level, kind) || is_authentic(peer, credentials, now)
}

// Whether a message is admitted.
pub(crate) fn is_admitted(
    site: &Site,
    state: State,
    kind: PduKind<'_>,
    credentials: &Credentials<'_>,
    now: u128,
) -> bool
    ensures { result ≡ is_admitted site.now state (message_of kind.entry credentials.now now) }
{
    if !kind.has_credentials() {
        return true;
    }
    match sender(site, state, kind) {
        Some(peer) => may_send(peer, kind, credentials, now),
        None => false,
    }
}
