// This provider's own credentials.
ghost use Rattle.std.specs.Prelude.{◌≡◌, ◌<◌, ◌≤◌, length};
ghost use Rattle.cds_time.specs.declared.cds.TheConstants.{MOMENT_END};
ghost use Rattle.cds_time.specs.Moment.{octets_of, in_micros};
ghost use Rattle.isp1_auth.specs.declared.random_numbers.TheConstants.{GREATEST_NUMBER};
ghost use Rattle.isp1_auth.specs.Signed.{signed};
ghost use Rattle.sle_common.specs.Credentials.{credentials, credentials_of};
ghost use Rattle.session_services.specs.Returns.{own_secret, IsOwnSecret};

use isp1_auth::{Hash, Secret, make};
use sle_common::Credentials;
use station_config::{Peer, Site};
use std::marker::Model;

/// The octets of credentials that this provider made.
#[derive(Drop)]
pub struct Signature {
    octets: [u8; 64],
    len: usize,
}

impl Model for Signature {
    ghost use Rattle.std.specs.Prelude.{List, ℕ, ◌≤◌, take};

    ghost Value = { List ℕ };

    ghost view = { λ s. take s.len s.octets };

    ghost invariant = { λ s. (8 ≤ s.len) × (s.len ≤ 64) };
}

// What this provider's credentials to a peer are made of.
pub(crate) fn own_secret<'a>(site: &'a Site, peer: &Peer) -> Secret<'a>
    ensures { IsOwnSecret site.now peer.now result }
{
    let hash = if peer.sha256 {
        Hash::Sha256
    } else {
        Hash::Sha1
    };
    Secret {
        name: site.provider.as_slice(),
        pass: site.password.as_slice(),
        hash,
        credential_age: peer.credential_age,
    }
}

impl Signature {
    /// This provider's credentials to a peer, made at a moment with a number.
    #[tactic(auto, using(crate::proofs::Fits::some_signed))]
    pub fn of(site: &Site, peer: &Peer, now: u128, number: u32) -> Signature
        requires moment { now < MOMENT_END }
        requires number { number ≤ GREATEST_NUMBER }
        ensures { result ≡ signed (own_secret site.now peer.now) (octets_of (in_micros now))
            number }
    {
        let mut octets = [0; 64];
        let len = make(&own_secret(site, peer), now, number, &mut octets);
        Signature { octets, len }
    }

    // The octets.
    fn octets(&self) -> &[u8]
        ensures octets { result.now ≡ self.now }
        ensures within { (8 ≤ length result.now) × (length result.now ≤ 64) }
    {
        &self.octets[..self.len]
    }
}

/// The credentials with a signature, or unused ones.
pub fn signed_with(signature: &Option<Signature>) -> Credentials<'_>
    ensures octets { credentials_of result ≡ signature.now }
    ensures fits { credentials.Fits (credentials_of result) }
{
    match signature {
        Some(signature) => Credentials::Used(signature.octets()),
        None => Credentials::Unused,
    }
}
