// A user's own credentials.
ghost use Rattle.std.specs.Prelude.{◌≡◌, ◌<◌, ◌≤◌, Some, length};
ghost use Rattle.cds_time.specs.declared.cds.TheConstants.{MOMENT_END};
ghost use Rattle.cds_time.specs.Moment.{octets_of, in_micros};
ghost use Rattle.isp1_auth.specs.declared.random_numbers.TheConstants.{GREATEST_NUMBER};
ghost use Rattle.isp1_auth.specs.Signed.{signed};
ghost use Rattle.sle_common.specs.Credentials.{credentials, credentials_of};
ghost use Rattle.user_task.specs.Message.{secret_of};

use isp1_auth::{Hash, Secret, make};
use sle_common::Credentials;
use std::marker::Model;

// The octets of credentials.
#[derive(Drop)]
pub(crate) struct Signature {
    octets: [u8; 64],
    len: usize,
}

impl Model for Signature {
    ghost use Rattle.std.specs.Prelude.{List, ℕ, ◌≤◌, take};

    ghost Value = { List ℕ };

    ghost view = { λ s. take s.len s.octets };

    ghost invariant = { λ s. (8 ≤ s.len) × (s.len ≤ 64) };
}

impl Signature {
    // The credentials of this name and password, made at a moment with a number.
    #[tactic(auto, using(crate::proofs::Fits::some_signed))]
    pub(crate) fn of(name: &[u8], hash: Hash, pass: &[u8], number: u32, now: u128) -> Signature
        requires number { number ≤ GREATEST_NUMBER }
        requires moment { now < MOMENT_END }
        ensures { result ≡ signed (secret_of name.now hash pass.now) (octets_of (in_micros now))
            number }
    {
        let secret = Secret {
            name,
            pass,
            hash,
            credential_age: 0,
        };
        let mut octets = [0; 64];
        let len = make(&secret, now, number, &mut octets);
        Signature { octets, len }
    }

    // The octets.
    fn octets(&self) -> &[u8]
        ensures octets { result.now ≡ self.now }
        ensures within { (8 ≤ length result.now) × (length result.now ≤ 64) }
    {
        &self.octets[..self.len]
    }

    // They as a PDU has them.
    pub(crate) fn credentials(&self) -> Credentials<'_>
        ensures octets { credentials_of result ≡ Some self.now }
        ensures fits { credentials.Fits (credentials_of result) }
    {
        Credentials::Used(self.octets())
    }
}
