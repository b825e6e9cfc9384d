// Credentials that were made.
ghost use Rattle.std.specs.Prelude.{◌≡◌, ◌<◌, ◌≤◌, Some, length};
ghost use Rattle.cds_time.specs.declared.cds.TheConstants.{MOMENT_END};
ghost use Rattle.cds_time.specs.Moment.{octets_of, in_micros};
ghost use Rattle.sle_common.specs.Credentials as common;
ghost use Rattle.sle_common.specs.Credentials.{credentials_of};
ghost use Rattle.isp1_auth.specs.declared.random_numbers.TheConstants.{GREATEST_NUMBER};
ghost use Rattle.isp1_auth.specs.Signed.{signed};
ghost use Rattle.buffer_message.specs.Signing.{signing_of, secret_by};

use crate::signer::Signer;
use isp1_auth::make;
use sle_common::Credentials;
use std::marker::Model;

// The octets of credentials.
#[derive(Drop)]
pub(crate) struct Signature {
    octets: [u8; 64],
    len: usize,
}

impl Model for Signature {
    ghost use Rattle.std.specs.Prelude.{List, ℕ, ◌≤◌, take};

    ghost Value = { List ℕ };

    ghost view = { λ s. take s.len s.octets };

    ghost invariant = { λ s. (8 ≤ s.len) × (s.len ≤ 64) };
}

impl Signature {
    // A signer's credentials with a number.
    #[tactic(auto, using(crate::proofs::Lengths::some_signed))]
    pub(crate) fn of(signer: &Signer<'_>, number: u32) -> Signature
        requires moment { signer.now.moment < MOMENT_END }
        requires number { number ≤ GREATEST_NUMBER }
        ensures { result ≡ signed (secret_by (signing_of signer.now))
            (octets_of (in_micros signer.now.moment)) number }
    {
        let mut octets = [0; 64];
        let len = make(&signer.secret, signer.moment, number, &mut octets);
        Signature { octets, len }
    }

    // The octets.
    fn octets(&self) -> &[u8]
        ensures octets { result.now ≡ self.now }
        ensures within { (8 ≤ length result.now) × (length result.now ≤ 64) }
    {
        &self.octets[..self.len]
    }

    // They as a PDU has them.
    pub(crate) fn credentials(&self) -> Credentials<'_>
        ensures octets { credentials_of result ≡ Some self.now }
        ensures fits { common.credentials.Fits (credentials_of result) }
    {
        Credentials::Used(self.octets())
    }
}
