// How long credentials are.
ghost use Rattle.std.specs.Prelude.{◌≡◌, ℕ, ◌≤◌, List, length};
ghost use Rattle.isp1_auth.specs.Signed.{signed};
ghost use Rattle.buffer_message.specs.Signing.{signing_of, secret_by};

use crate::signer::Signer;
use ber_core::integer_length;
use isp1_auth::Hash;

/// The number of octets of a signer's credentials with a number. It takes no digest.
#[tactic(auto, using(crate::proofs::Lengths::length_signed))]
pub(crate) fn credentials_length(signer: &Signer<'_>, number: u32) -> usize
    ensures exact { (time : List ℕ) → length time ≡ 8
        → result ≡ length (signed (secret_by (signing_of signer.now)) time number) }
    ensures least { 8 ≤ result }
    ensures most { result ≤ 64 }
{
    let digest = match signer.secret.hash {
        Hash::Sha1 => 20,
        Hash::Sha256 => 32,
    };
    16 + integer_length(i128::from(number)) + digest
}
