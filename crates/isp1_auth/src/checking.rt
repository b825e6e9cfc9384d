ghost use Rattle.std.specs.Prelude.{◌≡◌, Some, nat_eq};
ghost use Rattle.std.specs.Cmp.Lexicographic.{pointwise};
ghost use Rattle.sle_common.specs.Credentials.{credentials_of};
ghost use Rattle.isp1_auth.specs.Auth.{auth, IsAnswer};

use crate::auth_fault::AuthFault;
use crate::digest::digest;
use crate::secret::Secret;
use crate::signature::Signature;
use ber_core::laws;
use cds_time::Cds;
use sle_common::Credentials;

/// The picoseconds of a second.
pub const PICOS_A_SECOND: u128 = 1_000_000_000_000;

/// Whether credentials are the secret's, and their time is now, in picoseconds since 1958-01-01, or
/// at most the secret's `credential_age` away. The first fault is told, in the order of
/// `AuthFault`. It takes no memory, and one digest.
pub fn check(secret: &Secret<'_>, credentials: &Credentials<'_>, now: u128) -> Result<(), AuthFault>
    ensures answer { IsAnswer (credentials_of credentials.now) secret.now now result }
    ensures exact { result ≡ auth secret.now (credentials_of credentials.now) now }
{
    let Credentials::Used(octets) = credentials else {
        return Err(AuthFault::Missing);
    };
    let answer = check_used(secret, octets, now);
    laws::slice(octets);
    answer
}

fn check_used(secret: &Secret<'_>, octets: &[u8], now: u128) -> Result<(), AuthFault>
    ensures { result ≡ auth secret.now (Some octets.now) now }
{
    let Ok(signature) = Signature::read(octets) else {
        return Err(AuthFault::Malformed);
    };
    let Some(moment) = Cds::from_micro(signature.time).moment() else {
        return Err(AuthFault::Malformed);
    };
    let difference = now.abs_diff(moment);
    if difference > u128::from(secret.credential_age) * PICOS_A_SECOND {
        return Err(AuthFault::TooOld { difference });
    }
    let digest = digest(secret, signature.time, signature.number);
    if !is_equal(digest.octets(), signature.protected) {
        return Err(AuthFault::WrongDigest);
    }
    Ok(())
}

// Whether the digests are equal. All octets are compared, also those behind one that differs.
fn is_equal(digest: &[u8], the_protected: &[u8]) -> bool
    ensures { result ≡ pointwise nat_eq digest.now the_protected.now }
{
    if digest.len() != the_protected.len() {
        return false;
    }
    let mut equal = true;
    for i in 0..digest.len() {
        equal &= digest[i] == the_protected[i];
    }
    equal
}
