ghost use Rattle.std.specs.Prelude.{◌≡◌, ◌++◌, ◌+◌, ◌<◌, ◌≤◌, length, drop};
ghost use Rattle.ber_core.specs.Spelling.{canonical_all};
ghost use Rattle.cds_time.specs.Moment.{octets_of, in_micros};
ghost use Rattle.isp1_auth.specs.Digest.{digest};
ghost use Rattle.isp1_auth.specs.Signed.{fields, claim, signed};

use crate::digest::digest;
use crate::random_numbers::GREATEST_NUMBER;
use crate::secret::Secret;
use ber_core::{BlockWriter, element_length, integer_length};
use cds_time::{Cds, MOMENT_END};

/// Writes the sender's credentials at the head of `into`, and answers how many octets. `now` is in
/// picoseconds since 1958-01-01, and is written rounded down to the microsecond. It takes no
/// memory, and one digest.
#[tactic(auto, using(crate::proofs::Sizes::few_signed))]
pub fn make(secret: &Secret<'_>, now: u128, number: u32, into: &mut [u8; 64]) -> usize
    requires now { now < MOMENT_END }
    requires number { number ≤ GREATEST_NUMBER }
    ensures length { result ≡ length (signed secret.now (octets_of (in_micros now)) number) }
    ensures within { result ≤ 64 }
    ensures octets { into.new ≡
        signed secret.now (octets_of (in_micros now)) number ++ drop result into.old }
{
    let time = time_octets(now);
    let signed = signed(secret, &time, number);
    let octets = signed.octets();
    into[..octets.len()].copy_from_slice(octets);
    octets.len()
}

fn time_octets(now: u128) -> [u8; 8]
    requires { now < MOMENT_END }
    ensures { result ≡ octets_of (in_micros now) }
{
    let mut octets = [0; 10];
    Cds::of_moment(now).put(&mut octets);
    let [a, b, c, d, e, f, g, h, ..] = octets;
    [a, b, c, d, e, f, g, h]
}

#[tactic(auto, using(crate::proofs::Pieces::signed_in_pieces, crate::proofs::Sizes::few_number, crate::proofs::Sizes::few_time, crate::proofs::Sizes::few_protected, crate::proofs::Sizes::few_length))]
fn signed(secret: &Secret<'_>, time: &[u8; 8], number: u32) -> BlockWriter<96>
    ensures { result.octets ≡ signed secret.now time.now number }
{
    let digest = digest(secret, time, number);
    let mut writer = BlockWriter::new();
    writer.head(
        &[0x30],
        fields_length(secret, time, number, digest.octets()),
    );
    writer.octet_string(&[0x04], time);
    writer.integer(&[0x02], i128::from(number));
    writer.octet_string(&[0x04], digest.octets());
    writer
}

// The number of the sequence's content octets.
#[tactic(auto, using(ber_core::specs::Parts::lengths))]
fn fields_length(secret: &Secret<'_>, time: &[u8; 8], number: u32, the_protected: &[u8]) -> usize
    requires { the_protected.now ≡ digest secret.now time.now number }
    ensures { result ≡ length (canonical_all (fields.trees (claim secret.now time.now number))) }
{
    element_length(&[0x04], time.len())
        + element_length(&[0x02], integer_length(i128::from(number)))
        + element_length(&[0x04], the_protected.len())
}
