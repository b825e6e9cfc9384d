// The digest that protects credentials. What is hashed goes to the hash function in pieces, so a
// name and a password of any length take no memory.
ghost use Rattle.std.specs.Prelude.{◌≡◌, ◌++◌, ◌∷◌, ◌≤◌, length};
ghost use Rattle.sha1.specs.Sha1.{sha1};
ghost use Rattle.sha2.specs.Sha256.{sha256};
ghost use Rattle.ber_core.specs.Length.{without_zeros, shortest_length};
ghost use Rattle.ber_core.specs.Spelling.{canonical_all};
ghost use Rattle.isp1_auth.specs.Digest.{digest, hash_fields, hash_input, before_name, before_pass};

use crate::hash::Hash;
use crate::secret::Secret;
use ber_core::{BlockWriter, element_length, integer_length};
use sha1::Sha1;
use sha2::{Digest, Sha256};

/// The digest that protects this time and number: 20 or 32 octets.
pub(crate) fn digest(secret: &Secret<'_>, time: &[u8; 8], number: u32) -> BlockWriter<32>
    ensures { result.octets ≡ digest secret.now time.now number }
{
    let mut digest = BlockWriter::new();
    match secret.hash {
        Hash::Sha1 => digest.raw(&sha1_of(secret, time, number)),
        Hash::Sha256 => digest.raw(&sha256_of(secret, time, number)),
    }
    digest
}

#[tactic(auto, using(crate::proofs::Pieces::in_pieces))]
fn sha1_of(secret: &Secret<'_>, time: &[u8; 8], number: u32) -> [u8; 20]
    ensures { result ≡ sha1 (hash_input secret.now time.now number) }
{
    let before_name = before_name(secret, time, number);
    let before_pass = before_pass(secret);
    let mut sha1 = Sha1::new();
    sha1.update(before_name.octets());
    sha1.update(secret.name);
    sha1.update(before_pass.octets());
    sha1.update(secret.pass);
    sha1.finalize()
}

#[tactic(auto, using(crate::proofs::Pieces::in_pieces))]
fn sha256_of(secret: &Secret<'_>, time: &[u8; 8], number: u32) -> [u8; 32]
    ensures { result ≡ sha256 (hash_input secret.now time.now number) }
{
    let before_name = before_name(secret, time, number);
    let before_pass = before_pass(secret);
    let mut sha256 = Sha256::new();
    sha256.update(before_name.octets());
    sha256.update(secret.name);
    sha256.update(before_pass.octets());
    sha256.update(secret.pass);
    sha256.finalize()
}

// The octets of the hash input up to the name: the head of the sequence, the time, the number, and
// the head of the name.
#[tactic(auto, using(crate::proofs::Sizes::few_number, crate::proofs::Sizes::few_time, crate::proofs::Sizes::few_length))]
fn before_name(secret: &Secret<'_>, time: &[u8; 8], number: u32) -> BlockWriter<64>
    ensures { result.octets ≡ before_name secret.now time.now number }
{
    let mut octets = sequence_head(content_length(secret, time, number));
    octets.octet_string(&[0x04], time);
    octets.integer(&[0x02], i128::from(number));
    octets.head(&[0x1a], secret.name.len());
    octets
}

// The octets between the name and the password: the head of the password.
#[tactic(auto, using(crate::proofs::Sizes::few_length))]
fn before_pass(secret: &Secret<'_>) -> BlockWriter<10>
    ensures { result.octets ≡ before_pass secret.now }
{
    let mut octets = BlockWriter::new();
    octets.head(&[0x04], secret.pass.len());
    octets
}

// The head of the hash input, with so many octets behind it. Two slices may have more octets than
// 64 bits count; the length octets are then those of the count modulo 2 ^ 64.
#[tactic(auto, unfolding(ber_core::specs::Length::shortest_length))]
fn sequence_head(content: u128) -> BlockWriter<64>
    ensures octets { result.octets ≡ 0x30 ∷ shortest_length content }
    ensures room { 54 ≤ result.room }
{
    let mut head = BlockWriter::new();
    head.raw(&[0x30]);
    if content < 128 {
        head.raw(&[content as u8]);
    } else {
        let octets = content.to_be_bytes();
        let length = without_zeros(&octets[8..]);
        head.raw(&[128 + length.len() as u8]);
        head.raw(length);
    }
    head
}

fn without_zeros(octets: &[u8]) -> &[u8]
    ensures exact { result.now ≡ without_zeros octets.now }
    ensures within { length result.now ≤ length octets.now }
{
    let mut rest = octets;
    while let [0, after @ ..] = rest {
        rest = after;
    }
    rest
}

// The number of the hash input's content octets.
#[tactic(auto, using(ber_core::specs::Parts::lengths))]
fn content_length(secret: &Secret<'_>, time: &[u8; 8], number: u32) -> u128
    ensures { result ≡ length (canonical_all (hash_fields secret.now time.now number)) }
{
    let name = element_length(&[0x1a], secret.name.len());
    let pass = element_length(&[0x04], secret.pass.len());
    let number = element_length(&[0x02], integer_length(i128::from(number)));
    let time = element_length(&[0x04], time.len());
    (time + number) as u128 + name as u128 + pass as u128
}
