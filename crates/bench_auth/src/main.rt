// Makes credentials, checks them, or takes the digest alone of the octets that it protects, so that
// the three can be timed side by side.
//
// The words choose: `make`, `check` or `digest`, `sha1` or `sha256`, and a number of rounds. With
// no word of a kind all of that kind are run, three rounds each. Each line ends with a sum by which
// `bench/auth` tests what was done: of the last octets of the digests, or of the credentials that
// were accepted.
#![tactic(auto)]

use isp1_auth::{Hash, Secret, check, make};
use sha1::Sha1;
use sha2::{Digest, Sha256};
use sle_common::Credentials;
use std::{env, io};

/// 20000 days, 1000 milliseconds and 1 microsecond.
const NOW: u128 = 1_728_000_001_000_001_000_000;

/// Numbers from here on have four octets.
const FIRST_NUMBER: u32 = 0x4000_0000;

const NAME: &[u8] = b"CONTROL-CENTRE-1";

const PASS: &[u8] = b"0123456789abcdef";

/// The octets that are hashed for the first number: time, number, `NAME` and `PASS`.
const HASHED: [u8; 54] = [
    0x30, 0x34, 0x04, 0x08, 0x4e, 0x20, 0x00, 0x00, 0x03, 0xe8, 0x00, 0x01, 0x02, 0x04, 0x40, 0x00,
    0x00, 0x00, 0x1a, 0x10, 0x43, 0x4f, 0x4e, 0x54, 0x52, 0x4f, 0x4c, 0x2d, 0x43, 0x45, 0x4e, 0x54,
    0x52, 0x45, 0x2d, 0x31, 0x04, 0x10, 0x30, 0x31, 0x32, 0x33, 0x34, 0x35, 0x36, 0x37, 0x38, 0x39,
    0x61, 0x62, 0x63, 0x64, 0x65, 0x66,
];

/// What is timed.
#[derive(Clone, Copy, Debug)]
enum Work {
    Make,
    Check,
    Digest,
}

fn secret(hash: Hash) -> Secret<'static> {
    Secret {
        name: NAME,
        pass: PASS,
        hash,
        credential_age: 60,
    }
}

/// The last of these octets.
fn last(octets: &[u8]) -> u64 {
    octets.last().map_or(0, |octet| u64::from(*octet))
}

/// Makes the credentials of as many numbers.
fn make_often(hash: Hash, rounds: u32) -> u64 {
    let mut into = [0; 64];
    let mut sum: u64 = 0;
    for round in 0..rounds {
        let length = make(&secret(hash), NOW, FIRST_NUMBER + round % 65_536, &mut into);
        sum = sum.wrapping_add(last(&into[..length]));
    }
    sum
}

/// Checks the credentials of the first number as often, each time a picosecond later.
fn check_often(hash: Hash, rounds: u32) -> u64 {
    let mut into = [0; 64];
    let length = make(&secret(hash), NOW, FIRST_NUMBER, &mut into);
    let credentials = Credentials::Used(&into[..length]);
    let mut accepted: u64 = 0;
    for round in 0..rounds {
        if check(&secret(hash), &credentials, NOW + u128::from(round)).is_ok() {
            accepted = accepted.wrapping_add(1);
        }
    }
    accepted
}

/// Takes the digests alone that as many credentials have.
fn digest_often(hash: Hash, rounds: u32) -> u64 {
    let mut hashed = HASHED;
    let mut sum: u64 = 0;
    for round in 0..rounds {
        let number = FIRST_NUMBER + round % 65_536;
        hashed[14..18].copy_from_slice(&number.to_be_bytes());
        let octet = match hash {
            Hash::Sha1 => last(&Sha1::digest(&hashed)),
            Hash::Sha256 => last(&Sha256::digest(&hashed)),
        };
        sum = sum.wrapping_add(octet);
    }
    sum
}

/// Does the work as often, and answers its sum.
fn sum_of(work: Work, hash: Hash, rounds: u32) -> u64 {
    match work {
        Work::Make => make_often(hash, rounds),
        Work::Check => check_often(hash, rounds),
        Work::Digest => digest_often(hash, rounds),
    }
}

fn main(rt: HostRuntime) -> io::Result<()> {
    let mut works: &[Work] = &[Work::Make, Work::Check, Work::Digest];
    let mut hashes: &[Hash] = &[Hash::Sha1, Hash::Sha256];
    let mut rounds = 3;
    for word in env::args(&rt)?.skip(1) {
        match word.as_str() {
            "make" => works = &[Work::Make],
            "check" => works = &[Work::Check],
            "digest" => works = &[Work::Digest],
            "sha1" => hashes = &[Hash::Sha1],
            "sha256" => hashes = &[Hash::Sha256],
            number => rounds = number.parse::<u32>().unwrap_or(rounds),
        }
    }
    for work in works {
        for hash in hashes {
            let sum = sum_of(*work, *hash, rounds);
            println!(rt; "{work:?} {hash:?}: {rounds} rounds, sum {sum}")?;
        }
    }
    Ok(())
}
