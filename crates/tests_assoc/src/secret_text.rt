// What credentials are made and how they are checked, as a text.
use crate::rows::{first_of, octets_of};
use cds_time::MOMENT_END;
use isp1_auth::{GREATEST_NUMBER, Hash, RandomNumbers, Secret, check, make};
use sle_common::Credentials;
use std::alloc::{AllocError, Global};
use std::fmt::Write;

fn hash_of(word: &str) -> Hash {
    if word == "sha256" {
        Hash::Sha256
    } else {
        Hash::Sha1
    }
}

// What the check says.
fn tell_checked(
    secret: &Secret<'_>,
    credentials: &Credentials<'_>,
    now: u128,
    told: &mut String,
) -> Result<(), AllocError> {
    match check(secret, credentials, now) {
        Ok(()) => told.push_str("accepted"),
        Err(fault) => write!(told, "{fault}"),
    }
}

// The credentials that a sender makes, and what the check says of them.
fn tell_made(
    alloc: Global,
    secret: &Secret<'_>,
    now: u128,
    number: u32,
    told: &mut String,
) -> Result<(), AllocError> {
    if now >= MOMENT_END || number > GREATEST_NUMBER {
        return told.push_str("no such moment or number");
    }
    let mut into = [0; 64];
    let length = make(secret, now, number, &mut into);
    tell_octets(alloc, &into[..length], told)?;
    tell_checked(secret, &Credentials::Used(&into[..length]), now, told)
}

fn tell_octets(alloc: Global, octets: &[u8], told: &mut String) -> Result<(), AllocError> {
    let digits = hex::encode(alloc, octets)?;
    write!(told, "{digits} ")
}

fn tell_checked_octets(
    alloc: Global,
    secret: &Secret<'_>,
    words: &str,
    now: u128,
    told: &mut String,
) -> Result<(), AllocError> {
    let octets = octets_of(alloc, words)?;
    tell_checked(secret, &Credentials::Used(&octets), now, told)
}

// What is made or checked.
fn tell_call(
    alloc: Global,
    secret: &Secret<'_>,
    words: &str,
    told: &mut String,
) -> Result<(), AllocError> {
    let (call, words) = first_of(words);
    let (now, words) = first_of(words);
    let now = now.parse().unwrap_or(0);
    if call == "make" {
        tell_made(alloc, secret, now, words.trim().parse().unwrap_or(0), told)
    } else if words.trim() == "unused" {
        tell_checked(secret, &Credentials::Unused, now, told)
    } else {
        tell_checked_octets(alloc, secret, words, now, told)
    }
}

/// Of a name and a password in hexadecimal digits, a hash function, and what is made or checked:
/// `make`, a moment and a number; or `check`, a moment, and `unused` or the octets of credentials.
/// The delay is 60 seconds.
pub fn tell_secret(alloc: Global, words: &str, told: &mut String) -> Result<(), AllocError> {
    let (name, words) = first_of(words);
    let (pass, words) = first_of(words);
    let (hash, words) = first_of(words);
    let name = octets_of(alloc, name)?;
    let pass = octets_of(alloc, pass)?;
    let secret = Secret {
        name: &name,
        pass: &pass,
        hash: hash_of(hash),
        credential_age: 60,
    };
    tell_call(alloc, &secret, words, told)
}

/// The first three numbers of a session, of its draw and its door.
pub fn tell_numbers(words: &str, told: &mut String) -> Result<(), AllocError> {
    let (draw, door) = first_of(words);
    let door = door.trim().parse().unwrap_or(0);
    let mut numbers = RandomNumbers::new(draw.parse().unwrap_or(0), door);
    let first = numbers.next_number();
    let second = numbers.next_number();
    let third = numbers.next_number();
    write!(told, "{first} {second} {third}")
}
