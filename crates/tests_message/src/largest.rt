// Buffers of items of largest fields: of one, and of as many as a message has. Their octets were
// put together by the program of the signed rows; here stand how many they are, and their SHA-256.
use crate::told::{NOW, provider};
use ber_core::Writer;
use buffer_message::{BufferMessage, Signer};
use cds_time::{Cds, Rest};
use frame_select::Item;
use isp1_auth::{Hash, RandomNumbers};
use octet_core::{Memory, Octets};
use return_pdu::ReturnKind;
use sha2::{Digest, Sha256};
use sle_numbers::FrameQuality;
use std::alloc::Global;
use std::process::Abort;
use std::test::Fail;

// The frame of a buffer of one, and of one of a thousand.
const ONE: [u8; 65_536] = [0xff; 65_536];

const EACH: [u8; 589] = [0xff; 589];

// A service, and how its peer signs.
type Told = (ReturnKind, Option<Hash>);

const RAF: Told = (ReturnKind::Raf, None);

const RAF_SIGNED: Told = (ReturnKind::Raf, Some(Hash::Sha1));

const RCF: Told = (ReturnKind::Rcf, None);

const RCF_SIGNED: Told = (ReturnKind::Rcf, Some(Hash::Sha256));

// How many octets a message has, and their digest.
type Row = (Told, usize, &'static str);

const OF_ONE: [Row; 4] = [
    (
        RAF,
        65_602,
        "89a6d564090c46a3683c8f8acab50da7d2dc09fdc8e282de5b52d03cc8b557e2",
    ),
    (
        RAF_SIGNED,
        65_642,
        "b876c3686f1acd63342d8a3e4742886b527a18014fb196779f8ad7b895e52d80",
    ),
    (
        RCF,
        65_599,
        "e981f95ef746cb9249c724b6e3ced3ebf1ce43554c138cb6f32f09c15e9bb550",
    ),
    (
        RCF_SIGNED,
        65_651,
        "36d878983e8d0bf720adfeaa48668025935d54a9af79af5724ea1af888d4f8af",
    ),
];

const OF_A_THOUSAND: [Row; 4] = [
    (
        RAF,
        640_013,
        "0d57b7b95ef31e4626c9e558304bcb1a002ef2624890a6f92899d0da42f86f42",
    ),
    (
        RAF_SIGNED,
        680_010,
        "c05951addf03c311d1eaffff0d40c131e089d5f203f100a6f7b9a9a14d173ed0",
    ),
    (
        RCF,
        637_013,
        "3170a2f67e4f151afaa41479953cae9328c5a6c99d373b9feecf17489fed5b40",
    ),
    (
        RCF_SIGNED,
        689_010,
        "f76987129a9350b2a35b7ece33dd79cf261df5347ad201e10beed12d0a90e18c",
    ),
];

// A frame whose other fields are the largest.
fn largest(antenna: &Octets, octets: &Octets) -> Result<Item, Memory> {
    Ok(Item::Frame {
        place: u64::MAX,
        ert: Cds {
            days: 65_535,
            millis: 86_399_999,
            rest: Rest::Picos(999_999_999),
        },
        quality: FrameQuality::Undetermined,
        antenna: antenna.clone()?,
        continuity: 16_777_215,
        octets: octets.clone()?,
    })
}

fn items_of(alloc: Global, count: usize, frame: &[u8]) -> Result<Vec<Item>, Memory> {
    let antenna = Octets::copy_of(alloc, &[0xff; 16])?;
    let octets = Octets::copy_of(alloc, frame)?;
    let mut items = Vec::new(alloc);
    for _ in 0..count {
        items.push(largest(&antenna, &octets)?)?;
    }
    Ok(items)
}

// The message of items, where they go into one.
fn message(told: Told, items: &[Item]) -> Option<BufferMessage<'_>> {
    if !BufferMessage::fits(items) {
        return None;
    }
    let (service, hash) = told;
    let Some(hash) = hash else {
        return Some(BufferMessage::unsigned(service, items));
    };
    let signer = Signer {
        secret: provider(hash),
        moment: NOW,
    };
    let mut numbers = RandomNumbers::new(1, 1);
    Some(BufferMessage::signed(service, items, signer, &mut numbers))
}

// The digest of what is appended to a writer of this room, or nothing where that is too little.
fn digest(alloc: Global, message: &BufferMessage<'_>, room: usize) -> Result<String, Memory> {
    let Ok(mut writer) = Writer::new(alloc, room) else {
        return Err(Memory);
    };
    if writer.room() < message.length() {
        return Ok(String::new(alloc));
    }
    message.put(&mut writer);
    Ok(hex::encode(alloc, &Sha256::digest(writer.octets()))?)
}

// Whether a message of items has so many octets, of this digest, and isn't put where there is room
// for one octet less.
fn holds(
    alloc: Global,
    items: &[Item],
    told: Told,
    length: usize,
    octets: &str,
) -> Result<bool, Memory> {
    let Some(message) = message(told, items) else {
        return Ok(false);
    };
    let none = digest(alloc, &message, length.saturating_sub(1))?;
    let whole = digest(alloc, &message, length)?;
    Ok(none.is_empty() && whole.as_str() == octets)
}

// Where a message of items is another one than its row's.
fn check(rt: &impl Abort, alloc: Global, items: &[Item], rows: &[Row]) -> Result<(), Fail> {
    for (told, length, octets) in rows {
        let holds = holds(alloc, items, *told, *length, octets)?;
        assert!(rt; holds);
    }
    Ok(())
}

#[test]
fn one_item_of_largest_fields(rt: HostRuntime) -> Result<(), Fail> {
    let alloc = rt.alloc();
    check(&rt, alloc, &items_of(alloc, 1, &ONE)?, &OF_ONE)
}

#[test]
fn a_thousand_items_of_largest_fields(rt: HostRuntime) -> Result<(), Fail> {
    let alloc = rt.alloc();
    check(&rt, alloc, &items_of(alloc, 1_000, &EACH)?, &OF_A_THOUSAND)
}
