// Octets are written as digits.
ghost use Rattle.std.specs.Prelude.{◌≡◌, ◌*◌, ◌<◌, ◌++◌, length, map, slice_index, OnOk, OnErr};
ghost use Rattle.hex.specs.Hex.{encode_lower, lower_digits};
ghost use Rattle.std.specs.Simd.Lanes.{Each1};

use std::alloc::AllocError;
use std::simd::prelude::*;

/// Appends two digits for each octet, in lower case, or nothing if out of memory.
pub fn append(octets: &[u8], into: &mut Vec<u8>) -> Result<(), AllocError>
    ensures ok { OnOk result (into.new.items ≡ into.old.items ++ encode_lower octets.now) }
    ensures err { OnErr result (into.new.items ≡ into.old.items) }
{
    let start = into.len();
    let digits = octets.len().checked_mul(2).ok_or(AllocError)?;
    into.resize(start.checked_add(digits).ok_or(AllocError)?, 0)?;
    spell(octets, &mut into[start..]);
    Ok(())
}

// Writes two digits for each octet, sixteen octets at a time as long as there are sixteen.
fn spell(octets: &[u8], digits: &mut [u8])
    requires { length digits.old ≡ 2 * length octets.now }
    ensures { digits.new ≡ encode_lower octets.now }
{
    let blocks = octets.len() / 16;
    for b in 0..blocks {
        spell_block(
            &octets[16 * b..16 * b + 16],
            &mut digits[32 * b..32 * b + 32],
        );
    }
    for i in 16 * blocks..octets.len() {
        let octet = octets[i];
        digits[2 * i] = digit(octet >> 4);
        digits[2 * i + 1] = digit(octet & 0x0f);
    }
}

// Writes the digits of sixteen octets.
#[inline(always)]
fn spell_block(octets: &[u8], digits: &mut [u8])
    requires octets { length octets.now ≡ 16 }
    requires digits { length digits.old ≡ 32 }
    ensures { digits.new ≡ encode_lower octets.now }
{
    let octets = u8x16::from_slice(octets);
    let high = sixteen(octets >> u8x16::splat(4));
    let low = sixteen(octets & u8x16::splat(0x0f));
    let (first, second) = high.interleave(low);
    first.copy_to_slice(&mut digits[..16]);
    second.copy_to_slice(&mut digits[16..]);
}

// The digits of sixteen values.
#[inline(always)]
fn sixteen(values: u8x16) -> u8x16
    requires { Each1 (λ v. v < 16) values }
    ensures { result ≡ map (λ v. slice_index lower_digits v) values }
{
    let letters = values.simd_gt(u8x16::splat(9));
    values + letters.select(u8x16::splat(b'a' - 10), u8x16::splat(b'0'))
}

// The digit of a value.
fn digit(value: u8) -> u8
    requires { value < 16 }
    ensures { result ≡ slice_index lower_digits value }
{
    if value < 10 {
        b'0' + value
    } else {
        b'a' - 10 + value
    }
}
