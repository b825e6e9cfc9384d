// Words behind a blank, at the end of a text.
ghost use Rattle.std.specs.Prelude.{◌≡◌, ◌++◌, ◌∷◌, [], OnOk};
ghost use Rattle.std.specs.Fmt.{decimal, signed_decimal};
ghost use Rattle.hex.specs.Hex.{encode_lower};
ghost use Rattle.sle_common.specs.Antenna.{antenna_of};
ghost use Rattle.user_lines.specs.Lines.{behind, rest_word, time_word, antenna_word, quality_words};
ghost use Rattle.user_lines.specs.Lines.{number_words, six_words};

use cds_time::{Cds, Rest};
use itoa::Buffer;
use sle_common::AntennaId;
use sle_numbers::{FrameQuality, Numbered};
use std::alloc::AllocError;

// Appends a number.
fn put_digits(number: u64, into: &mut Vec<u8>) -> Result<(), AllocError>
    ensures { OnOk result (into.new.items ≡ into.old.items ++ decimal number) }
{
    let mut buffer = Buffer::new();
    into.extend_from_slice(buffer.format(number).as_bytes())
}

// Appends a number behind a blank.
pub(crate) fn put_count(number: u64, into: &mut Vec<u8>) -> Result<(), AllocError>
    ensures { OnOk result (into.new.items ≡ into.old.items ++ behind (decimal number ∷ [])) }
{
    into.push(b' ')?;
    put_digits(number, into)
}

// Appends a number, with a sign where it is below 0, behind a blank.
pub(crate) fn put_integer(number: i128, into: &mut Vec<u8>) -> Result<(), AllocError>
    ensures { OnOk result (into.new.items
        ≡ into.old.items ++ behind (signed_decimal number ∷ [])) }
{
    into.push(b' ')?;
    let mut buffer = Buffer::new();
    into.extend_from_slice(buffer.format(number).as_bytes())
}

// Appends a number behind a blank, where there is one.
pub(crate) fn put_maybe(number: Option<i128>, into: &mut Vec<u8>) -> Result<(), AllocError>
    ensures { OnOk result (into.new.items ≡ into.old.items ++ behind (number_words number)) }
{
    match number {
        Some(number) => put_integer(number, into),
        None => Ok(()),
    }
}

// Appends six numbers, each behind a blank.
pub(crate) fn put_numbers(
    numbers: &(i128, i128, i128, i128, i128, i128),
    into: &mut Vec<u8>,
) -> Result<(), AllocError>
    ensures { OnOk result (into.new.items ≡ into.old.items ++ behind (six_words numbers.now)) }
{
    put_three(&numbers.0, &numbers.1, &numbers.2, into)?;
    put_three(&numbers.3, &numbers.4, &numbers.5, into)
}

fn put_three(a: &i128, b: &i128, c: &i128, into: &mut Vec<u8>) -> Result<(), AllocError>
    ensures { OnOk result (into.new.items ≡ into.old.items
        ++ behind (signed_decimal a.now ∷ signed_decimal b.now ∷ signed_decimal c.now ∷ [])) }
{
    put_integer(*a, into)?;
    put_integer(*b, into)?;
    put_integer(*c, into)
}

fn put_rest(rest: Rest, into: &mut Vec<u8>) -> Result<(), AllocError>
    ensures { OnOk result (into.new.items ≡ into.old.items ++ rest_word rest) }
{
    match rest {
        Rest::Micros(micros) => put_digits(u64::from(micros), into),
        Rest::Picos(picos) => {
            put_digits(u64::from(picos), into)?;
            into.push(b'p')?;
            Ok(())
        }
    }
}

// Appends a time behind a blank, its fields as they stand.
pub(crate) fn put_time(at: &Cds, into: &mut Vec<u8>) -> Result<(), AllocError>
    ensures { OnOk result (into.new.items ≡ into.old.items ++ behind (time_word at.now ∷ [])) }
{
    put_count(u64::from(at.days), into)?;
    into.push(b'/')?;
    put_digits(u64::from(at.millis), into)?;
    into.push(b'/')?;
    put_rest(at.rest, into)
}

// Appends a quality behind a blank, where there is one.
pub(crate) fn put_quality(
    quality: Option<FrameQuality>,
    into: &mut Vec<u8>,
) -> Result<(), AllocError>
    ensures { OnOk result (into.new.items ≡ into.old.items ++ behind (quality_words quality)) }
{
    match quality {
        Some(quality) => put_count(u64::from(quality.number()), into),
        None => Ok(()),
    }
}

// Appends octets behind a blank.
pub(crate) fn put_octets(octets: &[u8], into: &mut Vec<u8>) -> Result<(), AllocError>
    ensures { OnOk result (into.new.items
        ≡ into.old.items ++ behind (encode_lower octets.now ∷ [])) }
{
    into.push(b' ')?;
    hex_text::append(octets, into)
}

// Appends an antenna behind a blank.
pub(crate) fn put_antenna(antenna: &AntennaId<'_>, into: &mut Vec<u8>) -> Result<(), AllocError>
    ensures { OnOk result (into.new.items
        ≡ into.old.items ++ behind (antenna_word (antenna_of antenna.now) ∷ [])) }
{
    match antenna {
        AntennaId::Global(octets) => {
            into.extend_from_slice(b" oid:")?;
            hex_text::append(octets, into)
        }
        AntennaId::Local(octets) => put_octets(octets, into),
    }
}
