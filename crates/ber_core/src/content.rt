// The rules of content octets. Each function answers what the content says, or its fault, with the
// place at which the content begins.

ghost use Rattle.std.specs.Prelude.{◌≡◌, ◌∷◌, [], ℕ, ℤ, ◌+◌, ◌*◌, ◌^◌, ◌<◌, ◌≤◌, ◌≤ℤ◌, ◌&&◌, true};
ghost use Rattle.std.specs.Prelude.{length, IfOk};
ghost use Rattle.std.specs.List.{list_all};
ghost use Rattle.ber_core.specs.Length.{number_of};
ghost use Rattle.ber_core.specs.Integer.{is_wide, signed_of};
ghost use Rattle.ber_core.specs.Reading.{Gives, integer_of, string_of, visible_of, object_id_of};
ghost use Rattle.ber_core.specs.Reading.{null_of, has_length, is_visible, are_subidentifiers};

use crate::fault::BerFault;
use crate::size::has_redundant_first;

// The number that octets write, the most significant first.
pub(crate) fn number_of(octets: &[u8]) -> u128
    requires { length octets.now ≤ 9 }
    ensures exact { result ≡ number_of octets.now }
    ensures below { result < 256 ^ length octets.now }
    ensures narrow { result < 2 ^ 72 }
    ensures eight { length octets.now ≤ 8 → result < 2 ^ 64 }
{
    let mut number = 0;
    for octet in octets {
        number = number * 256 + u128::from(*octet);
    }
    number
}

fn is_wide(content: &[u8]) -> bool
    ensures { result ≡ is_wide content.now }
{
    match content {
        [first, ..] if content.len() == 9 => *first > 0,
        _ => content.len() > 9,
    }
}

// How many numbers so many octets write.
fn modulus(count: usize) -> u128
    requires { count ≤ 9 }
    ensures exact { result ≡ 256 ^ count }
    ensures below { result ≤ 2 ^ 72 }
{
    1 << (8 * count)
}

// The number that they say in two's complement.
fn signed_of(content: &[u8]) -> i128
    requires some { 0 < length content.now }
    requires narrow { length content.now ≤ 9 }
    ensures { result ≡ signed_of content.now }
{
    let number = number_of(content);
    if content[0] < 128 {
        number as i128
    } else {
        -((modulus(content.len()) - number) as i128)
    }
}

// The number that one octet says in two's complement.
#[inline(always)]
fn signed_octet(octet: u8) -> i128
    ensures { result ≡ signed_of (octet ∷ []) }
{
    if octet < 128 {
        i128::from(octet)
    } else {
        i128::from(octet) - 256
    }
}

// Most numbers have one octet: theirs is the path that is inlined.
#[inline(always)]
pub(crate) fn integer_of(
    content: &[u8],
    place: usize,
    least: i128,
    greatest: i128,
) -> Result<i128, BerFault>
    ensures exact { Gives (λ value. value) result (integer_of least greatest place content.now) }
    ensures range { IfOk result (λ value. (least ≤ℤ value) × (value ≤ℤ greatest)) }
{
    let [octet] = content else {
        return any_integer_of(content, place, least, greatest);
    };
    let value = signed_octet(*octet);
    if value < least || greatest < value {
        return Err(BerFault::BadContent { place });
    }
    Ok(value)
}

// The same of any content.
#[inline(never)]
fn any_integer_of(
    content: &[u8],
    place: usize,
    least: i128,
    greatest: i128,
) -> Result<i128, BerFault>
    ensures exact { Gives (λ value. value) result (integer_of least greatest place content.now) }
    ensures range { IfOk result (λ value. (least ≤ℤ value) × (value ≤ℤ greatest)) }
{
    if content.is_empty() || has_redundant_first(content) {
        return Err(BerFault::BadContent { place });
    }
    if is_wide(content) {
        return Err(BerFault::Wide { place });
    }
    let value = signed_of(content);
    if value < least || greatest < value {
        return Err(BerFault::BadContent { place });
    }
    Ok(value)
}

fn has_length(content: &[u8], least: usize, greatest: usize) -> bool
    ensures { result ≡ has_length least greatest content.now }
{
    least <= content.len() && content.len() <= greatest
}

pub(crate) fn string_of(
    content: &[u8],
    place: usize,
    least: usize,
    greatest: usize,
) -> Result<&[u8], BerFault>
    ensures { Gives (λ octets. octets.now) result (string_of least greatest place content.now) }
{
    if has_length(content, least, greatest) {
        Ok(content)
    } else {
        Err(BerFault::BadContent { place })
    }
}

fn are_visible(content: &[u8]) -> bool
    ensures { result ≡ list_all is_visible content.now }
{
    content.iter().all(|octet| 0x20 <= *octet && *octet <= 0x7e)
}

pub(crate) fn visible_of(
    content: &[u8],
    place: usize,
    least: usize,
    greatest: usize,
) -> Result<&[u8], BerFault>
    ensures { Gives (λ octets. octets.now) result (visible_of least greatest place content.now) }
{
    if has_length(content, least, greatest) && are_visible(content) {
        Ok(content)
    } else {
        Err(BerFault::BadContent { place })
    }
}

fn are_subidentifiers(content: &[u8]) -> bool
    ensures { result ≡ are_subidentifiers true content.now }
{
    let mut begins = true;
    for octet in content {
        if begins && *octet == 128 {
            return false;
        }
        begins = *octet < 128;
    }
    begins
}

pub(crate) fn object_id_of(content: &[u8], place: usize) -> Result<&[u8], BerFault>
    ensures { Gives (λ octets. octets.now) result (object_id_of place content.now) }
{
    if !content.is_empty() && are_subidentifiers(content) {
        Ok(content)
    } else {
        Err(BerFault::BadContent { place })
    }
}

pub(crate) fn null_of(content: &[u8], place: usize) -> Result<(), BerFault>
    ensures { Gives (λ _. tt) result (null_of place content.now) }
{
    if content.is_empty() {
        Ok(())
    } else {
        Err(BerFault::BadContent { place })
    }
}
