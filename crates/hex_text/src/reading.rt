// Digits are read as octets.
ghost use Rattle.std.specs.Prelude.{◌≡◌, ◌*◌, ◌%◌, true, false, length, IfOk, IsErrOf, Ok, None};
ghost use Rattle.std.specs.Prelude.{unwrap_or};
ghost use Rattle.std.specs.Result.{result_ok};
ghost use Rattle.hex.specs.Hex.{decode_of, hex_digit_value};
ghost use Rattle.hex_text.specs.declared.decode_fault.DecodeFault.TheVariants as DecodeFault;

use crate::decode_fault::DecodeFault;
use std::alloc::Global;

/// The octets of a text of digits, in either case, two for each octet. A text of an odd length is
/// refused before any memory is taken.
pub fn decode(alloc: Global, digits: &[u8]) -> Result<Vec<u8>, DecodeFault>
    ensures ok { IfOk result (λ octets. decode_of digits.now ≡ Ok octets.items) }
    ensures no_digits { IsErrOf result DecodeFault.NoDigits
        → result_ok (decode_of digits.now) ≡ None }
    ensures odd { length digits.now % 2 ≡ 1 → IsErrOf result DecodeFault.NoDigits }
{
    if digits.len() % 2 != 0 {
        return Err(DecodeFault::NoDigits);
    }
    let mut octets = Vec::new(alloc);
    octets.resize(digits.len() / 2, 0)?;
    if read_pairs(digits, &mut octets) {
        Ok(octets)
    } else {
        Err(DecodeFault::NoDigits)
    }
}

// Reads a pair of digits for each octet, and says whether all are digits. The greatest of their
// values shows it after the loop, so that no octet waits for the one before.
fn read_pairs(digits: &[u8], octets: &mut [u8]) -> bool
    requires { length digits.now ≡ 2 * length octets.old }
    ensures all { result ≡ true → decode_of digits.now ≡ Ok octets.new }
    ensures others { result ≡ false → result_ok (decode_of digits.now) ≡ None }
{
    let (pairs, _) = digits.as_chunks::<2>();
    // They are as many, as is required. Where a compiler sees it, it tests no index below.
    if pairs.len() != octets.len() {
        return false;
    }
    let mut greatest: u8 = 0;
    'octets: for i in 0..octets.len() {
        let high = value(pairs[i][0]);
        let low = value(pairs[i][1]);
        octets[i] = high.wrapping_mul(16).wrapping_add(low);
        greatest = greatest.max(high).max(low);
    }
    greatest < NO_DIGIT
}

// What stands for the value of an octet that is no digit.
const NO_DIGIT: u8 = 16;

// A digit's value, or NO_DIGIT.
fn value(digit: u8) -> u8
    ensures { result ≡ unwrap_or (hex_digit_value digit) 16 }
{
    let number = digit.wrapping_sub(b'0');
    // A lower-case letter is 32 after its upper-case letter.
    let letter = digit.wrapping_sub(b'A');
    if number < 10 {
        number
    } else if letter < 38 && letter % 32 < 6 {
        letter % 32 + 10
    } else {
        NO_DIGIT
    }
}
