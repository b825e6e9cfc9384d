// Decimal numbers.
ghost use Rattle.std.specs.Prelude.{◌≡◌, ◌≤◌, IsTrue, IfSome, Some, None, nat_le, if◌then◌else◌};
ghost use Rattle.std.specs.List.{list_all};
ghost use Rattle.std.specs.Char.{is_ascii_digit};
ghost use Rattle.std.specs.Str.Parse.{digits_value};
ghost use Rattle.words.specs.Number.{is_number, number_read};

// The number of a range that a word is: decimal digits without sign and leading zeros. It takes no
// memory, which the words of `words` may want by their contract.
pub(crate) fn number(word: &[u8], least: u64, most: u64) -> Option<u64>
    ensures exact { result ≡ number_read least most word.now }
    ensures range { IfSome result (λ value. (least ≤ value) × (value ≤ most)) }
{
    if !is_number(word) {
        return None;
    }
    let value = value_of(word, most)?;
    if value < least { None } else { Some(value) }
}

// Whether a word is decimal digits without leading zeros.
fn is_number(word: &[u8]) -> bool
    ensures { result ≡ is_number word.now }
{
    !word.is_empty() && (all_digits(word) && (word.len() == 1 || word[0] != b'0'))
}

fn all_digits(word: &[u8]) -> bool
    ensures { result ≡ list_all is_ascii_digit word.now }
{
    word.iter().all(|digit| digit.is_ascii_digit())
}

// The number that digits write, unless it is above the greatest one.
#[tactic(auto, using(crate::proofs::Digits::value_grows_past))]
fn value_of(digits: &[u8], most: u64) -> Option<u64>
    requires { IsTrue (list_all is_ascii_digit digits.now) }
    ensures exact { result ≡ (if nat_le (digits_value 10 digits.now) most then Some
        (digits_value 10 digits.now) else None) }
    ensures most { IfSome result (λ value. value ≤ most) }
{
    let mut value = 0u64;
    for digit in digits {
        let wide = u128::from(value) * 10 + u128::from(*digit - b'0');
        if wide > u128::from(most) {
            return None;
        }
        value = wide as u64;
    }
    Some(value)
}
