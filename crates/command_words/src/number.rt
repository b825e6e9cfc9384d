// A number of frames as a word of the command line says it.
ghost use Rattle.std.specs.Prelude.{◌≡◌, ◌≤◌, IfSome};
ghost use Rattle.command_words.specs.Number.{frames_of, behind};

// The most frames of a rehearsal.
const MOST_FRAMES: u32 = 20_000;

/// The number of frames that a word says: decimal digits without sign and without leading zeros.
pub fn frames_of(word: &[u8]) -> Option<u32>
    ensures exact { result ≡ frames_of word.now }
    ensures range { IfSome result (λ n. (1 ≤ n) × (n ≤ 20000)) }
{
    let (first, digits) = word.split_first()?;
    if *first < b'1' || b'9' < *first {
        return None;
    }
    number_behind(u32::from(*first - b'0'), digits)
}

// The number that digits behind some others make, where it isn't above the most.
fn number_behind(so_far: u32, digits: &[u8]) -> Option<u32>
    requires some { 1 ≤ so_far }
    requires few { so_far ≤ 20000 }
    ensures exact { result ≡ behind so_far digits.now }
    ensures range { IfSome result (λ n. (1 ≤ n) × (n ≤ 20000)) }
{
    let mut number = so_far;
    for digit in digits {
        if !digit.is_ascii_digit() {
            return None;
        }
        number = number * 10 + u32::from(*digit - b'0');
        if number > MOST_FRAMES {
            return None;
        }
    }
    Some(number)
}
