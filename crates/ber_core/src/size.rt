// How many octets an element takes, and the fewest octets of a number.

ghost use Rattle.std.specs.Prelude.{◌≡◌, ℕ, ◌+◌, ◌*◌, ◌^◌, ◌<◌, ◌≤◌, ◌↔◌, IsTrue, ℤ, pos, negsuc};
ghost use Rattle.std.specs.Prelude.{◌≤ℤ◌, length};
ghost use Rattle.std.specs.Int.{w128, to_be_bytes, cast_unsigned};
ghost use Rattle.ber_core.specs.Length.{without_zeros, shortest_length};
ghost use Rattle.ber_core.specs.Integer.{is_redundant, without_redundant, integer_octets};

// The octets from the first one that isn't 0 on.
pub(crate) fn significant(octets: &[u8]) -> &[u8]
    ensures { result.now ≡ without_zeros octets.now }
{
    let mut rest = octets;
    while let [0, after @ ..] = rest {
        rest = after;
    }
    rest
}

pub(crate) fn has_redundant_first(octets: &[u8]) -> bool
    ensures { result ≡ is_redundant octets.now }
{
    match octets {
        [0, second, ..] => *second < 128,
        [255, second, ..] => *second >= 128,
        _ => false,
    }
}

// A two's complement without the first octets that X.690 8.3.2 forbids.
#[tactic(auto, unfolding(crate::specs::Integer::without_redundant))]
pub(crate) fn shortest_complement(octets: &[u8]) -> &[u8]
    ensures shortest { result.now ≡ without_redundant octets.now }
    ensures within { length result.now ≤ length octets.now }
{
    let mut rest = octets;
    while has_redundant_first(rest) {
        rest = &rest[1..];
    }
    rest
}

// The two's complement in sixteen octets.
pub(crate) fn complement_of(value: i128) -> [u8; 16]
    ensures { result ≡ to_be_bytes w128 (cast_unsigned w128 value) }
{
    value.to_be_bytes()
}

// The content octets of an INTEGER among those sixteen.
#[tactic(auto, unfolding(crate::specs::Integer::integer_octets))]
pub(crate) fn integer_content(octets: &[u8], value: i128) -> &[u8]
    requires { octets.now ≡ to_be_bytes w128 (cast_unsigned w128 value) }
    ensures { result.now ≡ integer_octets value }
{
    shortest_complement(octets)
}

// Whether a length is written behind its first octet in two more.
#[inline(always)]
pub(crate) fn has_two_octets(content: usize) -> bool
    ensures { IsTrue result ↔ ((256 ≤ content) × (content < 65536)) }
{
    256 <= content && content < 65_536
}

// The octets of such a length.
#[inline(always)]
pub(crate) fn two_octet_length(content: usize) -> [u8; 3]
    requires several { 256 ≤ content }
    requires few { content < 65536 }
    ensures { result ≡ shortest_length content }
{
    [130, (content / 256) as u8, (content % 256) as u8]
}

// Whether an INTEGER has one content octet.
#[inline(always)]
pub(crate) fn has_one_octet(value: i128) -> bool
    ensures { IsTrue result ↔ ((negsuc 127 ≤ℤ value) × (value ≤ℤ pos 127)) }
{
    -128 <= value && value <= 127
}

// The content octet of such an INTEGER.
#[inline(always)]
pub(crate) fn one_octet(value: i128) -> [u8; 1]
    requires least { negsuc 127 ≤ℤ value }
    requires greatest { value ≤ℤ pos 127 }
    ensures { result ≡ integer_octets value }
{
    if value < 0 {
        [(value + 256) as u8]
    } else {
        [value as u8]
    }
}

#[tactic(auto, unfolding(crate::specs::Length::shortest_length))]
fn length_octets(content: usize) -> usize
    ensures exact { result ≡ length (shortest_length content) }
    ensures small { result ≤ 9 }
{
    if content < 128 {
        1
    } else if has_two_octets(content) {
        two_octet_length(content).len()
    } else {
        1 + significant(&content.to_be_bytes()).len()
    }
}

/// The number of octets of an element with so many content octets, in its canonical spelling.
pub fn element_length(identifier: &[u8], content: usize) -> usize
    requires { length identifier.now + 9 + content < 2 ^ 64 }
    ensures exact { result ≡ length identifier.now + length (shortest_length content) + content }
    ensures small { result ≤ length identifier.now + 9 + content }
{
    identifier.len() + length_octets(content) + content
}

/// The number of content octets of an INTEGER in its canonical spelling.
#[tactic(auto, unfolding(crate::specs::Integer::integer_octets))]
pub fn integer_length(value: i128) -> usize
    ensures exact { result ≡ length (integer_octets value) }
    ensures small { result ≤ 16 }
{
    if has_one_octet(value) {
        return one_octet(value).len();
    }
    shortest_complement(&value.to_be_bytes()).len()
}
