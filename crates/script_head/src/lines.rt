// The lines of a text.
ghost use Rattle.std.specs.Prelude.{◌≡◌, ◌==◌, ◌≤◌, length};
ghost use Rattle.std.specs.List.{position_or_len, before_first, after_first};

use memchr::memchr;

/// The first line of a text and what stands behind it. Lines end with an octet 0A; the last may
/// lack it.
pub fn split_line(text: &[u8]) -> (&[u8], &[u8])
    ensures line { result.0.now ≡ before_first (λ octet. octet == 10) text.now }
    ensures rest { result.1.now ≡ after_first (λ octet. octet == 10) text.now }
{
    let end = end_of(text);
    if end < text.len() {
        (&text[..end], &text[end + 1..])
    } else {
        (text, &[])
    }
}

// The place of the first line's end, or the text's length where it has none.
fn end_of(text: &[u8]) -> usize
    ensures place { result ≡ position_or_len (λ found. found == 10) text.now }
    ensures within { result ≤ length text.now }
{
    memchr(b'\n', text).unwrap_or(text.len())
}
