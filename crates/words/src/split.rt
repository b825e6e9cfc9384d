// The parts of a text between separators.
ghost use Rattle.std.specs.Prelude.{◌≡◌, ◌==◌, ◌≤◌, ◌∷◌, ◌+◌, length, count_by};
ghost use Rattle.std.specs.List.{position_or_len};
ghost use Rattle.words.specs.Parts.{parts};
ghost use Rattle.words.specs.Reading.{parts_behind, lent};
ghost use Rattle.words.specs.Suffixed.{before_last};

use memchr::memchr;

/// The first part of a text, and what stands behind the `separator` that ends it, if there is one.
pub fn split_part(separator: u8, text: &[u8]) -> (&[u8], Option<&[u8]>)
    ensures { parts separator text.now ≡ result.0.now ∷ parts_behind separator result.1 }
{
    let end = place_of(separator, text);
    if end < text.len() {
        (&text[..end], Some(&text[end + 1..]))
    } else {
        (text, None)
    }
}

// The place of the first such octet, or the text's length where there is none.
fn place_of(octet: u8, text: &[u8]) -> usize
    ensures place { result ≡ position_or_len (λ found. found == octet) text.now }
    ensures within { result ≤ length text.now }
{
    memchr(octet, text).unwrap_or(text.len())
}

// What stands before the last octet, where it is this one.
pub(crate) fn before_last(octet: u8, word: &[u8]) -> Option<&[u8]>
    ensures { before_last octet word.now ≡ lent result }
{
    let (last, front) = word.split_last()?;
    if *last == octet { Some(front) } else { None }
}

// How many parts stand behind a separator.
pub(crate) fn count_parts(separator: u8, words: Option<&[u8]>) -> usize
    ensures { result ≡ length (parts_behind separator words.entry) }
{
    match words {
        None => 0,
        Some(text) => count_separators(separator, text) + 1,
    }
}

#[tactic(auto, using(crate::proofs::Parts::count_and_one))]
fn count_separators(separator: u8, text: &[u8]) -> usize
    ensures count { result ≡ count_by (λ octet. octet == separator) text.now }
    ensures within { result ≤ length text.now }
    ensures parts { length (parts separator text.now) ≡ result + 1 }
{
    text.iter().filter(|octet| **octet == separator).count()
}
