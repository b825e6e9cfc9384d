// A text that is put together piece by piece.
ghost use Rattle.std.specs.Prelude.{◌≡◌, [], Some};
ghost use Rattle.explain_words.specs.Text.{Gains, Keeps};

use itoa::Buffer;
use std::alloc::{AllocError, Global};
use std::marker::Model;

// What stands before a title, and before a field.
const TITLE: &str = "  ";

const FIELD: &str = "    ";

// How many octets of a field are shown.
const SHOWN: usize = 32;

// The least numbers of two digits and more.
const PLACES: [u32; 9] = [
    10,
    100,
    1_000,
    10_000,
    100_000,
    1_000_000,
    10_000_000,
    100_000_000,
    1_000_000_000,
];

/// A text of titles and fields. Once memory was refused it takes nothing more. Contracts see its
/// octets, or none from then on.
#[derive(Debug, Drop)]
pub struct Text {
    octets: Vec<u8>,
    is_spent: bool,
}

impl Model for Text {
    ghost use Rattle.std.specs.Prelude.{List, ℕ, Option, Some, None, if◌then◌else◌};

    ghost Value = { Option (List ℕ) };

    ghost view = { λ text. if text.is_spent then None else Some text.octets.items };
}

impl Text {
    /// A text without an octet. It takes no memory.
    pub fn new(alloc: Global) -> Text
        ensures { result ≡ Some [] }
    {
        Text {
            octets: Vec::new(alloc),
            is_spent: false,
        }
    }

    /// Makes it empty, as it was at first.
    pub fn clear(&mut self)
        ensures { self.new ≡ Some [] }
    {
        self.octets.clear();
        self.is_spent = false;
    }

    /// All that was put, or that memory was refused.
    pub fn octets(&self) -> Result<&[u8], AllocError>
        ensures { Keeps self.now result }
    {
        if self.is_spent {
            Err(AllocError)
        } else {
            Ok(self.octets.as_slice())
        }
    }

    /// Appends octets.
    pub fn put_octets(&mut self, octets: &[u8])
        ensures { Gains self.old self.new octets.now }
    {
        if !self.is_spent {
            self.is_spent = self.octets.extend_from_slice(octets).is_err();
        }
    }

    /// Appends words.
    pub fn put(&mut self, words: &str)
        ensures { Gains self.old self.new words.now }
    {
        self.put_octets(words.as_bytes());
    }

    /// Appends a number.
    pub fn put_number(&mut self, number: i128) {
        let mut buffer = Buffer::new();
        self.put(buffer.format(number));
    }

    /// Appends a number with up to so many zeros before it, nine at most, which stand in the places
    /// that it doesn't fill.
    pub fn put_padded(&mut self, number: u32, zeros: usize) {
        for least in &PLACES[..zeros.min(PLACES.len())] {
            if number < *least {
                self.put("0");
            }
        }
        self.put_number(i128::from(number));
    }

    /// Appends octets in hexadecimal digits: 32 of them at most, and how many there are, where there
    /// are more.
    pub fn put_hex(&mut self, octets: &[u8]) {
        let shown = &octets[..octets.len().min(SHOWN)];
        let mut digits = [0; 2 * SHOWN];
        let digits = &mut digits[..2 * shown.len()];
        hex::encode_to_slice(shown, digits).unwrap();
        self.put_octets(digits);
        if octets.is_empty() {
            self.put("none");
        }
        if octets.len() > SHOWN {
            self.put(".., of ");
            self.put_number(octets.len() as i128);
            self.put(" octets");
        }
    }

    /// Begins a line of its own.
    pub fn begin_title(&mut self) {
        self.put(TITLE);
    }

    /// Begins the line of a field.
    pub fn begin(&mut self, name: &str) {
        self.put(FIELD);
        self.put(name);
        self.put(": ");
    }

    /// Ends a line.
    pub fn end(&mut self) {
        self.put("\n");
    }

    /// Appends a line of its own.
    pub fn title(&mut self, words: &str) {
        self.begin_title();
        self.put(words);
        self.end();
    }

    /// Appends a line of its own that has a number.
    pub fn counted(&mut self, before: &str, number: i128, behind: &str) {
        self.begin_title();
        self.put(before);
        self.put_number(number);
        self.put(behind);
        self.end();
    }

    /// Appends a field that is words.
    pub fn field(&mut self, name: &str, words: &str) {
        self.begin(name);
        self.put(words);
        self.end();
    }

    /// Appends a field that is a number.
    pub fn number(&mut self, name: &str, number: i128) {
        self.begin(name);
        self.put_number(number);
        self.end();
    }

    /// Appends a field that is characters.
    pub fn characters(&mut self, name: &str, characters: &[u8]) {
        self.begin(name);
        self.put_octets(characters);
        self.end();
    }

    /// Appends a field that is octets.
    pub fn hex(&mut self, name: &str, octets: &[u8]) {
        self.begin(name);
        self.put_hex(octets);
        self.end();
    }
}
