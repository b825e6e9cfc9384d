// What stands on a mark, put together piece by piece.

use itoa::Buffer;
use std::alloc::{AllocError, Global};

// A text of words and numbers.
#[derive(Drop)]
pub struct Label {
    octets: Vec<u8>,
}

impl Label {
    // A text that begins with a word.
    pub(crate) fn of(alloc: Global, word: &str) -> Result<Label, AllocError> {
        Ok(Label {
            octets: Vec::from_slice(alloc, word.as_bytes())?,
        })
    }

    pub(crate) fn word(&mut self, word: &str) -> Result<(), AllocError> {
        self.octets.extend_from_slice(word.as_bytes())
    }

    pub(crate) fn number(&mut self, number: u32) -> Result<(), AllocError> {
        let mut buffer = Buffer::new();
        self.word(buffer.format(number))
    }

    // A number with zeros before it, so that it has two digits or, where the least is 100, three.
    pub(crate) fn padded(&mut self, number: u32, least: u32) -> Result<(), AllocError> {
        if least > 10 && number < 100 {
            self.word("0")?;
        }
        if number < 10 {
            self.word("0")?;
        }
        self.number(number)
    }

    pub(crate) fn as_slice(&self) -> &[u8] {
        self.octets.as_slice()
    }

    pub(crate) fn into_octets(self) -> Vec<u8> {
        self.octets
    }
}
