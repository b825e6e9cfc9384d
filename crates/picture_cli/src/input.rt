// The parts of the input.

use std::alloc::Global;
use words::{Number, read_word, split_part};

/// A script, and its transcript with a mark in front of what each line led to.
#[derive(Clone, Copy, Debug)]
pub struct Parts<'a> {
    pub script: &'a [u8],
    pub transcript: &'a [u8],
}

impl<'a> Parts<'a> {
    /// The parts of an input, unless it doesn't have them.
    pub fn of(alloc: Global, input: &'a [u8]) -> Option<Parts<'a>> {
        let (first, behind) = split_part(b'\n', input);
        let length = read_word::<Number<0, 16_777_216>>(alloc, first).ok()?;
        let (script, transcript) = behind?.split_at_checked(length as usize)?;
        Some(Parts { script, transcript })
    }
}
