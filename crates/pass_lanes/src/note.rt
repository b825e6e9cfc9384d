// What is put into a lane.

use lane_picture::{Look, Mark};
use std::alloc::{AllocError, Global};

/// What is put into a lane: how it looks, what stands on it, and what a pointer over it is told.
#[derive(Clone, Copy, Debug)]
pub struct Note<'a> {
    pub look: Look,
    pub text: &'a [u8],
    pub tip: &'a [u8],
}

// How many octets a pointer is told at most.
const TOLD: usize = 2_000;

impl<'a> Note<'a> {
    pub fn new(look: Look, text: &'a [u8], tip: &'a [u8]) -> Note<'a> {
        Note { look, text, tip }
    }

    // Its mark in a row, from a column up to another one.
    pub(crate) fn mark(
        &self,
        alloc: Global,
        from: u32,
        to: u32,
        row: u32,
    ) -> Result<Mark, AllocError> {
        let tip = &self.tip[..self.tip.len().min(TOLD)];
        Ok(Mark {
            from,
            to,
            row,
            look: self.look,
            text: Vec::from_slice(alloc, self.text)?,
            tip: Vec::from_slice(alloc, tip)?,
        })
    }
}
