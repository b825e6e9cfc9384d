// The lanes of a picture.

use crate::look::Look;
use std::alloc::{AllocError, Global};

/// What stands in a lane.
#[derive(Debug, Drop)]
pub struct Mark {
    /// Its first column, from 0 on.
    pub from: u32,
    /// The column behind its last one.
    pub to: u32,
    /// The row of the lane in which it stands, from 0 on.
    pub row: u32,
    pub look: Look,
    /// What stands on it, as far as there is room.
    pub text: Vec<u8>,
    /// What a pointer over it is told.
    pub tip: Vec<u8>,
}

/// A lane of a picture.
#[derive(Debug, Drop)]
pub struct Lane {
    name: Vec<u8>,
    is_upright: bool,
    marks: Vec<Mark>,
    open: Option<Mark>,
}

impl Lane {
    /// A lane without a mark.
    pub fn new(alloc: Global, name: Vec<u8>) -> Lane {
        Lane {
            name,
            is_upright: false,
            marks: Vec::new(alloc),
            open: None,
        }
    }

    /// The same one, the texts of whose second row are written upright.
    pub fn upright(self) -> Lane {
        let mut lane = self;
        lane.is_upright = true;
        lane
    }

    /// What it is called.
    pub fn name(&self) -> &[u8] {
        self.name.as_slice()
    }

    /// Whether the texts of its second row are written upright.
    pub fn is_upright(&self) -> bool {
        self.is_upright
    }

    /// Its marks.
    pub fn marks(&self) -> &[Mark] {
        self.marks.as_slice()
    }

    /// Adds a mark.
    pub fn put(&mut self, mark: Mark) -> Result<(), AllocError> {
        self.marks.push(mark)?;
        Ok(())
    }

    /// Ends the mark that lasts in this lane, if one does, before a column, and begins another one,
    /// if one is given.
    pub fn turn(&mut self, column: u32, next: Option<Mark>) -> Result<(), AllocError> {
        if let Some(mark) = self.open.take() {
            self.put_until(column, mark)?;
        }
        self.open = next;
        Ok(())
    }

    fn put_until(&mut self, column: u32, mark: Mark) -> Result<(), AllocError> {
        let mut mark = mark;
        if mark.from < column {
            mark.to = column;
            self.marks.push(mark)?;
        }
        Ok(())
    }

    /// How many rows its marks take.
    pub fn rows(&self) -> u32 {
        let mut rows = 0u32;
        for mark in self.marks() {
            rows = rows.max(mark.row.saturating_add(1));
        }
        rows
    }
}
