// The lanes of a pass, column by column.

use crate::cltus::Cltus;
use crate::note::Note;
use crate::place::{ABOVE, NAMES, Place};
use lane_picture::{Lane, Mark};
use sle_common::Gvcid;
use std::alloc::{AllocError, Global};

/// The lanes of a pass.
#[derive(Drop)]
pub struct Lanes {
    pub(crate) alloc: Global,
    // How many columns were begun.
    pub(crate) columns: u32,
    pub(crate) lanes: Vec<Lane>,
    // The lanes of the channels, and which channel each is of.
    pub(crate) channels: Vec<Lane>,
    pub(crate) identifiers: Vec<Option<Gvcid>>,
    pub(crate) cltus: Cltus,
    // The day that was told last.
    pub(crate) day: Option<u16>,
}

impl Lanes {
    /// Lanes without a column.
    pub fn new(alloc: Global) -> Result<Lanes, AllocError> {
        let mut lanes = Vec::new(alloc);
        for name in &NAMES {
            let lane = Lane::new(alloc, Vec::from_slice(alloc, name.as_bytes())?);
            lanes.push(if *name == "time" {
                lane.upright()
            } else {
                lane
            })?;
        }
        Ok(Lanes {
            alloc,
            columns: 0,
            lanes,
            channels: Vec::new(alloc),
            identifiers: Vec::new(alloc),
            cltus: Cltus::new(alloc),
            day: None,
        })
    }

    /// Begins a column: what is put stands there from now on.
    pub fn next_column(&mut self) {
        self.columns = self.columns.saturating_add(1);
    }

    /// How many columns there are.
    pub fn columns(&self) -> u32 {
        self.columns
    }

    /// The column in which things are put, from 0 on.
    pub fn column(&self) -> u32 {
        self.columns.saturating_sub(1)
    }

    /// Puts a note into a row of a lane.
    pub fn put(&mut self, place: Place, row: u32, note: Note<'_>) -> Result<(), AllocError> {
        let column = self.column();
        let mark = note.mark(self.alloc, column, column.saturating_add(1), row)?;
        self.put_mark(place, mark)
    }

    // Puts a mark into a lane.
    pub(crate) fn put_mark(&mut self, place: Place, mark: Mark) -> Result<(), AllocError> {
        match self.lanes.get_mut(place.index()) {
            Some(lane) => lane.put(mark),
            None => Ok(()),
        }
    }

    /// Ends what lasts in a lane's first row, and begins a note that lasts from now on, if one is
    /// given.
    pub fn turn(&mut self, place: Place, note: Option<Note<'_>>) -> Result<(), AllocError> {
        let column = self.column();
        let next = match note {
            Some(note) => Some(note.mark(self.alloc, column, column.saturating_add(1), 0)?),
            None => None,
        };
        match self.lanes.get_mut(place.index()) {
            Some(lane) => lane.turn(column, next),
            None => Ok(()),
        }
    }

    /// Ends what lasts in the lanes of all connections.
    pub fn cut_connections(&mut self) -> Result<(), AllocError> {
        for c in 0..17 {
            self.turn(Place::Connection(c), None)?;
        }
        Ok(())
    }

    /// Ends all that lasts, behind the last column, and puts the CLTUs into their lane.
    pub fn finish(&mut self) -> Result<(), AllocError> {
        self.put_cltus()?;
        let columns = self.columns;
        for lane in self.lanes.iter_mut() {
            lane.turn(columns, None)?;
        }
        Ok(())
    }

    /// All lanes, in the order in which they stand: those of numbers and times, those of channels,
    /// and all others.
    pub fn groups(&self) -> [&[Lane]; 3] {
        match self.lanes.as_slice().split_at_checked(ABOVE) {
            Some((above, below)) => [above, self.channels.as_slice(), below],
            None => [&[], self.channels.as_slice(), &[]],
        }
    }
}
