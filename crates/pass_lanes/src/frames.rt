// The lanes of channels, and their frames.

use crate::label::Label;
use crate::lanes::Lanes;
use crate::note::Note;
use frame_select::channel_of;
use lane_picture::{Lane, Look};
use sle_common::{Channel, Gvcid};
use std::alloc::{AllocError, Global};

// How many lanes channels have. The frames of the ones behind stand in the last.
const CHANNELS: usize = 100;

// In which rows gaps stand, and frames.
const GAPS: u32 = 0;

const FRAMES: u32 = 1;

impl Lanes {
    /// Puts a frame into its channel's lane, and in front of it how many are missing.
    pub fn put_frame(
        &mut self,
        octets: &[u8],
        lost: u32,
        note: Note<'_>,
    ) -> Result<(), AllocError> {
        let place = self.channel_place(channel_of(octets))?;
        if lost > 0 {
            self.put_gap(place, lost, note.tip)?;
        }
        self.put_in_channel(place, FRAMES, note)
    }

    fn put_gap(&mut self, place: usize, lost: u32, tip: &[u8]) -> Result<(), AllocError> {
        let mut text = Label::of(self.alloc, "")?;
        text.number(lost)?;
        text.word(" lost")?;
        self.put_in_channel(place, GAPS, Note::new(Look::Gap, text.as_slice(), tip))
    }

    fn put_in_channel(&mut self, place: usize, row: u32, note: Note<'_>) -> Result<(), AllocError> {
        let column = self.column();
        let mark = note.mark(self.alloc, column, column.saturating_add(1), row)?;
        match self.channels.get_mut(place) {
            Some(lane) => lane.put(mark),
            None => Ok(()),
        }
    }

    // Where a channel's lane is, which is made where it isn't there.
    fn channel_place(&mut self, channel: Option<Gvcid>) -> Result<usize, AllocError> {
        let place = self.known_place(channel);
        if place < self.identifiers.len() || self.channels.len() >= CHANNELS {
            return Ok(place.min(CHANNELS - 1));
        }
        let is_last = self.channels.len() + 1 == CHANNELS;
        let name = channel_name(self.alloc, channel, is_last)?;
        self.channels.push(Lane::new(self.alloc, name))?;
        self.identifiers.push(channel)?;
        Ok(place)
    }

    // Where it is among those that came; behind them where it isn't.
    fn known_place(&self, channel: Option<Gvcid>) -> usize {
        for (place, known) in self.identifiers.iter().enumerate() {
            if is_same(known, &channel) {
                return place;
            }
        }
        self.identifiers.len()
    }
}

fn is_same(one: &Option<Gvcid>, other: &Option<Gvcid>) -> bool {
    match (one, other) {
        (Some(one), Some(other)) => *one == *other,
        (None, None) => true,
        _ => false,
    }
}

fn channel_name(
    alloc: Global,
    channel: Option<Gvcid>,
    is_last: bool,
) -> Result<Vec<u8>, AllocError> {
    if is_last {
        return Ok(Label::of(alloc, "other channels")?.into_octets());
    }
    match channel {
        Some(channel) => name_of(alloc, &channel),
        None => Ok(Label::of(alloc, "frames of no channel")?.into_octets()),
    }
}

// As scripts name it: the spacecraft, the version and the virtual channel.
fn name_of(alloc: Global, channel: &Gvcid) -> Result<Vec<u8>, AllocError> {
    let mut text = Label::of(alloc, "channel ")?;
    text.number(u32::from(channel.spacecraft))?;
    text.word("/")?;
    text.number(u32::from(channel.version))?;
    text.word("/")?;
    if let Channel::Virtual(number) = channel.channel {
        text.number(u32::from(number))?;
    }
    Ok(text.into_octets())
}
