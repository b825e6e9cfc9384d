// The fields of an entry, read one after another.
ghost use Rattle.std.specs.Prelude.{◌≡◌, ◌≤◌, ◌<◌, IfOk, length};
ghost use Rattle.sle_numbers.specs.FrameQuality.{number_of as quality_number};
ghost use Rattle.sle_numbers.specs.LockStatus.{number_of as lock_number};
ghost use Rattle.sle_numbers.specs.ReturnProductionStatus.{number_of as production_number};
ghost use Rattle.record_form.specs.Left.{from};
ghost use Rattle.record_form.specs.Reading.{Reads, octets_at, octet_at, number_at, time_at};
ghost use Rattle.record_form.specs.Reading.{antenna_at, content_at};

use crate::EntryFault;
use crate::kind::{LONGEST_ANTENNA, MICROS, PICOS};
use archive_terms::LONGEST_FRAME;
use cds_time::Cds;
use sle_numbers::{FrameQuality, LockStatus, Numbered, ReturnProductionStatus};
use std::marker::Model;

/// Reads the fields of an entry from its octets, which it lends. It takes no memory.
#[derive(Drop)]
pub struct Fields<'a> {
    place: usize,
    left: &'a [u8],
}

impl<'a> Model for Fields<'a> {
    ghost use Rattle.std.specs.Prelude.{◌+◌, ◌^◌, ◌<◌, length};
    ghost use Rattle.record_form.specs.Left.{Left, left_code};

    ghost Value = { Left };

    ghost coded = { left_code };

    ghost view = { λ fields. record { place = fields.place; octets = fields.left.now } };

    ghost invariant = { λ fields. fields.place + length fields.left.now < 2 ^ 64 };
}

impl<'a> Fields<'a> {
    /// From a place of octets on.
    pub fn new(octets: &'a [u8], place: usize) -> Fields<'a>
        requires { place ≤ length octets.now }
        ensures { result ≡ from place octets.now }
    {
        Fields {
            place,
            left: &octets[place..],
        }
    }

    /// The place of the next octet.
    pub fn place(&self) -> usize
        ensures { result ≡ self.now.place }
    {
        self.place
    }

    /// The next octets, so many.
    pub fn octets(&mut self, size: usize) -> Result<&'a [u8], EntryFault>
        ensures exact { Reads (λ octets. octets.now) self.new result (octets_at size self.old) }
        ensures length { IfOk result (λ octets. length octets.now ≡ size) }
    {
        if self.left.len() < size {
            return Err(EntryFault::Cut);
        }
        let (octets, left) = self.left.split_at(size);
        self.place += size;
        self.left = left;
        Ok(octets)
    }

    /// A number of one octet in this range.
    #[tactic(auto, unfolding(crate::specs::Reading::octet_at))]
    pub fn octet(&mut self, least: u8, greatest: u8) -> Result<u8, EntryFault>
        ensures exact { Reads (λ octet. octet) self.new result (octet_at least greatest self.old) }
        ensures least { IfOk result (λ octet. least ≤ octet) }
        ensures greatest { IfOk result (λ octet. octet ≤ greatest) }
    {
        let place = self.place;
        let octet = self.octets(1)?[0];
        if octet < least || greatest < octet {
            return Err(EntryFault::BadField { place });
        }
        Ok(octet)
    }

    /// How a frame was received.
    pub fn quality(&mut self) -> Result<FrameQuality, EntryFault>
        ensures { Reads quality_number self.new result (octet_at 0 2 self.old) }
    {
        let number = self.octet(0, 2)?;
        let Some(value) = FrameQuality::from_number(number) else {
            unreachable!()
        };
        Ok(value)
    }

    /// A lock status.
    pub fn lock_status(&mut self) -> Result<LockStatus, EntryFault>
        ensures { Reads lock_number self.new result (octet_at 0 3 self.old) }
    {
        let number = self.octet(0, 3)?;
        let Some(value) = LockStatus::from_number(number) else {
            unreachable!()
        };
        Ok(value)
    }

    /// A production status.
    pub fn production_status(&mut self) -> Result<ReturnProductionStatus, EntryFault>
        ensures { Reads production_number self.new result (octet_at 0 2 self.old) }
    {
        let number = self.octet(0, 2)?;
        let Some(value) = ReturnProductionStatus::from_number(number) else {
            unreachable!()
        };
        Ok(value)
    }

    /// A number of four octets in this range.
    #[tactic(auto, unfolding(crate::specs::Reading::number_at))]
    pub fn number(&mut self, least: u32, greatest: u32) -> Result<u32, EntryFault>
        ensures exact { Reads (λ n. n) self.new result (number_at least greatest self.old) }
        ensures least { IfOk result (λ n. least ≤ n) }
        ensures greatest { IfOk result (λ n. n ≤ greatest) }
    {
        let place = self.place;
        let octets = self.octets(4)?;
        let number = u32::from_be_bytes(octets.try_into().unwrap());
        if number < least || greatest < number {
            return Err(EntryFault::BadField { place });
        }
        Ok(number)
    }

    /// A time that names a moment.
    #[tactic(auto, unfolding(crate::specs::Reading::time_at))]
    pub fn time(&mut self) -> Result<Cds, EntryFault>
        ensures { Reads (λ time. time) self.new result (time_at self.old) }
    {
        let place = self.place;
        let time = if self.octet(MICROS, PICOS)? == MICROS {
            Cds::from_micro(self.octets(8)?.try_into().unwrap())
        } else {
            Cds::from_pico(self.octets(10)?.try_into().unwrap())
        };
        if time.moment().is_none() {
            return Err(EntryFault::BadField { place });
        }
        Ok(time)
    }

    /// An antenna's identifier behind its length.
    #[tactic(auto, unfolding(crate::specs::Reading::antenna_at))]
    pub fn antenna(&mut self) -> Result<&'a [u8], EntryFault>
        ensures { Reads (λ octets. octets.now) self.new result (antenna_at self.old) }
    {
        let size = self.octet(1, LONGEST_ANTENNA)?;
        self.octets(usize::from(size))
    }

    /// A frame's octets behind their number.
    #[tactic(auto, unfolding(crate::specs::Reading::content_at))]
    pub fn content(&mut self) -> Result<&'a [u8], EntryFault>
        ensures { Reads (λ octets. octets.now) self.new result (content_at self.old) }
    {
        let size = self.number(1, LONGEST_FRAME as u32)?;
        self.octets(size as usize)
    }
}
