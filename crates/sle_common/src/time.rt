ghost use Rattle.std.specs.Prelude.{◌≡◌, ◌≤◌, length};
ghost use Rattle.cds_time.specs.Moment.{octets_of};
ghost use Rattle.sle_common.specs.Time.{form_tag};

use ber_core::{BerFault, Reader, Writer, element_length};
use ber_shape::{Element, read_around, size_around, write_around};
use cds_time::{Cds, Rest};

/// A time (CCSDS 911.1-B, annex A): [0] in 8 octets with microseconds, [1] in 10 with picoseconds.
pub struct Time;

impl<'a> Element<'a> for Time {
    ghost use Rattle.std.specs.Prelude.{refl};
    ghost use Rattle.sle_common.specs.Time.{time};
    ghost use Rattle.cds_time.specs.declared.cds.Cds.{Cds};

    type Value = Cds;

    ghost Seen = { Cds };

    ghost shape = { time };

    ghost is_shallow = { refl };

    ghost seen = { λ t. t };

    #[inline(always)]
    fn read(reader: &mut Reader<'a>) -> Result<Cds, BerFault> {
        if reader.next_is(&[0x81]) {
            let octets = reader.octet_string(&[0x81], 10, 10)?;
            return Ok(Cds::from_pico(octets.try_into().unwrap()));
        }
        let octets = reader.octet_string(&[0x80], 8, 8)?;
        Ok(Cds::from_micro(octets.try_into().unwrap()))
    }

    #[tactic(auto, using(ber_core::specs::Parts::lengths))]
    fn size(value: &Cds) -> usize {
        element_length(identifier_of(value), octets_size(value))
    }

    fn write(value: &Cds, writer: &mut Writer) {
        let mut octets = [0; 10];
        let size = value.put(&mut octets);
        writer.octet_string(identifier_of(value), &octets[..size]);
    }
}

fn identifier_of(time: &Cds) -> &'static [u8]
    ensures { result.now ≡ form_tag time.now.rest }
{
    match time.rest {
        Rest::Micros(_) => &[0x80],
        Rest::Picos(_) => &[0x81],
    }
}

fn octets_size(time: &Cds) -> usize
    ensures exact { result ≡ length (octets_of time.now) }
    ensures few { result ≤ 10 }
{
    match time.rest {
        Rest::Micros(_) => 8,
        Rest::Picos(_) => 10,
    }
}

/// A time where one is known: [0] NULL where it is undefined, [1] around the time.
pub struct ConditionalTime;

impl<'a> Element<'a> for ConditionalTime {
    ghost use Rattle.std.specs.Prelude.{Option, refl};
    ghost use Rattle.sle_common.specs.Time.{conditional_time};
    ghost use Rattle.cds_time.specs.declared.cds.Cds.{Cds};

    type Value = Option<Cds>;

    ghost Seen = { Option Cds };

    ghost shape = { conditional_time };

    ghost is_shallow = { refl };

    ghost seen = { λ t. t };

    fn read(reader: &mut Reader<'a>) -> Result<Option<Cds>, BerFault> {
        if reader.next_is(&[0xa1]) {
            let time = read_around::<Time>(&[0xa1], reader)?;
            return Ok(Some(time));
        }
        reader.null(&[0x80])?;
        Ok(None)
    }

    #[tactic(auto, using(ber_core::specs::Parts::lengths))]
    fn size(value: &Option<Cds>) -> usize {
        match value {
            None => element_length(&[0x80], 0),
            Some(time) => size_around::<Time>(&[0xa1], time),
        }
    }

    fn write(value: &Option<Cds>, writer: &mut Writer) {
        match value {
            None => writer.null(&[0x80]),
            Some(time) => write_around::<Time>(&[0xa1], time, writer),
        }
    }
}
