// The parameters that GET-PARAMETER answers.
ghost use Rattle.std.specs.Prelude.{◌≡◌, ◌+◌, ◌^◌, ◌<◌, ◌≤◌, ◌∷◌, [], length, pos};
ghost use Rattle.ber_core.specs.Reading.{Gives};
ghost use Rattle.ber_core.specs.Integer.{integer_octets};
ghost use Rattle.ber_core.specs.Tree.{constructed, primitive};
ghost use Rattle.ber_core.specs.Spelling.{canonical};
ghost use Rattle.ber_core.specs.Written.{HasRoom, Appends};
ghost use Rattle.ber_shape.specs.Steps.{within_at};
ghost use Rattle.sle_common.specs.Parameter.{named_at, named_trees};

use crate::gvcid::Gvcid;
use crate::number::{GREATEST, LEAST, Number};
use ber_core::{BerFault, Reader, Writer, element_length, integer_length};
use ber_shape::{Element, Members, read_within, size_within, write_within};

/// A parameter with its value (this product's own). An INTEGER has at most 64 bits, signed or
/// unsigned.
#[derive(Clone, Copy, Debug, PartialEq, Eq)]
pub enum Parameter {
    /// Items that a transfer buffer holds at most: the name 4.
    BufferSize(i128),
    /// The delivery mode, timely 0, complete 1, offline 2, forward 3: the name 6.
    Mode(i128),
    /// Seconds that an item waits at most, or none for offline: the name 15.
    Latency(Option<i128>),
    /// Seconds from report to report, or none while off: the name 26.
    Cycle(Option<i128>),
    /// The quality that the last START requested: the name 27.
    Quality(i128),
    /// The channel that the last START requested, or none before the first: the name 28.
    Channel(Option<Gvcid>),
    /// Seconds that a return may take: the name 29.
    Timeout(i128),
}

impl<'a> Element<'a> for Parameter {
    ghost use Rattle.std.specs.Prelude.{refl};
    ghost use Rattle.sle_common.specs.declared.parameter.Parameter.{Parameter};
    ghost use Rattle.sle_common.specs.Parameter.{parameter};

    type Value = Parameter;

    ghost Seen = { Parameter };

    ghost shape = { parameter };

    ghost is_shallow = { refl };

    ghost seen = { λ p. p };

    fn read(reader: &mut Reader<'a>) -> Result<Parameter, BerFault> {
        if reader.next_is(&[0xa1]) {
            let mode = read_named::<Number>(&[0xa1], 6, reader)?;
            return Ok(Parameter::Mode(mode));
        }
        if reader.next_is(&[0xa2]) {
            let limit = read_named::<LatencyLimit>(&[0xa2], 15, reader)?;
            return Ok(Parameter::Latency(limit));
        }
        if reader.next_is(&[0xa3]) {
            let seconds = read_named::<ReportingCycle>(&[0xa3], 26, reader)?;
            return Ok(Parameter::Cycle(seconds));
        }
        if reader.next_is(&[0xa4]) {
            let requested = read_within::<Requested>(&[0xa4], reader)?;
            return Ok(match requested {
                Requested::OfQuality(quality) => Parameter::Quality(quality),
                Requested::OfChannel(channel) => Parameter::Channel(channel),
            });
        }
        if reader.next_is(&[0xa5]) {
            let seconds = read_named::<Number>(&[0xa5], 29, reader)?;
            return Ok(Parameter::Timeout(seconds));
        }
        let items = read_named::<Number>(&[0xa0], 4, reader)?;
        Ok(Parameter::BufferSize(items))
    }

    fn size(value: &Parameter) -> usize {
        match value {
            Parameter::BufferSize(items) => size_named::<Number>(&[0xa0], 4, items),
            Parameter::Mode(mode) => size_named::<Number>(&[0xa1], 6, mode),
            Parameter::Latency(limit) => size_named::<LatencyLimit>(&[0xa2], 15, limit),
            Parameter::Cycle(seconds) => size_named::<ReportingCycle>(&[0xa3], 26, seconds),
            Parameter::Quality(quality) => size_named::<Number>(&[0xa4], 27, quality),
            Parameter::Channel(channel) => size_named::<RequestedChannel>(&[0xa4], 28, channel),
            Parameter::Timeout(seconds) => size_named::<Number>(&[0xa5], 29, seconds),
        }
    }

    fn write(value: &Parameter, writer: &mut Writer) {
        match value {
            Parameter::BufferSize(items) => write_named::<Number>(&[0xa0], 4, items, writer),
            Parameter::Mode(mode) => write_named::<Number>(&[0xa1], 6, mode, writer),
            Parameter::Latency(limit) => { write_named::<LatencyLimit>(&[0xa2], 15, limit, writer) }
            Parameter::Cycle(seconds) => {
                write_named::<ReportingCycle>(&[0xa3], 26, seconds, writer)
            }
            Parameter::Quality(quality) => write_named::<Number>(&[0xa4], 27, quality, writer),
            Parameter::Channel(channel) => {
                write_named::<RequestedChannel>(&[0xa4], 28, channel, writer)
            }
            Parameter::Timeout(seconds) => write_named::<Number>(&[0xa5], 29, seconds, writer),
        }
    }
}

// Reads an element in which a value stands behind its name.
fn read_named<'a, E: Element<'a>>(
    identifier: &[u8],
    name: u8,
    reader: &mut Reader<'a>,
) -> Result<E::Value, BerFault>
    ensures exact { Gives (λ value. (E.seen value, reader.new)) result
        (within_at identifier.now (named_at name E.shape.read) reader.old) }
    ensures octets { reader.new.octets ≡ reader.old.octets }
{
    let name = i128::from(name);
    reader.element(identifier)?;
    reader.integer(&[0x02], name, name)?;
    let value = E::read(reader)?;
    reader.leave()?;
    Ok(value)
}

// The number of octets that `write_named` appends.
#[tactic(auto, using(ber_core::specs::Parts::lengths))]
fn size_named<'a, E: Element<'a>>(identifier: &[u8], name: u8, value: &E::Value) -> usize
    requires fits { E.shape.Fits (E.seen value.now) }
    requires small { length identifier.now + 35 + E.shape.most < 2 ^ 64 }
    ensures exact { result ≡ length (canonical
        (constructed identifier.now (named_trees name (E.shape.tree (E.seen value.now))))) }
    ensures within { result ≤ length identifier.now + 35 + E.shape.most }
{
    element_length(identifier, name_size(name) + E::size(value))
}

// The number of octets of a name.
#[tactic(auto, using(ber_core::specs::Parts::lengths))]
fn name_size(name: u8) -> usize
    ensures exact { result ≡ length (canonical
        (primitive (0x02 ∷ []) (integer_octets (pos name)))) }
    ensures few { result ≤ 26 }
{
    element_length(&[0x02], integer_length(i128::from(name)))
}

// Appends an element in which a value stands behind its name.
#[tactic(auto, using(ber_core::specs::Parts::lengths))]
fn write_named<'a, E: Element<'a>>(
    identifier: &[u8],
    name: u8,
    value: &E::Value,
    writer: &mut Writer,
)
    requires fits { E.shape.Fits (E.seen value.now) }
    requires small { length identifier.now + 35 + E.shape.most < 2 ^ 64 }
    requires room { HasRoom writer.old
        (canonical (constructed identifier.now
        (named_trees name (E.shape.tree (E.seen value.now))))) }
    ensures { Appends writer.old writer.new
        (canonical (constructed identifier.now
        (named_trees name (E.shape.tree (E.seen value.now))))) }
{
    writer.head(identifier, name_size(name) + E::size(value));
    write_name(name, writer);
    E::write(value, writer);
}

fn write_name(name: u8, writer: &mut Writer)
    requires { HasRoom writer.old (canonical (primitive (0x02 ∷ []) (integer_octets (pos name)))) }
    ensures { Appends writer.old writer.new
        (canonical (primitive (0x02 ∷ []) (integer_octets (pos name)))) }
{
    writer.integer(&[0x02], i128::from(name));
}

// What the last START requested: a quality behind the name 27, a channel behind the name 28.
#[derive(Clone, Copy)]
enum Requested {
    OfQuality(i128),
    OfChannel(Option<Gvcid>),
}

impl<'a> Members<'a> for Requested {
    ghost use Rattle.std.specs.Prelude.{refl};
    ghost use Rattle.sle_common.specs.declared.parameter.Requested.{Requested};
    ghost use Rattle.sle_common.specs.Parameter.{requested};

    type Value = Requested;

    ghost Seen = { Requested };

    ghost shape = { requested };

    ghost is_shallow = { refl };

    ghost seen = { λ r. r };

    fn read(reader: &mut Reader<'a>) -> Result<Requested, BerFault> {
        let name = reader.integer(&[0x02], 27, 28)?;
        if name == 27 {
            let quality = Number::read(reader)?;
            return Ok(Requested::OfQuality(quality));
        }
        let channel = RequestedChannel::read(reader)?;
        Ok(Requested::OfChannel(channel))
    }

    #[tactic(auto, using(ber_core::specs::Parts::lengths))]
    fn size(value: &Requested) -> usize {
        match value {
            Requested::OfQuality(quality) => name_size(27) + Number::size(quality),
            Requested::OfChannel(channel) => name_size(28) + RequestedChannel::size(channel),
        }
    }

    #[tactic(auto, unfolding(ber_core::specs::Spelling::canonical))]
    fn write(value: &Requested, writer: &mut Writer) {
        match value {
            Requested::OfQuality(quality) => {
                writer.integer(&[0x02], 27);
                Number::write(quality, writer);
            }
            Requested::OfChannel(channel) => {
                writer.integer(&[0x02], 28);
                RequestedChannel::write(channel, writer);
            }
        }
    }
}

// [0] INTEGER seconds, [1] NULL offline.
struct LatencyLimit;

impl<'a> Element<'a> for LatencyLimit {
    ghost use Rattle.std.specs.Prelude.{ℤ, Option, refl};
    ghost use Rattle.sle_common.specs.Parameter.{latency};

    type Value = Option<i128>;

    ghost Seen = { Option ℤ };

    ghost shape = { latency };

    ghost is_shallow = { refl };

    ghost seen = { λ limit. limit };

    fn read(reader: &mut Reader<'a>) -> Result<Option<i128>, BerFault> {
        if reader.next_is(&[0x81]) {
            reader.null(&[0x81])?;
            return Ok(None);
        }
        let seconds = reader.integer(&[0x80], LEAST, GREATEST)?;
        Ok(Some(seconds))
    }

    #[tactic(auto, using(ber_core::specs::Parts::lengths))]
    fn size(limit: &Option<i128>) -> usize {
        match limit {
            None => element_length(&[0x81], 0),
            Some(seconds) => element_length(&[0x80], integer_length(*seconds)),
        }
    }

    fn write(limit: &Option<i128>, writer: &mut Writer) {
        match limit {
            None => writer.null(&[0x81]),
            Some(seconds) => writer.integer(&[0x80], *seconds),
        }
    }
}

// [0] NULL off, [1] INTEGER seconds.
struct ReportingCycle;

impl<'a> Element<'a> for ReportingCycle {
    ghost use Rattle.std.specs.Prelude.{ℤ, Option, refl};
    ghost use Rattle.sle_common.specs.Parameter.{cycle};

    type Value = Option<i128>;

    ghost Seen = { Option ℤ };

    ghost shape = { cycle };

    ghost is_shallow = { refl };

    ghost seen = { λ seconds. seconds };

    fn read(reader: &mut Reader<'a>) -> Result<Option<i128>, BerFault> {
        if reader.next_is(&[0x81]) {
            let seconds = reader.integer(&[0x81], LEAST, GREATEST)?;
            return Ok(Some(seconds));
        }
        reader.null(&[0x80])?;
        Ok(None)
    }

    #[tactic(auto, using(ber_core::specs::Parts::lengths))]
    fn size(cycle: &Option<i128>) -> usize {
        match cycle {
            None => element_length(&[0x80], 0),
            Some(seconds) => element_length(&[0x81], integer_length(*seconds)),
        }
    }

    fn write(cycle: &Option<i128>, writer: &mut Writer) {
        match cycle {
            None => writer.null(&[0x80]),
            Some(seconds) => writer.integer(&[0x81], *seconds),
        }
    }
}

// [0] NULL before the first START, [1] the channel.
struct RequestedChannel;

impl<'a> Element<'a> for RequestedChannel {
    ghost use Rattle.std.specs.Prelude.{Option, refl};
    ghost use Rattle.sle_common.specs.declared.gvcid.Gvcid.{Gvcid};
    ghost use Rattle.sle_common.specs.Parameter.{requested_channel};

    type Value = Option<Gvcid>;

    ghost Seen = { Option Gvcid };

    ghost shape = { requested_channel };

    ghost is_shallow = { refl };

    ghost seen = { λ channel. channel };

    fn read(reader: &mut Reader<'a>) -> Result<Option<Gvcid>, BerFault> {
        if reader.next_is(&[0xa1]) {
            let channel = read_within::<Gvcid>(&[0xa1], reader)?;
            return Ok(Some(channel));
        }
        reader.null(&[0x80])?;
        Ok(None)
    }

    #[tactic(auto, using(ber_core::specs::Parts::lengths))]
    fn size(channel: &Option<Gvcid>) -> usize {
        match channel {
            None => element_length(&[0x80], 0),
            Some(channel) => size_within::<Gvcid>(&[0xa1], channel),
        }
    }

    fn write(channel: &Option<Gvcid>, writer: &mut Writer) {
        match channel {
            None => writer.null(&[0x80]),
            Some(channel) => write_within::<Gvcid>(&[0xa1], channel, writer),
        }
    }
}
