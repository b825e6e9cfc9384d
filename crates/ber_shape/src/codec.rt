// Decoding and encoding elements.

ghost use Rattle.std.specs.Prelude.{◌≡◌, ◌<◌, ◌^◌, length};
ghost use Rattle.ber_core.specs.Reading.{Gives};
ghost use Rattle.ber_core.specs.Spelling.{canonical};
ghost use Rattle.ber_core.specs.Written.{HasRoom, Appends};
ghost use Rattle.ber_shape.specs.Exact.{whole, IsDecoded};

use crate::element::Element;
use ber_core::{BerFault, Reader, Writer, laws};

/// The value that these octets spell, all of them, or the first fault.
pub fn decode<'a, E: Element<'a>>(octets: &'a [u8]) -> Result<E::Value, BerFault>
    ensures exact { Gives E.seen result (whole E.shape.read octets.now) }
    ensures spelled { IsDecoded E.shape E.seen octets.now result }
{
    laws::slice(octets);
    let decoded = read_whole::<E>(octets);
    decoded
}

fn read_whole<'a, E: Element<'a>>(octets: &'a [u8]) -> Result<E::Value, BerFault>
    ensures { Gives E.seen result (whole E.shape.read octets.now) }
{
    let mut reader = Reader::new(octets);
    let value = E::read(&mut reader)?;
    reader.leave()?;
    Ok(value)
}

/// The number of octets that `encode` appends.
pub fn length<'a, E: Element<'a>>(value: &E::Value) -> usize
    requires fits { E.shape.Fits (E.seen value.now) }
    requires small { E.shape.most < 2 ^ 64 }
    ensures { result ≡ length (canonical (E.shape.tree (E.seen value.now))) }
{
    E::size(value)
}

/// Appends the canonical spelling.
pub fn encode<'a, E: Element<'a>>(value: &E::Value, writer: &mut Writer)
    requires fits { E.shape.Fits (E.seen value.now) }
    requires small { E.shape.most < 2 ^ 64 }
    requires room { HasRoom writer.old (canonical (E.shape.tree (E.seen value.now))) }
    ensures { Appends writer.old writer.new (canonical (E.shape.tree (E.seen value.now))) }
{
    E::write(value, writer);
}
