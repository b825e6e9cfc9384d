ghost use Rattle.std.specs.Prelude.{◌≡◌, ◌≤◌, ◌<◌, ◌^◌, length};
ghost use Rattle.ber_core.specs.Reading.{Gives};
ghost use Rattle.ber_core.specs.Spelling.{canonical};
ghost use Rattle.ber_core.specs.Written.{HasRoom, Appends};

use ber_core::{BerFault, Reader, Writer};

/// A type of elements: its shape, and the three functions that meet it. It may be the type of the
/// values, or a type that only names it.
pub trait Element<'a> {
    ghost use Rattle.std.specs.Prelude.{◌≡◌, true, nat_le};
    ghost use Rattle.ber_shape.specs.Element.{Element};

    /// The values in code.
    type Value: Drop;

    /// What contracts see of a value.
    ghost Seen: { Type 0 };

    ghost shape: { Element Seen };

    ghost is_shallow: { nat_le shape.levels 15 ≡ true };

    ghost seen: { Self.Value → Seen };

    /// Reads the element that stands next, or names its first fault.
    fn read(reader: &mut Reader<'a>) -> Result<Self::Value, BerFault>
        ensures exact { Gives (λ value. (seen value, reader.new)) result (shape.read reader.old) }
        ensures octets { reader.new.octets ≡ reader.old.octets };

    /// The number of octets that `write` appends.
    fn size(value: &Self::Value) -> usize
        requires fits { shape.Fits (seen value.now) }
        requires small { shape.most < 2 ^ 64 }
        ensures exact { result ≡ length (canonical (shape.tree (seen value.now))) }
        ensures within { result ≤ shape.most };

    /// Appends the canonical spelling.
    fn write(value: &Self::Value, writer: &mut Writer)
        requires fits { shape.Fits (seen value.now) }
        requires small { shape.most < 2 ^ 64 }
        requires room { HasRoom writer.old (canonical (shape.tree (seen value.now))) }
        ensures { Appends writer.old writer.new (canonical (shape.tree (seen value.now))) };
}
