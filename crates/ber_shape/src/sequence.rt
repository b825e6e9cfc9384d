ghost use Rattle.std.specs.Prelude.{◌≡◌, length};
ghost use Rattle.ber_core.specs.Reading.{Gives};
ghost use Rattle.ber_core.specs.Spelling.{canonical};
ghost use Rattle.ber_core.specs.Written.{HasRoom, Appends};
ghost use Rattle.ber_shape.specs.Exact.{whole};
ghost use Rattle.ber_shape.specs.Fields.{sequence_read, sequence_tree, IsSequence};

use crate::identifier::Identifier;
use crate::laws::sequence_is_encodable;
use crate::members::{Members, read_within, size_within, write_within};
use ber_core::{BerFault, Reader, Writer, laws};

/// A SEQUENCE that is a struct, under the identifier `I`: the types of its fields, and the way
/// between the struct and their values. Contracts see it as these values, in the order in which
/// they stand.
pub trait Sequence<'a, I: Identifier>: Drop + Sized {
    ghost use Rattle.std.specs.Prelude.{◌≡◌, true};
    ghost use Rattle.ber_shape.specs.Fields.{encodable};

    /// The values of the fields: pairs of the first one and the others.
    type Values: Drop;

    /// The types of the fields: pairs of the first one and the others, with `Last` of the last one.
    type Fields: Members<'a, Value = Self::Values>;

    ghost values_of: { Self → Self.Values };

    /// The struct of these values.
    fn from_values(values: Self::Values) -> Self
        ensures { values_of result ≡ values };

    /// The values of its fields, copied or lent.
    fn to_values(&self) -> Self::Values
        ensures { result ≡ values_of self.now };

    ghost is_encodable: { encodable I.octet Self.Fields.shape ≡ true };

    /// The struct that these octets spell, all of them, or the first fault.
    final fn decode(octets: &'a [u8]) -> Result<Self, BerFault>
        ensures exact { Gives (λ s. Self.Fields.seen (values_of s)) result
            (whole (sequence_read I.octet Self.Fields.shape) octets.now) }
        ensures spelled { IsSequence I.octet Self.Fields.shape (λ s. Self.Fields.seen (values_of s))
            octets.now result }
    {
        laws::slice(octets);
        sequence_is_encodable::<I, Self>();
        let decoded = read_sequence::<I, Self>(octets);
        decoded
    }

    /// The number of octets that `encode` appends.
    final fn length(&self) -> usize
        requires { Self.Fields.shape.Fits (Self.Fields.seen (values_of self.now)) }
        ensures { result ≡ length (canonical (sequence_tree I.octet Self.Fields.shape
            (Self.Fields.seen (values_of self.now)))) }
    {
        size_within::<Self::Fields>(&[I::octet()], &self.to_values())
    }

    /// Appends the canonical spelling.
    final fn encode(&self, writer: &mut Writer)
        requires fits { Self.Fields.shape.Fits (Self.Fields.seen (values_of self.now)) }
        requires room { HasRoom writer.old
            (canonical (sequence_tree I.octet Self.Fields.shape
            (Self.Fields.seen (values_of self.now)))) }
        ensures { Appends writer.old writer.new
            (canonical (sequence_tree I.octet Self.Fields.shape
            (Self.Fields.seen (values_of self.now)))) }
    {
        write_within::<Self::Fields>(&[I::octet()], &self.to_values(), writer);
    }
}

fn read_sequence<'a, I: Identifier, S: Sequence<'a, I>>(octets: &'a [u8]) -> Result<S, BerFault>
    ensures { Gives (λ s. S.Fields.seen (S.values_of s)) result
        (whole (sequence_read I.octet S.Fields.shape) octets.now) }
{
    let mut reader = Reader::new(octets);
    let values = read_within::<S::Fields>(&[I::octet()], &mut reader)?;
    reader.leave()?;
    Ok(S::from_values(values))
}
