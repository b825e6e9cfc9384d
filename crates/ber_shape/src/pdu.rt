ghost use Rattle.std.specs.Prelude.{◌≡◌, ◌+◌, length};
ghost use Rattle.ber_core.specs.Reading.{Gives};
ghost use Rattle.ber_core.specs.Spelling.{canonical};
ghost use Rattle.ber_core.specs.Written.{HasRoom, Appends};
ghost use Rattle.ber_shape.specs.Members.{structured};
ghost use Rattle.ber_shape.specs.Exact.{whole, IsDecoded};

use crate::members::{Members, read_within, size_within, write_within};
use ber_core::{BerFault, Reader, Writer, laws};

/// A PDU: its fields, and the identifier of the element around them.
pub trait Pdu<'a>: Members<'a, Value = Self> + Sized {
    ghost use Rattle.std.specs.Prelude.{ℕ, List, ◌≡◌, ◌+◌, ◌^◌, true, length, nat_lt};
    ghost use Rattle.ber_shape.specs.Identifier.{is_identifier};

    ghost tag: { List ℕ };

    ghost is_tag: { is_identifier true tag ≡ true };

    /// The identifier octets.
    fn identifier() -> &'static [u8]
        ensures { result.now ≡ tag };

    ghost is_small: { nat_lt (length tag + 9 + Self.Members.shape.most) (2 ^ 64) ≡ true };

    /// The PDU that these octets spell, all of them, or the first fault.
    final fn decode(octets: &'a [u8]) -> Result<Self, BerFault>
        ensures exact { Gives Self.Members.seen result
            (whole (structured tag Self.Members.shape is_tag).read octets.now) }
        ensures spelled { IsDecoded (structured tag Self.Members.shape is_tag) Self.Members.seen
            octets.now result }
    {
        laws::slice(octets);
        let decoded = read_pdu::<Self>(octets);
        decoded
    }

    /// The number of octets that `encode` appends.
    final fn length(&self) -> usize
        requires { Self.Members.shape.Fits (Self.Members.seen self.now) }
        ensures { result ≡ length (canonical ((structured tag Self.Members.shape is_tag).tree
            (Self.Members.seen self.now))) }
    {
        size_within::<Self>(Self::identifier(), self)
    }

    /// Appends the canonical spelling.
    final fn encode(&self, writer: &mut Writer)
        requires fits { Self.Members.shape.Fits (Self.Members.seen self.now) }
        requires room { HasRoom writer.old
            (canonical ((structured tag Self.Members.shape is_tag).tree
            (Self.Members.seen self.now))) }
        ensures { Appends writer.old writer.new
            (canonical ((structured tag Self.Members.shape is_tag).tree
            (Self.Members.seen self.now))) }
    {
        write_within::<Self>(Self::identifier(), self, writer);
    }
}

fn read_pdu<'a, P: Pdu<'a>>(octets: &'a [u8]) -> Result<P, BerFault>
    ensures { Gives P.Members.seen result (whole (structured P.tag P.Members.shape P.is_tag).read
        octets.now) }
{
    let mut reader = Reader::new(octets);
    let value = read_within::<P>(P::identifier(), &mut reader)?;
    reader.leave()?;
    Ok(value)
}
