use ber_core::{BerFault, Reader, Writer, element_length};
use ber_shape::Element;

/// Who sends, or that it isn't said (CCSDS 911.1-B, annex A).
#[derive(Clone, Copy, Debug, PartialEq, Eq)]
pub enum Credentials<'a> {
    /// Under the context tag 0, a NULL.
    Unused,
    /// Under the context tag 1, 8 to 256 octets.
    Used(&'a [u8]),
}

impl<'a> Element<'a> for Credentials<'a> {
    ghost use Rattle.std.specs.Prelude.{ℕ, List, Option, refl};
    ghost use Rattle.sle_common.specs.Credentials.{credentials, credentials_of};

    type Value = Credentials<'a>;

    ghost Seen = { Option (List ℕ) };

    ghost shape = { credentials };

    ghost is_shallow = { refl };

    ghost seen = { credentials_of };

    #[inline(always)]
    fn read(reader: &mut Reader<'a>) -> Result<Credentials<'a>, BerFault> {
        if reader.next_is(&[0x81]) {
            let octets = reader.octet_string(&[0x81], 8, 256)?;
            return Ok(Credentials::Used(octets));
        }
        reader.null(&[0x80])?;
        Ok(Credentials::Unused)
    }

    #[tactic(auto, using(ber_core::specs::Parts::lengths))]
    fn size(value: &Credentials<'a>) -> usize {
        match value {
            Credentials::Unused => element_length(&[0x80], 0),
            Credentials::Used(octets) => element_length(&[0x81], octets.len()),
        }
    }

    fn write(value: &Credentials<'a>, writer: &mut Writer) {
        match value {
            Credentials::Unused => writer.null(&[0x80]),
            Credentials::Used(octets) => writer.octet_string(&[0x81], octets),
        }
    }
}
