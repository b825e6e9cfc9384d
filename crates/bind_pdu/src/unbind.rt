use ber_core::{BerFault, Reader, Writer, element_length, integer_length};
use ber_shape::{Element, Members, Pdu};
use sle_common::Credentials;

/// UNBIND (CCSDS 911.1-B, annex A): the initiator ends the association.
#[derive(Clone, Copy, Debug, PartialEq, Eq)]
pub struct Unbind<'a> {
    pub credentials: Credentials<'a>,
    /// Why, from 0 to 127: the number of an `UnbindReason` of `sle_numbers`, or one that it doesn't
    /// have.
    pub reason: u8,
}

impl<'a> Members<'a> for Unbind<'a> {
    ghost use Rattle.std.specs.Prelude.{refl};
    ghost use Rattle.bind_pdu.specs.Unbinding.{UnbindContent, unbind_fields};
    ghost use Rattle.bind_pdu.specs.Seen.{unbind_of};

    type Value = Unbind<'a>;

    ghost Seen = { UnbindContent };

    ghost shape = { unbind_fields };

    ghost is_shallow = { refl };

    ghost seen = { unbind_of };

    fn read(reader: &mut Reader<'a>) -> Result<Unbind<'a>, BerFault> {
        Ok(Unbind {
            credentials: Credentials::read(reader)?,
            reason: UnbindReason::read(reader)?,
        })
    }

    #[tactic(auto, using(ber_core::specs::Parts::lengths))]
    fn size(unbind: &Unbind<'a>) -> usize {
        Credentials::size(&unbind.credentials) + UnbindReason::size(&unbind.reason)
    }

    #[tactic(auto, unfolding(ber_core::specs::Spelling::canonical))]
    fn write(unbind: &Unbind<'a>, writer: &mut Writer) {
        Credentials::write(&unbind.credentials, writer);
        UnbindReason::write(&unbind.reason, writer);
    }
}

impl<'a> Pdu<'a> for Unbind<'a> {
    ghost use Rattle.std.specs.Prelude.{◌≡◌, refl, [], ◌∷◌};

    ghost tag = { 0xbf ∷ 0x66 ∷ [] };

    ghost is_tag = { refl };

    ghost is_small = { refl };

    fn identifier() -> &'static [u8]
        ensures { result.now ≡ 0xbf ∷ 0x66 ∷ [] }
    {
        &[0xbf, 0x66]
    }
}

// INTEGER 0 to 127.
struct UnbindReason;

impl<'a> Element<'a> for UnbindReason {
    ghost use Rattle.std.specs.Prelude.{ℕ, refl};
    ghost use Rattle.bind_pdu.specs.Unbinding.{unbind_reason};

    type Value = u8;

    ghost Seen = { ℕ };

    ghost shape = { unbind_reason };

    ghost is_shallow = { refl };

    ghost seen = { λ reason. reason };

    fn read(reader: &mut Reader<'a>) -> Result<u8, BerFault> {
        let reason = reader.integer(&[0x02], 0, 127)?;
        Ok(reason as u8)
    }

    #[tactic(auto, using(ber_core::specs::Parts::lengths))]
    fn size(reason: &u8) -> usize {
        element_length(&[0x02], integer_length(i128::from(*reason)))
    }

    fn write(reason: &u8, writer: &mut Writer) {
        writer.integer(&[0x02], i128::from(*reason));
    }
}
