use crate::unsigned_long::UnsignedLong;
use ber_core::{BerFault, Reader, Writer, element_length, integer_length};
use ber_shape::{Element, Members, Pdu};
use sle_common::{Credentials, InvokeId};

/// THROW-EVENT (CCSDS 912.1-B, annex A): a SEQUENCE under the context tag 8.
#[derive(Clone, Copy, Debug, PartialEq, Eq)]
pub struct Throw<'a> {
    pub credentials: Credentials<'a>,
    pub invoke: u16,
    /// The number of the event's invocation.
    pub number: u32,
    /// Which event.
    pub event: u16,
    /// 0 to 1024 octets (this product's own).
    pub qualifier: &'a [u8],
}

impl<'a> Members<'a> for Throw<'a> {
    ghost use Rattle.std.specs.Prelude.{refl};
    ghost use Rattle.fcltu_pdu.specs.Throw.{Event, throw_fields, event_of};

    type Value = Throw<'a>;

    ghost Seen = { Event };

    ghost shape = { throw_fields };

    ghost is_shallow = { refl };

    ghost seen = { event_of };

    fn read(reader: &mut Reader<'a>) -> Result<Throw<'a>, BerFault> {
        Ok(Throw {
            credentials: Credentials::read(reader)?,
            invoke: InvokeId::read(reader)?,
            number: UnsignedLong::read(reader)?,
            event: EventId::read(reader)?,
            qualifier: Qualifier::read(reader)?,
        })
    }

    #[tactic(auto, using(ber_core::specs::Parts::lengths))]
    fn size(value: &Throw<'a>) -> usize {
        Credentials::size(&value.credentials)
            + InvokeId::size(&value.invoke)
            + UnsignedLong::size(&value.number)
            + EventId::size(&value.event)
            + Qualifier::size(&value.qualifier)
    }

    #[tactic(auto, unfolding(ber_core::specs::Spelling::canonical))]
    fn write(value: &Throw<'a>, writer: &mut Writer) {
        Credentials::write(&value.credentials, writer);
        InvokeId::write(&value.invoke, writer);
        UnsignedLong::write(&value.number, writer);
        EventId::write(&value.event, writer);
        Qualifier::write(&value.qualifier, writer);
    }
}

impl<'a> Pdu<'a> for Throw<'a> {
    ghost use Rattle.std.specs.Prelude.{◌≡◌, refl, [], ◌∷◌};

    ghost tag = { 0xa8 ∷ [] };

    ghost is_tag = { refl };

    ghost is_small = { refl };

    fn identifier() -> &'static [u8]
        ensures { result.now ≡ 0xa8 ∷ [] }
    {
        &[0xa8]
    }
}

/// The identifier of an event: INTEGER 0 to 65535.
struct EventId;

impl<'a> Element<'a> for EventId {
    ghost use Rattle.std.specs.Prelude.{ℕ, refl};
    ghost use Rattle.fcltu_pdu.specs.Throw.{event_id};

    type Value = u16;

    ghost Seen = { ℕ };

    ghost shape = { event_id };

    ghost is_shallow = { refl };

    ghost seen = { λ event. event };

    fn read(reader: &mut Reader<'a>) -> Result<u16, BerFault> {
        let event = reader.integer(&[0x02], 0, 65535)?;
        Ok(event as u16)
    }

    #[tactic(auto, using(ber_core::specs::Parts::lengths))]
    fn size(value: &u16) -> usize {
        element_length(&[0x02], integer_length(i128::from(*value)))
    }

    fn write(value: &u16, writer: &mut Writer) {
        writer.integer(&[0x02], i128::from(*value));
    }
}

/// What qualifies an event: 0 to 1024 octets.
struct Qualifier;

impl<'a> Element<'a> for Qualifier {
    ghost use Rattle.std.specs.Prelude.{ℕ, List, refl};
    ghost use Rattle.fcltu_pdu.specs.Throw.{qualifier};

    type Value = &'a [u8];

    ghost Seen = { List ℕ };

    ghost shape = { qualifier };

    ghost is_shallow = { refl };

    ghost seen = { λ octets. octets.now };

    fn read(reader: &mut Reader<'a>) -> Result<&'a [u8], BerFault> {
        reader.octet_string(&[0x04], 0, 1024)
    }

    #[tactic(auto, using(ber_core::specs::Parts::lengths))]
    fn size(value: &&'a [u8]) -> usize {
        element_length(&[0x04], value.len())
    }

    fn write(value: &&'a [u8], writer: &mut Writer) {
        writer.octet_string(&[0x04], value);
    }
}
