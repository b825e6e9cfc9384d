ghost use Rattle.std.specs.Prelude.{◌≡◌, pos};
ghost use Rattle.fcltu_pdu.specs.Transfer.{of_wanted};

use crate::unsigned_long::UnsignedLong;
use ber_core::{BerFault, Reader, Writer, element_length, integer_length};
use ber_shape::{Element, Members, Pdu};
use cds_time::Cds;
use sle_common::{ConditionalTime, Credentials, InvokeId};

/// TRANSFER-DATA of the forward CLTU service (CCSDS 912.1-B, annex A): a SEQUENCE under the context
/// tag 10.
#[derive(Clone, Copy, Debug, PartialEq, Eq)]
pub struct CltuTransfer<'a> {
    pub credentials: Credentials<'a>,
    pub invoke: u16,
    /// The identification of the CLTU.
    pub id: u32,
    /// Before it radiation may not start, where one is known.
    pub earliest: Option<Cds>,
    /// After it radiation may not start, where one is known.
    pub latest: Option<Cds>,
    /// Microseconds between its radiation and the next one.
    pub radiation_delay: u32,
    /// Whether a notice of its radiation is wanted.
    pub wanted: bool,
    /// The CLTU: 1 to 65536 octets (this product's own).
    pub octets: &'a [u8],
}

impl<'a> Members<'a> for CltuTransfer<'a> {
    ghost use Rattle.std.specs.Prelude.{refl};
    ghost use Rattle.fcltu_pdu.specs.Transfer.{Transfer, transfer_fields, transfer_of};

    type Value = CltuTransfer<'a>;

    ghost Seen = { Transfer };

    ghost shape = { transfer_fields };

    ghost is_shallow = { refl };

    ghost seen = { transfer_of };

    fn read(reader: &mut Reader<'a>) -> Result<CltuTransfer<'a>, BerFault> {
        Ok(CltuTransfer {
            credentials: Credentials::read(reader)?,
            invoke: InvokeId::read(reader)?,
            id: UnsignedLong::read(reader)?,
            earliest: ConditionalTime::read(reader)?,
            latest: ConditionalTime::read(reader)?,
            radiation_delay: UnsignedLong::read(reader)?,
            wanted: Notification::read(reader)?,
            octets: CltuOctets::read(reader)?,
        })
    }

    #[tactic(auto, using(ber_core::specs::Parts::lengths))]
    fn size(value: &CltuTransfer<'a>) -> usize {
        Credentials::size(&value.credentials)
            + InvokeId::size(&value.invoke)
            + UnsignedLong::size(&value.id)
            + ConditionalTime::size(&value.earliest)
            + ConditionalTime::size(&value.latest)
            + UnsignedLong::size(&value.radiation_delay)
            + Notification::size(&value.wanted)
            + CltuOctets::size(&value.octets)
    }

    #[tactic(auto, unfolding(ber_core::specs::Spelling::canonical))]
    fn write(value: &CltuTransfer<'a>, writer: &mut Writer) {
        Credentials::write(&value.credentials, writer);
        InvokeId::write(&value.invoke, writer);
        UnsignedLong::write(&value.id, writer);
        ConditionalTime::write(&value.earliest, writer);
        ConditionalTime::write(&value.latest, writer);
        UnsignedLong::write(&value.radiation_delay, writer);
        Notification::write(&value.wanted, writer);
        CltuOctets::write(&value.octets, writer);
    }
}

impl<'a> Pdu<'a> for CltuTransfer<'a> {
    ghost use Rattle.std.specs.Prelude.{◌≡◌, refl, [], ◌∷◌};

    ghost tag = { 0xaa ∷ [] };

    ghost is_tag = { refl };

    ghost is_small = { refl };

    fn identifier() -> &'static [u8]
        ensures { result.now ≡ 0xaa ∷ [] }
    {
        &[0xaa]
    }
}

/// Whether a notice is wanted: INTEGER, 0 where it is and 1 where it isn't.
struct Notification;

impl<'a> Element<'a> for Notification {
    ghost use Rattle.std.specs.Prelude.{Bool, refl};
    ghost use Rattle.fcltu_pdu.specs.Transfer.{notification};

    type Value = bool;

    ghost Seen = { Bool };

    ghost shape = { notification };

    ghost is_shallow = { refl };

    ghost seen = { λ wanted. wanted };

    fn read(reader: &mut Reader<'a>) -> Result<bool, BerFault> {
        let number = reader.integer(&[0x02], 0, 1)?;
        Ok(number == 0)
    }

    #[tactic(auto, using(ber_core::specs::Parts::lengths))]
    fn size(value: &bool) -> usize {
        element_length(&[0x02], integer_length(number_of(*value)))
    }

    fn write(value: &bool, writer: &mut Writer) {
        writer.integer(&[0x02], number_of(*value));
    }
}

fn number_of(is_wanted: bool) -> i128
    ensures { result ≡ pos (of_wanted is_wanted) }
{
    if is_wanted { 0 } else { 1 }
}

/// A CLTU: 1 to 65536 octets.
struct CltuOctets;

impl<'a> Element<'a> for CltuOctets {
    ghost use Rattle.std.specs.Prelude.{ℕ, List, refl};
    ghost use Rattle.fcltu_pdu.specs.Transfer.{cltu};

    type Value = &'a [u8];

    ghost Seen = { List ℕ };

    ghost shape = { cltu };

    ghost is_shallow = { refl };

    ghost seen = { λ octets. octets.now };

    fn read(reader: &mut Reader<'a>) -> Result<&'a [u8], BerFault> {
        reader.octet_string(&[0x04], 1, 65536)
    }

    #[tactic(auto, using(ber_core::specs::Parts::lengths))]
    fn size(value: &&'a [u8]) -> usize {
        element_length(&[0x04], value.len())
    }

    fn write(value: &&'a [u8], writer: &mut Writer) {
        writer.octet_string(&[0x04], value);
    }
}
