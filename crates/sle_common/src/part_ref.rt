ghost use Rattle.std.specs.Prelude.{◌≡◌, ◌∷◌, []};
ghost use Rattle.ber_core.specs.Reading.{Gives, primitive_at};
ghost use Rattle.ber_shape.specs.Content.{visible_string, object_id, meaning_of};
ghost use Rattle.sle_common.specs.IdentifierOctets.{attribute_of, attribute_meaning, value_meaning};
ghost use Rattle.sle_common.specs.Identifier.{is_value_octet, is_value};
ghost use Rattle.std.specs.List.{list_all};

use crate::attribute::Attribute;
use crate::instance_id::{InstancePart, LONGEST_VALUE};
use crate::instance_text::is_value_octet;
use ber_core::{BerFault, Reader, Writer, element_length};
use ber_shape::{
    Element, Members, read_around, read_within, size_around, size_within, write_around,
    write_within,
};

/// An attribute with its value, which is lent.
#[derive(Clone, Copy, Debug, PartialEq, Eq)]
pub struct PartRef<'a> {
    pub attribute: Attribute,
    pub value: &'a [u8],
}

/// What stands in the inner SEQUENCE: the attribute's object identifier and the value.
impl<'a> Members<'a> for PartRef<'a> {
    ghost use Rattle.std.specs.Prelude.{refl};
    ghost use Rattle.sle_common.specs.declared.instance_id.InstancePart.{InstancePart};
    ghost use Rattle.sle_common.specs.IdentifierOctets.{part_fields};
    ghost use Rattle.sle_common.specs.InstanceRef.{part_of};

    type Value = PartRef<'a>;

    ghost Seen = { InstancePart };

    ghost shape = { part_fields };

    ghost is_shallow = { refl };

    ghost seen = { part_of };

    fn read(reader: &mut Reader<'a>) -> Result<PartRef<'a>, BerFault> {
        let attribute = read_attribute(reader)?;
        let value = read_value(reader)?;
        Ok(PartRef { attribute, value })
    }

    #[tactic(auto, using(ber_core::specs::Parts::lengths))]
    fn size(part: &PartRef<'a>) -> usize {
        element_length(&[0x06], 7) + element_length(&[0x1a], part.value.len())
    }

    #[tactic(auto, unfolding(ber_core::specs::Spelling::canonical))]
    fn write(part: &PartRef<'a>, writer: &mut Writer) {
        writer.octet_string(&[0x06], part.attribute.object_id());
        writer.octet_string(&[0x1a], part.value);
    }
}

// The inner SEQUENCE.
struct PartSequence;

impl<'a> Element<'a> for PartSequence {
    ghost use Rattle.std.specs.Prelude.{[], ◌∷◌, refl};
    ghost use Rattle.ber_shape.specs.Members.{structured};
    ghost use Rattle.sle_common.specs.declared.instance_id.InstancePart.{InstancePart};
    ghost use Rattle.sle_common.specs.IdentifierOctets.{part_fields};
    ghost use Rattle.sle_common.specs.InstanceRef.{part_of};

    type Value = PartRef<'a>;

    ghost Seen = { InstancePart };

    ghost shape = { structured (0x30 ∷ []) part_fields refl };

    ghost is_shallow = { refl };

    ghost seen = { part_of };

    fn read(reader: &mut Reader<'a>) -> Result<PartRef<'a>, BerFault> {
        read_within::<PartRef>(&[0x30], reader)
    }

    fn size(part: &PartRef<'a>) -> usize {
        size_within::<PartRef>(&[0x30], part)
    }

    fn write(part: &PartRef<'a>, writer: &mut Writer) {
        write_within::<PartRef>(&[0x30], part, writer);
    }
}

/// A SET of one attribute with its value.
pub(crate) struct PartSet;

impl<'a> Element<'a> for PartSet {
    ghost use Rattle.std.specs.Prelude.{refl};
    ghost use Rattle.sle_common.specs.declared.instance_id.InstancePart.{InstancePart};
    ghost use Rattle.sle_common.specs.IdentifierOctets.{part};
    ghost use Rattle.sle_common.specs.InstanceRef.{part_of};

    type Value = PartRef<'a>;

    ghost Seen = { InstancePart };

    ghost shape = { part };

    ghost is_shallow = { refl };

    ghost seen = { part_of };

    fn read(reader: &mut Reader<'a>) -> Result<PartRef<'a>, BerFault> {
        read_around::<PartSequence>(&[0x31], reader)
    }

    fn size(part: &PartRef<'a>) -> usize {
        size_around::<PartSequence>(&[0x31], part)
    }

    fn write(part: &PartRef<'a>, writer: &mut Writer) {
        write_around::<PartSequence>(&[0x31], part, writer);
    }
}

fn read_attribute(reader: &mut Reader) -> Result<Attribute, BerFault>
    ensures exact { Gives (λ attribute. (attribute, reader.new)) result
        (primitive_at (meaning_of object_id attribute_meaning) reader.old (0x06 ∷ [])) }
    ensures octets { reader.new.octets ≡ reader.old.octets }
{
    let octets = reader.object_id(&[0x06])?;
    let place = reader.place() - octets.len();
    Attribute::of_object_id(octets).ok_or(BerFault::BadContent { place })
}

fn read_value<'a>(reader: &mut Reader<'a>) -> Result<&'a [u8], BerFault>
    ensures exact { Gives (λ value. (value.now, reader.new)) result
        (primitive_at (meaning_of (visible_string 1 256) value_meaning) reader.old (0x1a ∷ [])) }
    ensures octets { reader.new.octets ≡ reader.old.octets }
{
    let octets = reader.visible(&[0x1a], 1, LONGEST_VALUE)?;
    let place = reader.place() - octets.len();
    if !is_value(octets) {
        return Err(BerFault::BadContent { place });
    }
    Ok(octets)
}

fn is_value(octets: &[u8]) -> bool
    ensures { result ≡ is_value octets.now }
{
    if octets.is_empty() || octets.len() > LONGEST_VALUE {
        return false;
    }
    are_value_octets(octets)
}

fn are_value_octets(octets: &[u8]) -> bool
    ensures { result ≡ list_all is_value_octet octets.now }
{
    octets.iter().all(|octet| is_value_octet(*octet))
}
