// Service instance identifiers in PDUs.
ghost use Rattle.std.specs.Prelude.{◌≡◌, ◌*◌, ◌≤◌, ◌↔◌, IsTrue, length};
ghost use Rattle.ber_core.specs.Reading.{Gives};
ghost use Rattle.ber_core.specs.Spelling.{canonical_all};
ghost use Rattle.ber_core.specs.Written.{HasRoom, Appends};
ghost use Rattle.ber_shape.specs.List.{each_tree};
ghost use Rattle.sle_common.specs.Identifier.{IsIdentifier};
ghost use Rattle.sle_common.specs.IdentifierOctets.{part, parts};
ghost use Rattle.sle_common.specs.InstanceRef.{part_of, parts_in, parts_of};

use crate::instance_id::{InstanceId, InstancePart, MOST_PARTS};
use crate::part_ref::{PartRef, PartSet};
use ber_core::{BerFault, Reader, Writer, laws};
use ber_shape::{
    Element, Members, lend_list, list_size, read_within, size_within, write_list, write_within,
};

/// The service instance that a PDU names: by the octets of its attributes and values, as they were
/// decoded, or by an identifier of this side's own. Contracts see the list of attributes and
/// values.
#[derive(Clone, Copy)]
pub enum InstanceRef<'a> {
    /// SETs of one attribute with its value each, one after another.
    Spelled(&'a [u8]),
    Own(&'a InstanceId),
}

impl<'a> InstanceRef<'a> {
    /// Whether it names this identifier, however it is spelled. Costs one pass over the octets of
    /// both.
    pub fn names(&self, id: &InstanceId) -> bool
        ensures { IsTrue result ↔ (parts_of self.now ≡ id.now) }
    {
        match self {
            InstanceRef::Spelled(octets) => spell(octets, id.parts()),
            InstanceRef::Own(own) => are_same(own.parts(), id.parts()),
        }
    }
}

// Whether these octets spell these parts.
fn spell(octets: &[u8], parts: &[InstancePart]) -> bool
    requires { IsIdentifier parts.now }
    ensures { IsTrue result ↔ (parts_in octets.now ≡ parts.now) }
{
    laws::slice(octets);
    let mut reader = Reader::new(octets);
    for part in parts {
        let Ok(found) = PartSet::read(&mut reader) else {
            return false;
        };
        if !is_same(&found, part) {
            return false;
        }
    }
    reader.at_end()
}

fn are_same(parts: &[InstancePart], others: &[InstancePart]) -> bool
    ensures { IsTrue result ↔ (parts.now ≡ others.now) }
{
    if parts.len() != others.len() {
        return false;
    }
    for (place, part) in parts.iter().enumerate() {
        if !is_same(&part.lend(), &others[place]) {
            return false;
        }
    }
    true
}

fn is_same(part_ref: &PartRef, part: &InstancePart) -> bool
    ensures { IsTrue result ↔ (part_of part_ref.now ≡ part.now) }
{
    part_ref.attribute == part.attribute && part_ref.value == part.value.as_slice()
}

impl<'a> Element<'a> for InstanceRef<'a> {
    ghost use Rattle.std.specs.Prelude.{List, refl};
    ghost use Rattle.sle_common.specs.declared.instance_id.InstancePart.{InstancePart};
    ghost use Rattle.sle_common.specs.IdentifierOctets.{identifier};
    ghost use Rattle.sle_common.specs.InstanceRef.{parts_of};

    type Value = InstanceRef<'a>;

    ghost Seen = { List InstancePart };

    ghost shape = { identifier };

    ghost is_shallow = { refl };

    ghost seen = { parts_of };

    fn read(reader: &mut Reader<'a>) -> Result<InstanceRef<'a>, BerFault> {
        read_within::<Parts>(&[0x30], reader)
    }

    fn size(instance: &InstanceRef<'a>) -> usize {
        size_within::<Parts>(&[0x30], instance)
    }

    fn write(instance: &InstanceRef<'a>, writer: &mut Writer) {
        write_within::<Parts>(&[0x30], instance, writer);
    }
}

// What stands in the outer SEQUENCE.
struct Parts;

impl<'a> Members<'a> for Parts {
    ghost use Rattle.std.specs.Prelude.{List, refl};
    ghost use Rattle.sle_common.specs.declared.instance_id.InstancePart.{InstancePart};
    ghost use Rattle.sle_common.specs.IdentifierOctets.{parts};
    ghost use Rattle.sle_common.specs.InstanceRef.{parts_of};

    type Value = InstanceRef<'a>;

    ghost Seen = { List InstancePart };

    ghost shape = { parts };

    ghost is_shallow = { refl };

    ghost seen = { parts_of };

    fn read(reader: &mut Reader<'a>) -> Result<InstanceRef<'a>, BerFault> {
        reader.octets();
        let start = reader.place();
        PartSet::read(reader)?;
        lend_list::<PartSet>(MOST_PARTS - 1, reader)?;
        let spelled = reader.since(start);
        laws::slice(spelled);
        Ok(InstanceRef::Spelled(spelled))
    }

    fn size(instance: &InstanceRef<'a>) -> usize {
        match instance {
            InstanceRef::Spelled(octets) => list_size::<PartSet>(MOST_PARTS, octets),
            InstanceRef::Own(id) => size_own(id.parts()),
        }
    }

    fn write(instance: &InstanceRef<'a>, writer: &mut Writer) {
        match instance {
            InstanceRef::Spelled(octets) => write_list::<PartSet>(MOST_PARTS, octets, writer),
            InstanceRef::Own(id) => write_own(id.parts(), writer),
        }
    }
}

// The number of octets that `write_own` appends.
fn size_own(parts: &[InstancePart]) -> usize
    requires { IsIdentifier parts.now }
    ensures exact { result ≡ length (canonical_all (each_tree part.tree parts.now)) }
    ensures few { result ≤ 8 * part.most }
{
    let mut size = 0;
    for part in parts {
        size += PartSet::size(&part.lend());
    }
    size
}

// Appends the canonical spelling of these parts.
fn write_own(parts: &[InstancePart], writer: &mut Writer)
    requires valid { IsIdentifier parts.now }
    requires room { HasRoom writer.old (canonical_all (each_tree part.tree parts.now)) }
    ensures { Appends writer.old writer.new (canonical_all (each_tree part.tree parts.now)) }
{
    for part in parts {
        PartSet::write(&part.lend(), writer);
    }
}
