ghost use Rattle.std.specs.Prelude.{◌≡◌, ◌∷◌, [], MatchOption, IsOk, Ok};
ghost use Rattle.ber_core.specs.Reading.{Gives};
ghost use Rattle.ber_shape.specs.Exact.{whole};
ghost use Rattle.sample_codec.specs.Items.{items};

use ber_core::{BerFault, Reader, Writer};
use ber_shape::{
    Element, Members, OctetString, lend_list, list_size, read_within, size_within, split_first,
    write_list, write_within,
};
use std::marker::Model;

/// OCTET STRING of 1 to 16 octets.
type Item = OctetString<1, 16>;

/// At most 8 items, OCTET STRINGs of 1 to 16 octets, one after another in octets that are lent.
/// Contracts see the list of the items.
#[derive(Drop)]
pub struct Items<'a> {
    octets: &'a [u8],
}

impl<'a> Model for Items<'a> {
    ghost use Rattle.std.specs.Prelude.{ℕ, List, IsOk};
    ghost use Rattle.ber_shape.specs.Exact.{whole};
    ghost use Rattle.ber_shape.specs.Lent.{values};
    ghost use Rattle.sample_codec.specs.Items.{items};

    ghost Value = { List (List ℕ) };

    ghost view = { λ i. values items i.octets.now };

    ghost invariant = { λ i. IsOk (whole items.read i.octets.now) };
}

impl<'a> Items<'a> {
    // Items that were found in these octets.
    fn found(octets: &'a [u8]) -> Items<'a>
        requires { IsOk (whole items.read octets.now) }
        ensures { whole items.read octets.now ≡ Ok result }
    {
        Items { octets }
    }

    /// The items that stand one after another in these octets, or the first fault.
    pub fn read_all(octets: &'a [u8]) -> Result<Items<'a>, BerFault>
        ensures { Gives (λ items. items) result (whole items.read octets.now) }
    {
        let mut reader = Reader::new(octets);
        let found = Items::read(&mut reader)?;
        reader.leave()?;
        Ok(found)
    }

    /// The same items, to be gone over apart from these.
    pub fn iter(&self) -> Items<'a>
        ensures { result ≡ self.now }
    {
        Items {
            octets: self.octets,
        }
    }

    /// The next item, or none behind the last one.
    pub fn next(&mut self) -> Option<&'a [u8]>
        ensures { MatchOption result ((self.old ≡ []) × (self.new ≡ []))
            (λ item. self.old ≡ item.now ∷ self.new) }
    {
        let (item, rest) = split_first::<Item>(8, self.octets)?;
        self.octets = rest;
        Some(item)
    }
}

impl<'a> Members<'a> for Items<'a> {
    ghost use Rattle.std.specs.Prelude.{ℕ, List, refl};
    ghost use Rattle.sample_codec.specs.Items.{items};

    type Value = Items<'a>;

    ghost Seen = { List (List ℕ) };

    ghost shape = { items };

    ghost is_shallow = { refl };

    ghost seen = { λ i. i };

    fn read(reader: &mut Reader<'a>) -> Result<Items<'a>, BerFault> {
        let octets = lend_list::<Item>(8, reader)?;
        Ok(Items::found(octets))
    }

    fn size(value: &Items<'a>) -> usize {
        list_size::<Item>(8, value.octets)
    }

    fn write(value: &Items<'a>, writer: &mut Writer) {
        write_list::<Item>(8, value.octets, writer);
    }
}

/// A SEQUENCE of items.
pub struct ItemSequence;

impl<'a> Element<'a> for ItemSequence {
    ghost use Rattle.std.specs.Prelude.{ℕ, List, refl};
    ghost use Rattle.sample_codec.specs.Items.{item_sequence};

    type Value = Items<'a>;

    ghost Seen = { List (List ℕ) };

    ghost shape = { item_sequence };

    ghost is_shallow = { refl };

    ghost seen = { λ i. i };

    fn read(reader: &mut Reader<'a>) -> Result<Items<'a>, BerFault> {
        read_within::<Items<'a>>(&[0x30], reader)
    }

    fn size(value: &Items<'a>) -> usize {
        size_within::<Items<'a>>(&[0x30], value)
    }

    fn write(value: &Items<'a>, writer: &mut Writer) {
        write_within::<Items<'a>>(&[0x30], value, writer);
    }
}
