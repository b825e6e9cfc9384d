ghost use Rattle.std.specs.Prelude.{◌≡◌, ◌++◌, ◌+◌, ◌≤◌, ◌<◌, ◌^◌, length};
ghost use Rattle.ber_core.specs.Reading.{Gives};
ghost use Rattle.ber_core.specs.Spelling.{canonical_all};

use crate::element::Element;
use crate::members::Members;
use ber_core::{BerFault, Reader, Writer};
use std::marker::PhantomData;

/// The last field of a SEQUENCE, an element alone.
pub struct Last<E>(PhantomData<E>);

impl<'a, E: Element<'a>> Members<'a> for Last<E> {
    ghost use Rattle.ber_shape.specs.Members.{last};

    type Value = E::Value;

    ghost Seen = { E.Seen };

    ghost shape = { last E.shape };

    ghost is_shallow = { E.is_shallow };

    ghost seen = { λ value. E.seen value };

    fn read(reader: &mut Reader<'a>) -> Result<E::Value, BerFault> {
        E::read(reader)
    }

    #[tactic(auto, using(ber_core::specs::Parts::lengths))]
    fn size(value: &E::Value) -> usize {
        E::size(value)
    }

    #[tactic(auto, using(ber_core::specs::Parts::lengths), unfolding(ber_core::specs::Spelling::canonical))]
    fn write(value: &E::Value, writer: &mut Writer) {
        E::write(value, writer);
    }
}

/// A field of a SEQUENCE, and the others behind it.
impl<'a, E: Element<'a>, O: Members<'a>> Members<'a> for (E, O) {
    ghost use Rattle.ber_shape.specs.Members.{◌▸◌};
    ghost use Rattle.ber_shape.specs.Fields.{both_shallow};

    type Value = (E::Value, O::Value);

    ghost Seen = { E.Seen × O.Seen };

    ghost shape = { E.shape ▸ O.shape };

    ghost is_shallow = { both_shallow E.shape.levels O.shape.levels E.is_shallow O.is_shallow };

    ghost seen = { λ values. (E.seen values.0, O.seen values.1) };

    fn read(reader: &mut Reader<'a>) -> Result<(E::Value, O::Value), BerFault> {
        let first = E::read(reader)?;
        let others = O::read(reader)?;
        Ok((first, others))
    }

    #[tactic(auto, using(ber_core::specs::Parts::lengths))]
    fn size(values: &(E::Value, O::Value)) -> usize {
        E::size(&values.0) + O::size(&values.1)
    }

    #[tactic(auto, using(ber_core::specs::Parts::lengths), unfolding(ber_core::specs::Spelling::canonical))]
    fn write(values: &(E::Value, O::Value), writer: &mut Writer) {
        E::write(&values.0, writer);
        O::write(&values.1, writer);
    }
}
