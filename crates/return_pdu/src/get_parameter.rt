use ber_core::{BerFault, Reader, Writer, element_length, integer_length};
use ber_shape::{Element, Members, Pdu};
use sle_common::{Credentials, InvokeId};

/// GET-PARAMETER (CCSDS 911.1-B, annex A): a SEQUENCE under the context tag 6.
#[derive(Clone, Copy, Debug, PartialEq, Eq)]
pub struct GetParameter<'a> {
    pub credentials: Credentials<'a>,
    pub invoke: u16,
    /// The number that names the parameter.
    pub name: u16,
}

impl<'a> Members<'a> for GetParameter<'a> {
    ghost use Rattle.std.specs.Prelude.{refl};
    ghost use Rattle.return_pdu.specs.Getting.{GetParameterContent, get_parameter_fields};
    ghost use Rattle.return_pdu.specs.Seen.{get_parameter_of};

    type Value = GetParameter<'a>;

    ghost Seen = { GetParameterContent };

    ghost shape = { get_parameter_fields };

    ghost is_shallow = { refl };

    ghost seen = { get_parameter_of };

    fn read(reader: &mut Reader<'a>) -> Result<GetParameter<'a>, BerFault> {
        Ok(GetParameter {
            credentials: Credentials::read(reader)?,
            invoke: InvokeId::read(reader)?,
            name: ParameterName::read(reader)?,
        })
    }

    #[tactic(auto, using(ber_core::specs::Parts::lengths))]
    fn size(value: &GetParameter<'a>) -> usize {
        Credentials::size(&value.credentials)
            + InvokeId::size(&value.invoke)
            + ParameterName::size(&value.name)
    }

    #[tactic(auto, unfolding(ber_core::specs::Spelling::canonical))]
    fn write(value: &GetParameter<'a>, writer: &mut Writer) {
        Credentials::write(&value.credentials, writer);
        InvokeId::write(&value.invoke, writer);
        ParameterName::write(&value.name, writer);
    }
}

impl<'a> Pdu<'a> for GetParameter<'a> {
    ghost use Rattle.std.specs.Prelude.{◌≡◌, refl, [], ◌∷◌};

    ghost tag = { 0xa6 ∷ [] };

    ghost is_tag = { refl };

    ghost is_small = { refl };

    fn identifier() -> &'static [u8]
        ensures { result.now ≡ 0xa6 ∷ [] }
    {
        &[0xa6]
    }
}

/// The name of a parameter: INTEGER 0 to 65535.
struct ParameterName;

impl<'a> Element<'a> for ParameterName {
    ghost use Rattle.std.specs.Prelude.{ℕ, refl};
    ghost use Rattle.return_pdu.specs.Getting.{parameter_name};

    type Value = u16;

    ghost Seen = { ℕ };

    ghost shape = { parameter_name };

    ghost is_shallow = { refl };

    ghost seen = { λ name. name };

    fn read(reader: &mut Reader<'a>) -> Result<u16, BerFault> {
        let name = reader.integer(&[0x02], 0, 65535)?;
        Ok(name as u16)
    }

    #[tactic(auto, using(ber_core::specs::Parts::lengths))]
    fn size(value: &u16) -> usize {
        element_length(&[0x02], integer_length(i128::from(*value)))
    }

    fn write(value: &u16, writer: &mut Writer) {
        writer.integer(&[0x02], i128::from(*value));
    }
}
