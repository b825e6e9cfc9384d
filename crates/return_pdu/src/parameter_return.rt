use ber_core::{BerFault, Reader, Writer};
use ber_shape::{Element, Members, Pdu, read_around, size_around, write_around};
use sle_common::{Credentials, Diagnostic, InvokeId, Parameter};

/// The return of GET-PARAMETER (CCSDS 911.1-B, annex A): a SEQUENCE under the context tag 7.
#[derive(Clone, Copy, Debug, PartialEq, Eq)]
pub struct ParameterReturn<'a> {
    pub credentials: Credentials<'a>,
    pub invoke: u16,
    /// The parameter with its value, or why there is none.
    pub result: Result<Parameter, Diagnostic>,
}

impl<'a> Members<'a> for ParameterReturn<'a> {
    ghost use Rattle.std.specs.Prelude.{refl};
    ghost use Rattle.return_pdu.specs.Getting.{ParameterReturnContent, parameter_return_fields};
    ghost use Rattle.return_pdu.specs.Seen.{parameter_return_of};

    type Value = ParameterReturn<'a>;

    ghost Seen = { ParameterReturnContent };

    ghost shape = { parameter_return_fields };

    ghost is_shallow = { refl };

    ghost seen = { parameter_return_of };

    fn read(reader: &mut Reader<'a>) -> Result<ParameterReturn<'a>, BerFault> {
        Ok(ParameterReturn {
            credentials: Credentials::read(reader)?,
            invoke: InvokeId::read(reader)?,
            result: ParameterAnswer::read(reader)?,
        })
    }

    #[tactic(auto, using(ber_core::specs::Parts::lengths))]
    fn size(value: &ParameterReturn<'a>) -> usize {
        Credentials::size(&value.credentials)
            + InvokeId::size(&value.invoke)
            + ParameterAnswer::size(&value.result)
    }

    #[tactic(auto, unfolding(ber_core::specs::Spelling::canonical))]
    fn write(value: &ParameterReturn<'a>, writer: &mut Writer) {
        Credentials::write(&value.credentials, writer);
        InvokeId::write(&value.invoke, writer);
        ParameterAnswer::write(&value.result, writer);
    }
}

impl<'a> Pdu<'a> for ParameterReturn<'a> {
    ghost use Rattle.std.specs.Prelude.{◌≡◌, refl, [], ◌∷◌};

    ghost tag = { 0xa7 ∷ [] };

    ghost is_tag = { refl };

    ghost is_small = { refl };

    fn identifier() -> &'static [u8]
        ensures { result.now ≡ 0xa7 ∷ [] }
    {
        &[0xa7]
    }
}

/// What a GET-PARAMETER is answered: [0] around the parameter, [1] around why there is none.
struct ParameterAnswer;

impl<'a> Element<'a> for ParameterAnswer {
    ghost use Rattle.std.specs.Prelude.{Result, refl};
    ghost use Rattle.sle_common.specs.declared.diagnostic.Diagnostic.{Diagnostic};
    ghost use Rattle.sle_common.specs.declared.parameter.Parameter.{Parameter};
    ghost use Rattle.return_pdu.specs.Getting.{parameter_answer};

    type Value = Result<Parameter, Diagnostic>;

    ghost Seen = { Result Parameter Diagnostic };

    ghost shape = { parameter_answer };

    ghost is_shallow = { refl };

    ghost seen = { λ result. result };

    fn read(reader: &mut Reader<'a>) -> Result<Result<Parameter, Diagnostic>, BerFault> {
        if reader.next_is(&[0xa1]) {
            let diagnostic = read_around::<Diagnostic>(&[0xa1], reader)?;
            return Ok(Err(diagnostic));
        }
        let parameter = read_around::<Parameter>(&[0xa0], reader)?;
        Ok(Ok(parameter))
    }

    fn size(value: &Result<Parameter, Diagnostic>) -> usize {
        match value {
            Ok(parameter) => size_around::<Parameter>(&[0xa0], parameter),
            Err(diagnostic) => size_around::<Diagnostic>(&[0xa1], diagnostic),
        }
    }

    fn write(value: &Result<Parameter, Diagnostic>, writer: &mut Writer) {
        match value {
            Ok(parameter) => write_around::<Parameter>(&[0xa0], parameter, writer),
            Err(diagnostic) => write_around::<Diagnostic>(&[0xa1], diagnostic, writer),
        }
    }
}
