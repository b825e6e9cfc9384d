use crate::authority_identifier::AuthorityIdentifier;
use ber_core::{BerFault, Reader, Writer, element_length, integer_length};
use ber_shape::{Element, Members, Pdu};
use sle_common::Credentials;

/// The return of BIND (CCSDS 911.1-B, annex A).
#[derive(Clone, Copy, Debug, PartialEq, Eq)]
pub struct BindReturn<'a> {
    pub credentials: Credentials<'a>,
    /// The responder's name: 3 to 16 characters from 20 to 7E.
    pub responder: &'a [u8],
    /// The version that the association has, or why there is none: the number of a `BindDiagnostic`
    /// of `sle_numbers`, or one that it doesn't have. Each has at most 64 bits.
    pub result: Result<i128, i128>,
}

impl<'a> Members<'a> for BindReturn<'a> {
    ghost use Rattle.std.specs.Prelude.{refl};
    ghost use Rattle.bind_pdu.specs.Binding.{BindReturnContent, bind_return_fields};
    ghost use Rattle.bind_pdu.specs.Seen.{bind_return_of};

    type Value = BindReturn<'a>;

    ghost Seen = { BindReturnContent };

    ghost shape = { bind_return_fields };

    ghost is_shallow = { refl };

    ghost seen = { bind_return_of };

    fn read(reader: &mut Reader<'a>) -> Result<BindReturn<'a>, BerFault> {
        Ok(BindReturn {
            credentials: Credentials::read(reader)?,
            responder: AuthorityIdentifier::read(reader)?,
            result: BindResult::read(reader)?,
        })
    }

    #[tactic(auto, using(ber_core::specs::Parts::lengths))]
    fn size(answer: &BindReturn<'a>) -> usize {
        Credentials::size(&answer.credentials)
            + AuthorityIdentifier::size(&answer.responder)
            + BindResult::size(&answer.result)
    }

    #[tactic(auto, unfolding(ber_core::specs::Spelling::canonical))]
    fn write(answer: &BindReturn<'a>, writer: &mut Writer) {
        Credentials::write(&answer.credentials, writer);
        AuthorityIdentifier::write(&answer.responder, writer);
        BindResult::write(&answer.result, writer);
    }
}

impl<'a> Pdu<'a> for BindReturn<'a> {
    ghost use Rattle.std.specs.Prelude.{◌≡◌, refl, [], ◌∷◌};

    ghost tag = { 0xbf ∷ 0x65 ∷ [] };

    ghost is_tag = { refl };

    ghost is_small = { refl };

    fn identifier() -> &'static [u8]
        ensures { result.now ≡ 0xbf ∷ 0x65 ∷ [] }
    {
        &[0xbf, 0x65]
    }
}

// The version under the context tag 0, or the diagnostic under the tag 1, each of at most 64 bits.
struct BindResult;

impl<'a> Element<'a> for BindResult {
    ghost use Rattle.std.specs.Prelude.{ℤ, Result, refl};
    ghost use Rattle.bind_pdu.specs.Binding.{bind_result};

    type Value = Result<i128, i128>;

    ghost Seen = { Result ℤ ℤ };

    ghost shape = { bind_result };

    ghost is_shallow = { refl };

    ghost seen = { λ outcome. outcome };

    fn read(reader: &mut Reader<'a>) -> Result<Result<i128, i128>, BerFault> {
        if reader.next_is(&[0x81]) {
            let diagnostic = reader.integer(&[0x81], LEAST, GREATEST)?;
            return Ok(Err(diagnostic));
        }
        let version = reader.integer(&[0x80], LEAST, GREATEST)?;
        Ok(Ok(version))
    }

    #[tactic(auto, using(ber_core::specs::Parts::lengths))]
    fn size(outcome: &Result<i128, i128>) -> usize {
        match outcome {
            Ok(version) => element_length(&[0x80], integer_length(*version)),
            Err(diagnostic) => element_length(&[0x81], integer_length(*diagnostic)),
        }
    }

    fn write(outcome: &Result<i128, i128>, writer: &mut Writer) {
        match outcome {
            Ok(version) => writer.integer(&[0x80], *version),
            Err(diagnostic) => writer.integer(&[0x81], *diagnostic),
        }
    }
}

// The least INTEGER of 64 bits.
const LEAST: i128 = i64::MIN as i128;

// The greatest INTEGER of 64 bits.
const GREATEST: i128 = u64::MAX as i128;
