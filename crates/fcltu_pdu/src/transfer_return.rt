use crate::unsigned_long::UnsignedLong;
use ber_core::{BerFault, Reader, Writer};
use ber_shape::{Element, Members, Pdu};
use sle_common::{Confirmation, Credentials, Diagnostic, InvokeId, Number};

/// The return of TRANSFER-DATA (CCSDS 912.1-B, annex A): a SEQUENCE under the context tag 11.
#[derive(Clone, Copy, Debug, PartialEq, Eq)]
pub struct TransferReturn<'a> {
    pub credentials: Credentials<'a>,
    pub invoke: u16,
    /// The identification that the next CLTU must have.
    pub next: u32,
    /// Octets that are free for CLTUs: at most 64 bits, signed or unsigned.
    pub free: i128,
    /// That the CLTU was queued, or why not.
    pub result: Result<(), Diagnostic>,
}

impl<'a> Members<'a> for TransferReturn<'a> {
    ghost use Rattle.std.specs.Prelude.{refl};
    ghost use Rattle.fcltu_pdu.specs.Transfer.{TransferReturn, transfer_return_fields};
    ghost use Rattle.fcltu_pdu.specs.Transfer.{transfer_return_of};

    type Value = TransferReturn<'a>;

    ghost Seen = { TransferReturn };

    ghost shape = { transfer_return_fields };

    ghost is_shallow = { refl };

    ghost seen = { transfer_return_of };

    fn read(reader: &mut Reader<'a>) -> Result<TransferReturn<'a>, BerFault> {
        Ok(TransferReturn {
            credentials: Credentials::read(reader)?,
            invoke: InvokeId::read(reader)?,
            next: UnsignedLong::read(reader)?,
            free: Number::read(reader)?,
            result: Confirmation::read(reader)?,
        })
    }

    #[tactic(auto, using(ber_core::specs::Parts::lengths))]
    fn size(value: &TransferReturn<'a>) -> usize {
        Credentials::size(&value.credentials)
            + InvokeId::size(&value.invoke)
            + UnsignedLong::size(&value.next)
            + Number::size(&value.free)
            + Confirmation::size(&value.result)
    }

    #[tactic(auto, unfolding(ber_core::specs::Spelling::canonical))]
    fn write(value: &TransferReturn<'a>, writer: &mut Writer) {
        Credentials::write(&value.credentials, writer);
        InvokeId::write(&value.invoke, writer);
        UnsignedLong::write(&value.next, writer);
        Number::write(&value.free, writer);
        Confirmation::write(&value.result, writer);
    }
}

impl<'a> Pdu<'a> for TransferReturn<'a> {
    ghost use Rattle.std.specs.Prelude.{◌≡◌, refl, [], ◌∷◌};

    ghost tag = { 0xab ∷ [] };

    ghost is_tag = { refl };

    ghost is_small = { refl };

    fn identifier() -> &'static [u8]
        ensures { result.now ≡ 0xab ∷ [] }
    {
        &[0xab]
    }
}
