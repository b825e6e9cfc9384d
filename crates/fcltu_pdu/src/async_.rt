ghost use Rattle.std.specs.Prelude.{◌≡◌};

use crate::last_ok::LastOk;
use crate::last_processed::LastProcessed;
use crate::notice_kind::NoticeKind;
use ber_core::{BerFault, Reader, Writer};
use ber_shape::{Element, Members, Pdu};
use cds_time::Cds;
use fcltu_numbers::CltuNotificationType;
use sle_common::{Credentials, Number};

/// ASYNC-NOTIFY (CCSDS 912.1-B, annex A): a SEQUENCE under the context tag 12. Its statuses are
/// INTEGERs of at most 64 bits, signed or unsigned.
#[derive(Clone, Copy, Debug, PartialEq, Eq)]
pub struct Async<'a> {
    pub credentials: Credentials<'a>,
    /// What it tells.
    pub kind: CltuNotificationType,
    /// The number of the event's invocation, for the three kinds of an event alone.
    pub number: Option<u32>,
    /// The last CLTU that was taken to radiate: its identification, when its radiation started, and
    /// its status: radiated 0, expired 1, interrupted 2, started 4.
    pub processed: Option<(u32, Option<Cds>, i128)>,
    /// The last CLTU that was radiated: its identification, and when its radiation stopped.
    pub ok: Option<(u32, Cds)>,
    /// Operational 0, configured 1, interrupted 2, halted 3.
    pub production: i128,
    /// 0 to 3 where this product sends it.
    pub uplink: i128,
}

impl<'a> Members<'a> for Async<'a> {
    ghost use Rattle.std.specs.Prelude.{refl};
    ghost use Rattle.fcltu_pdu.specs.Async.{Notice, notice_fields, notice_of};

    type Value = Async<'a>;

    ghost Seen = { Notice };

    ghost shape = { notice_fields };

    ghost is_shallow = { refl };

    ghost seen = { notice_of };

    fn read(reader: &mut Reader<'a>) -> Result<Async<'a>, BerFault> {
        let credentials = Credentials::read(reader)?;
        let notice = NoticeKind::read(reader)?;
        Ok(Async {
            credentials,
            kind: notice.kind,
            number: notice.number,
            processed: LastProcessed::read(reader)?,
            ok: LastOk::read(reader)?,
            production: Number::read(reader)?,
            uplink: Number::read(reader)?,
        })
    }

    #[tactic(auto, using(ber_core::specs::Parts::lengths))]
    fn size(value: &Async<'a>) -> usize {
        Credentials::size(&value.credentials)
            + NoticeKind::size(&kind_of(value))
            + LastProcessed::size(&value.processed)
            + LastOk::size(&value.ok)
            + Number::size(&value.production)
            + Number::size(&value.uplink)
    }

    #[tactic(auto, unfolding(ber_core::specs::Spelling::canonical))]
    fn write(value: &Async<'a>, writer: &mut Writer) {
        Credentials::write(&value.credentials, writer);
        NoticeKind::write(&kind_of(value), writer);
        LastProcessed::write(&value.processed, writer);
        LastOk::write(&value.ok, writer);
        Number::write(&value.production, writer);
        Number::write(&value.uplink, writer);
    }
}

impl<'a> Pdu<'a> for Async<'a> {
    ghost use Rattle.std.specs.Prelude.{◌≡◌, refl, [], ◌∷◌};

    ghost tag = { 0xac ∷ [] };

    ghost is_tag = { refl };

    ghost is_small = { refl };

    fn identifier() -> &'static [u8]
        ensures { result.now ≡ 0xac ∷ [] }
    {
        &[0xac]
    }
}

// Its kind, with the number that it carries.
fn kind_of(notice: &Async) -> NoticeKind
    ensures { result ≡ record { kind = notice.now.kind; number = notice.now.number } }
{
    NoticeKind {
        kind: notice.kind,
        number: notice.number,
    }
}
