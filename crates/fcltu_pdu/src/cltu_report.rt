use crate::last_ok::LastOk;
use crate::last_processed::LastProcessed;
use ber_core::{BerFault, Reader, Writer};
use ber_shape::{Element, Members, Pdu};
use cds_time::Cds;
use sle_common::{Credentials, Number};

/// The status report of the forward CLTU service (CCSDS 912.1-B, annex A): a SEQUENCE under the
/// context tag 13. Its numbers are INTEGERs of at most 64 bits, signed or unsigned; what they count
/// is this product's own.
#[derive(Clone, Copy, Debug, PartialEq, Eq)]
pub struct CltuReport<'a> {
    pub credentials: Credentials<'a>,
    /// The last CLTU that was taken to radiate: its identification, when its radiation started, and
    /// its status: radiated 0, expired 1, interrupted 2, started 4.
    pub processed: Option<(u32, Option<Cds>, i128)>,
    /// The last CLTU that was radiated: its identification, and when its radiation stopped.
    pub ok: Option<(u32, Cds)>,
    /// Operational 0, configured 1, interrupted 2, halted 3.
    pub production: i128,
    /// 0 to 3 where this product sends it.
    pub uplink: i128,
    /// CLTUs that were accepted.
    pub received: i128,
    /// CLTUs that were radiated or expired.
    pub taken: i128,
    /// CLTUs whose radiation was told done.
    pub radiated: i128,
    /// Octets that are free for CLTUs.
    pub free: i128,
}

impl<'a> Members<'a> for CltuReport<'a> {
    ghost use Rattle.std.specs.Prelude.{refl};
    ghost use Rattle.fcltu_pdu.specs.Report.{Report, report_fields, report_of};

    type Value = CltuReport<'a>;

    ghost Seen = { Report };

    ghost shape = { report_fields };

    ghost is_shallow = { refl };

    ghost seen = { report_of };

    fn read(reader: &mut Reader<'a>) -> Result<CltuReport<'a>, BerFault> {
        Ok(CltuReport {
            credentials: Credentials::read(reader)?,
            processed: LastProcessed::read(reader)?,
            ok: LastOk::read(reader)?,
            production: Number::read(reader)?,
            uplink: Number::read(reader)?,
            received: Number::read(reader)?,
            taken: Number::read(reader)?,
            radiated: Number::read(reader)?,
            free: Number::read(reader)?,
        })
    }

    #[tactic(auto, using(ber_core::specs::Parts::lengths))]
    fn size(value: &CltuReport<'a>) -> usize {
        Credentials::size(&value.credentials)
            + LastProcessed::size(&value.processed)
            + LastOk::size(&value.ok)
            + Number::size(&value.production)
            + Number::size(&value.uplink)
            + Number::size(&value.received)
            + Number::size(&value.taken)
            + Number::size(&value.radiated)
            + Number::size(&value.free)
    }

    #[tactic(auto, unfolding(ber_core::specs::Spelling::canonical))]
    fn write(value: &CltuReport<'a>, writer: &mut Writer) {
        Credentials::write(&value.credentials, writer);
        LastProcessed::write(&value.processed, writer);
        LastOk::write(&value.ok, writer);
        Number::write(&value.production, writer);
        Number::write(&value.uplink, writer);
        Number::write(&value.received, writer);
        Number::write(&value.taken, writer);
        Number::write(&value.radiated, writer);
        Number::write(&value.free, writer);
    }
}

impl<'a> Pdu<'a> for CltuReport<'a> {
    ghost use Rattle.std.specs.Prelude.{◌≡◌, refl, [], ◌∷◌};

    ghost tag = { 0xad ∷ [] };

    ghost is_tag = { refl };

    ghost is_small = { refl };

    fn identifier() -> &'static [u8]
        ensures { result.now ≡ 0xad ∷ [] }
    {
        &[0xad]
    }
}
