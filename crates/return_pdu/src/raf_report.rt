use ber_core::{BerFault, Reader, Writer};
use ber_shape::{Element, Members, Pdu};
use sle_common::{Credentials, Number};

/// The status report of return all frames (CCSDS 911.1-B, annex A): a SEQUENCE under the context
/// tag 9. Its numbers are INTEGERs of at most 64 bits, signed or unsigned; what they count is this
/// product's own.
#[derive(Clone, Copy, Debug, PartialEq, Eq)]
pub struct RafReport<'a> {
    pub credentials: Credentials<'a>,
    /// Frames of quality 0 that were delivered.
    pub error_free: i128,
    /// Frames that were delivered.
    pub delivered: i128,
    /// The lock of the frame synchroniser: 0 in lock, 1 out of lock, 3 not known.
    pub frame_sync: i128,
    /// The lock of the symbol synchroniser.
    pub symbol: i128,
    /// The lock of the subcarrier demodulator.
    pub subcarrier: i128,
    /// The lock of the carrier demodulator.
    pub carrier: i128,
    /// Running 0, interrupted 1, halted 2.
    pub production: i128,
}

impl<'a> Members<'a> for RafReport<'a> {
    ghost use Rattle.std.specs.Prelude.{refl};
    ghost use Rattle.return_pdu.specs.Reporting.{RafReportContent, raf_report_fields};
    ghost use Rattle.return_pdu.specs.Seen.{raf_report_of};

    type Value = RafReport<'a>;

    ghost Seen = { RafReportContent };

    ghost shape = { raf_report_fields };

    ghost is_shallow = { refl };

    ghost seen = { raf_report_of };

    fn read(reader: &mut Reader<'a>) -> Result<RafReport<'a>, BerFault> {
        Ok(RafReport {
            credentials: Credentials::read(reader)?,
            error_free: Number::read(reader)?,
            delivered: Number::read(reader)?,
            frame_sync: Number::read(reader)?,
            symbol: Number::read(reader)?,
            subcarrier: Number::read(reader)?,
            carrier: Number::read(reader)?,
            production: Number::read(reader)?,
        })
    }

    #[tactic(auto, using(ber_core::specs::Parts::lengths))]
    fn size(value: &RafReport<'a>) -> usize {
        Credentials::size(&value.credentials)
            + Number::size(&value.error_free)
            + Number::size(&value.delivered)
            + Number::size(&value.frame_sync)
            + Number::size(&value.symbol)
            + Number::size(&value.subcarrier)
            + Number::size(&value.carrier)
            + Number::size(&value.production)
    }

    #[tactic(auto, unfolding(ber_core::specs::Spelling::canonical))]
    fn write(value: &RafReport<'a>, writer: &mut Writer) {
        Credentials::write(&value.credentials, writer);
        Number::write(&value.error_free, writer);
        Number::write(&value.delivered, writer);
        Number::write(&value.frame_sync, writer);
        Number::write(&value.symbol, writer);
        Number::write(&value.subcarrier, writer);
        Number::write(&value.carrier, writer);
        Number::write(&value.production, writer);
    }
}

impl<'a> Pdu<'a> for RafReport<'a> {
    ghost use Rattle.std.specs.Prelude.{◌≡◌, refl, [], ◌∷◌};

    ghost tag = { 0xa9 ∷ [] };

    ghost is_tag = { refl };

    ghost is_small = { refl };

    fn identifier() -> &'static [u8]
        ensures { result.now ≡ 0xa9 ∷ [] }
    {
        &[0xa9]
    }
}
