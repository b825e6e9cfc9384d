use ber_core::{BerFault, Reader, Writer, element_length, integer_length};
use ber_shape::Element;

/// What a SCHEDULE-STATUS-REPORT asks for (CCSDS 911.1-B, annex A).
#[derive(Clone, Copy, Debug, PartialEq, Eq)]
pub enum ReportKind {
    /// Under the context tag 0, one report at once.
    Now,
    /// Under the context tag 1, a report each so many seconds.
    Cycle(u16),
    /// Under the context tag 2, no further reports.
    Stop,
}

impl<'a> Element<'a> for ReportKind {
    ghost use Rattle.std.specs.Prelude.{refl};
    ghost use Rattle.sle_common.specs.declared.report_kind.ReportKind.{ReportKind};
    ghost use Rattle.sle_common.specs.Report.{report_kind};

    type Value = ReportKind;

    ghost Seen = { ReportKind };

    ghost shape = { report_kind };

    ghost is_shallow = { refl };

    ghost seen = { λ kind. kind };

    fn read(reader: &mut Reader<'a>) -> Result<ReportKind, BerFault> {
        if reader.next_is(&[0x81]) {
            let cycle = reader.integer(&[0x81], 0, 65535)?;
            return Ok(ReportKind::Cycle(cycle as u16));
        }
        if reader.next_is(&[0x82]) {
            reader.null(&[0x82])?;
            return Ok(ReportKind::Stop);
        }
        reader.null(&[0x80])?;
        Ok(ReportKind::Now)
    }

    #[tactic(auto, using(ber_core::specs::Parts::lengths))]
    fn size(value: &ReportKind) -> usize {
        match value {
            ReportKind::Now => element_length(&[0x80], 0),
            ReportKind::Cycle(cycle) => {
                element_length(&[0x81], integer_length(i128::from(*cycle)))
            }
            ReportKind::Stop => element_length(&[0x82], 0),
        }
    }

    fn write(value: &ReportKind, writer: &mut Writer) {
        match value {
            ReportKind::Now => writer.null(&[0x80]),
            ReportKind::Cycle(cycle) => writer.integer(&[0x81], i128::from(*cycle)),
            ReportKind::Stop => writer.null(&[0x82]),
        }
    }
}
