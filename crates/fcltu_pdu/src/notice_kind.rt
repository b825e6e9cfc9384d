ghost use Rattle.std.specs.Prelude.{◌≡◌, ◌+◌, Some, None, [], ◌∷◌};
ghost use Rattle.fcltu_numbers.specs.CltuNotificationType.{number_of};

use ber_core::{BerFault, Reader, Writer, element_length, integer_length};
use ber_shape::Element;
use fcltu_numbers::CltuNotificationType;
use sle_numbers::Numbered;

/// The kind of a notice: the context tag that it has, and for the kinds 6 to 8 alone the number of
/// an event's invocation.
#[derive(Clone, Copy)]
pub(crate) struct NoticeKind {
    pub kind: CltuNotificationType,
    pub number: Option<u32>,
}

fn plain(kind: CltuNotificationType) -> NoticeKind
    ensures { result ≡ record { kind = kind; number = None } }
{
    NoticeKind { kind, number: None }
}

fn numbered(kind: CltuNotificationType, number: u32) -> NoticeKind
    ensures { result ≡ record { kind = kind; number = Some number } }
{
    NoticeKind {
        kind,
        number: Some(number),
    }
}

// The identifier of the kind's element: its context tag, primitive.
fn identifier(kind: CltuNotificationType) -> [u8; 1]
    ensures { result ≡ (0x80 + number_of kind) ∷ [] }
{
    [0x80 + kind.number()]
}

impl<'a> Element<'a> for NoticeKind {
    ghost use Rattle.std.specs.Prelude.{refl};
    ghost use Rattle.fcltu_pdu.specs.declared.notice_kind.NoticeKind.{NoticeKind};
    ghost use Rattle.fcltu_pdu.specs.Notice.{notice_kind};

    type Value = NoticeKind;

    ghost Seen = { NoticeKind };

    ghost shape = { notice_kind };

    ghost is_shallow = { refl };

    ghost seen = { λ kind. kind };

    fn read(reader: &mut Reader<'a>) -> Result<NoticeKind, BerFault> {
        if reader.next_is(&[0x81]) {
            reader.null(&[0x81])?;
            return Ok(plain(CltuNotificationType::SlduExpired));
        }
        if reader.next_is(&[0x82]) {
            reader.null(&[0x82])?;
            return Ok(plain(CltuNotificationType::ProductionInterrupted));
        }
        if reader.next_is(&[0x83]) {
            reader.null(&[0x83])?;
            return Ok(plain(CltuNotificationType::ProductionHalted));
        }
        if reader.next_is(&[0x84]) {
            reader.null(&[0x84])?;
            return Ok(plain(CltuNotificationType::ProductionOperational));
        }
        if reader.next_is(&[0x85]) {
            reader.null(&[0x85])?;
            return Ok(plain(CltuNotificationType::BufferEmpty));
        }
        if reader.next_is(&[0x86]) {
            let number = reader.integer(&[0x86], 0, 4294967295)?;
            return Ok(numbered(CltuNotificationType::ActionListCompleted, number as u32));
        }
        if reader.next_is(&[0x87]) {
            let number = reader.integer(&[0x87], 0, 4294967295)?;
            return Ok(numbered(CltuNotificationType::ActionListNotCompleted, number as u32));
        }
        if reader.next_is(&[0x88]) {
            let number = reader.integer(&[0x88], 0, 4294967295)?;
            return Ok(numbered(CltuNotificationType::EventConditionEvFalse, number as u32));
        }
        reader.null(&[0x80])?;
        Ok(plain(CltuNotificationType::CltuRadiated))
    }

    #[tactic(auto, using(ber_core::specs::Parts::lengths, crate::specs::Notice::tree_of_kind))]
    fn size(value: &NoticeKind) -> usize {
        match value.number {
            None => element_length(&identifier(value.kind), 0),
            Some(number) => {
                element_length(&identifier(value.kind), integer_length(i128::from(number)))
            }
        }
    }

    #[tactic(auto, using(crate::specs::Notice::tree_of_kind))]
    fn write(value: &NoticeKind, writer: &mut Writer) {
        match value.number {
            None => writer.null(&identifier(value.kind)),
            Some(number) => writer.integer(&identifier(value.kind), i128::from(number)),
        }
    }
}
