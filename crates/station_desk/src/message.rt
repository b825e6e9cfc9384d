// The message of a transfer buffer.
ghost use Rattle.std.specs.Prelude.{◌≡◌, ◌≤◌, length, IfOk};
ghost use Rattle.std.specs.List.{AllByRecursion};
ghost use Rattle.frame_select.specs.Item.{items_of};
ghost use Rattle.station_desk.specs.declared.limits.TheConstants.{BUFFER_ITEMS};
ghost use Rattle.station_desk.specs.Readable.{IsHanded};
ghost use Rattle.station_desk.specs.ToldBuffer.{message_octets};

use ber_core::Writer;
use buffer_message::BufferMessage;
use frame_select::Item;
use octet_core::Memory;
use return_pdu::ReturnKind;
use return_pdu::laws::{end_is_plain, frames_are_plain};
use std::alloc::Global;

/// The message (CCSDS 913.1-B) of a transfer buffer of RAF with these items.
pub fn message(alloc: Global, items: &[Item]) -> Result<Writer, Memory>
    requires few { length items.now ≤ BUFFER_ITEMS }
    requires handed { AllByRecursion IsHanded (items_of items.now) }
    ensures { IfOk result (λ writer. writer.octets ≡ message_octets (items_of items.now)) }
{
    end_is_plain();
    frames_are_plain();
    BufferMessage::unsigned(ReturnKind::Raf, items).written(alloc)
}
