// The message of a buffer.
ghost use Rattle.std.specs.Prelude.{◌≡◌, ◌+◌, ◌*◌, ◌≤◌, ◌<◌, IsTrue, IfOk, Some, None};
ghost use Rattle.std.specs.Prelude.{length, option_map};
ghost use Rattle.std.specs.List.{AllByRecursion, list_all, sum_by};
ghost use Rattle.cds_time.specs.declared.cds.TheConstants.{MOMENT_END};
ghost use Rattle.ber_core.specs.Written.{HasRoom, Appends};
ghost use Rattle.isp1_auth.specs.Numbers.{next_number};
ghost use Rattle.isp1_auth.specs.declared.random_numbers.TheConstants.{GREATEST_NUMBER};
ghost use Rattle.isp1_tml.specs.declared.message.TheConstants.{HEADER, LONGEST_PDU};
ghost use Rattle.archive_terms.specs.Delivery.{frame_octets};
ghost use Rattle.archive_terms.specs.Placed as placed;
ghost use Rattle.archive_terms.specs.declared.limits.TheConstants.{FULL_BUFFER, LONGEST_FRAME};
ghost use Rattle.return_pdu.specs.TransferItem.{item_shape, spelled_items};
ghost use Rattle.frame_select.specs.Item.{items_of};
ghost use Rattle.buffer_message.specs.Signing.{signing_of, number_after};
ghost use Rattle.buffer_message.specs.Content.{contents};
ghost use Rattle.buffer_message.specs.Fitting.{is_in_range, fits_message};
ghost use Rattle.buffer_message.specs.Message.{message_octets, IsRead};
ghost use Rattle.buffer_message.specs.Measured.{HasMoment, IsMeasured};

use crate::fitting;
use crate::item::{item_length, put_item};
use crate::limits::{BESIDE_FRAME, MOST_ITEMS};
use crate::numbers::{draw, next_number};
use crate::signer::Signer;
use ber_core::Writer;
use frame_select::Item;
use isp1_auth::RandomNumbers;
use isp1_tml::{HEADER, LONGEST_PDU, head};
use octet_core::Memory;
use return_pdu::laws::{buffer_is_head_and_encoded, buffers_are_exact};
use return_pdu::{ReturnKind, buffer_head, buffer_length};
use std::alloc::Global;
use std::marker::Model;

// The kind of a transport message that is a PDU.
const PDU: u8 = 1;

/// The message (CCSDS 913.1-B) of a transfer buffer (CCSDS 911.1-B and 911.2-B, annex A), which
/// lends its items. Contracts see its octets.
#[derive(Drop)]
pub struct BufferMessage<'a> {
    service: ReturnKind,
    signer: Option<Signer<'a>>,
    // The number of the first item's credentials.
    first: u32,
    items: &'a [Item],
    // How many octets the items have.
    content: usize,
}

impl<'a> Model for BufferMessage<'a> {
    ghost use Rattle.std.specs.Prelude.{List, ℕ, option_map};
    ghost use Rattle.frame_select.specs.Item.{items_of};
    ghost use Rattle.buffer_message.specs.Signing.{signing_of};
    ghost use Rattle.buffer_message.specs.Message.{message_octets};
    ghost use Rattle.buffer_message.specs.Measured.{IsMeasured};

    ghost Value = { List ℕ };

    ghost view = { λ m. message_octets m.service (option_map signing_of m.signer)
        m.first (items_of m.items.now) };

    ghost invariant = { λ m. IsMeasured m.service (option_map signing_of m.signer)
        m.first (items_of m.items.now) m.content };
}

impl<'a> BufferMessage<'a> {
    /// Whether items go into one message: each with its fields in their ranges, at most 1,000 of
    /// them, and fewer octets of frames than fill a buffer and the longest frame has.
    pub fn fits(items: &[Item]) -> bool
        ensures { result ≡ fits_message (items_of items.now) }
    {
        fitting::fits(items)
    }

    /// The message of items without credentials.
    pub fn unsigned(service: ReturnKind, items: &'a [Item]) -> BufferMessage<'a>
        requires { IsTrue (fits_message (items_of items.now)) }
        ensures octets { result ≡ message_octets service None 0 (items_of items.now) }
        ensures read { IsRead service None 0 (items_of items.now) }
    {
        BufferMessage::measured(service, None, 0, items)
    }

    /// The message of items each of which is signed, with a number drawn for each in their order.
    pub fn signed(
        service: ReturnKind,
        items: &'a [Item],
        signer: Signer<'a>,
        numbers: &mut RandomNumbers,
    ) -> BufferMessage<'a>
        requires items { IsTrue (fits_message (items_of items.now)) }
        requires moment { signer.moment < MOMENT_END }
        ensures octets { result ≡ message_octets service
            (Some (signing_of signer.entry)) (next_number numbers.old) (items_of items.now) }
        ensures read { IsRead service (Some (signing_of signer.entry))
            (next_number numbers.old) (items_of items.now) }
        ensures numbers { numbers.new ≡ number_after numbers.old (items_of items.now) }
    {
        let first = draw(items, numbers);
        BufferMessage::measured(service, Some(signer), first, items)
    }

    fn measured(
        service: ReturnKind,
        signer: Option<Signer<'a>>,
        first: u32,
        items: &'a [Item],
    ) -> BufferMessage<'a>
        requires items { IsTrue (fits_message (items_of items.now)) }
        requires moment { HasMoment (option_map signing_of signer) }
        requires number { first ≤ GREATEST_NUMBER }
        ensures octets { result ≡ message_octets service
            (option_map signing_of signer.entry) first (items_of items.now) }
        ensures read { IsRead service (option_map signing_of signer.entry) first
            (items_of items.now) }
    {
        buffers_are_exact();
        buffer_is_head_and_encoded();
        ber_core::laws::canonical_spells();
        let content = measure(service, &signer, first, items);
        BufferMessage {
            service,
            signer,
            first,
            items,
            content,
        }
    }

    /// The number of octets: what a writer must have room for.
    pub fn length(&self) -> usize
        ensures exact { result ≡ length self.now }
        ensures small { result ≤ HEADER + LONGEST_PDU }
    {
        buffer_is_head_and_encoded();
        HEADER + buffer_length(self.content)
    }

    /// Appends the octets.
    pub fn put(&self, writer: &mut Writer)
        requires { HasRoom writer.old self.now }
        ensures { Appends writer.old writer.new self.now }
    {
        buffer_is_head_and_encoded();
        writer.raw(&head(PDU, buffer_length(self.content) as u32));
        buffer_head(self.content, writer);
        put_items(self.service, &self.signer, self.first, self.items, writer);
    }

    /// The octets, in memory that is reserved here once.
    pub fn written(&self, alloc: Global) -> Result<Writer, Memory>
        ensures { IfOk result (λ writer. writer ≡ record { octets = self.now; room = 0 }) }
    {
        let Ok(mut writer) = Writer::new(alloc, self.length()) else {
            return Err(Memory);
        };
        self.put(&mut writer);
        Ok(writer)
    }
}

// How many octets the items have.
fn measure(service: ReturnKind, signer: &Option<Signer<'_>>, first: u32, items: &[Item]) -> usize
    requires in_range { IsTrue (list_all is_in_range (items_of items.now)) }
    requires few { length items.now ≤ MOST_ITEMS }
    requires short { sum_by frame_octets (placed.items_of (items_of items.now))
        < FULL_BUFFER + LONGEST_FRAME }
    requires number { first ≤ GREATEST_NUMBER }
    ensures exact { result ≡ length (spelled_items (contents service
        (option_map signing_of signer.now) first (items_of items.now))) }
    ensures fit { AllByRecursion (item_shape service).Fits
        (contents service (option_map signing_of signer.now) first
        (items_of items.now)) }
    ensures small { result ≤ sum_by frame_octets (placed.items_of (items_of items.now))
        + BESIDE_FRAME * length items.now }
{
    let mut content = 0;
    let mut number = first;
    for item in items {
        content += item_length(service, signer, number, item);
        number = next_number(number);
    }
    content
}

// Appends the items.
fn put_items(
    service: ReturnKind,
    signer: &Option<Signer<'_>>,
    first: u32,
    items: &[Item],
    writer: &mut Writer,
)
    requires in_range { IsTrue (list_all is_in_range (items_of items.now)) }
    requires moment { HasMoment (option_map signing_of signer.now) }
    requires number { first ≤ GREATEST_NUMBER }
    requires room { HasRoom writer.old (spelled_items (contents service
        (option_map signing_of signer.now) first (items_of items.now))) }
    ensures { Appends writer.old writer.new (spelled_items (contents service
        (option_map signing_of signer.now) first (items_of items.now))) }
{
    let mut number = first;
    for item in items {
        put_item(service, signer, number, item, writer);
        number = next_number(number);
    }
}
