ghost use Rattle.std.specs.Prelude.{◌≡◌, ◌+◌, ◌≤◌, ◌<◌, ◌^◌, ◌∷◌, [], length, MatchOption};
ghost use Rattle.std.specs.Prelude.{IfSome, IsOk, Ok};
ghost use Rattle.ber_core.specs.Reading.{Gives};
ghost use Rattle.ber_core.specs.Written.{HasRoom, Appends};
ghost use Rattle.ber_shape.specs.Exact.{whole, IsDecoded};
ghost use Rattle.return_pdu.specs.declared.return_kind.ReturnKind.TheVariants.{Raf, Rcf};
ghost use Rattle.return_pdu.specs.Items.{buffer_start};
ghost use Rattle.return_pdu.specs.TransferItem.{items, buffer, ItemFits};
ghost use Rattle.return_pdu.specs.Seen.{item_of};

use crate::raf_item::RafItem;
use crate::rcf_item::RcfItem;
use crate::return_kind::ReturnKind;
use crate::transfer_item::TransferItem;
use ber_core::{BerFault, Reader, Writer, element_length, laws};
use ber_shape::{lend_list, split_first};
use std::marker::Model;

// More than a slice has octets.
const ALL: usize = 1 << 63;

const BUFFER: [u8; 1] = [0xa8];

/// A transfer buffer that was checked whole; its items are read where they stand. Contracts see the
/// list of the items that weren't given yet.
#[derive(Drop)]
pub struct TransferBuffer<'a> {
    octets: &'a [u8],
    service: ReturnKind,
}

impl<'a> Model for TransferBuffer<'a> {
    ghost use Rattle.std.specs.Prelude.{List, IsOk};
    ghost use Rattle.ber_shape.specs.Exact.{whole};
    ghost use Rattle.ber_shape.specs.Lent.{values};
    ghost use Rattle.return_pdu.specs.TransferItem.{ItemContent, items};

    ghost Value = { List ItemContent };

    ghost view = { λ b. values (items b.service) b.octets.now };

    ghost invariant = { λ b. IsOk (whole (items b.service).read b.octets.now) };
}

impl<'a> TransferBuffer<'a> {
    /// The buffer of RAF that these octets spell, all of them, or the first fault.
    pub fn decode_raf(octets: &'a [u8]) -> Result<TransferBuffer<'a>, BerFault>
        ensures exact { Gives (λ buffer. buffer) result (whole (buffer Raf).read octets.now) }
        ensures spelled { IsDecoded (buffer Raf) (λ buffer. buffer) octets.now result }
    {
        laws::slice(octets);
        let decoded = TransferBuffer::read_raf(octets);
        decoded
    }

    /// The buffer of RCF that these octets spell, all of them, or the first fault.
    pub fn decode_rcf(octets: &'a [u8]) -> Result<TransferBuffer<'a>, BerFault>
        ensures exact { Gives (λ buffer. buffer) result (whole (buffer Rcf).read octets.now) }
        ensures spelled { IsDecoded (buffer Rcf) (λ buffer. buffer) octets.now result }
    {
        laws::slice(octets);
        let decoded = TransferBuffer::read_rcf(octets);
        decoded
    }

    fn read_raf(octets: &'a [u8]) -> Result<TransferBuffer<'a>, BerFault>
        ensures { Gives (λ buffer. buffer) result (whole (buffer Raf).read octets.now) }
    {
        let mut reader = Reader::new(octets);
        reader.element(&BUFFER)?;
        let octets = lend_list::<RafItem>(ALL, &mut reader)?;
        reader.leave()?;
        reader.leave()?;
        Ok(TransferBuffer::found(octets, ReturnKind::Raf))
    }

    fn read_rcf(octets: &'a [u8]) -> Result<TransferBuffer<'a>, BerFault>
        ensures { Gives (λ buffer. buffer) result (whole (buffer Rcf).read octets.now) }
    {
        let mut reader = Reader::new(octets);
        reader.element(&BUFFER)?;
        let octets = lend_list::<RcfItem>(ALL, &mut reader)?;
        reader.leave()?;
        reader.leave()?;
        Ok(TransferBuffer::found(octets, ReturnKind::Rcf))
    }

    // A buffer whose items were found in these octets.
    fn found(octets: &'a [u8], service: ReturnKind) -> TransferBuffer<'a>
        requires { IsOk (whole (items service).read octets.now) }
        ensures { whole (items service).read octets.now ≡ Ok result }
    {
        TransferBuffer { octets, service }
    }

    /// The next item, or none behind the last one. Its fields are read again from its octets; those
    /// of a frame aren't gone over. It fits, so it may be encoded.
    #[tactic(auto, using(crate::proofs::Fitting::first_fits))]
    pub fn next(&mut self) -> Option<TransferItem<'a>>
        ensures gives { MatchOption result ((self.old ≡ []) × (self.new ≡ []))
            (λ item. self.old ≡ item_of item ∷ self.new) }
        ensures fits { IfSome result (λ item. ItemFits (item_of item)) }
    {
        laws::slice(self.octets);
        let (item, rest) = match self.service {
            ReturnKind::Raf => split_first::<RafItem>(ALL, self.octets)?,
            ReturnKind::Rcf => split_first::<RcfItem>(ALL, self.octets)?,
        };
        self.octets = rest;
        Some(TransferItem::of_parts(&item))
    }
}

/// The number of octets of a transfer buffer whose items have so many octets.
pub fn buffer_length(content: usize) -> usize
    requires { content + 10 < 2 ^ 64 }
    ensures exact { result ≡ length (buffer_start content) + content }
    ensures small { result ≤ content + 10 }
{
    element_length(&BUFFER, content)
}

/// Appends the tag and length of a transfer buffer whose items, which the caller appends next, have
/// so many octets.
pub fn buffer_head(content: usize, writer: &mut Writer)
    requires { HasRoom writer.old (buffer_start content) }
    ensures { Appends writer.old writer.new (buffer_start content) }
{
    writer.head(&BUFFER, content);
}
